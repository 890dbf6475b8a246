// The schedules of a book judged in order of priority: the results by place, and what they register by account hour.
ghost use Rattle.std.specs.Prelude.{◌≡◌, true, length, take};
ghost use Rattle.rules.specs.Settlement.{placed};
ghost use Rattle.image.specs.Valid.{is_sound, book_in, schedule_ok};
ghost use Rattle.valuation.specs.Tables.{Priced, setup_in};
ghost use Rattle.valuation.specs.Congruity.{nothing_used};
ghost use Rattle.settlement.specs.Judging.{RoomFor, by_priority, NoneJudged, Judges, Adds, AllJudged};

use image::layout::{SCHEDULE_WIDTH, SCHEDULES_OFFSET};
use image::schedules::schedule_at;
use priority::order::{in_order, no_schedules};
use rules::limits::MOST_SCHEDULES;
use rules::{Placed, Schedule};
use setup::entries::point;
use valuation::congruity::{nothing_used, result_of, use_up};
use valuation::registered::{Registered, carried_by};

// Puts down the schedules of a book, each with its place.
#[tactic(auto, using(book::proofs::StateLaws::schedule_count_high, book::proofs::StateLaws::book_length))]
fn place_each(book: &[u8], all: &mut [Placed])
    requires { (is_sound book.now ≡ true) × (length all.old ≡ length (book_in book.now).schedules) }
    ensures { all.new ≡ placed 1 (book_in book.now).schedules }
{
    for k in 0..all.len() {
        let schedule = schedule_at(book, SCHEDULES_OFFSET + SCHEDULE_WIDTH * k);
        let place = k as u16 + 1;
        all[k] = Placed { place, schedule };
    }
}

// Judges a schedule after those that the tables hold: its result, what it uses up of the limits, and what it registers in its account hour.
fn judge(
    book: &[u8],
    prices: &[u8],
    used: &mut [u32],
    registered: &mut Registered,
    x: Schedule,
) -> u8
    requires priced { Priced book.now prices.now × (schedule_ok (setup_in book.now) x ≡ true) }
    requires room_for { RoomFor x used.old registered.old.energy registered.old.charges }
    ensures limits { Judges book.now prices.now x result used.old used.new }
    ensures sums { Adds
        book.now prices.now x result
        registered.old.energy registered.new.energy registered.old.charges registered.new.charges }
{
    let site = point(book, x.point);
    let result = result_of(book, prices, used, site, x).number();
    use_up(used, site.account, x, result);
    let more = carried_by(book, prices, site, x, result);
    registered.add(site.account, x.hour, more);
    result
}

// Judges the schedules of a book in their order, one after the other, with `used` for what they use up.
fn judge_each(
    book: &[u8],
    prices: &[u8],
    order: &[Placed],
    used: &mut [u32],
    registered: &mut Registered,
    results: &mut [u8],
)
    requires priced { Priced book.now prices.now }
    requires in_order { order.now ≡ by_priority book.now }
    requires nothing_judged { (used.old ≡ nothing_used) × NoneJudged registered.old.energy registered.old.charges results.old }
    ensures { AllJudged book.now prices.now registered.new.energy registered.new.charges results.new }
{
    for next in order {
        let result = judge(book, prices, used, registered, next.schedule);
        results[next.place as usize - 1] = result;
    }
}

// Judges the schedules of a book in their order.
pub fn judge_all(
    book: &[u8],
    prices: &[u8],
    order: &[Placed],
    registered: &mut Registered,
    results: &mut [u8],
)
    requires priced { Priced book.now prices.now }
    requires in_order { order.now ≡ by_priority book.now }
    requires none_judged { NoneJudged registered.old.energy registered.old.charges results.old }
    ensures { AllJudged book.now prices.now registered.new.energy registered.new.charges results.new }
{
    let mut used = nothing_used();
    judge_each(book, prices, order, &mut used, registered, results);
}

// The `n` schedules of a book in order of priority.
pub fn prioritised_in(book: &[u8], n: usize) -> [Placed; MOST_SCHEDULES]
    requires { (is_sound book.now ≡ true) × (n ≡ length (book_in book.now).schedules) }
    ensures { take n result ≡ by_priority book.now }
{
    let mut all = no_schedules();
    place_each(book, &mut all[..n]);
    in_order(&all[..n])
}
