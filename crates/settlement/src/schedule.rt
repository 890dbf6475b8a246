// Schedule: adds a schedule under the next place.
ghost use Rattle.std.specs.Prelude.{◌≡◌, true, ◌+◌, ◌*◌, ◌<◌, length};
ghost use Rattle.rules.specs.declared.Request.{Request};
ghost use Rattle.rules.specs.Limits.{most_schedules, book_size};
ghost use Rattle.rules.specs.Verdicts.{checked};
ghost use Rattle.rules.specs.Requests.{schedule};
ghost use Rattle.rules.specs.Calls.{scheduled};
ghost use Rattle.image.specs.Valid.{is_sound, book_in, book_bytes};
ghost use Rattle.book.specs.Kinds.{decided, outcome_on, book_after, Ready};
ghost use Rattle.settlement.specs.Scheduling.{schedule_appended};

use book::state::{phase, schedule_count};
use image::layout::{SCHEDULE_COUNT_OFFSET, SCHEDULE_WIDTH, SCHEDULES_OFFSET};
use image::schedules::schedule_bytes;
use rules::limits::MOST_SCHEDULES;
use rules::phases::Phase;
use rules::{Refusal, Request, Schedule};
use wire::numbers::put;
use wire::regions::copy_in;

// The schedule that the request hands in.
fn handed_in(request: Request) -> Schedule
    ensures { result ≡ scheduled request }
{
    let quantity = request.quantity;
    let price = request.price;
    Schedule {
        point: request.point,
        side: request.side,
        hour: request.first,
        quantity,
        price,
    }
}

// What schedule is refused for.
#[tactic(auto, using(crate::proofs::Decisions::places_full))]
fn schedule_fault(book: &[u8]) -> Result<(), Refusal>
    requires { is_sound book.now ≡ true }
    ensures { (q : Request) → result ≡ checked (decided schedule (book_in book.now) q) }
{
    if phase(book) != Phase::Schedules {
        return Err(Refusal::WrongPhase);
    }
    if MOST_SCHEDULES <= schedule_count(book) as usize {
        return Err(Refusal::SchedulesFull);
    }
    Ok(())
}

// Puts a schedule after the `n` that there are, and counts it.
fn append_schedule(book: &mut [u8], n: u16, x: Schedule)
    requires { (length book.old ≡ book_size) × (n < most_schedules) }
    ensures { book.new ≡ schedule_appended book.old n x }
{
    let bytes = schedule_bytes(x);
    copy_in(
        book,
        SCHEDULES_OFFSET + SCHEDULE_WIDTH * (n as usize),
        &bytes,
    );
    put(book, SCHEDULE_COUNT_OFFSET, n + 1);
}

// Kind 9: the schedule that the request hands in gets the next place.
pub fn schedule(book: &mut [u8], request: Request) -> Result<u16, Refusal>
    requires known_book { is_sound book.old ≡ true }
    requires ready { Ready schedule (book_in book.old) request }
    ensures answer { result ≡ outcome_on schedule (book_in book.old) request }
    ensures bytes { book.new ≡ book_bytes (book_after schedule (book_in book.old) request) }
    ensures still { is_sound book.new ≡ true }
{
    schedule_fault(book)?;
    let n = schedule_count(book);
    let x = handed_in(request);
    append_schedule(book, n, x);
    Ok(n + 1)
}
