// The steps of the replay: the beginning, which opens the book, and each item after it.
ghost use Rattle.std.specs.Prelude.{◌≡◌, true, ◌+◌, ◌≤◌, length, None, IsSome};
ghost use Rattle.std.specs.Option.{ForSome};
ghost use Rattle.wire.specs.Regions.{splice};
ghost use Rattle.rules.specs.Limits.{book_size};
ghost use Rattle.rules.specs.Opening.{setup_refusal};
ghost use Rattle.image.specs.Valid.{is_book, book_in};
ghost use Rattle.replaying.specs.Steps.{beginning, step_at, open_step};
ghost use Rattle.replaying.specs.Lent.{step_room, stepped, book_on, printed};

use crate::Stepped;
use crate::answers::answer_item;
use day::interface::open;
use items::reader::next_item;
use items::{Found, LineBuffer};
use rules::Numbers;
use rules::limits::{MOST_OPERATORS, MOST_SCHEDULES};

// Bytes of the longest stream that is replayed.
const LONGEST_STREAM: usize = 65_536;

// One byte more, by which a longer stream is known.
pub const STREAM_ROOM: usize = LONGEST_STREAM + 1;

// Room for any line.
const LINE_ROOM: usize = 84;

// Room for the lines of any step: one for the item, for each schedule, for each operator, and for the total.
pub const STEP_ROOM: usize = LINE_ROOM * (MOST_SCHEDULES + MOST_OPERATORS as usize + 2);

// The replay ends, with lines up to `end`.
fn ended(end: usize) -> Stepped
    ensures { result ≡ record { next = None; end = end } }
{
    Stepped { next: None, end }
}

// Opens the book of a set-up, and puts its line. The replay goes on at `next` where the set-up is accepted.
fn open_setup(setup: &[u8], next: usize, book: &mut [u8], out: &mut [u8]) -> Stepped
    requires { (length book.old ≡ book_size) × (step_room ≤ length out.old) }
    ensures answer { result ≡ stepped (open_step setup.now next (setup_refusal setup.now)) }
    ensures book { book.new ≡ book_on (open_step setup.now next (setup_refusal setup.now)).onward book.old }
    ensures out { out.new ≡ splice out.old 0 (printed (open_step setup.now next (setup_refusal setup.now))) }
    ensures bound { result.end ≤ step_room }
    ensures opens { IsSome result.next → is_book book.new ≡ true }
{
    let verdict = open(setup, book).verdict;
    let mut lines = LineBuffer { out, end: 0 };
    lines.put_answered(0, Numbers::from(verdict));
    match verdict {
        Ok(_) => Stepped {
            next: Some(next),
            end: lines.end,
        },
        Err(_) => ended(lines.end),
    }
}

// Begins the replay: opens the book of item 0, and puts the lines of the beginning at the front of `out`.
#[tactic(auto, using(items::proofs::StreamLaws::found_within))]
pub fn begin(stream: &[u8], book: &mut [u8], out: &mut [u8]) -> Stepped
    requires { (length book.old ≡ book_size) × (step_room ≤ length out.old) }
    ensures answer { result ≡ stepped (beginning stream.now) }
    ensures book { book.new ≡ book_on (beginning stream.now).onward book.old }
    ensures out { out.new ≡ splice out.old 0 (printed (beginning stream.now)) }
    ensures bound { result.end ≤ step_room }
    ensures opens { IsSome result.next → is_book book.new ≡ true }
    ensures onward { ForSome result.next (λ next. next ≤ length stream.now) }
{
    if LONGEST_STREAM < stream.len() {
        let mut lines = LineBuffer { out, end: 0 };
        lines.put_long();
        return ended(lines.end);
    }
    let found = next_item(stream, 0);
    match found {
        Found::Whole { from, end } => open_setup(&stream[from..end], end, book, out),
        Found::Cut => {
            let mut lines = LineBuffer { out, end: 0 };
            lines.put_cut(0);
            ended(lines.end)
        }
        Found::End => ended(0),
    }
}

// Replays the item that begins at `at` and has that number: answers its call on the book, and puts its lines at the front of `out`.
#[tactic(auto, using(items::proofs::StreamLaws::found_within))]
pub fn replay_item(
    stream: &[u8],
    at: usize,
    number: u64,
    book: &mut [u8],
    out: &mut [u8],
) -> Stepped
    requires known_book { is_book book.old ≡ true }
    requires room { step_room ≤ length out.old }
    ensures answer { result ≡ stepped (step_at (book_in book.old) number stream.now at) }
    ensures book { book.new ≡ book_on (step_at (book_in book.old) number stream.now at).onward book.old }
    ensures out { out.new ≡ splice out.old 0 (printed (step_at (book_in book.old) number stream.now at)) }
    ensures bound { result.end ≤ step_room }
    ensures still { is_book book.new ≡ true }
    ensures onward { ForSome result.next (λ next. (at + 2 ≤ next) × (next ≤ length stream.now)) }
{
    let found = next_item(stream, at);
    match found {
        Found::Whole { from, end } => {
            let past = answer_item(&stream[from..end], number, book, out);
            Stepped {
                next: Some(end),
                end: past,
            }
        }
        Found::Cut => {
            let mut lines = LineBuffer { out, end: 0 };
            lines.put_cut(number);
            ended(lines.end)
        }
        Found::End => ended(0),
    }
}
