// The lines of many items, gathered one after the other in one buffer.
ghost use Rattle.std.specs.Prelude.{◌≡◌, ◌+◌, ◌≤◌, ◌<◌, length, Some, IsSome};
ghost use Rattle.rules.specs.Limits.{book_size};
ghost use Rattle.rules.specs.Replay.{replay, text};
ghost use Rattle.replaying.specs.Lent.{step_room};
ghost use Rattle.replaying.specs.Gathering.{Underway, Follows, so_far, first_gathered, item_gathered, all_gathered, whole_text};

use crate::Gathered;
use crate::steps::{STEP_ROOM, begin, replay_item};

// Begins the replay: opens the book of item 0, and puts the lines of the beginning at the front of `out`.
pub fn gather_first(stream: &[u8], book: &mut [u8], out: &mut [u8]) -> Gathered
    requires { (length book.old ≡ book_size) × (step_room ≤ length out.old) }
    ensures left { so_far result book.new out.new ≡ first_gathered stream.now book.old out.old }
    ensures whole { whole_text stream.now (so_far result book.new out.new) ≡ text (replay stream.now) }
    ensures underway { Underway stream.now (so_far result book.new out.new) }
{
    let first = begin(stream, book, out);
    Gathered {
        next: first.next,
        number: 1,
        end: first.end,
    }
}

// Replays the next item, which begins at `at`, and puts its lines behind those that are gathered.
fn gather_item(
    stream: &[u8],
    at: usize,
    gathered: Gathered,
    book: &mut [u8],
    out: &mut [u8],
) -> Gathered
    requires going_on { (gathered.next ≡ Some at) × (gathered.end + step_room ≤ length out.old) }
    requires underway { Underway stream.now (so_far gathered book.old out.old) }
    ensures left { so_far result book.new out.new ≡ item_gathered stream.now (so_far gathered book.old out.old) }
    ensures follows { Follows stream.now (so_far gathered book.old out.old) (so_far result book.new out.new) }
    ensures counted { result.number ≡ gathered.number + 1 }
{
    let from = gathered.end;
    let number = gathered.number;
    let step = replay_item(stream, at, number, book, &mut out[from..]);
    Gathered {
        next: step.next,
        number: number + 1,
        end: from + step.end,
    }
}

// Replays further, and gathers the lines of each item behind those that are gathered, until the replay ends or `out` has no room for another step.
pub fn gather(stream: &[u8], gathered: Gathered, book: &mut [u8], out: &mut [u8]) -> Gathered
    requires room { step_room ≤ length out.old }
    requires underway { Underway stream.now (so_far gathered book.old out.old) }
    ensures left { so_far result book.new out.new ≡ all_gathered stream.now (so_far gathered book.old out.old) }
    ensures follows { Follows stream.now (so_far gathered book.old out.old) (so_far result book.new out.new) }
    ensures further { IsSome gathered.next → gathered.end + step_room ≤ length out.old → gathered.number < result.number }
{
    let last = out.len() - STEP_ROOM;
    let mut reached = gathered;
    // No index: the items end by the state, or by the room that is left.
    while let Some(at) = reached.next
        && reached.end <= last
    {
        reached = gather_item(stream, at, reached, book, out);
    }
    reached
}
