// The items of a stream: a 2-byte length, then that many bytes. An item is a record, and prices where its kind is 10.
ghost use Rattle.std.specs.Prelude.{◌≡◌};
ghost use Rattle.items.specs.Stream.{found_at, past_found, record_length};

use crate::Found;
use rules::kinds::SETTLE;
use wire::numbers::get;

// The bytes of a record with no fields: its map and its kind.
const BARE_RECORD: usize = 3;

// The item at `at` of the stream.
pub fn item_at(stream: &[u8], at: usize) -> Found
    ensures { result ≡ found_at stream.now at }
{
    if stream.len() <= at {
        return Found::End;
    }
    let left = stream.len() - at;
    if left < 2 {
        return Found::Cut;
    }
    let n = get::<u16>(stream, at) as usize;
    if n <= left - 2 {
        Found::Whole {
            from: at + 2,
            end: at + 2 + n,
        }
    } else {
        Found::Cut
    }
}

// Where the next item begins, after what was found at `at`.
pub fn past_found(found: Found, at: usize) -> usize
    ensures { result ≡ past_found found at }
{
    match found {
        Found::Whole { from: _, end } => end,
        Found::Cut => at,
        Found::End => at,
    }
}

// How many bytes of an item are its record; the rest are prices.
#[tactic(auto, using(crate::proofs::StreamLaws::record_settle, crate::proofs::StreamLaws::record_whole))]
pub fn record_length(item: &[u8]) -> usize
    ensures { result ≡ record_length item.now }
{
    if item.len() < BARE_RECORD {
        return item.len();
    }
    if item[2] == SETTLE {
        return BARE_RECORD;
    }
    item.len()
}
