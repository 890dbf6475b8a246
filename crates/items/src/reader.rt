// The stream read item by item: a reader knows its stream and its place in it, gives the item there, and moves on.
ghost use Rattle.std.specs.Prelude.{◌≡◌};
ghost use Rattle.items.specs.Stream.{found_at, past_found};

use crate::Found;
use crate::stream::{item_at, past_found};

// A stream and an offset in it, where the next item begins.
#[derive(Drop)]
pub struct Reader<'a> {
    pub stream: &'a [u8],
    pub at: usize,
}

impl<'a> Reader<'a> {
    // The item at the reader's place. The reader moves on past it.
    pub fn next(&mut self) -> Found
        ensures item { result ≡ found_at self.old.stream.now self.old.at }
        ensures same_stream { self.new.stream ≡ self.old.stream }
        ensures moved_on { self.new.at ≡ past_found result self.old.at }
    {
        let found = item_at(self.stream, self.at);
        self.at = past_found(found, self.at);
        found
    }
}

// What a reader at `at` of the stream finds there: for callers who hold the stream and the offset apart.
pub fn next_item(stream: &[u8], at: usize) -> Found
    ensures { result ≡ found_at stream.now at }
{
    let mut reader = Reader { stream, at };
    reader.next()
}
