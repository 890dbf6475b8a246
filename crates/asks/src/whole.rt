// Whether bytes are a book: every section passes its tests, and register would accept each ask that stands.
ghost use Rattle.std.specs.Prelude.{◌≡◌};
ghost use Rattle.image.specs.Valid.{is_book};

use crate::standing::asks_stand;
use audit::whole::is_sound;
use tables::sums::zeros;

// Whether bytes are a book, for all bytes of all lengths.
pub fn is_book(book: &[u8]) -> bool
    ensures { result ≡ is_book book.now }
{
    let mut table = zeros();
    if is_sound(book, &mut table) {
        return asks_stand(book, &table);
    }
    false
}
