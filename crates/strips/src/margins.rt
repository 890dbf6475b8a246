// The search for a broken margin, with every row of the strip in.
ghost use Rattle.std.specs.Prelude.{◌≡◌, true, List, ◌++◌, length};
ghost use Rattle.rules.specs.declared.Row.{Row};
ghost use Rattle.rules.specs.Basics.{Each};
ghost use Rattle.rules.specs.Registration.{pending, broken_by};
ghost use Rattle.image.specs.Valid.{is_sound, book_in};
ghost use Rattle.book.specs.Members.{IsAccount};
ghost use Rattle.book.specs.Waits.{WaitsOf, waits_size};

use book::waits::account_hour;
use rules::hours::keeps_margins;
use setup::counts::counts;
use setup::entries::margins;

// The lowest hour in which the account breaks a margin; `waits` holds its pending sums, with those of rows that are to be added.
pub fn broken_with(book: &[u8], waits: &[u32], number: u8) -> Option<u8>
    requires { (is_sound book.now ≡ true) × IsAccount (book_in book.now) number × (length waits.now ≡ waits_size) }
    ensures { (added : List Row) → (let b = book_in book.now in
        Each (λ x. pending x ≡ true) added → WaitsOf (b.part.rows ++ added) number waits.now
        → result ≡ broken_by b.setup b.part.rows added number) }
{
    let n = counts(book);
    let mut hour: u8 = 1;
    // Counted by hand: the paper names a loop that yields the faulty hour by `break`, and a `for` yields nothing.
    let found = loop {
        if n.hours < hour {
            break None;
        }
        let own = margins(book, number, hour);
        let held = account_hour(book, waits, number, hour);
        if keeps_margins(own, held) {
            hour += 1;
        } else {
            break Some(hour);
        }
    };
    found
}
