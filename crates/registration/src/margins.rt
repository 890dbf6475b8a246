// The search for a broken margin.
ghost use Rattle.std.specs.Prelude.{◌≡◌, true, [], ◌∷◌};
ghost use Rattle.rules.specs.Registration.{broken_by};
ghost use Rattle.image.specs.Valid.{is_sound, book_in};
ghost use Rattle.book.specs.Waits.{WaitsOf};
ghost use Rattle.registration.specs.Margins.{AccountTrade};

use book::waits::{account_hour, fill_waits, no_waits};
use rules::Row;
use rules::hours::keeps_margins;
use setup::entries::margins;

// The lowest hour in which the account breaks a margin after the trade; `waits` holds the account's pending sums. Only the trade's hours are
// tested: the other hours stay as they are, and in a book no margin is broken.
pub fn first_broken(book: &[u8], waits: &[u32], trade: Row, number: u8) -> Option<u8>
    requires known_book { (is_sound book.now ≡ true) × WaitsOf (book_in book.now).part.rows number waits.now }
    requires account_trade { AccountTrade (book_in book.now) number trade }
    ensures { let b = book_in book.now in result ≡ broken_by b.setup b.part.rows (trade ∷ []) number }
{
    let mut hour: u8 = trade.first;
    // Counted by hand: the paper names a loop that yields the faulty hour by `break`, and a `for` yields nothing.
    let found = loop {
        if trade.last < hour {
            break None;
        }
        let own = margins(book, number, hour);
        let before = account_hour(book, waits, number, hour);
        let after = before.after_trade(trade, number, hour);
        if keeps_margins(own, after) {
            hour += 1;
        } else {
            break Some(hour);
        }
    };
    found
}

// The same, with the account's pending sums worked out here.
pub fn broken_hour(book: &[u8], trade: Row, number: u8) -> Option<u8>
    requires { (is_sound book.now ≡ true) × AccountTrade (book_in book.now) number trade }
    ensures { let b = book_in book.now in result ≡ broken_by b.setup b.part.rows (trade ∷ []) number }
{
    let mut waits = no_waits();
    fill_waits(&mut waits, book, number, trade.counterparty, trade.code);
    first_broken(book, &waits, trade, number)
}
