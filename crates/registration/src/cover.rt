// What covers an operator's exposure.
ghost use Rattle.std.specs.Prelude.{◌≡◌, ◌≤◌, true};
ghost use Rattle.rules.specs.Limits.{most_guarantee};
ghost use Rattle.rules.specs.Books.{guarantee_at};
ghost use Rattle.rules.specs.Registration.{covered_by};
ghost use Rattle.image.specs.Valid.{is_sound, book_in};
ghost use Rattle.book.specs.Members.{IsOperator};
ghost use Rattle.registration.specs.Cover.{covered_in_force};

use image::layout::PRESENT_OFFSET;
use setup::counts::GUARANTEE_WIDTH;
use setup::entries::operator;
use units::{Cents, MilliCents};
use wire::numbers::get;

// The guarantee in force of an operator.
pub fn guarantee_in_force(book: &[u8], number: u8) -> Cents
    requires { (is_sound book.now ≡ true) × IsOperator (book_in book.now) number }
    ensures meaning { result ≡ guarantee_at (book_in book.now).part.guarantees number }
    ensures bounded { result.0 ≤ most_guarantee }
{
    let at = PRESENT_OFFSET + GUARANTEE_WIDTH * (number as usize - 1);
    Cents(get::<u64>(book, at))
}

// Whether an exposure of the operator is at most what is available of a guarantee.
pub fn covered_by(book: &[u8], owed: MilliCents, guarantee: Cents, number: u8) -> bool
    requires { (is_sound book.now ≡ true) × (guarantee.0 ≤ most_guarantee) × IsOperator (book_in book.now) number }
    ensures { result ≡ covered_by (book_in book.now).setup owed.0 guarantee.0 number }
{
    let entry = operator(book, number);
    let limit = guarantee.available(entry.maintenance);
    owed <= limit
}

// Whether an exposure of the operator is at most what is available of its guarantee in force.
pub fn covered_in_force(book: &[u8], owed: MilliCents, number: u8) -> bool
    requires { (is_sound book.now ≡ true) × IsOperator (book_in book.now) number }
    ensures { result ≡ covered_in_force (book_in book.now) owed.0 number }
{
    let guarantee = guarantee_in_force(book, number);
    covered_by(book, owed, guarantee, number)
}
