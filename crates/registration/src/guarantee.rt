// Guarantee: replaces an operator's guarantee.
ghost use Rattle.std.specs.Prelude.{◌≡◌, ◌≤◌, true};
ghost use Rattle.rules.specs.Limits.{most_guarantee};
ghost use Rattle.rules.specs.Verdicts.{checked};
ghost use Rattle.rules.specs.Requests.{guarantee};
ghost use Rattle.image.specs.Valid.{is_sound, book_in, book_bytes};
ghost use Rattle.book.specs.Members.{IsOperator};
ghost use Rattle.book.specs.Kinds.{decided, outcome_on, book_after, Ready};
ghost use Rattle.registration.specs.Cover.{covered_under};

use crate::cover::{covered_by, guarantee_in_force};
use book::state::phase;
use book::worth::exposure_with;
use image::layout::PRESENT_OFFSET;
use rules::phases::Phase;
use rules::{Refusal, Request};
use setup::counts::GUARANTEE_WIDTH;
use units::Cents;
use wire::numbers::put;

// Whether the operator's exposure is covered by the guarantee. One that is no lower than the guarantee in force covers it: in a book every
// exposure is at most what is available.
#[tactic(auto, using(crate::proofs::GuaranteeLaws::raised_covers))]
fn covered_under(book: &[u8], guarantee: Cents, number: u8) -> bool
    requires { (is_sound book.now ≡ true) × (guarantee.0 ≤ most_guarantee) × IsOperator (book_in book.now) number }
    ensures { result ≡ covered_under (book_in book.now) guarantee.0 number }
{
    let in_force = guarantee_in_force(book, number);
    if in_force.0 <= guarantee.0 {
        return true;
    }
    let owed = exposure_with(book, number, None);
    covered_by(book, owed, guarantee, number)
}

// What guarantee is refused for.
fn guarantee_fault(book: &[u8], request: Request) -> Result<(), Refusal>
    requires known_book { is_sound book.now ≡ true }
    requires ready { Ready guarantee (book_in book.now) request }
    ensures { result ≡ checked (decided guarantee (book_in book.now) request) }
{
    if phase(book) != Phase::Registration {
        return Err(Refusal::WrongPhase);
    }
    if covered_under(book, request.guarantee, request.operator) {
        return Ok(());
    }
    Err(Refusal::Uncovered)
}

// Kind 4: the operator's guarantee becomes the one named.
pub fn guarantee(book: &mut [u8], request: Request) -> Result<u16, Refusal>
    requires known_book { is_sound book.old ≡ true }
    requires ready { Ready guarantee (book_in book.old) request }
    ensures answer { result ≡ outcome_on guarantee (book_in book.old) request }
    ensures bytes { book.new ≡ book_bytes (book_after guarantee (book_in book.old) request) }
    ensures still { is_sound book.new ≡ true }
{
    guarantee_fault(book, request)?;
    let cents = request.guarantee;
    put(
        book,
        PRESENT_OFFSET + GUARANTEE_WIDTH * (request.operator as usize - 1),
        cents.0,
    );
    Ok(0)
}
