// Opening: a fresh book from the bytes of a set-up, in bytes that the caller lends.
ghost use Rattle.std.specs.Prelude.{◌≡◌, ◌+◌, ◌*◌, ◌≤◌, length, None};
ghost use Rattle.wire.specs.Regions.{splice};
ghost use Rattle.wire.specs.Parts.{zeros};
ghost use Rattle.rules.specs.Limits.{book_size};
ghost use Rattle.rules.specs.Opening.{setup_refusal, opened, open_outcome, guarantee_width, operator_entry};
ghost use Rattle.image.specs.Valid.{book_bytes};
ghost use Rattle.book.specs.Fresh.{guarantees_cleared, guarantees_put};
ghost use Rattle.book.specs.Answers.{open_bytes};

use image::layout::{BOOK_SIZE, PHASE_OFFSET, PRESENT_OFFSET};
use rules::Refusal;
use rules::phases::REGISTRATION;
use setup::counts::{GUARANTEE_WIDTH, OPERATOR_ENTRY, counts, operators_offset};
use setup::fault::fault;
use wire::numbers::put;
use wire::regions::copy_in;

// Makes the guarantees of the `n` operators from `from` on zero.
fn clear_guarantees(s: &mut [u8], from: usize, n: u8)
    requires { from + operator_entry * n ≤ length s.old }
    ensures { s.new ≡ guarantees_cleared s.old from n }
{
    for i in 0..n as usize {
        put::<u64>(s, from + OPERATOR_ENTRY * i, 0);
    }
}

// Puts the guarantees of the `n` operators from `from` on in the set-up into `book`, from `to` on.
fn put_guarantees(book: &mut [u8], to: usize, setup: &[u8], from: usize, n: u8)
    requires { (from + operator_entry * n ≤ length setup.now) × (to + guarantee_width * n ≤ length book.old) }
    ensures { book.new ≡ guarantees_put book.old to setup.now from n }
{
    for i in 0..n as usize {
        let guarantee = from + OPERATOR_ENTRY * i;
        copy_in(
            book,
            to + GUARANTEE_WIDTH * i,
            &setup[guarantee..guarantee + GUARANTEE_WIDTH],
        );
    }
}

// Leaves in `book` the set-up with no guarantees, and zeros past it.
fn put_setup(book: &mut [u8], setup: &[u8], from: usize, n: u8)
    requires { (from + operator_entry * n ≤ length setup.now) × (length setup.now ≤ length book.old) }
    ensures { book.new ≡ guarantees_cleared (splice (zeros (length book.old)) 0 setup.now) from n }
{
    book.fill(0);
    copy_in(book, 0, setup);
    clear_guarantees(book, from, n);
}

// Fills `book` with the fresh book of a set-up that has nothing wrong with it.
fn fill(setup: &[u8], book: &mut [u8])
    requires { (setup_refusal setup.now ≡ None) × (length book.old ≡ book_size) }
    ensures { book.new ≡ book_bytes (opened setup.now) }
{
    let n = counts(setup);
    let from = operators_offset(n);
    put_setup(book, setup, from, n.operators);
    put(book, PHASE_OFFSET, REGISTRATION);
    put_guarantees(book, PRESENT_OFFSET, setup, from, n.operators);
}

// Opens a book: a buffer of another size is refused (1), then the set-up for its shape (8) or its lowest value at fault (9).
pub fn open(setup: &[u8], book: &mut [u8]) -> Result<u16, Refusal>
    ensures answer { result ≡ open_outcome setup.now book.old }
    ensures filled { book.new ≡ open_bytes setup.now book.old }
{
    if book.len() != BOOK_SIZE {
        return Err(Refusal::NotABook);
    }
    fault(setup)?;
    fill(setup, book);
    Ok(0)
}
