// Kinds 1 to 9, 12 and 13 on a book that is known to be one: the kind decides which checks apply. None of them is lent a price table or a
// buffer, and none of them clears asks: that is done once, after them.
ghost use Rattle.std.specs.Prelude.{◌≡◌, true, ◌^◌, ◌≤◌, ◌<◌, Ok};
ghost use Rattle.rules.specs.declared.Request.{Request};
ghost use Rattle.rules.specs.Requests.{kind_of, reading};
ghost use Rattle.rules.specs.Calls.{Call};
ghost use Rattle.image.specs.Valid.{is_sound, is_book, book_in, book_bytes};
ghost use Rattle.book.specs.Kinds.{outcome_on, book_after, Ready};
ghost use Rattle.day.specs.Answers.{change_answer};
ghost use Rattle.day.specs.Plain.{is_plain};

use asks::ask::ask;
use asks::commit::commit;
use batches::gate::close_gate;
use batches::saving::{keep, open_batch, undo};
use records::ranges::check_ranges;
use registration::confirm::confirm;
use registration::guarantee::guarantee;
use registration::register::register;
use registration::withdraw::withdraw;
use rules::kinds::{
    ASK, CLOSE_GATE, COMMIT, CONFIRM, GUARANTEE, KEEP, OPEN_BATCH, REGISTER, SCHEDULE, UNDO,
    WITHDRAW,
};
use rules::{Refusal, Request};
use settlement::schedule::schedule;
use setup::counts::counts;

// Kinds 5 to 8, which have no field beside the kind.
fn batch_or_gate(book: &mut [u8], kind: u8) -> Result<u16, Refusal>
    requires known_book { is_sound book.old ≡ true }
    requires batch_or_gate_kind { (5 ≤ kind) × (kind ≤ 8) }
    ensures answer { (q : Request) → result ≡ outcome_on (kind_of kind) (book_in book.old) q }
    ensures bytes { (q : Request) → book.new ≡ book_bytes (book_after (kind_of kind) (book_in book.old) q) }
    ensures still { is_sound book.new ≡ true }
{
    match kind {
        OPEN_BATCH => open_batch(book),
        UNDO => undo(book),
        KEEP => keep(book),
        CLOSE_GATE => close_gate(book),
        // No other kind comes here.
        _ => Err(Refusal::UnknownKind),
    }
}

// Any of these kinds, of a request whose fields are in range.
fn by_kind(book: &mut [u8], request: Request) -> Result<u16, Refusal>
    requires known_book { is_book book.old ≡ true }
    requires plain_kind { (is_plain request.kind ≡ true) × Ready (kind_of request.kind) (book_in book.old) request }
    ensures answer { result ≡ outcome_on (kind_of request.kind) (book_in book.old) request }
    ensures bytes { book.new ≡ book_bytes (book_after (kind_of request.kind) (book_in book.old) request) }
    ensures still { is_sound book.new ≡ true }
{
    let kind = request.kind;
    match kind {
        REGISTER => register(book, request),
        CONFIRM => confirm(book, request),
        WITHDRAW => withdraw(book, request),
        GUARANTEE => guarantee(book, request),
        OPEN_BATCH..=CLOSE_GATE => batch_or_gate(book, kind),
        SCHEDULE => schedule(book, request),
        ASK => ask(book, request),
        COMMIT => commit(book, request),
        // No other kind comes here.
        _ => Err(Refusal::UnknownKind),
    }
}

// Any of these kinds: refused where a field is out of range of the book, else answered by kind.
pub fn answer(book: &mut [u8], request: Request) -> Result<u16, Refusal>
    requires known_book { is_book book.old ≡ true }
    requires plain_kind { (is_plain request.kind ≡ true) × (request.code < 256 ^ 8) }
    ensures answer { (c : Call) → reading c.bytes ≡ Ok request → result ≡ (change_answer book.old c).outcome }
    ensures bytes { (c : Call) → reading c.bytes ≡ Ok request → book.new ≡ (change_answer book.old c).book }
    ensures still { is_sound book.new ≡ true }
{
    let n = counts(book);
    check_ranges(request, n)?;
    by_kind(book, request)
}
