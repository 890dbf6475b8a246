// The rest of the interface of a day: opening, the readings, and the record reader and writer.
ghost use Rattle.std.specs.Prelude.{◌≡◌, true};
ghost use Rattle.rules.specs.Opening.{open_outcome};
ghost use Rattle.rules.specs.Requests.{reading, write_outcome, written};
ghost use Rattle.rules.specs.Readings.{net_reading, exposure_reading, hourly_exposure_reading};
ghost use Rattle.image.specs.Valid.{is_book, book_in};
ghost use Rattle.book.specs.Answers.{open_bytes, net_answer, exposure_answer, hourly_exposure_answer};

use asks::whole::is_book;
use rules::{Outcome, Position, Refusal, Request};
use units::MilliCents;

// Opens a book from the bytes of a set-up, or refuses by 1, 8 or 9.
pub fn open(setup: &[u8], book: &mut [u8]) -> Outcome
    ensures answer { result.verdict ≡ open_outcome setup.now book.old }
    ensures filled { book.new ≡ open_bytes setup.now book.old }
{
    let verdict = book::opening::open(setup, book);
    Outcome { verdict }
}

// The net position of an account in an hour, of any bytes: 1 where they are no book.
pub fn net(book: &[u8], account: u8, hour: u8) -> Result<Position, Refusal>
    ensures { result ≡ net_answer book.now account hour }
{
    if is_book(book) {
        return book::readings::net_in(book, account, hour);
    }
    Err(Refusal::NotABook)
}

// As `net`, of bytes that are known to be a book.
pub fn net_in(book: &[u8], account: u8, hour: u8) -> Result<Position, Refusal>
    requires { is_book book.now ≡ true }
    ensures { result ≡ net_reading (book_in book.now) account hour }
{
    book::readings::net_in(book, account, hour)
}

// The exposure of an operator, of any bytes: 1 where they are no book.
pub fn exposure(book: &[u8], operator: u8) -> Result<MilliCents, Refusal>
    ensures { result ≡ exposure_answer book.now operator }
{
    if is_book(book) {
        return book::readings::exposure_in(book, operator);
    }
    Err(Refusal::NotABook)
}

// As `exposure`, of bytes that are known to be a book.
pub fn exposure_in(book: &[u8], operator: u8) -> Result<MilliCents, Refusal>
    requires { is_book book.now ≡ true }
    ensures { result ≡ exposure_reading (book_in book.now) operator }
{
    book::readings::exposure_in(book, operator)
}

// The hourly exposure of an operator, of any bytes: 1 where they are no book.
pub fn hourly_exposure(book: &[u8], operator: u8, hour: u8) -> Result<MilliCents, Refusal>
    ensures { result ≡ hourly_exposure_answer book.now operator hour }
{
    if is_book(book) {
        return book::readings::hourly_exposure_in(book, operator, hour);
    }
    Err(Refusal::NotABook)
}

// As `hourly_exposure`, of bytes that are known to be a book.
pub fn hourly_exposure_in(book: &[u8], operator: u8, hour: u8) -> Result<MilliCents, Refusal>
    requires { is_book book.now ≡ true }
    ensures { result ≡ hourly_exposure_reading (book_in book.now) operator hour }
{
    book::readings::hourly_exposure_in(book, operator, hour)
}

// What a record reads as: the request that it says, or the refusal 2, 3, 4 or 5.
pub fn read(bytes: &[u8]) -> Result<Request, Refusal>
    ensures { result ≡ reading bytes.now }
{
    records::reader::read(bytes)
}

// Writes the record of a request into the first bytes of the buffer, or refuses by 3 or 10.
pub fn write(request: Request, buffer: &mut [u8]) -> Outcome
    ensures answer { result.verdict ≡ write_outcome request buffer.old }
    ensures filled { buffer.new ≡ written request buffer.old }
{
    let verdict = records::writer::write(request, buffer);
    Outcome { verdict }
}
