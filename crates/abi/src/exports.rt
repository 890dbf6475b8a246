// The functions that a program in another language calls. Each answers its outcome packed into one number; every buffer is lent.
ghost use Rattle.std.specs.Prelude.{◌≡◌};
ghost use Rattle.rules.specs.Verdicts.{numbers};
ghost use Rattle.rules.specs.Opening.{open_outcome};
ghost use Rattle.rules.specs.Requests.{reading, request_read_out};
ghost use Rattle.rules.specs.Readings.{net_read_out};
ghost use Rattle.image.specs.Valid.{is_book};
ghost use Rattle.book.specs.Answers.{open_bytes, net_answer, exposure_answer, hourly_exposure_answer};
ghost use Rattle.day.specs.Answers.{call_on};
ghost use Rattle.abi.specs.Packing.{Packs, GivesPacked};
ghost use Rattle.abi.specs.Lending.{Lends, LendsExposure, net_bytes};
ghost use Rattle.abi.specs.Fields.{request_bytes, fields_outcome, fields_written};

use crate::fields::{FIELDS_SIZE, request_in};
use crate::lending::{lend_exposure, lend_net, lend_request};
use crate::packing::pack;
use rules::Refusal;

// Opens a book from the bytes of a set-up.
pub fn energy_book_open(setup: &[u8], book: &mut [u8]) -> u64
    ensures answer { Packs (numbers (open_outcome setup.now book.old)) result }
    ensures filled { book.new ≡ open_bytes setup.now book.old }
{
    pack(day::interface::open(setup, book).verdict)
}

// Whether bytes are a book.
pub fn energy_book_is_book(book: &[u8]) -> bool
    ensures { result ≡ is_book book.now }
{
    asks::whole::is_book(book)
}

// A call of any kind. Only settle looks at the price table and the buffers for results and balances.
pub fn energy_book_call(
    bytes: &[u8],
    book: &mut [u8],
    prices: &[u8],
    results: &mut [u8],
    balances: &mut [u8],
) -> u64
    ensures answer { GivesPacked
        (call_on book.old bytes.now prices.now results.old balances.old)
        result book.new results.new balances.new }
{
    pack(day::calls::call(bytes, book, prices, results, balances).verdict)
}

// The net position of an account in an hour, as a signed figure in the first 8 bytes of the buffer.
pub fn energy_book_net(book: &[u8], account: u8, hour: u8, figure: &mut [u8]) -> u64
    ensures { Lends net_bytes (net_read_out (net_answer book.now account hour)) figure.old result figure.new }
{
    let reading = day::interface::net(book, account, hour);
    pack(lend_net(reading, figure))
}

// The exposure of an operator, in the first 8 bytes of the buffer.
pub fn energy_book_exposure(book: &[u8], operator: u8, figure: &mut [u8]) -> u64
    ensures { LendsExposure (exposure_answer book.now operator) figure.old result figure.new }
{
    let reading = day::interface::exposure(book, operator);
    pack(lend_exposure(reading, figure))
}

// The hourly exposure of an operator, in the first 8 bytes of the buffer.
pub fn energy_book_hourly_exposure(book: &[u8], operator: u8, hour: u8, figure: &mut [u8]) -> u64
    ensures { LendsExposure (hourly_exposure_answer book.now operator hour) figure.old result figure.new }
{
    let reading = day::interface::hourly_exposure(book, operator, hour);
    pack(lend_exposure(reading, figure))
}

// What a record says: the fields of its request, in the first 34 bytes of the buffer.
pub fn energy_book_read(bytes: &[u8], fields: &mut [u8]) -> u64
    ensures { Lends request_bytes (request_read_out (reading bytes.now)) fields.old result fields.new }
{
    let said = day::interface::read(bytes);
    pack(lend_request(said, fields))
}

// The writer's answer to the request that the fields say, or 5 where they are not 34 bytes.
fn write_fields(fields: &[u8], buffer: &mut [u8]) -> Result<u16, Refusal>
    ensures answer { result ≡ fields_outcome fields.now buffer.old }
    ensures filled { buffer.new ≡ fields_written fields.now buffer.old }
{
    if fields.len() != FIELDS_SIZE {
        return Err(Refusal::WrongLength);
    }
    let request = request_in(fields);
    day::interface::write(request, buffer).verdict
}

// Writes the record of the request that the fields say into the first bytes of the buffer.
pub fn energy_book_write(fields: &[u8], buffer: &mut [u8]) -> u64
    ensures answer { Packs (numbers (fields_outcome fields.now buffer.old)) result }
    ensures filled { buffer.new ≡ fields_written fields.now buffer.old }
{
    pack(write_fields(fields, buffer))
}
