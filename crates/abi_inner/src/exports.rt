// The functions of `abi` without the check that the bytes are a book, which the caller answers for. A holder that keeps its bytes to itself
// can: opening makes a book, and each call leaves one (`still`), so what it opened, or once tested with `energy_book_is_book`, and then
// changed by calls only, is a book. On other bytes nothing is promised.
ghost use Rattle.std.specs.Prelude.{◌≡◌, true};
ghost use Rattle.rules.specs.Readings.{net_reading, net_read_out, exposure_reading, hourly_exposure_reading};
ghost use Rattle.image.specs.Valid.{is_book, book_in};
ghost use Rattle.day.specs.Answers.{call_on};
ghost use Rattle.abi.specs.Packing.{GivesPacked};
ghost use Rattle.abi.specs.Lending.{Lends, LendsExposure, net_bytes};

use abi::lending::{lend_exposure, lend_net};
use abi::packing::pack;

// As `energy_book_call`, on bytes that are known to be a book. It leaves a book.
pub fn energy_book_call_in(
    bytes: &[u8],
    book: &mut [u8],
    prices: &[u8],
    results: &mut [u8],
    balances: &mut [u8],
) -> u64
    requires { is_book book.old ≡ true }
    ensures answer { GivesPacked
        (call_on book.old bytes.now prices.now results.old balances.old)
        result book.new results.new balances.new }
    ensures still { is_book book.new ≡ true }
{
    pack(day::calls::call_in(bytes, book, prices, results, balances).verdict)
}

// As `energy_book_net`, on bytes that are known to be a book.
pub fn energy_book_net_in(book: &[u8], account: u8, hour: u8, figure: &mut [u8]) -> u64
    requires { is_book book.now ≡ true }
    ensures { Lends net_bytes (net_read_out (net_reading (book_in book.now) account hour)) figure.old result figure.new }
{
    let reading = day::interface::net_in(book, account, hour);
    pack(lend_net(reading, figure))
}

// As `energy_book_exposure`, on bytes that are known to be a book.
pub fn energy_book_exposure_in(book: &[u8], operator: u8, figure: &mut [u8]) -> u64
    requires { is_book book.now ≡ true }
    ensures { LendsExposure (exposure_reading (book_in book.now) operator) figure.old result figure.new }
{
    let reading = day::interface::exposure_in(book, operator);
    pack(lend_exposure(reading, figure))
}

// As `energy_book_hourly_exposure`, on bytes that are known to be a book.
pub fn energy_book_hourly_exposure_in(book: &[u8], operator: u8, hour: u8, figure: &mut [u8]) -> u64
    requires { is_book book.now ≡ true }
    ensures { LendsExposure (hourly_exposure_reading (book_in book.now) operator hour) figure.old result figure.new }
{
    let reading = day::interface::hourly_exposure_in(book, operator, hour);
    pack(lend_exposure(reading, figure))
}
