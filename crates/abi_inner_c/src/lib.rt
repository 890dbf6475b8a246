// The functions of `abi_inner` under their names in C: a static library. Each calls the function of that name, and says its clauses again.
// They have no test that the bytes are a book, which the caller answers for: on other bytes nothing is promised.
#![tactic(auto)]

ghost use Rattle.std.specs.Prelude.{◌≡◌, true};
ghost use Rattle.rules.specs.Readings.{net_reading, net_read_out, exposure_reading, hourly_exposure_reading};
ghost use Rattle.image.specs.Valid.{is_book, book_in};
ghost use Rattle.day.specs.Answers.{call_on};
ghost use Rattle.abi.specs.Packing.{GivesPacked};
ghost use Rattle.abi.specs.Lending.{Lends, LendsExposure, net_bytes};

// As `energy_book_call`, on bytes that are known to be a book. It leaves a book.
#[unsafe(no_mangle)]
pub extern "C" fn energy_book_call_in(
    bytes: &[u8],
    book: &mut [u8],
    prices: &[u8],
    results: &mut [u8],
    balances: &mut [u8],
) -> u64
    requires { is_book book.old ≡ true }
    ensures answer { GivesPacked
        (call_on book.old bytes.now prices.now results.old balances.old)
        result book.new results.new balances.new }
    ensures still { is_book book.new ≡ true }
{
    abi_inner::exports::energy_book_call_in(bytes, book, prices, results, balances)
}

// As `energy_book_net`, on bytes that are known to be a book.
#[unsafe(no_mangle)]
pub extern "C" fn energy_book_net_in(book: &[u8], account: u8, hour: u8, figure: &mut [u8]) -> u64
    requires { is_book book.now ≡ true }
    ensures { Lends net_bytes (net_read_out (net_reading (book_in book.now) account hour)) figure.old result figure.new }
{
    abi_inner::exports::energy_book_net_in(book, account, hour, figure)
}

// As `energy_book_exposure`, on bytes that are known to be a book.
#[unsafe(no_mangle)]
pub extern "C" fn energy_book_exposure_in(book: &[u8], operator: u8, figure: &mut [u8]) -> u64
    requires { is_book book.now ≡ true }
    ensures { LendsExposure (exposure_reading (book_in book.now) operator) figure.old result figure.new }
{
    abi_inner::exports::energy_book_exposure_in(book, operator, figure)
}

// As `energy_book_hourly_exposure`, on bytes that are known to be a book.
#[unsafe(no_mangle)]
pub extern "C" fn energy_book_hourly_exposure_in(
    book: &[u8],
    operator: u8,
    hour: u8,
    figure: &mut [u8],
) -> u64
    requires { is_book book.now ≡ true }
    ensures { LendsExposure (hourly_exposure_reading (book_in book.now) operator hour) figure.old result figure.new }
{
    abi_inner::exports::energy_book_hourly_exposure_in(book, operator, hour, figure)
}
