// One whole item: its call on the book, and the lines that the answer prints.
ghost use Rattle.std.specs.Prelude.{◌≡◌, true, ◌&&◌, ◌+◌, ◌*◌, ◌≤◌, length, get_or, replicate, eqb, is_ok};
ghost use Rattle.rules.specs.Basics.{Each};
ghost use Rattle.rules.specs.Limits.{most_schedules, most_operators};
ghost use Rattle.rules.specs.Settlement.{figures_in};
ghost use Rattle.rules.specs.Calls.{Gives};
ghost use Rattle.rules.specs.Replay.{call_of, answer_lines, text};
ghost use Rattle.items.specs.Written.{Written, line_room};
ghost use Rattle.items.specs.Puts.{Puts};
ghost use Rattle.items.specs.Figures.{SmallFigure};
ghost use Rattle.image.specs.Valid.{is_book, book_in};
ghost use Rattle.valuation.specs.Tables.{balance_width};
ghost use Rattle.replaying.specs.Lent.{step_room, item_answer, answer_text};

use book::state::schedule_count;
use day::calls::call_in;
use items::LineBuffer;
use items::stream::record_length;
use rules::kinds::SETTLE;
use rules::limits::{MOST_OPERATORS, MOST_SCHEDULES};
use rules::{Numbers, Refusal};
use setup::counts::counts;
use valuation::balances::BALANCE_WIDTH;

// Bytes of the balances of the most operators.
const MOST_BALANCES: usize = BALANCE_WIDTH * (MOST_OPERATORS as usize);

// Calls the book with an item's record and prices, which are its two parts.
fn call_item(
    item: &[u8],
    book: &mut [u8],
    results: &mut [u8],
    balances: &mut [u8],
) -> Result<u16, Refusal>
    requires known_book { is_book book.old ≡ true }
    requires buffers_clear { (results.old ≡ replicate most_schedules 0) × (balances.old ≡ replicate (balance_width * most_operators) 0) }
    ensures answer { Gives (item_answer book.old item.now) result book.new results.new balances.new }
    ensures still { is_book book.new ≡ true }
{
    let n = record_length(item);
    call_in(&item[..n], book, &item[n..], results, balances).verdict
}

// Whether the outcome is that of an accepted settle.
fn settles(item: &[u8], outcome: Result<u16, Refusal>) -> bool
    ensures { result ≡ (is_ok outcome && eqb (get_or item.now 2 0) 10) }
{
    outcome.is_ok() && 2 < item.len() && item[2] == SETTLE
}

// Puts the lines of an answer: its own, and after an accepted settle those of the first `n` results and of the first `m` balances.
fn put_answer(
    lines: &mut LineBuffer,
    number: u64,
    outcome: Result<u16, Refusal>,
    settled: bool,
    results: &[u8],
    n: usize,
    balances: &[u8],
    m: usize,
)
    requires fits { (n ≤ length results.now) × (m ≤ most_operators) × (balance_width * m ≤ length balances.now) }
    requires room { lines.old.end + line_room * (n + m + 2) ≤ length lines.old.out.now }
    requires each { settled ≡ true → Each SmallFigure (figures_in m balances.now) }
    ensures put { Puts lines.old (answer_text number outcome settled n results.now m balances.now) lines.new }
    ensures bounded { lines.new.end ≤ lines.old.end + line_room * (n + m + 2) }
{
    lines.put_answered(number, Numbers::from(outcome));
    if settled {
        lines.put_settled(results, n, balances, m);
    }
}

// Answers an item, with buffers of zeros for results and balances.
fn answer_with(
    item: &[u8],
    number: u64,
    book: &mut [u8],
    out: &mut [u8],
    results: &mut [u8],
    balances: &mut [u8],
) -> usize
    requires known_book { is_book book.old ≡ true }
    requires room { step_room ≤ length out.old }
    requires buffers_clear { (results.old ≡ replicate most_schedules 0) × (balances.old ≡ replicate (balance_width * most_operators) 0) }
    ensures lines { Written out.old 0 (text (answer_lines number (book_in book.old) (call_of item.now))) out.new result }
    ensures bound { result ≤ step_room }
    ensures book { book.new ≡ (item_answer book.old item.now).book }
    ensures still { is_book book.new ≡ true }
{
    let n = counts(book);
    let standing = schedule_count(book) as usize;
    let outcome = call_item(item, book, results, balances);
    let settled = settles(item, outcome);
    let mut lines = LineBuffer { out, end: 0 };
    put_answer(
        &mut lines,
        number,
        outcome,
        settled,
        results,
        standing,
        balances,
        n.operators as usize,
    );
    lines.end
}

// Answers an item on the book, and puts the lines of the answer at the front of `out`. Gives the offset past them.
pub fn answer_item(item: &[u8], number: u64, book: &mut [u8], out: &mut [u8]) -> usize
    requires known_book { is_book book.old ≡ true }
    requires room { step_room ≤ length out.old }
    ensures lines { Written out.old 0 (text (answer_lines number (book_in book.old) (call_of item.now))) out.new result }
    ensures bound { result ≤ step_room }
    ensures book { book.new ≡ (item_answer book.old item.now).book }
    ensures still { is_book book.new ≡ true }
{
    let mut results = [0u8; MOST_SCHEDULES];
    let mut balances = [0u8; MOST_BALANCES];
    answer_with(item, number, book, out, &mut results, &mut balances)
}
