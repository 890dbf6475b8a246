// The counts of a set-up, and where its entries begin.
ghost use Rattle.std.specs.Prelude.{◌≡◌, ◌*◌, ◌^◌, ◌≤◌, length};
ghost use Rattle.rules.specs.Opening.{counts_in, operators_offset, accounts_offset, account_offset, points_offset, setup_length, counts_width, margin_width, account_entry};

use rules::Counts;

// How many bytes the counts and each entry have.
pub const COUNTS_WIDTH: usize = 5;

pub const PRICE_WIDTH: usize = 4;

pub const GUARANTEE_WIDTH: usize = 8;

pub const OPERATOR_ENTRY: usize = GUARANTEE_WIDTH + 2;

pub const POINT_ENTRY: usize = 11;

pub const MARGIN_WIDTH: usize = 4;

// Where an account's margins begin in its entry, past its operator and its kind.
pub const LOWER_OFFSET: usize = 2;

// The counts in the first bytes.
pub fn counts(setup: &[u8]) -> Counts
    requires { counts_width ≤ length setup.now }
    ensures { result ≡ counts_in setup.now }
{
    Counts {
        hours: setup[0],
        operators: setup[1],
        accounts: setup[2],
        points: setup[3],
        zones: setup[4],
    }
}

// How many bytes the lower margins of an account have, and as many the upper ones: a margin for each hour.
pub fn margins_length(n: Counts) -> usize
    ensures { result ≡ margin_width * n.hours }
{
    MARGIN_WIDTH * (n.hours as usize)
}

// How many bytes an account has, in a set-up of these counts.
pub fn account_entry(n: Counts) -> usize
    ensures { (result ≡ account_entry n) × (result ≤ 2 ^ 12) }
{
    LOWER_OFFSET + 2 * margins_length(n)
}

// How many bytes so many accounts have, in a set-up of these counts.
fn accounts_length(n: Counts, count: u8) -> usize
    ensures { (result ≡ account_entry n * count) × (result ≤ 2 ^ 20) }
{
    account_entry(n) * (count as usize)
}

// Where the operators begin.
pub fn operators_offset(n: Counts) -> usize
    ensures { result ≡ operators_offset n }
{
    COUNTS_WIDTH + PRICE_WIDTH * (n.hours as usize)
}

// Where the accounts begin.
pub fn accounts_offset(n: Counts) -> usize
    ensures { result ≡ accounts_offset n }
{
    COUNTS_WIDTH + PRICE_WIDTH * (n.hours as usize) + OPERATOR_ENTRY * (n.operators as usize)
}

// Where the entry of an account begins, by its number from 1.
pub fn account_offset(n: Counts, number: u8) -> usize
    requires { 1 ≤ number }
    ensures { (result ≡ account_offset n number) × (result ≤ 2 ^ 21) }
{
    accounts_offset(n) + accounts_length(n, number - 1)
}

// Where the points begin.
pub fn points_offset(n: Counts) -> usize
    ensures { (result ≡ points_offset n) × (result ≤ 2 ^ 21) }
{
    accounts_offset(n) + accounts_length(n, n.accounts)
}

// The length of a set-up of these counts: where its entries end.
pub fn length_of(n: Counts) -> usize
    ensures { result ≡ setup_length n }
{
    points_offset(n) + POINT_ENTRY * (n.points as usize)
}
