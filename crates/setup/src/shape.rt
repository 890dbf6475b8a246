// The shape of set-up bytes.
ghost use Rattle.std.specs.Prelude.{◌≡◌};
ghost use Rattle.rules.specs.Opening.{bad_counts, misshapen};

use crate::counts::{COUNTS_WIDTH, counts, length_of};
use rules::Counts;
use rules::limits::{
    FEWEST_HOURS, MOST_ACCOUNTS, MOST_HOURS, MOST_OPERATORS, MOST_POINTS, MOST_ZONES,
};

// A count is out of range.
pub fn bad_counts(n: Counts) -> bool
    ensures { result ≡ bad_counts n }
{
    !((FEWEST_HOURS <= n.hours) & (n.hours <= MOST_HOURS))
        | !((1 <= n.operators) & (n.operators <= MOST_OPERATORS))
        | !((1 <= n.accounts) & (n.accounts <= MOST_ACCOUNTS))
        | !(n.points <= MOST_POINTS)
        | !((1 <= n.zones) & (n.zones <= MOST_ZONES))
}

// Fewer bytes than the counts have, a count out of range, or a wrong length.
pub fn misshapen(setup: &[u8]) -> bool
    ensures { result ≡ misshapen setup.now }
{
    if setup.len() < COUNTS_WIDTH {
        return true;
    }
    let n = counts(setup);
    bad_counts(n) | (setup.len() != length_of(n))
}
