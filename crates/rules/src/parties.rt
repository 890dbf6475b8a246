// The two parties of a row.
ghost use Rattle.std.specs.Prelude.{◌≡◌, if◌then◌else◌};
ghost use Rattle.rules.specs.Registration.{seller, buyer};

use crate::Row;
use crate::sides::SELLS;

// The first where the test holds, else the second.
fn pick(on: bool, a: u8, b: u8) -> u8
    ensures { result ≡ (if on then a else b) }
{
    if on { a } else { b }
}

impl Row {
    // The account that sells.
    pub fn seller(self) -> u8
        ensures { result ≡ seller self }
    {
        pick(self.side == SELLS, self.proposer, self.counterparty)
    }

    // The account that buys.
    pub fn buyer(self) -> u8
        ensures { result ≡ buyer self }
    {
        pick(self.side == SELLS, self.counterparty, self.proposer)
    }
}
