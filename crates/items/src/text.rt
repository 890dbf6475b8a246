// Text put behind the lines in a lent buffer: bytes, numbers in decimal, and signed figures.
ghost use Rattle.std.specs.Prelude.{[], ◌∷◌, ◌++◌, ◌+◌, ◌≤◌, length};
ghost use Rattle.rules.specs.Settlement.{balance_figure};
ghost use Rattle.rules.specs.Replay.{decimal as decimal_text, signed_decimal};
ghost use Rattle.items.specs.Puts.{Puts};

use crate::LineBuffer;
use io::decimal;
use rules::Balance;
use wire::regions::copy_in;

impl<'a> LineBuffer<'a> {
    // Puts the bytes.
    pub fn put_bytes(&mut self, bytes: &[u8])
        requires { self.old.end + length bytes.now ≤ length self.old.out.now }
        ensures { Puts self.old bytes.now self.new }
    {
        copy_in(self.out, self.end, bytes);
        self.end += bytes.len();
    }

    // Puts the number in decimal.
    pub fn put_decimal(&mut self, n: u64)
        requires { self.old.end + 20 ≤ length self.old.out.now }
        ensures put { Puts self.old (decimal_text n) self.new }
        ensures bounded { self.new.end ≤ self.old.end + 20 }
    {
        let mut digits = [0u8; 20];
        let k = decimal(n, &mut digits);
        self.put_bytes(&digits[..k]);
    }

    // Puts the number in decimal, and `last` behind it.
    pub fn put_number(&mut self, n: u64, last: u8)
        requires { self.old.end + 21 ≤ length self.old.out.now }
        ensures put { Puts self.old (decimal_text n ++ last ∷ []) self.new }
        ensures bounded { self.new.end ≤ self.old.end + 21 }
    {
        self.put_decimal(n);
        self.put_bytes(&[last]);
    }

    // Puts what was gained less what was lost, with a minus sign where that is below zero, and `last` behind it.
    pub fn put_figure(&mut self, figure: Balance, last: u8)
        requires { self.old.end + 22 ≤ length self.old.out.now }
        ensures put { Puts self.old (signed_decimal (balance_figure figure) ++ last ∷ []) self.new }
        ensures bounded { self.new.end ≤ self.old.end + 22 }
    {
        let gained = figure.gained.0;
        let lost = figure.lost.0;
        if lost <= gained {
            self.put_number(gained - lost, last);
        } else {
            self.put_bytes(b"-");
            self.put_number(lost - gained, last);
        }
    }
}
