// One line of the replay, put behind the lines in a lent buffer.
ghost use Rattle.std.specs.Prelude.{◌+◌, ◌≤◌, length};
ghost use Rattle.rules.specs.Settlement.{balance_figure};
ghost use Rattle.rules.specs.Replay.{line_text, answered, result as result_line, balance as balance_line, sum, cut, long};
ghost use Rattle.items.specs.Written.{line_room};
ghost use Rattle.items.specs.Puts.{Puts};

use crate::LineBuffer;
use rules::{Balance, Numbers};

impl<'a> LineBuffer<'a> {
    // Puts `item verdict detail detail`.
    pub fn put_answered(&mut self, item: u64, numbers: Numbers)
        requires { self.old.end + line_room ≤ length self.old.out.now }
        ensures put { Puts self.old (line_text (answered item (numbers.number, numbers.first, numbers.second))) self.new }
        ensures bounded { self.new.end ≤ self.old.end + line_room }
    {
        self.put_number(item, b' ');
        self.put_number(numbers.number as u64, b' ');
        self.put_number(numbers.first as u64, b' ');
        self.put_number(numbers.second as u64, b'\n');
    }

    // Puts `s place result`.
    pub fn put_result(&mut self, place: u64, res: u8)
        requires { self.old.end + line_room ≤ length self.old.out.now }
        ensures put { Puts self.old (line_text (result_line place res)) self.new }
        ensures bounded { self.new.end ≤ self.old.end + line_room }
    {
        self.put_bytes(b"s ");
        self.put_number(place, b' ');
        self.put_number(res as u64, b'\n');
    }

    // Puts `o operator balance`.
    pub fn put_balance(&mut self, operator: u64, balance: Balance)
        requires { self.old.end + line_room ≤ length self.old.out.now }
        ensures put { Puts self.old (line_text (balance_line operator (balance_figure balance))) self.new }
        ensures bounded { self.new.end ≤ self.old.end + line_room }
    {
        self.put_bytes(b"o ");
        self.put_number(operator, b' ');
        self.put_figure(balance, b'\n');
    }

    // Puts `t total`.
    pub fn put_total(&mut self, total: Balance)
        requires { self.old.end + line_room ≤ length self.old.out.now }
        ensures put { Puts self.old (line_text (sum (balance_figure total))) self.new }
        ensures bounded { self.new.end ≤ self.old.end + line_room }
    {
        self.put_bytes(b"t ");
        self.put_figure(total, b'\n');
    }

    // Puts `cut item`.
    pub fn put_cut(&mut self, item: u64)
        requires { self.old.end + line_room ≤ length self.old.out.now }
        ensures put { Puts self.old (line_text (cut item)) self.new }
        ensures bounded { self.new.end ≤ self.old.end + line_room }
    {
        self.put_bytes(b"cut ");
        self.put_number(item, b'\n');
    }

    // Puts `long`.
    pub fn put_long(&mut self)
        requires { self.old.end + line_room ≤ length self.old.out.now }
        ensures put { Puts self.old (line_text long) self.new }
        ensures bounded { self.new.end ≤ self.old.end + line_room }
    {
        self.put_bytes(b"long\n");
    }
}
