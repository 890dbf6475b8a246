// The lines of an accepted settle, from the two buffers that it filled: results by place, balances by operator, and their sum.
ghost use Rattle.std.specs.Prelude.{◌+◌, ◌*◌, ◌≤◌, length};
ghost use Rattle.rules.specs.Basics.{Each};
ghost use Rattle.rules.specs.Limits.{most_operators};
ghost use Rattle.rules.specs.Settlement.{figures_in};
ghost use Rattle.items.specs.Written.{line_room};
ghost use Rattle.items.specs.Puts.{Puts};
ghost use Rattle.items.specs.Figures.{SmallFigure, results_text, balance_lines_text, balances_text, settled_text};

use crate::LineBuffer;
use crate::figures::{balance_at, total_of};

impl<'a> LineBuffer<'a> {
    // Puts a line for each of the first `n` results.
    pub fn put_results(&mut self, results: &[u8], n: usize)
        requires { (n ≤ length results.now) × (self.old.end + line_room * n ≤ length self.old.out.now) }
        ensures put { Puts self.old (results_text n results.now) self.new }
        ensures bounded { self.new.end ≤ self.old.end + line_room * n }
    {
        for (k, result) in results[..n].iter().enumerate() {
            self.put_result((k + 1) as u64, *result);
        }
    }

    // Puts a line for each of the first `n` balances.
    pub fn put_balance_lines(&mut self, balances: &[u8], n: usize)
        requires { (8 * n ≤ length balances.now) × (self.old.end + line_room * n ≤ length self.old.out.now) }
        ensures put { Puts self.old (balance_lines_text (figures_in n balances.now)) self.new }
        ensures bounded { self.new.end ≤ self.old.end + line_room * n }
    {
        for k in 0..n {
            self.put_balance((k + 1) as u64, balance_at(balances, k));
        }
    }

    // Puts a line for each of the first `n` balances, and one for their sum.
    pub fn put_balances(&mut self, balances: &[u8], n: usize)
        requires small_figures { (n ≤ most_operators) × (8 * n ≤ length balances.now) × Each SmallFigure (figures_in n balances.now) }
        requires fits { self.old.end + line_room * (n + 1) ≤ length self.old.out.now }
        ensures put { Puts self.old (balances_text n balances.now) self.new }
        ensures bounded { self.new.end ≤ self.old.end + line_room * (n + 1) }
    {
        self.put_balance_lines(balances, n);
        self.put_total(total_of(balances, n));
    }

    // Puts all that an accepted settle adds: a line for each of the first `n` results, for each of the first `m` balances, and the total.
    pub fn put_settled(&mut self, results: &[u8], n: usize, balances: &[u8], m: usize)
        requires fits { (n ≤ length results.now) × (m ≤ most_operators) × (8 * m ≤ length balances.now) × Each SmallFigure (figures_in m balances.now) }
        requires room { self.old.end + line_room * (n + m + 1) ≤ length self.old.out.now }
        ensures put { Puts self.old (settled_text n results.now m balances.now) self.new }
        ensures bounded { self.new.end ≤ self.old.end + line_room * (n + m + 1) }
    {
        self.put_results(results, n);
        self.put_balances(balances, m);
    }
}
