// No two pending rows are alike in proposer, counterparty and code: found by keys, of which only those that share a mark are compared.
ghost use Rattle.std.specs.Prelude.{◌≡◌, false, ◌+◌, ◌-◌, ◌*◌, ◌≤◌, ◌<◌, length};
ghost use Rattle.image.specs.Valid.{no_twins};
ghost use Rattle.image.specs.Cells.{rows_from};
ghost use Rattle.image.specs.Layout.{row_width};
ghost use Rattle.rules.specs.Limits.{most_rows};
ghost use Rattle.audit.specs.Twins.{key_of, mark_of, key_at, key_repeats, keys_apart, Keyed, marks};

use image::layout::{MOST_ROWS, ROW_WIDTH};
use image::rows::row_at;
use rules::Row;
use rules::statuses::PENDING;
use wire::signed::MODULUS_U32;

// Marks that keys may have.
const MARKS: usize = 8_192;

// A number of 32 bits times this, about 2^32 over the golden ratio, has a mark in the first 13 of its lower 32 bits: numbers counted up
// are spread by it.
const SPREAD: u64 = 2_654_435_761;

// The bits below the mark.
const BELOW_MARK: u64 = MODULUS_U32 / (MARKS as u64);

// The key of a row: its code, and a number of its parties or of its place. Two rows have the same one only where both are pending and alike.
#[derive(Clone, Copy)]
struct Key {
    code: u64,
    pair: u64,
}

impl Key {
    // The key of the row that has `i` before it. A row that is not pending gets one that no other row has.
    fn of(r: Row, i: usize) -> Key
        requires { i < most_rows }
        ensures { result ≡ key_of i r }
    {
        let pair = if r.status == PENDING {
            (r.proposer as u64) * 256 + (r.counterparty as u64)
        } else {
            65536 + (i as u64)
        };
        Key { code: r.code, pair }
    }

    // The mark of a key. Two keys seldom share one.
    fn mark(self) -> usize
        ensures { (result ≡ mark_of self) × (result < marks) }
    {
        let code = self.code % MODULUS_U32 + self.code / MODULUS_U32;
        let word = (code + 257 * (self.pair % MODULUS_U32)) % MODULUS_U32;
        (word * SPREAD / BELOW_MARK) as usize % MARKS
    }
}

// The keys of as many rows as a book has. Codes and pairs stand apart: in one array of keys, fewer are compared at once, and keys that all
// share a mark took 15 to 30 µs in place of 12.
#[derive(Drop)]
struct Keys {
    codes: [u64; MOST_ROWS],
    pairs: [u64; MOST_ROWS],
}

impl Keys {
    // Fills in the keys of the `n` rows from `at` on.
    fn fill(&mut self, s: &[u8], at: usize, n: usize)
        requires { (n ≤ most_rows) × (at + row_width * n ≤ length s.now) }
        ensures { Keyed s.now at n self.new }
    {
        for i in 0..n {
            let key = Key::of(row_at(s, at + ROW_WIDTH * i), i);
            self.codes[i] = key.code;
            self.pairs[i] = key.pair;
        }
    }

    // The key at place `i`.
    fn at(&self, i: usize) -> Key
        requires { i < most_rows }
        ensures { result ≡ key_at self.now i }
    {
        Key {
            code: self.codes[i],
            pair: self.pairs[i],
        }
    }

    // One of the keys after place `i` is the key at `i`. Each is compared, so that many are at once.
    fn repeats(&self, i: usize, n: usize) -> bool
        requires { (i < n) × (n ≤ most_rows) }
        ensures { result ≡ key_repeats self.now i n }
    {
        let key = self.at(i);
        let mut found = false;
        for k in i + 1..n {
            found = found | ((self.codes[k] == key.code) & (self.pairs[k] == key.pair));
        }
        found
    }

    // The same, with what was `seen` at the key's mark: where that is 0 the key does not repeat, and nothing is searched.
    fn repeats_seen(&self, i: usize, n: usize, seen: u8) -> bool
        requires { (i < n) × (n ≤ most_rows) × (seen ≡ 0 → key_repeats self.now i n ≡ false) }
        ensures { result ≡ key_repeats self.now i n }
    {
        if seen == 0 {
            return false;
        }
        self.repeats(i, n)
    }

    // No two of the `n` keys are the same: from the last to the first, each leaves a 1 at its mark.
    fn apart(&self, seen: &mut [u8], n: usize) -> bool
        requires { (length seen.old ≡ marks) × (n ≤ most_rows) }
        ensures { result ≡ keys_apart self.now 0 n }
    {
        for i in (0..n).rev() {
            let mark = self.at(i).mark();
            if self.repeats_seen(i, n, seen[mark]) {
                return false;
            }
            seen[mark] = 1;
        }
        true
    }
}

// No two pending ones of the `n` rows from `at` on are alike.
pub fn no_twins(s: &[u8], at: usize, n: usize) -> bool
    requires { (n ≤ most_rows) × (at + row_width * n ≤ length s.now) }
    ensures { result ≡ no_twins (rows_from s.now at n) }
{
    let mut keys = Keys {
        codes: [0u64; MOST_ROWS],
        pairs: [0u64; MOST_ROWS],
    };
    keys.fill(s, at, n);
    let mut seen = [0u8; MARKS];
    keys.apart(&mut seen, n)
}
