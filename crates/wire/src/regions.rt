// Regions of a slice: replaced, copied over another, cleared, tested for zero.
ghost use Rattle.std.specs.Prelude.{◌≡◌, ◌+◌, ◌≤◌, length, drop};
ghost use Rattle.wire.specs.Regions.{splice, pasted, Apart, zeros_from};
ghost use Rattle.wire.specs.Parts.{zeros};

// Puts all of `src` into `dst` from `at` on.
pub fn copy_in(dst: &mut [u8], at: usize, src: &[u8])
    requires { at + length src.now ≤ length dst.old }
    ensures { dst.new ≡ splice dst.old at src.now }
{
    dst[at..at + src.len()].copy_from_slice(src);
}

// Copies the `n` bytes from `from` on over those from `to` on; the two regions do not overlap.
// The slice's own copy_within allows for an overlap, and takes longer.
pub fn copy_within(s: &mut [u8], from: usize, to: usize, n: usize)
    requires { (from + n ≤ length s.old) × (to + n ≤ length s.old) × Apart from to n }
    ensures { s.new ≡ pasted s.old to (drop from s.old) n }
{
    for i in 0..n {
        s[to + i] = s[from + i];
    }
}

// Makes the `n` bytes from `at` on zero.
pub fn clear_at(s: &mut [u8], at: usize, n: usize)
    requires { at + n ≤ length s.old }
    ensures { s.new ≡ splice s.old at (zeros n) }
{
    s[at..at + n].fill(0);
}

// Whether each of the `n` bytes from `from` on is zero. Every byte is looked at, so that many are at once.
pub fn all_zero(s: &[u8], from: usize, n: usize) -> bool
    requires { from + n ≤ length s.now }
    ensures { result ≡ zeros_from s.now from n }
{
    let mut ok = true;
    for byte in &s[from..from + n] {
        ok = ok & (*byte == 0);
    }
    ok
}
