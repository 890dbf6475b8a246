// A check that is put to one row after the other.
ghost use Rattle.std.specs.Prelude.{◌≡◌, ℕ, map, ◌<◌};
ghost use Rattle.rules.specs.Basics.{counting};
ghost use Rattle.rules.specs.Verdicts.{Check, Checked, applies, first_to_apply, checked};

use rules::Refusal;

// The check of each number below `n`: the first refusal. Numbers past that are not looked at.
pub(crate) fn first_fault<F: Fn(usize) -> Result<(), Refusal>>(
    n: usize,
    check: F,
) -> Result<(), Refusal>
    requires { (i : ℕ) → i < n → F.pre check i }
    ensures { (f : ℕ → Check) → ((i : ℕ) → i < n → (c : Checked) → F.post check i c → c ≡ checked (applies (f i)))
        → result ≡ checked (first_to_apply (map f (counting n 0))) }
{
    for i in 0..n {
        check(i)?;
    }
    Ok(())
}
