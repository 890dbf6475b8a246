// A check of one test.
ghost use Rattle.std.specs.Prelude.{◌≡◌};
ghost use Rattle.rules.specs.Verdicts.{◌⇒◌, applies, checked};

use rules::Refusal;

// The refusal, where the test holds.
pub fn fails_if(test: bool, r: Refusal) -> Result<(), Refusal>
    ensures { result ≡ checked (applies (test ⇒ r)) }
{
    if test {
        return Err(r);
    }
    Ok(())
}
