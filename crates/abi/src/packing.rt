// A verdict as one number.
ghost use Rattle.rules.specs.Verdicts.{numbers};
ghost use Rattle.abi.specs.Packing.{Packs};

use rules::{Numbers, Refusal};

// The verdict's number in the low byte, the first detail in the 2 bytes above it, the second in the 2 bytes above those.
pub fn pack(verdict: Result<u16, Refusal>) -> u64
    ensures answer { Packs (numbers verdict) result }
{
    let n = Numbers::from(verdict);
    (n.number as u64) + 256 * ((n.first as u64) + 65536 * (n.second as u64))
}
