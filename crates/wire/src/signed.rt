// Signed numbers as words of 4 and of 8 bytes, in two's complement.
ghost use Rattle.std.specs.Prelude.{◌≡◌};
ghost use Rattle.std.proofs.Math.IntN.{sub_ℕ};
ghost use Rattle.wire.specs.Numbers.{le, signed, minus_word};

use crate::numbers::Word;

// How many words of 4 bytes there are.
pub const MODULUS_U32: u64 = 4_294_967_296;

// From here on a word of 4 bytes is below zero.
pub const HALF_U32: u32 = 2_147_483_648;

// From here on a word of 8 bytes is below zero.
pub const HALF_U64: u64 = 9_223_372_036_854_775_808;

// A word that signed numbers are kept in.
pub trait SignedWord: Word {
    // Minus the number, in its width. Of a word below zero it is the magnitude.
    fn minus(self) -> Self
        ensures { Self.value result ≡ minus_word Self.WIDTH (Self.value self) };
}

impl SignedWord for u32 {
    fn minus(self) -> u32 {
        u32::wrapping_neg(self)
    }
}

impl SignedWord for u64 {
    fn minus(self) -> u64 {
        u64::wrapping_neg(self)
    }
}

// `plus` less `minus`, in 8 bytes.
pub fn difference_u64(plus: u64, minus: u64) -> u64
    ensures { le 8 result ≡ signed 8 (sub_ℕ plus minus) }
{
    plus.wrapping_sub(minus)
}
