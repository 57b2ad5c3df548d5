// Vectors of bits that are given, and bits as bytes. They are functions and no methods, since a method costs each crate above.
ghost use Rattle.std.specs.Prelude.{◌≡◌, ◌<◌, ◌≤◌, ◌∷◌, []};
ghost use Rattle.fourvec.specs.Bits.{all_x, digit};

use crate::{Bit, Four};

/// A vector of one bit.
#[tactic(auto, unfolding(crate::specs::Bits::planes))]
pub fn one_bit(bit: Bit) -> Four
    ensures { result ≡ bit ∷ [] }
{
    match bit {
        Bit::Zero => Four::new(1, 0, 0),
        Bit::One => Four::new(1, 1, 1),
        Bit::Unknown => Four::new(1, 1, 0),
        Bit::Floating => Four::new(1, 0, 1),
    }
}

/// X at every bit.
pub fn all_unknown(width: u8) -> Four
    requires some { 0 < width }
    requires most { width ≤ 128 }
    ensures { result ≡ all_x width }
{
    Four::unknown(width)
}

/// A bit as a byte: `0`, `1`, `x` or `z`.
pub fn digit(bit: Bit) -> u8
    ensures { result ≡ digit bit }
{
    match bit {
        Bit::Zero => b'0',
        Bit::One => b'1',
        Bit::Unknown => b'x',
        Bit::Floating => b'z',
    }
}
