//! The values that changes give.

ghost use Rattle.std.specs.Prelude.{◌≡◌, ◌<◌, ◌≤◌, ◌-◌, ◌+◌, ◌∷◌, [], length};
ghost use Rattle.vcd_text.specs.Waves as wave;
ghost use Rattle.vcd_text.specs.Said as wrote;
ghost use Rattle.vcd_text.specs.Said.{bit_said, bits_said, onto_bits};

use crate::forms::bit;
use fourvec::{Bit, Four, one_bit};

// The bit that a byte of bits says.
fn said(byte: u8) -> Bit
    ensures { result ≡ bit_said byte }
{
    bit(byte).unwrap_or(Bit::Zero)
}

// Bits below those that are known, the most significant first.
#[tactic(auto, using(crate::proofs::Fitting::onto_more, crate::proofs::Fitting::onto_end))]
fn bits_below(high: Four, bits: &[u8]) -> Four
    requires { length high + length bits.now ≤ 128 }
    ensures { result ≡ onto_bits high (bits_said bits.now) }
{
    let mut value = high;
    'bits: for bit in bits {
        value = value.concat(&one_bit(said(*bit)));
    }
    value
}

// The value with its highest bit or 0 above it, to a width.
#[tactic(auto, using(crate::proofs::Fitting::widened_zero, crate::proofs::Fitting::widened_top))]
fn widened(value: Four, highest: Bit, width: u8) -> Four
    requires within { length value ≤ width }
    requires most { width ≤ 128 }
    requires highest { wrote.top_is value highest }
    ensures { result ≡ wrote.widened value highest width }
{
    match highest {
        Bit::Zero | Bit::One => value.zext(width),
        Bit::Unknown | Bit::Floating => value.sext(width),
    }
}

/// The value of a width that written bits give.
pub fn fitted(bits: &[u8], width: u8) -> Four
    requires some { 0 < width }
    requires most { width ≤ 128 }
    ensures { result ≡ wave.fitted width (bits_said bits.now) }
{
    let (_, kept) = bits.split_at(bits.len().saturating_sub(usize::from(width)));
    match kept {
        [] => one_bit(Bit::Zero).zext(width),
        [first, rest @ ..] => {
            let highest = said(*first);
            widened(bits_below(one_bit(highest), rest), highest, width)
        }
    }
}
