// Fills.
ghost use Rattle.std.specs.Prelude.{◌≡◌};
ghost use Rattle.sv_literal.specs.Meaning.{fill_of};

use crate::digits::{fill_bit, one_bit};
use crate::meaning::Literal;
use crate::value::leftmost;
use fourvec::Bit;

/// One of `'0 '1 'x 'z`.
#[tactic(auto, unfolding(crate::specs::Meaning::fill_of))]
pub fn fill(text: &[u8]) -> Literal
    ensures { result ≡ fill_of text.now }
{
    let digit = leftmost(text);
    let bit = if digit == b'1' {
        Bit::One
    } else {
        fill_bit(digit)
    };
    Literal {
        value: one_bit(bit),
        sized: false,
        signed: false,
        fill: true,
    }
}
