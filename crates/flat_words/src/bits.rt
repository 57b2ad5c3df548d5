//! The bits of a constant.

ghost use Rattle.std.specs.Prelude.{◌≡◌, ◌+◌, ◌<◌, ◌≤◌, ◌∷◌, [], length};
ghost use Rattle.flat_words.specs.Readers as spec;
ghost use Rattle.flat_words.specs.Readers.{bits_onto};

use fourvec::{Bit, Four, one_bit};

fn bit_of(digit: u8) -> Option<Bit>
    ensures { result ≡ spec.bit_of digit }
{
    match digit {
        b'0' => Some(Bit::Zero),
        b'1' => Some(Bit::One),
        b'x' => Some(Bit::Unknown),
        b'z' => Some(Bit::Floating),
        _ => None,
    }
}

// The bits of digits below those that are known.
#[tactic(auto, using(crate::proofs::Onto::bits_more, crate::proofs::Onto::bits_stop, crate::proofs::Onto::bits_end))]
fn bits_below(high: Four, digits: &[u8]) -> Option<Four>
    requires { length high + length digits.now ≤ 128 }
    ensures { result ≡ bits_onto high digits.now }
{
    let mut value = high;
    'digits: for digit in digits {
        value = value.concat(&one_bit(bit_of(*digit)?));
    }
    Some(value)
}

/// The vector of digits, the most significant first.
#[tactic(auto, unfolding(crate::specs::Readers::bits_onto))]
pub fn bits(digits: &[u8]) -> Option<Four>
    requires some { 0 < length digits.now }
    requires most { length digits.now ≤ 128 }
    ensures { result ≡ bits_onto [] digits.now }
{
    match digits {
        [] => None,
        [first, rest @ ..] => bits_below(one_bit(bit_of(*first)?), rest),
    }
}
