// The vector that a base and its digits give.
ghost use Rattle.std.specs.Prelude.{◌≡◌, ◌<◌, ◌≤◌, ◌^◌};
ghost use Rattle.sv_literal.specs.Value as value;

use crate::bytes::{is_binary_base, is_decimal_base, is_octal_base, is_unknown};
use crate::digits::{
    capped_decimal, fill_bit, filled, last_bits, passes_word, vector, wrapped_decimal,
};
use crate::shape::behind_first;
use fourvec::Four;

/// How many bits a digit of the bases `b`, `o` and `h` has.
fn digit_width(base: u8) -> u8
    ensures width { result ≡ value.digit_width base }
    ensures some { 0 < result }
    ensures most { result ≤ 4 }
{
    if is_binary_base(base) {
        1
    } else if is_octal_base(base) {
        3
    } else {
        4
    }
}

fn base_of(text: &[u8]) -> u8
    ensures { result ≡ value.base_of text.now }
{
    text.first().copied().unwrap_or(0)
}

/// The leftmost digit, which stands behind the base.
pub fn leftmost(text: &[u8]) -> u8
    ensures { result ≡ value.leftmost text.now }
{
    text.get(1).copied().unwrap_or(0)
}

/// The vector of a width that a base and its digits give.
#[tactic(auto, using(crate::proofs::Vectors::fitted_part, crate::proofs::Vectors::length_of_fitted, fourvec::proofs::Basic::vector_cut), unfolding(crate::specs::Value::vector_of))]
pub fn vector_of(width: u8, text: &[u8]) -> Four
    requires some { 0 < width }
    requires most { width ≤ 128 }
    ensures { result ≡ value.vector_of width text.now }
{
    let base = base_of(text);
    let leftmost = leftmost(text);
    let digits = behind_first(text);
    if !is_decimal_base(base) {
        last_bits(digit_width(base), fill_bit(leftmost), digits).slice(0, width)
    } else if is_unknown(leftmost) {
        filled(width, fill_bit(leftmost))
    } else {
        vector(width, wrapped_decimal(digits))
    }
}

/// Whether a base and its digits give a bit past position 31 that is not 0.
#[tactic(auto, unfolding(crate::specs::Value::exceeds_word))]
pub fn exceeds_word(text: &[u8]) -> bool
    ensures { result ≡ value.exceeds_word text.now }
{
    let base = base_of(text);
    let digits = behind_first(text);
    if is_decimal_base(base) {
        !is_unknown(leftmost(text)) && capped_decimal(digits) >= 1 << 32
    } else {
        passes_word(digit_width(base), digits)
    }
}
