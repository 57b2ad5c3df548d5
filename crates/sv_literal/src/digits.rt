// What the digits of a literal give: numbers of decimal digits, and bits of digits of the other bases. A loop takes a fixed
// number of steps on words for each digit and keeps no list of bits: 128 bits are all that a vector holds, so one loop keeps
// the last 128, and another, of 32 bits, whether a bit that is not 0 was pushed out. Decimal digits have two loops, up to a cap
// and modulo 2 ^ 128: the one tells a size or a range, the other the bits.
ghost use Rattle.std.specs.Prelude.{◌≡◌, ◌||◌, ◌-◌, ◌%◌, ◌^◌, ◌<◌, ◌≤◌, ◌∷◌, [], ◌++◌, length, min, not, take, drop, replicate};
ghost use Rattle.fourvec.specs.Bits.{vector, all_zero};
ghost use Rattle.sv_literal.specs.Value as value;

use crate::bytes::{digit_value, is_unknown, is_x, is_z};
use fourvec::{Bit, Four};

/// A vector of one bit.
#[tactic(auto, unfolding(fourvec::specs::Bits::planes))]
pub fn one_bit(bit: Bit) -> Four
    ensures { result ≡ bit ∷ [] }
{
    match bit {
        Bit::Zero => Four::new(1, 0, 0),
        Bit::One => Four::new(1, 1, 1),
        Bit::Unknown => Four::new(1, 1, 0),
        Bit::Floating => Four::new(1, 0, 1),
    }
}

/// Copies of one bit.
pub fn filled(width: u8, bit: Bit) -> Four
    requires some { 0 < width }
    requires most { width ≤ 128 }
    ensures { result ≡ replicate width bit }
{
    one_bit(bit).sext(width)
}

/// The vector of a number modulo 2 ^ width.
#[tactic(auto, using(crate::proofs::Vectors::masked))]
pub fn vector(width: u8, n: u128) -> Four
    requires some { 0 < width }
    requires most { width ≤ 128 }
    ensures { result ≡ vector width n }
{
    let kept = n & (u128::MAX >> (128 - width));
    Four::new(width, kept, kept)
}

/// The bit that fills a vector at the left of its leftmost digit.
pub fn fill_bit(digit: u8) -> Bit
    ensures { result ≡ value.fill_bit digit }
{
    if is_x(digit) {
        Bit::Unknown
    } else if is_z(digit) {
        Bit::Floating
    } else {
        Bit::Zero
    }
}

// The bits of a digit of the bases `b`, `o` and `h`.
#[tactic(auto, unfolding(crate::specs::Value::digit_bits))]
fn digit_bits(each: u8, digit: u8) -> Four
    requires some { 0 < each }
    requires most { each ≤ 128 }
    ensures { result ≡ value.digit_bits each digit }
{
    if is_unknown(digit) {
        filled(each, fill_bit(digit))
    } else {
        vector(each, u128::from(digit_value(digit)))
    }
}

/// The number of decimal digits, or the greatest of 64 bits where it is over that.
#[tactic(auto, using(crate::proofs::Decimals::decimal_none, crate::proofs::Decimals::decimal_more, crate::proofs::Decimals::capped_step))]
pub fn capped_decimal(digits: &[u8]) -> u64
    ensures { result ≡ min (value.decimal digits.now) (2 ^ 64 - 1) }
{
    let mut number = 0u64;
    for b in digits {
        if *b != b'_' {
            number = number
                .saturating_mul(10)
                .saturating_add(u64::from(digit_value(*b)));
        }
    }
    number
}

/// The number of decimal digits modulo 2 ^ 128.
#[tactic(auto, using(crate::proofs::Decimals::decimal_none, crate::proofs::Decimals::decimal_more, crate::proofs::Decimals::wrapped_step))]
pub fn wrapped_decimal(digits: &[u8]) -> u128
    ensures { result ≡ value.decimal digits.now % 2 ^ 128 }
{
    let mut number = 0u128;
    for b in digits {
        if *b != b'_' {
            number = number
                .wrapping_mul(10)
                .wrapping_add(u128::from(digit_value(*b)));
        }
    }
    number
}

// A vector with a digit behind it, cut at the left to its own width.
#[tactic(auto, using(crate::proofs::Vectors::pushed))]
fn pushed(last: &Four, digit: &Four) -> Four
    requires { length digit.now < length last.now }
    ensures { result ≡ take (length last.now) (digit.now ++ last.now) }
{
    let kept = last.width() - digit.width();
    last.slice(0, kept).concat(digit)
}

/// The last 128 bits that the digits give, filled at the left.
#[tactic(auto, using(crate::proofs::Vectors::lasts))]
pub fn last_bits(each: u8, fill: Bit, digits: &[u8]) -> Four
    requires some { 0 < each }
    requires most { each ≤ 4 }
    ensures { result ≡ value.fitted 128 fill (value.given_bits each digits.now) }
{
    let mut last = filled(128, fill);
    for b in digits {
        if *b != b'_' {
            last = pushed(&last, &digit_bits(each, *b));
        }
    }
    last
}

#[tactic(auto, using(crate::proofs::Vectors::is_zero_on_planes))]
fn is_zero(bits: &Four) -> bool
    ensures { result ≡ all_zero bits.now }
{
    bits.up() == 0 && bits.low() == 0
}

// Whether a bit that is not 0 was pushed out, once that many more are.
fn passes_more(passed: bool, last: &Four, more: u8) -> bool
    requires some { 0 < more }
    requires most { more ≤ length last.now }
    ensures { result
        ≡ (passed || not (all_zero (take more (drop (length last.now - more) last.now)))) }
{
    passed || !is_zero(&last.slice(last.width() - more, more))
}

/// Whether the digits give a bit past position 31 that is not 0.
#[tactic(auto, using(crate::proofs::Vectors::passing))]
pub fn passes_word(each: u8, digits: &[u8]) -> bool
    requires some { 0 < each }
    requires most { each ≤ 4 }
    ensures { result ≡ not (all_zero (drop 32 (value.given_bits each digits.now))) }
{
    let mut last = filled(32, Bit::Zero);
    let mut passed = false;
    for b in digits {
        if *b != b'_' {
            passed = passes_more(passed, &last, each);
            last = pushed(&last, &digit_bits(each, *b));
        }
    }
    passed
}
