//! Vectors made, extended and raised to powers, as the forms of typed expressions need them. Powers are products modulo 2 ^ 128,
//! cut to their width at the end.
ghost use Rattle.std.specs.Prelude.{◌≡◌, ◌≤◌, ◌<◌, ◌^◌, ◌%◌, length, replicate};
ghost use Rattle.fourvec.specs.Bits.{vector, all_x, first, is_negative};
ghost use Rattle.sv_meaning.specs.Meanings.{extend, fitted, log_from};
ghost use Rattle.sv_typed.specs.Typed.{exponent_of, raised};

use fourvec::{Bit, Four};

// The vector of a number modulo 2 ^ width.
#[tactic(auto, using(fourvec::proofs::Basic::vector_on_planes, crate::proofs::Vectors::vector_front))]
pub(crate) fn vector(width: u8, n: u128) -> Four
    requires some { 0 < width }
    requires most { width ≤ 128 }
    ensures is { result ≡ vector width n }
    ensures width { length result ≡ width }
{
    Four::new(128, n, n).slice(0, width)
}

// Copies of the lowest bit.
#[tactic(auto, using(fourvec::proofs::Widths::widths, crate::proofs::Vectors::copies_of_one))]
pub(crate) fn filled(width: u8, bit: &Four) -> Four
    requires one { length bit.now ≡ 1 }
    requires some { 0 < width }
    requires most { width ≤ 128 }
    ensures is { result ≡ replicate width (first bit.now) }
    ensures width { length result ≡ width }
{
    bit.sext(width)
}

#[tactic(auto, using(crate::proofs::Vectors::one_x), unfolding(fourvec::specs::Bits::planes))]
pub(crate) fn unknown(width: u8) -> Four
    requires some { 0 < width }
    requires most { width ≤ 128 }
    ensures is { result ≡ all_x width }
    ensures width { length result ≡ width }
{
    filled(width, &Four::new(1, 1, 0))
}

// Extended by a sign.
#[tactic(auto, using(fourvec::proofs::Widths::widths))]
pub(crate) fn extended(a: &Four, signed: bool, width: u8) -> Four
    requires grows { length a.now ≤ width }
    requires most { width ≤ 128 }
    ensures is { result ≡ extend signed width a.now }
    ensures width { length result ≡ width }
{
    if signed { a.sext(width) } else { a.zext(width) }
}

// Extended by a sign, or cut.
#[tactic(auto, using(fourvec::proofs::Widths::widths, crate::proofs::Vectors::cut, crate::proofs::Vectors::grown))]
pub(crate) fn fitted(a: &Four, signed: bool, width: u8) -> Four
    requires some { 0 < width }
    requires most { width ≤ 128 }
    ensures is { result ≡ fitted signed width a.now }
    ensures width { length result ≡ width }
{
    if width < a.width() {
        a.slice(0, width)
    } else {
        extended(a, signed, width)
    }
}

// Whether the highest bit is 1.
#[tactic(auto, using(fourvec::proofs::Signed::negative_read))]
fn is_negative(a: &Four) -> bool
    ensures { result ≡ is_negative a.now }
{
    a.bit(a.width() - 1) == Bit::One
}

// The exponent that bits of such a sign give: none where a bit is unknown, or below 0.
#[tactic(auto, using(crate::proofs::Vectors::exponents))]
pub(crate) fn exponent(bits: &Four, signed: bool) -> Option<u128>
    ensures { result ≡ exponent_of signed bits.now }
{
    if !bits.is_bool() {
        None
    } else if !signed {
        Some(bits.low())
    } else if is_negative(bits) {
        None
    } else {
        Some(bits.low())
    }
}

// The least k for which 2 ^ k is not below n.
pub(crate) fn log_up(n: u128) -> u8
    ensures is { result ≡ log_from 128 0 n }
    ensures most { result ≤ 128 }
{
    for k in 0..128u8 {
        if n <= 1u128 << k {
            return k;
        }
    }
    128
}

// The product of so many copies, modulo 2 ^ 128.
fn product(base: u128, exponent: u128) -> u128
    ensures { result ≡ base ^ exponent % 2 ^ 128 }
{
    let mut all = 1u128;
    let mut square = base;
    let mut rest = exponent;
    while rest > 0 {
        if rest % 2 == 1 {
            all = all.wrapping_mul(square);
        }
        square = square.wrapping_mul(square);
        rest /= 2;
    }
    all
}

// To this power, all X where it is none.
#[tactic(auto, using(crate::proofs::Vectors::powers))]
pub(crate) fn raised(a: &Four, exponent: Option<u128>) -> Four
    ensures is { result ≡ raised (length a.now) a.now exponent }
    ensures width { length result ≡ length a.now }
{
    let width = a.width();
    match exponent {
        None => unknown(width),
        Some(0) => vector(width, 1),
        Some(n) => {
            if a.is_bool() {
                vector(width, product(a.low(), n))
            } else {
                unknown(width)
            }
        }
    }
}
