// Whole numbers that enumerators stand for.
ghost use Rattle.std.specs.Prelude.{◌≡◌, ◌≤◌, ◌+ℤ◌, ◌^◌, IsTrue, nat_lt, pos};
ghost use Rattle.fourvec.specs.Bits.{is_known, is_negative, signed_vector};
ghost use Rattle.sv_meaning.specs.Meanings.{whole};
ghost use Rattle.sv_meaning.specs.Forms.{can_hold};
ghost use Rattle.sv_types.specs.Types.{whole_is};

use fourvec::{Bit, Four};
use sv_names::Known;

/// A whole number.
#[derive(Clone, Copy)]
pub(crate) enum Whole {
    /// 0 or more.
    Natural(u128),
    /// -1, less so many.
    Below(u128),
    /// 2 ^ 128, which no vector holds.
    Past,
}

// Whether a number is below 2 ^ bits.
fn fits(number: u128, bits: u8) -> bool
    requires { bits ≤ 128 }
    ensures { result ≡ nat_lt number (2 ^ bits) }
{
    bits == 128 || number >> bits == 0
}

// Whether the highest bit is 1.
#[tactic(auto, using(fourvec::proofs::Signed::negative_read))]
fn is_negative(a: &Four) -> bool
    ensures { result ≡ is_negative a.now }
{
    a.bit(a.width() - 1) == Bit::One
}

impl Whole {
    /// The number of a known vector, by its sign.
    pub(crate) fn of(known: &Known) -> Whole
        requires { IsTrue (is_known known.now.value) }
        ensures { whole_is result ≡ whole known.now.signed known.now.value }
    {
        let number = known.value.low();
        if known.signed && is_negative(&known.value) {
            Whole::Below((u128::MAX >> (128 - known.value.width())) - number)
        } else {
            Whole::Natural(number)
        }
    }

    /// Whether so many bits hold the number.
    pub(crate) fn fits_in(self, width: u8, signed: bool) -> bool
        requires some { 1 ≤ width }
        requires most { width ≤ 128 }
        ensures { result ≡ can_hold width signed (whole_is self) }
    {
        match self {
            Whole::Natural(number) => fits(number, width - signed as u8),
            Whole::Below(number) => signed && fits(number, width - 1),
            Whole::Past => false,
        }
    }

    /// The vector of so many bits, which hold the number.
    pub(crate) fn vector(self, width: u8, signed: bool) -> Four
        requires some { 1 ≤ width }
        requires most { width ≤ 128 }
        requires held { IsTrue (can_hold width signed (whole_is self)) }
        ensures { result ≡ signed_vector width (whole_is self) }
    {
        match self {
            Whole::Natural(number) => Four::new(width, number, number),
            Whole::Below(number) => {
                let bits = (u128::MAX >> (128 - width)) - number;
                Four::new(width, bits, bits)
            }
            Whole::Past => Four::new(width, 0, 0),
        }
    }

    /// One more than a number that some vector holds.
    pub(crate) fn next(self, width: u8, signed: bool) -> Whole
        requires most { width ≤ 128 }
        requires held { IsTrue (can_hold width signed (whole_is self)) }
        ensures { whole_is result ≡ whole_is self +ℤ pos 1 }
    {
        match self {
            Whole::Natural(u128::MAX) => Whole::Past,
            Whole::Natural(number) => Whole::Natural(number + 1),
            Whole::Below(0) => Whole::Natural(0),
            Whole::Below(number) => Whole::Below(number - 1),
            Whole::Past => Whole::Past,
        }
    }
}
