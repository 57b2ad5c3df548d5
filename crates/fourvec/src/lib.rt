//! Four-valued vectors of 1 to 128 bits, and the operators of SystemVerilog on them.
//!
//! A bit is 0, 1, X or Z (IEEE 1800-2017, 6.3.1), and is unknown where it is X or Z. Contracts see a vector as the
//! list of its bits, the least significant first. No call allocates or fails: widths are conditions.
//! Each call takes a fixed number of steps on words of 128 bits. Sections in this crate are those of IEEE 1800-2017.
#![tactic(auto)]

ghost use Rattle.std.specs.Prelude.{◌≡◌, ◌-◌, ◌^◌, ◌<◌, ◌≤◌, ◌∷◌, [], length, slice_get, IsTrue, Some, replicate, unsigned_abs};
ghost use Rattle.fourvec.specs.Bits.{planes, up_plane, low_plane, is_known, all_x, truth_bit, number, vector, is_negative, signed, is_below};

use std::marker::Model;

mod arith;
mod laws;
mod logic;
mod made;
mod selects;
mod shifts;

pub use laws::{operators_are_monotone, order_of_contributions_is_free};
pub use made::{all_unknown, digit, one_bit};
pub use selects::Reach;

/// One bit: 0, 1, X or Z.
#[derive(Clone, Copy)]
pub enum Bit {
    Zero,
    One,
    Unknown,
    Floating,
}

/// A vector of 1 to 128 bits. Contracts see the list of its bits, the least significant first.
///
/// It is kept as a width and two planes, a word each: at its place a 1 has (1,1) in the upper and the lower plane,
/// a 0 has (0,0), an X has (1,0) and a Z has (0,1).
#[tactic(auto, using(crate::proofs::Basic::views))]
#[derive(Clone, Copy, PartialEq, Eq)]
pub struct Four {
    width: u8,
    up: u128,
    low: u128,
}

/// Where a part of a vector begins, as `number * each + add` in bits, and how many bits wide it is.
///
/// The number is that of an index vector: a two's complement number where `signed`, and negated where `negate`.
#[derive(Clone, Copy, PartialEq, Eq)]
pub struct Spot {
    pub signed: bool,
    pub negate: bool,
    pub each: u8,
    pub add: i64,
    pub width: u8,
}

impl Model for Four {
    ghost use Rattle.std.specs.Prelude.{ℕ, ◌<◌, ◌≤◌, ◌^◌, List, length};
    ghost use Rattle.fourvec.specs.declared.Bit.{Bit};
    ghost use Rattle.fourvec.specs.Bits.{planes, up_plane, low_plane};
    ghost use Rattle.fourvec.specs.PlanesBack.{length-planes, up_plane-planes, low_plane-planes};

    ghost Value = { List Bit };

    ghost view = { λ a. planes a.width a.up a.low };

    ghost invariant = { λ a. (0 < a.width) × (a.width ≤ 128) × (a.up < 2 ^ a.width) × (a.low < 2 ^ a.width) };

    ghost inverse = { λ bs. record { width = length bs; up = up_plane bs; low = low_plane bs } };

    ghost inverse_ok = { λ a h i. record {
      width = length-planes a.width a.up a.low i;
      up = up_plane-planes a.width a.up a.low h.2 i;
      low = low_plane-planes a.width a.up a.low h.3 i;
    } };
}

// The low `width` bits.
fn mask(width: u8) -> u128
    requires some { 0 < width }
    requires most { width ≤ 128 }
    ensures { result ≡ 2 ^ width - 1 }
{
    u128::MAX >> (128 - width)
}

impl Four {
    /// The vector that two planes show: at each place 1 is (1,1), 0 is (0,0), X is (1,0) and Z is (0,1) in (`up`, `low`).
    pub fn new(width: u8, up: u128, low: u128) -> Four
        requires some { 0 < width }
        requires most { width ≤ 128 }
        requires up_fits { up < 2 ^ width }
        requires low_fits { low < 2 ^ width }
        ensures { result ≡ planes width up low }
    {
        Four { width, up, low }
    }

    /// The number of bits.
    #[tactic(auto, using(crate::proofs::Basic::views))]
    pub fn width(&self) -> u8
        ensures is { result ≡ length self.now }
        ensures some { 0 < result }
        ensures most { result ≤ 128 }
    {
        self.width
    }

    /// The upper plane: a 1 where a bit is 1 or X.
    #[tactic(auto, using(crate::proofs::Basic::views))]
    pub fn up(&self) -> u128
        ensures { result ≡ up_plane self.now }
    {
        self.up
    }

    /// The lower plane: a 1 where a bit is 1 or Z.
    #[tactic(auto, using(crate::proofs::Basic::views))]
    pub fn low(&self) -> u128
        ensures { result ≡ low_plane self.now }
    {
        self.low
    }

    /// The bit at a place, 0 being the least significant.
    #[tactic(auto, using(crate::proofs::Basic::bit_on_planes, crate::proofs::Basic::views))]
    pub fn bit(&self, at: u8) -> Bit
        requires { at < length self.now }
        ensures { slice_get self.now at ≡ Some result }
    {
        let up = (self.up >> at) & 1 == 1;
        let low = (self.low >> at) & 1 == 1;
        match (up, low) {
            (true, true) => Bit::One,
            (false, false) => Bit::Zero,
            (true, false) => Bit::Unknown,
            (false, true) => Bit::Floating,
        }
    }

    /// Whether each bit is 0 or 1.
    #[tactic(auto, using(crate::proofs::Basic::is_known_on_planes))]
    pub fn is_bool(&self) -> bool
        ensures { result ≡ is_known self.now }
    {
        self.up == self.low
    }

    /// Whether both vectors have one width and each bit of this one is X or equals the bit of the other.
    #[tactic(auto, using(crate::proofs::Order::below_on_planes, crate::proofs::Order::below_one_width, crate::proofs::Basic::views))]
    pub fn below(&self, other: &Four) -> bool
        ensures { result ≡ is_below self.now other.now }
    {
        if self.width != other.width {
            return false;
        }
        let x = self.up & !self.low;
        let differ = (self.up ^ other.up) | (self.low ^ other.low);
        differ & !x == 0
    }

    // The vector of the lowest bits of two planes.
    fn of(width: u8, up: u128, low: u128) -> Four
        requires some { 0 < width }
        requires most { width ≤ 128 }
        ensures { result ≡ planes width up low }
    {
        let mask = mask(width);
        Four {
            width,
            up: up & mask,
            low: low & mask,
        }
    }

    // The vector of a number modulo 2 ^ width.
    #[tactic(auto, using(crate::proofs::Basic::vector_on_planes))]
    fn number(width: u8, n: u128) -> Four
        requires some { 0 < width }
        requires most { width ≤ 128 }
        ensures { result ≡ vector width n }
    {
        Four::of(width, n, n)
    }

    #[tactic(auto, using(crate::proofs::Basic::all_x_on_planes))]
    fn unknown(width: u8) -> Four
        requires some { 0 < width }
        requires most { width ≤ 128 }
        ensures { result ≡ all_x width }
    {
        Four::of(width, u128::MAX, 0)
    }

    // One bit, which tells whether a test holds.
    #[tactic(auto, using(crate::proofs::Basic::truth_on_planes))]
    fn verdict(holds: bool) -> Four
        ensures { result ≡ truth_bit holds ∷ [] }
    {
        let bit = if holds { 1 } else { 0 };
        Four::of(1, bit, bit)
    }

    // Copies of one bit.
    #[tactic(auto, using(crate::proofs::Basic::filled_on_planes))]
    fn filled(width: u8, bit: Bit) -> Four
        requires some { 0 < width }
        requires most { width ≤ 128 }
        ensures { result ≡ replicate width bit }
    {
        let (up, low) = match bit {
            Bit::Zero => (0, 0),
            Bit::One => (u128::MAX, u128::MAX),
            Bit::Unknown => (u128::MAX, 0),
            Bit::Floating => (0, u128::MAX),
        };
        Four::of(width, up, low)
    }

    // The whole number of a known vector.
    #[tactic(auto, using(crate::proofs::Basic::number_on_planes, crate::proofs::Basic::views))]
    fn value(&self) -> u128
        requires { IsTrue (is_known self.now) }
        ensures is { result ≡ number self.now }
        ensures below { result < 2 ^ length self.now }
    {
        self.low
    }

    // Whether the top bit is 1.
    #[tactic(auto, using(crate::proofs::Signed::negative_read))]
    fn is_negative(&self) -> bool
        ensures { result ≡ is_negative self.now }
    {
        self.bit(self.width() - 1) == Bit::One
    }

    // The distance of a known vector's two's complement number from 0.
    #[tactic(auto, using(crate::proofs::Signed::magnitude_by_sign, crate::proofs::Signed::negative_some))]
    fn magnitude(&self) -> u128
        requires { IsTrue (is_known self.now) }
        ensures { result ≡ unsigned_abs (signed self.now) }
    {
        let value = self.value();
        if self.is_negative() {
            let mask = mask(self.width());
            mask - value + 1
        } else {
            value
        }
    }
}
