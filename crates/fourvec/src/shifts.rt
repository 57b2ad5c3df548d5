//! Parts, extensions and shifts: bits move as they are, X and Z too (10.7, 11.4.10, 11.4.12, 11.5.1). Both planes move by the
//! same number of places. Shifts are made of parts and concatenations, so that contracts on lists of bits follow from two
//! calls; the number of places is compared with the width first, since a word can not be shifted by all of its bits.

ghost use Rattle.std.specs.Prelude.{◌≡◌, ◌+◌, ◌<◌, ◌≤◌, length};
ghost use Rattle.fourvec.specs.Bits.{concat_of, slice_of, zext_of, sext_of, shl_of, shr_of, sar_of, moved_up, moved_down};

use crate::{Bit, Four};

impl Four {
    /// `{a, b}`: this vector above the other (11.4.12).
    #[tactic(auto, using(crate::proofs::Moves::concat_on_planes, crate::proofs::Basic::views))]
    pub fn concat(&self, other: &Four) -> Four
        requires { length self.now + length other.now ≤ 128 }
        ensures { result ≡ concat_of self.now other.now }
    {
        Four::of(
            self.width + other.width,
            (self.up << other.width) | other.up,
            (self.low << other.width) | other.low,
        )
    }

    /// The `width` bits from place `lo` up (11.5.1).
    #[tactic(auto, using(crate::proofs::Moves::slice_on_planes, crate::proofs::Basic::views))]
    pub fn slice(&self, lo: u8, width: u8) -> Four
        requires some { 0 < width }
        requires within { lo + width ≤ length self.now }
        ensures { result ≡ slice_of self.now lo width }
    {
        Four::of(width, self.up >> lo, self.low >> lo)
    }

    /// This vector with 0 above it, to a width (10.7).
    #[tactic(auto, using(crate::proofs::Moves::extend_none))]
    pub fn zext(&self, width: u8) -> Four
        requires grows { length self.now ≤ width }
        requires most { width ≤ 128 }
        ensures { result ≡ zext_of self.now width }
    {
        let own = self.width();
        if width == own {
            *self
        } else {
            Four::filled(width - own, Bit::Zero).concat(self)
        }
    }

    /// This vector with copies of its top bit above it, to a width (10.7, 11.8.4).
    #[tactic(auto, using(crate::proofs::Moves::extend_none, crate::proofs::Moves::top_read))]
    pub fn sext(&self, width: u8) -> Four
        requires grows { length self.now ≤ width }
        requires most { width ≤ 128 }
        ensures { result ≡ sext_of self.now width }
    {
        let own = self.width();
        if width == own {
            *self
        } else {
            Four::filled(width - own, self.bit(own - 1)).concat(self)
        }
    }

    /// `a << b`: the bits move up by the unsigned number of b, and 0 comes in. All X where b has an unknown bit (11.4.10).
    #[tactic(auto, unfolding(crate::specs::Bits::shl_of))]
    pub fn shl(&self, other: &Four) -> Four
        ensures { result ≡ shl_of self.now other.now }
    {
        if other.is_bool() {
            self.moved_up(other.value())
        } else {
            Four::unknown(self.width())
        }
    }

    /// `a >> b`: the bits move down by the unsigned number of b, and 0 comes in. All X where b has an unknown bit
    /// (11.4.10).
    #[tactic(auto, unfolding(crate::specs::Bits::shr_of))]
    pub fn shr(&self, other: &Four) -> Four
        ensures { result ≡ shr_of self.now other.now }
    {
        if other.is_bool() {
            self.moved_down(Bit::Zero, other.value())
        } else {
            Four::unknown(self.width())
        }
    }

    /// `a >>> b` of a signed vector: the bits move down by the unsigned number of b, and copies of the top bit come in.
    /// All X where b has an unknown bit (11.4.10).
    #[tactic(auto, using(crate::proofs::Moves::top_read), unfolding(crate::specs::Bits::sar_of))]
    pub fn sar(&self, other: &Four) -> Four
        ensures { result ≡ sar_of self.now other.now }
    {
        if other.is_bool() {
            self.moved_down(self.bit(self.width() - 1), other.value())
        } else {
            Four::unknown(self.width())
        }
    }

    #[tactic(auto, using(crate::proofs::Moves::shl_none, crate::proofs::Moves::shl_some, crate::proofs::Moves::shl_all))]
    fn moved_up(&self, by: u128) -> Four
        ensures { result ≡ moved_up by self.now }
    {
        let width = self.width();
        if by == 0 {
            *self
        } else if by >= width as u128 {
            Four::filled(width, Bit::Zero)
        } else {
            let by = by as u8;
            self.slice(0, width - by)
                .concat(&Four::filled(by, Bit::Zero))
        }
    }

    #[tactic(auto, using(crate::proofs::Moves::shr_none, crate::proofs::Moves::shr_some, crate::proofs::Moves::shr_all))]
    fn moved_down(&self, fill: Bit, by: u128) -> Four
        ensures { result ≡ moved_down fill by self.now }
    {
        let width = self.width();
        if by == 0 {
            *self
        } else if by >= width as u128 {
            Four::filled(width, fill)
        } else {
            let by = by as u8;
            Four::filled(by, fill).concat(&self.slice(by, width - by))
        }
    }
}
