//! The operators that work bit by bit, the reductions, and the choices (11.4.5 to 11.4.11, 6.6.1). A vector is two planes, and
//! each operator is a formula over both, for all bits at once: X has the upper plane alone and Z the lower alone, so `up | low`
//! tells where a bit may be 1, and `up & low` where it is. Reductions and equality are made of these, so that what they do with
//! unknown bits follows from one place.

ghost use Rattle.std.specs.Prelude.{◌≡◌, length};
ghost use Rattle.fourvec.specs.Bits.{unfloat_of, not_of, and_of, or_of, xor_of, res_of, red_and_of, red_or_of, red_xor_of, truth_of, eq_of, cond_of, pick_of};

use crate::{Bit, Four};

impl Four {
    /// This vector with X in place of each Z (6.3.1).
    #[tactic(auto, using(crate::proofs::Bitwise::unfloat_on_planes))]
    pub fn unfloat(&self) -> Four
        ensures { result ≡ unfloat_of self.now }
    {
        Four::of(self.width, self.up | self.low, self.up & self.low)
    }

    /// `~a`: 0 and 1 exchanged, X where a bit is unknown (11.4.8).
    #[tactic(auto, using(crate::proofs::Bitwise::not_on_planes))]
    pub fn not(&self) -> Four
        ensures { result ≡ not_of self.now }
    {
        Four::of(self.width, !(self.up & self.low), !(self.up | self.low))
    }

    /// `a & b`: 0 where either bit is 0, 1 where both are 1, else X (11.4.8).
    #[tactic(auto, using(crate::proofs::Bitwise::and_on_planes))]
    pub fn and(&self, other: &Four) -> Four
        requires { length self.now ≡ length other.now }
        ensures { result ≡ and_of self.now other.now }
    {
        Four::of(
            self.width,
            (self.up | self.low) & (other.up | other.low),
            (self.up & self.low) & (other.up & other.low),
        )
    }

    /// `a | b`: 1 where either bit is 1, 0 where both are 0, else X (11.4.8).
    #[tactic(auto, using(crate::proofs::Bitwise::or_on_planes))]
    pub fn or(&self, other: &Four) -> Four
        requires { length self.now ≡ length other.now }
        ensures { result ≡ or_of self.now other.now }
    {
        Four::of(
            self.width,
            (self.up | self.low) | (other.up | other.low),
            (self.up & self.low) | (other.up & other.low),
        )
    }

    /// `a ^ b`: X where either bit is unknown, else 1 where they differ (11.4.8).
    #[tactic(auto, using(crate::proofs::Bitwise::xor_on_planes))]
    pub fn xor(&self, other: &Four) -> Four
        requires { length self.now ≡ length other.now }
        ensures { result ≡ xor_of self.now other.now }
    {
        let unknown = (self.up ^ self.low) | (other.up ^ other.low);
        let differ = self.up ^ other.up;
        Four::of(self.width, differ | unknown, differ & !unknown)
    }

    /// What two drivers of a wire give: Z gives way to the other bit, equal bits stay, else X (6.6.1).
    #[tactic(auto, using(crate::proofs::Bitwise::res_on_planes))]
    pub fn res(&self, other: &Four) -> Four
        requires { length self.now ≡ length other.now }
        ensures { result ≡ res_of self.now other.now }
    {
        Four::of(self.width, self.up | other.up, self.low & other.low)
    }

    /// Unary `|`, of one bit: `or` over all bits (11.4.9).
    #[tactic(auto, using(crate::proofs::Reduce::red_or_on_planes, crate::proofs::Basic::views))]
    pub fn red_or(&self) -> Four
        ensures { result ≡ red_or_of self.now }
    {
        if self.up & self.low != 0 {
            Four::verdict(true)
        } else if self.up | self.low == 0 {
            Four::verdict(false)
        } else {
            Four::unknown(1)
        }
    }

    /// Unary `&`, of one bit: `and` over all bits (11.4.9).
    #[tactic(auto, using(crate::proofs::Reduce::red_and_by_not))]
    pub fn red_and(&self) -> Four
        ensures { result ≡ red_and_of self.now }
    {
        self.not().red_or().not()
    }

    /// Unary `^`, of one bit: `xor` over all bits (11.4.9).
    #[tactic(auto, using(crate::proofs::Reduce::red_xor_known, crate::proofs::Reduce::red_xor_unknown))]
    pub fn red_xor(&self) -> Four
        ensures { result ≡ red_xor_of self.now }
    {
        if self.is_bool() {
            Four::verdict(self.value().count_ones() % 2 == 1)
        } else {
            Four::unknown(1)
        }
    }

    /// Of one bit: 1 where some bit is 1, 0 where all are 0, else X (11.4.7).
    #[tactic(auto, using(crate::proofs::Reduce::truth_is_red_or))]
    pub fn truth(&self) -> Four
        ensures { result ≡ truth_of self.now }
    {
        self.red_or()
    }

    /// `a == b`, of one bit: 0 where some pair of bits is 0 against 1, else X where a bit is unknown, else 1 (11.4.5).
    #[tactic(auto, using(crate::proofs::Reduce::eq_by_xor), unfolding(crate::specs::Bits::eq_of))]
    pub fn eq(&self, other: &Four) -> Four
        requires { length self.now ≡ length other.now }
        ensures { result ≡ eq_of self.now other.now }
    {
        self.xor(other).red_or().not()
    }

    /// `self ? a : b`, for a condition of one bit. Where it is unknown, equal bits that are 0 or 1 stay, and others
    /// become X (11.4.11).
    #[tactic(auto, using(crate::proofs::Choose::first_read, crate::proofs::Bitwise::merge_on_planes), unfolding(crate::specs::Bits::cond_of))]
    pub fn cond(&self, a: &Four, b: &Four) -> Four
        requires one { length self.now ≡ 1 }
        requires same { length a.now ≡ length b.now }
        ensures { result ≡ cond_of self.now a.now b.now }
    {
        match self.bit(0) {
            Bit::One => *a,
            Bit::Zero => *b,
            _ => Four::of(
                a.width,
                (a.up | a.low) | (b.up | b.low),
                (a.up & a.low) & (b.up & b.low),
            ),
        }
    }

    /// As `cond`, but where the condition is unknown, equal bits stay, Z included: this tool's own rule for a choice
    /// between stored values.
    #[tactic(auto, using(crate::proofs::Choose::first_read, crate::proofs::Bitwise::keep_on_planes), unfolding(crate::specs::Bits::pick_of))]
    pub fn pick(&self, a: &Four, b: &Four) -> Four
        requires one { length self.now ≡ 1 }
        requires same { length a.now ≡ length b.now }
        ensures { result ≡ pick_of self.now a.now b.now }
    {
        match self.bit(0) {
            Bit::One => *a,
            Bit::Zero => *b,
            _ => {
                let differ = (a.up ^ b.up) | (a.low ^ b.low);
                Four::of(a.width, a.up | differ, a.low & !differ)
            }
        }
    }
}
