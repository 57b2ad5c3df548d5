//! Arithmetic and comparisons of numbers (11.4.3, 11.4.4), unsigned and two's complement. One unknown bit makes the whole
//! result X, as the standard says, so each operator tests that first and is a plain one on words behind it. Signed division
//! goes through magnitudes, since they fit unsigned words of 128 bits also for the least number.

ghost use Rattle.std.specs.Prelude.{◌≡◌, length};
ghost use Rattle.fourvec.specs.Bits.{add_of, sub_of, mul_of, div_of, rem_of, neg_of, lt_of, slt_of, sdiv_of, srem_of};

use crate::Four;

impl Four {
    /// `-a` modulo 2 ^ width, all X where a bit is unknown.
    #[tactic(auto, using(crate::proofs::Basic::vector_cut_sub, crate::proofs::Basic::vector_cut_neg), unfolding(crate::specs::Bits::neg_of))]
    pub fn neg(&self) -> Four
        ensures { result ≡ neg_of self.now }
    {
        if self.is_bool() {
            Four::number(self.width(), 0u128.wrapping_sub(self.value()))
        } else {
            Four::unknown(self.width())
        }
    }

    /// `a + b` modulo 2 ^ width, all X where a bit is unknown.
    #[tactic(auto, using(crate::proofs::Basic::vector_cut), unfolding(crate::specs::Bits::add_of))]
    pub fn add(&self, other: &Four) -> Four
        requires { length self.now ≡ length other.now }
        ensures { result ≡ add_of self.now other.now }
    {
        if self.is_bool() && other.is_bool() {
            Four::number(self.width(), self.value().wrapping_add(other.value()))
        } else {
            Four::unknown(self.width())
        }
    }

    /// `a - b` modulo 2 ^ width, all X where a bit is unknown.
    #[tactic(auto, using(crate::proofs::Basic::vector_cut_sub), unfolding(crate::specs::Bits::sub_of))]
    pub fn sub(&self, other: &Four) -> Four
        requires { length self.now ≡ length other.now }
        ensures { result ≡ sub_of self.now other.now }
    {
        if self.is_bool() && other.is_bool() {
            Four::number(self.width(), self.value().wrapping_sub(other.value()))
        } else {
            Four::unknown(self.width())
        }
    }

    /// `a * b` modulo 2 ^ width, all X where a bit is unknown.
    #[tactic(auto, using(crate::proofs::Basic::vector_cut), unfolding(crate::specs::Bits::mul_of))]
    pub fn mul(&self, other: &Four) -> Four
        requires { length self.now ≡ length other.now }
        ensures { result ≡ mul_of self.now other.now }
    {
        if self.is_bool() && other.is_bool() {
            Four::number(self.width(), self.value().wrapping_mul(other.value()))
        } else {
            Four::unknown(self.width())
        }
    }

    /// `a / b` of unsigned numbers, all X where a bit is unknown or b is 0.
    #[tactic(auto, unfolding(crate::specs::Bits::div_of))]
    pub fn div(&self, other: &Four) -> Four
        requires { length self.now ≡ length other.now }
        ensures { result ≡ div_of self.now other.now }
    {
        if self.is_bool() && other.is_bool() && 0 < other.value() {
            Four::number(self.width(), self.value() / other.value())
        } else {
            Four::unknown(self.width())
        }
    }

    /// `a % b` of unsigned numbers, all X where a bit is unknown or b is 0.
    #[tactic(auto, unfolding(crate::specs::Bits::rem_of))]
    pub fn rem(&self, other: &Four) -> Four
        requires { length self.now ≡ length other.now }
        ensures { result ≡ rem_of self.now other.now }
    {
        if self.is_bool() && other.is_bool() && 0 < other.value() {
            Four::number(self.width(), self.value() % other.value())
        } else {
            Four::unknown(self.width())
        }
    }

    /// `a / b` of two's complement numbers, truncated towards zero, modulo 2 ^ width: the least number by -1 gives
    /// itself. All X where a bit is unknown or b is 0.
    #[tactic(auto, using(crate::proofs::Signed::divided, crate::proofs::Signed::divisor_some, crate::proofs::Signed::neg_vector), unfolding(crate::specs::Bits::sdiv_of))]
    pub fn sdiv(&self, other: &Four) -> Four
        requires { length self.now ≡ length other.now }
        ensures { result ≡ sdiv_of self.now other.now }
    {
        if self.is_bool() && other.is_bool() && 0 < other.value() {
            let quotient = Four::number(self.width(), self.magnitude() / other.magnitude());
            if self.is_negative() == other.is_negative() {
                quotient
            } else {
                quotient.neg()
            }
        } else {
            Four::unknown(self.width())
        }
    }

    /// `a % b` of two's complement numbers, with the sign of a. All X where a bit is unknown or b is 0.
    #[tactic(auto, using(crate::proofs::Signed::left_over, crate::proofs::Signed::divisor_some, crate::proofs::Signed::neg_vector), unfolding(crate::specs::Bits::srem_of))]
    pub fn srem(&self, other: &Four) -> Four
        requires { length self.now ≡ length other.now }
        ensures { result ≡ srem_of self.now other.now }
    {
        if self.is_bool() && other.is_bool() && 0 < other.value() {
            let rest = Four::number(self.width(), self.magnitude() % other.magnitude());
            if self.is_negative() { rest.neg() } else { rest }
        } else {
            Four::unknown(self.width())
        }
    }

    /// `a < b` of unsigned numbers, of one bit: X where a bit is unknown.
    #[tactic(auto, unfolding(crate::specs::Bits::lt_of))]
    pub fn lt(&self, other: &Four) -> Four
        requires { length self.now ≡ length other.now }
        ensures { result ≡ lt_of self.now other.now }
    {
        if self.is_bool() && other.is_bool() {
            Four::verdict(self.value() < other.value())
        } else {
            Four::unknown(1)
        }
    }

    /// `a < b` of two's complement numbers, of one bit: X where a bit is unknown.
    #[tactic(auto, using(crate::proofs::Signed::signed_order), unfolding(crate::specs::Bits::slt_of))]
    pub fn slt(&self, other: &Four) -> Four
        requires { length self.now ≡ length other.now }
        ensures { result ≡ slt_of self.now other.now }
    {
        if self.is_bool() && other.is_bool() {
            let negative = self.is_negative();
            Four::verdict(if negative == other.is_negative() {
                self.value() < other.value()
            } else {
                negative
            })
        } else {
            Four::unknown(1)
        }
    }
}
