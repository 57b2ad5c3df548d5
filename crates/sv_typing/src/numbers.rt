// Vectors read as whole numbers.
ghost use Rattle.std.specs.Prelude.{◌≡◌, IfSome, IfNone, IsTrue, IsFalse};
ghost use Rattle.fourvec.specs.Bits.{is_known, is_negative};
ghost use Rattle.sv_meaning.specs.Meanings.{whole, is_bound};

use fourvec::{Bit, Four};

// Whether the highest bit is 1.
#[tactic(auto, using(fourvec::proofs::Signed::negative_read))]
pub(crate) fn is_negative(a: &Four) -> bool
    ensures { result ≡ is_negative a.now }
{
    a.bit(a.width() - 1) == Bit::One
}

/// The whole number of a known vector by such a sign, where it has 32 bits.
#[tactic(auto, using(crate::proofs::Vectors::wholes))]
pub fn small(a: &Four, signed: bool) -> Option<i64>
    requires { IsTrue (is_known a.now) }
    ensures some { IfSome result (λ n. n ≡ whole signed a.now) }
    ensures bound { IfSome result (λ n. IsTrue (is_bound n)) }
    ensures none { IfNone result (IsFalse (is_bound (whole signed a.now))) }
{
    let number = a.low();
    if signed && is_negative(a) {
        let below = (u128::MAX >> (128 - a.width())) - number;
        if below < 1 << 31 {
            Some(-1 - below as i64)
        } else {
            None
        }
    } else if number < 1 << 31 {
        Some(number as i64)
    } else {
        None
    }
}
