//! Parts of a vector at a place that an index vector gives (11.5.1). A place is a whole number that may lie far outside of the
//! vector, so it is kept as a distance and a side, and no sum of it overflows. What is read outside is X and what is written
//! there is dropped. For a write at an unknown place this tool has a rule of its own: a bit stays where every bit that is put
//! equals it, and becomes X elsewhere, so that a write is monotone.

ghost use Rattle.std.specs.Prelude.{◌≡◌, ◌<◌, ◌≤◌, ◌+ℤ◌, ◌&&◌, not, if◌then◌else◌, length, IsTrue, IfSome, IfNone, replicate, unsigned_abs, int_lt, pos, ◌^◌};
ghost use Rattle.std.specs.Bool.{beq};
ghost use Rattle.fourvec.specs.Bits.{is_known, is_negative, number, signed, each, each_pair, keep_bit};
ghost use Rattle.fourvec.specs.Spots.{place_of, reached, window, dyn_slice_of, overlaid, kept_bit, dyn_put_of};

use crate::{Bit, Four, Spot, mask};

/// A whole number: how far from 0 it is, and whether below.
#[derive(Clone, Copy)]
pub struct Reach {
    pub below: bool,
    pub far: u128,
}

// What a spot adds to each index.
fn shift_of(spot: &Spot) -> Reach
    ensures below { result.below ≡ int_lt spot.now.add (pos 0) }
    ensures far { result.far ≡ unsigned_abs spot.now.add }
    ensures near { result.far ≤ 2 ^ 64 }
{
    Reach {
        below: spot.add < 0,
        far: spot.add.unsigned_abs() as u128,
    }
}

// The sum of two whole numbers. None only where it is 2 ^ 128 or more from 0.
#[tactic(auto, using(crate::proofs::Places::sums))]
fn moved(start: Reach, shift: Reach) -> Option<Reach>
    ensures near { IfSome result (λ r. reached start.below start.far +ℤ reached shift.below shift.far ≡ reached r.below r.far) }
    ensures far { IfNone result (128 ≤ unsigned_abs (reached start.below start.far +ℤ reached shift.below shift.far)) }
{
    if start.below == shift.below {
        let Some(far) = start.far.checked_add(shift.far) else {
            return None;
        };
        Some(Reach {
            below: start.below,
            far,
        })
    } else if shift.far <= start.far {
        Some(Reach {
            below: start.below,
            far: start.far - shift.far,
        })
    } else {
        Some(Reach {
            below: shift.below,
            far: shift.far - start.far,
        })
    }
}

impl Four {
    /// The `spot.width` bits of this vector from the place of `at` on, X where it has none. All X where `at` has an
    /// unknown bit.
    #[tactic(auto, using(crate::proofs::Places::window_past, crate::proofs::Basic::views), unfolding(crate::specs::Spots::dyn_slice_of))]
    pub fn dyn_slice(&self, at: &Four, spot: &Spot) -> Four
        requires some { 0 < spot.now.width }
        requires most { spot.now.width ≤ 128 }
        ensures { result ≡ dyn_slice_of self.now at.now spot.now }
    {
        // A field that is read shows the vector's invariant to the proof.
        let _ = &self.width;
        if at.is_bool() {
            match at.place(spot) {
                Some(place) => self.window(place, spot.width),
                None => Four::unknown(spot.width),
            }
        } else {
            Four::unknown(spot.width)
        }
    }

    /// This vector with the bits of `put` from the place of `at` on; what lies outside of this vector is dropped. Where
    /// `at` has an unknown bit, a bit stays where it equals each bit of `put`, and becomes X elsewhere: this tool's own
    /// rule, so that a write is monotone.
    #[tactic(auto, using(crate::proofs::Puts::overlaid_past, crate::proofs::Basic::views), unfolding(crate::specs::Spots::dyn_put_of))]
    pub fn dyn_put(&self, at: &Four, spot: &Spot, put: &Four) -> Four
        requires { length put.now ≡ spot.now.width }
        ensures { result ≡ dyn_put_of self.now at.now spot.now put.now }
    {
        // Fields that are read show the vectors' invariants to the proof.
        let _ = &self.width;
        let _ = &put.width;
        if at.is_bool() {
            match at.place(spot) {
                Some(place) => self.overlay(place, put),
                None => *self,
            }
        } else {
            self.kept_under(put)
        }
    }

    // Whether the number that a spot makes of this index is below 0; of 0 either is told.
    fn is_turned(&self, spot: &Spot) -> bool
        requires { IsTrue (is_known self.now) }
        ensures { result ≡ not (beq (spot.now.signed && is_negative self.now) spot.now.negate) }
    {
        (spot.signed && self.is_negative()) != spot.negate
    }

    // How far that number is from 0.
    fn distance(&self, spot: &Spot) -> u128
        requires { IsTrue (is_known self.now) }
        ensures { result ≡ (if spot.now.signed then unsigned_abs (signed self.now) else number self.now) }
    {
        if spot.signed {
            self.magnitude()
        } else {
            self.value()
        }
    }

    /// Where a spot begins, by this index. None only where that is 128 or more from 0.
    pub fn place(&self, spot: &Spot) -> Option<Reach>
        requires { IsTrue (is_known self.now) }
        ensures near { IfSome result (λ r. place_of spot.now self.now ≡ reached r.below r.far) }
        ensures far { IfNone result (128 ≤ unsigned_abs (place_of spot.now self.now)) }
    {
        let shift = shift_of(spot);
        let below = self.is_turned(spot);
        let Some(far) = self.distance(spot).checked_mul(spot.each as u128) else {
            return None;
        };
        moved(Reach { below, far }, shift)
    }

    // The bits from a place on, X where there is none.
    #[tactic(auto, using(crate::proofs::Places::window_far, crate::proofs::Places::window_down, crate::proofs::Places::window_up, crate::proofs::Basic::views))]
    fn window(&self, place: Reach, width: u8) -> Four
        requires some { 0 < width }
        requires most { width ≤ 128 }
        ensures { result ≡ window self.now (reached place.below place.far) width }
    {
        // The upper plane with X above the vector.
        let up = self.up | !mask(self.width);
        if place.far >= 128 {
            return Four::unknown(width);
        }
        let by = place.far as u8;
        if place.below {
            Four::of(width, (up << by) | !(u128::MAX << by), self.low << by)
        } else {
            Four::of(width, (up >> by) | !(u128::MAX >> by), self.low >> by)
        }
    }

    // This vector with the bits of another from a place on.
    #[tactic(auto, using(crate::proofs::Puts::overlaid_far, crate::proofs::Puts::overlaid_up, crate::proofs::Puts::overlaid_down, crate::proofs::Basic::views))]
    fn overlay(&self, place: Reach, put: &Four) -> Four
        ensures { result ≡ overlaid self.now (reached place.below place.far) put.now }
    {
        let width = self.width;
        let mask = mask(put.width);
        if place.far >= 128 {
            return *self;
        }
        let by = place.far as u8;
        if place.below {
            let kept = !(mask >> by);
            Four::of(
                width,
                (self.up & kept) | (put.up >> by),
                (self.low & kept) | (put.low >> by),
            )
        } else {
            let kept = !(mask << by);
            Four::of(
                width,
                (self.up & kept) | (put.up << by),
                (self.low & kept) | (put.low << by),
            )
        }
    }

    // Each bit that equals every bit of the other vector stays, and the rest become X.
    #[tactic(auto, using(crate::proofs::Choose::first_read, crate::proofs::Puts::kept_same, crate::proofs::Puts::kept_other, crate::proofs::Basic::views, crate::proofs::Puts::tells))]
    fn kept_under(&self, put: &Four) -> Four
        ensures { result ≡ each (kept_bit put.now) self.now }
    {
        let width = put.width();
        let bit = put.bit(0);
        if *put == Four::filled(width, bit) {
            self.kept(bit)
        } else {
            Four::unknown(self.width())
        }
    }

    // Each bit that is this one stays, and the rest become X.
    #[tactic(auto, unfolding(crate::specs::Bits::pick_of))]
    fn kept(&self, bit: Bit) -> Four
        ensures { result ≡ each_pair keep_bit self.now (replicate (length self.now) bit) }
    {
        Four::unknown(1).pick(self, &Four::filled(self.width(), bit))
    }
}
