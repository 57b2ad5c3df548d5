// Where constant selects begin (IEEE 1800-2017, 11.5.1).
ghost use Rattle.std.specs.Prelude.{◌≡◌, ◌<◌, ◌≤◌, ◌^◌, ◌-◌, IsTrue, IfSome, IfNone, length, unsigned_abs};
ghost use Rattle.fourvec.specs.Bits.{is_known, is_negative, number, signed};
ghost use Rattle.fourvec.specs.Spots.{place_of, reached};
ghost use Rattle.sv_typing.specs.Picks.{fixed_pick};
ghost use Rattle.sv_typed.specs.Typed.{PickIsSound, spot_place};
ghost use Rattle.sv_targets.specs.Slots.{IsSpotted};

use fourvec::{Four, Reach, Spot};
use sv_typed::{Pick, PickPlace};

/// Where a pick begins.
#[derive(Clone, Copy)]
pub(crate) enum Spotted {
    /// Its index is not constant, or not known.
    Moving,
    At(Reach),
    /// 128 or more from the least significant bit.
    Far,
}

// A place that is known.
fn fixed_reach(place: &i64) -> Reach
    ensures { reached result.below result.far ≡ place.now }
{
    Reach {
        below: *place < 0,
        far: place.unsigned_abs() as u128,
    }
}

// Where a spot begins by its index.
fn spot_at(index: &Four, spot: &Spot) -> Spotted
    ensures { IsSpotted (spot_place spot.now index.now) result }
{
    if !index.is_bool() {
        return Spotted::Moving;
    }
    match index.place(spot) {
        Some(reach) => Spotted::At(reach),
        None => Spotted::Far,
    }
}

/// Where a pick begins, if its index is constant and known.
pub(crate) fn spot_of(pick: &Pick) -> Spotted
    requires { PickIsSound pick.now }
    ensures { IsSpotted (fixed_pick pick.now) result }
{
    if !pick.constant {
        return Spotted::Moving;
    }
    match &pick.place {
        PickPlace::Fixed(place) => Spotted::At(fixed_reach(place)),
        PickPlace::Moving { index, spot } => spot_at(&index.get().own(), spot),
    }
}
