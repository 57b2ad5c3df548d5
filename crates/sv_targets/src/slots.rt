// The bits that constant selects name, by their places (IEEE 1800-2017, 11.5.1). A target is a row of slots, each a bit of a
// wire or none, and a select picks slots of the row before it. So selects of selects need no sums of places, and what lies out
// of range is told bit by bit. Where a select's place is not known, the row before it stays, since any of its bits may be
// meant.
ghost use Rattle.std.specs.Prelude.{◌≡◌, ◌≤◌, ◌<◌, ◌+ℤ◌, All, IfOk, length, pos, replicate, slice_get, None};
ghost use Rattle.fourvec.specs.Spots.{reached};
ghost use Rattle.sv_meaning.specs.Targets as t;
ghost use Rattle.sv_typed.specs.Typed.{PickIsSound};
ghost use Rattle.sv_targets.specs.Slots.{IsNear, Picked, target_slots, slots_of};
ghost use Rattle.sv_targets.specs.Targets.{TargetIsSound};

use crate::places::{Spotted, spot_of};
use crate::targets::TypedTarget;
use fourvec::Reach;
use items::Items;
use lhs_alias::WireBit;
use std::alloc::{AllocError, Global};
use sv_typed::Pick;

// The bits of a wire.
fn wire_slots(alloc: Global, wire: usize, width: u8) -> Result<Items<Option<WireBit>>, AllocError>
    requires { width ≤ 128 }
    ensures is { IfOk result (λ all. all ≡ t.bit_names wire 0 width) }
    ensures near { IfOk result (λ all. All IsNear all) }
    ensures most { IfOk result (λ all. length all ≤ 128) }
{
    let mut all = Items::new(alloc);
    'bits: for at in 0..width {
        all.push(Some(WireBit { wire, at }))?;
    }
    Ok(all)
}

// The slot at a place, none where there is no bit.
fn slot(all: &[Option<WireBit>], at: u128) -> Option<WireBit>
    requires { All IsNear all.now }
    ensures is { result ≡ t.flat (slice_get all.now at) }
    ensures near { IsNear result }
{
    if at < all.len() as u128 {
        all[at as usize]
    } else {
        None
    }
}

// The slot so far on from a place.
fn slot_from(all: &[Option<WireBit>], from: Reach, on: u8) -> Option<WireBit>
    requires { All IsNear all.now }
    ensures is { result ≡ t.slot_at all.now (reached from.below from.far +ℤ pos on) }
    ensures near { IsNear result }
{
    let on = on as u128;
    if !from.below {
        match from.far.checked_add(on) {
            Some(at) => slot(all, at),
            None => None,
        }
    } else if on < from.far {
        None
    } else {
        slot(all, on - from.far)
    }
}

// So many slots from a place on.
fn slots_from(
    alloc: Global,
    all: &[Option<WireBit>],
    from: Reach,
    width: u8,
) -> Result<Items<Option<WireBit>>, AllocError>
    requires near { All IsNear all.now }
    requires most { width ≤ 128 }
    ensures is { IfOk result (λ part. part ≡ t.slots_from all.now (reached from.below from.far) width) }
    ensures near { IfOk result (λ part. All IsNear part) }
    ensures most { IfOk result (λ part. length part ≤ 128) }
{
    let mut part = Items::new(alloc);
    'slots: for on in 0..width {
        part.push(slot_from(all, from, on))?;
    }
    Ok(part)
}

// So many slots with no bit.
fn no_slots(alloc: Global, width: u8) -> Result<Items<Option<WireBit>>, AllocError>
    requires { width ≤ 128 }
    ensures is { IfOk result (λ part. part ≡ replicate width None) }
    ensures near { IfOk result (λ part. All IsNear part) }
    ensures most { IfOk result (λ part. length part ≤ 128) }
{
    let mut part = Items::new(alloc);
    'slots: for _on in 0..width {
        part.push(None)?;
    }
    Ok(part)
}

// The slots of a part that a pick names; none where its place is not known.
fn picked(
    alloc: Global,
    all: &[Option<WireBit>],
    pick: &Pick,
) -> Result<Option<Items<Option<WireBit>>>, AllocError>
    requires sound { PickIsSound pick.now }
    requires near { All IsNear all.now }
    requires most { length all.now ≤ 128 }
    ensures { IfOk result (λ o. Picked pick.now all.now o) }
{
    match spot_of(pick) {
        Spotted::Moving => Ok(None),
        Spotted::At(from) => {
            let part = slots_from(alloc, all, from, pick.width)?;
            Ok(Some(part))
        }
        Spotted::Far => {
            let part = no_slots(alloc, pick.width)?;
            Ok(Some(part))
        }
    }
}

// The slots that a target names.
fn target_slots(alloc: Global, target: &TypedTarget) -> Result<Items<Option<WireBit>>, AllocError>
    requires { TargetIsSound target.now }
    ensures is { IfOk result (λ all. all ≡ target_slots target.now) }
    ensures near { IfOk result (λ all. All IsNear all) }
{
    let mut all = wire_slots(alloc, target.wire, target.wire_width)?;
    'picks: for pick in target.picks.as_slice() {
        match picked(alloc, all.as_slice(), pick)? {
            Some(part) => all = part,
            None => return Ok(all),
        }
    }
    Ok(all)
}

/// The slots that targets name, of which the first is the most significant.
pub fn all_slots(
    alloc: Global,
    targets: &[TypedTarget],
) -> Result<Items<Option<WireBit>>, AllocError>
    requires { All TargetIsSound targets.now }
    ensures is { IfOk result (λ all. all ≡ slots_of targets.now) }
    ensures near { IfOk result (λ all. All IsNear all) }
{
    let mut all = Items::new(alloc);
    let mut at = targets.len();
    'upward: while at > 0 {
        at -= 1;
        let more = target_slots(alloc, &targets[at])?;
        all.append(more)?;
    }
    Ok(all)
}
