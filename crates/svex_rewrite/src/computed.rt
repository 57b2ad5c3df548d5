//! The laws of computed parts. A part of a constant at a constant place is a constant, and one of a node a slice, where all of
//! it lies within the node; where some of it lies outside it stays computed, since a slice has no X to give. Places are worked
//! out as numbers not below 0 with sums that are checked, so that a place that is too far is just not known.

ghost use Rattle.std.specs.Prelude.{◌≡◌, ◌<◌, ◌≤◌, ◌+◌, pos, length, IfSome, IsTrue};
ghost use Rattle.fourvec.specs.Bits.{is_known, is_negative};
ghost use Rattle.fourvec.specs.Spots.{index_of, place_of};
ghost use Rattle.svex_shape.specs.declared.shape.Shape.{Shape};
ghost use Rattle.svex_rewrite.specs.Meaning.{Becomes, HasShape, IsOver, place_from};

use crate::nodes::constant;
use crate::parts::rewrite_slice;
use fourvec::{Bit, Four, Spot};
use svex_arena::{Arena, Node, Shape};

// Whether the top bit is 1.
#[tactic(auto, using(fourvec::proofs::Signed::negative_read))]
fn is_negative(index: &Four) -> bool
    ensures { result ≡ is_negative index.now }
{
    index.bit(index.width() - 1) == Bit::One
}

// The number of an index, where it is known and not below 0.
#[tactic(auto, using(crate::proofs::Computing::low_is_number, crate::proofs::Computing::index_unsigned))]
fn known_index(index: &Four, spot: &Spot) -> Option<u128>
    ensures known { IfSome result (λ n. IsTrue (is_known index.now)) }
    ensures is { IfSome result (λ n. index_of spot.now index.now ≡ pos n) }
{
    if !index.is_bool() {
        None
    } else if spot.signed && is_negative(index) {
        None
    } else {
        Some(index.low())
    }
}

// The sum of a spot's shift and a product, or their difference where the index is negated, if it is not below 0.
#[tactic(auto, using(crate::proofs::Computing::places))]
fn shifted(spot: &Spot, far: u128) -> Option<u128>
    ensures { IfSome result (λ n. place_from spot.now far ≡ pos n) }
{
    let shift = spot.add.unsigned_abs() as u128;
    if spot.negate {
        if spot.add >= 0 && far <= shift {
            Some(shift - far)
        } else {
            None
        }
    } else if spot.add >= 0 {
        far.checked_add(shift)
    } else if shift <= far {
        Some(far - shift)
    } else {
        None
    }
}

// Where a part begins, if it is known, and all of the part lies within a vector of a width.
#[tactic(auto, using(crate::proofs::Computing::place_is))]
fn place_within(index: &Four, spot: &Spot, width: u8) -> Option<u8>
    ensures known { IfSome result (λ n. IsTrue (is_known index.now)) }
    ensures is { IfSome result (λ n. place_of spot.now index.now ≡ pos n) }
    ensures within { IfSome result (λ n. n + spot.now.width ≤ width) }
{
    let count = known_index(index, spot)?;
    let far = count.checked_mul(spot.each as u128)?;
    let place = shifted(spot, far)?;
    if place <= 128 && place + spot.width as u128 <= width as u128 {
        Some(place as u8)
    } else {
        None
    }
}

// A computed part at a constant place.
#[tactic(auto, using(crate::proofs::Becoming::becomes_self, crate::proofs::Becoming::becomes_on, crate::proofs::Computing::dyn_slice_laws))]
fn slice_at(arena: &Arena, of: Node, at: Node, spot: &Spot, index: &Four) -> Shape
    requires over { IsOver arena.now (Shape.DynSlice of at spot.now) }
    requires index { HasShape arena.now at (Shape.Const index.now) }
    ensures { Becomes arena.now (Shape.DynSlice of at spot.now) result }
{
    if let Some(value) = constant(arena, of) {
        return Shape::Const(value.dyn_slice(index, spot));
    }
    match place_within(index, spot, arena.width(of)) {
        Some(lo) => rewrite_slice(arena, of, lo, spot.width),
        None => Shape::DynSlice {
            of,
            at,
            spot: *spot,
        },
    }
}

/// A computed part, at a constant place: of a constant, or where all of it lies within the node.
#[tactic(auto, using(crate::proofs::Becoming::becomes_self))]
pub fn rewrite_dyn_slice(arena: &Arena, of: Node, at: Node, spot: &Spot) -> Shape
    requires { IsOver arena.now (Shape.DynSlice of at spot.now) }
    ensures { Becomes arena.now (Shape.DynSlice of at spot.now) result }
{
    match constant(arena, at) {
        Some(index) => slice_at(arena, of, at, spot, &index),
        None => Shape::DynSlice {
            of,
            at,
            spot: *spot,
        },
    }
}

/// A constant with a constant put in its computed part, at a constant place.
#[tactic(auto, using(crate::proofs::Becoming::becomes_self, crate::proofs::Computing::dyn_put_folds))]
pub fn rewrite_dyn_put(arena: &Arena, of: Node, at: Node, spot: &Spot, put: Node) -> Shape
    requires { IsOver arena.now (Shape.DynPut of at spot.now put) }
    ensures { Becomes arena.now (Shape.DynPut of at spot.now put) result }
{
    match (
        constant(arena, of),
        constant(arena, at),
        constant(arena, put),
    ) {
        (Some(value), Some(index), Some(part)) => {
            Shape::Const(value.dyn_put(&index, spot, &part))
        }
        _ => Shape::DynPut {
            of,
            at,
            spot: *spot,
            put,
        },
    }
}
