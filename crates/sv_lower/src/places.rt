//! Parts at places that indices give (IEEE 1800-2017, 11.5.1).
ghost use Rattle.std.specs.Prelude.{◌<◌, ◌≤◌, length, IfOk};
ghost use Rattle.fourvec.specs.Spots.{dyn_slice_of};
ghost use Rattle.svex_arena.specs.Arenas.{Extends};
ghost use Rattle.sv_lower.specs.Nodes.{FromOne, FromTwo};

use crate::parts::{unknown, windowed};
use crate::steps::{constant, make};
use fourvec::{Four, Spot};
use std::alloc::{AllocError, Global};
use svex_arena::{Arena, Node, Shape};

/// The part of a node at the place that another gives.
pub fn part_at(
    alloc: Global,
    arena: &mut Arena,
    of: Node,
    at: Node,
    spot: &Spot,
) -> Result<Node, AllocError>
    requires of { of < length arena.old }
    requires at { at < length arena.old }
    requires some { 0 < spot.now.width }
    requires most { spot.now.width ≤ 128 }
    ensures stays { Extends arena.old arena.new }
    ensures ok { IfOk result (λ n. FromTwo arena.old arena.new (λ v i. dyn_slice_of v i spot.now) of at spot.now.width n) }
{
    let part = Shape::DynSlice {
        of,
        at,
        spot: *spot,
    };
    let node = make(alloc, arena, part)?;
    Ok(node)
}

/// The part of a node at a constant index: X where that has an unknown bit.
pub fn part_at_constant(
    alloc: Global,
    arena: &mut Arena,
    of: Node,
    index: &Four,
    spot: &Spot,
) -> Result<Node, AllocError>
    requires of { of < length arena.old }
    requires some { 0 < spot.now.width }
    requires most { spot.now.width ≤ 128 }
    ensures stays { Extends arena.old arena.new }
    ensures ok { IfOk result (λ n. FromOne arena.old arena.new (λ v. dyn_slice_of v index.now spot.now) of spot.now.width n) }
{
    // For the proof: recalls what the type promises of it.
    let _ = arena.len();
    if !index.is_bool() {
        let node = unknown(alloc, arena, spot.width)?;
        return Ok(node);
    }
    match index.place(spot) {
        Some(place) => {
            let node = windowed(alloc, arena, of, place, spot.width)?;
            Ok(node)
        }
        None => {
            let at = constant(alloc, arena, index)?;
            let node = part_at(alloc, arena, of, at, spot)?;
            Ok(node)
        }
    }
}
