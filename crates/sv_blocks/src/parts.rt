// Parts of nodes, and nodes with parts put into them (IEEE 1800-2017, 11.5.1). A place that is constant is worked out here, and
// the part becomes a slice, or a concatenation of what is kept and what is put; only a place that a node gives becomes a
// computed part. So designs with constant selects have plain nodes. Bits outside read as X, and what is written there is
// dropped.
ghost use Rattle.std.specs.Prelude.{◌≡◌, ◌+◌, ◌<◌, ◌≤◌, ◌++◌, Some, length, take, drop, IfOk, IfSome};
ghost use Rattle.fourvec.specs.Spots.{reached, overlaid, dyn_put_of};
ghost use Rattle.svex_shape.specs.Shapes.{width_at};
ghost use Rattle.svex_arena.specs.Arenas.{Extends};
ghost use Rattle.sv_meaning.specs.Layouts.{Read};
ghost use Rattle.sv_typed.specs.Typed.{own, spot_place, IsSound, PickIsSound};
ghost use Rattle.sv_lower.specs.Nodes.{FromTwo, FromThree};
ghost use Rattle.sv_stores.specs.Scenes.{IsScene, IsState};
ghost use Rattle.sv_blocks.specs.Fitting.{PickSits};
ghost use Rattle.sv_blocks.specs.Parts.{SpotIsIn, SpotIsWide, Spots, ReadsPart, PutsPart, IsLay};

use fourvec::{Reach, Spot};
use std::alloc::{AllocError, Global};
use sv_lower::{beside, is_nameless, make, part_at, place_at, sliced, windowed};
use sv_stores::{Scene, State, lowered};
use sv_typed::{Pick, PickPlace, Typed};
use svex_arena::{Arena, Node, Shape};

/// Where a part of a node begins.
#[derive(Clone, Copy)]
pub enum Spotted {
    At(Reach),
    /// At the place that a node gives.
    Moving(Node, Spot),
}

// Where a part at a constant index begins. None where the index has an unknown bit, or is too far from 0.
fn known_place(index: &Typed, spot: &Spot) -> Option<Reach>
    requires { IsSound index.now }
    ensures { IfSome result (λ p. (read : Read) → spot_place spot.now (own index.now read) ≡ Some (reached p.below p.far)) }
{
    if !is_nameless(index) {
        return None;
    }
    let value = index.own();
    if value.is_bool() {
        value.place(spot)
    } else {
        None
    }
}

/// Where the part of a pick begins.
pub fn spot_of(
    alloc: Global,
    arena: &mut Arena,
    scene: &Scene,
    state: &State,
    pick: &Pick,
) -> Result<Spotted, AllocError>
    requires scene { IsScene scene.now }
    requires state { IsState scene.now arena.old state.now }
    requires sound { PickIsSound pick.now }
    requires narrow { PickSits scene.now pick.now }
    ensures stays { Extends arena.old arena.new }
    ensures ok { IfOk result (λ s. Spots scene.now arena.old arena.new state.now.nodes pick.now s) }
{
    match &pick.place {
        PickPlace::Fixed(number) => Ok(Spotted::At(place_at(*number))),
        PickPlace::Moving { index, spot } => {
            let index = index.get();
            if let Some(place) = known_place(index, spot) {
                return Ok(Spotted::At(place));
            }
            let at = lowered(alloc, arena, scene, state, index, index.width, index.signed)?;
            Ok(Spotted::Moving(at, *spot))
        }
    }
}

/// A part of so many bits of a node.
pub fn read_part(
    alloc: Global,
    arena: &mut Arena,
    of: Node,
    at: &Spotted,
    width: u8,
) -> Result<Node, AllocError>
    requires of { of < length arena.old }
    requires at { SpotIsIn at.now arena.old }
    requires wide { SpotIsWide at.now width }
    requires some { 1 ≤ width }
    requires most { width ≤ 128 }
    ensures stays { Extends arena.old arena.new }
    ensures ok { IfOk result (λ n. ReadsPart arena.old arena.new at.now width of n) }
{
    match at {
        Spotted::At(place) => {
            let node = windowed(alloc, arena, of, *place, width)?;
            Ok(node)
        }
        Spotted::Moving(index, spot) => {
            let node = part_at(alloc, arena, of, *index, spot)?;
            Ok(node)
        }
    }
}

// How a part lies over a vector: of its bits those from `below` on, `inside` of them, are put in place of those from `lo` on.
#[derive(Clone, Copy)]
struct Lay {
    below: u8,
    lo: u8,
    inside: u8,
}

// How a part of a width lies over a vector of a size.
#[tactic(auto, using(crate::proofs::Laying::lays))]
fn lay_of(size: u8, place: Reach, width: u8) -> Lay
    ensures { IsLay size (reached place.below place.far) width result.below result.lo result.inside }
{
    if place.below {
        let below = place.far.min(width as u128) as u8;
        Lay {
            below,
            lo: 0,
            inside: (width - below).min(size),
        }
    } else {
        let lo = place.far.min(size as u128) as u8;
        Lay {
            below: 0,
            lo,
            inside: width.min(size - lo),
        }
    }
}

// A node above the first so many bits of another.
fn above_front(
    alloc: Global,
    arena: &mut Arena,
    of: Node,
    high: Node,
    lo: u8,
) -> Result<Node, AllocError>
    requires of { of < length arena.old }
    requires high { high < length arena.old }
    requires within { lo ≤ width_at arena.old of }
    requires most { lo + width_at arena.old high ≤ 128 }
    ensures stays { Extends arena.old arena.new }
    ensures ok { IfOk result (λ n. FromTwo arena.old arena.new (λ v h. take lo v ++ h) of high (lo + width_at arena.old high) n) }
{
    if lo == 0 {
        return Ok(high);
    }
    let low = sliced(alloc, arena, of, 0, lo)?;
    let node = beside(alloc, arena, high, low)?;
    Ok(node)
}

// A node below the bits of another from a place on.
fn below_rest(
    alloc: Global,
    arena: &mut Arena,
    of: Node,
    low: Node,
    from: u8,
) -> Result<Node, AllocError>
    requires of { of < length arena.old }
    requires low { low < length arena.old }
    requires within { from ≤ width_at arena.old of }
    requires wide { width_at arena.old low ≡ from }
    ensures stays { Extends arena.old arena.new }
    ensures ok { IfOk result (λ n. FromTwo arena.old arena.new (λ v l. l ++ drop from v) of low (width_at arena.old of) n) }
{
    // For the proof: recalls what the type promises of it.
    let _ = arena.len();
    let size = arena.width(of);
    if from == size {
        return Ok(low);
    }
    let high = sliced(alloc, arena, of, from, size - from)?;
    let node = beside(alloc, arena, high, low)?;
    Ok(node)
}

// A node with the bits of another from a place on. What lies outside changes nothing.
fn laid(
    alloc: Global,
    arena: &mut Arena,
    of: Node,
    place: Reach,
    part: Node,
) -> Result<Node, AllocError>
    requires of { of < length arena.old }
    requires part { part < length arena.old }
    ensures stays { Extends arena.old arena.new }
    ensures ok { IfOk result (λ n. FromTwo arena.old arena.new (λ v put. overlaid v (reached place.below place.far) put) of part (width_at arena.old of) n) }
{
    // For the proof: recalls what the type promises of it.
    let _ = arena.len();
    let lay = lay_of(arena.width(of), place, arena.width(part));
    if lay.inside == 0 {
        return Ok(of);
    }
    let middle = sliced(alloc, arena, part, lay.below, lay.inside)?;
    let low = above_front(alloc, arena, of, middle, lay.lo)?;
    let node = below_rest(alloc, arena, of, low, lay.lo + lay.inside)?;
    Ok(node)
}

// A node with another in place of its part at the place that a third gives.
fn moved(
    alloc: Global,
    arena: &mut Arena,
    of: Node,
    at: Node,
    spot: &Spot,
    put: Node,
) -> Result<Node, AllocError>
    requires of { of < length arena.old }
    requires at { at < length arena.old }
    requires put { put < length arena.old }
    requires wide { width_at arena.old put ≡ spot.now.width }
    ensures stays { Extends arena.old arena.new }
    ensures ok { IfOk result (λ n. FromThree arena.old arena.new (λ i v p. dyn_put_of v i spot.now p) at of put (width_at arena.old of) n) }
{
    // For the proof: recalls what the type promises of it.
    let _ = arena.len();
    let shape = Shape::DynPut {
        of,
        at,
        spot: *spot,
        put,
    };
    let node = make(alloc, arena, shape)?;
    Ok(node)
}

/// A node with another in place of a part.
pub fn put_part(
    alloc: Global,
    arena: &mut Arena,
    of: Node,
    at: &Spotted,
    part: Node,
) -> Result<Node, AllocError>
    requires of { of < length arena.old }
    requires at { SpotIsIn at.now arena.old }
    requires part { part < length arena.old }
    requires wide { SpotIsWide at.now (width_at arena.old part) }
    ensures stays { Extends arena.old arena.new }
    ensures ok { IfOk result (λ n. PutsPart arena.old arena.new at.now of part n) }
{
    match at {
        Spotted::At(place) => {
            let node = laid(alloc, arena, of, *place, part)?;
            Ok(node)
        }
        Spotted::Moving(index, spot) => {
            let node = moved(alloc, arena, of, *index, spot, part)?;
            Ok(node)
        }
    }
}
