//! Parts of nodes, and nodes side by side (IEEE 1800-2017, 11.4.12, 11.5.1). Bits that a node does not have are X: they are made
//! only where a part reaches past its ends.
ghost use Rattle.std.specs.Prelude.{◌≡◌, ◌<◌, ◌≤◌, ◌+◌, ◌*◌, ◌++◌, length, IfOk};
ghost use Rattle.fourvec.specs.Bits.{all_x, slice_of};
ghost use Rattle.fourvec.specs.Spots.{window, reached};
ghost use Rattle.svex_shape.specs.Shapes.{width_at};
ghost use Rattle.svex_arena.specs.Arenas.{Extends};
ghost use Rattle.sv_meaning.specs.Meanings.{copies};
ghost use Rattle.sv_lower.specs.Nodes.{IsConstant, FromOne, FromTwo, IsSpan};

use crate::steps::{binary, constant, make};
use fourvec::{Four, Reach};
use std::alloc::{AllocError, Global};
use svex_arena::{Arena, Bin, Node, Shape};

/// The node of bits that are all X.
#[tactic(auto, using(svex_shape::proofs::Readings::x_widened, fourvec::proofs::Basic::views))]
pub fn unknown(alloc: Global, arena: &mut Arena, width: u8) -> Result<Node, AllocError>
    requires some { 0 < width }
    requires most { width ≤ 128 }
    ensures stays { Extends arena.old arena.new }
    ensures ok { IfOk result (λ n. IsConstant arena.new (all_x width) n) }
{
    constant(alloc, arena, &Four::new(1, 1, 0).sext(width))
}

/// The bits from a place on, all of which the node has. It is the node itself where these are all its bits.
pub fn sliced(
    alloc: Global,
    arena: &mut Arena,
    a: Node,
    lo: u8,
    width: u8,
) -> Result<Node, AllocError>
    requires a { a < length arena.old }
    requires some { 0 < width }
    requires within { lo + width ≤ width_at arena.old a }
    ensures stays { Extends arena.old arena.new }
    ensures ok { IfOk result (λ n. FromOne arena.old arena.new (λ v. slice_of v lo width) a width n) }
{
    // For the proof: recalls what the type promises of it.
    let _ = arena.len();
    if arena.width(a) == width {
        Ok(a)
    } else {
        let node = make(alloc, arena, Shape::Slice { of: a, lo, width })?;
        Ok(node)
    }
}

// So many X above a node.
fn topped(alloc: Global, arena: &mut Arena, a: Node, count: u8) -> Result<Node, AllocError>
    requires a { a < length arena.old }
    requires most { width_at arena.old a + count ≤ 128 }
    ensures stays { Extends arena.old arena.new }
    ensures ok { IfOk result (λ n. FromOne arena.old arena.new (λ v. v ++ all_x count) a (width_at arena.old a + count) n) }
{
    if count == 0 {
        return Ok(a);
    }
    let x = unknown(alloc, arena, count)?;
    let node = binary(alloc, arena, Bin::Concat, x, a)?;
    Ok(node)
}

// So many X below a node.
fn raised(alloc: Global, arena: &mut Arena, a: Node, count: u8) -> Result<Node, AllocError>
    requires a { a < length arena.old }
    requires most { width_at arena.old a + count ≤ 128 }
    ensures stays { Extends arena.old arena.new }
    ensures ok { IfOk result (λ n. FromOne arena.old arena.new (λ v. all_x count ++ v) a (width_at arena.old a + count) n) }
{
    if count == 0 {
        return Ok(a);
    }
    let x = unknown(alloc, arena, count)?;
    let node = binary(alloc, arena, Bin::Concat, a, x)?;
    Ok(node)
}

// How a part lies over a vector: so many bits are below its bits, `inside` are its bits from `lo` on, and the rest are above.
#[derive(Clone, Copy)]
struct Span {
    below: u8,
    lo: u8,
    inside: u8,
    above: u8,
}

/// The place with a number.
#[tactic(auto, using(fourvec::proofs::Places::parts))]
pub fn place_at(number: i64) -> Reach
    ensures { reached result.below result.far ≡ number }
{
    Reach {
        below: number < 0,
        far: number.unsigned_abs() as u128,
    }
}

// How the part of a width from a place on lies over a vector of a size.
#[tactic(auto, using(crate::proofs::Windows::spans))]
fn span_of(size: u8, place: Reach, width: u8) -> Span
    ensures { IsSpan size (reached place.below place.far) width result.below result.lo result.inside result.above }
{
    if place.below {
        let below = place.far.min(width as u128) as u8;
        let inside = (width - below).min(size);
        Span {
            below,
            lo: 0,
            inside,
            above: width - below - inside,
        }
    } else {
        let lo = place.far.min(size as u128) as u8;
        let inside = width.min(size - lo);
        Span {
            below: 0,
            lo,
            inside,
            above: width - inside,
        }
    }
}

/// The bits from a place on, X where the node has none.
#[tactic(auto, using(svex_arena::proofs::Keeping::extends_on))]
pub fn windowed(
    alloc: Global,
    arena: &mut Arena,
    a: Node,
    place: Reach,
    width: u8,
) -> Result<Node, AllocError>
    requires a { a < length arena.old }
    requires some { 0 < width }
    requires most { width ≤ 128 }
    ensures stays { Extends arena.old arena.new }
    ensures ok { IfOk result (λ n. FromOne arena.old arena.new (λ v. window v (reached place.below place.far) width) a width n) }
{
    // For the proof: recalls what the type promises of it.
    let _ = arena.len();
    let span = span_of(arena.width(a), place, width);
    if span.inside == 0 {
        let node = unknown(alloc, arena, width)?;
        return Ok(node);
    }
    let part = sliced(alloc, arena, a, span.lo, span.inside)?;
    let part = topped(alloc, arena, part, span.above)?;
    let node = raised(alloc, arena, part, span.below)?;
    Ok(node)
}

/// So many copies of a node, side by side.
#[tactic(auto, using(svex_arena::proofs::Keeping::extends_on))]
pub fn repeated(alloc: Global, arena: &mut Arena, a: Node, count: u8) -> Result<Node, AllocError>
    requires a { a < length arena.old }
    requires some { 0 < count }
    requires most { count * width_at arena.old a ≤ 128 }
    ensures stays { Extends arena.old arena.new }
    ensures ok { IfOk result (λ n. FromOne arena.old arena.new (copies count) a (count * width_at arena.old a) n) }
{
    let mut node = a;
    for _more in 1..count {
        node = binary(alloc, arena, Bin::Concat, node, a)?;
    }
    Ok(node)
}

/// A node above another.
pub fn beside(alloc: Global, arena: &mut Arena, high: Node, low: Node) -> Result<Node, AllocError>
    requires high { high < length arena.old }
    requires low { low < length arena.old }
    requires most { width_at arena.old high + width_at arena.old low ≤ 128 }
    ensures stays { Extends arena.old arena.new }
    ensures ok { IfOk result (λ n. FromTwo arena.old arena.new (λ x y. y ++ x) high low (width_at arena.old high + width_at arena.old low) n) }
{
    let node = binary(alloc, arena, Bin::Concat, high, low)?;
    Ok(node)
}
