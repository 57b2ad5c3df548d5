//! The laws of parts, concatenations and extensions. A part is looked for as far down as its bits stand together in one node,
//! in a loop that goes to children and so ends. Two parts that stand side by side become one part again, so that taking a
//! vector apart and putting it together leaves no trace.

ghost use Rattle.std.specs.Prelude.{◌≡◌, ◌<◌, ◌≤◌, ◌+◌, length, IfSome};
ghost use Rattle.svex_shape.specs.declared.shape.Shape.{Shape};
ghost use Rattle.svex_shape.specs.declared.shape.Bin.{Bin};
ghost use Rattle.svex_rewrite.specs.Meaning.{Becomes, HasShape, IsOver};

use crate::nodes::filled;
use crate::{Place, narrowed, shape_of};
use fourvec::Bit;
use svex_arena::{Arena, Bin, Node, Shape};

// A part of all bits, of a constant, or of the zeros above a node.
#[tactic(auto, using(crate::proofs::Becoming::becomes_self, crate::proofs::Moving::slice_laws))]
fn settled(arena: &Arena, of: Node, lo: u8, width: u8) -> Shape
    requires { IsOver arena.now (Shape.Slice of lo width) }
    ensures { Becomes arena.now (Shape.Slice of lo width) result }
{
    if width == arena.width(of) {
        return shape_of(arena, of);
    }
    let shape = shape_of(arena, of);
    match &shape {
        Shape::Const(value) => Shape::Const(value.slice(lo, width)),
        Shape::Zext(a, _) => {
            if arena.width(*a) <= lo {
                Shape::Const(filled(width, Bit::Zero))
            } else {
                Shape::Slice { of, lo, width }
            }
        }
        _ => Shape::Slice { of, lo, width },
    }
}

/// A part of a node, looked for as far down as its bits stand together in one node.
#[tactic(auto, using(crate::proofs::Becoming::becomes_self, crate::proofs::Becoming::becomes_over, crate::proofs::Becoming::becomes_on))]
pub fn rewrite_slice(arena: &Arena, of: Node, lo: u8, width: u8) -> Shape
    requires { IsOver arena.now (Shape.Slice of lo width) }
    ensures { Becomes arena.now (Shape.Slice of lo width) result }
{
    let mut place = Place { of, lo };
    'down: while let Some(next) = narrowed(arena, place.of, place.lo, width) {
        place = next;
    }
    settled(arena, place.of, place.lo, width)
}

// Bits that stand together in a node.
#[derive(Clone, Copy)]
struct Part {
    of: Node,
    lo: u8,
    width: u8,
}

// The bits that a node names, where it is a part of another.
#[tactic(auto, using(crate::proofs::Moving::part_within))]
fn as_part(arena: &Arena, node: Node) -> Option<Part>
    requires { node < length arena.now }
    ensures is { IfSome result (λ p. HasShape arena.now node (Shape.Slice p.of p.lo p.width)) }
    ensures within { IfSome result (λ p. p.lo + p.width ≤ 128) }
{
    // For the proof: recalls what the type promises of it.
    let _ = arena.len();
    match shape_of(arena, node) {
        Shape::Slice { of, lo, width } => Some(Part { of, lo, width }),
        _ => None,
    }
}

/// A concatenation: of two parts that stand together in one node, it is a part of that node.
#[tactic(auto, using(crate::proofs::Becoming::becomes_self, crate::proofs::Moving::joined, crate::proofs::Moving::joined_over))]
pub fn rewrite_concat(arena: &Arena, high: Node, low: Node) -> Shape
    requires { IsOver arena.now (Shape.Binary Bin.Concat high low) }
    ensures { Becomes arena.now (Shape.Binary Bin.Concat high low) result }
{
    match (as_part(arena, high), as_part(arena, low)) {
        (Some(above), Some(below)) => {
            if above.of == below.of && below.lo + below.width == above.lo {
                rewrite_slice(arena, below.of, below.lo, below.width + above.width)
            } else {
                Shape::Binary(Bin::Concat, high, low)
            }
        }
        _ => Shape::Binary(Bin::Concat, high, low),
    }
}

/// An extension by 0: to its own width, of a constant, or of such an extension.
#[tactic(auto, using(crate::proofs::Becoming::becomes_self, crate::proofs::Moving::zext_laws))]
pub fn rewrite_zext(arena: &Arena, a: Node, width: u8) -> Shape
    requires { IsOver arena.now (Shape.Zext a width) }
    ensures { Becomes arena.now (Shape.Zext a width) result }
{
    if width == arena.width(a) {
        return shape_of(arena, a);
    }
    let shape = shape_of(arena, a);
    match &shape {
        Shape::Const(value) => Shape::Const(value.zext(width)),
        Shape::Zext(x, _) => Shape::Zext(*x, width),
        _ => Shape::Zext(a, width),
    }
}

/// A signed extension: to its own width, of a constant, or of such an extension.
#[tactic(auto, using(crate::proofs::Becoming::becomes_self, crate::proofs::Moving::sext_laws))]
pub fn rewrite_sext(arena: &Arena, a: Node, width: u8) -> Shape
    requires { IsOver arena.now (Shape.Sext a width) }
    ensures { Becomes arena.now (Shape.Sext a width) result }
{
    if width == arena.width(a) {
        return shape_of(arena, a);
    }
    let shape = shape_of(arena, a);
    match &shape {
        Shape::Const(value) => Shape::Const(value.sext(width)),
        Shape::Sext(x, _) => Shape::Sext(*x, width),
        _ => Shape::Sext(a, width),
    }
}
