//! Tests of what a line says against the design so far: whether a design that is well formed can go on with it.

ghost use Rattle.std.specs.Prelude.{◌≡◌, ◌↔◌, ◌<◌, length, All, IsTrue, slice_index};
ghost use Rattle.lhs_alias.specs.Segs.{lhs_bits};
ghost use Rattle.lhs_alias.specs.Lies.{LieIn};
ghost use Rattle.svex_shape.specs.Shapes.{ChildrenBelow, width_at};
ghost use Rattle.driver_resolve.specs.Drivers.{is_of_wires, is_wire};
ghost use Rattle.flat_net.specs.Flats.{IsJoin};
ghost use Rattle.flat_read.specs.Designs.{NamesWire};

use driver_resolve::Driver;
use flat_net::Join;
use lhs_alias::Seg;
use svex_arena::Arena;
use svex_shape::{Node, Shape, VarName};

/// Whether a join is sound over wires of these widths.
pub fn is_join(widths: &[u8], join: &Join) -> bool
    ensures is { IsTrue result ↔ IsJoin widths.now join.now }
{
    !join.child.segs().is_empty()
        && !join.parent.segs().is_empty()
        && join.child.lies_in(widths)
        && join.parent.lies_in(widths)
        && join.child.falls_to(&join.parent)
}

fn below(node: Node, n: usize) -> bool
    ensures { IsTrue result ↔ node < n }
{
    node.index() < n
}

/// Whether the children of a shape are among the first nodes.
pub fn has_children(shape: &Shape, n: usize) -> bool
    ensures { IsTrue result ↔ ChildrenBelow n shape.now }
{
    match shape {
        Shape::Const(_) => true,
        Shape::Var(_, _) => true,
        Shape::Unary(_, a) => below(*a, n),
        Shape::Binary(_, a, b) => below(*a, n) && below(*b, n),
        Shape::Cond(c, a, b) => below(*c, n) && below(*a, n) && below(*b, n),
        Shape::Pick(c, a, b) => below(*c, n) && below(*a, n) && below(*b, n),
        Shape::Slice { of, .. } => below(*of, n),
        Shape::Zext(a, _) => below(*a, n),
        Shape::Sext(a, _) => below(*a, n),
        Shape::DynSlice { of, at, .. } => below(*of, n) && below(*at, n),
        Shape::DynPut { of, at, put, .. } => below(*of, n) && below(*at, n) && below(*put, n),
    }
}

fn is_wire(widths: &[u8], wire: usize, width: u8) -> bool
    ensures { result ≡ is_wire widths.now wire width }
{
    wire < widths.len() && widths[wire] == width
}

fn is_of_wires(widths: &[u8], name: VarName, width: u8) -> bool
    ensures { result ≡ is_of_wires widths.now name width }
{
    match name {
        VarName::Now(wire) => is_wire(widths, wire, width),
        VarName::Prev(wire) => is_wire(widths, wire, width),
        _ => false,
    }
}

/// Whether a shape that is a variable is a present or previous value of a wire, at its width.
pub fn names_wire(widths: &[u8], shape: &Shape) -> bool
    ensures { IsTrue result ↔ NamesWire widths.now shape.now }
{
    match shape {
        Shape::Var(name, width) => is_of_wires(widths, *name, *width),
        _ => true,
    }
}

// Whether segments have so many bits.
#[tactic(auto, using(crate::proofs::Spans::spans_more, crate::proofs::Spans::spans_end, lhs_alias::proofs::SegBits::lhs_lengths))]
fn are_wide(segs: &[Seg], width: u8) -> bool
    ensures { IsTrue result ↔ (width ≡ length (lhs_bits segs.now)) }
{
    let mut left = width;
    'segs: for seg in segs {
        if seg.width > left {
            return false;
        }
        left -= seg.width;
    }
    left == 0
}

/// Whether a target lies in the wires, and the node of the text is there, with the target's width.
pub fn is_driver(widths: &[u8], arena: &Arena, numbers: &[Node], driver: &Driver) -> bool
    requires { All (λ k. k < length arena.now) numbers.now }
    ensures { IsTrue result ↔ (LieIn widths.now driver.now.target
        × ((driver.now.value < length numbers.now)
        × (width_at arena.now (slice_index numbers.now driver.now.value) ≡ length (lhs_bits driver.now.target)))) }
{
    driver.target.lies_in(widths)
        && driver.value.index() < numbers.len()
        && are_wide(
            driver.target.segs(),
            arena.width(numbers[driver.value.index()]),
        )
}
