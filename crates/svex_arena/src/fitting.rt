//! Whether a shape fits an arena's nodes.

ghost use Rattle.std.specs.Prelude.{◌≡◌, ◌↔◌, ℕ, ◌<◌, ◌≤◌, ◌+◌, length, slice_index, IsTrue};
ghost use Rattle.svex_shape.specs.Shapes.{ChildrenBelow, FitsWidths, FitsPair, width_at};

use crate::arena::Arena;
use svex_shape::{Bin, Node, Shape};

fn fits_pair(op: &Bin, a: u8, b: u8) -> bool
    ensures { IsTrue result ↔ FitsPair op.now a b }
{
    match op {
        Bin::Shl | Bin::Shr | Bin::Sar => true,
        Bin::Concat => a as u16 + b as u16 <= 128,
        _ => a == b,
    }
}

fn has(arena: &Arena, node: Node) -> bool
    ensures { IsTrue result ↔ node < length arena.now }
{
    node.index() < arena.len()
}

// Whether two nodes are there, and their widths fit an operator.
fn has_pair(arena: &Arena, op: &Bin, a: Node, b: Node) -> bool
    ensures { IsTrue result
        ↔ ((a < length arena.now) × (b < length arena.now) × FitsPair op.now (width_at arena.now a) (width_at arena.now b)) }
{
    has(arena, a) && has(arena, b) && fits_pair(op, arena.width(a), arena.width(b))
}

// Whether a node is there, with this width.
fn has_width(arena: &Arena, node: Node, width: u8) -> bool
    ensures { IsTrue result ↔ ((node < length arena.now) × (width_at arena.now node ≡ width)) }
{
    has(arena, node) && arena.width(node) == width
}

// Whether a node is there, with this width at most.
fn has_at_most(arena: &Arena, node: Node, width: u8) -> bool
    ensures { IsTrue result ↔ ((node < length arena.now) × (width_at arena.now node ≤ width)) }
{
    has(arena, node) && arena.width(node) <= width
}

// Whether a node is there that has bits in this range.
fn has_range(arena: &Arena, node: Node, lo: u8, width: u8) -> bool
    ensures { IsTrue result ↔ ((node < length arena.now) × (lo + width ≤ width_at arena.now node)) }
{
    has(arena, node) && lo as u16 + width as u16 <= arena.width(node) as u16
}

// Whether a choice between two nodes is there.
fn has_choice(arena: &Arena, c: Node, a: Node, b: Node) -> bool
    ensures { IsTrue result
        ↔ (((c < length arena.now) × (a < length arena.now) × (b < length arena.now))
        × ((width_at arena.now c ≡ 1) × (width_at arena.now a ≡ width_at arena.now b))) }
{
    has_width(arena, c, 1) && has(arena, a) && has(arena, b) && arena.width(a) == arena.width(b)
}

fn is_width(width: u8) -> bool
    ensures { IsTrue result ↔ ((0 < width) × (width ≤ 128)) }
{
    0 < width && width <= 128
}

impl Arena {
    /// Whether a shape may be interned: its children are there, and have widths that fit.
    pub fn fits(&self, shape: &Shape) -> bool
        ensures { IsTrue result ↔ (ChildrenBelow (length self.now) shape.now × FitsWidths (width_at self.now) shape.now) }
    {
        match shape {
            Shape::Const(_) => true,
            Shape::Var(_, width) => is_width(*width),
            Shape::Unary(_, a) => has(self, *a),
            Shape::Binary(op, a, b) => has_pair(self, op, *a, *b),
            Shape::Cond(c, a, b) => has_choice(self, *c, *a, *b),
            Shape::Pick(c, a, b) => has_choice(self, *c, *a, *b),
            Shape::Slice { of, lo, width } => 0 < *width && has_range(self, *of, *lo, *width),
            Shape::Zext(a, width) => *width <= 128 && has_at_most(self, *a, *width),
            Shape::Sext(a, width) => *width <= 128 && has_at_most(self, *a, *width),
            Shape::DynSlice { of, at, spot } => {
                has(self, *of) && has(self, *at) && is_width(spot.width)
            }
            Shape::DynPut { of, at, spot, put } => {
                has(self, *of) && has(self, *at) && has_width(self, *put, spot.width)
            }
        }
    }
}
