//! What a node computes from its children: the operators, the variables, and when two shapes are equal. A shape names children
//! by number and holds no tree, so it is copied and compared in constant time. Equality is written out here, case by case,
//! since a graph in which no two nodes have equal shapes rests on it.

ghost use Rattle.std.specs.Prelude.{◌≡◌, ◌↔◌, IsTrue};
ghost use Rattle.svex_shape.specs.declared.shape.Shape.TheVariants.{Const, Var, Unary, Binary, Cond, Pick, Slice, Zext, Sext, DynSlice, DynPut};

use crate::node::Node;
use fourvec::{Four, Spot};

/// A variable, by its number among those of its kind.
#[derive(Clone, Copy, PartialEq, Eq)]
pub enum VarName {
    /// A wire in the present phase.
    Now(usize),
    /// A wire in the phase before.
    Prev(usize),
    /// What a wire is driven with from outside in the present phase.
    Stim(usize),
    /// A variable of the table of stimuli.
    Chosen(usize),
    /// A sample that the table names.
    Sampled(usize),
}

/// An operator on one vector, as the call of `Four` of this name. The first three keep the width, the others give one bit.
#[derive(Clone, Copy)]
pub enum Un {
    Unfloat,
    Not,
    Neg,
    RedAnd,
    RedOr,
    RedXor,
    Truth,
}

/// An operator on two vectors, as the call of `Four` of this name.
///
/// The operands have one width, but those of `Shl`, `Shr`, `Sar` and `Concat`. `Eq`, `Lt` and `Slt` give one bit, `Concat` the sum
/// of the widths, at most 128, and the others the width of the first operand.
#[derive(Clone, Copy)]
pub enum Bin {
    And,
    Or,
    Xor,
    Eq,
    Lt,
    Slt,
    Add,
    Sub,
    Mul,
    Div,
    Rem,
    Sdiv,
    Srem,
    Res,
    Shl,
    Shr,
    Sar,
    /// The first above the second.
    Concat,
}

/// An operator and its children, the nodes that it computes from. Widths are in bits, 1 to 128.
#[derive(Clone, Copy)]
pub enum Shape {
    Const(Four),
    /// A variable and its width.
    Var(VarName, u8),
    Unary(Un, Node),
    Binary(Bin, Node, Node),
    /// The second where the first, of one bit, is 1, and the third where it is 0 (IEEE 1800-2017, 11.4.11).
    Cond(Node, Node, Node),
    /// The same, but for an unknown condition equal bits stay, Z included.
    Pick(Node, Node, Node),
    /// Bits `lo` to `lo + width - 1`.
    Slice {
        of: Node,
        lo: u8,
        width: u8,
    },
    /// A node with 0 above, up to a width.
    Zext(Node, u8),
    /// A node with copies of its top bit above, up to a width.
    Sext(Node, u8),
    /// The part of `of` at the place that `spot` makes of `at`.
    DynSlice {
        of: Node,
        at: Node,
        spot: Spot,
    },
    /// `of` with `put`, of the spot's width, in place of that part.
    DynPut {
        of: Node,
        at: Node,
        spot: Spot,
        put: Node,
    },
}

/// Whether two vectors are equal.
#[tactic(auto, using(fourvec::proofs::Basic::same_when_equal, fourvec::proofs::Basic::equal_when_same))]
pub fn same_vector(a: &Four, b: &Four) -> bool
    ensures { IsTrue result ↔ (a.now ≡ b.now) }
{
    *a == *b
}

fn same_spot(a: &Spot, b: &Spot) -> bool
    ensures { IsTrue result ↔ (a.now ≡ b.now) }
{
    *a == *b
}

fn is_const(shape: &Shape, value: &Four) -> bool
    ensures { IsTrue result ↔ (Const value.now ≡ shape.now) }
{
    matches!(shape, Shape::Const(other) if same_vector(value, other))
}

fn is_var(shape: &Shape, name: &VarName, width: &u8) -> bool
    ensures { IsTrue result ↔ (Var name.now width.now ≡ shape.now) }
{
    matches!(shape, Shape::Var(other, wide) if *name == *other && *width == *wide)
}

fn is_unary(shape: &Shape, op: &Un, x: &Node) -> bool
    ensures { IsTrue result ↔ (Unary op.now x.now ≡ shape.now) }
{
    matches!(shape, Shape::Unary(other, y) if *op == *other && *x == *y)
}

fn is_binary(shape: &Shape, op: &Bin, x: &Node, y: &Node) -> bool
    ensures { IsTrue result ↔ (Binary op.now x.now y.now ≡ shape.now) }
{
    matches!(shape, Shape::Binary(other, v, w) if *op == *other && *x == *v && *y == *w)
}

fn is_cond(shape: &Shape, c: &Node, x: &Node, y: &Node) -> bool
    ensures { IsTrue result ↔ (Cond c.now x.now y.now ≡ shape.now) }
{
    matches!(shape, Shape::Cond(d, v, w) if *c == *d && *x == *v && *y == *w)
}

fn is_pick(shape: &Shape, c: &Node, x: &Node, y: &Node) -> bool
    ensures { IsTrue result ↔ (Pick c.now x.now y.now ≡ shape.now) }
{
    matches!(shape, Shape::Pick(d, v, w) if *c == *d && *x == *v && *y == *w)
}

fn is_slice(shape: &Shape, of: &Node, lo: &u8, width: &u8) -> bool
    ensures { IsTrue result ↔ (Slice of.now lo.now width.now ≡ shape.now) }
{
    matches!(shape, Shape::Slice { of: from, lo: low, width: wide }
        if *of == *from && *lo == *low && *width == *wide)
}

fn is_zext(shape: &Shape, x: &Node, width: &u8) -> bool
    ensures { IsTrue result ↔ (Zext x.now width.now ≡ shape.now) }
{
    matches!(shape, Shape::Zext(y, wide) if *x == *y && *width == *wide)
}

fn is_sext(shape: &Shape, x: &Node, width: &u8) -> bool
    ensures { IsTrue result ↔ (Sext x.now width.now ≡ shape.now) }
{
    matches!(shape, Shape::Sext(y, wide) if *x == *y && *width == *wide)
}

fn is_dyn_slice(shape: &Shape, of: &Node, at: &Node, spot: &Spot) -> bool
    ensures { IsTrue result ↔ (DynSlice of.now at.now spot.now ≡ shape.now) }
{
    matches!(shape, Shape::DynSlice { of: from, at: place, spot: part }
        if *of == *from && *at == *place && same_spot(spot, part))
}

fn is_dyn_put(shape: &Shape, of: &Node, at: &Node, spot: &Spot, put: &Node) -> bool
    ensures { IsTrue result ↔ (DynPut of.now at.now spot.now put.now ≡ shape.now) }
{
    matches!(shape, Shape::DynPut { of: from, at: place, spot: part, put: new }
        if *of == *from && *at == *place && same_spot(spot, part) && *put == *new)
}

/// Whether two shapes are equal.
pub fn same(a: &Shape, b: &Shape) -> bool
    ensures { IsTrue result ↔ (a.now ≡ b.now) }
{
    match a {
        Shape::Const(value) => is_const(b, value),
        Shape::Var(name, width) => is_var(b, name, width),
        Shape::Unary(op, x) => is_unary(b, op, x),
        Shape::Binary(op, x, y) => is_binary(b, op, x, y),
        Shape::Cond(c, x, y) => is_cond(b, c, x, y),
        Shape::Pick(c, x, y) => is_pick(b, c, x, y),
        Shape::Slice { of, lo, width } => is_slice(b, of, lo, width),
        Shape::Zext(x, width) => is_zext(b, x, width),
        Shape::Sext(x, width) => is_sext(b, x, width),
        Shape::DynSlice { of, at, spot } => is_dyn_slice(b, of, at, spot),
        Shape::DynPut { of, at, spot, put } => is_dyn_put(b, of, at, spot, put),
    }
}
