//! The laws of operators on one and on two vectors.

ghost use Rattle.std.specs.Prelude.{◌≡◌, ◌<◌, ◌≤◌, length, IsTrue};
ghost use Rattle.svex_shape.specs.declared.shape.Shape.{Shape};
ghost use Rattle.svex_shape.specs.declared.shape.Bin.{Bin};
ghost use Rattle.svex_shape.specs.declared.shape.Un.{Un};
ghost use Rattle.svex_shape.specs.Shapes.{FitsPair};
ghost use Rattle.svex_rewrite.specs.Meaning.{Becomes, HasShape, IsOver, leaves_one_bit};

use crate::bitwise::{rewrite_and, rewrite_eq, rewrite_or, rewrite_res, rewrite_xor};
use crate::nodes::constant;
use crate::parts::rewrite_concat;
use crate::unfloating::{negated, unfloated};
use fourvec::Four;
use svex_arena::{Arena, Bin, Node, Shape, Un, binary, unary};

// Whether an operator leaves one bit as it is, but that Z becomes X.
fn leaves_one_bit(op: &Un) -> bool
    ensures { result ≡ leaves_one_bit op.now }
{
    !matches!(op, Un::Not | Un::Neg)
}

// A reduction, or the truth, of one bit.
#[tactic(auto, using(crate::proofs::Becoming::becomes_self, crate::proofs::Unary::reduced))]
fn reduce(arena: &Arena, op: &Un, a: Node) -> Shape
    requires { a < length arena.now }
    ensures { Becomes arena.now (Shape.Unary op.now a) result }
{
    // For the proof: recalls what the type promises of it.
    let _ = arena.len();
    if arena.width(a) == 1 && leaves_one_bit(op) {
        unfloated(arena, a)
    } else {
        Shape::Unary(*op, a)
    }
}

/// An operator on one vector: on a constant, on what undoes it, or on one bit.
#[tactic(auto, using(crate::proofs::Unary::folds))]
pub fn rewrite_unary(arena: &Arena, op: &Un, a: Node) -> Shape
    requires { IsOver arena.now (Shape.Unary op.now a) }
    ensures { Becomes arena.now (Shape.Unary op.now a) result }
{
    // For the proof: recalls what the type promises of it.
    let _ = arena.len();
    if let Some(value) = constant(arena, a) {
        return Shape::Const(unary(op, &value));
    }
    match op {
        Un::Unfloat => unfloated(arena, a),
        Un::Not => negated(arena, a),
        _ => reduce(arena, op, a),
    }
}

// An operator on two constants.
#[tactic(auto, using(crate::proofs::Binary::fits_constants, crate::proofs::Binary::folds))]
fn fold_pair(arena: &Arena, op: &Bin, a: Node, b: Node, value: &Four, other: &Four) -> Shape
    requires over { IsOver arena.now (Shape.Binary op.now a b) }
    requires left { HasShape arena.now a (Shape.Const value.now) }
    requires right { HasShape arena.now b (Shape.Const other.now) }
    ensures { Becomes arena.now (Shape.Binary op.now a b) result }
{
    // For the proof: recalls what the type promises of it.
    let _ = arena;
    Shape::Const(binary(op, value, other))
}

// The law of an operator whose operands are not both constant.
#[tactic(auto, using(crate::proofs::Becoming::becomes_self))]
fn rewrite_pair(arena: &Arena, op: &Bin, a: Node, b: Node) -> Shape
    requires { IsOver arena.now (Shape.Binary op.now a b) }
    ensures { Becomes arena.now (Shape.Binary op.now a b) result }
{
    match op {
        Bin::And => rewrite_and(arena, a, b),
        Bin::Or => rewrite_or(arena, a, b),
        Bin::Xor => rewrite_xor(arena, a, b),
        Bin::Res => rewrite_res(arena, a, b),
        Bin::Eq => rewrite_eq(arena, a, b),
        Bin::Concat => rewrite_concat(arena, a, b),
        _ => Shape::Binary(*op, a, b),
    }
}

/// An operator on two vectors.
pub fn rewrite_binary(arena: &Arena, op: &Bin, a: Node, b: Node) -> Shape
    requires { IsOver arena.now (Shape.Binary op.now a b) }
    ensures { Becomes arena.now (Shape.Binary op.now a b) result }
{
    match (constant(arena, a), constant(arena, b)) {
        (Some(value), Some(other)) => fold_pair(arena, op, a, b, &value, &other),
        _ => rewrite_pair(arena, op, a, b),
    }
}
