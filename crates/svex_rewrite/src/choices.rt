//! The laws of choices between two nodes.

ghost use Rattle.std.specs.Prelude.{◌≡◌, ◌<◌, ◌≤◌, length};
ghost use Rattle.svex_shape.specs.declared.shape.Shape.{Shape};
ghost use Rattle.svex_rewrite.specs.Meaning.{Becomes, IsOver};

use crate::nodes::{all_at, constant};
use crate::shape_of;
use fourvec::Bit;
use svex_arena::{Arena, Node, Shape};

// A choice between two constants by a constant.
#[tactic(auto, using(crate::proofs::Becoming::becomes_self, crate::proofs::Choosing::cond_folds))]
fn fold_cond(arena: &Arena, c: Node, a: Node, b: Node) -> Shape
    requires { IsOver arena.now (Shape.Cond c a b) }
    ensures { Becomes arena.now (Shape.Cond c a b) result }
{
    match (constant(arena, c), constant(arena, a), constant(arena, b)) {
        (Some(test), Some(value), Some(other)) => Shape::Const(test.cond(&value, &other)),
        _ => Shape::Cond(c, a, b),
    }
}

/// A choice by a known condition, or between constants.
#[tactic(auto, using(crate::proofs::Choosing::cond_laws))]
pub fn rewrite_cond(arena: &Arena, c: Node, a: Node, b: Node) -> Shape
    requires { IsOver arena.now (Shape.Cond c a b) }
    ensures { Becomes arena.now (Shape.Cond c a b) result }
{
    if all_at(arena, c, Bit::One) {
        shape_of(arena, a)
    } else if all_at(arena, c, Bit::Zero) {
        shape_of(arena, b)
    } else {
        fold_cond(arena, c, a, b)
    }
}

// A choice between two constants by a constant.
#[tactic(auto, using(crate::proofs::Becoming::becomes_self, crate::proofs::Choosing::pick_folds))]
fn fold_pick(arena: &Arena, c: Node, a: Node, b: Node) -> Shape
    requires { IsOver arena.now (Shape.Pick c a b) }
    ensures { Becomes arena.now (Shape.Pick c a b) result }
{
    match (constant(arena, c), constant(arena, a), constant(arena, b)) {
        (Some(test), Some(value), Some(other)) => Shape::Const(test.pick(&value, &other)),
        _ => Shape::Pick(c, a, b),
    }
}

/// A choice by a known condition, between a node and itself, or between constants.
#[tactic(auto, using(crate::proofs::Choosing::pick_laws))]
pub fn rewrite_pick(arena: &Arena, c: Node, a: Node, b: Node) -> Shape
    requires { IsOver arena.now (Shape.Pick c a b) }
    ensures { Becomes arena.now (Shape.Pick c a b) result }
{
    if a == b {
        shape_of(arena, a)
    } else if all_at(arena, c, Bit::One) {
        shape_of(arena, a)
    } else if all_at(arena, c, Bit::Zero) {
        shape_of(arena, b)
    } else {
        fold_pick(arena, c, a, b)
    }
}
