//! The laws by which a shape becomes another. Each keeps the value for every four-valued operand.

ghost use Rattle.std.specs.Prelude.{◌≡◌, ℕ, ◌<◌, ◌≤◌, length, IfOk};
ghost use Rattle.svex_shape.specs.declared.shape.Shape.{Shape};
ghost use Rattle.svex_arena.specs.Arenas.{IsArena, Extends};
ghost use Rattle.svex_rewrite.specs.Meaning.{Becomes, IsOver, Makes};

use crate::choices::{rewrite_cond, rewrite_pick};
use crate::computed::{rewrite_dyn_put, rewrite_dyn_slice};
use crate::operators::{rewrite_binary, rewrite_unary};
use crate::parts::{rewrite_sext, rewrite_slice, rewrite_zext};
use std::alloc::{AllocError, Global};
use svex_arena::{Arena, Node, Shape};

// What a shape becomes by the laws.
#[tactic(auto, using(crate::proofs::Becoming::becomes_self))]
fn rewrite(arena: &Arena, shape: &Shape) -> Shape
    requires { IsOver arena.now shape.now }
    ensures { Becomes arena.now shape.now result }
{
    match shape {
        Shape::Unary(op, a) => rewrite_unary(arena, op, *a),
        Shape::Binary(op, a, b) => rewrite_binary(arena, op, *a, *b),
        Shape::Cond(c, a, b) => rewrite_cond(arena, *c, *a, *b),
        Shape::Pick(c, a, b) => rewrite_pick(arena, *c, *a, *b),
        Shape::Slice { of, lo, width } => rewrite_slice(arena, *of, *lo, *width),
        Shape::Zext(a, width) => rewrite_zext(arena, *a, *width),
        Shape::Sext(a, width) => rewrite_sext(arena, *a, *width),
        Shape::DynSlice { of, at, spot } => rewrite_dyn_slice(arena, *of, *at, spot),
        Shape::DynPut { of, at, spot, put } => rewrite_dyn_put(arena, *of, *at, spot, *put),
        _ => *shape,
    }
}

// The same, which may be interned.
#[tactic(auto, using(crate::proofs::Becoming::becomes_over))]
fn fitting(arena: &Arena, shape: &Shape) -> Shape
    requires { IsOver arena.now shape.now }
    ensures becomes { Becomes arena.now shape.now result }
    ensures over { IsOver arena.now result }
{
    rewrite(arena, shape)
}

/// The node of what a shape becomes.
#[tactic(auto, using(crate::proofs::Becoming::interned_makes))]
pub fn make(arena: &mut Arena, alloc: Global, shape: &Shape) -> Result<Node, AllocError>
    requires { IsOver arena.old shape.now }
    ensures makes { IfOk result (λ n. Makes arena.old shape.now arena.new n) }
    ensures extends { Extends arena.old arena.new }
    ensures arena { IsArena arena.new }
{
    let becomes = fitting(arena, shape);
    arena.intern(alloc, becomes)
}
