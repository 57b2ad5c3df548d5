//! The laws of operators on pairs of bits. Each looks at whether an operand is one constant bit throughout or both are the same
//! node, and answers a shape. An operator but resolution makes X of Z, so what is left of it is the other operand with each Z
//! taken as X, and not that operand itself.

ghost use Rattle.std.specs.Prelude.{◌≡◌, ◌<◌, ◌≤◌, length};
ghost use Rattle.svex_shape.specs.declared.shape.Shape.{Shape};
ghost use Rattle.svex_shape.specs.declared.shape.Bin.{Bin};
ghost use Rattle.svex_shape.specs.declared.shape.Un.{Un};
ghost use Rattle.svex_rewrite.specs.Meaning.{Becomes, IsOver};

use crate::nodes::all_at;
use crate::shape_of;
use crate::unfloating::{negated, unfloated};
use fourvec::Bit;
use svex_arena::{Arena, Bin, Node, Shape, Un};

/// Conjunction: 0 decides, and 1 leaves the other operand, as the same operand does, but for Z.
#[tactic(auto, using(crate::proofs::Becoming::becomes_self, crate::proofs::Binary::and_laws))]
pub fn rewrite_and(arena: &Arena, a: Node, b: Node) -> Shape
    requires { IsOver arena.now (Shape.Binary Bin.And a b) }
    ensures { Becomes arena.now (Shape.Binary Bin.And a b) result }
{
    if a == b {
        unfloated(arena, a)
    } else if all_at(arena, a, Bit::Zero) {
        shape_of(arena, a)
    } else if all_at(arena, b, Bit::Zero) {
        shape_of(arena, b)
    } else if all_at(arena, a, Bit::One) {
        unfloated(arena, b)
    } else if all_at(arena, b, Bit::One) {
        unfloated(arena, a)
    } else {
        Shape::Binary(Bin::And, a, b)
    }
}

/// Disjunction: 1 decides, and 0 leaves the other operand, as the same operand does, but for Z.
#[tactic(auto, using(crate::proofs::Becoming::becomes_self, crate::proofs::Binary::or_laws))]
pub fn rewrite_or(arena: &Arena, a: Node, b: Node) -> Shape
    requires { IsOver arena.now (Shape.Binary Bin.Or a b) }
    ensures { Becomes arena.now (Shape.Binary Bin.Or a b) result }
{
    if all_at(arena, a, Bit::One) {
        shape_of(arena, a)
    } else if all_at(arena, b, Bit::One) {
        shape_of(arena, b)
    } else if all_at(arena, a, Bit::Zero) {
        unfloated(arena, b)
    } else if all_at(arena, b, Bit::Zero) {
        unfloated(arena, a)
    } else if a == b {
        unfloated(arena, a)
    } else {
        Shape::Binary(Bin::Or, a, b)
    }
}

/// Exclusive disjunction: 0 leaves the other operand, but for Z, and 1 negates it.
#[tactic(auto, using(crate::proofs::Becoming::becomes_self, crate::proofs::Binary::xor_laws))]
pub fn rewrite_xor(arena: &Arena, a: Node, b: Node) -> Shape
    requires { IsOver arena.now (Shape.Binary Bin.Xor a b) }
    ensures { Becomes arena.now (Shape.Binary Bin.Xor a b) result }
{
    if all_at(arena, a, Bit::Zero) {
        unfloated(arena, b)
    } else if all_at(arena, b, Bit::Zero) {
        unfloated(arena, a)
    } else if all_at(arena, a, Bit::One) {
        negated(arena, b)
    } else if all_at(arena, b, Bit::One) {
        negated(arena, a)
    } else {
        Shape::Binary(Bin::Xor, a, b)
    }
}

/// Resolution: Z leaves the other operand, X decides, and an operand with itself is that operand.
#[tactic(auto, using(crate::proofs::Becoming::becomes_self, crate::proofs::Binary::res_laws))]
pub fn rewrite_res(arena: &Arena, a: Node, b: Node) -> Shape
    requires { IsOver arena.now (Shape.Binary Bin.Res a b) }
    ensures { Becomes arena.now (Shape.Binary Bin.Res a b) result }
{
    if all_at(arena, a, Bit::Floating) {
        shape_of(arena, b)
    } else if all_at(arena, b, Bit::Floating) {
        shape_of(arena, a)
    } else if all_at(arena, a, Bit::Unknown) {
        shape_of(arena, a)
    } else if all_at(arena, b, Bit::Unknown) {
        shape_of(arena, b)
    } else if a == b {
        shape_of(arena, a)
    } else {
        Shape::Binary(Bin::Res, a, b)
    }
}

/// Equality of one bit with 1 or 0: the other bit, but for Z, or its negation.
#[tactic(auto, using(crate::proofs::Becoming::becomes_self, crate::proofs::Binary::eq_laws))]
pub fn rewrite_eq(arena: &Arena, a: Node, b: Node) -> Shape
    requires { IsOver arena.now (Shape.Binary Bin.Eq a b) }
    ensures { Becomes arena.now (Shape.Binary Bin.Eq a b) result }
{
    if arena.width(a) != 1 {
        Shape::Binary(Bin::Eq, a, b)
    } else if all_at(arena, a, Bit::One) {
        unfloated(arena, b)
    } else if all_at(arena, b, Bit::One) {
        unfloated(arena, a)
    } else if all_at(arena, a, Bit::Zero) {
        negated(arena, b)
    } else if all_at(arena, b, Bit::Zero) {
        negated(arena, a)
    } else {
        Shape::Binary(Bin::Eq, a, b)
    }
}
