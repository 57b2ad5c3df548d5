//! Expressions of which no bit is Z.

ghost use Rattle.std.specs.Prelude.{◌≡◌, ◌↔◌, ◌<◌, ◌≤◌, length, IsTrue};
ghost use Rattle.fourvec.specs.Bits.{unfloat_of};
ghost use Rattle.svex_shape.specs.Shapes.{shape_at};
ghost use Rattle.svex_shape.specs.declared.shape.Shape.{Shape};
ghost use Rattle.svex_shape.specs.declared.shape.Un.{Un};
ghost use Rattle.svex_rewrite.specs.Meaning.{Becomes, GivesNoZ, HasNoZ, passes_z};

use crate::nodes::same_vector;
use crate::shape_of;
use fourvec::Four;
use svex_arena::{Arena, Bin, Node, Shape, Un};

fn is_without_z(value: &Four) -> bool
    ensures { IsTrue result ↔ (value.now ≡ unfloat_of value.now) }
{
    same_vector(value, &value.unfloat())
}

// Whether an operator passes bits of its operands on as they are, Z too.
fn passes_z(op: &Bin) -> bool
    ensures { result ≡ passes_z op.now }
{
    matches!(op, Bin::Res | Bin::Shl | Bin::Shr | Bin::Sar | Bin::Concat)
}

// Whether no bit of a shape is Z, whatever its children have.
#[tactic(auto, using(crate::proofs::NoZ::giving))]
fn gives_no_z(shape: &Shape) -> bool
    ensures { IsTrue result → GivesNoZ shape.now }
{
    match shape {
        Shape::Const(value) => is_without_z(value),
        Shape::Unary(_, _) => true,
        Shape::Binary(op, _, _) => !passes_z(op),
        _ => false,
    }
}

// Whether no bit of two nodes is Z.
fn neither_has_z(arena: &Arena, a: Node, b: Node) -> bool
    requires left { a < length arena.now }
    requires right { b < length arena.now }
    ensures left { IsTrue result → GivesNoZ (shape_at arena.now a) }
    ensures right { IsTrue result → GivesNoZ (shape_at arena.now b) }
{
    gives_no_z(&arena.shape(a)) && gives_no_z(&arena.shape(b))
}

// Whether no bit of a node is Z, which is found from its shape and those of its branches.
#[tactic(auto, using(crate::proofs::NoZ::having))]
fn has_no_z(arena: &Arena, node: Node) -> bool
    requires { node < length arena.now }
    ensures { IsTrue result → HasNoZ arena.now node }
{
    // For the proof: recalls what the type promises of it.
    let _ = arena.len();
    let shape = shape_of(arena, node);
    match &shape {
        Shape::Cond(_, a, b) => neither_has_z(arena, *a, *b),
        Shape::Pick(_, a, b) => neither_has_z(arena, *a, *b),
        _ => gives_no_z(&shape),
    }
}

/// A node with each Z taken as X: the node itself where it has none.
#[tactic(auto, using(crate::proofs::Becoming::becomes_self, crate::proofs::NoZ::unfloat_drops))]
pub fn unfloated(arena: &Arena, a: Node) -> Shape
    requires { a < length arena.now }
    ensures { Becomes arena.now (Shape.Unary Un.Unfloat a) result }
{
    // For the proof: recalls what the type promises of it.
    let _ = arena.len();
    if has_no_z(arena, a) {
        shape_of(arena, a)
    } else {
        Shape::Unary(Un::Unfloat, a)
    }
}

/// The negation of a node: two negations leave it as it is, but for Z.
#[tactic(auto, using(crate::proofs::Becoming::becomes_self, crate::proofs::Unary::not_of_not))]
pub fn negated(arena: &Arena, a: Node) -> Shape
    requires { a < length arena.now }
    ensures { Becomes arena.now (Shape.Unary Un.Not a) result }
{
    // For the proof: recalls what the type promises of it.
    let _ = arena.len();
    let shape = shape_of(arena, a);
    match &shape {
        Shape::Unary(op, x) => {
            if *op == Un::Not {
                unfloated(arena, *x)
            } else {
                Shape::Unary(Un::Not, a)
            }
        }
        _ => Shape::Unary(Un::Not, a),
    }
}
