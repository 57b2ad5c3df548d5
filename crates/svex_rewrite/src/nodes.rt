//! What stands at nodes, and constant vectors.

ghost use Rattle.std.specs.Prelude.{◌≡◌, ◌↔◌, ℕ, ◌∷◌, [], ◌<◌, ◌≤◌, length, replicate, IfSome, IsTrue};
ghost use Rattle.fourvec.specs.declared.Bit.{Bit};
ghost use Rattle.svex_shape.specs.Shapes.{ChildrenBelow, shape_at};
ghost use Rattle.svex_shape.specs.declared.shape.Shape.{Shape};
ghost use Rattle.svex_rewrite.specs.Meaning.{HasShape, IsAllAt, constant_of};

use crate::shape_of;
use fourvec::{Bit, Four};
use svex_arena::{Arena, Node, Shape};

// One bit.
#[tactic(auto, using(crate::proofs::Fills::one_bit))]
fn one(bit: Bit) -> Four
    ensures { result ≡ bit ∷ [] }
{
    match bit {
        Bit::Zero => Four::new(1, 0, 0),
        Bit::One => Four::new(1, 1, 1),
        Bit::Unknown => Four::new(1, 1, 0),
        Bit::Floating => Four::new(1, 0, 1),
    }
}

/// Copies of one bit.
#[tactic(auto, using(crate::proofs::Fills::bit_widened))]
pub fn filled(width: u8, bit: Bit) -> Four
    requires some { 0 < width }
    requires most { width ≤ 128 }
    ensures { result ≡ replicate width bit }
{
    one(bit).sext(width)
}

/// Whether two vectors are equal.
#[tactic(auto, using(fourvec::proofs::Basic::same_when_equal, fourvec::proofs::Basic::equal_when_same))]
pub fn same_vector(a: &Four, b: &Four) -> bool
    ensures { IsTrue result ↔ (a.now ≡ b.now) }
{
    *a == *b
}

/// The value of a node that is constant.
pub fn constant(arena: &Arena, node: Node) -> Option<Four>
    requires { node < length arena.now }
    ensures is { result ≡ constant_of (shape_at arena.now node) }
    ensures some { IfSome result (λ v. HasShape arena.now node (Shape.Const v)) }
{
    match shape_of(arena, node) {
        Shape::Const(value) => Some(value),
        _ => None,
    }
}

/// Whether a node is constant with this bit everywhere.
#[tactic(auto, using(crate::proofs::Becoming::all_at_laws))]
pub fn all_at(arena: &Arena, node: Node, bit: Bit) -> bool
    requires { node < length arena.now }
    ensures { IsTrue result ↔ IsAllAt arena.now node bit }
{
    // For the proof: recalls what the type promises of it.
    let _ = arena.len();
    match constant(arena, node) {
        Some(value) => same_vector(&value, &filled(value.width(), bit)),
        None => false,
    }
}
