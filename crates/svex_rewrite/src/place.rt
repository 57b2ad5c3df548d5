// Where the bits of a part stand, one step down: in what the node of which it is a part is made of.
ghost use Rattle.std.specs.Prelude.{◌≡◌, ◌<◌, ◌≤◌, ◌+◌, length, IfSome};
ghost use Rattle.svex_shape.specs.Shapes.{ChildrenBelow};
ghost use Rattle.svex_shape.specs.declared.shape.Shape.{Shape};
ghost use Rattle.svex_shape.specs.declared.shape.Bin.{Bin};
ghost use Rattle.svex_rewrite.specs.Becoming.{Becomes, HasShape, IsOver};

use svex_arena::{Arena, Bin, Node, Shape};

/// Where bits stand: from a place on in a node.
#[derive(Clone, Copy)]
pub struct Place {
    pub of: Node,
    pub lo: u8,
}

// Where a part of a concatenation stands in one of its halves.
#[tactic(auto, using(crate::proofs::Narrowing::half_laws))]
fn half(arena: &Arena, of: Node, high: Node, low: Node, lo: u8, width: u8) -> Option<Place>
    requires over { IsOver arena.now (Shape.Slice of lo width) }
    requires concat { HasShape arena.now of (Shape.Binary Bin.Concat high low) }
    requires high { high < of }
    requires low { low < of }
    ensures lower { IfSome result (λ p. p.of < of) }
    ensures is { IfSome result (λ p. Becomes arena.now (Shape.Slice of lo width) (Shape.Slice p.of p.lo width)) }
{
    let below = arena.width(low);
    if lo + width <= below {
        Some(Place { of: low, lo })
    } else if below <= lo {
        Some(Place {
            of: high,
            lo: lo - below,
        })
    } else {
        None
    }
}

/// Where a part of a node stands in one of its children.
#[tactic(auto, using(crate::proofs::Narrowing::narrowing_laws))]
pub fn narrowed(arena: &Arena, of: Node, lo: u8, width: u8) -> Option<Place>
    requires { IsOver arena.now (Shape.Slice of lo width) }
    ensures lower { IfSome result (λ p. p.of < of) }
    ensures is { IfSome result (λ p. Becomes arena.now (Shape.Slice of lo width) (Shape.Slice p.of p.lo width)) }
{
    // For the proof: recalls what the type promises of it.
    let _ = arena.len();
    let shape = shape_of(arena, of);
    match &shape {
        Shape::Slice {
            of: inner,
            lo: low,
            ..
        } => Some(Place {
            of: *inner,
            lo: *low + lo,
        }),
        Shape::Binary(op, high, low) => {
            if *op == Bin::Concat {
                half(arena, of, *high, *low, lo, width)
            } else {
                None
            }
        }
        Shape::Zext(a, _) => {
            if lo + width <= arena.width(*a) {
                Some(Place { of: *a, lo })
            } else {
                None
            }
        }
        Shape::Sext(a, _) => {
            if lo + width <= arena.width(*a) {
                Some(Place { of: *a, lo })
            } else {
                None
            }
        }
        _ => None,
    }
}

/// The shape of a node.
#[tactic(auto, using(crate::proofs::Narrowing::has_shape))]
pub fn shape_of(arena: &Arena, node: Node) -> Shape
    requires { node < length arena.now }
    ensures is { HasShape arena.now node result }
    ensures children { ChildrenBelow node result }
{
    arena.shape(node)
}
