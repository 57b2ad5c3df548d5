// Nodes at other widths (IEEE 1800-2017, 10.7, 11.8.4).
ghost use Rattle.std.specs.Prelude.{◌≡◌, ◌<◌, ◌≤◌, length, IfOk};
ghost use Rattle.svex_shape.specs.Shapes.{width_at};
ghost use Rattle.svex_arena.specs.Arenas.{Extends};
ghost use Rattle.sv_meaning.specs.Meanings.{extend, fitted};
ghost use Rattle.sv_lower.specs.Nodes.{FromOne};

use crate::steps::make;
use std::alloc::{AllocError, Global};
use svex_arena::{Arena, Node, Shape};

/// A node extended to a width by a sign. It is the node itself where it has the width.
#[tactic(auto, using(crate::proofs::Sizing::extended_laws, svex_arena::proofs::Keeping::extends_self))]
pub fn extended(
    alloc: Global,
    arena: &mut Arena,
    a: Node,
    width: u8,
    signed: bool,
) -> Result<Node, AllocError>
    requires a { a < length arena.old }
    requires grows { width_at arena.old a ≤ width }
    requires most { width ≤ 128 }
    ensures stays { Extends arena.old arena.new }
    ensures ok { IfOk result (λ n. FromOne arena.old arena.new (extend signed width) a width n) }
{
    // For the proof: recalls what the type promises of it.
    let _ = arena.len();
    if arena.width(a) == width {
        Ok(a)
    } else if signed {
        make(alloc, arena, Shape::Sext(a, width))
    } else {
        make(alloc, arena, Shape::Zext(a, width))
    }
}

/// A node extended to a width by a sign, or cut to it.
#[tactic(auto, using(crate::proofs::Sizing::fitted_laws))]
pub fn fitted(
    alloc: Global,
    arena: &mut Arena,
    a: Node,
    width: u8,
    signed: bool,
) -> Result<Node, AllocError>
    requires a { a < length arena.old }
    requires some { 0 < width }
    requires most { width ≤ 128 }
    ensures stays { Extends arena.old arena.new }
    ensures ok { IfOk result (λ n. FromOne arena.old arena.new (fitted signed width) a width n) }
{
    // For the proof: recalls what the type promises of it.
    let _ = arena.len();
    if width < arena.width(a) {
        let part = Shape::Slice {
            of: a,
            lo: 0,
            width,
        };
        let node = make(alloc, arena, part)?;
        Ok(node)
    } else {
        let node = extended(alloc, arena, a, width, signed)?;
        Ok(node)
    }
}
