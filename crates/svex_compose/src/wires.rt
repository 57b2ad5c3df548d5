//! A node for each wire, made of the composed nodes.

ghost use Rattle.std.specs.Prelude.{◌≡◌, ℕ, ◌<◌, ◌≤◌, List, length, All, IfOk, IsTrue, slice_index};
ghost use Rattle.lhs_alias.specs.declared.segs.WireBit.{WireBit};
ghost use Rattle.lhs_alias.specs.Lies.{IsBitOf};
ghost use Rattle.lhs_alias.specs.Joined.{widths_of, first_of};
ghost use Rattle.svex_shape.specs.declared.shape.Shape.{Shape};
ghost use Rattle.svex_shape.specs.Shapes.{width_at};
ghost use Rattle.svex_arena.specs.Arenas.{IsArena, Extends};
ghost use Rattle.driver_resolve.specs.Drivers.{is_wire};
ghost use Rattle.net_equations.specs.Equations.{IsResolved, seg_at};
ghost use Rattle.compose_rounds.specs.Sources.{all_segs, HasSource};
ghost use Rattle.compose_rounds.specs.Wires.{AreThere, IsNodeOf};
ghost use Rattle.svex_compose.specs.Composed.{IsComposed, WasComposed, AreWireNodes};

use crate::start::segments_of;
use compose_rounds::{Segments, gather};
use driver_resolve::Resolved;
use items::Items;
use lhs_alias::Joins;
use net_equations::Composed;
use std::alloc::{AllocError, Global};
use svex_arena::{Arena, Node};

// The node of a wire, whose bits are put together.
fn wire_node(
    arena: &mut Arena,
    alloc: Global,
    joins: &Joins,
    segments: &Segments,
    nodes: &[Node],
    wire: usize,
    width: u8,
) -> Result<Node, AllocError>
    requires arena { IsArena arena.old }
    requires wire { IsTrue (is_wire (widths_of joins.now) wire width) }
    requires some { 0 < width }
    requires most { width ≤ 128 }
    requires covers { (b : WireBit) → IsBitOf (widths_of joins.now) b → HasSource (all_segs segments.now) (first_of joins.now b) }
    requires there { AreThere arena.old nodes.now }
    requires size { length nodes.now ≡ length segments.now.eqs }
    requires wide { (i : ℕ) → i < length segments.now.eqs → width_at arena.old (slice_index nodes.now i) ≡ (seg_at segments.now.eqs i).width }
    ensures node { IfOk result (IsNodeOf joins.now (all_segs segments.now) arena.old arena.new nodes.now wire width) }
    ensures extends { Extends arena.old arena.new }
    ensures arena { IsArena arena.new }
{
    let pieces = segments.pieces(alloc, joins, wire, width)?;
    gather(arena, alloc, nodes, pieces.segs())
}

/// A node for each wire, which has its value in the least solution. The widths are those of the wires that `joins` has.
pub fn wire_nodes(
    alloc: Global,
    arena: &mut Arena,
    set: &Resolved,
    joins: &Joins,
    widths: &[u8],
    composed: &Composed,
) -> Result<Items<Node>, AllocError>
    requires widths { widths.now ≡ widths_of joins.now }
    requires sized { All (λ width. (1 ≤ width) × (width ≤ 128)) widths.now }
    requires composed { WasComposed joins.now arena.old set.now composed.now.nodes }
    ensures nodes { IfOk result (λ n. (before : List Shape) → IsResolved joins.now before set.now
        → IsComposed joins.now before arena.old set.now.eqs composed.now.nodes → AreWireNodes joins.now before arena.new set.now.eqs n) }
    ensures extends { Extends arena.old arena.new }
    ensures arena { IsArena arena.new }
{
    // For the proof: recalls what the type promises of it.
    let _ = arena.len();
    let segments = segments_of(alloc, set)?;
    let mut nodes = Vec::new(alloc);
    'wires: for wire in 0..widths.len() {
        let node = wire_node(
            arena,
            alloc,
            joins,
            &segments,
            composed.nodes.as_slice(),
            wire,
            widths[wire],
        )?;
        nodes.push(node)?;
    }
    Ok(Items::from_vec(nodes))
}
