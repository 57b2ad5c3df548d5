// Where a block begins, and what it contributes at its end.
ghost use Rattle.std.specs.Prelude.{◌≡◌, ◌<◌, List, ◌∷◌, length, IfOk};
ghost use Rattle.svex_shape.specs.Shapes.{width_at};
ghost use Rattle.svex_arena.specs.Arenas.{Extends};
ghost use Rattle.sv_stores.specs.Scenes.{IsScene, StartsAt, Starts};
ghost use Rattle.sv_stores.specs.Starting.{TellsEdge, Triggers};

use crate::{Scene, is_comb};
use fourvec::Four;
use items::Items;
use std::alloc::{AllocError, Global};
use sv_lower::{binary, constant, make, unary, unknown};
use sv_meaning::WireEdge;
use sv_tree::Edge;
use svex_arena::{Arena, Bin, Node, Shape, Un, VarName};

// What the wire at a place has where a block begins: X in a combinational one, and the phase before in any other.
fn start_node(
    alloc: Global,
    arena: &mut Arena,
    scene: &Scene,
    at: usize,
) -> Result<Node, AllocError>
    requires scene { IsScene scene.now }
    requires at { at < length scene.now.wires }
    ensures stays { Extends arena.old arena.new }
    ensures ok { IfOk result (λ n. StartsAt scene.now arena.new at n) }
{
    let width = scene.widths.as_slice()[at];
    if is_comb(&scene.manner) {
        let node = unknown(alloc, arena, width)?;
        Ok(node)
    } else {
        let name = VarName::Prev(scene.wires.as_slice()[at]);
        let node = make(alloc, arena, Shape::Var(name, width))?;
        Ok(node)
    }
}

/// The nodes of all wires where a block begins.
#[tactic(auto, using(svex_arena::proofs::Keeping::extends_on))]
pub fn start_nodes(
    alloc: Global,
    arena: &mut Arena,
    scene: &Scene,
) -> Result<Items<Node>, AllocError>
    requires { IsScene scene.now }
    ensures stays { Extends arena.old arena.new }
    ensures ok { IfOk result (λ nodes. Starts scene.now arena.new nodes) }
{
    let mut nodes = Items::new(alloc);
    'places: for at in 0..scene.wires.len() {
        let node = start_node(alloc, arena, scene, at)?;
        nodes.push(node)?;
    }
    Ok(nodes)
}

// Whether an edge of a wire of one bit stands between the phase before and the present one (IEEE 1800-2017, 9.4.2).
fn edge_node(alloc: Global, arena: &mut Arena, edge: WireEdge) -> Result<Node, AllocError>
    ensures stays { Extends arena.old arena.new }
    ensures ok { IfOk result (λ n. TellsEdge arena.new edge n) }
{
    let now = make(alloc, arena, Shape::Var(VarName::Now(edge.wire), 1))?;
    let before = make(alloc, arena, Shape::Var(VarName::Prev(edge.wire), 1))?;
    match edge.edge {
        Edge::Pos => {
            let low = unary(alloc, arena, Un::Not, before)?;
            binary(alloc, arena, Bin::And, now, low)
        }
        Edge::Neg => {
            let low = unary(alloc, arena, Un::Not, now)?;
            binary(alloc, arena, Bin::And, low, before)
        }
    }
}

// Whether an edge stands there, or one of those that a node tells.
fn with_edge(
    alloc: Global,
    arena: &mut Arena,
    edge: WireEdge,
    more: Node,
) -> Result<Node, AllocError>
    requires more { more < length arena.old }
    requires one { width_at arena.old more ≡ 1 }
    ensures stays { Extends arena.old arena.new }
    ensures ok { (edges : List WireEdge) → Triggers arena.old edges more → IfOk result (λ n. Triggers arena.new (edge ∷ edges) n) }
{
    let node = edge_node(alloc, arena, edge)?;
    // For the proof: recalls what the type promises of it.
    let _ = arena.len();
    binary(alloc, arena, Bin::Or, node, more)
}

/// Whether one of these edges stands between the phase before and the present one (IEEE 1800-2017, 9.4.2.1). One alone takes no
/// node more.
pub fn trigger(alloc: Global, arena: &mut Arena, edges: &[WireEdge]) -> Result<Node, AllocError>
    ensures stays { Extends arena.old arena.new }
    ensures ok { IfOk result (λ n. Triggers arena.new edges.now n) }
{
    let mut at = edges.len();
    if at == 0 {
        return constant(alloc, arena, &Four::new(1, 0, 0));
    }
    at -= 1;
    let mut node = edge_node(alloc, arena, edges[at])?;
    'edges: while at > 0 {
        at -= 1;
        node = with_edge(alloc, arena, edges[at], node)?;
    }
    Ok(node)
}
