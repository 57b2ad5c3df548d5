//! Nodes of constants and signals. What a wire reads depends on where its name stands (in the present, in a clocked block, or
//! over what a block has stored), so each lookup goes through `Look`, and one function serves all expressions. A number that a
//! look has no node for reads as a variable, so no condition on numbers is needed.
ghost use Rattle.std.specs.Prelude.{◌≡◌, ◌<◌, ◌≤◌, length, IfOk};
ghost use Rattle.svex_arena.specs.Arenas.{Extends};
ghost use Rattle.sv_typed.specs.declared.tree.Root.{Root};
ghost use Rattle.sv_typed.specs.declared.tree.Origin.{Origin};
ghost use Rattle.sv_typed.specs.Typed.{root_width, IsWidth};
ghost use Rattle.sv_meaning.specs.Blocks as blocks;
ghost use Rattle.svex_arena.specs.Substs.{entry_at};
ghost use Rattle.sv_lower.specs.Lowering.{node_in, node_of, wire_variable, IsIn, LowersRoot};

use crate::Look;
use crate::parts::{place_at, windowed};
use crate::steps::{constant, make};
use std::alloc::{AllocError, Global};
use sv_meaning::WireEdge;
use sv_typed::{Origin, Root};
use svex_arena::{Arena, Node, Shape, VarName};
use wire_places::WirePlaces;

// The node at the place of a wire.
fn node_in(places: &WirePlaces, nodes: &[Node], number: usize) -> Option<Node>
    ensures { result ≡ node_in nodes.now (entry_at places.now number) }
{
    match places.get(number) {
        Some(at) if at < nodes.len() => Some(nodes[at]),
        _ => None,
    }
}

// The node under the number of a wire.
fn node_of(look: &Look<'_>, number: usize) -> Option<Node>
    ensures { result ≡ node_of look.now number }
{
    match look {
        Look::Present | Look::Previous | Look::Clocked(_) => None,
        Look::Mixed(nodes) => {
            if number < nodes.len() {
                nodes[number]
            } else {
                None
            }
        }
        Look::Placed(places, nodes) => node_in(places, nodes, number),
    }
}

// Whether a wire is that of an event.
fn is_event(edges: &[WireEdge], number: usize) -> bool
    ensures { result ≡ blocks.is_event edges.now number }
{
    edges.iter().any(|x| number == x.wire)
}

// The variable that a wire reads where it has no node.
fn variable(look: &Look<'_>, number: usize) -> VarName
    ensures { result ≡ wire_variable look.now number }
{
    match look {
        Look::Present | Look::Mixed(_) | Look::Placed(_, _) => VarName::Now(number),
        Look::Previous => VarName::Prev(number),
        Look::Clocked(edges) => {
            if is_event(edges, number) {
                VarName::Now(number)
            } else {
                VarName::Prev(number)
            }
        }
    }
}

fn wire(
    alloc: Global,
    arena: &mut Arena,
    number: usize,
    width: u8,
    look: &Look<'_>,
) -> Result<Node, AllocError>
    requires some { 0 < width }
    requires most { width ≤ 128 }
    requires look { IsIn look.now arena.old }
    ensures stays { Extends arena.old arena.new }
    ensures ok { IfOk result (λ n. LowersRoot look.now arena.old arena.new (Root.Signal Origin.Wires number width) n) }
{
    match node_of(look, number) {
        Some(node) => {
            let node = windowed(alloc, arena, node, place_at(0), width)?;
            Ok(node)
        }
        None => {
            let name = variable(look, number);
            let node = make(alloc, arena, Shape::Var(name, width))?;
            Ok(node)
        }
    }
}

/// The node of a constant or a signal.
pub fn root_node(
    alloc: Global,
    arena: &mut Arena,
    root: &Root,
    look: &Look<'_>,
) -> Result<Node, AllocError>
    requires width { IsWidth (root_width root.now) }
    requires look { IsIn look.now arena.old }
    ensures stays { Extends arena.old arena.new }
    ensures ok { IfOk result (λ n. LowersRoot look.now arena.old arena.new root.now n) }
{
    match *root {
        Root::Number(value) => {
            let node = constant(alloc, arena, &value)?;
            Ok(node)
        }
        Root::Signal {
            origin,
            number,
            width,
        } => match origin {
            Origin::Wires => wire(alloc, arena, number, width, look),
            Origin::Choice => {
                let node = make(alloc, arena, Shape::Var(VarName::Chosen(number), width))?;
                Ok(node)
            }
            Origin::Samples => {
                let node = make(alloc, arena, Shape::Var(VarName::Sampled(number), width))?;
                Ok(node)
            }
        },
    }
}
