// States of blocks: a node for each wire, and what names see of these. Where names see the store, what they see is kept beside it
// and changed with it, so that it is made once for each write and not for each name that is read. In a latch block with `<=` they
// see the start of the store, which is made once, and in a clocked block nothing is kept. A choice between equal nodes makes no node.
ghost use Rattle.std.specs.Prelude.{◌≡◌, ◌<◌, length, slice_set, IfOk, OnOk};
ghost use Rattle.svex_shape.specs.Shapes.{width_at};
ghost use Rattle.svex_arena.specs.Arenas.{Extends};
ghost use Rattle.sv_stores.specs.Scenes.{width_in, IsScene, IsState, AreNodes, AreSeen, SeenBy, Starts};
ghost use Rattle.sv_blocks.specs.Overlays.{over, Covers, PutsOver};

use crate::overlay::Overlay;
use crate::shown::shown;
use items::Items;
use std::alloc::{AllocError, Global};
use sv_stores::{Manner, Scene, State, sees_store};
use svex_arena::{Arena, Node};

// What names see of nodes.
#[tactic(auto, using(svex_arena::proofs::Keeping::extends_on))]
fn all_shown(
    alloc: Global,
    arena: &mut Arena,
    scene: &Scene,
    nodes: &[Node],
) -> Result<Items<Node>, AllocError>
    requires scene { IsScene scene.now }
    requires nodes { AreNodes scene.now arena.old nodes.now }
    ensures stays { Extends arena.old arena.new }
    ensures ok { IfOk result (λ seen. AreSeen scene.now arena.new nodes.now seen) }
{
    let mut seen = Items::new(alloc);
    'nodes: for at in 0..nodes.len() {
        let node = shown(alloc, arena, scene, at, nodes[at])?;
        seen.push(node)?;
    }
    Ok(seen)
}

// What names see where a block begins with these nodes.
fn first_seen(
    alloc: Global,
    arena: &mut Arena,
    scene: &Scene,
    nodes: &[Node],
) -> Result<Items<Node>, AllocError>
    requires scene { IsScene scene.now }
    requires nodes { Starts scene.now arena.old nodes.now }
    ensures stays { Extends arena.old arena.new }
    ensures ok { IfOk result (λ seen. SeenBy scene.now.manner scene.now arena.new nodes.now seen) }
{
    match &scene.manner {
        Manner::Comb => all_shown(alloc, arena, scene, nodes),
        Manner::Latch => all_shown(alloc, arena, scene, nodes),
        Manner::HeldLatch => all_shown(alloc, arena, scene, nodes),
        Manner::Clocked(_) => Ok(Items::new(alloc)),
    }
}

/// The state in which a block begins with these nodes.
pub fn first_state(
    alloc: Global,
    arena: &mut Arena,
    scene: &Scene,
    nodes: Items<Node>,
) -> Result<State, AllocError>
    requires scene { IsScene scene.now }
    requires nodes { Starts scene.now arena.old nodes }
    ensures stays { Extends arena.old arena.new }
    ensures nodes { IfOk result (λ state. state.nodes ≡ nodes) }
    ensures state { IfOk result (λ state. IsState scene.now arena.new state) }
{
    let seen = first_seen(alloc, arena, scene, nodes.as_slice())?;
    Ok(State { nodes, seen })
}

// Sets a node, and what names see of it.
fn set_node(
    alloc: Global,
    arena: &mut Arena,
    scene: &Scene,
    state: &mut State,
    at: usize,
    node: Node,
) -> Result<(), AllocError>
    requires scene { IsScene scene.now }
    requires state { IsState scene.now arena.old state.old }
    requires at { at < length state.old.nodes }
    requires node { node < length arena.old }
    requires width { width_at arena.old node ≡ width_in scene.now at }
    ensures stays { Extends arena.old arena.new }
    ensures nodes { OnOk result (state.new.nodes ≡ slice_set state.old.nodes at node) }
    ensures state { OnOk result (IsState scene.now arena.new state.new) }
{
    if sees_store(&scene.manner) {
        let seen = shown(alloc, arena, scene, at, node)?;
        state.nodes.set(at, node);
        state.seen.set(at, seen);
        Ok(())
    } else {
        state.nodes.set(at, node);
        Ok(())
    }
}

/// Puts a node in the place of another, and keeps what stood there.
pub fn put_node(
    alloc: Global,
    arena: &mut Arena,
    scene: &Scene,
    state: &mut State,
    at: usize,
    node: Node,
    kept: &mut Overlay,
) -> Result<(), AllocError>
    requires scene { IsScene scene.now }
    requires state { IsState scene.now arena.old state.old }
    requires at { at < length state.old.nodes }
    requires node { node < length arena.old }
    requires width { width_at arena.old node ≡ width_in scene.now at }
    ensures stays { Extends arena.old arena.new }
    ensures nodes { OnOk result (state.new.nodes ≡ slice_set state.old.nodes at node) }
    ensures state { OnOk result (IsState scene.now arena.new state.new) }
    ensures kept { OnOk result (over kept.new state.new.nodes ≡ over kept.old state.old.nodes) }
{
    let stood = state.nodes.as_slice()[at];
    kept.keep(at, stood)?;
    set_node(alloc, arena, scene, state, at, node)
}

// Puts the node that lies over a place there, if there is one.
fn put_over(
    alloc: Global,
    arena: &mut Arena,
    scene: &Scene,
    state: &mut State,
    puts: &Overlay,
    at: usize,
    kept: &mut Overlay,
) -> Result<(), AllocError>
    requires scene { IsScene scene.now }
    requires state { IsState scene.now arena.old state.old }
    requires puts { AreNodes scene.now arena.old (over puts.now state.old.nodes) }
    ensures stays { Extends arena.old arena.new }
    ensures put { OnOk result (PutsOver puts.now at state.old.nodes state.new.nodes) }
    ensures state { OnOk result (IsState scene.now arena.new state.new) }
    ensures kept { OnOk result (over kept.new state.new.nodes ≡ over kept.old state.old.nodes) }
{
    let Some(node) = puts.get(at) else {
        return Ok(());
    };
    if at >= state.nodes.len() {
        return Ok(());
    }
    put_node(alloc, arena, scene, state, at, node, kept)
}

// Puts what lies over these places there.
#[tactic(auto, using(svex_arena::proofs::Keeping::extends_on))]
fn put_places(
    alloc: Global,
    arena: &mut Arena,
    scene: &Scene,
    state: &mut State,
    puts: &Overlay,
    places: &[usize],
    kept: &mut Overlay,
) -> Result<(), AllocError>
    requires scene { IsScene scene.now }
    requires state { IsState scene.now arena.old state.old }
    requires puts { AreNodes scene.now arena.old (over puts.now state.old.nodes) }
    requires places { Covers places.now puts.now }
    ensures stays { Extends arena.old arena.new }
    ensures nodes { OnOk result (state.new.nodes ≡ over puts.now state.old.nodes) }
    ensures state { OnOk result (IsState scene.now arena.new state.new) }
    ensures kept { OnOk result (over kept.new state.new.nodes ≡ over kept.old state.old.nodes) }
{
    'places: for at in 0..places.len() {
        put_over(alloc, arena, scene, state, puts, places[at], kept)?;
    }
    Ok(())
}

/// Puts all that lies over a state into it, and keeps what stood there.
pub fn put_all(
    alloc: Global,
    arena: &mut Arena,
    scene: &Scene,
    state: &mut State,
    puts: &Overlay,
    kept: &mut Overlay,
) -> Result<(), AllocError>
    requires scene { IsScene scene.now }
    requires state { IsState scene.now arena.old state.old }
    requires puts { AreNodes scene.now arena.old (over puts.now state.old.nodes) }
    ensures stays { Extends arena.old arena.new }
    ensures nodes { OnOk result (state.new.nodes ≡ over puts.now state.old.nodes) }
    ensures state { OnOk result (IsState scene.now arena.new state.new) }
    ensures kept { OnOk result (over kept.new state.new.nodes ≡ over kept.old state.old.nodes) }
{
    let places = puts.places(alloc)?;
    put_places(alloc, arena, scene, state, puts, places.as_slice(), kept)
}
