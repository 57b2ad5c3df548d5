// What the actions of a block leave in its wires, as drivers (IEEE 1800-2017, 9.2.2). The actions run over a copy of the nodes
// at the start, which are still needed at the end: a clocked block gives what they leave where one of its events takes place, and
// else what was there before. Any other block gives what they leave.
ghost use Rattle.std.specs.Prelude.{All, IfOk};
ghost use Rattle.svex_arena.specs.Arenas.{Extends};
ghost use Rattle.lhs_alias.specs.declared.segs.WireBit.{WireBit};
ghost use Rattle.sv_actions.specs.Doing.{Fits};
ghost use Rattle.sv_stores.specs.Scenes.{IsScene, AreNodes};
ghost use Rattle.sv_blocks.specs.Fitting.{Sits, BitSits};
ghost use Rattle.sv_blocks.specs.Ending.{Ends, Runs, Finishes};

use crate::choices::merged;
use crate::drivers::drivers_of;
use crate::overlay::Overlay;
use crate::run::run_actions;
use crate::states::first_state;
use driver_resolve::Driver;
use items::Items;
use lhs_alias::WireBit;
use std::alloc::{AllocError, Global};
use sv_actions::Action;
use sv_stores::{Manner, Scene, start_nodes, trigger};
use svex_arena::{Arena, Node};

// What a block contributes: in a clocked block what its actions leave where the event takes place, and else what was before.
fn ended(
    alloc: Global,
    arena: &mut Arena,
    scene: &Scene,
    start: &[Node],
    nodes: Items<Node>,
) -> Result<Items<Node>, AllocError>
    requires scene { IsScene scene.now }
    requires start { AreNodes scene.now arena.old start.now }
    requires nodes { AreNodes scene.now arena.old nodes }
    ensures stays { Extends arena.old arena.new }
    ensures ok { IfOk result (λ ends. Ends scene.now arena.old arena.new start.now nodes ends) }
{
    match &scene.manner {
        Manner::Comb => Ok(nodes),
        Manner::Latch => Ok(nodes),
        Manner::HeldLatch => Ok(nodes),
        Manner::Clocked(edges) => {
            let event = trigger(alloc, arena, edges.as_slice())?;
            let ends = merged(alloc, arena, scene, event, nodes.as_slice(), start)?;
            Ok(ends)
        }
    }
}

// The nodes of the wires at the end of a block.
fn last_nodes(
    alloc: Global,
    arena: &mut Arena,
    scene: &Scene,
    actions: &[Action],
) -> Result<Items<Node>, AllocError>
    requires scene { IsScene scene.now }
    requires fits { All Fits actions.now }
    requires sits { All (Sits scene.now) actions.now }
    ensures stays { Extends arena.old arena.new }
    ensures ok { IfOk result (λ ends. Runs scene.now arena.new actions.now ends) }
{
    let start = start_nodes(alloc, arena, scene)?;
    let nodes = Items::from_vec(start.as_slice().to_vec(alloc)?);
    let mut state = first_state(alloc, arena, scene, nodes)?;
    let mut kept = Overlay::new(alloc);
    run_actions(alloc, arena, scene, actions, &mut state, &mut kept)?;
    ended(alloc, arena, scene, start.as_slice(), state.nodes)
}

/// The drivers of these bits of the wires of a block.
pub fn scene_drivers(
    alloc: Global,
    arena: &mut Arena,
    scene: &Scene,
    actions: &[Action],
    bits: &[WireBit],
) -> Result<Items<Driver>, AllocError>
    requires scene { IsScene scene.now }
    requires fits { All Fits actions.now }
    requires sits { All (Sits scene.now) actions.now }
    requires bits { All (BitSits scene.now) bits.now }
    ensures stays { Extends arena.old arena.new }
    ensures ok { IfOk result (λ all. Finishes scene.now arena.new actions.now bits.now all) }
{
    let nodes = last_nodes(alloc, arena, scene, actions)?;
    let all = drivers_of(alloc, arena, scene, nodes.as_slice(), bits)?;
    Ok(all)
}
