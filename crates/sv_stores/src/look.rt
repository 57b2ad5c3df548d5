// Nodes of expressions in blocks.
ghost use Rattle.std.specs.Prelude.{◌≡◌, ◌≤◌, true, IfOk};
ghost use Rattle.svex_arena.specs.Arenas.{Extends};
ghost use Rattle.sv_typed.specs.Typed.{worth, names_of, own, IsSound};
ghost use Rattle.fourvec.specs.Bits.{truth_of};
ghost use Rattle.sv_stores.specs.Scenes.{Narrow, sees_nodes, IsScene, IsState, Yields};

use crate::{Manner, Scene, State};
use std::alloc::{AllocError, Global};
use sv_lower::{Look, lower, unary};
use sv_typed::Typed;
use svex_arena::{Arena, Node, Un};

// The node of an expression, where names read nodes of what they see.
fn placed(
    alloc: Global,
    arena: &mut Arena,
    scene: &Scene,
    state: &State,
    typed: &Typed,
    width: u8,
    signed: bool,
) -> Result<Node, AllocError>
    requires scene { IsScene scene.now }
    requires seen { sees_nodes scene.now.manner ≡ true }
    requires state { IsState scene.now arena.old state.now }
    requires sound { IsSound typed.now }
    requires narrow { Narrow scene.now (names_of typed.now) }
    requires fits { typed.now.width ≤ width }
    requires most { width ≤ 128 }
    ensures stays { Extends arena.old arena.new }
    ensures ok { IfOk result (λ n. Yields scene.now arena.old arena.new state.now.nodes (λ read. worth typed.now read width signed) (names_of typed.now) width n) }
{
    // For the proof: recalls what the type promises of it.
    let _ = arena.len();
    let look = Look::Placed(&scene.places, state.seen.as_slice());
    let node = lower(alloc, arena, typed, &look, width, signed)?;
    Ok(node)
}

/// The node of an expression in a context of so many bits and such a sign, by what names read in a block.
pub fn lowered(
    alloc: Global,
    arena: &mut Arena,
    scene: &Scene,
    state: &State,
    typed: &Typed,
    width: u8,
    signed: bool,
) -> Result<Node, AllocError>
    requires scene { IsScene scene.now }
    requires state { IsState scene.now arena.old state.now }
    requires sound { IsSound typed.now }
    requires narrow { Narrow scene.now (names_of typed.now) }
    requires fits { typed.now.width ≤ width }
    requires most { width ≤ 128 }
    ensures stays { Extends arena.old arena.new }
    ensures ok { IfOk result (λ n. Yields scene.now arena.old arena.new state.now.nodes (λ read. worth typed.now read width signed) (names_of typed.now) width n) }
{
    match &scene.manner {
        Manner::Comb => placed(alloc, arena, scene, state, typed, width, signed),
        Manner::Latch => placed(alloc, arena, scene, state, typed, width, signed),
        Manner::HeldLatch => placed(alloc, arena, scene, state, typed, width, signed),
        Manner::Clocked(edges) => {
            let look = Look::Clocked(edges.as_slice());
            let node = lower(alloc, arena, typed, &look, width, signed)?;
            Ok(node)
        }
    }
}

/// The node of the truth of an expression (11.4.7).
pub fn truth(
    alloc: Global,
    arena: &mut Arena,
    scene: &Scene,
    state: &State,
    typed: &Typed,
) -> Result<Node, AllocError>
    requires scene { IsScene scene.now }
    requires state { IsState scene.now arena.old state.now }
    requires sound { IsSound typed.now }
    requires narrow { Narrow scene.now (names_of typed.now) }
    ensures stays { Extends arena.old arena.new }
    ensures ok { IfOk result (λ n. Yields scene.now arena.old arena.new state.now.nodes (λ read. truth_of (own typed.now read)) (names_of typed.now) 1 n) }
{
    let node = lowered(alloc, arena, scene, state, typed, typed.width, typed.signed)?;
    let truth = unary(alloc, arena, Un::Truth, node)?;
    Ok(truth)
}
