// Assignments in blocks (IEEE 1800-2017, 10.4 and 10.7). The value is one node, as wide as all targets together, and each
// target gets its part of it, from the most significant down. A target is put into the whole node of its wire, so that the
// store has one node for each wire, whatever parts of it are written.
ghost use Rattle.std.specs.Prelude.{◌≡◌, ℕ, ◌<◌, ◌≤◌, max, take, All, length, IfOk, OnOk};
ghost use Rattle.fourvec.specs.declared.Bit.{Bit};
ghost use Rattle.svex_shape.specs.declared.shape.VarName.{VarName};
ghost use Rattle.svex_shape.specs.Shapes.{width_at};
ghost use Rattle.svex_arena.specs.Arenas.{Extends};
ghost use Rattle.sv_typed.specs.Typed.{IsSound, names_of};
ghost use Rattle.sv_targets.specs.Targets.{width_of_all};
ghost use Rattle.sv_actions.specs.Doing.{assigned_bits, TargetFits};
ghost use Rattle.sv_stores.specs.Scenes.{Narrow, IsScene, IsState, Yields, Ran};
ghost use Rattle.sv_blocks.specs.Fitting.{TargetSits};
ghost use Rattle.sv_blocks.specs.Overlays.{over};
ghost use Rattle.sv_blocks.specs.Writing.{Wrote, WroteAll, assigns, assign_names};

use crate::overlay::Overlay;
use crate::states::put_node;
use crate::writes::written;
use std::alloc::{AllocError, Global};
use sv_lower::sliced;
use sv_stores::{Scene, State, lowered, place_of};
use sv_targets::TypedTarget;
use sv_typed::Typed;
use svex_arena::{Arena, Node};

// The node of the right side of an assignment to so many bits (IEEE 1800-2017, 10.7).
fn assigned(
    alloc: Global,
    arena: &mut Arena,
    scene: &Scene,
    state: &State,
    typed: &Typed,
    width: u8,
) -> Result<Node, AllocError>
    requires scene { IsScene scene.now }
    requires state { IsState scene.now arena.old state.now }
    requires sound { IsSound typed.now }
    requires narrow { Narrow scene.now (names_of typed.now) }
    requires some { 1 ≤ width }
    requires most { width ≤ 128 }
    ensures stays { Extends arena.old arena.new }
    ensures ok { IfOk result (λ n. Yields scene.now arena.old arena.new state.now.nodes (λ read. assigned_bits typed.now read width) (names_of typed.now) width n) }
{
    let node = lowered(
        alloc,
        arena,
        scene,
        state,
        typed,
        width.max(typed.width),
        typed.signed,
    )?;
    let node = sliced(alloc, arena, node, 0, width)?;
    Ok(node)
}

// Writes a node into a target.
fn write_target(
    alloc: Global,
    arena: &mut Arena,
    scene: &Scene,
    state: &mut State,
    target: &TypedTarget,
    part: Node,
    kept: &mut Overlay,
) -> Result<(), AllocError>
    requires scene { IsScene scene.now }
    requires state { IsState scene.now arena.old state.old }
    requires target { TargetFits target.now }
    requires sits { TargetSits scene.now target.now }
    requires part { part < length arena.old }
    requires wide { width_at arena.old part ≡ target.now.width }
    ensures stays { Extends arena.old arena.new }
    ensures state { OnOk result (IsState scene.now arena.new state.new) }
    ensures wrote { OnOk result (Wrote scene.now arena.old arena.new state.old.nodes state.new.nodes target.now part) }
    ensures kept { OnOk result (over kept.new state.new.nodes ≡ over kept.old state.old.nodes) }
{
    // For the proof: recalls what the type promises of it.
    let _ = arena.len();
    let at = place_of(scene, target.wire);
    let old = state.nodes.as_slice()[at];
    let node = written(
        alloc,
        arena,
        scene,
        state,
        target.picks.as_slice(),
        old,
        part,
    )?;
    put_node(alloc, arena, scene, state, at, node, kept)?;
    // For the proof: recalls what the type promises of it.
    let _ = arena.len();
    Ok(())
}

// The bits of all targets together.
#[tactic(auto, using(crate::proofs::Assigning::width_taken, crate::proofs::Assigning::width_room, crate::proofs::Assigning::width_all, crate::proofs::Assigning::width_zero))]
fn total(targets: &[TypedTarget]) -> u8
    requires { width_of_all targets.now ≤ 128 }
    ensures { result ≡ width_of_all targets.now }
{
    let mut width = 0u8;
    'targets: for target in targets {
        width += target.width;
    }
    width
}

// Writes a node into targets, the first the most significant.
fn write_targets(
    alloc: Global,
    arena: &mut Arena,
    scene: &Scene,
    state: &mut State,
    targets: &[TypedTarget],
    whole: Node,
    kept: &mut Overlay,
) -> Result<(), AllocError>
    requires scene { IsScene scene.now }
    requires state { IsState scene.now arena.old state.old }
    requires targets { All TargetFits targets.now }
    requires sits { All (TargetSits scene.now) targets.now }
    requires whole { whole < length arena.old }
    requires wide { width_at arena.old whole ≡ width_of_all targets.now }
    ensures stays { Extends arena.old arena.new }
    ensures state { OnOk result (IsState scene.now arena.new state.new) }
    ensures wrote { OnOk result (WroteAll scene.now arena.old arena.new state.old.nodes state.new.nodes targets.now whole) }
    ensures kept { OnOk result (over kept.new state.new.nodes ≡ over kept.old state.old.nodes) }
{
    // For the proof: recalls what the type promises of it.
    let _ = arena.len();
    let mut left = arena.width(whole);
    'targets: for target in targets {
        left -= target.width;
        let part = sliced(alloc, arena, whole, left, target.width)?;
        write_target(alloc, arena, scene, state, target, part, kept)?;
    }
    Ok(())
}

/// An assignment: the value, as by an assignment to so many bits as the targets have together, is written into the targets.
pub fn assign(
    alloc: Global,
    arena: &mut Arena,
    scene: &Scene,
    state: &mut State,
    targets: &[TypedTarget],
    value: &Typed,
    kept: &mut Overlay,
) -> Result<(), AllocError>
    requires scene { IsScene scene.now }
    requires state { IsState scene.now arena.old state.old }
    requires value { IsSound value.now }
    requires targets { All TargetFits targets.now }
    requires narrow { Narrow scene.now (names_of value.now) }
    requires sits { All (TargetSits scene.now) targets.now }
    requires some { 1 ≤ width_of_all targets.now }
    requires most { width_of_all targets.now ≤ 128 }
    ensures stays { Extends arena.old arena.new }
    ensures state { OnOk result (IsState scene.now arena.new state.new) }
    ensures ran { OnOk result (Ran scene.now arena.old arena.new state.old.nodes state.new.nodes (assigns targets.now value.now) (assign_names targets.now value.now)) }
    ensures kept { OnOk result (over kept.new state.new.nodes ≡ over kept.old state.old.nodes) }
{
    let node = assigned(alloc, arena, scene, state, value, total(targets))?;
    write_targets(alloc, arena, scene, state, targets, node, kept)
}
