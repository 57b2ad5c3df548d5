// Actions as steps over nodes (IEEE 1800-2017, 10.4, 12.4, 12.5). Both branches of a choice are run, each from the state before
// it, and each wire that one of them writes becomes a choice between the two nodes. Arms are run from the last backwards, each over
// what is left where it is not taken, so that the first arm that matches decides. A branch is run on the state itself: what stood where
// it writes is kept and put back, and what it put there is handed on as what lies over the state. So nothing is done for wires that it
// does not write. Actions hold actions, so that these functions are one cycle.
ghost use Rattle.std.specs.Prelude.{◌≡◌, All, IfOk, OnOk};
ghost use Rattle.svex_arena.specs.Arenas.{Extends};
ghost use Rattle.sv_typed.specs.Typed.{worth, names_of, IsSound};
ghost use Rattle.sv_actions.specs.declared.action.Action.{Action};
ghost use Rattle.sv_actions.specs.declared.action.Action.TheVariants.{Choose};
ghost use Rattle.sv_actions.specs.Doing.{run, run_all, names, names_all, Fits, CaseFits};
ghost use Rattle.sv_stores.specs.Scenes.{Narrow, IsScene, IsState, AreNodes, Yields, Ran};
ghost use Rattle.sv_blocks.specs.Fitting.{Sits, ArmSits};
ghost use Rattle.sv_blocks.specs.Overlays.{over};
ghost use Rattle.sv_blocks.specs.Running.{RanArm, RanArms, ArmFits};

use crate::assigns::assign;
use crate::choices::either;
use crate::labels::{compared, label_matches};
use crate::overlay::Overlay;
use crate::states::put_all;
use std::alloc::{AllocError, Global};
use sv_actions::{Action, Arm, Case};
use sv_stores::{Scene, State, truth};
use sv_typed::Typed;
use svex_arena::{Arena, Node};

#[cycle(run)]
fn run_action(
    alloc: Global,
    arena: &mut Arena,
    scene: &Scene,
    action: &Action,
    state: &mut State,
    kept: &mut Overlay,
) -> Result<(), AllocError>
    requires scene { IsScene scene.now }
    requires state { IsState scene.now arena.old state.old }
    requires fits { Fits action.now }
    requires sits { Sits scene.now action.now }
    ensures stays { Extends arena.old arena.new }
    ensures state { OnOk result (IsState scene.now arena.new state.new) }
    ensures ran { OnOk result (Ran scene.now arena.old arena.new state.old.nodes state.new.nodes (run action.now) (names action.now)) }
    ensures kept { OnOk result (over kept.new state.new.nodes ≡ over kept.old state.old.nodes) }
{
    match action {
        Action::Assign(targets, value) => {
            assign(alloc, arena, scene, state, targets.as_slice(), value, kept)
        }
        Action::Choose(condition, a, b) => {
            run_choice(
                alloc,
                arena,
                scene,
                condition,
                a.as_slice(),
                b.as_slice(),
                state,
                kept,
            )
        }
        Action::Match(case, arms, other) => {
            let value = compared(alloc, arena, scene, state, case)?;
            let mut rest = run_apart(alloc, arena, scene, other.as_slice(), state)?;
            run_arms(
                alloc,
                arena,
                scene,
                case,
                value,
                arms.as_slice(),
                state,
                &mut rest,
            )?;
            put_all(alloc, arena, scene, state, &rest, kept)
        }
    }
}

// One of two lists of actions, by a condition.
#[cycle(run)]
fn run_choice(
    alloc: Global,
    arena: &mut Arena,
    scene: &Scene,
    condition: &Typed,
    a: &[Action],
    b: &[Action],
    state: &mut State,
    kept: &mut Overlay,
) -> Result<(), AllocError>
    requires scene { IsScene scene.now }
    requires state { IsState scene.now arena.old state.old }
    requires condition { IsSound condition.now }
    requires narrow { Narrow scene.now (names_of condition.now) }
    requires left { All Fits a.now }
    requires right { All Fits b.now }
    requires left_sits { All (Sits scene.now) a.now }
    requires right_sits { All (Sits scene.now) b.now }
    ensures stays { Extends arena.old arena.new }
    ensures state { OnOk result (IsState scene.now arena.new state.new) }
    ensures ran { (x : Action) → x ≡ Choose condition.now a.now b.now → OnOk result (Ran scene.now arena.old arena.new state.old.nodes state.new.nodes (run x) (names x)) }
    ensures kept { OnOk result (over kept.new state.new.nodes ≡ over kept.old state.old.nodes) }
{
    let truth = truth(alloc, arena, scene, state, condition)?;
    let left = run_apart(alloc, arena, scene, a, state)?;
    let right = run_apart(alloc, arena, scene, b, state)?;
    let both = either(
        alloc,
        arena,
        scene,
        truth,
        &left,
        &right,
        state.nodes.as_slice(),
    )?;
    put_all(alloc, arena, scene, state, &both, kept)
}

// What actions lay over a state, which is left as it is.
#[cycle(run)]
fn run_apart(
    alloc: Global,
    arena: &mut Arena,
    scene: &Scene,
    actions: &[Action],
    state: &mut State,
) -> Result<Overlay, AllocError>
    requires scene { IsScene scene.now }
    requires state { IsState scene.now arena.old state.old }
    requires fits { All Fits actions.now }
    requires sits { All (Sits scene.now) actions.now }
    ensures stays { Extends arena.old arena.new }
    ensures state { OnOk result (IsState scene.now arena.new state.new) }
    ensures nodes { OnOk result (state.new.nodes ≡ state.old.nodes) }
    ensures puts { IfOk result (λ puts. AreNodes scene.now arena.new (over puts state.old.nodes)) }
    ensures ran { IfOk result (λ puts. Ran scene.now arena.old arena.new state.old.nodes (over puts state.old.nodes) (run_all actions.now) (names_all actions.now)) }
{
    let mut kept = Overlay::new(alloc);
    run_actions(alloc, arena, scene, actions, state, &mut kept)?;
    let mut puts = Overlay::new(alloc);
    put_all(alloc, arena, scene, state, &kept, &mut puts)?;
    Ok(puts)
}

/// Runs actions one after the other.
#[cycle(run)]
pub fn run_actions(
    alloc: Global,
    arena: &mut Arena,
    scene: &Scene,
    actions: &[Action],
    state: &mut State,
    kept: &mut Overlay,
) -> Result<(), AllocError>
    requires scene { IsScene scene.now }
    requires state { IsState scene.now arena.old state.old }
    requires fits { All Fits actions.now }
    requires sits { All (Sits scene.now) actions.now }
    ensures stays { Extends arena.old arena.new }
    ensures state { OnOk result (IsState scene.now arena.new state.new) }
    ensures ran { OnOk result (Ran scene.now arena.old arena.new state.old.nodes state.new.nodes (run_all actions.now) (names_all actions.now)) }
    ensures kept { OnOk result (over kept.new state.new.nodes ≡ over kept.old state.old.nodes) }
{
    'actions: for action in actions {
        run_action(alloc, arena, scene, action, state, kept)?;
    }
    Ok(())
}

// The arms of a case statement from the last backwards, each from the store at its start, over what is left where none is taken. The
// node of what they compare is the same for all of them.
#[cycle(run)]
fn run_arms(
    alloc: Global,
    arena: &mut Arena,
    scene: &Scene,
    case: &Case,
    value: Node,
    arms: &[Arm],
    state: &mut State,
    rest: &mut Overlay,
) -> Result<(), AllocError>
    requires scene { IsScene scene.now }
    requires state { IsState scene.now arena.old state.old }
    requires rest { AreNodes scene.now arena.old (over rest.old state.old.nodes) }
    requires case { CaseFits case.now }
    requires arms { All (ArmFits case.now) arms.now }
    requires value { Yields scene.now arena.old arena.old state.old.nodes (λ read. worth case.now.value read case.now.width case.now.signed) (names_of case.now.value) case.now.width value }
    requires sits { All (ArmSits scene.now) arms.now }
    ensures stays { Extends arena.old arena.new }
    ensures state { OnOk result (IsState scene.now arena.new state.new) }
    ensures nodes { OnOk result (state.new.nodes ≡ state.old.nodes) }
    ensures rest { OnOk result (AreNodes scene.now arena.new (over rest.new state.old.nodes)) }
    ensures ran { OnOk result (RanArms scene.now arena.old arena.new case.now arms.now state.old.nodes (over rest.old state.old.nodes) (over rest.new state.old.nodes)) }
{
    let mut at = arms.len();
    'arms: while at > 0 {
        at -= 1;
        run_arm(alloc, arena, scene, case, value, &arms[at], state, rest)?;
    }
    Ok(())
}

#[cycle(run)]
fn run_arm(
    alloc: Global,
    arena: &mut Arena,
    scene: &Scene,
    case: &Case,
    value: Node,
    arm: &Arm,
    state: &mut State,
    rest: &mut Overlay,
) -> Result<(), AllocError>
    requires scene { IsScene scene.now }
    requires state { IsState scene.now arena.old state.old }
    requires rest { AreNodes scene.now arena.old (over rest.old state.old.nodes) }
    requires case { CaseFits case.now }
    requires arm { ArmFits case.now arm.now }
    requires value { Yields scene.now arena.old arena.old state.old.nodes (λ read. worth case.now.value read case.now.width case.now.signed) (names_of case.now.value) case.now.width value }
    requires sits { ArmSits scene.now arm.now }
    ensures stays { Extends arena.old arena.new }
    ensures state { OnOk result (IsState scene.now arena.new state.new) }
    ensures nodes { OnOk result (state.new.nodes ≡ state.old.nodes) }
    ensures rest { OnOk result (AreNodes scene.now arena.new (over rest.new state.old.nodes)) }
    ensures ran { OnOk result (RanArm scene.now arena.old arena.new case.now arm.now state.old.nodes (over rest.old state.old.nodes) (over rest.new state.old.nodes)) }
{
    let truth = label_matches(
        alloc,
        arena,
        scene,
        state,
        case,
        value,
        arm.labels.as_slice(),
    )?;
    let taken = run_apart(alloc, arena, scene, arm.body.as_slice(), state)?;
    let both = either(
        alloc,
        arena,
        scene,
        truth,
        &taken,
        rest,
        state.nodes.as_slice(),
    )?;
    *rest = both;
    Ok(())
}
