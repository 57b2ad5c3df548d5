// An invariant is decided over nodes, and what is found of nodes is said of the design: the claims' nodes have the truths of their expressions,
// over the samples of a run and over their signals in a valuation. A failure shows what breaks the claims: of the reset the samples of its
// least run; of a period the signals before it, in a valuation in which the claims hold, and the samples behind it.
ghost use Rattle.std.specs.Prelude.{◌≡◌, ◌<◌, ℕ, IfOk, IfSome, List};
ghost use Rattle.driver_resolve.specs.Drivers.{widths_of};
ghost use Rattle.event_nets.specs.Tables.{IsValuation, store_of};
ghost use Rattle.flat_net.specs.Flats.{IsFlat};
ghost use Rattle.fourvec.specs.declared.Bit.{Bit};
ghost use Rattle.goal_tree.specs.declared.tree.GoalTree.{GoalTree};
ghost use Rattle.sv_meaning.specs.Designs.{Design};
ghost use Rattle.svtv_induct.specs.Halves.{AreHalves, IsHalf, IsOf};
ghost use Rattle.svtv_invariants.specs.Deciding.{AreClaimsOf, AreShown, Fits, IsAskedBy, IsDecided, course_over, held_of};
ghost use Rattle.svtv_invariants.specs.Showing.{AreLeastSamples, AreSamplesFrom};
ghost use Rattle.svtv_least.specs.Passed.{IsElaborated};
ghost use Rattle.svtv_least.specs.Running.{AreAsWide};
ghost use Rattle.svtv_periods.specs.Invariants.{signals_in};
ghost use Rattle.svtv_runs.specs.Runs.{Asked};
ghost use Rattle.svtv_table.specs.Binding.{IsBound};

use crate::showing::{least_samples, samples_from, signals};
use flat_net::Flat;
use fourvec::Four;
use items::Items;
use std::alloc::{AllocError, Global};
use svtv_induct::{Half, Inducted, induct};
use svtv_report::Held;
use svtv_table::Bound;

/// What is said of an invariant. Where a period fails `before` has what the signals of the samples have before it, and where anything fails
/// `shown` has the samples behind it.
#[derive(Drop)]
pub struct Decided {
    pub verdict: Held,
    pub before: Items<Four>,
    pub shown: Items<Four>,
}

// A verdict that shows nothing.
fn without_samples(alloc: Global, verdict: Held) -> Decided
    ensures { result.verdict ≡ verdict }
{
    Decided {
        verdict,
        before: Items::new(alloc),
        shown: Items::new(alloc),
    }
}

// The claims are broken by the reset under this choice.
fn base_failed(
    alloc: Global,
    flat: &Flat,
    bound: &Bound,
    choice: Items<Four>,
) -> Result<Decided, AllocError>
    requires flat { IsFlat flat.now }
    requires bound { IsBound flat.now.wires bound.now }
    requires choice { AreAsWide bound.now.vars choice }
    ensures verdict { IfOk result (λ x. x.verdict ≡ Held.BaseFails choice) }
    ensures shown { IfOk result (λ x. AreLeastSamples flat.now bound.now choice x.shown) }
{
    let shown = least_samples(alloc, flat, bound, choice.as_slice())?;
    Ok(Decided {
        verdict: Held::BaseFails(choice),
        before: Items::new(alloc),
        shown,
    })
}

// They are broken by a period from this valuation under this choice.
fn step_failed(
    alloc: Global,
    flat: &Flat,
    bound: &Bound,
    choice: Items<Four>,
    state: &[Four],
) -> Result<Decided, AllocError>
    requires flat { IsFlat flat.now }
    requires bound { IsBound flat.now.wires bound.now }
    requires choice { AreAsWide bound.now.vars choice }
    requires state { IsValuation (widths_of flat.now.wires) state.now }
    ensures verdict { IfOk result (λ x. x.verdict ≡ Held.StepFails choice) }
    ensures before { IfOk result (λ x. x.before ≡ signals_in bound.now.samples (store_of state.now)) }
    ensures shown { IfOk result (λ x. AreSamplesFrom flat.now bound.now choice (store_of state.now) x.shown) }
{
    let before = signals(alloc, bound.samples.as_slice(), state)?;
    let shown = samples_from(alloc, flat, bound, choice.as_slice(), state)?;
    Ok(Decided {
        verdict: Held::StepFails(choice),
        before,
        shown,
    })
}

// What is said for what was found of the nodes.
fn said(
    alloc: Global,
    flat: &Flat,
    reset: &Bound,
    period: &Bound,
    found: Inducted,
) -> Result<Decided, AllocError>
    requires flat { IsFlat flat.now }
    requires reset { IsBound flat.now.wires reset.now }
    requires period { IsBound flat.now.wires period.now }
    requires fits { Fits flat.now reset.now period.now found }
    ensures verdict { IfOk result (λ x. x.verdict ≡ held_of found) }
    ensures shown { IfOk result (AreShown flat.now reset.now period.now found) }
{
    match found {
        Inducted::Invariant => Ok(without_samples(alloc, Held::Invariant)),
        Inducted::BaseFails(choice) => base_failed(alloc, flat, reset, choice),
        Inducted::StepFails { choice, state } => {
            step_failed(alloc, flat, period, choice, state.values.as_slice())
        }
        Inducted::Undecided(_, log) => {
            let steps = log.steps.len() as u64;
            Ok(without_samples(alloc, Held::Undecided(steps)))
        }
    }
}

/// Decides an invariant whose claims are nodes of two halves: whether they hold in the least run of the reset under every choice, and whether
/// the least run of a period keeps them under every choice, from every valuation in which joined bits are equal. Each of the two questions
/// has the whole budget, where there is one.
pub fn decide_invariant(
    alloc: Global,
    flat: &Flat,
    base: &mut Half,
    step: &mut Half,
    at: usize,
    budget: Option<u64>,
) -> Result<Decided, AllocError>
    requires flat { IsFlat flat.now }
    requires base { IsHalf base.old at }
    requires step { IsHalf step.old at }
    requires halves { AreHalves base.old step.old at }
    requires base_of { IsOf flat.now base.old }
    requires step_of { IsOf flat.now step.old }
    requires budget { IfSome budget (λ n. 0 < n) }

    // The verdict is right of the design that the flat one stems from, and of the invariant whose claims' nodes these are, and what is shown is
    // what breaks it.
    ensures right { (d : Design) (reset period : List (List Bit) → Asked) (tree : GoalTree) → IsElaborated d flat.now → IsAskedBy reset base.old.bound → IsAskedBy period step.old.bound
        → AreClaimsOf tree step.old at → IfOk result (IsDecided (course_over d reset period base.old.bound step.old.bound) tree budget) }

    // Both halves are as they were, whatever is answered.
    ensures base_same { base.new ≡ base.old }
    ensures step_same { step.new ≡ step.old }
{
    // For the proof: recalls what the type promises of it.
    let _ = base.fsm.flat.arena.len();
    let _ = step.fsm.flat.arena.len();
    let found = induct(alloc, base, step, at, budget)?;
    said(alloc, flat, &base.bound, &step.bound, found)
}
