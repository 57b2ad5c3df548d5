// The two questions. Each is asked over nodes that are made for it and cut off again behind it, so that the halves are as they were whatever
// comes.
ghost use Rattle.std.specs.Prelude.{◌≡◌, ◌<◌, ℕ, IfOk, IfSome};
ghost use Rattle.flat_net.specs.declared.flat.Flat.{Flat};
ghost use Rattle.sv_meaning.specs.Designs.{Design};
ghost use Rattle.svtv_least.specs.Passed.{IsElaborated};
ghost use Rattle.svtv_induct.specs.Halves.{IsHalf, IsOf};
ghost use Rattle.svtv_induct.specs.Inducting.{IsBaseBy, IsChosen, IsHalfGrown, IsStepBy};
ghost use Rattle.svtv_induct.specs.States.{with_vars};

use crate::half::Half;
use crate::signals::{claims_of, hypotheses};
use crate::state::state_row;
use crate::wider::wider;
use goal_prove::{Answer, ask_broken};
use std::alloc::{AllocError, Global};
use svtv_table::Bound;
use svtv_unroll::{unroll_from, unroll_in};

// Whether some choice breaks the claims over the samples of the reset's least run.
fn base_answer(
    alloc: Global,
    half: &mut Half,
    at: usize,
    budget: Option<u64>,
) -> Result<Answer, AllocError>
    requires half { IsHalf half.old at }
    requires budget { IfSome budget (λ n. 0 < n) }
    ensures answer { IfOk result (λ a. (d : Design) (flat : Flat) → IsElaborated d flat → IsOf flat half.old → IsBaseBy d half.old at budget a) }
    ensures chosen { IfOk result (IsChosen half.old.bound.vars) }
    ensures grown { IsHalfGrown half.old half.new }
{
    // For the proof: recalls what the type promises of it.
    let _ = half.fsm.flat.arena.len();
    let samples = unroll_in(alloc, &mut half.fsm, &half.bound)?;
    // For the proof: recalls what the type promises of it.
    let _ = half.fsm.flat.arena.len();
    ask_broken(
        alloc,
        &mut half.fsm.flat.arena,
        half.bound.vars.as_slice(),
        samples.as_slice(),
        &[],
        claims_of(half.claims.as_slice(), at),
        budget,
    )
}

// Whether some choice, also of what stands for the wires before the first phase, meets the claims there and breaks them over the samples of
// the period's least run.
fn step_answer(
    alloc: Global,
    half: &mut Half,
    bound: &Bound,
    at: usize,
    budget: Option<u64>,
) -> Result<Answer, AllocError>
    requires half { IsHalf half.old at }
    requires wider { bound.now ≡ with_vars half.old.bound half.old.fsm.flat.wires }
    requires budget { IfSome budget (λ n. 0 < n) }
    ensures answer { IfOk result (λ a. (d : Design) (flat : Flat) → IsElaborated d flat → IsOf flat half.old → IsStepBy d half.old at budget a) }
    ensures chosen { IfOk result (IsChosen (with_vars half.old.bound half.old.fsm.flat.wires).vars) }
    ensures grown { IsHalfGrown half.old half.new }
{
    // For the proof: recalls what the type promises of it.
    let _ = half.fsm.flat.arena.len();
    let vars = bound.vars.as_slice();
    let start = state_row(
        &mut half.fsm.flat.arena,
        alloc,
        vars,
        half.bound.vars.len(),
        half.fsm.flat.wires.as_slice(),
        half.firsts.as_slice(),
    )?;
    let samples = unroll_from(alloc, &mut half.fsm, bound, &start)?;
    let claims = claims_of(half.claims.as_slice(), at);
    let arena = &mut half.fsm.flat.arena;
    // For the proof: recalls what the type promises of it.
    let _ = arena.len();
    let hyps = hypotheses(alloc, arena, bound.samples.as_slice(), &start, claims)?;
    let samples = samples.as_slice();
    ask_broken(alloc, arena, vars, samples, &hyps, claims, budget)
}

/// Whether some choice of the reset's variables breaks the claims in its least run.
pub(crate) fn ask_base(
    alloc: Global,
    half: &mut Half,
    at: usize,
    budget: Option<u64>,
) -> Result<Answer, AllocError>
    requires half { IsHalf half.old at }
    requires budget { IfSome budget (λ n. 0 < n) }
    ensures answer { IfOk result (λ a. (d : Design) (flat : Flat) → IsElaborated d flat → IsOf flat half.old → IsBaseBy d half.old at budget a) }
    ensures chosen { IfOk result (IsChosen half.old.bound.vars) }
    ensures same { half.new ≡ half.old }
{
    let len = half.fsm.flat.arena.len();
    let answer = base_answer(alloc, half, at, budget);
    half.fsm.flat.arena.cut(len);
    answer
}

/// Whether some choice of the period's variables and some valuation in which the claims hold break them in the least run of a period. What
/// is found has two vectors more for each wire.
pub(crate) fn ask_step(
    alloc: Global,
    half: &mut Half,
    at: usize,
    budget: Option<u64>,
) -> Result<Answer, AllocError>
    requires half { IsHalf half.old at }
    requires budget { IfSome budget (λ n. 0 < n) }
    ensures answer { IfOk result (λ a. (d : Design) (flat : Flat) → IsElaborated d flat → IsOf flat half.old → IsStepBy d half.old at budget a) }
    ensures chosen { IfOk result (IsChosen (with_vars half.old.bound half.old.fsm.flat.wires).vars) }
    ensures same { half.new ≡ half.old }
{
    let bound = wider(alloc, &half.bound, half.fsm.flat.wires.as_slice())?;
    let len = half.fsm.flat.arena.len();
    let answer = step_answer(alloc, half, &bound, at, budget);
    half.fsm.flat.arena.cut(len);
    answer
}
