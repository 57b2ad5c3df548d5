// The verdict of an invariant: the base is asked first, since a failure of it says more.
ghost use Rattle.std.specs.Prelude.{◌≡◌, ◌<◌, ℕ, IfOk, IfSome};
ghost use Rattle.flat_net.specs.declared.flat.Flat.{Flat};
ghost use Rattle.sv_meaning.specs.Designs.{Design};
ghost use Rattle.svtv_least.specs.Passed.{IsElaborated};
ghost use Rattle.svtv_induct.specs.Halves.{AreHalves, IsHalf, IsOf};
ghost use Rattle.svtv_induct.specs.declared.half.Half.{Half};
ghost use Rattle.svtv_induct.specs.Inducting.{HasVectors, IsRight, IsStepRight};

use crate::asking::{ask_base, ask_step};
use crate::half::{Half, Inducted};
use crate::shown::failed_step;
use goal_prove::{Answer, Cert};
use std::alloc::{AllocError, Global};

fn undecided(cert: Cert) -> Inducted
    ensures { result ≡ Inducted.Undecided cert.cnf cert.log }
{
    let (cnf, log) = cert.into_parts();
    Inducted::Undecided(cnf, log)
}

// The verdict where the base holds.
fn step_verdict(
    alloc: Global,
    step: &mut Half,
    at: usize,
    budget: Option<u64>,
) -> Result<Inducted, AllocError>
    requires step { IsHalf step.old at }
    requires budget { IfSome budget (λ n. 0 < n) }
    ensures right { IfOk result (λ verdict. (d : Design) (flat : Flat) → IsElaborated d flat → IsOf flat step.old → IsStepRight d step.old at budget verdict) }
    ensures vectors { IfOk result (λ verdict. (base : Half) → HasVectors base step.old verdict) }
    ensures same { step.new ≡ step.old }
{
    match ask_step(alloc, step, at, budget)? {
        Answer::Found(choice) => failed_step(alloc, step, at, choice.as_slice()),
        Answer::Never(_) => Ok(Inducted::Invariant),
        Answer::Spent(cert) => Ok(undecided(cert)),
    }
}

/// Whether the claims of a number are an invariant: true in the least run of the reset under every choice, and kept by the least run of a
/// period from every valuation in which joined bits are equal and the claims are true, under every choice. A failure shows what breaks them.
/// Where a budget is given a question may be left once as many new clauses were learned.
pub fn induct(
    alloc: Global,
    base: &mut Half,
    step: &mut Half,
    at: usize,
    budget: Option<u64>,
) -> Result<Inducted, AllocError>
    requires base { IsHalf base.old at }
    requires step { IsHalf step.old at }
    requires halves { AreHalves base.old step.old at }
    requires budget { IfSome budget (λ n. 0 < n) }

    // The verdict is right of each design whose flat designs have these machines.
    ensures right { IfOk result (λ verdict. (d : Design) (flat other : Flat) → IsElaborated d flat → IsElaborated d other → IsOf flat base.old → IsOf other step.old → IsRight d base.old step.old at budget verdict) }

    // Whatever the design, a failure has vectors as wide as variables and wires.
    ensures vectors { IfOk result (HasVectors base.old step.old) }

    // Both halves are as they were, whatever is answered.
    ensures base_same { base.new ≡ base.old }
    ensures step_same { step.new ≡ step.old }
{
    match ask_base(alloc, base, at, budget)? {
        Answer::Found(choice) => Ok(Inducted::BaseFails(choice)),
        Answer::Never(_) => step_verdict(alloc, step, at, budget),
        Answer::Spent(cert) => Ok(undecided(cert)),
    }
}
