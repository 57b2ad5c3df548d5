// The sets of wires that a table overrides: few, so one is found by going through them.
ghost use Rattle.std.specs.Prelude.{◌≢◌, ◌↔◌, ℕ, ◌<◌, All, AllPairs, Contains, IsTrue, IfOk, OnOk};
ghost use Rattle.svtv_unroll.specs.Unrolled.{HasSet};
ghost use Rattle.svtv_machine.specs.Sets.{HasMore, IsOfPhase, AreByFirstPhase};

use items::Items;
use std::alloc::{AllocError, Global};
use svtv_table::{Bound, over_at};

// Whether a set is among others.
fn has_set(sets: &[Items<usize>], over: &[usize]) -> bool
    ensures { IsTrue result ↔ Contains sets.now over.now }
{
    sets.iter().any(|set| set.as_slice() == over)
}

// A set more, where it is not among them.
fn add_set(sets: &mut Items<Items<usize>>, over: Items<usize>) -> Result<(), AllocError>
    ensures { OnOk result (HasMore sets.old over sets.new) }
{
    if has_set(sets.as_slice(), over.as_slice()) {
        return Ok(());
    }
    sets.push(over)
}

/// The wires that are overridden in each phase; phases in which the same ones are have one set, which stands where the first of them comes.
pub(crate) fn sets_of(alloc: Global, bound: &Bound) -> Result<Items<Items<usize>>, AllocError>
    ensures all { IfOk result (λ sets. (phase : ℕ) → phase < bound.now.phases → HasSet sets bound.now.overs phase) }
    ensures once { IfOk result (AllPairs ◌≢◌) }
    ensures only { IfOk result (All (IsOfPhase bound.now.overs bound.now.phases)) }
    ensures order { IfOk result (AreByFirstPhase bound.now.overs bound.now.phases) }
{
    let mut sets = Items::new(alloc);
    'phases: for phase in 0..bound.phases {
        let over = over_at(alloc, bound, phase)?;
        add_set(&mut sets, over)?;
    }
    Ok(sets)
}
