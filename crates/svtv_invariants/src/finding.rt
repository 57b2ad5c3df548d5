// Invariants decided in order, and the report. All are decided over one pair of halves, which are after each as they were before it.
// Verdicts and what they show are gathered in lists of equal length and printed afterwards, so that what is found is a plain datum of which
// contracts speak, and the text is made of it.
ghost use Rattle.std.specs.Prelude.{◌≡◌, ◌<◌, ◌++◌, List, [], ◌∷◌, IfOk, IfSome, OnOk, length, map};
ghost use Rattle.std.specs.List.{AllZip, list_all};
ghost use Rattle.flat_net.specs.Flats.{IsFlat};
ghost use Rattle.fourvec.specs.declared.Bit.{Bit};
ghost use Rattle.goal_text.specs.Nodes.{IsGoal};
ghost use Rattle.goal_tree.specs.declared.tree.GoalTree.{GoalTree};
ghost use Rattle.sv_meaning.specs.Designs.{Design};
ghost use Rattle.svtv_invariants.specs.Deciding.{IsAskedBy, course_over};
ghost use Rattle.svtv_invariants.specs.Finding.{AreAsLong, AreDecided, IsOneMore, names_over};
ghost use Rattle.svtv_invariants.specs.Halving.{AreHalvesOf};
ghost use Rattle.svtv_least.specs.Passed.{IsElaborated};
ghost use Rattle.svtv_report.specs.Invariants as t;
ghost use Rattle.svtv_runs.specs.Runs.{Asked};

use crate::deciding::{Decided, decide_invariant};
use flat_net::Flat;
use fourvec::Four;
use goal_text::Goal;
use items::Items;
use std::alloc::{AllocError, Global};
use sv_outside::Name;
use svtv_induct::Half;
use svtv_report::{Columns, Held, invariants_text};
use svtv_table::Bound;

/// What is found of invariants: of each its name, its verdict and what this shows.
#[derive(Drop)]
pub struct Findings {
    pub names: Items<Name>,
    pub verdicts: Items<Held>,
    pub before: Items<Items<Four>>,
    pub shown: Items<Items<Four>>,
}

// One more.
fn keep(found: &mut Findings, name: &Name, decided: Decided) -> Result<(), AllocError>
    ensures { OnOk result (IsOneMore found.old name.now decided found.new) }
{
    let Decided {
        verdict,
        before,
        shown,
    } = decided;
    found.names.push(name.copy()?)?;
    found.verdicts.push(verdict)?;
    found.before.push(before)?;
    found.shown.push(shown)
}

/// Decides invariants, in order, whose claims stand in two halves.
pub fn decide_all(
    alloc: Global,
    flat: &Flat,
    base: &mut Half,
    step: &mut Half,
    goals: &[Goal],
    budget: Option<u64>,
) -> Result<Findings, AllocError>
    requires flat { IsFlat flat.now }
    requires halves { AreHalvesOf flat.now goals.now base.old step.old }
    requires budget { IfSome budget (λ n. 0 < n) }
    ensures names { IfOk result (λ x. x.names ≡ map (λ g. g.name) goals.now) }
    ensures long { IfOk result AreAsLong }
    ensures right { (d : Design) (reset period : List (List Bit) → Asked) (trees : List GoalTree) → IsElaborated d flat.now → IsAskedBy reset base.old.bound → IsAskedBy period step.old.bound
        → AllZip (IsGoal [] step.old.bound.samples flat.now.arena) trees goals.now → IfOk result (AreDecided (course_over d reset period base.old.bound step.old.bound) trees budget) }
    ensures base_same { base.new ≡ base.old }
    ensures step_same { step.new ≡ step.old }
{
    let mut found = Findings {
        names: Items::new(alloc),
        verdicts: Items::new(alloc),
        before: Items::new(alloc),
        shown: Items::new(alloc),
    };
    'invariants: for at in 0..goals.len() {
        let decided = decide_invariant(alloc, flat, base, step, at, budget)?;
        keep(&mut found, &goals[at].name, decided)?;
    }
    Ok(found)
}

fn is_invariant(verdict: &Held) -> bool
    ensures { result ≡ t.is_invariant verdict.now }
{
    match verdict {
        Held::Invariant => true,
        Held::BaseFails(_) | Held::StepFails(_) | Held::Undecided(_) => false,
    }
}

fn all_invariants(verdicts: &[Held]) -> bool
    ensures { result ≡ list_all (λ v. t.is_invariant v) verdicts.now }
{
    verdicts.iter().all(|verdict| is_invariant(verdict))
}

/// Whether all are invariants, and the report of what is found of them, under the two tables.
pub fn reported(
    alloc: Global,
    reset: &Bound,
    period: &Bound,
    found: &Findings,
) -> Result<(bool, Vec<u8>), AllocError>
    requires { AreAsLong found.now }
    ensures printed { IfOk result (λ x. x.1.items ≡ t.invariants_text (names_over reset.now period.now) found.now.names found.now.verdicts found.now.before found.now.shown) }
    ensures whole { IfOk result (λ x. x.0 ≡ list_all (λ v. t.is_invariant v) found.now.verdicts) }
{
    let columns = Columns {
        resets: reset.vars.as_slice(),
        periods: period.vars.as_slice(),
        samples: period.samples.as_slice(),
    };
    let text = invariants_text(
        alloc,
        columns,
        found.names.as_slice(),
        found.verdicts.as_slice(),
        found.before.as_slice(),
        found.shown.as_slice(),
    )?;
    Ok((all_invariants(found.verdicts.as_slice()), text))
}
