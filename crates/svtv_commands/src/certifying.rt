// One goal certified. Its clauses and the log that refutes them are printed as the judge has accepted them in this call; a goal that has none is
// reported. The goal is looked for when all goals are read, and before the design's machine is made.
ghost use Rattle.std.specs.Prelude.{◌≡◌, ◌≢◌, ◌≤◌, ◌<◌, ℕ, All, Contains, List, IfNone, IfOk, OnOk, IfErr, IfSome};
ghost use Rattle.std.specs.Option.{option_copied};
ghost use Rattle.cnf.specs.Clauses.{AllBelow};
ghost use Rattle.fourvec.specs.declared.Bit.{Bit};
ghost use Rattle.goal_text.specs.Nodes.{IsGoal};
ghost use Rattle.goal_tree.specs.declared.tree.GoalTree.{GoalTree};
ghost use Rattle.lrat_text.specs.Printed.{IsOneLine};
ghost use Rattle.sv_elab.specs.Elaborated.{IsElaborated};
ghost use Rattle.sv_meaning.specs.Designs.{Design};
ghost use Rattle.sv_outside.specs.Outside.{Rose};
ghost use Rattle.sv_outside.specs.declared.refusal.TextErr.TheVariants.{No};
ghost use Rattle.svtv_commands.specs.Done as done;
ghost use Rattle.svtv_commands.specs.Judged.{IsTextOf};
ghost use Rattle.svtv_commands.specs.Machines.{StopsWide};
ghost use Rattle.svtv_texts.specs.Passed.{IsThere, Poses, bench};
ghost use Rattle.svtv_files.specs.Refusals.{LeavesProof, RefusesCert, at_first};
ghost use Rattle.svtv_files.specs.Stopping.{Counts, IfUnread, IsOf, Stops};
ghost use Rattle.svtv_runs.specs.Runs.{Asked};
ghost use Rattle.svtv_table.specs.Binding.{HasWidth, IsBound};
ghost use Rattle.svtv_report.specs.Seen.{verdict_is};
ghost use Rattle.svtv_verdicts.specs.Certs.{HasCert};
ghost use Rattle.svtv_verdicts.specs.Verdicts.{IsRight};

use crate::judging::too_wide;
use crate::posing::{Posed, load_posed};
use flat_net::Flat;
use flat_print::copy_flat;
use goal_text::Goal;
use lrat_text::print_checked;
use std::alloc::{AllocError, Global};
use sv_outside::{Files, Name, TextErr, refusals};
use svtv_files::{Stop, refused_whole};
use svtv_report::{cert_note, goal_report};
use svtv_table::Bound;
use svtv_texts::{Certified, Problem, certify as decide_goal, sample_nodes};

// The goal of that name.
fn goal_named<'a>(goals: &'a [Goal], name: &Name) -> Option<&'a Goal>
    ensures some { IfSome result (λ goal. Contains goals.now goal.now × (goal.now.name ≡ name.now)) }
    ensures none { IfNone result (All (λ goal. goal.name ≢ name.now) goals.now) }
{
    goals.iter().find(|goal| goal.name.bytes() == name.bytes())
}

// E41 of the file of goals.
fn goal_unknown(goals: &Name) -> Stop
    ensures { IsOf goals.now (No (record { number = 41; place = at_first; count = 0 })) result }
{
    refused_whole(goals, refusals::GOAL_UNKNOWN, 0)
}

// Decides a goal whose nodes stand in the graph of the flat design.
fn decided(
    alloc: Global,
    design: &Name,
    flat: Flat,
    bound: &Bound,
    goal: &Goal,
    budget: Option<u64>,
) -> Result<Certified, Stop>
    requires elaborated { (d : Design) × IsElaborated d flat }
    requires bound { IsBound flat.wires bound.now }
    requires widths { All (λ var. HasWidth var.width) bound.now.vars }
    requires there { IsThere flat.arena goal.now }
    requires budget { IfSome budget (λ n. 0 < n) }
    ensures right { (d : Design) (asked : List (List Bit) → Asked) (tree : GoalTree) → Poses d asked flat bound.now → IsGoal bound.now.vars bound.now.samples flat.arena tree goal.now
        → IfOk result (λ x. IsRight (bench d asked bound.now) tree budget (verdict_is x.decided.verdict) x.decided.shown) }
    ensures cert { (d : Design) (asked : List (List Bit) → Asked) (tree : GoalTree) → Poses d asked flat bound.now → IsGoal bound.now.vars bound.now.samples flat.arena tree goal.now
        → IfOk result (λ x. HasCert (bench d asked bound.now) tree (verdict_is x.decided.verdict) x.cert) }
    ensures stop { IfErr result (λ stop. (d : Design) → IsElaborated d flat → StopsWide design.now d stop) }
{
    let copy = match copy_flat(alloc, &flat) {
        Ok(copy) => copy,
        Err(_) => return Err(Stop::Memory),
    };
    let mut svtv = match sample_nodes(alloc, flat, bound) {
        Ok(svtv) => svtv,
        Err(error) => return Err(too_wide(design, error)),
    };
    let problem = Problem {
        flat: &copy,
        bound,
        samples: svtv.samples.as_slice(),
        budget,
    };
    match decide_goal(alloc, &problem, &mut svtv.fsm.flat.arena, goal) {
        Ok(certified) => Ok(certified),
        Err(_) => Err(Stop::Memory),
    }
}

// Whether a goal is certified, and the text of what was found of it.
fn text_of(
    alloc: Global,
    bound: &Bound,
    name: &Name,
    found: &Certified,
) -> Result<(bool, Vec<u8>), AllocError>
    requires name { IsOneLine name.now }
    requires below { IfSome found.now.cert (λ c. AllBelow c.cnf.vars c.cnf.clauses) }
    ensures { IfOk result (λ x. IsTextOf bound.now name.now (verdict_is found.now.decided.verdict) found.now.decided.shown found.now.cert x.0 x.1.items) }
{
    match &found.cert {
        Some(checked) => {
            let note = cert_note(alloc, name, &found.decided.verdict)?;
            let text = print_checked(alloc, &note, checked)?;
            Ok((true, text))
        }
        None => {
            let text = goal_report(
                alloc,
                name,
                &found.decided.verdict,
                bound.vars.as_slice(),
                bound.samples.as_slice(),
                found.decided.shown.as_slice(),
            )?;
            Ok((false, text))
        }
    }
}

/// Whether the goal of that name is certified, and its certificate or its report, or why there is neither.
#[tactic(auto, using(crate::proofs::Counting::of_counts, crate::proofs::Counting::memory_counts))]
pub fn certify<F: Files>(
    alloc: Global,
    files: &mut F,
    design: &Name,
    table: &Name,
    goals: &Name,
    goal: &Name,
    top: Option<&Name>,
    budget: Option<u64>,
) -> Result<(bool, Vec<u8>), Stop>
    requires budget { IfSome budget (λ n. 0 < n) }
    ensures cert { IfOk result (λ x. done.Certified (F.contents files.old) design.now table.now goals.now goal.now (option_copied top.entry) budget x.0 x.1.items) }
    ensures stop { IfErr result (Stops (RefusesCert (F.contents files.old) design.now table.now goals.now goal.now (option_copied top.entry)) (LeavesProof (F.contents files.old) design.now table.now goals.now (option_copied top.entry))) }
    ensures rose { IfErr result (IfUnread (Rose (F.faults files.old) (F.faults files.new))) }
    ensures kept { OnOk result (F.faults files.new ≡ F.faults files.old) }
    ensures counts { IfErr result (λ stop. Counts stop (F.faults files.old) (F.faults files.new)) }
    ensures unchanged { (other : List ℕ) → F.contents files.new other ≡ F.contents files.old other }
    ensures counts_up { F.faults files.old ≤ F.faults files.new }
{
    let Posed {
        flat,
        bound,
        goals: found,
        ..
    } = match load_posed(alloc, files, design, table, goals, top) {
        Ok(posed) => posed,
        Err(stop) => return Err(stop),
    };
    let Some(own) = goal_named(found.as_slice(), goal) else {
        return Err(goal_unknown(goals));
    };
    let certified = match decided(alloc, design, flat, &bound, own, budget) {
        Ok(certified) => certified,
        Err(stop) => return Err(stop),
    };
    match text_of(alloc, &bound, goal, &certified) {
        Ok(pair) => Ok(pair),
        Err(_) => Err(Stop::Memory),
    }
}
