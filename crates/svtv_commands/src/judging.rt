// The goals of a command's files, decided. They are read before the design's machine is made, so their refusals come first, and their nodes
// stand in its graph before those of the machine. The machine takes the flat design; failures are simulated on a copy. What is made of the verdicts, the report of a proof or the line of a self test, is left to the caller.
ghost use Rattle.std.specs.Prelude.{◌≡◌, ◌≤◌, ◌<◌, ℕ, All, List, IfOk, OnOk, IfErr, IfSome, length, map};
ghost use Rattle.std.specs.List.{AllZip};
ghost use Rattle.std.specs.Option.{option_copied};
ghost use Rattle.fourvec.specs.declared.Bit.{Bit};
ghost use Rattle.goal_text.specs.Nodes.{IsGoal};
ghost use Rattle.goal_tree.specs.declared.tree.GoalTree.{GoalTree};
ghost use Rattle.net_equations.specs.declared.group.ComposeErr.{ComposeErr};
ghost use Rattle.sv_elab.specs.Elaborated.{IsElaborated};
ghost use Rattle.sv_meaning.specs.Designs.{Design};
ghost use Rattle.sv_outside.specs.Outside.{Rose};
ghost use Rattle.svtv_commands.specs.Judged.{AreAsLong, IsJudgement};
ghost use Rattle.svtv_commands.specs.Machines.{IsWideStop, StopsWide};
ghost use Rattle.svtv_texts.specs.Passed.{IsThere, Poses, bench};
ghost use Rattle.svtv_files.specs.Refusals.{LeavesProof, RefusesProof};
ghost use Rattle.svtv_files.specs.Stopping.{Counts, IfUnread, Stops};
ghost use Rattle.svtv_runs.specs.Runs.{Asked};
ghost use Rattle.svtv_table.specs.Binding.{HasWidth, IsBound};
ghost use Rattle.svtv_report.specs.Seen.{verdict_is};
ghost use Rattle.svtv_texts.specs.Rights.{AreRight, names_of};

use crate::posing::{Posed, load_posed};
use flat_net::Flat;
use flat_print::copy_flat;
use goal_text::Goal;
use net_equations::ComposeErr;
use std::alloc::Global;
use sv_outside::{Files, Name, refusals};
use svtv_files::{Stop, refused_whole};
use svtv_table::Bound;
use svtv_texts::{Decisions, Problem, decide_all, sample_nodes};

/// E39 of the design, or want of memory.
pub(crate) fn too_wide(design: &Name, error: ComposeErr) -> Stop
    ensures { IsWideStop design.now error result }
{
    let ComposeErr::LoopTooWide(bits) = error else {
        return Stop::Memory;
    };
    refused_whole(design, refusals::LOOP_TOO_WIDE, bits)
}

// Decides goals whose nodes stand in the graph of the flat design.
fn decided(
    alloc: Global,
    design: &Name,
    flat: Flat,
    bound: &Bound,
    goals: &[Goal],
    budget: Option<u64>,
) -> Result<Decisions, Stop>
    requires elaborated { (d : Design) × IsElaborated d flat }
    requires bound { IsBound flat.wires bound.now }
    requires widths { All (λ var. HasWidth var.width) bound.now.vars }
    requires there { All (IsThere flat.arena) goals.now }
    requires budget { IfSome budget (λ n. 0 < n) }
    ensures names { IfOk result (λ x. x.names ≡ names_of goals.now) }
    ensures verdicts { IfOk result (λ x. length x.verdicts ≡ length x.names) }
    ensures shown { IfOk result (λ x. length x.shown ≡ length x.names) }
    ensures right { (d : Design) (asked : List (List Bit) → Asked) (trees : List GoalTree) → Poses d asked flat bound.now
        → AllZip (IsGoal bound.now.vars bound.now.samples flat.arena) trees goals.now
        → IfOk result (λ x. AreRight (bench d asked bound.now) trees budget (map verdict_is x.verdicts) x.shown) }
    ensures stop { IfErr result (λ stop. (d : Design) → IsElaborated d flat → StopsWide design.now d stop) }
{
    let copy = match copy_flat(alloc, &flat) {
        Ok(copy) => copy,
        Err(_) => return Err(Stop::Memory),
    };
    let mut svtv = match sample_nodes(alloc, flat, bound) {
        Ok(svtv) => svtv,
        Err(error) => return Err(too_wide(design, error)),
    };
    let problem = Problem {
        flat: &copy,
        bound,
        samples: svtv.samples.as_slice(),
        budget,
    };
    match decide_all(alloc, &problem, &mut svtv.fsm.flat.arena, goals) {
        Ok(decisions) => Ok(decisions),
        Err(_) => Err(Stop::Memory),
    }
}

/// What was decided of goals, and the bound table that they stand over.
#[derive(Drop)]
pub struct Judgement {
    pub bound: Bound,
    pub decisions: Decisions,
}

/// What is decided of the goals of the files of these names, or why nothing is.
pub(crate) fn judge<F: Files>(
    alloc: Global,
    files: &mut F,
    design: &Name,
    table: &Name,
    goals: &Name,
    top: Option<&Name>,
    budget: Option<u64>,
) -> Result<Judgement, Stop>
    requires budget { IfSome budget (λ n. 0 < n) }
    ensures judges { IfOk result (IsJudgement (F.contents files.old) design.now table.now goals.now (option_copied top.entry) budget) }
    ensures long { IfOk result AreAsLong }
    ensures stop { IfErr result (Stops (RefusesProof (F.contents files.old) design.now table.now goals.now (option_copied top.entry)) (LeavesProof (F.contents files.old) design.now table.now goals.now (option_copied top.entry))) }
    ensures rose { IfErr result (IfUnread (Rose (F.faults files.old) (F.faults files.new))) }
    ensures kept { OnOk result (F.faults files.new ≡ F.faults files.old) }
    ensures counts { IfErr result (λ stop. Counts stop (F.faults files.old) (F.faults files.new)) }
    ensures unchanged { (other : List ℕ) → F.contents files.new other ≡ F.contents files.old other }
    ensures counts_up { F.faults files.old ≤ F.faults files.new }
{
    let Posed {
        flat,
        bound,
        goals: found,
        ..
    } = match load_posed(alloc, files, design, table, goals, top) {
        Ok(posed) => posed,
        Err(stop) => return Err(stop),
    };
    match decided(alloc, design, flat, &bound, found.as_slice(), budget) {
        Ok(decisions) => Ok(Judgement { bound, decisions }),
        Err(stop) => Err(stop),
    }
}
