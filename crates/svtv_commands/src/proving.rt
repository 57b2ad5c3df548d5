// Proofs.
ghost use Rattle.std.specs.Prelude.{◌≡◌, ◌≤◌, ◌<◌, ℕ, List, IfOk, OnOk, IfErr, IfSome};
ghost use Rattle.std.specs.Option.{option_copied};
ghost use Rattle.sv_outside.specs.Outside.{Rose};
ghost use Rattle.svtv_commands.specs.Done.{Proves};
ghost use Rattle.svtv_files.specs.Refusals.{LeavesProof, RefusesProof};
ghost use Rattle.svtv_files.specs.Stopping.{Counts, IfUnread, Stops};

use crate::judging::judge;
use std::alloc::Global;
use sv_outside::{Files, Name};
use svtv_files::Stop;
use svtv_texts::reported;

/// Whether all goals are proved, and the report, or why there is none.
#[tactic(auto, using(crate::proofs::Counting::memory_counts))]
pub fn prove<F: Files>(
    alloc: Global,
    files: &mut F,
    design: &Name,
    table: &Name,
    goals: &Name,
    top: Option<&Name>,
    budget: Option<u64>,
) -> Result<(bool, Vec<u8>), Stop>
    requires budget { IfSome budget (λ n. 0 < n) }
    ensures proves { IfOk result (λ x. Proves (F.contents files.old) design.now table.now goals.now (option_copied top.entry) budget x.0 x.1.items) }
    ensures stop { IfErr result (Stops (RefusesProof (F.contents files.old) design.now table.now goals.now (option_copied top.entry)) (LeavesProof (F.contents files.old) design.now table.now goals.now (option_copied top.entry))) }
    ensures rose { IfErr result (IfUnread (Rose (F.faults files.old) (F.faults files.new))) }
    ensures kept { OnOk result (F.faults files.new ≡ F.faults files.old) }
    ensures counts { IfErr result (λ stop. Counts stop (F.faults files.old) (F.faults files.new)) }
    ensures unchanged { (other : List ℕ) → F.contents files.new other ≡ F.contents files.old other }
    ensures counts_up { F.faults files.old ≤ F.faults files.new }
{
    let judgement = match judge(alloc, files, design, table, goals, top, budget) {
        Ok(judgement) => judgement,
        Err(stop) => return Err(stop),
    };
    match reported(alloc, &judgement.bound, &judgement.decisions) {
        Ok(pair) => Ok(pair),
        Err(_) => Err(Stop::Memory),
    }
}
