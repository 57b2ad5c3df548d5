// The design, the table and the goals. The goals' nodes stand in the graph of the flat design, behind its own.
ghost use Rattle.std.specs.Prelude.{◌≡◌, ◌≤◌, ℕ, List, IfOk, OnOk, IfErr};
ghost use Rattle.std.specs.Option.{option_copied};
ghost use Rattle.sv_outside.specs.Outside.{Rose};
ghost use Rattle.svtv_commands.specs.Inputs.{IsPosed, RefusesPosed};
ghost use Rattle.svtv_files.specs.Refusals.{LeavesProof};
ghost use Rattle.svtv_files.specs.Stopping.{Counts, IfUnread, Stops};

use crate::goals::load_goals;
use crate::setup::{Setup, load_setup};
use flat_net::Flat;
use goal_text::Goal;
use items::Items;
use std::alloc::Global;
use sv_outside::{Files, Name};
use svtv_files::Stop;
use svtv_table::{Bound, Table};

/// A design in its flat form, a table that is bound to its wires, and goals whose nodes stand in the graph of the flat design.
#[derive(Drop)]
pub struct Posed {
    pub flat: Flat,
    pub table: Table,
    pub bound: Bound,
    pub goals: Items<Goal>,
}

/// The design, the table and the goals of the files of these names.
pub(crate) fn load_posed<F: Files>(
    alloc: Global,
    files: &mut F,
    design: &Name,
    table: &Name,
    goals: &Name,
    top: Option<&Name>,
) -> Result<Posed, Stop>
    ensures posed { IfOk result (IsPosed (F.contents files.old) design.now table.now goals.now (option_copied top.entry)) }
    ensures stop { IfErr result (Stops (RefusesPosed (F.contents files.old) design.now table.now goals.now (option_copied top.entry)) (LeavesProof (F.contents files.old) design.now table.now goals.now (option_copied top.entry))) }
    ensures rose { IfErr result (IfUnread (Rose (F.faults files.old) (F.faults files.new))) }
    ensures kept { OnOk result (F.faults files.new ≡ F.faults files.old) }
    ensures counts { IfErr result (λ stop. Counts stop (F.faults files.old) (F.faults files.new)) }
    ensures unchanged { (other : List ℕ) → F.contents files.new other ≡ F.contents files.old other }
    ensures counts_up { F.faults files.old ≤ F.faults files.new }
{
    let Setup { flat, table, bound } = match load_setup(alloc, files, design, table, top) {
        Ok(setup) => setup,
        Err(stop) => return Err(stop),
    };
    let mut flat = flat;
    let goals = match load_goals(
        alloc,
        files,
        goals,
        bound.vars.as_slice(),
        bound.samples.as_slice(),
        &mut flat.arena,
    ) {
        Ok(goals) => goals,
        Err(stop) => return Err(stop),
    };
    // For the proof: recalls what the type promises of it.
    let _ = flat.arena.len();
    Ok(Posed {
        flat,
        table,
        bound,
        goals,
    })
}
