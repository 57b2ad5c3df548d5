// The goals.
ghost use Rattle.std.specs.Prelude.{◌≡◌, ◌≤◌, ℕ, List, All, IfOk, OnOk, IfErr};
ghost use Rattle.sv_outside.specs.Outside.{Rose};
ghost use Rattle.svex_arena.specs.Arenas.{Extends};
ghost use Rattle.svtv_table.specs.Binding.{HasWidth};
ghost use Rattle.svtv_commands.specs.Inputs.{AreGoalsIn};
ghost use Rattle.svtv_files.specs.Refusals.{RefusesGoals, at_first};
ghost use Rattle.svtv_files.specs.Stopping.{Counts, IfUnread, Stops};

use goal_text::{Goal, read_goals};
use items::Items;
use std::alloc::Global;
use sv_outside::{Files, Name};
use svex_arena::Arena;
use svtv_files::{Stop, read, refused};
use svtv_table::{Sample, VarDecl};

/// The goals of the file of that name, over variables and samples. Nodes that are there keep their numbers and shapes.
#[tactic(auto, using(crate::proofs::Counting::of_counts))]
pub fn load_goals<F: Files>(
    alloc: Global,
    files: &mut F,
    name: &Name,
    vars: &[VarDecl],
    samples: &[Sample],
    arena: &mut Arena,
) -> Result<Items<Goal>, Stop>
    requires vars { All (λ var. HasWidth var.width) vars.now }
    requires samples { All (λ sample. HasWidth sample.width) samples.now }
    ensures stays { Extends arena.old arena.new }
    ensures goals { IfOk result (AreGoalsIn (F.contents files.old) name.now vars.now samples.now arena.new) }
    ensures stop { IfErr result (Stops (λ file r. (file ≡ name.now) × RefusesGoals (F.contents files.old) name.now vars.now samples.now r) (λ file place. (file ≡ name.now) × (place ≡ at_first))) }
    ensures rose { IfErr result (IfUnread (Rose (F.faults files.old) (F.faults files.new))) }
    ensures kept { OnOk result (F.faults files.new ≡ F.faults files.old) }
    ensures counts { IfErr result (λ stop. Counts stop (F.faults files.old) (F.faults files.new)) }
    ensures unchanged { (other : List ℕ) → F.contents files.new other ≡ F.contents files.old other }
    ensures counts_up { F.faults files.old ≤ F.faults files.new }
{
    let text = match read(alloc, files, name) {
        Ok(text) => text,
        Err(stop) => return Err(stop),
    };
    match read_goals(alloc, 0, &text, vars, samples, arena) {
        Ok(goals) => Ok(goals),
        Err(error) => Err(refused(name, error)),
    }
}
