// Simulations.
ghost use Rattle.std.specs.Prelude.{◌≡◌, ◌≤◌, ℕ, List, [], All, IfOk, OnOk, IfErr, true, false};
ghost use Rattle.std.specs.Option.{option_copied};
ghost use Rattle.flat_net.specs.Flats.{IsFlat};
ghost use Rattle.sv_elab.specs.Elaborated.{IsElaborated};
ghost use Rattle.sv_meaning.specs.Designs.{Design};
ghost use Rattle.sv_outside.specs.Outside.{Rose};
ghost use Rattle.svtv_commands.specs.Done.{Simulated};
ghost use Rattle.svtv_files.specs.Refusals.{LeavesSimulation, RefusesSimulation};
ghost use Rattle.svtv_files.specs.Stopping.{Counts, IfUnread, Stops};
ghost use Rattle.svtv_report.specs.Shown.{sample_texts};
ghost use Rattle.svtv_report.specs.Texts.{value_lines};
ghost use Rattle.svtv_runs.specs.Runs.{IsLeastRun, Run, asks_of};
ghost use Rattle.svtv_table.specs.Binding.{IsBound};
ghost use Rattle.svtv_texts.specs.Passed.{AreAsWide};
ghost use Rattle.svtv_texts.specs.Phases.{phases_in};
ghost use Rattle.svtv_verdicts.specs.Benches.{sampled_in};
ghost use Rattle.vcd_print.specs.Dumps.{IsDumpOf};
ghost use Rattle.vcd_print.specs.Printed.{HasParts, dump_text};

use crate::setup::{Setup, load_setup};
use crate::values::load_values;
use flat_net::Flat;
use fourvec::Four;
use std::alloc::{AllocError, Global};
use sv_outside::{Files, Name};
use svtv_files::Stop;
use svtv_table::Bound;
use svtv_texts::{dumped, sampled};

// The samples of the least run under a choice, or its value change dump.
fn printed(
    alloc: Global,
    flat: &Flat,
    bound: &Bound,
    choice: &[Four],
    vcd: bool,
) -> Result<Vec<u8>, AllocError>
    requires flat { IsFlat flat.now }
    requires bound { IsBound flat.now.wires bound.now }
    requires choice { AreAsWide bound.now.vars choice.now }
    requires parts { All HasParts flat.now.wires }
    ensures samples { vcd ≡ false → (d : Design) → IsElaborated d flat.now → (r : Run) → IsLeastRun d (asks_of choice.now bound.now) bound.now.phases r
        → IfOk result (λ text. text.items ≡ value_lines [] (sample_texts bound.now.samples) (sampled_in bound.now.samples r)) }
    ensures dump { vcd ≡ true → (d : Design) → IsElaborated d flat.now → (r : Run) → IsLeastRun d (asks_of choice.now bound.now) bound.now.phases r
        → IfOk result (λ text. text.items ≡ dump_text flat.now.wires (phases_in flat.now.wires bound.now.phases r)) }
    ensures stands { vcd ≡ true → (d : Design) → IsElaborated d flat.now → (r : Run) → IsLeastRun d (asks_of choice.now bound.now) bound.now.phases r
        → IfOk result (λ text. IsDumpOf flat.now.wires (phases_in flat.now.wires bound.now.phases r) text.items) }
{
    if vcd {
        dumped(alloc, flat, bound, choice)
    } else {
        sampled(alloc, flat, bound, choice)
    }
}

/// The samples of the least run or, where it is asked for, its value change dump, or why there are none.
#[tactic(auto, using(crate::proofs::Counting::memory_counts))]
pub fn simulate<F: Files>(
    alloc: Global,
    files: &mut F,
    design: &Name,
    table: &Name,
    values: &Name,
    top: Option<&Name>,
    vcd: bool,
) -> Result<Vec<u8>, Stop>
    ensures simulates { IfOk result (λ text. Simulated (F.contents files.old) design.now table.now values.now (option_copied top.entry) vcd text.items) }
    ensures stop { IfErr result (Stops (RefusesSimulation (F.contents files.old) design.now table.now values.now (option_copied top.entry)) (LeavesSimulation (F.contents files.old) design.now table.now values.now (option_copied top.entry))) }
    ensures rose { IfErr result (IfUnread (Rose (F.faults files.old) (F.faults files.new))) }
    ensures kept { OnOk result (F.faults files.new ≡ F.faults files.old) }
    ensures counts { IfErr result (λ stop. Counts stop (F.faults files.old) (F.faults files.new)) }
    ensures unchanged { (other : List ℕ) → F.contents files.new other ≡ F.contents files.old other }
    ensures counts_up { F.faults files.old ≤ F.faults files.new }
{
    let Setup { flat, bound, .. } = match load_setup(alloc, files, design, table, top) {
        Ok(setup) => setup,
        Err(stop) => return Err(stop),
    };
    let choice = match load_values(alloc, files, values, bound.vars.as_slice()) {
        Ok(choice) => choice,
        Err(stop) => return Err(stop),
    };
    match printed(alloc, &flat, &bound, &choice, vcd) {
        Ok(text) => Ok(text),
        Err(_) => Err(Stop::Memory),
    }
}
