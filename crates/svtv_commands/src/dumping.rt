// Dumps.
ghost use Rattle.std.specs.Prelude.{◌≡◌, ◌≤◌, ℕ, List, IfOk, OnOk, IfErr};
ghost use Rattle.std.specs.Option.{option_copied};
ghost use Rattle.sv_outside.specs.Outside.{Rose};
ghost use Rattle.svtv_commands.specs.Done.{Dumps};
ghost use Rattle.svtv_files.specs.Refusals.{RefusesDesign, UnreadDesign};
ghost use Rattle.svtv_files.specs.Stopping.{Counts, IfUnread, Stops};

use crate::design::load_design;
use flat_print::print_flat;
use std::alloc::Global;
use sv_outside::{Files, Name};
use svtv_files::Stop;

/// The text of the design's flat form, or why there is none.
#[tactic(auto, using(crate::proofs::Counting::memory_counts))]
pub fn dump<F: Files>(
    alloc: Global,
    files: &mut F,
    design: &Name,
    top: Option<&Name>,
) -> Result<Vec<u8>, Stop>
    ensures dumps { IfOk result (λ text. Dumps (F.contents files.old) design.now (option_copied top.entry) text.items) }
    ensures stop { IfErr result (Stops (RefusesDesign (F.contents files.old) design.now (option_copied top.entry)) (UnreadDesign (F.contents files.old) design.now)) }
    ensures rose { IfErr result (IfUnread (Rose (F.faults files.old) (F.faults files.new))) }
    ensures kept { OnOk result (F.faults files.new ≡ F.faults files.old) }
    ensures counts { IfErr result (λ stop. Counts stop (F.faults files.old) (F.faults files.new)) }
    ensures unchanged { (other : List ℕ) → F.contents files.new other ≡ F.contents files.old other }
    ensures counts_up { F.faults files.old ≤ F.faults files.new }
{
    let flat = match load_design(alloc, files, design, top) {
        Ok(flat) => flat,
        Err(stop) => return Err(stop),
    };
    match print_flat(alloc, &flat) {
        Ok(text) => Ok(text),
        Err(_) => Err(Stop::Memory),
    }
}
