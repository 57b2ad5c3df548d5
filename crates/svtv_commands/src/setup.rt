// The design and the table.
ghost use Rattle.std.specs.Prelude.{◌≡◌, ◌≤◌, ℕ, List, IfOk, OnOk, IfErr};
ghost use Rattle.std.specs.Option.{option_copied};
ghost use Rattle.flat_net.specs.Flats.{IsFlat};
ghost use Rattle.sv_outside.specs.Outside.{Rose};
ghost use Rattle.svtv_commands.specs.Inputs.{Stands};
ghost use Rattle.svtv_files.specs.Refusals.{LeavesSetup, RefusesSetup};
ghost use Rattle.svtv_files.specs.Stopping.{Counts, IfUnread, Stops};

use crate::design::load_design;
use crate::table::{Loaded, load_table};
use flat_net::Flat;
use std::alloc::Global;
use sv_outside::{Files, Name};
use svtv_files::Stop;
use svtv_table::{Bound, Table};

/// A design in its flat form, and a table that is bound to its wires.
#[derive(Drop)]
pub struct Setup {
    pub flat: Flat,
    pub table: Table,
    pub bound: Bound,
}

/// The design and the table of the files of these names.
pub fn load_setup<F: Files>(
    alloc: Global,
    files: &mut F,
    design: &Name,
    table: &Name,
    top: Option<&Name>,
) -> Result<Setup, Stop>
    ensures stands { IfOk result (Stands (F.contents files.old) design.now table.now (option_copied top.entry)) }
    ensures sound { IfOk result (λ x. IsFlat x.flat) }
    ensures stop { IfErr result (Stops (RefusesSetup (F.contents files.old) design.now table.now (option_copied top.entry)) (LeavesSetup (F.contents files.old) design.now table.now (option_copied top.entry))) }
    ensures rose { IfErr result (IfUnread (Rose (F.faults files.old) (F.faults files.new))) }
    ensures kept { OnOk result (F.faults files.new ≡ F.faults files.old) }
    ensures counts { IfErr result (λ stop. Counts stop (F.faults files.old) (F.faults files.new)) }
    ensures unchanged { (other : List ℕ) → F.contents files.new other ≡ F.contents files.old other }
    ensures counts_up { F.faults files.old ≤ F.faults files.new }
{
    let flat = match load_design(alloc, files, design, top) {
        Ok(flat) => flat,
        Err(stop) => return Err(stop),
    };
    match load_table(alloc, files, table, flat.wires.as_slice()) {
        Ok(Loaded { table, bound }) => Ok(Setup { flat, table, bound }),
        Err(stop) => Err(stop),
    }
}
