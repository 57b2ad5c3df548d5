// The table, over the wires of the design.
ghost use Rattle.std.specs.Prelude.{◌≡◌, ◌≤◌, ℕ, List, All, IfOk, OnOk, IfErr};
ghost use Rattle.sv_outside.specs.Outside.{Rose};
ghost use Rattle.svtv_table.specs.Binding as binding;
ghost use Rattle.svtv_table.specs.Binding.{HasWidth};
ghost use Rattle.svtv_table.specs.Faults as faults;
ghost use Rattle.svtv_files.specs.Files.{IsTableFile};
ghost use Rattle.svtv_files.specs.Refusals.{RefusesTable, at_first};
ghost use Rattle.svtv_files.specs.Stopping.{Counts, IfUnread, Stops};

use std::alloc::Global;
use sv_outside::{Files, Name, Signal};
use svtv_files::{Stop, read, refused};
use svtv_table::{Bound, Table, bind, read_table};

/// A table, and what it says of the wires of a design.
#[derive(Drop)]
pub struct Loaded {
    pub table: Table,
    pub bound: Bound,
}

/// The table that the file of that name is, over these wires.
#[tactic(auto, using(crate::proofs::Counting::of_counts))]
pub fn load_table<F: Files>(
    alloc: Global,
    files: &mut F,
    name: &Name,
    wires: &[Signal],
) -> Result<Loaded, Stop>
    requires { All (λ wire. HasWidth wire.width) wires.now }
    ensures table { IfOk result (λ x. IsTableFile (F.contents files.old) name.now wires.now x.table) }
    ensures bound { IfOk result (λ x. x.bound ≡ binding.bound_of wires.now x.table) }
    ensures stop { IfErr result (Stops (λ file r. (file ≡ name.now) × RefusesTable (F.contents files.old) name.now wires.now r) (λ file place. (file ≡ name.now) × (place ≡ at_first))) }
    ensures rose { IfErr result (IfUnread (Rose (F.faults files.old) (F.faults files.new))) }
    ensures kept { OnOk result (F.faults files.new ≡ F.faults files.old) }
    ensures counts { IfErr result (λ stop. Counts stop (F.faults files.old) (F.faults files.new)) }
    ensures unchanged { (other : List ℕ) → F.contents files.new other ≡ F.contents files.old other }
    ensures counts_up { F.faults files.old ≤ F.faults files.new }
{
    let text = match read(alloc, files, name) {
        Ok(text) => text,
        Err(stop) => return Err(stop),
    };
    let table = match read_table(alloc, &text) {
        Ok(table) => table,
        Err(error) => return Err(refused(name, error)),
    };
    match bind(alloc, &table, wires) {
        Ok(bound) => Ok(Loaded { table, bound }),
        Err(error) => Err(refused(name, error)),
    }
}
