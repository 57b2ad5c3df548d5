// The values of variables.
ghost use Rattle.std.specs.Prelude.{◌≡◌, ◌≤◌, ℕ, List, All, IfOk, OnOk, IfErr, map};
ghost use Rattle.std.specs.List.{IsDistinct};
ghost use Rattle.std.specs.Str.{bytes_eq};
ghost use Rattle.sv_outside.specs.Outside.{Rose};
ghost use Rattle.svtv_table.specs.Binding.{HasWidth};
ghost use Rattle.svtv_table.specs.Names.{name_of};
ghost use Rattle.svtv_files.specs.Files.{IsValuesFile};
ghost use Rattle.svtv_files.specs.Refusals.{RefusesValues, at_first};
ghost use Rattle.svtv_files.specs.Stopping.{Counts, IfUnread, Stops};

use fourvec::Four;
use std::alloc::Global;
use sv_outside::{Files, Name};
use svtv_files::{Stop, read, refused};
use svtv_table::{VarDecl, read_values};

/// The values that the file of that name gives to variables, in their order.
#[tactic(auto, using(crate::proofs::Counting::of_counts))]
pub fn load_values<F: Files>(
    alloc: Global,
    files: &mut F,
    name: &Name,
    vars: &[VarDecl],
) -> Result<Vec<Four>, Stop>
    requires widths { All (λ var. HasWidth var.width) vars.now }
    requires distinct { IsDistinct bytes_eq (map name_of vars.now) }
    ensures values { IfOk result (λ values. IsValuesFile (F.contents files.old) name.now vars.now values.items) }
    ensures stop { IfErr result (Stops (λ file r. (file ≡ name.now) × RefusesValues (F.contents files.old) name.now vars.now r) (λ file place. (file ≡ name.now) × (place ≡ at_first))) }
    ensures rose { IfErr result (IfUnread (Rose (F.faults files.old) (F.faults files.new))) }
    ensures kept { OnOk result (F.faults files.new ≡ F.faults files.old) }
    ensures counts { IfErr result (λ stop. Counts stop (F.faults files.old) (F.faults files.new)) }
    ensures unchanged { (other : List ℕ) → F.contents files.new other ≡ F.contents files.old other }
    ensures counts_up { F.faults files.old ≤ F.faults files.new }
{
    let text = match read(alloc, files, name) {
        Ok(text) => text,
        Err(stop) => return Err(stop),
    };
    match read_values(alloc, &text, vars) {
        Ok(values) => Ok(values),
        Err(error) => Err(refused(name, error)),
    }
}
