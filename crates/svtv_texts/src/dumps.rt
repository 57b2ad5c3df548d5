// The value change dump of a simulation. Beside its text no more is held at a time than the values of two phases.
ghost use Rattle.std.specs.Prelude.{◌≡◌, [], All, IfOk, OnOk};
ghost use Rattle.flat_net.specs.Flats.{IsFlat};
ghost use Rattle.sv_meaning.specs.Designs.{Design};
ghost use Rattle.svtv_decide.specs.Passed.{AreAsWide, IsElaborated, Serves};
ghost use Rattle.svtv_runs.specs.Runs.{IsLeastRun, Run, asks_of};
ghost use Rattle.svtv_table.specs.Binding.{IsBound};
ghost use Rattle.svtv_texts.specs.Phases.{phases_in};
ghost use Rattle.vcd_print.specs.Dumps.{IsDump, IsDumpOf};
ghost use Rattle.vcd_print.specs.Printed.{HasParts, dump_text};

use flat_net::Flat;
use fourvec::Four;
use std::alloc::{AllocError, Global};
use svtv_decide::Runner;
use svtv_table::Bound;
use vcd_print::Dump;

// Puts the phases of the least run under a choice to a dump that has none yet.
fn put_phases(
    alloc: Global,
    flat: &Flat,
    bound: &Bound,
    choice: &[Four],
    runner: &mut Runner,
    dump: &mut Dump,
) -> Result<(), AllocError>
    requires flat { IsFlat flat.now }
    requires bound { IsBound flat.now.wires bound.now }
    requires choice { AreAsWide bound.now.vars choice.now }
    requires serves { Serves flat.now bound.now runner.old }
    requires dump { IsDump flat.now.wires [] dump.old }
    ensures { (d : Design) → IsElaborated d flat.now → (r : Run) → IsLeastRun d (asks_of choice.now bound.now) bound.now.phases r
        → OnOk result (IsDump flat.now.wires (phases_in flat.now.wires bound.now.phases r) dump.new) }
{
    let mut before = Vec::with_capacity(alloc, flat.wires.len())?;
    runner.begin();
    'phases: for phase in 0..bound.phases {
        runner.step(flat, bound, choice, phase);
        let values = runner.wires();
        dump.phase(&before, values)?;
        before.clear();
        before.extend_from_slice(values)?;
    }
    Ok(())
}

/// The value change dump of all wires in the least run under a choice.
pub fn dumped(
    alloc: Global,
    flat: &Flat,
    bound: &Bound,
    choice: &[Four],
) -> Result<Vec<u8>, AllocError>
    requires flat { IsFlat flat.now }
    requires bound { IsBound flat.now.wires bound.now }
    requires choice { AreAsWide bound.now.vars choice.now }
    requires parts { All HasParts flat.now.wires }
    ensures text { (d : Design) → IsElaborated d flat.now → (r : Run) → IsLeastRun d (asks_of choice.now bound.now) bound.now.phases r
        → IfOk result (λ text. text.items ≡ dump_text flat.now.wires (phases_in flat.now.wires bound.now.phases r)) }
    ensures stands { (d : Design) → IsElaborated d flat.now → (r : Run) → IsLeastRun d (asks_of choice.now bound.now) bound.now.phases r
        → IfOk result (λ text. IsDumpOf flat.now.wires (phases_in flat.now.wires bound.now.phases r) text.items) }
{
    let mut runner = Runner::new(alloc, flat, bound)?;
    let mut dump = Dump::new(alloc, flat.wires.as_slice())?;
    put_phases(alloc, flat, bound, choice, &mut runner, &mut dump)?;
    Ok(dump.into_text())
}
