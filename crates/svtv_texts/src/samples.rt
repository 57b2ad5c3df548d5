// The samples of a simulation.
ghost use Rattle.std.specs.Prelude.{◌≡◌, [], IfOk};
ghost use Rattle.flat_net.specs.Flats.{IsFlat};
ghost use Rattle.svtv_decide.specs.Passed.{IsElaborated};
ghost use Rattle.sv_meaning.specs.Designs.{Design};
ghost use Rattle.svtv_decide.specs.Passed.{AreAsWide};
ghost use Rattle.svtv_report.specs.Shown.{sample_texts};
ghost use Rattle.svtv_report.specs.Texts.{value_lines};
ghost use Rattle.svtv_runs.specs.Runs.{IsLeastRun, Run, asks_of};
ghost use Rattle.svtv_table.specs.Binding.{IsBound};
ghost use Rattle.svtv_verdicts.specs.Benches.{sampled_in};

use flat_net::Flat;
use fourvec::Four;
use std::alloc::{AllocError, Global};
use svtv_decide::Runner;
use svtv_report::samples_text;
use svtv_table::Bound;

/// The text of the samples of the least run under a choice.
pub fn sampled(
    alloc: Global,
    flat: &Flat,
    bound: &Bound,
    choice: &[Four],
) -> Result<Vec<u8>, AllocError>
    requires flat { IsFlat flat.now }
    requires bound { IsBound flat.now.wires bound.now }
    requires choice { AreAsWide bound.now.vars choice.now }
    ensures { (d : Design) → IsElaborated d flat.now → (r : Run) → IsLeastRun d (asks_of choice.now bound.now) bound.now.phases r
        → IfOk result (λ text. text.items ≡ value_lines [] (sample_texts bound.now.samples) (sampled_in bound.now.samples r)) }
{
    let mut runner = Runner::new(alloc, flat, bound)?;
    runner.run(flat, bound, choice);
    let text = samples_text(alloc, bound.samples.as_slice(), runner.samples())?;
    Ok(text)
}
