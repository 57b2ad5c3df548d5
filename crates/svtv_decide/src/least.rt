// The samples of one choice.
ghost use Rattle.std.specs.Prelude.{IfOk};
ghost use Rattle.flat_net.specs.Flats.{IsFlat};
ghost use Rattle.svtv_decide.specs.Posing.{AreShown};
ghost use Rattle.svtv_least.specs.Running.{AreAsWide};
ghost use Rattle.svtv_table.specs.Binding.{IsBound};

use flat_net::Flat;
use fourvec::Four;
use items::Items;
use std::alloc::{AllocError, Global};
use svtv_least::Runner;
use svtv_table::Bound;

/// The samples of the least run under a choice, by simulation.
pub(crate) fn least_samples(
    alloc: Global,
    flat: &Flat,
    bound: &Bound,
    choice: &[Four],
) -> Result<Items<Four>, AllocError>
    requires flat { IsFlat flat.now }
    requires bound { IsBound flat.now.wires bound.now }
    requires choice { AreAsWide bound.now.vars choice.now }
    ensures { IfOk result (λ shown. AreShown flat.now bound.now choice.now shown) }
{
    let mut runner = Runner::new(alloc, flat, bound)?;
    runner.run(flat, bound, choice);
    let values = runner.samples().to_vec(alloc)?;
    Ok(Items::from_vec(values))
}
