// What a failure shows. The samples are those of a simulation of the flat design, and not of the nodes of which the verdict speaks: so what is
// printed beside a choice rests on nothing that the verdict rests on.
ghost use Rattle.std.specs.Prelude.{◌≡◌, All, IfOk, map, length};
ghost use Rattle.std.specs.List.{range_with_len};
ghost use Rattle.driver_resolve.specs.Drivers.{widths_of};
ghost use Rattle.event_nets.specs.Tables.{IsValuation, store_of};
ghost use Rattle.flat_net.specs.Flats.{IsFlat};
ghost use Rattle.svtv_invariants.specs.Showing.{AreLeastSamples, AreSamplesFrom};
ghost use Rattle.svtv_least.specs.Running.{AreAsWide, IsOf};
ghost use Rattle.svtv_periods.specs.Invariants.{signals_in};
ghost use Rattle.svtv_table.specs.Binding.{IsBound};

use flat_net::Flat;
use fourvec::Four;
use items::Items;
use std::alloc::{AllocError, Global};
use svtv_least::Runner;
use svtv_table::{Bound, Sample};

/// The samples of the least run under a choice.
pub(crate) fn least_samples(
    alloc: Global,
    flat: &Flat,
    bound: &Bound,
    choice: &[Four],
) -> Result<Items<Four>, AllocError>
    requires flat { IsFlat flat.now }
    requires bound { IsBound flat.now.wires bound.now }
    requires choice { AreAsWide bound.now.vars choice.now }
    ensures { IfOk result (AreLeastSamples flat.now bound.now choice.now) }
{
    let mut runner = Runner::new(alloc, flat, bound)?;
    runner.run(flat, bound, choice);
    let values = runner.samples().to_vec(alloc)?;
    Ok(Items::from_vec(values))
}

/// The samples of the least run that begins with a valuation, under a choice.
pub(crate) fn samples_from(
    alloc: Global,
    flat: &Flat,
    bound: &Bound,
    choice: &[Four],
    state: &[Four],
) -> Result<Items<Four>, AllocError>
    requires flat { IsFlat flat.now }
    requires bound { IsBound flat.now.wires bound.now }
    requires choice { AreAsWide bound.now.vars choice.now }
    requires state { IsValuation (widths_of flat.now.wires) state.now }
    ensures { IfOk result (AreSamplesFrom flat.now bound.now choice.now (store_of state.now)) }
{
    let mut runner = Runner::new(alloc, flat, bound)?;
    runner.run_from(flat, bound, choice, state);
    let values = runner.samples().to_vec(alloc)?;
    Ok(Items::from_vec(values))
}

// What the signal of a sample has.
fn signal(sample: &Sample, state: &[Four]) -> Four
    requires { IsOf (map (λ v. length v) state.now) sample.now }
    ensures { result ≡ map (store_of state.now sample.now.wire) (range_with_len 0 sample.now.width) }
{
    state[sample.wire]
}

/// What the signals of samples have in a valuation.
pub(crate) fn signals(
    alloc: Global,
    samples: &[Sample],
    state: &[Four],
) -> Result<Items<Four>, AllocError>
    requires { All (IsOf (map (λ v. length v) state.now)) samples.now }
    ensures { IfOk result (λ values. values ≡ signals_in samples.now (store_of state.now)) }
{
    let mut values = Items::new(alloc);
    'samples: for sample in samples {
        values.push(signal(sample, state))?;
    }
    Ok(values)
}
