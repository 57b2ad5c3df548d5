// The samples of a phase.
ghost use Rattle.std.specs.Prelude.{◌≡◌, ℕ, ◌<◌, [], length, map, slice_get, slice_index_or, All, IfOk};
ghost use Rattle.fourvec.specs.declared.Bit.TheVariants.{Unknown};
ghost use Rattle.event_sim.specs.Sims.{store_of};
ghost use Rattle.svtv_table.specs.Binding.{HasWidth};
ghost use Rattle.svtv_least.specs.Running.{IsOf, sample_widths, taken, taken_of};

use crate::stimulus::unknown;
use fourvec::Four;
use items::Items;
use std::alloc::{AllocError, Global};
use svtv_table::Sample;

/// X at every bit of all samples.
pub(crate) fn blank_values(alloc: Global, samples: &[Sample]) -> Result<Items<Four>, AllocError>
    requires { All (λ sample. HasWidth sample.width) samples.now }
    ensures widths { IfOk result (λ values. map (λ v. length v) values ≡ sample_widths samples.now) }
    ensures unknown { IfOk result (λ values. (n k : ℕ) → store_of values n k ≡ Unknown) }
{
    let mut values = Items::new(alloc);
    'samples: for sample in samples {
        values.push(unknown(sample.width))?;
    }
    Ok(values)
}

// One sample, where it is of this phase.
fn take_sample(sample: &Sample, at: usize, phase: usize, now: &[Four], values: &mut Items<Four>)
    requires at { at < length values.old }
    requires wire { sample.now.wire < length now.now }
    requires width { length (slice_index_or values.old at []) ≡ length (slice_index_or now.now sample.now.wire []) }
    ensures widths { map (λ v. length v) values.new ≡ map (λ v. length v) values.old }
    ensures same { (n k : ℕ) → (n ≡ at → ⊥) → store_of values.new n k ≡ store_of values.old n k }
    ensures taken { (k : ℕ) → store_of values.new at k ≡ taken sample.now phase (store_of now.now) (store_of values.old) at k }
{
    if sample.phase != phase {
        return;
    }
    let wire = sample.wire;
    values.set(at, now[wire]);
}

/// The samples of a phase, whose values wires have now. Those of other phases stay.
pub(crate) fn take_samples(samples: &[Sample], phase: usize, now: &[Four], values: &mut Items<Four>)
    requires widths { map (λ v. length v) values.old ≡ sample_widths samples.now }
    requires are_of { All (IsOf (map (λ v. length v) now.now)) samples.now }
    ensures widths { map (λ v. length v) values.new ≡ map (λ v. length v) values.old }
    ensures taken { (n k : ℕ) → store_of values.new n k ≡ taken_of (slice_get samples.now n) phase (store_of now.now) (store_of values.old) n k }
{
    'samples: for at in 0..samples.len() {
        take_sample(&samples[at], at, phase, now, values);
    }
}
