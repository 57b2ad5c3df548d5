// The least run, one phase after another: each settles over the valuation before it, the least stimulus and the least overriding. A
// run begins with X at every bit, or where it is told to. All room is taken when a runner is made, so a run takes no memory and can
// not fail, however many choices are tried. X at every bit is kept beside, as what valuations begin with, and copied over them.
ghost use Rattle.std.specs.Prelude.{◌≡◌, ℕ, ◌+◌, ◌<◌, List, slice_get, IfOk};
ghost use Rattle.fourvec.specs.declared.Bit.{Bit as ABit};
ghost use Rattle.settling.specs.Settling.{Store};
ghost use Rattle.driver_resolve.specs.Drivers.{widths_of};
ghost use Rattle.flat_net.specs.Flats.{IsFlat};
ghost use Rattle.flat_net.specs.declared.flat.Flat.{Flat as AFlat};
ghost use Rattle.event_sim.specs.Sims.{IsValuation, store_of};
ghost use Rattle.sv_meaning.specs.Designs.{Design};
ghost use Rattle.sv_elab.specs.Elaborated.{IsElaborated};
ghost use Rattle.svtv_table.specs.Binding.{IsBound};
ghost use Rattle.svtv_table.specs.declared.bound.Bound.{Bound as ABound};
ghost use Rattle.svtv_runs.specs.Runs.{IsLeastRun, IsLeastRunFrom, Run, asks_of};
ghost use Rattle.svtv_runs.specs.Truths.{sampled};
ghost use Rattle.svtv_runs.specs.Leasts.{all_unknown};
ghost use Rattle.svtv_least.specs.Running.{AreAsWide, Serves, StandsBehind};

use crate::samples::{blank_values, take_samples};
use crate::settlers::{Plan, planned};
use crate::stimulus::{copy, drive, override_wires, unknowns};
use flat_net::{Flat, Valuation};
use fourvec::Four;
use items::Items;
use std::alloc::{AllocError, Global};
use svtv_table::Bound;

/// What it takes to run a flat design under a table, made once for all choices: all its room is taken at once.
pub struct Runner {
    plan: Plan,
    /// The valuation before the next phase.
    prev: Valuation,
    stim: Valuation,
    /// X at every bit.
    blank: Items<Four>,
    /// The samples of the last run.
    values: Items<Four>,
    /// X at every bit of the samples.
    blank_values: Items<Four>,
}

impl Drop for Runner {
    fn drop(self) {
        let Runner {
            plan: _,
            prev: _,
            stim: _,
            blank: _,
            values: _,
            blank_values: _,
        } = self;
    }
}

impl Runner {
    /// Takes the memory that it takes to settle the design and to hold the samples.
    pub fn new(alloc: Global, flat: &Flat, bound: &Bound) -> Result<Runner, AllocError>
        requires flat { IsFlat flat.now }
        requires bound { IsBound flat.now.wires bound.now }
        ensures { IfOk result (λ runner. Serves flat.now bound.now runner) }
    {
        let plan = planned(alloc, flat, bound)?;
        let prev = unknowns(alloc, flat.wires.as_slice())?;
        let stim = unknowns(alloc, flat.wires.as_slice())?;
        let blank = unknowns(alloc, flat.wires.as_slice())?;
        let values = blank_values(alloc, bound.samples.as_slice())?;
        let no_values = blank_values(alloc, bound.samples.as_slice())?;
        Ok(Runner {
            plan,
            prev: Valuation { values: prev },
            stim: Valuation { values: stim },
            blank,
            values,
            blank_values: no_values,
        })
    }

    /// Before the first phase, with X at every bit.
    pub fn begin(&mut self)
        requires { (flat : AFlat) × (bound : ABound) × Serves flat bound self.old }
        ensures serves { (flat : AFlat) (bound : ABound) → Serves flat bound self.old → Serves flat bound self.new }
        ensures stands { (flat : AFlat) (bound : ABound) → Serves flat bound self.old → (choice : List (List ABit)) → StandsBehind flat bound choice all_unknown 0 self.new }
    {
        copy(self.blank.as_slice(), &mut self.prev.values);
    }

    /// Before the first phase, with these values of the wires.
    pub fn begin_at(&mut self, state: &[Four])
        requires { (flat : AFlat) × (bound : ABound) × Serves flat bound self.old × IsValuation (widths_of flat.wires) state.now }
        ensures serves { (flat : AFlat) (bound : ABound) → Serves flat bound self.old → Serves flat bound self.new }
        ensures stands { (flat : AFlat) (bound : ABound) (choice : List (List ABit)) → StandsBehind flat bound choice (store_of state.now) 0 self.new }
    {
        copy(state, &mut self.prev.values);
    }

    /// One phase: the wires settle over what they have.
    pub fn step(&mut self, flat: &Flat, bound: &Bound, choice: &[Four], phase: usize)
        requires flat { IsFlat flat.now }
        requires bound { IsBound flat.now.wires bound.now }
        requires choice { AreAsWide bound.now.vars choice.now }
        requires phase { phase < bound.now.phases }
        requires serves { Serves flat.now bound.now self.old }
        ensures serves { Serves flat.now bound.now self.new }
        ensures stands { (first : Store) → StandsBehind flat.now bound.now choice.now first phase self.old → StandsBehind flat.now bound.now choice.now first (phase + 1) self.new }
        ensures samples { self.new.values ≡ self.old.values }
    {
        copy(self.blank.as_slice(), &mut self.stim.values);
        drive(
            &mut self.stim.values,
            bound.drives.as_slice(),
            choice,
            phase,
        );
        override_wires(&mut self.stim.values, bound.overs.as_slice(), choice, phase);
        self.plan.settle(flat, phase, &mut self.prev, &self.stim);
    }

    /// What the wires have now, by number.
    pub fn wires(&self) -> &[Four]
        ensures { result.now ≡ self.now.prev.values }
    {
        self.prev.values.as_slice()
    }

    // All phases, from where the wires stand before the first. Their samples are kept.
    fn run_phases(&mut self, flat: &Flat, bound: &Bound, choice: &[Four])
        requires flat { IsFlat flat.now }
        requires bound { IsBound flat.now.wires bound.now }
        requires choice { AreAsWide bound.now.vars choice.now }
        requires serves { Serves flat.now bound.now self.old }
        ensures serves { Serves flat.now bound.now self.new }
        ensures least { (first : Store) → StandsBehind flat.now bound.now choice.now first 0 self.old
            → (d : Design) → IsElaborated d flat.now → (r : Run) → IsLeastRunFrom d (asks_of choice.now bound.now) bound.now.phases first r
            → (n k : ℕ) → store_of self.new.values n k ≡ sampled r (slice_get bound.now.samples n) k }
    {
        copy(self.blank_values.as_slice(), &mut self.values);
        'phases: for phase in 0..bound.phases {
            self.step(flat, bound, choice, phase);
            take_samples(
                bound.samples.as_slice(),
                phase,
                self.prev.values.as_slice(),
                &mut self.values,
            );
        }
    }

    /// The least run under a choice, of which the samples are kept.
    pub fn run(&mut self, flat: &Flat, bound: &Bound, choice: &[Four])
        requires flat { IsFlat flat.now }
        requires bound { IsBound flat.now.wires bound.now }
        requires choice { AreAsWide bound.now.vars choice.now }
        requires serves { Serves flat.now bound.now self.old }
        ensures serves { Serves flat.now bound.now self.new }
        ensures least { (d : Design) → IsElaborated d flat.now → (r : Run) → IsLeastRun d (asks_of choice.now bound.now) bound.now.phases r
            → (n k : ℕ) → store_of self.new.values n k ≡ sampled r (slice_get bound.now.samples n) k }
    {
        self.begin();
        self.run_phases(flat, bound, choice);
    }

    /// The least run under a choice that begins with these values of the wires, of which the samples are kept.
    pub fn run_from(&mut self, flat: &Flat, bound: &Bound, choice: &[Four], state: &[Four])
        requires flat { IsFlat flat.now }
        requires bound { IsBound flat.now.wires bound.now }
        requires choice { AreAsWide bound.now.vars choice.now }
        requires state { IsValuation (widths_of flat.now.wires) state.now }
        requires serves { Serves flat.now bound.now self.old }
        ensures serves { Serves flat.now bound.now self.new }
        ensures least { (d : Design) → IsElaborated d flat.now → (r : Run) → IsLeastRunFrom d (asks_of choice.now bound.now) bound.now.phases (store_of state.now) r
            → (n k : ℕ) → store_of self.new.values n k ≡ sampled r (slice_get bound.now.samples n) k }
    {
        self.begin_at(state);
        self.run_phases(flat, bound, choice);
    }

    /// The samples of the last run, in their order.
    pub fn samples(&self) -> &[Four]
        ensures { result.now ≡ self.now.values }
    {
        self.values.as_slice()
    }
}
