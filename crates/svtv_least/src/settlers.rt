// What settles the phases of a table. A simulation is made for the wires that are overridden, and phases that override the same
// wires share one. All are made beforehand, so that no phase takes memory.
ghost use Rattle.std.specs.Prelude.{◌≡◌, ℕ, ◌+◌, ◌<◌, List, [], length, map, Option, IfNone, IfOk, IfSome};
ghost use Rattle.driver_resolve.specs.Drivers.{widths_of};
ghost use Rattle.flat_net.specs.Flats.{IsFlat, IsLeastSettling};
ghost use Rattle.event_sim.specs.Sims.{IsValuation, store_of};
ghost use Rattle.svtv_table.specs.declared.bound.Drive.{Drive};
ghost use Rattle.svtv_least.specs.Running.{HaveOwnWires, AreFit, AreSet, IsFound, IsPlan, LacksSettler, over_of};

use event_sim::Sim;
use flat_net::{Flat, Valuation};
use items::Items;
use std::alloc::{AllocError, Global};
use svtv_table::{Bound, over_at};

/// A simulation of a flat design in which some wires are overridden.
pub(crate) struct Settler {
    over: Items<usize>,
    sim: Sim,
}

impl Drop for Settler {
    fn drop(self) {
        let Settler { over: _, sim: _ } = self;
    }
}

/// For each phase of a table, what settles it.
pub(crate) struct Plan {
    settlers: Vec<Settler>,
    /// The place of the settler of each phase.
    of_phase: Vec<usize>,
}

impl Drop for Plan {
    fn drop(self) {
        let Plan {
            settlers: _,
            of_phase: _,
        } = self;
    }
}

impl Plan {
    // The place of a settler of these wires, if there is one.
    fn place_of(&self, over: &[usize]) -> Option<usize>
        ensures there { IfSome result (λ place. place < length self.now.settlers.items) }
        ensures wires { IfSome result (λ place. over_of self.now.settlers.items place ≡ over.now) }
        ensures none { IfNone result (LacksSettler self.now.settlers.items over.now) }
    {
        'settlers: for place in 0..self.settlers.len() {
            if self.settlers[place].over.as_slice() == over {
                return Some(place);
            }
        }
        None
    }

    // Makes a settler of these wires, of which there is none yet, and tells its place.
    fn add_settler(
        &mut self,
        alloc: Global,
        flat: &Flat,
        over: Items<usize>,
    ) -> Result<usize, AllocError>
        requires flat { IsFlat flat.now }
        requires fit { AreFit flat.now self.old.settlers.items }
        requires apart { HaveOwnWires self.old.settlers.items }
        requires none { LacksSettler self.old.settlers.items over }
        ensures fit { IfOk result (λ place. AreFit flat.now self.new.settlers.items) }
        ensures apart { IfOk result (λ place. HaveOwnWires self.new.settlers.items) }
        ensures found { IfOk result (IsFound self.old.settlers.items self.new.settlers.items over) }
        ensures of_phase { self.new.of_phase ≡ self.old.of_phase }
    {
        let place = self.settlers.len();
        let sim = Sim::new(alloc, flat, over.as_slice())?;
        self.settlers.push(Settler { over, sim })?;
        Ok(place)
    }

    // The place of a settler of these wires, which is made where there is none yet.
    fn settler_of(
        &mut self,
        alloc: Global,
        flat: &Flat,
        over: Items<usize>,
    ) -> Result<usize, AllocError>
        requires flat { IsFlat flat.now }
        requires fit { AreFit flat.now self.old.settlers.items }
        requires apart { HaveOwnWires self.old.settlers.items }
        ensures fit { IfOk result (λ place. AreFit flat.now self.new.settlers.items) }
        ensures apart { IfOk result (λ place. HaveOwnWires self.new.settlers.items) }
        ensures found { IfOk result (IsFound self.old.settlers.items self.new.settlers.items over) }
        ensures of_phase { self.new.of_phase ≡ self.old.of_phase }
    {
        match self.place_of(over.as_slice()) {
            Some(place) => Ok(place),
            None => self.add_settler(alloc, flat, over),
        }
    }

    // The plan of one phase more.
    fn add_phase(
        &mut self,
        alloc: Global,
        flat: &Flat,
        bound: &Bound,
        phase: usize,
    ) -> Result<(), AllocError>
        requires flat { IsFlat flat.now }
        requires plan { IsPlan flat.now bound.now.overs self.old phase }
        ensures { IfOk result (λ done. IsPlan flat.now bound.now.overs self.new (phase + 1)) }
    {
        let over = over_at(alloc, bound, phase)?;
        let place = self.settler_of(alloc, flat, over)?;
        self.of_phase.push(place)?;
        Ok(())
    }

    /// Settles a phase over the valuation before it, and leaves its own in the place of that.
    pub(crate) fn settle(
        &mut self,
        flat: &Flat,
        phase: usize,
        prev: &mut Valuation,
        stim: &Valuation,
    )
        requires flat { IsFlat flat.now }
        requires plan { (overs : List (ℕ × List (Option Drive))) × (phases : ℕ) × (phase < phases) × IsPlan flat.now overs self.old phases }
        requires prev { IsValuation (widths_of flat.now.wires) prev.old.values }
        requires stim { IsValuation (widths_of flat.now.wires) stim.now.values }
        ensures plan { (overs : List (ℕ × List (Option Drive))) (phases : ℕ) → IsPlan flat.now overs self.old phases → IsPlan flat.now overs self.new phases }
        ensures prev { IsValuation (widths_of flat.now.wires) prev.new.values }
        ensures least { (overs : List (ℕ × List (Option Drive))) (phases : ℕ) (over : List ℕ) → IsPlan flat.now overs self.old phases → phase < phases → AreSet over overs phase
            → IsLeastSettling flat.now over (store_of stim.now.values) (store_of prev.old.values) (store_of prev.new.values) }
    {
        let place = self.of_phase[phase];
        let settler = &mut self.settlers[place];
        settler.sim.settle(flat, prev, stim);
        settler.sim.save(prev);
    }
}

/// What settles the phases of a table. Takes the memory of a simulation for each set of wires that some phase overrides.
pub(crate) fn planned(alloc: Global, flat: &Flat, bound: &Bound) -> Result<Plan, AllocError>
    requires { IsFlat flat.now }
    ensures { IfOk result (λ plan. IsPlan flat.now bound.now.overs plan bound.now.phases) }
{
    let mut plan = Plan {
        settlers: Vec::new(alloc),
        of_phase: Vec::new(alloc),
    };
    'phases: for phase in 0..bound.phases {
        plan.add_phase(alloc, flat, bound, phase)?;
    }
    Ok(plan)
}
