//! A simulation: a valuation of the wires in one phase, which settles from X at every bit. A step evaluates the nodes that are given to
//! one net, tells its classes what is given to them, and takes the resolutions. Nets wait for their step in a list: all at first, and then
//! each net that reads what a step changed, at the end where it does not wait yet. A net that does not wait has what is given to it, so
//! where none waits the phase is settled, and what rests costs nothing. Values of nodes are kept from step to step until something that
//! they read changes, so nodes that many nets share are evaluated once for all of them. Only `new` takes memory, so that a run of many
//! phases can not fail.

ghost use Rattle.std.specs.Prelude.{◌≡◌, ◌≢◌, ℕ, ◌+◌, ◌-◌, ◌^◌, ◌<◌, ◌≤◌, min, true, false, List, [], ◌∷◌, length, map, slice_index_or, None, Some, IfOk};
ghost use Rattle.fourvec.specs.declared.Bit.TheVariants.{Unknown};
ghost use Rattle.svex_arena.specs.Arenas.{IsArena};
ghost use Rattle.settling.specs.Events.{event};
ghost use Rattle.driver_resolve.specs.Drivers.{widths_of};
ghost use Rattle.flat_net.specs.Flats.{IsFlat, links_of, given_in, IsLeastSettling};
ghost use Rattle.event_nets.specs.Tables.{store_of, IsValuation};
ghost use Rattle.event_sim.specs.Sims.{now_values, prev_values, stim_values, now_of, prev_of, stim_of, Fits, picked, AllRestBut, AllElseRests};
ghost use Rattle.event_nets.specs.Nets.{nets_of, net_bits};
ghost use Rattle.settling.specs.Least.{Under};
ghost use Rattle.event_sim.specs.Steps.{IsAfter, IsOnTheWay};
ghost use Rattle.flat_net.specs.declared.flat.Flat.{Flat};
ghost use Rattle.lhs_alias.specs.Joined.{all_bits};
ghost use Rattle.lhs_alias.specs.Segs.{bit};

use crate::links::{Links, all_links};
use crate::pass::Work;
use crate::queue::{leave, take_first, wake};
use event_nets::lay::wire_widths;
use event_nets::make::{env_of, tables_of};
use event_nets::nets::low_of;
use event_nets::tables::Tables;
use event_nets::values::{copy_all, hold};
use flat_net::{Flat, Valuation};
use fourvec::Four;
use idx_list::IdxList;
use node_memo::Memo;
use std::alloc::{AllocError, Global};
use svex_arena::Env;

/// The valuation of the wires of a flat design in one phase, and all the memory that it takes to settle it. Some wires may be
/// overridden: what they are set to stands in the stimulus.
pub struct Sim {
    tables: Tables,
    links: Links,
    // the values of the wires: present, previous and stimulus
    env: Env,
    work: Work,
    // nets that wait for their turn, by the places of their lowest bits
    waiting: IdxList,
    // how many steps were taken since the start
    steps: u64,
}

impl Drop for Sim {
    fn drop(self) {
        let Sim {
            tables: _,
            links: _,
            env: _,
            work: _,
            waiting: _,
            steps: _,
        } = self;
    }
}

impl Sim {
    /// Takes all the memory that it takes to settle this flat design where the wires of these numbers are overridden: the value
    /// of such a wire stands in the stimulus, and its classes have that value alone, whatever drives them. A number may stand
    /// there more than once, and one past the wires overrides nothing. The other calls take no memory.
    pub fn new(alloc: Global, flat: &Flat, over: &[usize]) -> Result<Sim, AllocError>
        requires { IsFlat flat.now }
        ensures { IfOk result (λ sim. Fits flat.now over.now sim) }
    {
        let widths = wire_widths(alloc, flat.wires.as_slice())?;
        let mut told = Vec::new(alloc);
        let tables = tables_of(alloc, flat, over, &widths, &mut told)?;
        let links = all_links(alloc, flat, &widths, &tables)?;
        let memo = Memo::new(alloc, &flat.arena)?;
        let waiting = IdxList::new(alloc, told.len())?;
        let env = env_of(alloc, &widths)?;
        Ok(Sim {
            tables,
            links,
            env,
            work: Work { memo, told },
            waiting,
            steps: 0,
        })
    }

    /// How many nets there are: the maximal runs of first bits that are driven or overridden, by wire and lowest bit.
    pub fn nets(&self) -> usize
        ensures { (flat : Flat) (over : List ℕ) → Fits flat over self.now → result ≡ length (nets_of flat over) }
    {
        self.tables.nets.len()
    }

    /// Sets every bit to X, and holds a previous valuation and a stimulus, in which the values of overridden wires stand too. Each net
    /// waits for its step then.
    pub fn start(&mut self, flat: &Flat, prev: &Valuation, stim: &Valuation)
        requires fits { (over : List ℕ) × Fits flat.now over self.old }
        requires prev { IsValuation (widths_of flat.now.wires) prev.now.values }
        requires stim { IsValuation (widths_of flat.now.wires) stim.now.values }
        ensures fits { (over : List ℕ) → Fits flat.now over self.old → Fits flat.now over self.new }
        ensures previous { prev_values self.new ≡ prev.now.values }
        ensures stim { stim_values self.new ≡ stim.now.values }
        ensures unknown { (n k : ℕ) → now_of self.new n k ≡ Unknown }
        ensures after { (over : List ℕ) → IsAfter flat.now over self.new [] }
        ensures steps { self.new.steps ≡ 0 }
        ensures rests { IsFlat flat.now → (over : List ℕ) → Fits flat.now over self.old → AllElseRests flat.now over self.new }
    {
        // For the proof: recalls what the type promises of it.
        let _ = flat;
        hold(&mut self.env, &prev.values, &stim.values);
        self.work.memo.clear();
        wake(&self.tables.nets, &mut self.waiting);
        self.steps = 0;
    }

    // A net takes its turn, whose lowest bit has this place: it has what is given to it then, and those that read what changed wait.
    // Says whether anything changed.
    fn turn(&mut self, flat: &Flat, low: usize) -> bool
        requires flat { IsFlat flat.now }
        requires fits { (over : List ℕ) × Fits flat.now over self.old }
        requires low { low < length (all_bits (widths_of flat.now.wires)) }
        ensures fits { (over : List ℕ) → Fits flat.now over self.old → Fits flat.now over self.new }
        ensures previous { prev_values self.new ≡ prev_values self.old }
        ensures stim { stim_values self.new ≡ stim_values self.old }
        ensures now { (over : List ℕ) → Fits flat.now over self.old → (n k : ℕ) → now_of self.new n k
            ≡ event (links_of flat.now.joins) (given_in flat.now over (stim_of self.old) (prev_of self.old))
            (picked (links_of flat.now.joins) (widths_of flat.now.wires) self.old.tables.lows.items low) (now_of self.old) n k }
        ensures rests { (over : List ℕ) → Fits flat.now over self.old → AllRestBut flat.now over (low ∷ self.old.waiting.items) self.old → AllElseRests flat.now over self.new }
        ensures steps { self.new.steps ≡ min (self.old.steps + 1) (2 ^ 64 - 1) }
        ensures arena { IsArena flat.now.arena }
        ensures same { result ≡ false → now_values self.new ≡ now_values self.old }
        ensures still { result ≡ false → self.new.waiting.items ≡ self.old.waiting.items }
        ensures changed { result ≡ true → now_values self.new ≢ now_values self.old }
    {
        self.steps = self.steps.saturating_add(1);
        let gifts = self.tables.given_to(low);
        self.work.evaluate_net(gifts, &flat.arena, &self.env);
        self.work.tell_net(gifts, &self.env);
        self.work.take_net(
            &self.tables,
            &self.links,
            &flat.arena,
            low,
            &mut self.env,
            &mut self.waiting,
        )
    }

    /// One event: gives a net, and the bits that are joined to it, the resolution of what is given to them.
    pub fn step(&mut self, flat: &Flat, net: usize)
        requires flat { IsFlat flat.now }
        requires net { (over : List ℕ) × Fits flat.now over self.old × (net < length (nets_of flat.now over)) }
        ensures fits { (over : List ℕ) → Fits flat.now over self.old → Fits flat.now over self.new }
        ensures previous { prev_values self.new ≡ prev_values self.old }
        ensures stim { stim_values self.new ≡ stim_values self.old }
        ensures now { (over : List ℕ) → Fits flat.now over self.old → (n k : ℕ) → now_of self.new n k
            ≡ event (links_of flat.now.joins) (given_in flat.now over (stim_of self.old) (prev_of self.old))
            (net_bits flat.now over (slice_index_or (nets_of flat.now over) net (bit 0 0))) (now_of self.old) n k }
        ensures after { (over : List ℕ) (steps : List ℕ) → Fits flat.now over self.old → IsAfter flat.now over self.old steps → IsAfter flat.now over self.new (net ∷ steps) }
        ensures steps { self.new.steps ≡ min (self.old.steps + 1) (2 ^ 64 - 1) }
        ensures rests { (over : List ℕ) → Fits flat.now over self.old → AllElseRests flat.now over self.old → AllElseRests flat.now over self.new }
    {
        let low = low_of(&self.tables.nets, net);
        leave(&mut self.waiting, low);
        let _ = self.turn(flat, low);
    }

    // The nets that wait take their turns, the first one first, until one changes something. Says whether one did; if not, none
    // waits any more.
    fn next_change(&mut self, flat: &Flat) -> bool
        requires flat { IsFlat flat.now }
        requires fits { (over : List ℕ) × Fits flat.now over self.old }
        ensures fits { (over : List ℕ) → Fits flat.now over self.old → Fits flat.now over self.new }
        ensures previous { prev_values self.new ≡ prev_values self.old }
        ensures stim { stim_values self.new ≡ stim_values self.old }
        ensures reached { (over : List ℕ) → Fits flat.now over self.old → IsOnTheWay flat.now over self.old → IsOnTheWay flat.now over self.new }
        ensures rises { (over : List ℕ) → Fits flat.now over self.old → IsOnTheWay flat.now over self.old → Under (now_of self.old) (now_of self.new) }
        ensures rests { (over : List ℕ) → Fits flat.now over self.old → AllElseRests flat.now over self.old → AllElseRests flat.now over self.new }
        ensures arena { IsArena flat.now.arena }
        ensures ended { result ≡ false → self.new.waiting.items ≡ [] }
        ensures changed { result ≡ true → now_values self.new ≢ now_values self.old }
    {
        // For the proof: recalls what the type promises of it.
        let _ = flat.arena.len();
        'turns: while let Some(low) = take_first(&mut self.waiting) {
            if self.turn(flat, low) {
                return true;
            }
        }
        false
    }

    /// Settles a phase: starts, and lets nets take their turns until none waits any more.
    pub fn settle(&mut self, flat: &Flat, prev: &Valuation, stim: &Valuation)
        requires flat { IsFlat flat.now }
        requires fits { (over : List ℕ) × Fits flat.now over self.old }
        requires prev { IsValuation (widths_of flat.now.wires) prev.now.values }
        requires stim { IsValuation (widths_of flat.now.wires) stim.now.values }
        ensures fits { (over : List ℕ) → Fits flat.now over self.old → Fits flat.now over self.new }
        ensures previous { prev_values self.new ≡ prev.now.values }
        ensures stim { stim_values self.new ≡ stim.now.values }
        ensures least { (over : List ℕ) → Fits flat.now over self.old → IsLeastSettling flat.now over (store_of stim.now.values) (store_of prev.now.values) (now_of self.new) }
    {
        self.start(flat, prev, stim);
        'changes: while self.next_change(flat) {}
    }

    /// How many steps were taken since the start, by calls of `step` or in settling; no more than fit into the number.
    pub fn steps(&self) -> u64
        ensures { result ≡ self.now.steps }
    {
        self.steps
    }

    /// The value that a wire has now.
    pub fn now(&self, wire: usize) -> Four
        requires { wire < length (now_values self.now) }
        ensures { result ≡ slice_index_or (now_values self.now) wire [] }
    {
        self.env.present[wire]
    }

    /// Copies the value of every wire.
    pub fn save(&self, into: &mut Valuation)
        requires { length into.old.values ≡ length (now_values self.now) }
        ensures { into.new.values ≡ now_values self.now }
    {
        copy_all(&self.env.present, &mut into.values);
    }
}
