// Invariants of a design that is reset under one table and then goes through the periods of another. They are read before the design's
// machines are made, so their refusals come first, and their claims stand in its graph before those of the machines.
ghost use Rattle.std.specs.Prelude.{◌≡◌, ◌≤◌, ◌<◌, ◌↔◌, ℕ, All, IsTrue, List, Option, IfOk, OnOk, IfErr, IfSome};
ghost use Rattle.std.specs.Option.{option_copied};
ghost use Rattle.sv_elab.specs.Elaborated.{IsElaborated};
ghost use Rattle.sv_meaning.specs.Designs.{Design};
ghost use Rattle.sv_outside.specs.Outside.{Rose};
ghost use Rattle.sv_outside.specs.declared.refusal.TextErr.TheVariants.{No};
ghost use Rattle.svtv_commands.specs.Courses.{AreAsked, HasNoHyps, IsInduction, IsOfFiles};
ghost use Rattle.svtv_commands.specs.Done.{Inducts};
ghost use Rattle.svtv_commands.specs.Machines.{StopsWide};
ghost use Rattle.svtv_files.specs.Files.{Text as AText, Told};
ghost use Rattle.svtv_files.specs.Refusals.{LeavesInduction, RefusesInduction, at_first};
ghost use Rattle.svtv_files.specs.Stopping.{Counts, IfUnread, IsOf, Stops};

use crate::course::{Course, load_course};
use crate::goals::load_goals;
use crate::judging::too_wide;
use crate::table::Loaded;
use flat_net::Flat;
use goal_text::Goal;
use items::Items;
use std::alloc::Global;
use sv_outside::{Files, Name, TextErr, refusals};
use svtv_files::{Stop, refused_whole};
use svtv_invariants::{Halves, decide_all, halves_of, reported};

/// A design in its flat form, the tables of its reset and of its periods, and goals whose nodes stand in the graph of the flat design.
#[derive(Drop)]
pub struct Induction {
    pub flat: Flat,
    pub reset: Loaded,
    pub period: Loaded,
    pub goals: Items<Goal>,
}

// Whether no goal has a hypothesis.
fn have_no_hyps(goals: &[Goal]) -> bool
    ensures { IsTrue result ↔ All HasNoHyps goals.now }
{
    goals.iter().all(|goal| goal.hyps.is_empty())
}

// E45 of the file of invariants.
fn invariant_hyp(invariants: &Name) -> Stop
    ensures { IsOf invariants.now (No (record { number = 45; place = at_first; count = 0 })) result }
{
    refused_whole(invariants, refusals::INVARIANT_HYP, 0)
}

// The design, both tables and the goals of the files of these names, with hypotheses or without.
fn load_asked<F: Files>(
    alloc: Global,
    files: &mut F,
    design: &Name,
    reset: &Name,
    period: &Name,
    invariants: &Name,
    top: Option<&Name>,
) -> Result<Induction, Stop>
    ensures asked { IfOk result (AreAsked (F.contents files.old) design.now reset.now period.now invariants.now (option_copied top.entry)) }
    ensures stop { IfErr result (Stops (RefusesInduction (F.contents files.old) design.now reset.now period.now invariants.now (option_copied top.entry)) (LeavesInduction (F.contents files.old) design.now reset.now period.now invariants.now (option_copied top.entry))) }
    ensures rose { IfErr result (IfUnread (Rose (F.faults files.old) (F.faults files.new))) }
    ensures kept { OnOk result (F.faults files.new ≡ F.faults files.old) }
    ensures counts { IfErr result (λ stop. Counts stop (F.faults files.old) (F.faults files.new)) }
    ensures unchanged { (other : List ℕ) → F.contents files.new other ≡ F.contents files.old other }
    ensures counts_up { F.faults files.old ≤ F.faults files.new }
{
    let Course {
        flat,
        reset,
        period,
    } = match load_course(alloc, files, design, reset, period, top) {
        Ok(course) => course,
        Err(stop) => return Err(stop),
    };
    let mut flat = flat;
    let goals = match load_goals(
        alloc,
        files,
        invariants,
        &[],
        period.bound.samples.as_slice(),
        &mut flat.arena,
    ) {
        Ok(goals) => goals,
        Err(stop) => return Err(stop),
    };
    // For the proof: recalls what the type promises of it.
    let _ = flat.arena.len();
    Ok(Induction {
        flat,
        reset,
        period,
        goals,
    })
}

// The design, both tables and the invariants of the files of these names.
#[tactic(auto, using(crate::proofs::Counting::of_counts))]
fn load_induction<F: Files>(
    alloc: Global,
    files: &mut F,
    design: &Name,
    reset: &Name,
    period: &Name,
    invariants: &Name,
    top: Option<&Name>,
) -> Result<Induction, Stop>
    ensures posed { IfOk result (IsInduction (F.contents files.old) design.now reset.now period.now invariants.now (option_copied top.entry)) }
    ensures stop { IfErr result (Stops (RefusesInduction (F.contents files.old) design.now reset.now period.now invariants.now (option_copied top.entry)) (LeavesInduction (F.contents files.old) design.now reset.now period.now invariants.now (option_copied top.entry))) }
    ensures rose { IfErr result (IfUnread (Rose (F.faults files.old) (F.faults files.new))) }
    ensures kept { OnOk result (F.faults files.new ≡ F.faults files.old) }
    ensures counts { IfErr result (λ stop. Counts stop (F.faults files.old) (F.faults files.new)) }
    ensures unchanged { (other : List ℕ) → F.contents files.new other ≡ F.contents files.old other }
    ensures counts_up { F.faults files.old ≤ F.faults files.new }
{
    let induction = match load_asked(alloc, files, design, reset, period, invariants, top) {
        Ok(induction) => induction,
        Err(stop) => return Err(stop),
    };
    if have_no_hyps(induction.goals.as_slice()) {
        Ok(induction)
    } else {
        Err(invariant_hyp(invariants))
    }
}

// Whether all goals are invariants, and the report.
fn decided(
    alloc: Global,
    design: &Name,
    induction: Induction,
    budget: Option<u64>,
) -> Result<(bool, Vec<u8>), Stop>
    requires files { IsOfFiles induction }
    requires budget { IfSome budget (λ n. 0 < n) }
    ensures inducts { (told : Told) (d a b g : AText) (top : Option AText) → IsInduction told d a b g top induction → IfOk result (λ x. Inducts told d a b g top budget x.0 x.1.items) }
    ensures stop { IfErr result (λ stop. (d : Design) → IsElaborated d induction.flat → StopsWide design.now d stop) }
{
    let Induction {
        flat,
        reset,
        period,
        goals,
    } = induction;
    let Loaded { bound: reset, .. } = reset;
    let Loaded { bound: period, .. } = period;
    let Halves { base, step } = match halves_of(alloc, &flat, reset, period, goals.as_slice()) {
        Ok(halves) => halves,
        Err(error) => return Err(too_wide(design, error)),
    };
    let mut base = base;
    let mut step = step;
    let found = match decide_all(alloc, &flat, &mut base, &mut step, goals.as_slice(), budget) {
        Ok(found) => found,
        Err(_) => return Err(Stop::Memory),
    };
    match reported(alloc, &base.bound, &step.bound, &found) {
        Ok(pair) => Ok(pair),
        Err(_) => Err(Stop::Memory),
    }
}

/// Whether the goals of a file are all invariants of a design, through its reset and any number of its periods, and the report, or why there
/// is none.
#[tactic(auto, using(crate::proofs::Counting::memory_counts))]
pub fn induct<F: Files>(
    alloc: Global,
    files: &mut F,
    design: &Name,
    reset: &Name,
    period: &Name,
    invariants: &Name,
    top: Option<&Name>,
    budget: Option<u64>,
) -> Result<(bool, Vec<u8>), Stop>
    requires budget { IfSome budget (λ n. 0 < n) }
    ensures inducts { IfOk result (λ x. Inducts (F.contents files.old) design.now reset.now period.now invariants.now (option_copied top.entry) budget x.0 x.1.items) }
    ensures stop { IfErr result (Stops (RefusesInduction (F.contents files.old) design.now reset.now period.now invariants.now (option_copied top.entry)) (LeavesInduction (F.contents files.old) design.now reset.now period.now invariants.now (option_copied top.entry))) }
    ensures rose { IfErr result (IfUnread (Rose (F.faults files.old) (F.faults files.new))) }
    ensures kept { OnOk result (F.faults files.new ≡ F.faults files.old) }
    ensures counts { IfErr result (λ stop. Counts stop (F.faults files.old) (F.faults files.new)) }
    ensures unchanged { (other : List ℕ) → F.contents files.new other ≡ F.contents files.old other }
    ensures counts_up { F.faults files.old ≤ F.faults files.new }
{
    let induction = match load_induction(alloc, files, design, reset, period, invariants, top) {
        Ok(induction) => induction,
        Err(stop) => return Err(stop),
    };
    decided(alloc, design, induction, budget)
}
