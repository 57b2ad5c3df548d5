// The design, and the tables of its reset and of its periods. What is said of the end of the reset is said again of the end of each period,
// so both have to sample the same signals there.
ghost use Rattle.std.specs.Prelude.{◌≡◌, ◌≤◌, ◌↔◌, ℕ, suc, All, IsTrue, List, map, None, IfOk, OnOk, IfErr};
ghost use Rattle.std.specs.Option.{option_copied};
ghost use Rattle.flat_net.specs.Flats.{IsFlat};
ghost use Rattle.sv_outside.specs.Outside.{Rose};
ghost use Rattle.sv_outside.specs.declared.refusal.TextErr.TheVariants.{No};
ghost use Rattle.svtv_commands.specs.Courses.{AreLastIn, AreTables, IsUnlike};
ghost use Rattle.svtv_files.specs.Refusals.{LeavesCourse, RefusesCourse, at_first};
ghost use Rattle.svtv_files.specs.Stopping.{Counts, IfUnread, IsOf, Stops};
ghost use Rattle.svtv_periods.specs.Periods.{AreAlike, sampling};

use crate::setup::{Setup, load_setup};
use crate::table::{Loaded, load_table};
use flat_net::Flat;
use std::alloc::Global;
use sv_outside::{Files, Name, TextErr, refusals};
use svtv_files::{Stop, refused_whole};
use svtv_table::{Bound, Sample};

/// A design in its flat form, and two tables that are bound to its wires.
#[derive(Drop)]
pub struct Course {
    pub flat: Flat,
    pub reset: Loaded,
    pub period: Loaded,
}

/// One of two tables.
#[derive(Clone, Copy)]
pub enum Side {
    Reset,
    Period,
}

// Whether a sample is of the last of so many phases.
fn is_last(sample: &Sample, phases: usize) -> bool
    ensures { IsTrue result ↔ (suc sample.now.phase ≡ phases) }
{
    sample.phase < phases && phases - sample.phase == 1
}

// Whether each is.
fn are_last(bound: &Bound) -> bool
    ensures { IsTrue result ↔ AreLastIn bound.now }
{
    let phases = bound.phases;
    bound
        .samples
        .as_slice()
        .iter()
        .all(|sample| is_last(sample, phases))
}

// Whether two samples have one name and signal.
fn is_alike(one: &Sample, other: &Sample) -> bool
    ensures { IsTrue result ↔ (sampling one.now ≡ sampling other.now) }
{
    one.name.bytes() == other.name.bytes() && one.wire == other.wire && one.width == other.width
}

// Whether samples have the same names and signals, in one order.
fn are_alike(ones: &[Sample], others: &[Sample]) -> bool
    ensures { IsTrue result ↔ AreAlike ones.now others.now }
{
    if ones.len() != others.len() {
        return false;
    }
    'samples: for at in 0..ones.len() {
        if !is_alike(&ones[at], &others[at]) {
            return false;
        }
    }
    true
}

// The first of two tables that is refused for what it samples, if one is.
fn first_unlike(reset: &Bound, period: &Bound) -> Option<Side>
    ensures { IsUnlike reset.now period.now result }
{
    if !are_last(reset) {
        Some(Side::Reset)
    } else if !are_last(period) {
        Some(Side::Period)
    } else if !are_alike(reset.samples.as_slice(), period.samples.as_slice()) {
        Some(Side::Period)
    } else {
        None
    }
}

// E46 of a table.
fn sample_unlike(table: &Name) -> Stop
    ensures { IsOf table.now (No (record { number = 46; place = at_first; count = 0 })) result }
{
    refused_whole(table, refusals::SAMPLE_UNLIKE, 0)
}

// The design and both tables, whatever these sample.
fn load_tables<F: Files>(
    alloc: Global,
    files: &mut F,
    design: &Name,
    reset: &Name,
    period: &Name,
    top: Option<&Name>,
) -> Result<Course, Stop>
    ensures tables { IfOk result (AreTables (F.contents files.old) design.now reset.now period.now (option_copied top.entry)) }
    ensures sound { IfOk result (λ x. IsFlat x.flat) }
    ensures stop { IfErr result (Stops (RefusesCourse (F.contents files.old) design.now reset.now period.now (option_copied top.entry)) (LeavesCourse (F.contents files.old) design.now reset.now period.now (option_copied top.entry))) }
    ensures rose { IfErr result (IfUnread (Rose (F.faults files.old) (F.faults files.new))) }
    ensures kept { OnOk result (F.faults files.new ≡ F.faults files.old) }
    ensures counts { IfErr result (λ stop. Counts stop (F.faults files.old) (F.faults files.new)) }
    ensures unchanged { (other : List ℕ) → F.contents files.new other ≡ F.contents files.old other }
    ensures counts_up { F.faults files.old ≤ F.faults files.new }
{
    let Setup { flat, table, bound } = match load_setup(alloc, files, design, reset, top) {
        Ok(setup) => setup,
        Err(stop) => return Err(stop),
    };
    match load_table(alloc, files, period, flat.wires.as_slice()) {
        Ok(period) => Ok(Course {
            flat,
            reset: Loaded { table, bound },
            period,
        }),
        Err(stop) => Err(stop),
    }
}

/// The design and the tables of its reset and of its periods, of the files of these names.
#[tactic(auto, using(crate::proofs::Counting::of_counts))]
pub(crate) fn load_course<F: Files>(
    alloc: Global,
    files: &mut F,
    design: &Name,
    reset: &Name,
    period: &Name,
    top: Option<&Name>,
) -> Result<Course, Stop>
    ensures tables { IfOk result (AreTables (F.contents files.old) design.now reset.now period.now (option_copied top.entry)) }
    ensures alike { IfOk result (λ x. IsUnlike x.reset.bound x.period.bound None) }
    ensures sound { IfOk result (λ x. IsFlat x.flat) }
    ensures stop { IfErr result (Stops (RefusesCourse (F.contents files.old) design.now reset.now period.now (option_copied top.entry)) (LeavesCourse (F.contents files.old) design.now reset.now period.now (option_copied top.entry))) }
    ensures rose { IfErr result (IfUnread (Rose (F.faults files.old) (F.faults files.new))) }
    ensures kept { OnOk result (F.faults files.new ≡ F.faults files.old) }
    ensures counts { IfErr result (λ stop. Counts stop (F.faults files.old) (F.faults files.new)) }
    ensures unchanged { (other : List ℕ) → F.contents files.new other ≡ F.contents files.old other }
    ensures counts_up { F.faults files.old ≤ F.faults files.new }
{
    let course = match load_tables(alloc, files, design, reset, period, top) {
        Ok(course) => course,
        Err(stop) => return Err(stop),
    };
    match first_unlike(&course.reset.bound, &course.period.bound) {
        None => Ok(course),
        Some(Side::Reset) => Err(sample_unlike(reset)),
        Some(Side::Period) => Err(sample_unlike(period)),
    }
}
