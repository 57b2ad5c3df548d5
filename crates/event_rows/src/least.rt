//! Least runs of a table over a flat design. `table` has the records of a table of one variable, as the tool reads them. `run` has in each
//! row the choice of the variable and the samples, by record and then by phase: `01 => 10 xx 01`. Each row is judged twice, by a runner and by
//! the unrolled table.

ghost use Rattle.std.specs.Prelude.{All, IfOk, IfSome};
ghost use Rattle.flat_net.specs.Flats.{IsFlat};
ghost use Rattle.svtv_least.specs.Running.{AreAsWide, Serves};
ghost use Rattle.svtv_table.specs.Binding.{HasWidth, IsBound};

use crate::design::{empty, put_design};
use crate::settled::told;
use crate::sound::is_sound;
use crate::unrolled::{put_samples, unrolled};
use case_exprs::{digits, put_vectors};
use case_rows::{Fault, Report, put, rows_of, sides};
use flat_net::Flat;
use flat_print::copy_flat;
use fourvec::Four;
use std::alloc::Global;
use sv_outside::{Signal, TextErr};
use svtv_least::Runner;
use svtv_table::{Bound, bind, read_table};
use svtv_unroll::Svtv;

fn fault_of(error: TextErr) -> Fault {
    match error {
        TextErr::No(_) => Fault::Form,
        TextErr::Memory => Fault::Memory,
    }
}

// The records of a block, as the text of a table.
fn put_table(text: &mut Vec<u8>, block: &[u8]) -> Result<(), Fault> {
    for line in block.split(|c| *c == b'\n') {
        if let Some(row) = rows_of(line) {
            put(text, row)?;
            text.push(b'\n')?;
        }
    }
    Ok(())
}

fn bound_of(alloc: Global, text: &[u8], wires: &[Signal]) -> Result<Bound, Fault>
    requires { All (λ wire. HasWidth wire.width) wires.now }
    ensures { IfOk result (IsBound wires.now) }
{
    let table = match read_table(alloc, text) {
        Ok(table) => table,
        Err(error) => return Err(fault_of(error)),
    };
    match bind(alloc, &table, wires) {
        Ok(bound) => Ok(bound),
        Err(error) => Err(fault_of(error)),
    }
}

// The value of the one variable, where it is as wide as that.
fn choice_of(bound: &Bound, question: &[u8]) -> Option<[Four; 1]>
    ensures { IfSome result (AreAsWide bound.now.vars) }
{
    let value = digits(question)?;
    match bound.vars.as_slice() {
        [var] if var.width == value.width() => Some([value]),
        _ => None,
    }
}

// Whether the unrolled table has the samples too; what else it has is told.
fn says_it_too(
    alloc: Global,
    svtv: &Svtv,
    choice: &[Four],
    wanted: &[u8],
    said: &mut Vec<u8>,
) -> Result<bool, Fault> {
    let mut own = Vec::new(alloc);
    put_samples(alloc, svtv, choice, &mut own)?;
    if own.as_slice() == wanted {
        return Ok(true);
    }
    put(said, b" by events, unrolled ")?;
    put(said, &own)?;
    Ok(false)
}

// Whether the samples of a choice are those that are wanted, and those of the unrolled table too.
fn run_of_row(
    alloc: Global,
    flat: &Flat,
    bound: &Bound,
    runner: &mut Runner,
    svtv: &Svtv,
    row: &[u8],
    said: &mut Vec<u8>,
) -> Result<bool, Fault>
    requires flat { IsFlat flat.now }
    requires bound { IsBound flat.now.wires bound.now }
    requires serves { Serves flat.now bound.now runner.old }
    ensures { Serves flat.now bound.now runner.new }
{
    let (question, wanted) = sides(row);
    let choice = choice_of(bound, question).ok_or(Fault::Form)?;
    runner.run(flat, bound, &choice);
    put_vectors(said, runner.samples())?;
    Ok(said.as_slice() == wanted && says_it_too(alloc, svtv, &choice, wanted, said)?)
}

fn run_all(
    alloc: Global,
    flat: &Flat,
    text: &[u8],
    block: &[u8],
    report: &mut Report,
) -> Result<(), Fault>
    requires { IsFlat flat.now }
{
    let bound = bound_of(alloc, text, flat.wires.as_slice())?;
    let svtv = unrolled(alloc, copy_flat(alloc, flat)?, &bound)?;
    let mut runner = Runner::new(alloc, flat, &bound)?;
    'lines: for line in block.split(|c| *c == b'\n') {
        if let Some(row) = rows_of(line) {
            let answer = run_of_row(alloc, flat, &bound, &mut runner, &svtv, row, report.said());
            report.take(row, answer)?;
        }
    }
    Ok(())
}

fn run_sound(
    alloc: Global,
    flat: &mut Flat,
    given: &Given,
    block: &[u8],
    report: &mut Report,
) -> Result<(), Fault> {
    put_design(alloc, flat, given.design)?;
    if !is_sound(alloc, flat)? {
        return Err(Fault::Form);
    }
    let mut text = Vec::new(alloc);
    put_table(&mut text, given.table)?;
    run_all(alloc, flat, &text, block, report)
}

/// What a run stands on: the design and the table, as text.
#[derive(Clone, Copy)]
pub struct Given<'a> {
    pub design: &'a [u8],
    pub table: &'a [u8],
}

/// Judges the runs of a table over a design.
pub fn judge_run(
    alloc: Global,
    given: &Given,
    block: &[u8],
    report: &mut Report,
) -> Result<(), Fault> {
    let mut flat = empty(alloc);
    let judged = run_sound(alloc, &mut flat, given, block, report);
    told(block, judged, report)
}
