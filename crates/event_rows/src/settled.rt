//! Settlings of a flat design. `over` names sets of wires that are overridden, `none, 1 3` two of them, and `settle 1` is over the set
//! of number 1, `settle` over the first. `settle` has a row for each phase: what each wire is driven with from outside (where it is neither
//! an input nor overridden, that does not count), and what the wires have in the least settling: `0 1 x => 0 1 x`. What the first row is
//! driven with is also what the wires had in the phase before. Each phase is settled by steps in ascending and in descending order, by
//! events, and by the machine of all the sets, which takes what it has found for the phase before.

ghost use Rattle.std.specs.Prelude.{◌<◌, ◌≤◌, length, IfOk};
ghost use Rattle.driver_resolve.specs.Drivers.{widths_of};
ghost use Rattle.flat_net.specs.Flats.{IsFlat};
ghost use Rattle.event_sim.specs.Sims.{IsValuation, now_values};
ghost use Rattle.event_rows.specs.Settled.{IsMadeFor};

use crate::design::{empty, put_design, set_of, values};
use crate::machines::by_machine;
use crate::sound::{is_sound, is_valuation};
use case_exprs::put_vectors;
use case_rows::{Fault, Report, part, rows_of, sides};
use event_sim::Sim;
use flat_net::{Flat, Valuation};
use fourvec::Four;
use items::{Items, both};
use std::alloc::Global;

// Whether the wires have these vectors now.
fn shows(sim: &Sim, wanted: &[Four]) -> bool
    requires { length wanted.now ≤ length (now_values sim.now) }
{
    for wire in 0..wanted.len() {
        if sim.now(wire) != wanted[wire] {
            return false;
        }
    }
    true
}

/// A simulation, and the wires that are overridden in it.
struct Settler {
    over: Items<usize>,
    sim: Sim,
}

impl Drop for Settler {
    fn drop(self) {
        let Settler { over: _, sim: _ } = self;
    }
}

/// The order in which nets are taken.
#[derive(Clone, Copy)]
enum Order {
    Up,
    Down,
}

// The net that has a turn, of so many.
fn net_at(order: Order, turn: usize, nets: usize) -> usize
    requires { turn < nets }
    ensures { result < nets }
{
    match order {
        Order::Up => turn,
        Order::Down => nets - 1 - turn,
    }
}

// Takes each net by turns, as often as there are bits.
fn step_all(settler: &mut Settler, flat: &Flat, order: Order)
    requires flat { IsFlat flat.now }
    requires made { IsMadeFor flat.now settler.old }
    ensures { IsMadeFor flat.now settler.new }
{
    'turns: for _turn in 0..16 {
        step_each(settler, flat, order);
    }
}

fn step_each(settler: &mut Settler, flat: &Flat, order: Order)
    requires flat { IsFlat flat.now }
    requires made { IsMadeFor flat.now settler.old }
    ensures { IsMadeFor flat.now settler.new }
{
    let nets = settler.sim.nets();
    'nets: for turn in 0..nets {
        settler.sim.step(flat, net_at(order, turn, nets));
    }
}

// Whether the wires have these vectors after steps in an order.
fn steps_to(
    flat: &Flat,
    settler: &mut Settler,
    prev: &Valuation,
    stim: &Valuation,
    order: Order,
    wanted: &[Four],
) -> bool
    requires flat { IsFlat flat.now }
    requires made { IsMadeFor flat.now settler.old }
    requires prev { IsValuation (widths_of flat.now.wires) prev.now.values }
    requires stim { IsValuation (widths_of flat.now.wires) stim.now.values }
    requires wanted { IsValuation (widths_of flat.now.wires) wanted.now }
    ensures { IsMadeFor flat.now settler.new }
{
    settler.sim.start(flat, prev, stim);
    step_all(settler, flat, order);
    shows(&settler.sim, wanted)
}

// Whether a phase settles as it should, by steps in either order and by events; then it is the previous one.
fn settles(
    flat: &Flat,
    settler: &mut Settler,
    prev: &mut Valuation,
    stim: &Valuation,
    wanted: &[Four],
) -> bool
    requires flat { IsFlat flat.now }
    requires made { IsMadeFor flat.now settler.old }
    requires prev { IsValuation (widths_of flat.now.wires) prev.old.values }
    requires stim { IsValuation (widths_of flat.now.wires) stim.now.values }
    requires wanted { IsValuation (widths_of flat.now.wires) wanted.now }
    ensures made { IsMadeFor flat.now settler.new }
    ensures prev { IsValuation (widths_of flat.now.wires) prev.new.values }
{
    let up = steps_to(flat, settler, prev, stim, Order::Up, wanted);
    let down = steps_to(flat, settler, prev, stim, Order::Down, wanted);
    settler.sim.settle(flat, prev, stim);
    let settled = shows(&settler.sim, wanted);
    settler.sim.save(prev);
    up && down && settled
}

// Judges a phase, where a row has a value for each wire on either side.
fn phase(
    flat: &Flat,
    settler: &mut Settler,
    prev: &mut Valuation,
    stim: &Valuation,
    wanted: &[Four],
    said: &mut Vec<u8>,
) -> Result<bool, Fault>
    requires flat { IsFlat flat.now }
    requires made { IsMadeFor flat.now settler.old }
    requires prev { IsValuation (widths_of flat.now.wires) prev.old.values }
    ensures made { IsMadeFor flat.now settler.new }
    ensures prev { IsValuation (widths_of flat.now.wires) prev.new.values }
{
    if !is_valuation(flat.wires.as_slice(), stim.values.as_slice()) {
        return Err(Fault::Form);
    }
    if !is_valuation(flat.wires.as_slice(), wanted) {
        return Err(Fault::Form);
    }
    let right = settles(flat, settler, prev, stim, wanted);
    put_vectors(said, prev.values.as_slice())?;
    Ok(right)
}

fn phase_of_row(
    alloc: Global,
    flat: &Flat,
    settler: &mut Settler,
    prev: &mut Valuation,
    row: &[u8],
    said: &mut Vec<u8>,
) -> Result<bool, Fault>
    requires flat { IsFlat flat.now }
    requires made { IsMadeFor flat.now settler.old }
    requires prev { IsValuation (widths_of flat.now.wires) prev.old.values }
    ensures made { IsMadeFor flat.now settler.new }
    ensures prev { IsValuation (widths_of flat.now.wires) prev.new.values }
{
    let (question, wanted) = sides(row);
    let stim = values(alloc, question)?;
    let (stim, wanted) = both(stim, values(alloc, wanted))?;
    let stim = Valuation { values: stim };
    phase(flat, settler, prev, &stim, wanted.as_slice(), said)
}

// What the first row of a block is driven with.
fn first_question(block: &[u8]) -> &[u8] {
    for line in block.split(|c| *c == b'\n') {
        if let Some(row) = rows_of(line) {
            let (question, _) = sides(row);
            return question;
        }
    }
    b""
}

fn run(
    alloc: Global,
    flat: &Flat,
    settler: &mut Settler,
    prev: &mut Valuation,
    block: &[u8],
    report: &mut Report,
) -> Result<(), Fault>
    requires flat { IsFlat flat.now }
    requires made { IsMadeFor flat.now settler.old }
{
    if !is_valuation(flat.wires.as_slice(), prev.values.as_slice()) {
        return Err(Fault::Form);
    }
    'lines: for line in block.split(|c| *c == b'\n') {
        if let Some(row) = rows_of(line) {
            let answer = phase_of_row(alloc, flat, settler, prev, row, report.said());
            report.take(row, answer)?;
        }
    }
    Ok(())
}

fn settler_of(alloc: Global, flat: &Flat, over: &[u8]) -> Result<Settler, Fault>
    requires { IsFlat flat.now }
    ensures { IfOk result (IsMadeFor flat.now) }
{
    let over = set_of(alloc, over)?;
    let sim = Sim::new(alloc, flat, over.as_slice())?;
    Ok(Settler { over, sim })
}

fn settle(
    alloc: Global,
    flat: &Flat,
    over: &[u8],
    block: &[u8],
    report: &mut Report,
) -> Result<(), Fault>
    requires { IsFlat flat.now }
{
    let settler = settler_of(alloc, flat, over)?;
    let (mut settler, prev) = both(settler, values(alloc, first_question(block)))?;
    let mut prev = Valuation { values: prev };
    run(alloc, flat, &mut settler, &mut prev, block, report)
}

// By steps and by events.
fn settle_sound(
    alloc: Global,
    flat: &mut Flat,
    asked: &Asked,
    block: &[u8],
    report: &mut Report,
) -> Result<(), Fault> {
    put_design(alloc, flat, asked.design)?;
    if !is_sound(alloc, flat)? {
        return Err(Fault::Form);
    }
    settle(
        alloc,
        flat,
        part(asked.sets, b',', asked.set),
        block,
        report,
    )
}

/// What a settling stands on: the design and the sets of overridden wires, as text, and the number of the set.
#[derive(Clone, Copy)]
pub struct Asked<'a> {
    pub design: &'a [u8],
    pub sets: &'a [u8],
    pub set: usize,
}

/// Tells of a block that could not be judged.
pub fn told(block: &[u8], judged: Result<(), Fault>, report: &mut Report) -> Result<(), Fault> {
    match judged {
        Err(Fault::Form) => report.take(block, Err(Fault::Form)),
        judged => judged,
    }
}

/// Judges the settlings of a design.
pub fn judge_settling(
    alloc: Global,
    asked: &Asked,
    block: &[u8],
    report: &mut Report,
) -> Result<(), Fault> {
    let mut flat = empty(alloc);
    let judged = settle_sound(alloc, &mut flat, asked, block, report);
    told(block, judged, report)?;
    let judged = by_machine(alloc, asked, first_question(block), block, report);
    told(block, judged, report)
}
