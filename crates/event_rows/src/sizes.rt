//! Large designs that are made here, so that machines of real sizes can be judged in a line. `sizes` has rows such as
//! `up add 3000 0001 => 1001`: a chain of 3,000 wires of four bits, each made of the wire before it, and what the one at the end has where
//! the input, a wire behind them all, has these bits.
//!
//! - `up` is a chain from the input on to the last wire; `down` is one to the first wire, so that each equation stands before the one on which
//!   it depends; and `ring` goes round, with the last wire at its end;
//! - `copy` takes the wire before as it is, `not` inverts it, and `add` adds the input to it;
//! - `shift` takes its own bits, one place up, and the highest bit of the wire before below them; where the first wire takes it, there is an
//!   `and` with the input's lowest bit. In a ring each round so finds one bit of all wires together.
//!
//! With the word `nodes` behind, the number of all nodes is said too, for measuring. Where a loop is too wide, that is what comes. `chains` has
//! the same rows, settled by events: `down copy 3000 0001 => 0001 in 6001`, what the wire at the end has, and after how many steps.

ghost use Rattle.driver_resolve.specs.Drivers.{widths_of};
ghost use Rattle.flat_net.specs.Flats.{IsFlat};
ghost use Rattle.event_sim.specs.Sims.{IsValuation};

use crate::design::empty;
use crate::machines::{made, no_values, put_values, value_of};
use crate::sound::{is_sound, is_valuation};
use case_exprs::{digits, put_vectors};
use case_rows::{Fault, Judge, Report, each_row, named, put, put_number, put_size, size_at, word};
use driver_resolve::Driver;
use event_sim::Sim;
use flat_net::{Flat, Valuation};
use fourvec::Four;
use items::Items;
use lhs_alias::{Lhs, Seg};
use phase_fsm::Fsm;
use std::alloc::Global;
use sv_outside::{Name, Signal};
use svex_arena::{Arena, Bin, Node, Shape, Un, VarName};

#[derive(Clone, Copy)]
enum Way {
    Up,
    Down,
    Ring,
}

static WAYS: [(&[u8], Way); 3] = [(b"up", Way::Up), (b"down", Way::Down), (b"ring", Way::Ring)];

#[derive(Clone, Copy)]
enum Step {
    Copy,
    Not,
    Add,
    Shift,
}

static STEPS: [(&[u8], Step); 4] = [
    (b"copy", Step::Copy),
    (b"not", Step::Not),
    (b"add", Step::Add),
    (b"shift", Step::Shift),
];

// So many wires of a width, which are joined up in one way.
#[derive(Clone, Copy)]
struct Plan {
    way: Way,
    step: Step,
    count: usize,
    width: u8,
}

impl Plan {
    // The wire of which a wire is made.
    fn before(&self, wire: usize) -> usize {
        match self.way {
            Way::Up => wire.checked_sub(1).unwrap_or(self.count),
            Way::Down => wire.saturating_add(1),
            Way::Ring => wire.checked_sub(1).unwrap_or(self.count.saturating_sub(1)),
        }
    }

    // The wire at the end.
    fn end(&self) -> usize {
        match self.way {
            Way::Up => self.count.saturating_sub(1),
            Way::Down => 0,
            Way::Ring => self.count.saturating_sub(1),
        }
    }
}

fn node(alloc: Global, arena: &mut Arena, shape: Shape) -> Result<Node, Fault> {
    if !arena.fits(&shape) {
        return Err(Fault::Form);
    }
    Ok(arena.intern(alloc, shape)?)
}

fn bits(alloc: Global, arena: &mut Arena, of: Node, lo: u8, width: u8) -> Result<Node, Fault> {
    node(alloc, arena, Shape::Slice { of, lo, width })
}

// A wire's own bits but for the highest, and one bit below them.
fn shifted(
    alloc: Global,
    arena: &mut Arena,
    plan: &Plan,
    own: Node,
    below: Node,
) -> Result<Node, Fault> {
    if plan.width == 1 {
        return Ok(below);
    }
    let low = bits(alloc, arena, own, 0, plan.width.saturating_sub(1))?;
    node(alloc, arena, Shape::Binary(Bin::Concat, low, below))
}

// The highest bit of the wire before; where the first wire takes it, with the input's lowest bit.
fn fed(
    alloc: Global,
    arena: &mut Arena,
    plan: &Plan,
    wire: usize,
    before: Node,
    input: Node,
) -> Result<Node, Fault> {
    let top = bits(alloc, arena, before, plan.width.saturating_sub(1), 1)?;
    if wire > 0 {
        return Ok(top);
    }
    let gate = bits(alloc, arena, input, 0, 1)?;
    node(alloc, arena, Shape::Binary(Bin::And, top, gate))
}

fn now(alloc: Global, arena: &mut Arena, plan: &Plan, wire: usize) -> Result<Node, Fault> {
    node(alloc, arena, Shape::Var(VarName::Now(wire), plan.width))
}

fn shift(
    alloc: Global,
    arena: &mut Arena,
    plan: &Plan,
    wire: usize,
    before: Node,
) -> Result<Node, Fault> {
    let own = now(alloc, arena, plan, wire)?;
    let input = now(alloc, arena, plan, plan.count)?;
    let below = fed(alloc, arena, plan, wire, before, input)?;
    shifted(alloc, arena, plan, own, below)
}

// What a wire is made of.
fn value(alloc: Global, arena: &mut Arena, plan: &Plan, wire: usize) -> Result<Node, Fault> {
    let before = now(alloc, arena, plan, plan.before(wire))?;
    match plan.step {
        Step::Copy => Ok(before),
        Step::Not => node(alloc, arena, Shape::Unary(Un::Not, before)),
        Step::Add => {
            let input = now(alloc, arena, plan, plan.count)?;
            node(alloc, arena, Shape::Binary(Bin::Add, before, input))
        }
        Step::Shift => shift(alloc, arena, plan, wire, before),
    }
}

fn put_wire(alloc: Global, flat: &mut Flat, width: u8, input: bool) -> Result<(), Fault> {
    let path = Name::new(alloc, b"w")?;
    Ok(flat.wires.push(Signal { path, width, input })?)
}

// All bits of a wire.
fn whole(alloc: Global, wire: usize, width: u8) -> Result<Lhs, Fault> {
    let mut segs = Vec::new(alloc);
    segs.push(Seg { wire, lo: 0, width })?;
    Ok(Lhs::from_vec(segs))
}

fn drive(alloc: Global, flat: &mut Flat, plan: &Plan, wire: usize) -> Result<(), Fault> {
    let value = value(alloc, &mut flat.arena, plan, wire)?;
    let target = whole(alloc, wire, plan.width)?;
    Ok(flat.drivers.push(Driver { target, value })?)
}

fn put_plan(alloc: Global, flat: &mut Flat, plan: &Plan) -> Result<(), Fault> {
    for wire in 0..plan.count {
        put_wire(alloc, flat, plan.width, false)?;
        drive(alloc, flat, plan, wire)?;
    }
    put_wire(alloc, flat, plan.width, true)
}

// What the end of a chain has over an input.
fn end_value(alloc: Global, fsm: &Fsm, plan: &Plan, input: Four) -> Result<Four, Fault> {
    let mut env = no_values(alloc);
    for _ in 0..plan.count {
        env.stim.push(input)?;
    }
    env.stim.push(input)?;
    value_of(alloc, fsm, 0, plan.end(), &env)
}

// Says what the end of a chain has, and how many nodes there are where that is asked for.
fn put_end(
    alloc: Global,
    plan: &Plan,
    input: Four,
    fsm: &Fsm,
    row: &[u8],
    wanted: &[u8],
    said: &mut Vec<u8>,
) -> Result<(), Fault> {
    let values = [end_value(alloc, fsm, plan, input)?];
    if word(row, 4) != b"nodes".as_slice() {
        return put_values(alloc, said, &values, wanted);
    }
    put_values(alloc, said, &values, word(wanted, 0))?;
    put(said, b" of ")?;
    put_size(said, fsm.flat.arena.len())
}

fn plan_of(row: &[u8], width: u8) -> Result<Plan, Fault> {
    let way = named(&WAYS, word(row, 0)).ok_or(Fault::Form)?;
    let step = named(&STEPS, word(row, 1)).ok_or(Fault::Form)?;
    let count = size_at(row, 2)?;
    Ok(Plan {
        way,
        step,
        count,
        width,
    })
}

#[derive(Drop)]
struct Sizes {
    alloc: Global,
}

impl Judge for Sizes {
    fn row(&mut self, question: &[u8], wanted: &[u8], said: &mut Vec<u8>) -> Result<(), Fault> {
        let input = digits(word(question, 3)).ok_or(Fault::Form)?;
        let plan = plan_of(question, input.width())?;
        let mut flat = empty(self.alloc);
        put_plan(self.alloc, &mut flat, &plan)?;
        match made(self.alloc, flat, b"none", said)? {
            None => Ok(()),
            Some(fsm) => put_end(self.alloc, &plan, input, &fsm, question, wanted, said),
        }
    }
}

// ---- by events

// The same vector for each wire.
fn valuation_of(alloc: Global, plan: &Plan, value: Four) -> Result<Valuation, Fault> {
    let mut values = Items::new(alloc);
    for _ in 0..plan.count {
        values.push(value)?;
    }
    values.push(value)?;
    Ok(Valuation { values })
}

// Settles a chain that is well formed, where each wire had the input before; then the valuation is the settling. Says after how many steps.
fn settle_chain(
    alloc: Global,
    flat: &Flat,
    given: &Valuation,
    into: &mut Valuation,
) -> Result<u64, Fault>
    requires flat { IsFlat flat.now }
    requires given { IsValuation (widths_of flat.now.wires) given.now.values }
    requires into { IsValuation (widths_of flat.now.wires) into.old.values }
{
    let mut sim = Sim::new(alloc, flat, &[])?;
    sim.settle(flat, given, given);
    sim.save(into);
    Ok(sim.steps())
}

// What the wire at the end of a chain that is well formed has, and after how many steps.
fn put_settled(
    alloc: Global,
    flat: &Flat,
    plan: &Plan,
    input: Four,
    said: &mut Vec<u8>,
) -> Result<(), Fault>
    requires { IsFlat flat.now }
{
    let given = valuation_of(alloc, plan, input)?;
    let mut now = valuation_of(alloc, plan, input)?;
    if !is_valuation(flat.wires.as_slice(), given.values.as_slice()) {
        return Err(Fault::Form);
    }
    if !is_valuation(flat.wires.as_slice(), now.values.as_slice()) {
        return Err(Fault::Form);
    }
    let steps = settle_chain(alloc, flat, &given, &mut now)?;
    let end = *now.values.as_slice().get(plan.end()).ok_or(Fault::Form)?;
    put_vectors(said, &[end])?;
    put(said, b" in ")?;
    put_number(said, steps)
}

#[derive(Drop)]
struct Chains {
    alloc: Global,
}

impl Judge for Chains {
    fn row(&mut self, question: &[u8], _wanted: &[u8], said: &mut Vec<u8>) -> Result<(), Fault> {
        let input = digits(word(question, 3)).ok_or(Fault::Form)?;
        let plan = plan_of(question, input.width())?;
        let mut flat = empty(self.alloc);
        put_plan(self.alloc, &mut flat, &plan)?;
        if !is_sound(self.alloc, &flat)? {
            return Err(Fault::Form);
        }
        put_settled(self.alloc, &flat, &plan, input, said)
    }
}

/// Judges how large designs settle.
pub fn judge_chains(alloc: Global, block: &[u8], report: &mut Report) -> Result<(), Fault> {
    let mut chains = Chains { alloc };
    each_row(&mut chains, block, report)
}

/// Judges machines of large designs.
pub fn judge_sizes(alloc: Global, block: &[u8], report: &mut Report) -> Result<(), Fault> {
    let mut sizes = Sizes { alloc };
    each_row(&mut sizes, block, report)
}
