//! The machine of a flat design, for sets of wires that are overridden. `machine` has in each row the sets, and what comes: how many sets
//! the machine has nodes for, or how many bits a loop has that is too wide: `none, 1 3 => made 2`, `none => too wide 1152`. By its nodes
//! alone the rows of `settle` are judged too: each is evaluated over what the wires are driven with from outside and what the nodes had in
//! the row before.

ghost use Rattle.flat_net.specs.Flats.{IsFlat};

use crate::design::{empty, put_design, sets_of};
use crate::settled::Asked;
use crate::sound::is_sound;
use case_exprs::{put_vectors, read_vectors};
use case_rows::{Fault, Judge, Report, each_row, put, put_number, put_size};
use flat_net::Flat;
use fourvec::Four;
use items::Items;
use net_equations::ComposeErr;
use phase_fsm::{Fsm, make_fsm};
use std::alloc::Global;
use svex_arena::Env;

// The machine, unless a loop is too wide, which is said.
fn unless_wide(
    alloc: Global,
    flat: Flat,
    sets: Items<Items<usize>>,
    said: &mut Vec<u8>,
) -> Result<Option<Fsm>, Fault>
    requires { IsFlat flat }
{
    match make_fsm(alloc, flat, sets) {
        Ok(fsm) => Ok(Some(fsm)),
        Err(ComposeErr::LoopTooWide(bits)) => {
            put(said, b"too wide ")?;
            put_number(said, bits)?;
            Ok(None)
        }
        Err(ComposeErr::Memory) => Err(Fault::Memory),
    }
}

/// The machine of a design that is well formed, unless a loop is too wide, which is said.
pub fn made(
    alloc: Global,
    flat: Flat,
    sets: &[u8],
    said: &mut Vec<u8>,
) -> Result<Option<Fsm>, Fault> {
    if !is_sound(alloc, &flat)? {
        return Err(Fault::Form);
    }
    let sets = sets_of(alloc, sets)?;
    unless_wide(alloc, flat, sets, said)
}

fn made_of_text(
    alloc: Global,
    design: &[u8],
    sets: &[u8],
    said: &mut Vec<u8>,
) -> Result<Option<Fsm>, Fault> {
    let mut flat = empty(alloc);
    put_design(alloc, &mut flat, design)?;
    made(alloc, flat, sets, said)
}

/// An environment with nothing in it.
pub fn no_values(alloc: Global) -> Env {
    Env {
        present: Vec::new(alloc),
        previous: Vec::new(alloc),
        stim: Vec::new(alloc),
        chosen: Vec::new(alloc),
        sampled: Vec::new(alloc),
    }
}

/// What the node of a wire has.
pub fn value_of(
    alloc: Global,
    fsm: &Fsm,
    set: usize,
    wire: usize,
    env: &Env,
) -> Result<Four, Fault> {
    let nodes = fsm.nodes.get(set).ok_or(Fault::Form)?;
    let node = *nodes.get(wire).ok_or(Fault::Form)?;
    if node.index() >= fsm.flat.arena.len() {
        return Err(Fault::Form);
    }
    Ok(fsm.flat.arena.eval(alloc, node, env)?)
}

/// Says values, as they are wanted where they are these.
pub fn put_values(
    alloc: Global,
    said: &mut Vec<u8>,
    values: &[Four],
    wanted: &[u8],
) -> Result<(), Fault> {
    let mut list = Vec::new(alloc);
    read_vectors(&mut list, wanted)?;
    if list.as_slice() == values {
        put(said, wanted)
    } else {
        put_vectors(said, values)
    }
}

// The nodes of a set, over the row before and what a row is driven with.
struct Phases {
    alloc: Global,
    fsm: Fsm,
    set: usize,
    env: Env,
    values: Vec<Four>,
}

impl Drop for Phases {
    fn drop(self) {
        let Phases {
            alloc: _,
            fsm: _,
            set: _,
            env: _,
            values: _,
        } = self;
    }
}

impl Phases {
    // Evaluates the nodes of all wires.
    fn evaluate(&mut self) -> Result<(), Fault> {
        self.values.clear();
        for wire in 0..self.fsm.flat.wires.len() {
            let value = value_of(self.alloc, &self.fsm, self.set, wire, &self.env)?;
            self.values.push(value)?;
        }
        Ok(())
    }
}

impl Judge for Phases {
    fn row(&mut self, question: &[u8], wanted: &[u8], said: &mut Vec<u8>) -> Result<(), Fault> {
        self.env.stim.clear();
        read_vectors(&mut self.env.stim, question)?;
        self.evaluate()?;
        self.env.previous.clear();
        self.env.previous.extend_from_slice(self.values.as_slice())?;
        put_values(self.alloc, said, self.values.as_slice(), wanted)
    }
}

fn phases_of(alloc: Global, fsm: Fsm, set: usize, first: &[u8]) -> Result<Phases, Fault> {
    let mut env = no_values(alloc);
    read_vectors(&mut env.previous, first)?;
    Ok(Phases {
        alloc,
        fsm,
        set,
        env,
        values: Vec::new(alloc),
    })
}

/// Judges settlings of a design by its machine. The first row is over previous values that are given.
pub fn by_machine(
    alloc: Global,
    asked: &Asked,
    first: &[u8],
    block: &[u8],
    report: &mut Report,
) -> Result<(), Fault> {
    match made_of_text(alloc, asked.design, asked.sets, report.said())? {
        None => Err(Fault::Form),
        Some(fsm) => {
            let mut phases = phases_of(alloc, fsm, asked.set, first)?;
            each_row(&mut phases, block, report)
        }
    }
}

// The machines of a design.
#[derive(Drop)]
struct Machines<'a> {
    alloc: Global,
    design: &'a [u8],
}

impl<'a> Judge for Machines<'a> {
    fn row(&mut self, question: &[u8], _wanted: &[u8], said: &mut Vec<u8>) -> Result<(), Fault> {
        match made_of_text(self.alloc, self.design, question, said)? {
            None => Ok(()),
            Some(fsm) => {
                put(said, b"made ")?;
                put_size(said, fsm.nodes.len())
            }
        }
    }
}

/// Judges which machines a design has.
pub fn judge_machines(
    alloc: Global,
    design: &[u8],
    block: &[u8],
    report: &mut Report,
) -> Result<(), Fault> {
    let mut machines = Machines { alloc, design };
    each_row(&mut machines, block, report)
}
