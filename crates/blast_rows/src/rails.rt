//! Expressions and their gates.
//!
//! - `agree`: an expression, and under how many choices its rails are the planes of its value: `add chosen0.7 chosen1.7 => 100 choices`.
//!   The rails are read by one gate for each of their literals, which is true where the literal is what the value has, and one over all.
//! - `nodes`: an expression, how many gates it has, and whether its rails are the same literals: `mul chosen0.2 chosen1.2 => 6, shared`.

ghost use Rattle.std.specs.Prelude.{◌<◌, IfOk, length};

use crate::choices::{choice_count, choose, values};
use aig::{Aig, Lit};
use case_exprs::built;
use case_rows::{Fault, Judge, put, put_number, put_size};
use fourvec::{Bit, Four};
use std::alloc::Global;
use svex_arena::{Arena, Env, Node};
use svex_blast::{Rails, blast};
use svtv_table::VarDecl;

/// A graph with the rails of one expression.
#[derive(Drop)]
struct Blasted {
    aig: Aig,
    rails: Vec<Rails>,
}

#[tactic(auto, unfolding(aig::specs::Graph::count_inputs))]
fn made(alloc: Global, arena: &Arena, node: Node, vars: &[VarDecl]) -> Result<Blasted, Fault>
    requires { node < length arena.now }
{
    let mut aig = Aig::new(alloc)?;
    let rails = blast(alloc, arena, &mut aig, &[node], vars)?;
    Ok(Blasted { aig, rails })
}

fn conjunction(aig: &mut Aig, a: Lit, b: Lit) -> Result<Lit, Fault> {
    if a.node >= aig.len() || b.node >= aig.len() {
        return Err(Fault::Form);
    }
    let both = aig.and(a, b)?;
    Ok(both)
}

fn is_true(alloc: Global, aig: &Aig, bits: &[bool], at: Lit) -> Result<bool, Fault> {
    if at.node >= aig.len() || bits.len() != aig.input_count() {
        return Err(Fault::Form);
    }
    let holds = aig.eval(alloc, bits, at)?;
    Ok(holds)
}

// The literals of a bit, each as it is true where the bit has this value.
fn as_wanted(up: Lit, low: Lit, bit: Bit) -> (Lit, Lit) {
    match bit {
        Bit::Zero => (!up, !low),
        Bit::One => (up, low),
        Bit::Unknown => (up, !low),
        Bit::Floating => (!up, low),
    }
}

fn with_bit(aig: &mut Aig, all: Lit, rails: &Rails, at: u8, bit: Bit) -> Result<Lit, Fault> {
    let up = rails.up.get(usize::from(at)).copied().ok_or(Fault::Form)?;
    let low = rails.low.get(usize::from(at)).copied().ok_or(Fault::Form)?;
    let (up, low) = as_wanted(up, low, bit);
    let both = conjunction(aig, up, low)?;
    conjunction(aig, all, both)
}

// A literal that is true where the rails are the planes of a value.
fn shows(aig: &mut Aig, rails: &Rails, value: &Four) -> Result<Lit, Fault> {
    let width = value.width();
    if rails.up.len() != usize::from(width) || rails.low.len() != usize::from(width) {
        return Err(Fault::Form);
    }
    let mut all = Lit::constant(true);
    for at in 0..width {
        all = with_bit(aig, all, rails, at, value.bit(at))?;
    }
    Ok(all)
}

fn node_of(alloc: Global, arena: &mut Arena, text: &[u8]) -> Result<Node, Fault>
    ensures { IfOk result (λ n. n < length arena.new) }
{
    let node = built(arena, alloc, text)?;
    if node.index() >= arena.len() {
        return Err(Fault::Form);
    }
    Ok(node)
}

/// Judges by values.
#[derive(Drop)]
pub struct Agreement<'a> {
    alloc: Global,
    arena: Arena,
    env: Env,
    bits: Vec<bool>,
    vars: &'a [VarDecl],
}

impl<'a> Agreement<'a> {
    pub fn new(alloc: Global, vars: &'a [VarDecl]) -> Agreement<'a> {
        Agreement {
            alloc,
            arena: Arena::new(alloc),
            env: Env {
                present: Vec::new(alloc),
                previous: Vec::new(alloc),
                stim: Vec::new(alloc),
                chosen: Vec::new(alloc),
                sampled: Vec::new(alloc),
            },
            bits: Vec::new(alloc),
            vars,
        }
    }

    // The value of a node under a choice.
    fn value(&mut self, node: Node, count: usize, choice: u64) -> Result<Four, Fault> {
        choose(&mut self.bits, count, choice)?;
        values(self.alloc, &mut self.env.chosen, self.vars, &self.bits)?;
        if node.index() >= self.arena.len() {
            return Err(Fault::Form);
        }
        let value = self.arena.eval(self.alloc, node, &self.env)?;
        Ok(value)
    }

    // Whether the rails show the value of a node under a choice.
    fn agrees(
        &mut self,
        aig: &mut Aig,
        rails: &Rails,
        node: Node,
        choice: u64,
    ) -> Result<bool, Fault> {
        let count = aig.input_count();
        let value = self.value(node, count, choice)?;
        let all = shows(aig, rails, &value)?;
        is_true(self.alloc, aig, &self.bits, all)
    }

    // Under how many choices they do.
    fn count(&mut self, aig: &mut Aig, rails: &[Rails], node: Node) -> Result<u64, Fault> {
        let rails = rails.first().ok_or(Fault::Form)?;
        let mut right: u64 = 0;
        for choice in 0..choice_count(aig.input_count()) {
            if self.agrees(aig, rails, node, choice)? {
                right = right.saturating_add(1);
            }
        }
        Ok(right)
    }
}

impl<'a> Judge for Agreement<'a> {
    fn row(&mut self, question: &[u8], _wanted: &[u8], said: &mut Vec<u8>) -> Result<(), Fault> {
        let node = node_of(self.alloc, &mut self.arena, question)?;
        let Blasted { mut aig, rails } = made(self.alloc, &self.arena, node, self.vars)?;
        let right = self.count(&mut aig, &rails, node)?;
        put_number(said, right)?;
        put(said, b" choices")
    }
}

/// Judges by the number of gates.
#[derive(Drop)]
pub struct Counts<'a> {
    alloc: Global,
    arena: Arena,
    vars: &'a [VarDecl],
}

impl<'a> Counts<'a> {
    pub fn new(alloc: Global, vars: &'a [VarDecl]) -> Counts<'a> {
        Counts {
            alloc,
            arena: Arena::new(alloc),
            vars,
        }
    }
}

fn gate_count(aig: &Aig) -> usize {
    aig.len()
        .saturating_sub(1)
        .saturating_sub(aig.input_count())
}

fn are_shared(rails: &[Rails]) -> bool {
    rails.iter().all(|r| r.up.as_slice() == r.low.as_slice())
}

impl<'a> Judge for Counts<'a> {
    fn row(&mut self, question: &[u8], _wanted: &[u8], said: &mut Vec<u8>) -> Result<(), Fault> {
        let node = node_of(self.alloc, &mut self.arena, question)?;
        let Blasted { aig, rails } = made(self.alloc, &self.arena, node, self.vars)?;
        put_size(said, gate_count(&aig))?;
        put(
            said,
            if are_shared(&rails) {
                b", shared"
            } else {
                b", apart"
            },
        )
    }
}
