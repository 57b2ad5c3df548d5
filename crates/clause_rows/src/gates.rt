//! Clauses of gates. A literal is its node's number, with a `-` where it is negated: `0` is false and `-0` true.
//!
//! `gates` is one graph: `input => 1` makes an input, `and 1 -2 => 3` a conjunction, each of which answers the literal;
//! `clauses -3 => 4: ..` are the number of variables and the clauses of a literal, and `solve 3 => sat` is the solver's answer for them.

use crate::formulas::put_formula;
use crate::solving::put_answer;
use aig::{Aig, Lit};
use case_rows::{Fault, Judge, Report, each_row, first_named, put, put_size, signed, word};
use cnf::{Cnf, clauses_of};
use std::alloc::Global;

#[derive(Drop)]
struct Gates {
    alloc: Global,
    aig: Aig,
}

#[derive(Clone, Copy)]
enum Call {
    Input,
    And,
    Clauses,
    Solve,
}

static CALLS: [(&[u8], Call); 4] = [
    (b"input", Call::Input),
    (b"and", Call::And),
    (b"clauses", Call::Clauses),
    (b"solve", Call::Solve),
];

pub fn judge_gates(alloc: Global, block: &[u8], report: &mut Report) -> Result<(), Fault> {
    let aig = Aig::new(alloc)?;
    let mut gates = Gates { alloc, aig };
    each_row(&mut gates, block, report)
}

fn lit_at(text: &[u8], at: usize) -> Result<Lit, Fault> {
    let (negated, node) = signed(word(text, at)).ok_or(Fault::Form)?;
    Ok(Lit {
        node: usize::try_from(node).unwrap_or(0),
        negated,
    })
}

fn put_lit(said: &mut Vec<u8>, l: Lit) -> Result<(), Fault> {
    put(said, if l.negated { b"-" } else { b"" })?;
    put_size(said, l.node)
}

fn conjunction(aig: &mut Aig, a: Lit, b: Lit) -> Result<Lit, Fault> {
    if a.node >= aig.len() || b.node >= aig.len() {
        return Err(Fault::Form);
    }
    let both = aig.and(a, b)?;
    Ok(both)
}

fn formula(alloc: Global, aig: &Aig, root: Lit) -> Result<Cnf, Fault> {
    if root.node >= aig.len() {
        return Err(Fault::Form);
    }
    let cnf = clauses_of(alloc, aig, root)?;
    Ok(cnf)
}

impl Gates {
    fn put_input(&mut self, said: &mut Vec<u8>) -> Result<(), Fault> {
        let l = self.aig.input()?;
        put_lit(said, l)
    }

    fn put_and(&mut self, question: &[u8], said: &mut Vec<u8>) -> Result<(), Fault> {
        let (a, b) = (lit_at(question, 1)?, lit_at(question, 2)?);
        put_lit(said, conjunction(&mut self.aig, a, b)?)
    }

    fn put_clauses(&self, root: Lit, said: &mut Vec<u8>) -> Result<(), Fault> {
        let cnf = formula(self.alloc, &self.aig, root)?;
        put_formula(said, &cnf)
    }

    fn put_solved(&self, root: Lit, said: &mut Vec<u8>) -> Result<(), Fault> {
        let cnf = formula(self.alloc, &self.aig, root)?;
        put_answer(self.alloc, &cnf, None, said)
    }

    fn say(&mut self, question: &[u8], said: &mut Vec<u8>) -> Result<(), Fault> {
        match first_named(&CALLS, question)? {
            Call::Input => self.put_input(said),
            Call::And => self.put_and(question, said),
            Call::Clauses => self.put_clauses(lit_at(question, 1)?, said),
            Call::Solve => self.put_solved(lit_at(question, 1)?, said),
        }
    }
}

impl Judge for Gates {
    fn row(&mut self, question: &[u8], _wanted: &[u8], said: &mut Vec<u8>) -> Result<(), Fault> {
        self.say(question, said)
    }
}
