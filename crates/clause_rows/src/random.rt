//! Formulas of three literals a clause, made by a sequence of numbers that looks random.
//!
//! `random`: `same 8 34 1 40 => 40` is the number of variables, of clauses, what the sequence begins with, and how many formulas are made;
//! the answer is for how many of them a plain solver finds what the solver finds. `search 100 480 5 => unsat` is the answer for the first.

use crate::solving::{plain_answer, put_answer};
use case_rows::{Fault, Judge, first_named, number, put_number, size_at, word};
use cnf::{Cnf, Dim};
use std::alloc::Global;

#[derive(Drop)]
pub struct Random {
    alloc: Global,
    cnf: Cnf,
    state: u64,
}

#[derive(Clone, Copy)]
enum Call {
    Same,
    Search,
}

static CALLS: [(&[u8], Call); 2] = [(b"same", Call::Same), (b"search", Call::Search)];

// The next number of the sequence.
fn next_random(state: &mut u64) -> u64 {
    *state = state
        .wrapping_mul(6_364_136_223_846_793_005)
        .wrapping_add(1_442_695_040_888_963_407);
    *state >> 33
}

fn clause(alloc: Global, vars: u64, state: &mut u64) -> Result<Vec<Dim>, Fault> {
    let mut clause = Vec::new(alloc);
    for _ in 0..3 {
        let var = next_random(state).checked_rem(vars).unwrap_or(0) as usize;
        let negated = next_random(state) % 2 == 0;
        clause.push(Dim { var, negated })?;
    }
    Ok(clause)
}

impl Random {
    pub fn new(alloc: Global) -> Random {
        Random {
            alloc,
            cnf: Cnf {
                vars: 0,
                clauses: Vec::new(alloc),
            },
            state: 0,
        }
    }

    fn make(&mut self, vars: usize, count: usize) -> Result<(), Fault> {
        self.cnf.vars = vars;
        self.cnf.clauses.clear();
        for _ in 0..count {
            let clause = clause(self.alloc, vars as u64, &mut self.state)?;
            self.cnf.clauses.push(clause)?;
        }
        Ok(())
    }

    // Whether a plain solver finds what the solver finds.
    fn agrees(&self, said: &mut Vec<u8>) -> Result<bool, Fault> {
        said.clear();
        put_answer(self.alloc, &self.cnf, None, said)?;
        let plain = plain_answer(self.alloc, &self.cnf)?;
        Ok(said.as_slice() == plain)
    }

    fn same(&mut self, question: &[u8], said: &mut Vec<u8>) -> Result<(), Fault> {
        let mut same: u64 = 0;
        let (vars, count) = (size_at(question, 1)?, size_at(question, 2)?);
        for _ in 0..size_at(question, 4)? {
            self.make(vars, count)?;
            if self.agrees(said)? {
                same = same.saturating_add(1);
            }
        }
        said.clear();
        put_number(said, same)
    }

    fn search(&mut self, question: &[u8], said: &mut Vec<u8>) -> Result<(), Fault> {
        self.make(size_at(question, 1)?, size_at(question, 2)?)?;
        put_answer(self.alloc, &self.cnf, None, said)
    }
}

impl Judge for Random {
    fn row(&mut self, question: &[u8], _wanted: &[u8], said: &mut Vec<u8>) -> Result<(), Fault> {
        self.state = number(word(question, 3)).ok_or(Fault::Form)?;
        match first_named(&CALLS, question)? {
            Call::Same => self.same(question, said),
            Call::Search => self.search(question, said),
        }
    }
}
