//! Logs of a refutation. `logs`: the number of variables, the clauses, and the steps, each a clause, a colon and hints; the answer is
//! `accepted`, or the number of the first step that is not derived, or of steps if none is empty:
//! `2 / 1 2; 1 -2; -1 2; -1 -2; / 1:0 1; :4 2 3; => accepted`.

use crate::formulas::{ended, put_literals, read};
use case_rows::{Fault, Judge, part, put, put_size, size, trimmed};
use cnf::Cnf;
use refute_check::{CheckErr, Checker, Log, Step};
use std::alloc::{AllocError, Global};

#[derive(Drop)]
pub struct Logs {
    alloc: Global,
    cnf: Cnf,
    log: Log,
}

/// The number of the first step that is not derived, or of steps if each is derived and none is empty; none if they refute.
pub fn judged(alloc: Global, cnf: &Cnf, log: &Log) -> Result<Option<usize>, AllocError> {
    let mut checker = Checker::new(alloc, cnf, log)?;
    match checker.check(cnf, log) {
        Ok(()) => Ok(None),
        Err(CheckErr::Bad(k)) => Ok(Some(k)),
    }
}

fn put_hints(hints: &mut Vec<usize>, text: &[u8]) -> Result<(), Fault> {
    for word in text.split(|c| *c == b' ') {
        if !word.is_empty() {
            hints.push(size(word)?)?;
        }
    }
    Ok(())
}

fn step(alloc: Global, text: &[u8]) -> Result<Step, Fault> {
    let mut clause = Vec::new(alloc);
    let mut hints = Vec::new(alloc);
    put_literals(&mut clause, part(text, b':', 0))?;
    put_hints(&mut hints, part(text, b':', 1))?;
    Ok(Step::of(alloc, clause.as_slice(), hints.as_slice())?)
}

fn put_steps(alloc: Global, steps: &mut Vec<Step>, text: &[u8]) -> Result<(), Fault> {
    for part in text.split(|c| *c == b';') {
        let step = step(alloc, part)?;
        steps.push(step)?;
    }
    Ok(())
}

impl Logs {
    pub fn new(alloc: Global) -> Logs {
        Logs {
            alloc,
            cnf: Cnf {
                vars: 0,
                clauses: Vec::new(alloc),
            },
            log: Log {
                steps: Vec::new(alloc),
            },
        }
    }

    fn read(&mut self, question: &[u8]) -> Result<(), Fault> {
        read(self.alloc, &mut self.cnf, question)?;
        self.log.steps.clear();
        match ended(trimmed(part(question, b'/', 2))) {
            Some(text) => put_steps(self.alloc, &mut self.log.steps, text),
            None => Ok(()),
        }
    }

    fn say(&self, said: &mut Vec<u8>) -> Result<(), Fault> {
        match judged(self.alloc, &self.cnf, &self.log)? {
            None => put(said, b"accepted"),
            Some(k) => put_size(said, k),
        }
    }
}

impl Judge for Logs {
    fn row(&mut self, question: &[u8], _wanted: &[u8], said: &mut Vec<u8>) -> Result<(), Fault> {
        self.read(question)?;
        self.say(said)
    }
}
