//! Clauses that the solver answers. `solve`: the number of variables, the budget of new clauses or `-` where there is no bound, and the
//! clauses: `2 1 / 1 2; 1 -2; -1 2; -1 -2; => 1 new`. The answer is tried on the clauses: values must solve them, and a log is judged. Where
//! there is no bound, a plain solver must find the same.

ghost use Rattle.std.specs.Prelude.{◌<◌, IfOk, IfSome, IsTrue, map};
ghost use Rattle.std.specs.List.{All};
ghost use Rattle.cnf.specs.Clauses.{AllBelow};

use crate::formulas::read;
use crate::logs::judged;
use crate::scanning::scanned;
use case_rows::{Fault, Judge, number, put, put_number, word};
use cnf::{Cnf, Dim};
use refute_check::Log;
use sat_core::{SatEnd, solve};
use std::alloc::Global;

#[derive(Drop)]
pub struct Formulas {
    alloc: Global,
    cnf: Cnf,
}

// A number of new clauses, or `-` where there is no bound.
fn budget_of(word: &[u8]) -> Result<Option<u64>, Fault>
    ensures { IfOk result (λ budget. IfSome budget (λ n. 0 < n)) }
{
    if word == b"-".as_slice() {
        return Ok(None);
    }
    match number(word) {
        None => Err(Fault::Form),
        Some(0) => Err(Fault::Form),
        Some(number) => Ok(Some(number)),
    }
}

fn is_below(vars: usize, clause: &[Dim]) -> bool
    ensures { IsTrue result → All (λ d. d.var < vars) clause.now }
{
    clause.iter().all(|d| d.var < vars)
}

// Whether each variable is below `vars`.
fn all_in_range(vars: usize, clauses: &[Vec<Dim>]) -> bool
    ensures { IsTrue result → AllBelow vars (map (λ v. v.items) clauses.now) }
{
    for clause in clauses {
        if !is_below(vars, clause.as_slice()) {
            return false;
        }
    }
    true
}

fn in_range(cnf: &Cnf) -> bool
    ensures { IsTrue result → AllBelow cnf.now.vars cnf.now.clauses }
{
    all_in_range(cnf.vars, cnf.clauses.as_slice())
}

fn has_true(values: &[bool], clause: &[Dim]) -> bool {
    for d in clause {
        if d.var < values.len() && values[d.var] != d.negated {
            return true;
        }
    }
    false
}

// Whether there is a value for each variable, and each clause has a true literal.
fn is_solution(cnf: &Cnf, values: &[bool]) -> bool {
    for clause in &cnf.clauses {
        if !has_true(values, clause.as_slice()) {
            return false;
        }
    }
    values.len() == cnf.vars
}

fn put_sat(said: &mut Vec<u8>, good: bool) -> Result<(), Fault> {
    put(said, if good { b"sat" } else { b"wrong values" })
}

fn put_unsat(said: &mut Vec<u8>, good: bool) -> Result<(), Fault> {
    put(said, if good { b"unsat" } else { b"wrong log" })
}

// How many new clauses a log has, where each follows.
fn put_spent(said: &mut Vec<u8>, log: &Log, first_bad: Option<usize>) -> Result<(), Fault> {
    let count = log.steps.len();
    put_number(said, count as u64)?;
    put(
        said,
        if first_bad == Some(count) {
            b" new"
        } else {
            b" wrong"
        },
    )
}

// The answer in the words of a row, once it has been tried on the clauses.
fn put_end(alloc: Global, cnf: &Cnf, end: &SatEnd, said: &mut Vec<u8>) -> Result<(), Fault> {
    match end {
        SatEnd::Sat(values) => put_sat(said, is_solution(cnf, values.as_slice())),
        SatEnd::Unsat(log) => put_unsat(said, judged(alloc, cnf, log)?.is_none()),
        SatEnd::Spent(log) => put_spent(said, log, judged(alloc, cnf, log)?),
    }
}

/// Puts the solver's answer.
pub fn put_answer(
    alloc: Global,
    cnf: &Cnf,
    budget: Option<u64>,
    said: &mut Vec<u8>,
) -> Result<(), Fault>
    requires budget { IfSome budget (λ n. 0 < n) }
{
    if !in_range(cnf) {
        return Err(Fault::Form);
    }
    let end = solve(alloc, cnf, budget)?;
    put_end(alloc, cnf, &end, said)
}

/// What a plain solver says.
pub fn plain_answer(alloc: Global, cnf: &Cnf) -> Result<&'static [u8], Fault> {
    match scanned(alloc, cnf)? {
        Some(true) => Ok(b"sat"),
        Some(false) => Ok(b"unsat"),
        None => Ok(b"no answer"),
    }
}

impl Formulas {
    pub fn new(alloc: Global) -> Formulas {
        Formulas {
            alloc,
            cnf: Cnf {
                vars: 0,
                clauses: Vec::new(alloc),
            },
        }
    }

    // Tells where the plain solver finds something else.
    fn scan(&self, wanted: &[u8], said: &mut Vec<u8>) -> Result<(), Fault> {
        let plain = plain_answer(self.alloc, &self.cnf)?;
        if plain != wanted {
            put(said, plain)?;
            put(said, b" by a plain solver, ")?;
        }
        Ok(())
    }
}

impl Judge for Formulas {
    fn row(&mut self, question: &[u8], wanted: &[u8], said: &mut Vec<u8>) -> Result<(), Fault> {
        read(self.alloc, &mut self.cnf, question)?;
        let budget = budget_of(word(question, 1))?;
        if budget.is_none() {
            self.scan(wanted, said)?;
        }
        put_answer(self.alloc, &self.cnf, budget, said)
    }
}
