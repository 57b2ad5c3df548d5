//! Inprocessing (Jarvisalo and others 2012): the search over given clauses, and between its two parts what makes them simpler.

use crate::candidates::likely_pairs;
use crate::equal::merge;
use crate::sweep::sweep;
use cnf::{Cnf, Dim};
use refute_check::Log;
use sat_arena::constants::{
    ELIMINATION, FIRST_CONFLICTS, FIRST_LEAST, FIRST_MOST, FIRST_SHARE, MOST_CLAUSES,
    MOST_CONFLICTS, MOST_VARIABLES,
};
use sat_arena::log;
use sat_arena::words::{Lit, at, lit_of, narrow, push};
use sat_cdcl::engine::{End, Engine, GIVEN};
use sat_simplify::clean::{clean, holds_always};
use sat_simplify::eliminate::eliminate;
use sat_simplify::ranks::rank_all;
use std::alloc::{AllocError, Global};
use std::mem;

/// What was found. Nothing is promised of it: a solution is to be tried on the clauses, and a log to be judged.
#[derive(Drop)]
pub enum Found {
    /// Values of variables.
    Solution(Vec<bool>),
    /// Steps.
    Refutation(Log),
    /// Nothing: there are too many clauses, variables or steps to be named by four bytes, or there was no room for something.
    GivenUp,
}

// One more than the greatest variable of a clause, or this number, if that is greater.
fn named_by(clause: &[Dim], least: usize) -> usize {
    let mut count = least;
    for d in clause {
        count = count.max(d.var.saturating_add(1));
    }
    count
}

// One more than the greatest variable that clauses name.
fn named(clauses: &[Vec<Dim>]) -> usize {
    let mut count: usize = 0;
    for clause in clauses {
        count = named_by(clause.as_slice(), count);
    }
    count
}

// Reads a clause as literals in their order, each once.
fn read(clause: &[Dim], literals: &mut Vec<Lit>, is_short: &mut bool) {
    literals.clear();
    for d in clause {
        push(literals, lit_of(narrow(d.var), !d.negated), is_short);
    }
    literals.sort_unstable();
    literals.dedup();
}

// Takes a given clause, as it was read.
fn take_given(engine: &mut Engine, literals: &[Lit], number: u32) {
    if literals.is_empty() {
        let _number = engine.data.log.add(&[], &[number]);
    } else if literals.len() == 1 {
        engine.data.add_unit(at(literals, 0), number);
    } else if !holds_always(literals) {
        let _place = engine.add(literals, number, GIVEN);
    }
}

// Takes the given clauses, up to one by which they are refuted.
fn load(engine: &mut Engine, clauses: &[Vec<Dim>]) {
    let mut literals: Vec<Lit> = Vec::new(engine.data.alloc);
    for (number, clause) in clauses.iter().enumerate() {
        if engine.data.is_refuted() {
            break;
        }
        read(clause.as_slice(), &mut literals, &mut engine.data.is_short);
        take_given(engine, &literals, narrow(number));
    }
}

// Leaves out what is fixed, and puts one literal in the place of all that are equal to it, while nothing is decided. Answers whether
// clauses changed: then the watches are still those of the clauses before.
fn join(engine: &mut Engine) -> bool {
    engine.backtrack(0);
    clean(&mut engine.data);
    engine.collect();
    !engine.data.is_refuted() && merge(engine)
}

// Shows pairs of literals to be equal that are likely to be, where one literal stands for all that are known to be equal.
fn pair(engine: &mut Engine) {
    if join(engine) {
        engine.collect();
    }
    if engine.data.is_refuted() {
        return;
    }
    let alloc = engine.data.alloc;
    let clauses = engine.data.arena.given(alloc);
    let is_short = &mut engine.data.is_short;
    let ranks = rank_all(alloc, &engine.data.arena, &engine.lists, &clauses, is_short);
    let pairs = likely_pairs(&mut engine.data, &engine.order.gone, &ranks, &clauses);
    sweep(engine, &ranks.gates, &pairs);
}

// Simplifies the clauses, while nothing is decided.
fn simplify(engine: &mut Engine) {
    let _is_any = join(engine);
    engine.unwatch();
    if !engine.data.is_refuted() {
        eliminate(&mut engine.data, &mut engine.order, ELIMINATION);
    }
    engine.collect();
    engine.data.arena.fit(engine.data.alloc);
    engine.order.queue.rewind();
}

// How it ends behind what simplifies the clauses, if it does.
fn end_of(engine: &Engine) -> Option<End> {
    if engine.data.is_refuted() {
        Some(End::Refuted)
    } else if engine.lacks_room() {
        Some(End::GivenUp)
    } else {
        None
    }
}

// Loads the clauses and searches: shortly at first, where more clauses are looked at if more are given, and then in simpler clauses.
fn run(engine: &mut Engine, clauses: &[Vec<Dim>]) -> End {
    load(engine, clauses);
    if let Some(end) = end_of(engine) {
        return end;
    }
    let work = (clauses.len() as u64)
        .saturating_mul(FIRST_SHARE)
        .max(FIRST_LEAST)
        .min(FIRST_MOST);
    let end = engine.search(FIRST_CONFLICTS, work);
    if !matches!(end, End::Paused) {
        return end;
    }
    pair(engine);
    if let Some(end) = end_of(engine) {
        return end;
    }
    simplify(engine);
    if let Some(end) = end_of(engine) {
        return end;
    }
    engine.search(MOST_CONFLICTS, u64::MAX)
}

// The log by which a search refuted the clauses. All else is let go before it is written.
fn log_of(alloc: Global, engine: Engine) -> Found {
    let mut engine = engine;
    let mut log = mem::replace(&mut engine.data.log, log::Log::new(alloc, 0));
    drop(engine);
    let steps = log.written();
    if log.is_short {
        Found::GivenUp
    } else {
        Found::Refutation(Log { steps })
    }
}

/// Searches for a solution of the clauses, or for a log that refutes them. Variables behind the greatest that a clause names take no
/// room, and are false in a solution.
pub fn search_for(alloc: Global, cnf: &Cnf) -> Result<Found, AllocError> {
    let clauses = cnf.clauses.as_slice();
    let vars = named(clauses);
    if vars > MOST_VARIABLES || clauses.len() > MOST_CLAUSES {
        return Ok(Found::GivenUp);
    }
    let mut engine = Engine::new(alloc, vars, clauses.len());
    match run(&mut engine, clauses) {
        End::Solved => Ok(Found::Solution(engine.solution(cnf.vars)?)),
        End::Refuted => Ok(log_of(alloc, engine)),
        _ => Ok(Found::GivenUp),
    }
}
