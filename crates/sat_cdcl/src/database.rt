//! The clause database: clauses, the values of literals with the reasons of these, and the log by which all of it follows from the given
//! clauses. Whatever is derived is put down here, and nothing of it depends on what is decided next.

use crate::watches::{Watch, attach, propagate};
use sat_arena::arena::{Arena, Status};
use sat_arena::log::Log;
use sat_arena::trail::{Trail, Value, value_of};
use sat_arena::words::{Lit, NONE, at, narrow, push, push_all, var_of};
use std::alloc::Global;

/// Clauses, values and the log.
pub struct Database {
    pub alloc: Global,
    pub arena: Arena,
    pub trail: Trail,
    pub log: Log,
    /// The numbers of the clauses by which the next step of the log follows.
    pub hints: Vec<u32>,
    /// Clauses for the values of variables that were taken out: of each a literal that may have to be true, the others, and how many
    /// there are of all.
    pub kept: Vec<u32>,
    /// How many literals of the trail are fixed by steps of the log, and how many were when clauses that hold by these went last.
    pub fixed: usize,
    pub satisfied: usize,
    /// How many of the literals that are fixed no clause has any more, nor their negations.
    pub cleaned: usize,
    /// Whether there was no room for something.
    pub is_short: bool,
}

impl Drop for Database {
    fn drop(self) {
        let Database {
            alloc: _,
            arena: _,
            trail: _,
            log: _,
            hints: _,
            kept: _,
            fixed: _,
            satisfied: _,
            cleaned: _,
            is_short: _,
        } = self;
    }
}

impl Database {
    /// So many variables, no clauses, and a log behind so many given ones.
    pub fn new(alloc: Global, vars: usize, given: usize) -> Database {
        Database {
            alloc,
            arena: Arena::new(alloc),
            trail: Trail::new(alloc, vars),
            log: Log::new(alloc, narrow(given)),
            hints: Vec::new(alloc),
            kept: Vec::new(alloc),
            fixed: 0,
            satisfied: 0,
            cleaned: 0,
            is_short: false,
        }
    }

    /// Whether the log has the empty clause.
    pub fn is_refuted(&self) -> bool {
        self.log.end > 0
    }

    /// Whether there was no room for something.
    pub fn lacks_room(&self) -> bool {
        self.is_short || self.arena.is_short || self.trail.is_short || self.log.is_short
    }

    /// Makes a literal true for ever, which the clause of this number has alone.
    pub fn add_unit(&mut self, lit: Lit, number: u32) {
        let var = var_of(lit);
        match value_of(&self.trail.values, lit) {
            Value::True => {}
            Value::False => {
                let _number = self.log.add(&[], &[self.trail.unit(var), number]);
            }
            Value::Open => {
                self.trail.assign(lit, NONE);
                self.trail.set_unit(var, number);
            }
        }
    }

    // Writes a step for a literal that is fixed.
    fn fix(&mut self, lit: Lit) {
        let fact = self.trail.fact(var_of(lit));
        if fact.reason != NONE {
            self.cite_units(fact.reason, lit);
            let number = self.log.add(&[lit], &self.hints);
            self.trail.set_unit(var_of(lit), number);
        }
    }

    // Writes a step for each literal that is fixed.
    fn fix_all(&mut self) {
        for place in self.fixed..self.trail.lits.len() {
            let lit = at(&self.trail.lits, place);
            self.fix(lit);
        }
        self.fixed = self.trail.lits.len();
    }

    /// Propagates, and writes steps for what is fixed. Answers a clause that is false, if there is one.
    pub fn propagate(&mut self, lists: &mut Vec<Vec<Watch>>, work: &mut u64) -> Option<u32> {
        let words = &mut self.arena.words;
        let conflict = propagate(self.alloc, &mut self.trail, words, lists, work);
        if self.trail.level() == 0 {
            self.fix_all();
        }
        conflict
    }

    /// Adds a clause of two literals or more, and watches it. Answers its place.
    pub fn add(
        &mut self,
        lists: &mut Vec<Vec<Watch>>,
        clause: &[Lit],
        number: u32,
        status: Status,
    ) -> u32 {
        let place = self.arena.add(clause, number, status);
        attach(&self.arena, lists, place, &mut self.is_short);
        place
    }

    // Lets the next step follow by a clause whose literals are false but this one, and by those that have these alone.
    fn cite_units(&mut self, clause: u32, but: Lit) {
        let hints = &mut self.hints;
        let is_short = &mut self.is_short;
        hints.clear();
        for lit in self.arena.literals(clause) {
            if *lit != but {
                push(hints, self.trail.unit(var_of(*lit)), is_short);
            }
        }
        push(hints, self.arena.number(clause), is_short);
    }

    /// Writes the empty clause down, where a clause is false by what is fixed.
    pub fn refute(&mut self, clause: u32) {
        self.cite_units(clause, NONE);
        let _number = self.log.add(&[], &self.hints);
    }

    /// Keeps words for the values of variables that are taken out.
    pub fn keep(&mut self, words: &[u32]) {
        push_all(&mut self.kept, words, &mut self.is_short);
    }
}
