//! The CDCL loop (conflict-driven clause learning, Marques-Silva and Sakallah 1996), and all that a search has: propagation up to a
//! conflict, a clause that is learned from it, and else a decision, or what is due between two of them.

use crate::database::Database;
use crate::notes::{Notes, uses};
use crate::reduce::{discard_worst, trim};
use crate::watches::Watch;
use sat_arena::arena::Status;
use sat_arena::constants::{MOST_STEPS, MOST_WORDS};
use sat_arena::words::{Lit, at, empty_lists, is_negated, is_set, narrow, put, var_of};
use sat_order::order::Order;
use sat_order::restarts::Pace;
use std::alloc::{AllocError, Global};

/// The parts of a search.
pub struct Engine {
    pub data: Database,
    /// Of each literal the clauses in which it is watched.
    pub lists: Vec<Vec<Watch>>,
    pub order: Order,
    pub notes: Notes,
    pub pace: Pace,
    /// How many clauses were looked at.
    pub work: u64,
}

impl Drop for Engine {
    fn drop(self) {
        let Engine {
            data: _,
            lists: _,
            order: _,
            notes: _,
            pace: _,
            work: _,
        } = self;
    }
}

/// How a search ended.
#[derive(Clone, Copy)]
pub enum End {
    /// Each variable has a value.
    Solved,
    /// The log has the empty clause.
    Refuted,
    /// As much was done as was to be.
    Paused,
    /// The numbers of what is learned do not fit into four bytes any more, or there was no room for something.
    GivenUp,
}

/// A clause that was given.
pub const GIVEN: Status = Status {
    is_learned: false,
    is_garbage: false,
    is_tried: false,
    used: 0,
    glue: 0,
};

impl Engine {
    /// So many variables, and a log behind so many given clauses.
    pub fn new(alloc: Global, vars: usize, given: usize) -> Engine {
        let mut data = Database::new(alloc, vars, given);
        let lists = empty_lists(alloc, vars.saturating_mul(2), &mut data.is_short);
        Engine {
            data,
            lists,
            order: Order::new(alloc, vars),
            notes: Notes::new(alloc, vars),
            pace: Pace::new(),
            work: 0,
        }
    }

    /// Whether there was no room for something.
    pub fn lacks_room(&self) -> bool {
        self.data.lacks_room() || self.order.is_short || self.notes.is_short
    }

    /// Adds a clause of two literals or more, and watches it. Answers its place.
    pub fn add(&mut self, clause: &[Lit], number: u32, status: Status) -> u32 {
        self.data.add(&mut self.lists, clause, number, status)
    }

    /// Propagates, and writes steps for what is fixed. Answers a clause that is false, if there is one.
    pub fn propagate(&mut self) -> Option<u32> {
        self.data.propagate(&mut self.lists, &mut self.work)
    }

    /// Goes back to a level.
    pub fn backtrack(&mut self, level: u32) {
        self.order.backtrack(&mut self.data.trail, level);
    }

    // Finds what a conflict teaches, and changes the order of decisions by it. Answers the level to which to go back.
    fn analyze(&mut self, conflict: u32) -> u32 {
        let trail = &self.data.trail;
        self.order.phases.calm = trail.start(trail.level());
        let level = self.notes.analyze(&mut self.data.arena, trail, conflict);
        self.pace.count(narrow(self.notes.levels.len()));
        self.order.bump(&mut self.pace, &self.notes.met, trail);
        level
    }

    /// Learns from a clause that is false, and goes back.
    pub fn learn(&mut self, conflict: u32) {
        if self.data.trail.level() == 0 {
            self.data.refute(conflict);
            return;
        }
        let level = self.analyze(conflict);
        let glue = narrow(self.notes.levels.len());
        self.notes.clear();
        let number = self.data.log.add(&self.notes.clause, &self.notes.hints);
        self.backtrack(level);
        let clause = &self.notes.clause;
        take_up(&mut self.data, &mut self.lists, clause, number, glue);
    }

    // Does what is due where nothing is to be propagated: the search begins anew, but for what would be decided again, other values are
    // tried first, learned clauses go, or a variable is decided. Answers whether some variable is open.
    fn advance(&mut self) -> bool {
        self.order.phases.calm = self.data.trail.lits.len();
        if self.pace.is_restart_due() {
            self.pace.note_restart();
            let level = self.order.kept_level(&self.data.trail);
            self.backtrack(level);
        } else if self.pace.conflicts >= self.order.phases.due {
            self.backtrack(0);
            self.order.phases.turn(self.pace.conflicts);
        } else if self.pace.conflicts >= self.pace.reduce {
            self.pace.note_reduction();
            discard_worst(&mut self.data);
            self.collect();
            trim(&mut self.data, &mut self.pace.trim);
        } else {
            return self.order.decide(&mut self.data.trail);
        }
        true
    }

    // Goes on where a clause is false. Answers how the search ends, if it does.
    fn meet(&mut self, conflict: u32) -> Option<End> {
        self.learn(conflict);
        if self.lacks_room() {
            Some(End::GivenUp)
        } else if self.data.is_refuted() {
            Some(End::Refuted)
        } else {
            None
        }
    }

    // Goes on where nothing is to be propagated, up to so many conflicts and clauses that are looked at. Answers how the search ends, if
    // it does.
    fn go_on(&mut self, conflicts: u64, work: u64) -> Option<End> {
        let is_full = self.data.arena.words.len() >= MOST_WORDS
            || self.data.log.steps >= MOST_STEPS;
        if is_full || self.lacks_room() {
            return Some(End::GivenUp);
        }
        if self.pace.conflicts >= conflicts || self.work >= work {
            return Some(End::Paused);
        }
        if self.advance() {
            None
        } else {
            Some(End::Solved)
        }
    }

    /// Searches, up to so many conflicts and clauses that are looked at.
    pub fn search(&mut self, conflicts: u64, work: u64) -> End {
        for _ in 0..u64::MAX {
            let end = match self.propagate() {
                Some(conflict) => self.meet(conflict),
                None => self.go_on(conflicts, work),
            };
            if let Some(end) = end {
                return end;
            }
        }
        End::Paused
    }

    /// The value of each of so many variables, of which those that the search does not have are false.
    pub fn solution(&self, vars: usize) -> Result<Vec<bool>, AllocError> {
        let mut values = vec![in self.data.alloc; false; vars]?;
        take_values(&self.data.trail.lits, &mut values);
        extend(&self.data.kept, &mut values);
        Ok(values)
    }
}

// Adds the clause that was found behind the level to which the search went back, and makes its first literal true.
fn take_up(
    data: &mut Database,
    lists: &mut Vec<Vec<Watch>>,
    clause: &[Lit],
    number: u32,
    glue: u32,
) {
    let first = at(clause, 0);
    if clause.len() == 1 {
        data.add_unit(first, number);
    } else {
        let status = Status {
            is_learned: true,
            used: uses(glue),
            glue,
            ..GIVEN
        };
        let place = data.add(lists, clause, number, status);
        data.trail.assign(first, place);
    }
}

// Takes the values by which literals are true.
fn take_values(lits: &[Lit], values: &mut Vec<bool>) {
    for lit in lits {
        put(values, var_of(*lit), !is_negated(*lit));
    }
}

// Whether one of the literals is true.
fn holds(clause: &[Lit], values: &[bool]) -> bool {
    for lit in clause {
        if is_set(values, var_of(*lit)) != is_negated(*lit) {
            return true;
        }
    }
    false
}

// Makes the first literal of a clause true that was kept for it, where the clause would be false.
fn mend(clause: &[Lit], values: &mut Vec<bool>) {
    if !holds(clause, values) {
        let lit = at(clause, 0);
        put(values, var_of(lit), !is_negated(lit));
    }
}

// Gives values to the variables that were taken out, by the clauses that were kept for them, the last one first.
fn extend(kept: &[u32], values: &mut Vec<bool>) {
    let mut end = kept.len();
    for _ in 0..kept.len() {
        if end == 0 {
            break;
        }
        let place = end - 1;
        let start = place.saturating_sub(at(kept, place) as usize);
        if let Some(clause) = kept.get(start..place) {
            mend(clause, values);
        }
        end = start;
    }
}
