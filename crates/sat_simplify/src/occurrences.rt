//! Occurrence lists (as in SatELite, Een and Biere 2005): in which given clauses each literal stands, while variables are
//! eliminated.

use crate::clean::put_others;
use sat_arena::arena::{Arena, Status};
use sat_arena::words::{Lit, at, empty_lists, filled, is_set, push, put, room_for, var_of};
use std::alloc::Global;

/// The clauses of literals, and what is still to be tried.
pub struct Occurrences {
    /// Of each literal the clauses in which it stood when they were noted. Some of them may be garbage.
    pub lists: Vec<Vec<u32>>,
    /// The clauses that may subsume others, each behind its number of literals.
    pub queue: Vec<(u32, u32)>,
    /// Marks of literals, for the clause that is looked at.
    pub marks: Vec<bool>,
    /// Of each variable whether its clauses changed since it was tried.
    pub touched: Vec<bool>,
    /// The literals of a clause that are left, where it is made shorter.
    pub rest: Vec<Lit>,
    /// How much may still be looked at.
    pub work: u64,
    /// Whether there was no room for something.
    pub is_short: bool,
}

impl Drop for Occurrences {
    fn drop(self) {
        let Occurrences {
            lists: _,
            queue: _,
            marks: _,
            touched: _,
            rest: _,
            work: _,
            is_short: _,
        } = self;
    }
}

/// Marks literals, or takes their marks back.
pub fn mark(marks: &mut Vec<bool>, literals: &[Lit], value: bool) {
    for lit in literals {
        put(marks, *lit as usize, value);
    }
}

// Notes that the clauses of these variables change.
fn touch(touched: &mut Vec<bool>, literals: &[Lit]) {
    for lit in literals {
        put(touched, var_of(*lit), true);
    }
}

/// Counts what was looked at, as work that may not be done any more.
pub fn spend(work: &mut u64, amount: usize) {
    *work = work.saturating_sub(amount as u64);
}

/// The clauses in which a literal stood.
pub fn clauses_of(lists: &[Vec<u32>], lit: Lit) -> &[u32] {
    let place = lit as usize;
    if place < lists.len() {
        lists[place].as_slice()
    } else {
        &[]
    }
}

// Leaves those clauses in a list that are no garbage. Answers how many they are.
fn tidy_list(arena: &Arena, list: &mut Vec<u32>) -> usize {
    let mut kept: usize = 0;
    for k in 0..list.len() {
        let clause = at(list, k);
        let status = arena.status(clause);
        if !status.is_garbage {
            put(list, kept, clause);
            kept = kept.wrapping_add(1);
        }
    }
    list.truncate(kept);
    kept
}

// Which variables literals have, as bits of a word, so that a clause that has others is told at once (Een and Biere 2005).
fn signature(literals: &[Lit]) -> u32 {
    let mut bits: u32 = 0;
    for lit in literals {
        let hash = (*lit / 2).wrapping_mul(0x9e37_79b1);
        bits = bits | 1u32.wrapping_shl(hash >> 27);
    }
    bits
}

// Counts the literals of clauses.
fn count_all(arena: &Arena, clauses: &[u32], counts: &mut Vec<u32>) {
    for clause in clauses {
        for lit in arena.literals(*clause) {
            let count = at(counts, *lit as usize);
            put(counts, *lit as usize, count.wrapping_add(1));
        }
    }
}

// Makes room for as many clauses of each literal as these have.
fn make_room(
    alloc: Global,
    arena: &Arena,
    clauses: &[u32],
    lists: &mut Vec<Vec<u32>>,
    is_short: &mut bool,
) {
    let mut counts = filled(alloc, 0, lists.len(), is_short);
    count_all(arena, clauses, &mut counts);
    for lit in 0..lists.len() {
        lists[lit] = room_for(alloc, at(&counts, lit) as usize, is_short);
    }
}

// Puts a clause into the lists of its literals.
fn list_clause(lists: &mut Vec<Vec<u32>>, literals: &[Lit], clause: u32, is_short: &mut bool) {
    for lit in literals {
        let place = *lit as usize;
        if place < lists.len() {
            push(&mut lists[place], clause, is_short);
        }
    }
}

impl Occurrences {
    /// The given clauses, of so many variables.
    pub fn new(alloc: Global, arena: &mut Arena, vars: usize, work: u64) -> Occurrences {
        let mut is_short = false;
        let count = vars.saturating_mul(2);
        let lists = empty_lists(alloc, count, &mut is_short);
        let marks = filled(alloc, false, count, &mut is_short);
        let touched = filled(alloc, true, vars, &mut is_short);
        let mut occurrences = Occurrences {
            lists,
            queue: Vec::new(alloc),
            marks,
            touched,
            rest: Vec::new(alloc),
            work,
            is_short,
        };
        occurrences.connect_all(alloc, arena);
        occurrences
    }

    // Notes the given clauses.
    fn connect_all(&mut self, alloc: Global, arena: &mut Arena) {
        let clauses = arena.given(alloc);
        make_room(alloc, arena, &clauses, &mut self.lists, &mut self.is_short);
        for clause in clauses.as_slice() {
            self.connect(arena, *clause);
        }
    }

    /// Leaves those clauses of a literal that are no garbage. Answers how many they are.
    pub fn tidy(&mut self, arena: &Arena, lit: Lit) -> usize {
        let place = lit as usize;
        if place < self.lists.len() {
            tidy_list(arena, &mut self.lists[place])
        } else {
            0
        }
    }

    /// The clause at a place of the list of a literal.
    pub fn clause_at(&self, lit: Lit, place: usize) -> u32 {
        at(clauses_of(&self.lists, lit), place)
    }

    /// Whether the clauses of a variable changed since it was tried, which counts as tried then.
    pub fn take_touched(&mut self, var: u32) -> bool {
        let is_touched = is_set(&self.touched, var as usize);
        put(&mut self.touched, var as usize, false);
        is_touched
    }

    /// Lets a clause go, whose variables are to be tried again.
    pub fn discard(&mut self, arena: &mut Arena, clause: u32) {
        touch(&mut self.touched, arena.literals(clause));
        arena.discard(clause);
    }

    /// Lets the clauses of a literal go, whose variables are to be tried again.
    pub fn discard_all(&mut self, arena: &mut Arena, lit: Lit) {
        for place in 0..self.tidy(arena, lit) {
            let clause = self.clause_at(lit, place);
            self.discard(arena, clause);
        }
    }

    /// Takes the literals of a clause but one as those that are left of it. The clauses of its variables change.
    pub fn leave(&mut self, literals: &[Lit], but: Lit) {
        touch(&mut self.touched, literals);
        self.rest.clear();
        put_others(literals, but, &mut self.rest, &mut self.is_short);
    }

    /// Notes a clause.
    pub fn connect(&mut self, arena: &mut Arena, clause: u32) {
        let literals = arena.literals(clause);
        let bits = signature(literals);
        touch(&mut self.touched, literals);
        list_clause(&mut self.lists, literals, clause, &mut self.is_short);
        arena.set_last(clause, bits);
        let status = arena.status(clause);
        if !status.is_tried {
            let is_tried = true;
            arena.set_status(clause, Status { is_tried, ..status });
            let waiting = (arena.size(clause), clause);
            push(&mut self.queue, waiting, &mut self.is_short);
        }
    }
}
