//! Gate extraction (Roy and others 2004, here conjunctions alone): in which order variables are made, where clauses describe gates.
//! A variable comes behind those that its gate reads. Where each gate has a greater number than what it reads, that is the order of
//! the numbers. But clauses of others need not be so, and equal literals that were made one neither.
//!
//! A gate is a clause of three literals or more one of whose literals has each other one for its opposite: that it implies the
//! negations of all others is said by clauses of two literals. So it is the conjunction of these.

use crate::table::Table;
use sat_arena::arena::Arena;
use sat_arena::words::{Lit, NONE, at, filled, is_set, narrow, push, put, room_for, var_of};
use sat_cdcl::watches::{Watch, list_of};
use std::alloc::Global;

/// Of a variable that is on the way.
const MARKED: u32 = NONE - 1;

// Counts the literals of the longer ones of the clauses.
fn count_places(arena: &Arena, clauses: &[u32], table: &mut Table) {
    for clause in clauses {
        if arena.size(*clause) > 2 {
            for lit in arena.literals(*clause) {
                table.count(*lit);
            }
        }
    }
}

// Puts the longer ones of the clauses into the rows of their literals.
fn put_places(arena: &Arena, clauses: &[u32], table: &mut Table) {
    for clause in clauses {
        if arena.size(*clause) > 2 {
            for lit in arena.literals(*clause) {
                table.put(*lit, *clause);
            }
        }
    }
}

// In which longer given clauses each of so many literals stands.
fn list_places(
    alloc: Global,
    arena: &Arena,
    clauses: &[u32],
    lits: usize,
    is_short: &mut bool,
) -> Table {
    let mut table = Table::new(alloc, lits, is_short);
    count_places(arena, clauses, &mut table);
    table.make_room(alloc, is_short);
    put_places(arena, clauses, &mut table);
    table
}

// Marks the literals that follow from a literal by given clauses of two, which stand before others, or takes their marks back.
fn mark_implied(arena: &Arena, list: &[Watch], marks: &mut Vec<bool>, value: bool) {
    for watch in list {
        if !watch.is_pair() {
            break;
        }
        let status = arena.status(watch.clause());
        if !status.is_learned {
            put(marks, watch.blocker as usize, value);
        }
    }
}

// Whether a clause is the gate of a literal: the negation of each other one is marked, and it is no gate of theirs.
fn is_gate(arena: &Arena, clause: u32, lit: Lit, marks: &[bool], gates: &[u32]) -> bool {
    for other in arena.literals(clause) {
        let is_free = is_set(marks, (*other ^ 1) as usize) && at(gates, var_of(*other)) != clause;
        if *other != lit && !is_free {
            return false;
        }
    }
    true
}

// The clause that is the gate of a literal, if there is one, of those in which it stands.
fn first_gate(arena: &Arena, places: &[u32], lit: Lit, marks: &[bool], gates: &[u32]) -> u32 {
    for clause in places {
        if is_gate(arena, *clause, lit, marks, gates) {
            return *clause;
        }
    }
    NONE
}

// The clause that is the gate of a literal, if there is one, of those in which it stands, where its negation is watched by these.
fn gate_of(
    arena: &Arena,
    watches: &[Watch],
    places: &[u32],
    lit: Lit,
    marks: &mut Vec<bool>,
    gates: &[u32],
) -> u32 {
    if places.is_empty() {
        return NONE;
    }
    mark_implied(arena, watches, marks, true);
    let gate = first_gate(arena, places, lit, marks, gates);
    mark_implied(arena, watches, marks, false);
    gate
}

// Finds the clause that is the gate of each variable, or none. Greater variables come first, since they are mostly made later.
fn find_gates(
    arena: &Arena,
    lists: &[Vec<Watch>],
    places: &Table,
    marks: &mut Vec<bool>,
    gates: &mut Vec<u32>,
) {
    for lit in (0..narrow(lists.len())).rev() {
        if at(gates, var_of(lit)) == NONE {
            let watches = list_of(lists, lit ^ 1);
            let gate = gate_of(arena, watches, places.row(lit), lit, marks, gates);
            put(gates, var_of(lit), gate);
        }
    }
}

// The clause that is the gate of each variable, or none.
fn gates(
    alloc: Global,
    arena: &Arena,
    lists: &[Vec<Watch>],
    clauses: &[u32],
    is_short: &mut bool,
) -> Vec<u32> {
    let places = list_places(alloc, arena, clauses, lists.len(), is_short);
    let mut marks = filled(alloc, false, lists.len(), is_short);
    let mut gates = filled(alloc, NONE, lists.len() / 2, is_short);
    find_gates(arena, lists, &places, &mut marks, &mut gates);
    gates
}

/// Variables in the order in which they are made.
pub struct Ranks {
    /// Of each variable its place in the order.
    pub ranks: Vec<u32>,
    /// The variables in their order.
    pub vars: Vec<u32>,
    /// The clause that is the gate of each variable, or none.
    pub gates: Vec<u32>,
    // The variables on the way, which are to be ranked behind those that their gates read.
    open: Vec<u32>,
    // Whether there was no room for something.
    is_short: bool,
}

impl Drop for Ranks {
    fn drop(self) {
        let Ranks {
            ranks: _,
            vars: _,
            gates: _,
            open: _,
            is_short: _,
        } = self;
    }
}

// Puts a variable behind the others, if it is not among them.
fn rank(ranks: &mut Vec<u32>, vars: &mut Vec<u32>, var: u32, is_short: &mut bool) {
    if at(ranks, var as usize) >= MARKED {
        put(ranks, var as usize, narrow(vars.len()));
        push(vars, var, is_short);
    }
}

// Opens the variables of a gate that were not met.
fn open_all(ranks: &[u32], literals: &[Lit], open: &mut Vec<u32>, is_short: &mut bool) {
    for lit in literals {
        if at(ranks, var_of(*lit)) == NONE {
            push(open, *lit / 2, is_short);
        }
    }
}

impl Ranks {
    // Meets the last variable on the way: it stays there until those are ranked that its gate reads.
    fn step(&mut self, arena: &Arena, var: u32) {
        let Ranks {
            ranks,
            vars,
            gates,
            open,
            is_short,
        } = self;
        let gate = at(gates, var as usize);
        if gate == NONE || at(ranks, var as usize) != NONE {
            rank(ranks, vars, var, is_short);
        } else {
            put(ranks, var as usize, MARKED);
            push(open, var, is_short);
            open_all(ranks, arena.literals(gate), open, is_short);
        }
    }

    // Ranks a variable and all behind which it comes.
    fn walk(&mut self, arena: &Arena, root: u32) {
        push(&mut self.open, root, &mut self.is_short);
        for _ in 0..u64::MAX {
            match self.open.pop() {
                None => break,
                Some(var) => self.step(arena, var),
            }
        }
    }
}

/// The order in which the variables of these given clauses are made, where pairs are watched before others. Where there is no room for
/// something, that is noted.
pub fn rank_all(
    alloc: Global,
    arena: &Arena,
    lists: &[Vec<Watch>],
    clauses: &[u32],
    is_short: &mut bool,
) -> Ranks {
    let count = lists.len() / 2;
    let gates = gates(alloc, arena, lists, clauses, is_short);
    let mut ranks = Ranks {
        ranks: filled(alloc, NONE, count, is_short),
        vars: room_for(alloc, count, is_short),
        gates,
        open: Vec::new(alloc),
        is_short: false,
    };
    for var in 0..narrow(count) {
        ranks.walk(arena, var);
    }
    if ranks.is_short {
        *is_short = true;
    }
    ranks
}
