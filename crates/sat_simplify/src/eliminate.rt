//! Bounded variable elimination (SatELite, Een and Biere 2005): the clauses of a variable go, and all resolvents of those with its
//! one sign and those with the other come in their place, where they are no more clauses and no more literals. (Without the bound
//! on literals sums that are regrouped cost more than twice as much.) The clauses of the rarer sign are kept for the value that the
//! variable has in a solution.

use crate::clean::{cite, clean, put_others, write_down};
use crate::occurrences::{Occurrences, clauses_of, mark, spend};
use crate::subsume::{settle, subsume_all};
use sat_arena::arena::{Arena, FIRST};
use sat_arena::constants::{LITERALS_OF_WORK, LONGEST, MOST_USES, PASSES};
use sat_arena::trail::is_open;
use sat_arena::words::{Lit, is_set, lit_of, narrow, push, var_of};
use sat_cdcl::database::Database;
use sat_cdcl::engine::GIVEN;
use sat_order::order::Order;
use std::alloc::Global;

/// A resolvent: where its literals end, and its two clauses.
#[derive(Clone, Copy)]
struct Resolvent {
    end: usize,
    first: u32,
    second: u32,
}

/// The resolvents of a variable, whose literals stand one behind the other.
struct Resolvents {
    literals: Vec<Lit>,
    found: Vec<Resolvent>,
    // How many clauses and literals there may be.
    clauses: usize,
    room: usize,
    // Whether there was no room for something.
    is_short: bool,
}

impl Drop for Resolvents {
    fn drop(self) {
        let Resolvents {
            literals: _,
            found: _,
            clauses: _,
            room: _,
            is_short: _,
        } = self;
    }
}

// How many literals clauses have together.
fn literal_count(arena: &Arena, clauses: &[u32]) -> usize {
    let mut count: usize = 0;
    for clause in clauses {
        count = count.saturating_add(arena.size(*clause) as usize);
    }
    count
}

// How many pairs of clauses a variable has, one of each sign.
fn pairs(lists: &[Vec<u32>], var: u32) -> usize {
    let positive = clauses_of(lists, lit_of(var, true)).len();
    positive.saturating_mul(clauses_of(lists, lit_of(var, false)).len())
}

// The literal of a variable that stands in fewer clauses.
fn rarer(lists: &[Vec<u32>], var: u32) -> Lit {
    let positive = clauses_of(lists, lit_of(var, true)).len();
    let is_positive = positive <= clauses_of(lists, lit_of(var, false)).len();
    lit_of(var, is_positive)
}

// Whether the resolvent of a clause, whose literals are marked, and another holds always.
fn is_blocked(marks: &[bool], var: usize, other: &[Lit]) -> bool {
    for lit in other {
        if var_of(*lit) != var && is_set(marks, (*lit ^ 1) as usize) {
            return true;
        }
    }
    false
}

impl Resolvents {
    // None yet.
    fn new(alloc: Global) -> Resolvents {
        Resolvents {
            literals: Vec::new(alloc),
            found: Vec::new(alloc),
            clauses: 0,
            room: 0,
            is_short: false,
        }
    }

    // None yet, of the clauses of a variable.
    fn begin(&mut self, arena: &Arena, lists: &[Vec<u32>], var: u32) {
        let positive = clauses_of(lists, lit_of(var, true));
        let negative = clauses_of(lists, lit_of(var, false));
        let more = literal_count(arena, negative);
        self.literals.clear();
        self.found.clear();
        self.clauses = positive.len().saturating_add(negative.len());
        self.room = literal_count(arena, positive).saturating_add(more);
    }

    // Puts the literals of a clause behind the others, but that of the variable, and those that are marked, if they are.
    fn put(&mut self, literals: &[Lit], var: usize, marks: &[bool]) {
        for lit in literals {
            if var_of(*lit) != var && !is_set(marks, *lit as usize) {
                push(&mut self.literals, *lit, &mut self.is_short);
            }
        }
    }

    // Puts the resolvent of a clause, whose literals are marked, and another behind the others, if it does not hold always. Answers
    // whether there is room for it.
    fn add(&mut self, arena: &Arena, marks: &[bool], var: usize, first: u32, second: u32) -> bool {
        let other = arena.literals(second);
        if is_blocked(marks, var, other) {
            return true;
        }
        let start = self.literals.len();
        self.put(arena.literals(first), var, &[]);
        self.put(other, var, marks);
        let end = self.literals.len();
        let resolvent = Resolvent { end, first, second };
        push(&mut self.found, resolvent, &mut self.is_short);
        let is_fit = end.saturating_sub(start) <= LONGEST;
        is_fit && self.found.len() <= self.clauses && end <= self.room
    }

    // Finds the resolvents of a clause, whose literals are marked, and others. Answers whether there is room for them.
    fn add_all(
        &mut self,
        arena: &Arena,
        marks: &[bool],
        work: &mut u64,
        var: usize,
        first: u32,
        others: &[u32],
    ) -> bool {
        for second in others {
            spend(work, 1 + arena.size(*second) as usize / LITERALS_OF_WORK);
            if !self.add(arena, marks, var, first, *second) {
                return false;
            }
        }
        true
    }

    // Finds the resolvents of the clauses of a variable. Answers whether there is room for them.
    fn resolve_all(&mut self, arena: &Arena, occurrences: &mut Occurrences, var: u32) -> bool {
        let Occurrences {
            lists,
            marks,
            work,
            ..
        } = occurrences;
        let others = clauses_of(lists, lit_of(var, false));
        let mut is_fit = true;
        for first in clauses_of(lists, lit_of(var, true)) {
            if is_fit {
                mark(marks, arena.literals(*first), true);
                is_fit = self.add_all(arena, marks, work, var as usize, *first, others);
                mark(marks, arena.literals(*first), false);
            }
        }
        is_fit
    }

    // Writes the resolvents down and notes them, in the place of their clauses.
    fn write(&self, data: &mut Database, occurrences: &mut Occurrences) {
        let literals = self.literals.as_slice();
        let mut start = 0;
        for resolvent in self.found.iter() {
            let end = resolvent.end;
            if start <= end && end <= literals.len() {
                enter(data, occurrences, *resolvent, &literals[start..end]);
            }
            start = end;
        }
    }
}

// Writes a resolvent down, and notes it.
fn enter(data: &mut Database, occurrences: &mut Occurrences, by: Resolvent, literals: &[Lit]) {
    cite(data, by.first, by.second);
    if let Some(place) = write_down(data, literals, GIVEN) {
        occurrences.connect(&mut data.arena, place);
    }
}

// Keeps a clause for the value of a variable: the literal that may have to be true first, and the count of the literals last.
fn keep_clause(kept: &mut Vec<u32>, lit: Lit, literals: &[Lit], is_short: &mut bool) {
    push(kept, lit, is_short);
    put_others(literals, lit, kept, is_short);
    push(kept, narrow(literals.len()), is_short);
}

// Keeps clauses for the value of a variable, which is the other one where they hold by others.
fn keep(data: &mut Database, lit: Lit, clauses: &[u32]) {
    for clause in clauses {
        let literals = data.arena.literals(*clause);
        keep_clause(&mut data.kept, lit, literals, &mut data.is_short);
    }
    data.keep(&[lit ^ 1, 1]);
}

// Takes a variable out of the clauses.
fn take_out(data: &mut Database, order: &mut Order, occurrences: &mut Occurrences, var: u32) {
    let lit = rarer(&occurrences.lists, var);
    keep(data, lit, clauses_of(&occurrences.lists, lit));
    occurrences.discard_all(&mut data.arena, lit);
    occurrences.discard_all(&mut data.arena, lit ^ 1);
    order.leave_out(var);
}

// Finds the resolvents of the clauses of a variable, if it is fit to be taken out.
fn is_fit(
    arena: &Arena,
    occurrences: &mut Occurrences,
    resolvents: &mut Resolvents,
    var: u32,
) -> bool {
    let positive = occurrences.tidy(arena, lit_of(var, true));
    let negative = occurrences.tidy(arena, lit_of(var, false));
    if positive > MOST_USES || negative > MOST_USES {
        return false;
    }
    resolvents.begin(arena, &occurrences.lists, var);
    resolvents.resolve_all(arena, occurrences, var)
}

// Takes a variable out of the clauses, if that is fit.
fn try_variable(
    data: &mut Database,
    order: &mut Order,
    occurrences: &mut Occurrences,
    resolvents: &mut Resolvents,
    var: u32,
) {
    if is_fit(&data.arena, occurrences, resolvents, var) {
        take_out(data, order, occurrences, var);
        resolvents.write(data, occurrences);
        settle(data, occurrences);
    }
}

// The variables that are to be tried, those with the fewest pairs of clauses first. None is to be tried any more then.
fn candidates(data: &Database, order: &Order, occurrences: &mut Occurrences) -> Vec<(usize, u32)> {
    let mut found = Vec::new(data.alloc);
    for var in 0..narrow(order.gone.len()) {
        let is_touched = occurrences.take_touched(var);
        if is_touched && is_open(&data.trail.values, &order.gone, var) {
            let count = pairs(&occurrences.lists, var);
            push(&mut found, (count, var), &mut occurrences.is_short);
        }
    }
    found.sort_unstable();
    found
}

// Whether a variable may be tried still.
fn is_due(data: &Database, gone: &[bool], work: u64, var: u32) -> bool {
    work > 0 && !data.is_refuted() && is_open(&data.trail.values, gone, var)
}

// Tries variables.
fn try_all(
    data: &mut Database,
    order: &mut Order,
    occurrences: &mut Occurrences,
    resolvents: &mut Resolvents,
    candidates: &[(usize, u32)],
) {
    for (_, var) in candidates {
        if is_due(data, &order.gone, occurrences.work, *var) {
            try_variable(data, order, occurrences, resolvents, *var);
        }
    }
}

// Tries each variable whose clauses changed. Answers how many were taken out.
fn pass(
    data: &mut Database,
    order: &mut Order,
    occurrences: &mut Occurrences,
    resolvents: &mut Resolvents,
) -> usize {
    let before = order.left_out;
    let candidates = candidates(data, order, occurrences);
    try_all(data, order, occurrences, resolvents, &candidates);
    subsume_all(data, occurrences);
    order.left_out.saturating_sub(before)
}

// Whether one of the literals has a variable that was taken out.
fn is_left_out(gone: &[bool], literals: &[Lit]) -> bool {
    for lit in literals {
        if is_set(gone, var_of(*lit)) {
            return true;
        }
    }
    false
}

// Lets clauses go that have variables which were taken out: the learned ones.
fn disconnect(alloc: Global, arena: &mut Arena, gone: &[bool]) {
    let clauses = arena.clauses(alloc);
    for clause in clauses.as_slice() {
        arena.set_last(*clause, FIRST);
        if is_left_out(gone, arena.literals(*clause)) {
            arena.discard(*clause);
        }
    }
}

// Eliminates variables, where the given clauses are noted.
fn eliminate_all(data: &mut Database, order: &mut Order, occurrences: &mut Occurrences) {
    let mut resolvents = Resolvents::new(data.alloc);
    subsume_all(data, occurrences);
    for _ in 0..PASSES {
        if data.is_refuted() || pass(data, order, occurrences, &mut resolvents) == 0 {
            break;
        }
    }
    if resolvents.is_short {
        occurrences.is_short = true;
    }
}

/// Eliminates variables. Nothing is watched, or decided, and all is clean, before and after.
pub fn eliminate(data: &mut Database, order: &mut Order, work: u64) {
    let vars = order.gone.len();
    let mut occurrences = Occurrences::new(data.alloc, &mut data.arena, vars, work);
    eliminate_all(data, order, &mut occurrences);
    if occurrences.is_short {
        data.is_short = true;
    }
    disconnect(data.alloc, &mut data.arena, &order.gone);
    clean(data);
}
