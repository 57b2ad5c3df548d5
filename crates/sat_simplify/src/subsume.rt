//! Subsumption and self-subsuming resolution (Een and Biere 2005): a clause goes of which another is a part, and a literal goes of
//! a clause of which another is a part but for that literal, which it has negated. Each clause is tried once against those of its
//! rarest literal.

use crate::clean::{cite, replace, shorten};
use crate::occurrences::{Occurrences, clauses_of, mark, spend};
use sat_arena::arena::Arena;
use sat_arena::constants::{LITERALS_OF_WORK, MOST_SUBSUMED, SUBSUMING};
use sat_arena::words::{Lit, is_set};
use sat_cdcl::database::Database;
use std::alloc::Global;
use std::mem;

/// How the marked literals lie in a clause.
#[derive(Clone, Copy)]
enum Cover {
    All,
    /// All but one, whose negation is this literal.
    But(Lit),
    No,
}

// How the marked literals, which are so many, lie in a clause.
fn covered(marks: &[bool], count: usize, literals: &[Lit]) -> Cover {
    let mut found: usize = 0;
    let mut cover = Cover::All;
    for lit in literals {
        if is_set(marks, *lit as usize) {
            found = found.wrapping_add(1);
        } else if is_set(marks, (*lit ^ 1) as usize) {
            if !matches!(cover, Cover::All) {
                return Cover::No;
            }
            found = found.wrapping_add(1);
            cover = Cover::But(*lit);
        }
    }
    if found == count { cover } else { Cover::No }
}

// Puts a clause without a literal in its place, which the literals of another clause but its negation make false.
fn strengthen(data: &mut Database, occurrences: &mut Occurrences, by: u32, clause: u32, lit: Lit) {
    occurrences.leave(data.arena.literals(clause), lit);
    cite(data, by, clause);
    if let Some(place) = replace(data, clause, &occurrences.rest) {
        occurrences.connect(&mut data.arena, place);
    }
}

// Leaves out of a clause what is false, or the clause, if it holds.
fn settle_clause(data: &mut Database, occurrences: &mut Occurrences, clause: u32) {
    if data.trail.satisfies(data.arena.literals(clause)) {
        occurrences.discard(&mut data.arena, clause);
    } else if !data.is_refuted() {
        if let Some(place) = shorten(data, clause, &mut occurrences.rest) {
            occurrences.connect(&mut data.arena, place);
        }
    }
}

// Leaves out a literal that is fixed: clauses in which it stands hold, and others lose what is false in them.
fn settle_one(data: &mut Database, occurrences: &mut Occurrences, lit: Lit) {
    occurrences.discard_all(&mut data.arena, lit);
    let count = occurrences.tidy(&data.arena, lit ^ 1);
    for place in 0..count {
        let clause = occurrences.clause_at(lit ^ 1, place);
        settle_clause(data, occurrences, clause);
    }
}

/// Leaves out what is fixed from the clauses that are noted.
pub fn settle(data: &mut Database, occurrences: &mut Occurrences) {
    for _ in 0..u64::MAX {
        match data.trail.next() {
            None => break,
            Some(lit) => settle_one(data, occurrences, lit),
        }
    }
}

// Whether a clause can have all variables of another one, by what is noted of both.
fn may_cover(arena: &Arena, by: u32, clause: u32) -> bool {
    arena.size(clause) >= arena.size(by) && arena.last(by) & !arena.last(clause) == 0
}

// How the literals of the marked clause lie in another one.
fn cover_of(arena: &Arena, occurrences: &mut Occurrences, by: u32, clause: u32) -> Cover {
    if clause == by || !may_cover(arena, by, clause) {
        return Cover::No;
    }
    let literals = arena.literals(clause);
    spend(&mut occurrences.work, literals.len() / LITERALS_OF_WORK);
    covered(&occurrences.marks, arena.size(by) as usize, literals)
}

// Lets a clause go that the marked one subsumes, or makes it shorter.
fn try_clause(data: &mut Database, occurrences: &mut Occurrences, by: u32, clause: u32) {
    match cover_of(&data.arena, occurrences, by, clause) {
        Cover::All => occurrences.discard(&mut data.arena, clause),
        Cover::But(lit) => strengthen(data, occurrences, by, clause, lit),
        Cover::No => {}
    }
}

// Tries a clause, whose literals are marked, on the clauses of one of its literals or of the negation of that, but not on those that
// come to them by that.
fn try_list(data: &mut Database, occurrences: &mut Occurrences, clause: u32, lit: Lit) {
    let count = occurrences.tidy(&data.arena, lit);
    spend(&mut occurrences.work, count);
    for place in 0..count {
        let other = occurrences.clause_at(lit, place);
        try_clause(data, occurrences, clause, other);
    }
}

// The literal whose variable stands in the fewest clauses, and how many these are.
fn rarest(lists: &[Vec<u32>], literals: &[Lit]) -> (Lit, usize) {
    let mut found: Lit = 0;
    let mut least = usize::MAX;
    for lit in literals {
        let opposite = clauses_of(lists, *lit ^ 1).len();
        let count = clauses_of(lists, *lit).len().saturating_add(opposite);
        if count < least {
            found = *lit;
            least = count;
        }
    }
    (found, least)
}

// Tries a clause on those of a literal and of its negation.
fn try_both(data: &mut Database, occurrences: &mut Occurrences, clause: u32, lit: Lit) {
    mark(&mut occurrences.marks, data.arena.literals(clause), true);
    try_list(data, occurrences, clause, lit);
    try_list(data, occurrences, clause, lit ^ 1);
    mark(&mut occurrences.marks, data.arena.literals(clause), false);
    settle(data, occurrences);
}

// Tries a clause on those that it may subsume or make shorter.
fn subsume(data: &mut Database, occurrences: &mut Occurrences, clause: u32) {
    let literals = data.arena.literals(clause);
    let (lit, count) = rarest(&occurrences.lists, literals);
    if count <= MOST_SUBSUMED && literals.len() <= SUBSUMING {
        try_both(data, occurrences, clause, lit);
    }
}

// Takes the clauses out that are to be tried, the shortest first.
fn take_queue(alloc: Global, queue: &mut Vec<(u32, u32)>) -> Vec<(u32, u32)> {
    let mut waiting = mem::replace(queue, Vec::new(alloc));
    waiting.sort_unstable();
    waiting
}

// Tries the clauses that may be tried still.
fn subsume_these(data: &mut Database, occurrences: &mut Occurrences, clauses: &[(u32, u32)]) {
    for (_, clause) in clauses {
        let status = data.arena.status(*clause);
        if !status.is_garbage && !data.is_refuted() && occurrences.work > 0 {
            subsume(data, occurrences, *clause);
        }
    }
}

/// Tries all clauses that wait for it, and those that come to them by that.
pub fn subsume_all(data: &mut Database, occurrences: &mut Occurrences) {
    for _ in 0..u64::MAX {
        if occurrences.queue.is_empty() {
            break;
        }
        let waiting = take_queue(data.alloc, &mut occurrences.queue);
        subsume_these(data, occurrences, &waiting);
    }
}
