//! Clause-database reduction by glue (literal block distance, Audemard and Simon 2009, with the tiers of cadical): learned clauses
//! go, those of many levels first. Then the clauses that stay are moved together, and all watches are made anew, those of two
//! literals first.

use crate::database::Database;
use crate::engine::Engine;
use crate::watches::{Watch, attach_all, clear_lists, drop_watches};
use sat_arena::arena::{Arena, Status};
use sat_arena::constants::{LEAST_LOG, LOG_GROWTH, SHARE, TIER1_GLUE};
use sat_arena::log::Log;
use sat_arena::trail::{Trail, is_true};
use sat_arena::words::{at, push, put, var_of};

// The variable to which a clause gave its value, if it did.
fn given_by(arena: &Arena, trail: &Trail, clause: u32) -> Option<usize> {
    for k in 0..2 {
        let lit = arena.literal(clause, k);
        let fact = trail.fact(var_of(lit));
        if fact.reason == clause && is_true(&trail.values, lit) {
            return Some(var_of(lit));
        }
    }
    None
}

// Makes the clauses garbage that hold by what is fixed.
fn discard_satisfied(arena: &mut Arena, trail: &Trail, clauses: &[u32]) {
    for clause in clauses {
        if trail.satisfies(arena.literals(*clause)) {
            arena.discard(*clause);
        }
    }
}

// Whether a learned clause may go. It is used up by one reduction.
fn may_go(arena: &mut Arena, trail: &Trail, clause: u32) -> bool {
    let status = arena.status(clause);
    if status.is_garbage || !status.is_learned || arena.size(clause) == 2 {
        return false;
    }
    let used = status.used.saturating_sub(1);
    arena.set_status(clause, Status { used, ..status });
    status.glue > TIER1_GLUE && status.used == 0 && given_by(arena, trail, clause).is_none()
}

// The clauses that may go, behind their glue and their size: those of less glue stay before others, and then shorter ones.
fn candidates(data: &mut Database, clauses: &[u32]) -> Vec<(u32, u32, u32)> {
    let mut found = Vec::new(data.alloc);
    for clause in clauses {
        if may_go(&mut data.arena, &data.trail, *clause) {
            let status = data.arena.status(*clause);
            let candidate = (status.glue, data.arena.size(*clause), *clause);
            push(&mut found, candidate, &mut data.is_short);
        }
    }
    found.sort_unstable();
    found
}

// Makes the last ones of the candidates garbage, as many as are to go.
fn discard_last(arena: &mut Arena, candidates: &[(u32, u32, u32)]) {
    let going = candidates.len().saturating_mul(SHARE) / 100;
    for k in candidates.len().saturating_sub(going)..candidates.len() {
        let (_, _, clause) = candidates[k];
        arena.discard(clause);
    }
}

/// Makes clauses garbage that hold by what is fixed, if that is more than when this was done last, and most of the learned ones that may
/// go.
pub fn discard_worst(data: &mut Database) {
    let clauses = data.arena.clauses(data.alloc);
    if data.fixed != data.satisfied {
        data.satisfied = data.fixed;
        discard_satisfied(&mut data.arena, &data.trail, &clauses);
    }
    let candidates = candidates(data, &clauses);
    discard_last(&mut data.arena, &candidates);
}

// Marks the steps by which there are clauses and fixed literals.
fn mark_needed(log: &Log, arena: &Arena, units: &[u32], clauses: &[u32], needed: &mut Vec<bool>) {
    for clause in clauses {
        log.need(arena.number(*clause), needed);
    }
    for unit in units {
        log.need(*unit, needed);
    }
}

// Gives clauses and fixed literals the new numbers of their steps.
fn renumber(log: &Log, arena: &mut Arena, units: &mut Vec<u32>, clauses: &[u32], numbers: &[u32]) {
    for clause in clauses {
        let number = log.new_number(numbers, arena.number(*clause));
        arena.set_number(*clause, number);
    }
    for var in 0..units.len() {
        let number = log.new_number(numbers, at(units, var));
        put(units, var, number);
    }
}

/// Leaves steps out of the log that are of no use any more, if it has so many bytes. Sets how many it is to have for that the next time.
pub fn trim(data: &mut Database, size: &mut usize) {
    if data.log.size < *size {
        return;
    }
    let clauses = data.arena.clauses(data.alloc);
    let mut needed = data.log.no_marks();
    mark_needed(
        &data.log,
        &data.arena,
        &data.trail.units,
        &clauses,
        &mut needed,
    );
    let numbers = data.log.trim(&mut needed);
    let units = &mut data.trail.units;
    renumber(&data.log, &mut data.arena, units, &clauses, &numbers);
    *size = data.log.size.saturating_mul(LOG_GROWTH).max(LEAST_LOG);
}

// Moves a clause to a place before it, if it is no garbage or gave some variable its value. Answers the place behind it, or this one.
fn move_clause(arena: &mut Arena, trail: &mut Trail, from: u32, to: u32) -> u32 {
    let var = given_by(arena, trail, from);
    if let Some(var) = var {
        trail.set_reason(var, to);
    }
    let status = arena.status(from);
    if status.is_garbage && var.is_none() {
        return to;
    }
    arena.shift(from, to);
    arena.next(to)
}

// Moves the clauses together that are no garbage, or gave some variable its value.
fn move_together(arena: &mut Arena, trail: &mut Trail) {
    let mut from: u32 = 0;
    let mut to: u32 = 0;
    let end = arena.end();
    for _ in 0..end {
        if from >= end {
            break;
        }
        let next = arena.next(from);
        to = move_clause(arena, trail, from, to);
        from = next;
    }
    arena.words.truncate(to as usize);
}

// Moves the clauses together that are no garbage, or gave some variable its value, and watches them.
fn collect(data: &mut Database, lists: &mut Vec<Vec<Watch>>) {
    move_together(&mut data.arena, &mut data.trail);
    clear_lists(lists);
    let clauses = data.arena.clauses(data.alloc);
    let is_short = &mut data.is_short;
    attach_all(&data.arena, lists, &clauses, true, is_short);
    attach_all(&data.arena, lists, &clauses, false, is_short);
}

impl Engine {
    /// Takes all watches away, with their room.
    pub fn unwatch(&mut self) {
        drop_watches(self.data.alloc, &mut self.lists);
    }

    /// Moves the clauses together that are no garbage, or gave some variable its value, and watches them.
    pub fn collect(&mut self) {
        collect(&mut self.data, &mut self.lists);
    }
}
