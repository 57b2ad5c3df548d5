//! Clauses under what is fixed (top-level simplification, as in minisat): those that hold go, and others lose their false literals,
//! while nothing is decided. Each clause that is put in the place of another is a step of the log.

use sat_arena::arena::{Arena, Status};
use sat_arena::trail::{Trail, Value, is_false, value_of};
use sat_arena::words::{Lit, at, narrow, push, push_all, var_of};
use sat_cdcl::database::Database;

/// Whether some literal stands beside its negation, where they stand in their order.
pub fn holds_always(literals: &[Lit]) -> bool {
    for k in 1..literals.len() {
        if at(literals, k) == at(literals, k - 1) ^ 1 {
            return true;
        }
    }
    false
}

/// Puts literals but one behind others.
pub fn put_others(literals: &[Lit], but: Lit, rest: &mut Vec<Lit>, is_short: &mut bool) {
    for lit in literals {
        if *lit != but {
            push(rest, *lit, is_short);
        }
    }
}

/// Lets the next step follow by two clauses.
pub fn cite(data: &mut Database, first: u32, second: u32) {
    let first = data.arena.number(first);
    let second = data.arena.number(second);
    data.hints.clear();
    push_all(&mut data.hints, &[first, second], &mut data.is_short);
}

/// Writes a clause down, which follows by the hints that are noted. Answers its place, if it has two literals or more.
pub fn write_down(data: &mut Database, literals: &[Lit], status: Status) -> Option<u32> {
    let number = data.log.add(literals, &data.hints);
    match literals {
        [] => None,
        [lit] => {
            data.add_unit(*lit, number);
            None
        }
        _ => Some(data.arena.add(literals, number, status)),
    }
}

/// Puts a clause in the place of another, from which it follows by the hints that are noted. Answers its place, if it has two literals
/// or more.
pub fn replace(data: &mut Database, clause: u32, literals: &[Lit]) -> Option<u32> {
    let status = data.arena.status(clause);
    data.arena.discard(clause);
    let status = Status {
        is_tried: false,
        glue: status.glue.min(narrow(literals.len())),
        ..status
    };
    write_down(data, literals, status)
}

// Whether some literal has a value.
fn is_touched(trail: &Trail, literals: &[Lit]) -> bool {
    for lit in literals {
        if !matches!(value_of(&trail.values, *lit), Value::Open) {
            return true;
        }
    }
    false
}

// Takes the literals of a clause that are not false. Notes by which clauses the others are, and the clause.
fn split(
    arena: &Arena,
    trail: &Trail,
    clause: u32,
    rest: &mut Vec<Lit>,
    hints: &mut Vec<u32>,
    is_short: &mut bool,
) {
    rest.clear();
    hints.clear();
    for lit in arena.literals(clause) {
        if is_false(&trail.values, *lit) {
            push(hints, trail.unit(var_of(*lit)), is_short);
        } else {
            push(rest, *lit, is_short);
        }
    }
    push(hints, arena.number(clause), is_short);
}

/// Puts a clause without its false literals in its place, which has some. Answers that place, if two literals or more are left.
pub fn shorten(data: &mut Database, clause: u32, rest: &mut Vec<Lit>) -> Option<u32> {
    let Database {
        arena,
        trail,
        hints,
        is_short,
        ..
    } = data;
    split(arena, trail, clause, rest, hints, is_short);
    replace(data, clause, rest)
}

// Leaves a clause out that holds, or its false literals.
fn clean_clause(data: &mut Database, clause: u32, rest: &mut Vec<Lit>) {
    let literals = data.arena.literals(clause);
    if !is_touched(&data.trail, literals) {
        return;
    }
    if data.trail.satisfies(literals) {
        data.arena.discard(clause);
    } else {
        let _place = shorten(data, clause, rest);
    }
}

// Leaves out once what holds or is false by what is fixed.
fn clean_once(data: &mut Database) {
    let clauses = data.arena.clauses(data.alloc);
    let mut rest: Vec<Lit> = Vec::new(data.alloc);
    for clause in clauses.as_slice() {
        if !data.is_refuted() {
            clean_clause(data, *clause, &mut rest);
        }
    }
}

/// Leaves out what holds or is false by what is fixed, until nothing more is fixed by that. Where no more is fixed than when this was
/// done last, there is nothing to do.
pub fn clean(data: &mut Database) {
    for _ in 0..u64::MAX {
        let fixed = data.trail.lits.len();
        if fixed == data.cleaned || data.is_refuted() {
            break;
        }
        clean_once(data);
        data.cleaned = fixed;
    }
    data.trail.head = data.trail.lits.len();
}
