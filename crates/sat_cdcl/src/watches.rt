//! Unit propagation with two watched literals (Moskewicz and others 2001): a clause is looked at only where one of its two watched
//! literals becomes false, and then another literal is watched, or the clause gives its other watched literal, or it is false. A
//! watch takes eight bytes, the clause and another of its literals, the blocker (Chu and others 2008): while that is true nothing
//! is to be done. A clause of two literals is told from its watches alone.

use sat_arena::arena::{Arena, FIRST, HEADER, LAST, SIZE};
use sat_arena::constants::SHORT_CLAUSE;
use sat_arena::trail::{Trail, Value, is_false, is_true};
use sat_arena::words::{Lit, at, narrow, push, put_in};
use std::alloc::Global;
use std::mem;

/// In a watch of a clause of two literals this bit is set in the place of the clause.
const PAIR: u32 = 1 << 31;

/// A clause in the list of one of its literals, and another literal of it.
#[derive(Clone, Copy)]
pub struct Watch {
    clause: u32,
    pub blocker: Lit,
}

impl Watch {
    /// A watch of a clause of so many literals.
    pub fn new(clause: u32, size: u32, blocker: Lit) -> Watch {
        let clause = if size == 2 { clause | PAIR } else { clause };
        Watch { clause, blocker }
    }

    /// Whether the clause has two literals, which are the one in whose list this is, and the blocker.
    #[inline]
    pub fn is_pair(self) -> bool {
        self.clause >= PAIR
    }

    /// The clause.
    #[inline]
    pub fn clause(self) -> u32 {
        self.clause % PAIR
    }
}

/// What is to be done with a clause of which a watched literal became false.
#[derive(Clone, Copy)]
enum Visit {
    /// It stays in the list, with this blocker.
    Keep(Lit),
    /// The first literal is watched from now on, with the second for its blocker.
    Move(Lit, Lit),
    /// This literal is open, and each other one is false.
    Unit(Lit),
    /// Each literal is false.
    Conflict,
}

/// How a list was walked through: the clause that is false, if any, how many watches are kept at its front, and how many clauses
/// were looked at.
#[derive(Clone, Copy)]
struct Walk {
    conflict: Option<u32>,
    kept: usize,
    visits: u64,
}

// The place among all words, from one up to another, of a literal that is not false.
#[inline]
fn free_place(values: &[Value], words: &[u32], from: usize, to: usize) -> Option<usize> {
    if from > to || to > words.len() {
        return None;
    }
    let mut place = from;
    for lit in &words[from..to] {
        if !is_false(values, *lit) {
            return Some(place);
        }
        place = place.wrapping_add(1);
    }
    None
}

// The place among all words of a literal of the clause that is not watched and not false. In a long clause it is looked for from
// where one was found last, and then before that (Gent 2013).
#[inline]
fn replacement(values: &[Value], words: &mut [u32], clause: u32) -> Option<usize> {
    let header = clause as usize;
    let front = header + HEADER;
    let size = at(words, header + SIZE);
    let end = front + size as usize;
    if size <= SHORT_CLAUSE {
        return free_place(values, words, front + FIRST as usize, end);
    }
    let last = front + at(words, header + LAST) as usize;
    let mut found = free_place(values, words, last, end);
    if found.is_none() {
        found = free_place(values, words, front + FIRST as usize, last.min(end));
    }
    if let Some(place) = found {
        put_in(words, header + LAST, narrow(place.wrapping_sub(front)));
    }
    found
}

// What is to be done with a clause of which each other literal is false, and this one is not true.
#[inline]
fn look_at_last(values: &[Value], lit: Lit) -> Visit {
    if is_false(values, lit) {
        Visit::Conflict
    } else {
        Visit::Unit(lit)
    }
}

// Decides what is to be done with a clause, and moves the literal that is to be watched to its front.
#[inline]
fn look_at(values: &[Value], words: &mut [u32], clause: u32, failed: Lit) -> Visit {
    let front = clause as usize + HEADER;
    let other = at(words, front) ^ at(words, front + 1) ^ failed;
    if is_true(values, other) {
        return Visit::Keep(other);
    }
    match replacement(values, words, clause) {
        None => look_at_last(values, other),
        Some(place) => {
            let found = at(words, place);
            if is_true(values, found) {
                return Visit::Keep(found);
            }
            put_in(words, front, other);
            put_in(words, front + 1, found);
            put_in(words, place, failed);
            Visit::Move(found, other)
        }
    }
}

// Decides what is to be done with a watch whose blocker is not true.
#[inline]
fn look(values: &[Value], words: &mut [u32], watch: Watch, failed: Lit) -> Visit {
    if watch.is_pair() {
        look_at_last(values, watch.blocker)
    } else {
        look_at(values, words, watch.clause(), failed)
    }
}

// Writes a watch over the front of the list.
#[inline]
fn keep(list: &mut [Watch], kept: &mut usize, watch: Watch) {
    put_in(list, *kept, watch);
    *kept = (*kept).wrapping_add(1);
}

// Keeps all watches from a place on.
fn keep_rest(list: &mut [Watch], kept: &mut usize, from: usize) {
    for i in from..list.len() {
        let watch = list[i];
        keep(list, kept, watch);
    }
}

// Walks through the list of a literal that became false, up to a clause that is false. The watches that stay are written over
// the front of the list.
fn walk_through(
    trail: &mut Trail,
    words: &mut [u32],
    lists: &mut [Vec<Watch>],
    list: &mut [Watch],
    failed: Lit,
) -> Walk {
    let mut kept: usize = 0;
    let mut visits: u64 = 0;
    for i in 0..list.len() {
        let watch = list[i];
        if is_true(&trail.values, watch.blocker) {
            keep(list, &mut kept, watch);
            continue;
        }
        visits = visits.wrapping_add(1);
        match look(&trail.values, words, watch, failed) {
            Visit::Keep(blocker) => {
                let clause = watch.clause;
                keep(list, &mut kept, Watch { clause, blocker });
            }
            Visit::Move(to, blocker) => {
                let clause = watch.clause;
                watch_by(lists, to, Watch { clause, blocker }, &mut trail.is_short);
            }
            Visit::Unit(lit) => {
                keep(list, &mut kept, watch);
                trail.assign(lit, watch.clause());
            }
            Visit::Conflict => {
                keep_rest(list, &mut kept, i);
                return Walk {
                    conflict: Some(watch.clause()),
                    kept,
                    visits,
                };
            }
        }
    }
    Walk {
        conflict: None,
        kept,
        visits,
    }
}

// Works off the list of a literal that became false.
fn follow(
    alloc: Global,
    trail: &mut Trail,
    words: &mut [u32],
    lists: &mut [Vec<Watch>],
    failed: Lit,
) -> Walk {
    let mut list = take_list(alloc, lists, failed);
    let walk = walk_through(trail, words, lists, &mut list, failed);
    list.truncate(walk.kept);
    put_list(lists, failed, list);
    walk
}

/// Propagates the literals of the trail that were not. Answers a clause that is false, if there is one. Each clause that is looked
/// at is counted as work.
pub fn propagate(
    alloc: Global,
    trail: &mut Trail,
    words: &mut [u32],
    lists: &mut [Vec<Watch>],
    work: &mut u64,
) -> Option<u32> {
    for _ in 0..u64::MAX {
        match trail.next() {
            None => break,
            Some(lit) => {
                let walk = follow(alloc, trail, words, lists, lit ^ 1);
                *work = work.saturating_add(walk.visits);
                if walk.conflict.is_some() {
                    return walk.conflict;
                }
            }
        }
    }
    None
}

// Takes the list of a literal out, and leaves an empty one.
fn take_list(alloc: Global, lists: &mut [Vec<Watch>], lit: Lit) -> Vec<Watch> {
    let place = lit as usize;
    if place < lists.len() {
        mem::replace(&mut lists[place], Vec::new(alloc))
    } else {
        Vec::new(alloc)
    }
}

// Puts the list of a literal in its place.
fn put_list(lists: &mut [Vec<Watch>], lit: Lit, list: Vec<Watch>) {
    let place = lit as usize;
    if place < lists.len() {
        lists[place] = list;
    }
}

/// The list of a literal.
pub fn list_of(lists: &[Vec<Watch>], lit: Lit) -> &[Watch] {
    let place = lit as usize;
    if place < lists.len() {
        lists[place].as_slice()
    } else {
        &[]
    }
}

// Puts a watch into the list of a literal, or notes that there is no room for it.
#[inline]
fn watch_by(lists: &mut [Vec<Watch>], lit: Lit, watch: Watch, is_short: &mut bool) {
    let place = lit as usize;
    if place < lists.len() {
        push(&mut lists[place], watch, is_short);
    }
}

/// Watches the first two literals of a clause, or notes that there is no room for that.
pub fn attach(arena: &Arena, lists: &mut [Vec<Watch>], clause: u32, is_short: &mut bool) {
    let size = arena.size(clause);
    let first = arena.literal(clause, 0);
    let second = arena.literal(clause, 1);
    watch_by(lists, first, Watch::new(clause, size, second), is_short);
    watch_by(lists, second, Watch::new(clause, size, first), is_short);
}

/// Watches those of the clauses that have two literals, or those that have more.
pub fn attach_all(
    arena: &Arena,
    lists: &mut [Vec<Watch>],
    clauses: &[u32],
    is_pair: bool,
    is_short: &mut bool,
) {
    for clause in clauses {
        if (arena.size(*clause) == 2) == is_pair {
            attach(arena, lists, *clause, is_short);
        }
    }
}

/// Takes all watches away, with their room.
pub fn drop_watches(alloc: Global, lists: &mut [Vec<Watch>]) {
    for list in lists.iter_mut() {
        *list = Vec::new(alloc);
    }
}

/// Empties all lists, which keep their room.
pub fn clear_lists(lists: &mut [Vec<Watch>]) {
    for list in lists.iter_mut() {
        list.clear();
    }
}
