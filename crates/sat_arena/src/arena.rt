//! The clause arena (as in minisat and cadical): the clauses of the search in one vector of words, one behind the other, each with
//! four words of header before its literals, of which the first two are watched. A clause is named by the place of its header.
//! Clauses that are given up are garbage until all others are moved together.

use crate::words::{Lit, at, narrow, push, push_all, put};
use std::alloc::Global;

/// The words of a header: how many literals there are, the packed status, the number of the clause in the log, and the place, among
/// the literals, at which a literal to be watched was found last. (While nothing is watched, the last word may be used otherwise.)
pub const SIZE: usize = 0;

const STATUS: usize = 1;

const NUMBER: usize = 2;

pub const LAST: usize = 3;

pub const HEADER: usize = 4;

/// The first literal that is not watched.
pub const FIRST: u32 = 2;

/// Up to which glue clauses are told apart.
const MOST_GLUE: u32 = (1 << 24) - 1;

/// What is known of a clause besides its literals.
#[derive(Clone, Copy)]
pub struct Status {
    pub is_learned: bool,
    pub is_garbage: bool,
    /// Whether it was tried whether it subsumes others.
    pub is_tried: bool,
    /// For how many reductions it stays, up to 3.
    pub used: u32,
    /// Its glue: how many levels its literals had, of those of conflicts that it took part in the least (literal block distance,
    /// Audemard and Simon 2009).
    pub glue: u32,
}

// The status in one word.
fn packed(status: Status) -> u32 {
    let learned = u32::from(status.is_learned);
    let garbage = u32::from(status.is_garbage).wrapping_mul(2);
    let tried = u32::from(status.is_tried).wrapping_mul(4);
    let used = status.used.min(3).wrapping_mul(8);
    let glue = status.glue.min(MOST_GLUE).wrapping_mul(32);
    learned | garbage | tried | used | glue
}

/// Clauses by the places of their headers.
pub struct Arena {
    pub words: Vec<u32>,
    /// Whether there was no room for a clause.
    pub is_short: bool,
}

impl Drop for Arena {
    fn drop(self) {
        let Arena {
            words: _,
            is_short: _,
        } = self;
    }
}

impl Arena {
    /// No clauses.
    pub fn new(alloc: Global) -> Arena {
        Arena {
            words: Vec::new(alloc),
            is_short: false,
        }
    }

    /// The place behind all clauses.
    pub fn end(&self) -> u32 {
        narrow(self.words.len())
    }

    /// How many literals a clause has.
    pub fn size(&self, clause: u32) -> u32 {
        at(&self.words, clause as usize + SIZE)
    }

    /// The clause behind this one.
    pub fn next(&self, clause: u32) -> u32 {
        clause
            .wrapping_add(HEADER as u32)
            .wrapping_add(self.size(clause))
    }

    // The clauses that are no garbage, or the given ones of them.
    fn gather(&mut self, alloc: Global, is_given: bool) -> Vec<u32> {
        let mut found = Vec::new(alloc);
        let mut clause: u32 = 0;
        for _ in 0..self.words.len() {
            if clause >= self.end() {
                break;
            }
            let status = self.status(clause);
            if !status.is_garbage && !(is_given && status.is_learned) {
                push(&mut found, clause, &mut self.is_short);
            }
            clause = self.next(clause);
        }
        found
    }

    /// The clauses that are no garbage.
    pub fn clauses(&mut self, alloc: Global) -> Vec<u32> {
        self.gather(alloc, false)
    }

    /// The given clauses that are no garbage, and those in the place of such.
    pub fn given(&mut self, alloc: Global) -> Vec<u32> {
        self.gather(alloc, true)
    }

    /// The literals of a clause.
    pub fn literals(&self, clause: u32) -> &[Lit] {
        let from = clause as usize + HEADER;
        let to = from.wrapping_add(self.size(clause) as usize);
        if from <= to && to <= self.words.len() {
            &self.words[from..to]
        } else {
            &[]
        }
    }

    /// The literal at a place of a clause.
    pub fn literal(&self, clause: u32, place: u32) -> Lit {
        at(&self.words, clause as usize + HEADER + place as usize)
    }

    /// What is known of a clause.
    pub fn status(&self, clause: u32) -> Status {
        let word = at(&self.words, clause as usize + STATUS);
        Status {
            is_learned: word % 2 == 1,
            is_garbage: word / 2 % 2 == 1,
            is_tried: word / 4 % 2 == 1,
            used: word / 8 % 4,
            glue: word / 32,
        }
    }

    /// Notes what is known of a clause.
    pub fn set_status(&mut self, clause: u32, status: Status) {
        put(&mut self.words, clause as usize + STATUS, packed(status));
    }

    /// Makes a clause garbage.
    pub fn discard(&mut self, clause: u32) {
        let status = self.status(clause);
        self.set_status(
            clause,
            Status {
                is_garbage: true,
                ..status
            },
        );
    }

    /// The number of a clause in the log.
    pub fn number(&self, clause: u32) -> u32 {
        at(&self.words, clause as usize + NUMBER)
    }

    /// The last word of the header.
    pub fn last(&self, clause: u32) -> u32 {
        at(&self.words, clause as usize + LAST)
    }

    /// Sets the last word of the header.
    pub fn set_last(&mut self, clause: u32, word: u32) {
        put(&mut self.words, clause as usize + LAST, word);
    }

    /// Sets the number of a clause in the log.
    pub fn set_number(&mut self, clause: u32, number: u32) {
        put(&mut self.words, clause as usize + NUMBER, number);
    }

    /// Puts a clause behind the others. Answers its place.
    pub fn add(&mut self, literals: &[Lit], number: u32, status: Status) -> u32 {
        let clause = self.end();
        let Arena { words, is_short } = self;
        push(words, narrow(literals.len()), is_short);
        push(words, packed(status), is_short);
        push(words, number, is_short);
        push(words, FIRST, is_short);
        push_all(words, literals, is_short);
        clause
    }

    /// Lets the room go that no clause takes, where the clauses can be copied.
    pub fn fit(&mut self, alloc: Global) {
        if let Ok(words) = Vec::from_slice(alloc, &self.words) {
            self.words = words;
        }
    }

    /// Copies a clause to a place before it, or leaves it at its own.
    pub fn shift(&mut self, from: u32, to: u32) {
        if from == to {
            return;
        }
        let count = HEADER + self.size(from) as usize;
        for i in 0..count {
            let word = at(&self.words, (from as usize).wrapping_add(i));
            put(&mut self.words, (to as usize).wrapping_add(i), word);
        }
    }
}
