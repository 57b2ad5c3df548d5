//! VSIDS scores (variable state independent decaying sum, Moskewicz and others 2001, as in minisat): the variable is decided first
//! that conflicts walked over the most often, newer ones counting more. Where conflicts walk over hundreds of variables, the order
//! by the newest conflict alone forgets within one what was learned in the ones before; where they do not, it is better.
//!
//! The variables stand in a heap (the one at place k is no less than those at 2k + 1 and 2k + 2).

use sat_arena::constants::SCORE_SHARE;
use sat_arena::trail::{Value, is_open};
use sat_arena::words::{NONE, at, at_or, filled, narrow, put, room_for};
use std::alloc::Global;

/// What the first conflict counts, and where all scores are made smaller, by how much.
const FIRST: u64 = 1 << 20;

const MOST: u64 = 1 << 56;

const SHRINK: u64 = 1 << 36;

/// A place in the heap has fewer levels above it.
const LEVELS: usize = 64;

/// Scores of variables, and those of them that may be open, in a heap.
pub struct Scores {
    alloc: Global,
    scores: Vec<u64>,
    // What the next conflict counts.
    step: u64,
    heap: Vec<u32>,
    // Of each variable its place in the heap, or none.
    places: Vec<u32>,
}

impl Drop for Scores {
    fn drop(self) {
        let Scores {
            alloc: _,
            scores: _,
            step: _,
            heap: _,
            places: _,
        } = self;
    }
}

impl Scores {
    /// No variables. They take room once they are decided by their scores.
    pub fn new(alloc: Global) -> Scores {
        Scores {
            alloc,
            scores: Vec::new(alloc),
            step: FIRST,
            heap: Vec::new(alloc),
            places: Vec::new(alloc),
        }
    }

    /// Puts so many variables into the heap, the greatest first, or notes that there is no room for them. At first they all have one
    /// score.
    pub fn begin(&mut self, vars: usize, is_short: &mut bool) {
        if self.places.is_empty() {
            self.scores = filled(self.alloc, 0, vars, is_short);
            self.heap = room_for(self.alloc, vars, is_short);
            self.places = filled(self.alloc, NONE, vars, is_short);
        }
        for var in (0..narrow(self.places.len())).rev() {
            self.insert(var);
        }
    }

    /// The score of a variable.
    pub fn score(&self, var: u32) -> u64 {
        at_or(&self.scores, var as usize, 0)
    }

    // The score of the variable at a place of the heap.
    fn score_at(&self, place: usize) -> u64 {
        self.score(at(&self.heap, place))
    }

    // Puts a variable at a place of the heap.
    fn set(&mut self, place: usize, var: u32) {
        put(&mut self.heap, place, var);
        put(&mut self.places, var as usize, narrow(place));
    }

    // Moves the variable at a place to where none below it has less.
    fn rise(&mut self, place: usize) {
        let var = at(&self.heap, place);
        let score = self.score(var);
        let mut here = place;
        for _ in 0..LEVELS {
            let above = here.saturating_sub(1) / 2;
            if here == 0 || score <= self.score_at(above) {
                break;
            }
            let moved = at(&self.heap, above);
            self.set(here, moved);
            here = above;
        }
        self.set(here, var);
    }

    // The place below this one that has the greater score, if there is one.
    fn greater_below(&self, place: usize) -> Option<usize> {
        let left = place.saturating_mul(2).saturating_add(1);
        let right = left.saturating_add(1);
        if left >= self.heap.len() {
            return None;
        }
        if right < self.heap.len() && self.score_at(right) > self.score_at(left) {
            return Some(right);
        }
        Some(left)
    }

    // Moves the variable at a place to where none below it has more.
    fn sink(&mut self, place: usize) {
        let var = at(&self.heap, place);
        let score = self.score(var);
        let mut here = place;
        for _ in 0..LEVELS {
            match self.greater_below(here) {
                None => break,
                Some(below) => {
                    if self.score_at(below) <= score {
                        break;
                    }
                    let moved = at(&self.heap, below);
                    self.set(here, moved);
                    here = below;
                }
            }
        }
        self.set(here, var);
    }

    /// Puts a variable into the heap, if it is not in it. There is room for all variables.
    pub fn insert(&mut self, var: u32) {
        let place = self.heap.len();
        if at(&self.places, var as usize) == NONE && self.heap.push(var).is_ok() {
            self.rise(place);
        }
    }

    /// The open variable with the greatest score, if there is one. Those before it are taken out of the heap.
    pub fn open_variable(&mut self, values: &[Value], gone: &[bool]) -> Option<u32> {
        for _ in 0..gone.len() {
            if self.heap.is_empty() {
                break;
            }
            let var = at(&self.heap, 0);
            if is_open(values, gone, var) {
                return Some(var);
            }
            self.pop();
        }
        None
    }

    // Takes the variable with the greatest score out of the heap.
    fn pop(&mut self) {
        let first = at(&self.heap, 0);
        if let Some(last) = self.heap.pop() {
            put(&mut self.places, first as usize, NONE);
            if !self.heap.is_empty() {
                put(&mut self.heap, 0, last);
                self.sink(0);
            }
        }
    }

    // Counts a variable of a conflict.
    fn bump(&mut self, var: u32) {
        let score = self.score(var).saturating_add(self.step);
        put(&mut self.scores, var as usize, score);
        let place = at(&self.places, var as usize);
        if place != NONE {
            self.rise(place as usize);
        }
    }

    /// Counts the variables of a conflict.
    pub fn bump_all(&mut self, vars: &[u32]) {
        for var in vars {
            self.bump(*var);
        }
        self.decay();
    }

    // Lets the next conflict count more.
    fn decay(&mut self) {
        self.step = self.step.saturating_add(self.step / SCORE_SHARE);
        if self.step > MOST {
            self.step /= SHRINK;
            for var in 0..narrow(self.scores.len()) {
                let score = self.score(var) / SHRINK;
                put(&mut self.scores, var as usize, score);
            }
        }
    }
}
