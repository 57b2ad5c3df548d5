//! The log of derivations (LRAT, Cruz-Filipe and others 2017, without deletions), in bytes: of each step how many literals its
//! clause has, these, how many hints there are, and how far each of these is from the one before it, the first from the step.
//! Numbers are in groups of seven bits, the least significant first. A search takes most of its memory for this, so of a step nothing
//! else is kept but where it begins, and steps are left out that no clause which is still there needs.
//!
//! The bytes stand in blocks, each of whole steps. So where steps are left out, or written out for the judge, a block is let go as
//! soon as it is read, and no second log stands beside the first.

use crate::constants::LOG_BLOCK;
use crate::words::{
    Lit, at, at_or, filled, is_negated, is_set, narrow, push, put, room_for, var_of,
};
use cnf::Dim;
use refute_check::Step;
use std::alloc::Global;
use std::mem;

/// In how many groups of seven bits a word stands at most.
const GROUPS: u32 = 5;

/// Steps one behind the other, where each begins, and the place in the log that the first of them has.
struct Block {
    bytes: Vec<u8>,
    starts: Vec<u32>,
    first: u32,
}

impl Drop for Block {
    fn drop(self) {
        let Block {
            bytes: _,
            starts: _,
            first: _,
        } = self;
    }
}

/// The new numbers of clauses: so many are given, which keep theirs, and behind them are those of the steps.
#[derive(Clone, Copy)]
struct Numbers<'a> {
    given: u32,
    steps: &'a [u32],
}

/// Steps, whose clauses have numbers behind those of the given ones.
pub struct Log {
    alloc: Global,
    // The blocks that are full, and the newest one.
    blocks: Vec<Block>,
    newest: Block,
    given: u32,
    pub steps: u32,
    /// How many steps there are up to the first whose clause is empty, or 0.
    pub end: u32,
    /// How many bytes they take.
    pub size: usize,
    /// Whether there was no room for a step.
    pub is_short: bool,
}

impl Drop for Log {
    fn drop(self) {
        let Log {
            alloc: _,
            blocks: _,
            newest: _,
            given: _,
            steps: _,
            end: _,
            size: _,
            is_short: _,
        } = self;
    }
}

// Puts a number behind the bytes.
#[inline]
fn push_number(bytes: &mut Vec<u8>, number: u32, is_short: &mut bool) {
    let mut rest = number;
    for _ in 1..GROUPS {
        if rest < 128 {
            break;
        }
        push(bytes, 128 + (rest % 128) as u8, is_short);
        rest /= 128;
    }
    push(bytes, (rest % 128) as u8, is_short);
}

// Puts a clause behind the bytes.
fn push_clause(bytes: &mut Vec<u8>, clause: &[Lit], is_short: &mut bool) {
    push_number(bytes, narrow(clause.len()), is_short);
    for lit in clause {
        push_number(bytes, *lit, is_short);
    }
}

// Puts the hints of a step of this number behind the bytes.
fn push_hints(bytes: &mut Vec<u8>, number: u32, hints: &[u32], is_short: &mut bool) {
    push_number(bytes, narrow(hints.len()), is_short);
    let mut before = number;
    for hint in hints {
        push_number(bytes, folded(before.wrapping_sub(*hint)), is_short);
        before = *hint;
    }
}

// A difference of two numbers as one that is small where they are near to each other.
#[inline]
fn folded(difference: u32) -> u32 {
    if difference < 1 << 31 {
        difference.wrapping_mul(2)
    } else {
        (!difference).wrapping_mul(2).wrapping_add(1)
    }
}

// The difference that was folded.
#[inline]
fn unfolded(number: u32) -> u32 {
    if number % 2 == 0 {
        number / 2
    } else {
        !(number / 2)
    }
}

// The number at a place, which goes behind it. Behind the end there are zeros.
#[inline]
fn next_number(bytes: &[u8], place: &mut usize) -> u32 {
    let mut number: u32 = 0;
    for group in 0..GROUPS {
        let byte = at_or(bytes, *place, 0);
        *place = (*place).saturating_add(1);
        number = number | u32::from(byte % 128).wrapping_shl(7 * group);
        if byte < 128 {
            break;
        }
    }
    number
}

// Reads the clause of a step.
fn read_clause(bytes: &[u8], place: &mut usize, clause: &mut Vec<Lit>, is_short: &mut bool) {
    clause.clear();
    for _ in 0..next_number(bytes, place) {
        push(clause, next_number(bytes, place), is_short);
    }
}

// Reads the clause of a step as the judge takes it.
fn read_dims(bytes: &[u8], place: &mut usize, dims: &mut Vec<Dim>, is_short: &mut bool) {
    dims.clear();
    for _ in 0..next_number(bytes, place) {
        let lit = next_number(bytes, place);
        let var = var_of(lit);
        let negated = is_negated(lit);
        push(dims, Dim { var, negated }, is_short);
    }
}

// Reads the hints of a step of this number, with their new numbers.
fn read_hints(
    bytes: &[u8],
    place: &mut usize,
    number: u32,
    numbers: Numbers<'_>,
    hints: &mut Vec<u32>,
    is_short: &mut bool,
) {
    hints.clear();
    let mut hint = number;
    for _ in 0..next_number(bytes, place) {
        hint = hint.wrapping_sub(unfolded(next_number(bytes, place)));
        push(hints, numbers.of(hint), is_short);
    }
}

// Reads the hints of a step of this number as the judge takes them.
fn read_places(
    bytes: &[u8],
    place: &mut usize,
    number: u32,
    places: &mut Vec<usize>,
    is_short: &mut bool,
) {
    places.clear();
    let mut hint = number;
    for _ in 0..next_number(bytes, place) {
        hint = hint.wrapping_sub(unfolded(next_number(bytes, place)));
        push(places, hint as usize, is_short);
    }
}

// The place behind so many numbers, each of which ends with a byte below 128.
fn behind(bytes: &[u8], start: usize, count: u32) -> usize {
    let mut left = count;
    for place in start..bytes.len() {
        if left == 0 {
            return place;
        }
        left = left.wrapping_sub(u32::from(bytes[place] < 128));
    }
    bytes.len()
}

impl Numbers<'_> {
    // The new number of a clause.
    fn of(self, number: u32) -> u32 {
        if number < self.given {
            return number;
        }
        at(self.steps, (number - self.given) as usize)
    }
}

impl Block {
    // No steps, with room for bytes, from a place of the log on.
    fn new(alloc: Global, bytes: Vec<u8>, first: u32) -> Block {
        Block {
            bytes,
            starts: Vec::new(alloc),
            first,
        }
    }

    // Puts a step of this number behind the others. Answers how many bytes it takes.
    fn add(&mut self, number: u32, clause: &[Lit], hints: &[u32], is_short: &mut bool) -> usize {
        let bytes = &mut self.bytes;
        let before = bytes.len();
        push(&mut self.starts, narrow(before), is_short);
        push_clause(bytes, clause, is_short);
        push_hints(bytes, number, hints, is_short);
        bytes.len().saturating_sub(before)
    }

    // The place in the log of a step.
    fn place(&self, k: usize) -> usize {
        (self.first as usize).wrapping_add(k)
    }

    // Marks the steps that a step cites.
    fn need_hints(&self, start: usize, place: usize, needed: &mut Vec<bool>) {
        let bytes = self.bytes.as_slice();
        let mut next = start;
        let literals = next_number(bytes, &mut next);
        next = behind(bytes, next, literals);
        let mut hint = narrow(place);
        for _ in 0..next_number(bytes, &mut next) {
            hint = hint.wrapping_sub(unfolded(next_number(bytes, &mut next)));
            put(needed, hint as usize, true);
        }
    }

    // Marks the steps that the marked steps of this block cite, the last one first.
    fn need_all(&self, needed: &mut Vec<bool>) {
        for k in (0..self.starts.len()).rev() {
            let place = self.place(k);
            if is_set(needed, place) {
                self.need_hints(at(&self.starts, k) as usize, place, needed);
            }
        }
    }

    // Reads a step, with the new numbers of its hints.
    fn read(
        &self,
        k: usize,
        numbers: Numbers<'_>,
        clause: &mut Vec<Lit>,
        hints: &mut Vec<u32>,
        is_short: &mut bool,
    ) {
        let bytes = self.bytes.as_slice();
        let mut next = at(&self.starts, k) as usize;
        read_clause(bytes, &mut next, clause, is_short);
        let number = numbers.given.wrapping_add(narrow(self.place(k)));
        read_hints(bytes, &mut next, number, numbers, hints, is_short);
    }

    // Puts the steps as the judge takes them behind others, where so many clauses are given.
    fn write(&self, alloc: Global, given: u32, steps: &mut Vec<Step>, is_short: &mut bool) {
        let mut dims = Vec::new(alloc);
        let mut places = Vec::new(alloc);
        let bytes = self.bytes.as_slice();
        for (k, start) in self.starts.iter().enumerate() {
            let mut next = *start as usize;
            read_dims(bytes, &mut next, &mut dims, is_short);
            let number = given.wrapping_add(narrow(self.place(k)));
            read_places(bytes, &mut next, number, &mut places, is_short);
            push_step(alloc, &dims, &places, steps, is_short);
        }
    }
}

// Puts a step as the judge takes it behind others.
fn push_step(
    alloc: Global,
    dims: &[Dim],
    places: &[usize],
    steps: &mut Vec<Step>,
    is_short: &mut bool,
) {
    match Step::of(alloc, dims, places) {
        Ok(step) => push(steps, step, is_short),
        Err(_) => *is_short = true,
    }
}

impl Log {
    /// No steps, behind so many given clauses.
    pub fn new(alloc: Global, given: u32) -> Log {
        Log {
            alloc,
            blocks: Vec::new(alloc),
            newest: Block::new(alloc, Vec::new(alloc), 0),
            given,
            steps: 0,
            end: 0,
            size: 0,
            is_short: false,
        }
    }

    // Puts the newest block behind the others, and begins one with room for so many bytes.
    fn begin_block(&mut self, room: usize) {
        let bytes = room_for(self.alloc, room, &mut self.is_short);
        let block = Block::new(self.alloc, bytes, self.steps);
        let full = mem::replace(&mut self.newest, block);
        push(&mut self.blocks, full, &mut self.is_short);
    }

    /// Puts a step behind the others. Answers its number.
    pub fn add(&mut self, clause: &[Lit], hints: &[u32]) -> u32 {
        let numbers = clause.len().saturating_add(hints.len()).saturating_add(2);
        let most = numbers.saturating_mul(GROUPS as usize);
        if self.newest.bytes.len().saturating_add(most) > LOG_BLOCK {
            self.begin_block(LOG_BLOCK.max(most));
        }
        let number = self.given.wrapping_add(self.steps);
        let more = self.newest.add(number, clause, hints, &mut self.is_short);
        self.size = self.size.saturating_add(more);
        self.steps = self.steps.saturating_add(1);
        if clause.is_empty() && self.end == 0 {
            self.end = self.steps;
        }
        number
    }

    /// No marks of the steps.
    pub fn no_marks(&mut self) -> Vec<bool> {
        filled(self.alloc, false, self.steps as usize, &mut self.is_short)
    }

    /// Marks the step whose clause has this number, if it is none of the given ones.
    pub fn need(&self, number: u32, needed: &mut Vec<bool>) {
        put(needed, number.wrapping_sub(self.given) as usize, true);
    }

    /// The new number of a clause, where `numbers` has those of the steps.
    pub fn new_number(&self, numbers: &[u32], number: u32) -> u32 {
        let numbers = Numbers {
            given: self.given,
            steps: numbers,
        };
        numbers.of(number)
    }

    // Takes the steps of a block over that are needed, with their new numbers.
    fn take_over(&mut self, block: &Block, needed: &[bool], numbers: Numbers<'_>) {
        let mut clause = Vec::new(self.alloc);
        let mut hints = Vec::new(self.alloc);
        for k in 0..block.starts.len() {
            if is_set(needed, block.place(k)) {
                block.read(k, numbers, &mut clause, &mut hints, &mut self.is_short);
                let _number = self.add(&clause, &hints);
            }
        }
    }

    // Takes all blocks out.
    fn take_blocks(&mut self) -> Vec<Block> {
        self.steps = 0;
        self.end = 0;
        self.size = 0;
        self.begin_block(0);
        mem::replace(&mut self.blocks, Vec::new(self.alloc))
    }

    // Takes the steps of all blocks over that are needed, with their new numbers.
    fn take_all(&mut self, blocks: Vec<Block>, needed: &[bool], steps: &[u32]) {
        let given = self.given;
        let numbers = Numbers { given, steps };
        for block in blocks {
            self.take_over(&block, needed, numbers);
        }
    }

    /// Leaves out what no marked step needs. Answers the new numbers of the steps.
    pub fn trim(&mut self, needed: &mut Vec<bool>) -> Vec<u32> {
        let blocks = self.take_blocks();
        need_blocks(&blocks, needed);
        let mut numbers = filled(self.alloc, 0, needed.len(), &mut self.is_short);
        number_all(&mut numbers, needed, self.given);
        self.take_all(blocks, needed, &numbers);
        numbers
    }

    // The steps as the judge takes them. The log is empty then.
    fn write_all(&mut self) -> Vec<Step> {
        let mut steps = room_for(self.alloc, self.steps as usize, &mut self.is_short);
        for block in self.take_blocks() {
            block.write(self.alloc, self.given, &mut steps, &mut self.is_short);
        }
        steps
    }

    /// The steps that the first empty clause needs, and it. The log is empty then.
    pub fn written(&mut self) -> Vec<Step> {
        let mut needed = self.no_marks();
        put(&mut needed, (self.end as usize).saturating_sub(1), true);
        let _numbers = self.trim(&mut needed);
        self.write_all()
    }
}

// Marks the steps that the marked ones need, the last block first.
fn need_blocks(blocks: &[Block], needed: &mut Vec<bool>) {
    for k in (0..blocks.len()).rev() {
        blocks[k].need_all(needed);
    }
}

// Counts the steps that are needed, from a number on: each of these gets its number.
fn number_all(numbers: &mut Vec<u32>, needed: &[bool], from: u32) {
    let mut next = from;
    for (place, is_needed) in needed.iter().enumerate() {
        put(numbers, place, next);
        next = next.saturating_add(u32::from(*is_needed));
    }
}
