//! Words of four bytes, and how they are read and written at places of which nothing is known: a word that is not there is 0, and
//! is not written. So no index needs a proof. A wrong place would make the answer wrong, which the caller finds, and no more.
//!
//! Nor do vectors that grow: where there is no room for an item it is not there, and a flag says so, at which the search gives up.

use std::alloc::Global;

/// A literal: twice its variable, and one more where it is negated.
pub type Lit = u32;

/// No clause, no variable, or no number.
pub const NONE: u32 = u32::MAX;

/// The variable of a literal.
#[inline]
pub fn var_of(lit: Lit) -> usize {
    (lit / 2) as usize
}

/// Whether the literal says that its variable is false.
#[inline]
pub fn is_negated(lit: Lit) -> bool {
    lit % 2 == 1
}

/// The literal that says that the variable has this value.
#[inline]
pub fn lit_of(var: u32, value: bool) -> Lit {
    var.wrapping_mul(2).wrapping_add(u32::from(!value))
}

/// The item at a place, or another one where there is none.
#[inline]
pub fn at_or<T: Copy>(items: &[T], place: usize, other: T) -> T {
    if place < items.len() {
        items[place]
    } else {
        other
    }
}

/// The word at a place, or 0.
#[inline]
pub fn at(words: &[u32], place: usize) -> u32 {
    at_or(words, place, 0)
}

/// Puts an item in a place, if there is one.
#[inline]
pub fn put<T: Copy>(items: &mut Vec<T>, place: usize, item: T) {
    if place < items.len() {
        items[place] = item;
    }
}

/// Puts an item in a place of a slice, if there is one.
#[inline]
pub fn put_in<T: Copy>(items: &mut [T], place: usize, item: T) {
    if place < items.len() {
        items[place] = item;
    }
}

/// Whether the flag at a place is set. One that is not there is not.
#[inline]
pub fn is_set(flags: &[bool], place: usize) -> bool {
    at_or(flags, place, false)
}

/// Puts an item behind others, or notes that there is no room for it.
#[inline]
pub fn push<T: Drop>(items: &mut Vec<T>, item: T, is_short: &mut bool) {
    if items.push(item).is_err() {
        *is_short = true;
    }
}

/// Puts words behind others, or notes that there is no room for them.
#[inline]
pub fn push_all(words: &mut Vec<u32>, more: &[u32], is_short: &mut bool) {
    if words.extend_from_slice(more).is_err() {
        *is_short = true;
    }
}

/// So many times an item, or none, where it notes that there is no room.
pub fn filled<T: Copy>(alloc: Global, item: T, count: usize, is_short: &mut bool) -> Vec<T> {
    match vec![in alloc; item; count] {
        Ok(items) => items,
        Err(_) => {
            *is_short = true;
            Vec::new(alloc)
        }
    }
}

/// Room for so many items, or none, where it notes that there is no room.
pub fn room_for<T>(alloc: Global, count: usize, is_short: &mut bool) -> Vec<T> {
    match Vec::with_capacity(alloc, count) {
        Ok(items) => items,
        Err(_) => {
            *is_short = true;
            Vec::new(alloc)
        }
    }
}

/// So many empty lists, or fewer, where it notes that there is no room for them.
pub fn empty_lists<T: Copy>(alloc: Global, count: usize, is_short: &mut bool) -> Vec<Vec<T>> {
    let mut lists = room_for(alloc, count, is_short);
    for _ in 0..count {
        push(&mut lists, Vec::new(alloc), is_short);
    }
    lists
}

/// The number as a word, or the greatest word.
#[inline]
pub fn narrow(number: usize) -> u32 {
    number.min(NONE as usize) as u32
}
