//! Lists.
//!
//! - `ring 6`: the list of numbers below a room, in an order: `push 3`, `front 5`, `remove 5` and `pop` change it, `has 6` tells, and each
//!   answers the list then, as it is read from its links: `front 5 => 5 3 1`; `pop => 3, 1 5`; `has 6 => no`.
//! - `owned`: a list that owns its elements: `take 1 2`, `push 3`, `append 4 5`, `pop`, `set 1 9`, `get 4`, `empty`, `len`;
//!   `whole` goes by way of the vector that it owns, and `boxed 7` is a number that is put in a box and taken out.

use case_rows::{
    Fault, Judge, Report, each_row, first_named, put, put_size, size, size_at, words_from,
};
use idx_list::IdxList;
use items::{Boxed, Items};
use std::alloc::Global;
use std::mem;

#[derive(Clone, Copy)]
enum Turn {
    Pop,
    Push,
    Front,
    Remove,
    Has,
}

static TURNS: [(&[u8], Turn); 5] = [
    (b"pop", Turn::Pop),
    (b"push", Turn::Push),
    (b"front", Turn::Front),
    (b"remove", Turn::Remove),
    (b"has", Turn::Has),
];

#[derive(Drop)]
struct Ring {
    list: IdxList,
}

pub fn judge_ring(
    alloc: Global,
    line: &[u8],
    block: &[u8],
    report: &mut Report,
) -> Result<(), Fault> {
    let list = IdxList::new(alloc, size_at(line, 1)?)?;
    let mut ring = Ring { list };
    each_row(&mut ring, block, report)
}

// Puts a number behind what is said already.
fn put_next(said: &mut Vec<u8>, number: usize) -> Result<(), Fault> {
    put(said, if said.is_empty() { b"" } else { b" " })?;
    put_size(said, number)
}

fn put_truth(said: &mut Vec<u8>, holds: bool) -> Result<(), Fault> {
    put(said, if holds { b"yes," } else { b"no," })
}

fn put_one(said: &mut Vec<u8>, number: Option<usize>) -> Result<(), Fault> {
    match number {
        Some(number) => put_size(said, number)?,
        None => put(said, b"none")?,
    }
    put(said, b",")
}

// A number, and what stands behind it. It is told where the link back leads elsewhere.
fn put_link(
    list: &IdxList,
    before: Option<usize>,
    x: usize,
    said: &mut Vec<u8>,
) -> Result<Option<usize>, Fault> {
    put_next(said, x)?;
    if !list.has(x) {
        put(said, b" that is not there")?;
        return Ok(None);
    }
    if list.prev(x) != before {
        put(said, b" behind another")?;
    }
    Ok(list.next(x))
}

fn put_links(list: &IdxList, first: usize, said: &mut Vec<u8>) -> Result<usize, Fault> {
    let mut before: Option<usize> = None;
    let mut at: Option<usize> = Some(first);
    let mut count: usize = 0;
    for _ in 0..list.room() {
        if let Some(x) = at {
            at = put_link(list, before, x, said)?;
            before = Some(x);
            count = count.saturating_add(1);
        }
    }
    Ok(count)
}

// The number that stands behind none, and how many there are.
fn first_of(list: &IdxList) -> (Option<usize>, usize) {
    let mut first: Option<usize> = None;
    let mut count: usize = 0;
    for x in 0..list.room() {
        if list.has(x) {
            count = count.saturating_add(1);
            if list.prev(x).is_none() {
                first = Some(x);
            }
        }
    }
    (first, count)
}

impl Ring {
    // Puts the numbers in order. It is told where not all of them are met.
    fn put_all(&self, said: &mut Vec<u8>) -> Result<(), Fault> {
        let (first, count) = first_of(&self.list);
        let met = match first {
            Some(first) => put_links(&self.list, first, said)?,
            None => 0,
        };
        if met == count {
            Ok(())
        } else {
            put(said, b" and others")
        }
    }

    fn move_front(&mut self, question: &[u8]) -> Result<(), Fault> {
        let x = size_at(question, 1)?;
        if !self.list.has(x) {
            return Err(Fault::Form);
        }
        self.list.move_front(x);
        Ok(())
    }

    fn remove(&mut self, question: &[u8]) -> Result<(), Fault> {
        let x = size_at(question, 1)?;
        if !self.list.has(x) {
            return Err(Fault::Form);
        }
        self.list.remove(x);
        Ok(())
    }

    fn push(&mut self, question: &[u8]) -> Result<(), Fault> {
        let x = size_at(question, 1)?;
        if x >= self.list.room() || self.list.has(x) {
            return Err(Fault::Form);
        }
        self.list.push_back(x);
        Ok(())
    }

    fn has(&self, question: &[u8], said: &mut Vec<u8>) -> Result<(), Fault> {
        let x = size_at(question, 1)?;
        put_truth(said, self.list.has(x))
    }

    fn change(&mut self, question: &[u8], said: &mut Vec<u8>) -> Result<(), Fault> {
        match first_named(&TURNS, question)? {
            Turn::Pop => put_one(said, self.list.pop_front()),
            Turn::Push => self.push(question),
            Turn::Front => self.move_front(question),
            Turn::Remove => self.remove(question),
            Turn::Has => self.has(question, said),
        }
    }
}

impl Judge for Ring {
    fn row(&mut self, question: &[u8], _wanted: &[u8], said: &mut Vec<u8>) -> Result<(), Fault> {
        self.change(question, said)?;
        self.put_all(said)
    }
}

#[derive(Clone, Copy)]
enum Call {
    Take,
    Push,
    Append,
    Set,
    Pop,
    Get,
    Empty,
    Len,
    Boxed,
    Whole,
}

static CALLS: [(&[u8], Call); 10] = [
    (b"take", Call::Take),
    (b"push", Call::Push),
    (b"append", Call::Append),
    (b"set", Call::Set),
    (b"pop", Call::Pop),
    (b"get", Call::Get),
    (b"empty", Call::Empty),
    (b"len", Call::Len),
    (b"boxed", Call::Boxed),
    (b"whole", Call::Whole),
];

#[derive(Drop)]
pub struct Owned {
    alloc: Global,
    list: Items<usize>,
}

fn put_numbers(numbers: &mut Vec<usize>, words: &[u8]) -> Result<(), Fault> {
    for word in words.split(|c| *c == b' ') {
        numbers.push(size(word)?)?;
    }
    Ok(())
}

// The numbers behind the first word.
fn numbers(alloc: Global, question: &[u8]) -> Result<Items<usize>, Fault> {
    let mut numbers = Vec::new(alloc);
    put_numbers(&mut numbers, words_from(question, 1))?;
    Ok(Items::from_vec(numbers))
}

// What a box has, where the same is taken out of it.
fn boxed(alloc: Global, number: usize) -> Result<Option<usize>, Fault> {
    let boxed = Boxed::from_box(Boxed::new(alloc, number)?.into_box());
    let seen = *boxed.get();
    let taken = boxed.into_inner();
    Ok(if seen == taken { Some(seen) } else { None })
}

fn put_boxed(alloc: Global, question: &[u8], said: &mut Vec<u8>) -> Result<(), Fault> {
    let number = size_at(question, 1)?;
    put_one(said, boxed(alloc, number)?)
}

impl Owned {
    pub fn new(alloc: Global) -> Owned {
        Owned {
            alloc,
            list: Items::new(alloc),
        }
    }

    fn put_all(&self, said: &mut Vec<u8>) -> Result<(), Fault> {
        for number in self.list.as_slice() {
            put_next(said, *number)?;
        }
        Ok(())
    }

    fn set(&mut self, question: &[u8]) -> Result<(), Fault> {
        let (at, number) = (size_at(question, 1)?, size_at(question, 2)?);
        if at >= self.list.len() {
            return Err(Fault::Form);
        }
        self.list.set(at, number);
        Ok(())
    }

    fn push(&mut self, question: &[u8]) -> Result<(), Fault> {
        let number = size_at(question, 1)?;
        Ok(self.list.push(number)?)
    }

    fn append(&mut self, question: &[u8]) -> Result<(), Fault> {
        let more = numbers(self.alloc, question)?;
        Ok(self.list.append(more)?)
    }

    fn take(&mut self, question: &[u8]) -> Result<(), Fault> {
        self.list = numbers(self.alloc, question)?;
        Ok(())
    }

    fn get(&self, question: &[u8], said: &mut Vec<u8>) -> Result<(), Fault> {
        let at = size_at(question, 1)?;
        put_one(said, self.list.get(at).copied())
    }

    // The list, by way of the vector that it owns.
    fn make_whole(&mut self) -> Result<(), Fault> {
        let list = mem::replace(&mut self.list, Items::new(self.alloc));
        self.list = Items::from_vec(list.into_vec());
        Ok(())
    }

    fn say(&mut self, question: &[u8], said: &mut Vec<u8>) -> Result<(), Fault> {
        match first_named(&CALLS, question)? {
            Call::Take => self.take(question),
            Call::Push => self.push(question),
            Call::Append => self.append(question),
            Call::Set => self.set(question),
            Call::Whole => self.make_whole(),
            Call::Pop => put_one(said, self.list.pop()),
            Call::Get => self.get(question, said),
            Call::Empty => put_truth(said, self.list.is_empty()),
            Call::Len => put_one(said, Some(self.list.len())),
            Call::Boxed => put_boxed(self.alloc, question, said),
        }
    }
}

impl Judge for Owned {
    fn row(&mut self, question: &[u8], _wanted: &[u8], said: &mut Vec<u8>) -> Result<(), Fault> {
        self.say(question, said)?;
        self.put_all(said)
    }
}
