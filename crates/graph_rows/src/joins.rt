//! Joined wires, by parts of them.
//!
//! - `joins 4 4 4`: the widths of the wires. `join 2.1.2 0.2.2 => joined` joins parts of a wire to parts of wires below it, or says that
//!   they are taken; `first 2.0.4 => 2.3.1,0.2.2,2.0.1` are the first bits that those are joined to.
//!   `rising 1000` joins each of so many wires to the one before it, the first of them first, and `falling` the last of them first;
//!   `leading` is how many wires lead to the first.
//! - `cut`: `unite 1.4.4,1.0.4 => 1.0.8` unites parts that adjoin, `slice 1.4.4 3 1 => 1.7.1` cuts bits out, from that bit on and so many,
//!   and `concat 1.4.4 0.0.4` puts parts together, and `copy 1.4.4` copies them.

ghost use Rattle.std.specs.Prelude.{◌≡◌, ◌≤◌, All, IsTrue};
ghost use Rattle.lhs_alias.specs.Joined.{widths_of};

use crate::parts::{parts_of, put_parts};
use case_rows::{
    Fault, Judge, Report, each_row, first_named, part, put, put_number, size, size_at, small, word,
    words_from,
};
use items::both;
use lhs_alias::{Joins, Lhs, Seg};
use std::alloc::Global;

#[derive(Clone, Copy)]
enum Call {
    Join,
    First,
    Rising,
    Falling,
    Leading,
}

static CALLS: [(&[u8], Call); 5] = [
    (b"join", Call::Join),
    (b"first", Call::First),
    (b"rising", Call::Rising),
    (b"falling", Call::Falling),
    (b"leading", Call::Leading),
];

// Joins over wires whose widths are at hand.
#[derive(Drop)]
struct Board {
    alloc: Global,
    widths: Vec<u8>,
    joins: Joins,
    ghost same: { widths_of joins ≡ widths.items },
}

// Whether a wire has some bits, and not too many.
fn are_widths(widths: &[u8]) -> bool
    ensures { IsTrue result → All (λ width. (1 ≤ width) × (width ≤ 128)) widths.now }
{
    widths.iter().all(|width| 1 <= *width && *width <= 128)
}

fn board_of(alloc: Global, widths: Vec<u8>) -> Result<Board, Fault> {
    if !are_widths(&widths) {
        return Err(Fault::Form);
    }
    let joins = Joins::new(alloc, &widths)?;
    Ok(Board {
        alloc,
        joins,
        widths,
    })
}

impl Board {
    // Whether they were joined, and not taken.
    fn unite(&mut self, child: &Lhs, parent: &Lhs) -> Result<bool, Fault> {
        if !child.lies_in(&self.widths) || !parent.lies_in(&self.widths) {
            return Err(Fault::Form);
        }
        if !child.falls_to(parent) {
            return Err(Fault::Form);
        }
        Ok(self.joins.join(child, parent).is_ok())
    }

    // The first bits of those.
    fn first(&self, of: &Lhs) -> Result<Lhs, Fault> {
        if !of.lies_in(&self.widths) {
            return Err(Fault::Form);
        }
        let first = self.joins.canon(of)?;
        Ok(first)
    }

    fn join(&mut self, child: &[u8], parent: &[u8]) -> Result<bool, Fault> {
        let child = parts_of(self.alloc, child)?;
        let (child, parent) = both(child, parts_of(self.alloc, parent))?;
        self.unite(&child, &parent)
    }
}

// One bit of a wire.
fn bit(alloc: Global, wire: usize) -> Result<Lhs, Fault> {
    let seg = Seg {
        wire,
        lo: 0,
        width: 1,
    };
    let segs = vec![in alloc; seg; 1]?;
    Ok(Lhs::from_vec(segs))
}

fn is_first(of: &Lhs) -> bool {
    match of.segs() {
        [seg] => seg.wire == 0 && seg.lo == 0 && seg.width == 1,
        _ => false,
    }
}

impl Board {
    // Joins a wire to the one before it.
    fn step(&mut self, wire: usize) -> Result<bool, Fault> {
        let child = bit(self.alloc, wire)?;
        let (child, parent) = both(child, bit(self.alloc, wire.saturating_sub(1)))?;
        self.unite(&child, &parent)
    }

    fn leads(&self, wire: usize) -> Result<bool, Fault> {
        let of = bit(self.alloc, wire)?;
        let first = self.first(&of);
        let (_, first) = both(of, first)?;
        Ok(is_first(&first))
    }

    // How many of the wires lead to the first.
    fn say_leading(&self, said: &mut Vec<u8>) -> Result<(), Fault> {
        let mut leading: u64 = 0;
        for wire in 0..self.widths.len() {
            if self.leads(wire)? {
                leading = leading.saturating_add(1);
            }
        }
        put_number(said, leading)
    }

    // Joins each wire to the one before it, the first or the last of them first.
    fn link(&mut self, question: &[u8], rising: bool) -> Result<(), Fault> {
        let joins = size_at(question, 1)?;
        for k in 0..joins {
            let wire = if rising {
                k.saturating_add(1)
            } else {
                joins - k
            };
            if !self.step(wire)? {
                return Err(Fault::Form);
            }
        }
        Ok(())
    }

    fn say(&mut self, question: &[u8], said: &mut Vec<u8>) -> Result<(), Fault> {
        match first_named(&CALLS, question)? {
            Call::Join => self.say_join(question, said),
            Call::First => self.say_first(word(question, 1), said),
            Call::Rising => self.link(question, true),
            Call::Falling => self.link(question, false),
            Call::Leading => self.say_leading(said),
        }
    }

    fn say_join(&mut self, question: &[u8], said: &mut Vec<u8>) -> Result<(), Fault> {
        let joined = self.join(word(question, 1), word(question, 2))?;
        put(said, if joined { b"joined" } else { b"taken" })
    }

    fn say_first(&self, of: &[u8], said: &mut Vec<u8>) -> Result<(), Fault> {
        let of = parts_of(self.alloc, of)?;
        let first = self.first(&of);
        let (_, first) = both(of, first)?;
        put_parts(said, &first)
    }
}

impl Judge for Board {
    fn row(&mut self, question: &[u8], _wanted: &[u8], said: &mut Vec<u8>) -> Result<(), Fault> {
        self.say(question, said)
    }
}

// The widths of words; `1*1001` is a width so many times.
fn put_all_widths(widths: &mut Vec<u8>, words: &[u8]) -> Result<(), Fault> {
    for word in words.split(|c| *c == b' ') {
        put_widths(widths, word)?;
    }
    Ok(())
}

fn board_of_words(alloc: Global, words: &[u8]) -> Result<Board, Fault> {
    let mut widths = Vec::new(alloc);
    put_all_widths(&mut widths, words)?;
    board_of(alloc, widths)
}

fn put_widths(widths: &mut Vec<u8>, word: &[u8]) -> Result<(), Fault> {
    let width = small(part(word, b'*', 0)).ok_or(Fault::Form)?;
    let times = part(word, b'*', 1);
    let times = if times.is_empty() { 1 } else { size(times)? };
    for _ in 0..times {
        widths.push(width)?;
    }
    Ok(())
}

pub fn judge_joins(
    alloc: Global,
    line: &[u8],
    block: &[u8],
    report: &mut Report,
) -> Result<(), Fault> {
    let mut board = board_of_words(alloc, words_from(line, 1))?;
    each_row(&mut board, block, report)
}

#[derive(Drop)]
pub struct Cut {
    pub alloc: Global,
}

// The wires that parts to be cut lie in.
static WIRES: [u8; 2] = [16, 16];

fn normal(of: &Lhs) -> Result<Lhs, Fault> {
    if !of.lies_in(&WIRES) {
        return Err(Fault::Form);
    }
    let normal = of.normal()?;
    Ok(normal)
}

// A range of bits of at most a hundred parts.
#[tactic(auto, using(lhs_alias::proofs::Lying::lengths))]
fn slice(of: &Lhs, lo: usize, width: usize) -> Result<Lhs, Fault> {
    if !of.lies_in(&WIRES) || of.segs().len() > 100 {
        return Err(Fault::Form);
    }
    let bits = of.bits();
    if lo > bits || width > bits - lo {
        return Err(Fault::Form);
    }
    let slice = of.slice(lo, width)?;
    Ok(slice)
}

fn slice_at(of: &Lhs, question: &[u8]) -> Result<Lhs, Fault> {
    let lo = size_at(question, 2)?;
    slice(of, lo, size_at(question, 3)?)
}

fn concat(alloc: Global, high: &Lhs, low: &[u8]) -> Result<Lhs, Fault> {
    let low = parts_of(alloc, low)?;
    let both = high.concat(&low)?;
    Ok(both)
}

fn copy(of: &Lhs) -> Result<Lhs, Fault> {
    let copy = of.copy()?;
    Ok(copy)
}

#[derive(Clone, Copy)]
enum Way {
    Unite,
    Slice,
    Concat,
    Copy,
}

static WAYS: [(&[u8], Way); 4] = [
    (b"unite", Way::Unite),
    (b"slice", Way::Slice),
    (b"concat", Way::Concat),
    (b"copy", Way::Copy),
];

impl Cut {
    fn made(&self, question: &[u8], of: &Lhs) -> Result<Lhs, Fault> {
        match first_named(&WAYS, question)? {
            Way::Unite => normal(of),
            Way::Slice => slice_at(of, question),
            Way::Concat => concat(self.alloc, of, word(question, 2)),
            Way::Copy => copy(of),
        }
    }
}

impl Judge for Cut {
    fn row(&mut self, question: &[u8], _wanted: &[u8], said: &mut Vec<u8>) -> Result<(), Fault> {
        let of = parts_of(self.alloc, word(question, 1))?;
        let made = self.made(question, &of);
        let (_, made) = both(of, made)?;
        put_parts(said, &made)
    }
}
