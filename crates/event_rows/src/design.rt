//! Flat designs as text. `design` has a row for each wire, join and driver:
//!
//! - `in a 4` is an input of the top of four bits, `wire a 4` another wire; wires are numbered in their order;
//! - `join 2.0.1 0.3.1` joins bit 0 of wire 2 to bit 3 of wire 0 above it: a wire, its lowest bit, and how many;
//! - `drive 1.0.2,1.3.1 = not now0.3` drives such parts, the highest first.
//!
//! Sets of wires are numbers, with a comma between two sets: `none, 1 3`.

use case_exprs::{built, read_vectors};
use case_rows::{Fault, first_named, part, rows_of, size, small, small_at, word, words_from};
use driver_resolve::Driver;
use flat_net::{Flat, Join};
use fourvec::Four;
use items::{Items, both};
use lhs_alias::{Lhs, Seg};
use std::alloc::Global;
use sv_outside::{Name, Signal};
use svex_arena::Arena;

fn seg(text: &[u8]) -> Option<Seg> {
    Some(Seg {
        wire: usize::from(small(part(text, b'.', 0))?),
        lo: small(part(text, b'.', 1))?,
        width: small(part(text, b'.', 2))?,
    })
}

fn put_segs(segs: &mut Vec<Seg>, text: &[u8]) -> Result<(), Fault> {
    for part in text.split(|c| *c == b',') {
        let next = seg(part).ok_or(Fault::Form)?;
        segs.push(next)?;
    }
    Ok(())
}

fn segs(alloc: Global, text: &[u8]) -> Result<Lhs, Fault> {
    let mut list = Vec::new(alloc);
    put_segs(&mut list, text)?;
    Ok(Lhs::from_vec(list))
}

fn wire(alloc: Global, flat: &mut Flat, row: &[u8], input: bool) -> Result<(), Fault> {
    let width = small_at(row, 2)?;
    let path = Name::new(alloc, word(row, 1))?;
    Ok(flat.wires.push(Signal { path, width, input })?)
}

fn join(alloc: Global, flat: &mut Flat, row: &[u8]) -> Result<(), Fault> {
    let child = segs(alloc, word(row, 1))?;
    let (child, parent) = both(child, segs(alloc, word(row, 2)))?;
    Ok(flat.joins.push(Join { child, parent })?)
}

fn drive(alloc: Global, flat: &mut Flat, row: &[u8]) -> Result<(), Fault> {
    let value = built(&mut flat.arena, alloc, words_from(row, 3))?;
    let target = segs(alloc, word(row, 1))?;
    Ok(flat.drivers.push(Driver { target, value })?)
}

#[derive(Clone, Copy)]
enum Line {
    In,
    Wire,
    Join,
    Drive,
}

static LINES: [(&[u8], Line); 4] = [
    (b"in", Line::In),
    (b"wire", Line::Wire),
    (b"join", Line::Join),
    (b"drive", Line::Drive),
];

fn put_row(alloc: Global, flat: &mut Flat, row: &[u8]) -> Result<(), Fault> {
    match first_named(&LINES, row)? {
        Line::In => wire(alloc, flat, row, true),
        Line::Wire => wire(alloc, flat, row, false),
        Line::Join => join(alloc, flat, row),
        Line::Drive => drive(alloc, flat, row),
    }
}

/// A design with nothing in it.
pub fn empty(alloc: Global) -> Flat {
    Flat {
        arena: Arena::new(alloc),
        wires: Items::new(alloc),
        drivers: Items::new(alloc),
        joins: Items::new(alloc),
    }
}

/// Puts what the rows of a block say into a design.
pub fn put_design(alloc: Global, flat: &mut Flat, block: &[u8]) -> Result<(), Fault> {
    for line in block.split(|c| *c == b'\n') {
        if let Some(row) = rows_of(line) {
            put_row(alloc, flat, row)?;
        }
    }
    Ok(())
}

/// The vectors of words.
pub fn values(alloc: Global, words: &[u8]) -> Result<Items<Four>, Fault> {
    let mut list = Vec::new(alloc);
    read_vectors(&mut list, words)?;
    Ok(Items::from_vec(list))
}

fn put_wires(wires: &mut Vec<usize>, text: &[u8]) -> Result<(), Fault> {
    for word in text.split(|c| *c == b' ') {
        if !word.is_empty() && word != b"none".as_slice() {
            let wire = size(word)?;
            wires.push(wire)?;
        }
    }
    Ok(())
}

/// The wires that a text names.
pub fn set_of(alloc: Global, text: &[u8]) -> Result<Items<usize>, Fault> {
    let mut wires = Vec::new(alloc);
    put_wires(&mut wires, text)?;
    Ok(Items::from_vec(wires))
}

fn put_sets(alloc: Global, sets: &mut Items<Items<usize>>, text: &[u8]) -> Result<(), Fault> {
    for part in text.split(|c| *c == b',') {
        let set = set_of(alloc, part)?;
        sets.push(set)?;
    }
    Ok(())
}

/// The sets of wires that a text names.
pub fn sets_of(alloc: Global, text: &[u8]) -> Result<Items<Items<usize>>, Fault> {
    let mut sets = Items::new(alloc);
    put_sets(alloc, &mut sets, text)?;
    Ok(sets)
}
