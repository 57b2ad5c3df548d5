//! Parts of wires as text. A part is `2.1.2`: the wire, the lowest bit, and how many; `1.4.4,0.0.4` are parts, the highest first, and
//! `-` is said where there is none.

use case_rows::{Fault, part, put, put_number, put_size, size, small};
use lhs_alias::{Lhs, Seg};
use std::alloc::Global;

fn seg(text: &[u8]) -> Option<Seg> {
    Some(Seg {
        wire: size(part(text, b'.', 0)).ok()?,
        lo: small(part(text, b'.', 1))?,
        width: small(part(text, b'.', 2))?,
    })
}

fn put_segs(segs: &mut Vec<Seg>, text: &[u8]) -> Result<(), Fault> {
    for part in text.split(|c| *c == b',') {
        let next = seg(part).ok_or(Fault::Form)?;
        segs.push(next)?;
    }
    Ok(())
}

/// The parts of a text.
pub fn parts_of(alloc: Global, text: &[u8]) -> Result<Lhs, Fault> {
    let mut segs = Vec::new(alloc);
    put_segs(&mut segs, text)?;
    Ok(Lhs::from_vec(segs))
}

// A point and a number behind it.
fn put_next(said: &mut Vec<u8>, number: u8) -> Result<(), Fault> {
    put(said, b".")?;
    put_number(said, u64::from(number))
}

fn put_seg(said: &mut Vec<u8>, seg: Seg) -> Result<(), Fault> {
    put_size(said, seg.wire)?;
    put_next(said, seg.lo)?;
    put_next(said, seg.width)
}

/// Puts parts as text.
pub fn put_parts(said: &mut Vec<u8>, of: &Lhs) -> Result<(), Fault> {
    if of.segs().is_empty() {
        return put(said, b"-");
    }
    for seg in of.segs() {
        if !said.is_empty() {
            put(said, b",")?;
        }
        put_seg(said, *seg)?;
    }
    Ok(())
}
