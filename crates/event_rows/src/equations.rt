//! The equations of a flat design. `equations 2 3` overrides the wires of these numbers, and has rows of three kinds:
//!
//! - `count => 3 1`: how many equations there are, and how many free segments;
//! - `value 2 => 1.0.4 res now0.4 now2.4`: the segment of an equation, by its number, and its value, node for node;
//! - `free 0 => 1.4.2`: a free segment.

use crate::design::{empty, put_design, set_of};
use crate::settled::told;
use crate::sound::is_sound;
use case_exprs::built;
use case_rows::{Fault, Judge, Report, each_row, first_named, put, put_size, size_at, words_from};
use driver_resolve::{NetEq, Resolved};
use flat_net::Flat;
use lhs_alias::Seg;
use net_resolve::resolve;
use std::alloc::Global;

#[derive(Clone, Copy)]
enum Question {
    Count,
    Value,
    Free,
}

static QUESTIONS: [(&[u8], Question); 3] = [
    (b"count", Question::Count),
    (b"value", Question::Value),
    (b"free", Question::Free),
];

#[derive(Drop)]
struct Equations<'a> {
    alloc: Global,
    flat: &'a mut Flat,
    set: &'a Resolved,
}

fn put_seg(said: &mut Vec<u8>, seg: &Seg) -> Result<(), Fault> {
    put_size(said, seg.wire)?;
    put(said, b".")?;
    put_size(said, usize::from(seg.lo))?;
    put(said, b".")?;
    put_size(said, usize::from(seg.width))
}

fn put_count(said: &mut Vec<u8>, set: &Resolved) -> Result<(), Fault> {
    put_size(said, set.eqs.as_slice().len())?;
    put(said, b" ")?;
    put_size(said, set.free.as_slice().len())
}

fn put_free(said: &mut Vec<u8>, free: &[Seg], at: usize) -> Result<(), Fault> {
    match free.get(at) {
        Some(seg) => put_seg(said, seg),
        None => Err(Fault::Form),
    }
}

impl<'a> Equations<'a> {
    // The value is said as it is wanted, where that is the node.
    fn put_value(&mut self, at: usize, wanted: &[u8], said: &mut Vec<u8>) -> Result<(), Fault> {
        match self.set.eqs.as_slice().get(at) {
            Some(eq) => self.put_equation(eq, wanted, said),
            None => Err(Fault::Form),
        }
    }

    fn put_equation(&mut self, eq: &NetEq, wanted: &[u8], said: &mut Vec<u8>) -> Result<(), Fault> {
        let value = words_from(wanted, 1);
        let node = built(&mut self.flat.arena, self.alloc, value)?;
        put_seg(said, &eq.seg)?;
        put(said, b" ")?;
        put(
            said,
            if node == eq.value {
                value
            } else {
                b"another node"
            },
        )
    }
}

impl<'a> Judge for Equations<'a> {
    fn row(&mut self, question: &[u8], wanted: &[u8], said: &mut Vec<u8>) -> Result<(), Fault> {
        match first_named(&QUESTIONS, question)? {
            Question::Count => put_count(said, self.set),
            Question::Value => self.put_value(size_at(question, 1)?, wanted, said),
            Question::Free => put_free(said, self.set.free.as_slice(), size_at(question, 1)?),
        }
    }
}

// The equations of the design, where it is well formed.
fn resolve_sound(
    alloc: Global,
    flat: &mut Flat,
    design: &[u8],
    over: &[usize],
) -> Result<Resolved, Fault> {
    put_design(alloc, flat, design)?;
    if !is_sound(alloc, flat)? {
        return Err(Fault::Form);
    }
    Ok(resolve(alloc, flat, over)?)
}

fn judge(
    alloc: Global,
    flat: &mut Flat,
    design: &[u8],
    over: &[usize],
    block: &[u8],
    report: &mut Report,
) -> Result<(), Fault> {
    let set = resolve_sound(alloc, flat, design, over)?;
    let mut equations = Equations {
        alloc,
        flat,
        set: &set,
    };
    each_row(&mut equations, block, report)
}

/// Judges the equations of a design, of which the wires are overridden that the line names.
pub fn judge_equations(
    alloc: Global,
    design: &[u8],
    line: &[u8],
    block: &[u8],
    report: &mut Report,
) -> Result<(), Fault> {
    let over = set_of(alloc, words_from(line, 1))?;
    let mut flat = empty(alloc);
    let judged = judge(alloc, &mut flat, design, over.as_slice(), block, report);
    told(block, judged, report)
}
