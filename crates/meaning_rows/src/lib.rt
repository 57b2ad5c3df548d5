//! Judges what shows in no run of the tool: the turns of loops where nearly all that are allowed were made before, and how many
//! nodes and drivers a design takes. The test cases stand in data/ of the crate rows.
//!
//! A row of `turns`, `MADE STATEMENT => TURNS`, says what comes of a statement behind so many turns, in which `a` is a signal of one bit:
//! the turns that are made behind it, or the refusal's number and its column in the statement. `design` keeps the lines of a design, and
//! a row of `takes`, such as `64 4 => yes`, says whether it takes at most so many nodes and so many drivers.
#![tactic(auto)]

mod counts;
mod turns;

use case_rows::{Bench, Fault, Report, each_row, keep_lines, named, word};
use counts::Takes;
use std::alloc::Global;
use turns::Turns;

#[derive(Clone, Copy)]
enum Key {
    Turns,
    Design,
    Takes,
}

static KEYS: [(&[u8], Key); 3] = [
    (b"turns", Key::Turns),
    (b"design", Key::Design),
    (b"takes", Key::Takes),
];

/// The design that is judged.
#[derive(Drop)]
pub struct MeaningRows {
    alloc: Global,
    design: Vec<u8>,
}

impl Bench for MeaningRows {
    fn new(alloc: Global) -> MeaningRows {
        MeaningRows {
            alloc,
            design: Vec::new(alloc),
        }
    }

    fn key(&mut self, line: &[u8], block: &[u8], report: &mut Report) -> Result<(), Fault> {
        match named(&KEYS, word(line, 0)) {
            Some(Key::Turns) => each_row(&mut Turns { alloc: self.alloc }, block, report),
            Some(Key::Design) => keep_lines(&mut self.design, block),
            Some(Key::Takes) => {
                let mut takes = Takes {
                    alloc: self.alloc,
                    text: self.design.as_slice(),
                };
                each_row(&mut takes, block, report)
            }
            None => report.take(line, Err(Fault::Form)),
        }
    }
}
