//! Judges flat designs: their equations, how they settle, by events and by machines of one phase, and the least runs of tables
//! over them, by test cases whose values were found by hand. They stand in data/ of the crate rows; what they mean stands at the
//! head of each module.
#![tactic(auto)]

mod design;
mod equations;
mod least;
mod machines;
mod settled;
mod sizes;
mod sound;
mod unrolled;

use case_rows::{Bench, Fault, Report, named, put, size, word, words_from};
use equations::judge_equations;
use least::{Given, judge_run};
use machines::judge_machines;
use settled::{Asked, judge_settling};
use sizes::{judge_chains, judge_sizes};
use std::alloc::Global;

#[derive(Clone, Copy)]
enum Key {
    Design,
    Table,
    Equations,
    Over,
    Settle,
    Machine,
    Sizes,
    Chains,
    Run,
}

static KEYS: [(&[u8], Key); 9] = [
    (b"design", Key::Design),
    (b"table", Key::Table),
    (b"equations", Key::Equations),
    (b"over", Key::Over),
    (b"settle", Key::Settle),
    (b"machine", Key::Machine),
    (b"sizes", Key::Sizes),
    (b"chains", Key::Chains),
    (b"run", Key::Run),
];

/// The texts of what other keys stand on.
#[derive(Drop)]
pub struct EventRows {
    alloc: Global,
    design: Vec<u8>,
    table: Vec<u8>,
    over: Vec<u8>,
}

fn keep(kept: &mut Vec<u8>, block: &[u8]) -> Result<(), Fault> {
    kept.clear();
    put(kept, block)
}

// The number of a set; no word is the first one.
fn number_of(word: &[u8]) -> Result<usize, Fault> {
    if word.is_empty() { Ok(0) } else { size(word) }
}

impl EventRows {
    fn given(&self) -> Given<'_> {
        Given {
            design: self.design.as_slice(),
            table: self.table.as_slice(),
        }
    }

    fn settle(&self, line: &[u8], block: &[u8], report: &mut Report) -> Result<(), Fault> {
        let asked = Asked {
            design: self.design.as_slice(),
            sets: self.over.as_slice(),
            set: number_of(word(line, 1))?,
        };
        judge_settling(self.alloc, &asked, block, report)
    }
}

impl Bench for EventRows {
    fn new(alloc: Global) -> EventRows {
        EventRows {
            alloc,
            design: Vec::new(alloc),
            table: Vec::new(alloc),
            over: Vec::new(alloc),
        }
    }

    fn key(&mut self, line: &[u8], block: &[u8], report: &mut Report) -> Result<(), Fault> {
        match named(&KEYS, word(line, 0)) {
            Some(Key::Design) => keep(&mut self.design, block),
            Some(Key::Table) => keep(&mut self.table, block),
            Some(Key::Equations) => {
                judge_equations(self.alloc, &self.design, line, block, report)
            }
            Some(Key::Over) => keep(&mut self.over, words_from(line, 1)),
            Some(Key::Settle) => self.settle(line, block, report),
            Some(Key::Machine) => judge_machines(self.alloc, &self.design, block, report),
            Some(Key::Sizes) => judge_sizes(self.alloc, block, report),
            Some(Key::Chains) => judge_chains(self.alloc, block, report),
            Some(Key::Run) => judge_run(self.alloc, &self.given(), block, report),
            None => report.take(line, Err(Fault::Form)),
        }
    }
}
