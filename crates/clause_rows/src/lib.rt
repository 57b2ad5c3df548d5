//! Judges what the crates of clauses, of the judge of refutations and of the solver give, by test cases whose answers were found
//! by hand. They stand in data/ of the crate rows; what they mean stands at the head of each module.
#![tactic(auto)]

mod formulas;
mod gates;
mod logs;
mod random;
mod scanning;
mod solving;

use case_rows::{Bench, Fault, Report, each_row, named, word};
use gates::judge_gates;
use logs::Logs;
use random::Random;
use solving::Formulas;
use std::alloc::Global;

#[derive(Clone, Copy)]
enum Key {
    Logs,
    Solve,
    Random,
    Gates,
}

static KEYS: [(&[u8], Key); 4] = [
    (b"logs", Key::Logs),
    (b"solve", Key::Solve),
    (b"random", Key::Random),
    (b"gates", Key::Gates),
];

/// What judges by the keys of the files.
#[derive(Drop)]
pub struct ClauseRows {
    alloc: Global,
}

impl Bench for ClauseRows {
    fn new(alloc: Global) -> ClauseRows {
        ClauseRows { alloc }
    }

    fn key(&mut self, line: &[u8], block: &[u8], report: &mut Report) -> Result<(), Fault> {
        match named(&KEYS, word(line, 0)) {
            Some(Key::Logs) => each_row(&mut Logs::new(self.alloc), block, report),
            Some(Key::Solve) => each_row(&mut Formulas::new(self.alloc), block, report),
            Some(Key::Random) => each_row(&mut Random::new(self.alloc), block, report),
            Some(Key::Gates) => judge_gates(self.alloc, block, report),
            None => report.take(line, Err(Fault::Form)),
        }
    }
}
