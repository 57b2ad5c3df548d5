//! Judges the gates of expressions, by the values of the expressions, and verdicts of goals. The test cases stand in data/ of the
//! crate rows; what they mean stands at the head of each module.
#![tactic(auto)]

mod choices;
mod goals;
mod nodes;
mod rails;
mod vars;

use case_rows::{Bench, Fault, Report, each_row, named, word, words_from};
use goals::{Goal, Role, Verdicts};
use rails::{Agreement, Counts};
use std::alloc::Global;
use svtv_table::VarDecl;
use vars::declare;

#[derive(Clone, Copy)]
enum Key {
    Vars,
    Agree,
    Nodes,
    Part(Role),
    Goal,
}

static KEYS: [(&[u8], Key); 7] = [
    (b"vars", Key::Vars),
    (b"agree", Key::Agree),
    (b"nodes", Key::Nodes),
    (b"samples", Key::Part(Role::Sample)),
    (b"hyps", Key::Part(Role::Hyp)),
    (b"claims", Key::Part(Role::Claim)),
    (b"goal", Key::Goal),
];

/// The variables of the expressions below, and the goal over them.
#[derive(Drop)]
pub struct BlastRows {
    alloc: Global,
    vars: Vec<VarDecl>,
    goal: Goal,
}

impl BlastRows {
    fn judge(
        &mut self,
        key: Key,
        line: &[u8],
        block: &[u8],
        report: &mut Report,
    ) -> Result<(), Fault> {
        match key {
            Key::Vars => {
                self.goal.clear();
                declare(self.alloc, &mut self.vars, line)
            }
            Key::Agree => each_row(&mut Agreement::new(self.alloc, &self.vars), block, report),
            Key::Nodes => each_row(&mut Counts::new(self.alloc, &self.vars), block, report),
            Key::Part(role) => self.goal.read(role, words_from(line, 1)),
            Key::Goal => each_row(
                &mut Verdicts::new(&self.vars, &mut self.goal),
                block,
                report,
            ),
        }
    }
}

impl Bench for BlastRows {
    fn new(alloc: Global) -> BlastRows {
        BlastRows {
            alloc,
            vars: Vec::new(alloc),
            goal: Goal::new(alloc),
        }
    }

    fn key(&mut self, line: &[u8], block: &[u8], report: &mut Report) -> Result<(), Fault> {
        match named(&KEYS, word(line, 0)) {
            Some(key) => {
                let judged = self.judge(key, line, block, report);
                match judged {
                    Err(Fault::Form) => report.take(line, Err(Fault::Form)),
                    judged => judged,
                }
            }
            None => report.take(line, Err(Fault::Form)),
        }
    }
}
