//! Judges what the crates of vectors, of the graph of expressions, of gates, of lists and of joined wires give, by test cases
//! whose values were worked out by hand. They stand in data/ of the crate rows; what they mean stands at the head of each module.
#![tactic(auto)]

mod circuits;
mod gates;
mod joins;
mod lists;
mod nodes;
mod parts;
mod trees;
mod values;

use case_rows::{Bench, Fault, Report, each_row, first_named};
use circuits::{Circuits, Swapped};
use gates::judge_gates;
use joins::{Cut, judge_joins};
use lists::{Owned, judge_ring};
use nodes::{Becomes, Nodes, Substituted};
use std::alloc::Global;
use svex_arena::Env;
use trees::Trees;
use values::{Entries, Planes, Values};

/// GraphRows of vectors and of the graph of expressions.
#[derive(Clone, Copy)]
enum Graph {
    Planes,
    Entries,
    Values,
    Nodes,
    Becomes,
    Substitute,
}

/// GraphRows of gates, of lists and of joined wires.
#[derive(Clone, Copy)]
enum Structure {
    Circuits,
    Swapped,
    Gates,
    Ring,
    Owned,
    Trees,
    Joins,
    Cut,
}

#[derive(Clone, Copy)]
enum Key {
    Graph(Graph),
    Structure(Structure),
}

static KEYS: [(&[u8], Key); 14] = [
    (b"planes", Key::Graph(Graph::Planes)),
    (b"entries", Key::Graph(Graph::Entries)),
    (b"values", Key::Graph(Graph::Values)),
    (b"nodes", Key::Graph(Graph::Nodes)),
    (b"becomes", Key::Graph(Graph::Becomes)),
    (b"substitute", Key::Graph(Graph::Substitute)),
    (b"circuits", Key::Structure(Structure::Circuits)),
    (b"swapped", Key::Structure(Structure::Swapped)),
    (b"gates", Key::Structure(Structure::Gates)),
    (b"ring", Key::Structure(Structure::Ring)),
    (b"owned", Key::Structure(Structure::Owned)),
    (b"trees", Key::Structure(Structure::Trees)),
    (b"joins", Key::Structure(Structure::Joins)),
    (b"cut", Key::Structure(Structure::Cut)),
];

/// What the entries of variables have.
#[derive(Drop)]
pub struct GraphRows {
    alloc: Global,
    env: Env,
}

impl GraphRows {
    fn graph(&mut self, key: Graph, block: &[u8], report: &mut Report) -> Result<(), Fault> {
        match key {
            Graph::Planes => each_row(&mut Planes, block, report),
            Graph::Entries => each_row(&mut Entries { env: &mut self.env }, block, report),
            Graph::Values => each_row(&mut Values::new(self.alloc, &self.env), block, report),
            Graph::Nodes => each_row(&mut Nodes::new(self.alloc), block, report),
            Graph::Becomes => each_row(&mut Becomes::new(self.alloc), block, report),
            Graph::Substitute => each_row(&mut Substituted::new(self.alloc), block, report),
        }
    }

    fn judge(&mut self, line: &[u8], block: &[u8], report: &mut Report) -> Result<(), Fault> {
        match first_named(&KEYS, line)? {
            Key::Graph(key) => self.graph(key, block, report),
            Key::Structure(key) => judge_structure(self.alloc, key, line, block, report),
        }
    }
}

fn judge_structure(
    alloc: Global,
    key: Structure,
    line: &[u8],
    block: &[u8],
    report: &mut Report,
) -> Result<(), Fault> {
    match key {
        Structure::Circuits => each_row(&mut Circuits { alloc }, block, report),
        Structure::Swapped => each_row(&mut Swapped { alloc }, block, report),
        Structure::Gates => judge_gates(alloc, block, report),
        Structure::Ring => judge_ring(alloc, line, block, report),
        Structure::Owned => each_row(&mut Owned::new(alloc), block, report),
        Structure::Trees => each_row(&mut Trees { alloc }, block, report),
        Structure::Joins => judge_joins(alloc, line, block, report),
        Structure::Cut => each_row(&mut Cut { alloc }, block, report),
    }
}

impl Bench for GraphRows {
    fn new(alloc: Global) -> GraphRows {
        GraphRows {
            alloc,
            env: Env {
                present: Vec::new(alloc),
                previous: Vec::new(alloc),
                stim: Vec::new(alloc),
                chosen: Vec::new(alloc),
                sampled: Vec::new(alloc),
            },
        }
    }

    fn key(&mut self, line: &[u8], block: &[u8], report: &mut Report) -> Result<(), Fault> {
        let judged = self.judge(line, block, report);
        match judged {
            Err(Fault::Form) => report.take(line, Err(Fault::Form)),
            judged => judged,
        }
    }
}
