//! Gates. A literal is its node's number, with a `-` where it is negated: `0` is false and `-0` true.
//!
//! `gates` is one graph: `input => 1` makes an input, `word 300 => 301` that many, and answers how many nodes there are;
//! `and 1 -2 => 4 of 5` makes a conjunction, and answers the literal and how many nodes there are; `pairs 300 => 45151` makes the
//! conjunctions of all pairs of the first inputs; `len`, `inputs` and `gate 3` tell of the graph.

use aig::{Aig, Gate, Lit};
use case_rows::{
    Fault, Judge, Report, each_row, first_named, put, put_size, signed, size_at, word,
};
use std::alloc::Global;

#[derive(Drop)]
struct Gates {
    aig: Aig,
}

#[derive(Clone, Copy)]
enum Call {
    Input,
    And,
    Gate,
    Inputs,
    Word,
    Pairs,
    Len,
}

static CALLS: [(&[u8], Call); 7] = [
    (b"input", Call::Input),
    (b"and", Call::And),
    (b"gate", Call::Gate),
    (b"inputs", Call::Inputs),
    (b"word", Call::Word),
    (b"pairs", Call::Pairs),
    (b"len", Call::Len),
];

pub fn judge_gates(alloc: Global, block: &[u8], report: &mut Report) -> Result<(), Fault> {
    let aig = Aig::new(alloc)?;
    let mut gates = Gates { aig };
    each_row(&mut gates, block, report)
}

fn lit_at(text: &[u8], at: usize) -> Result<Lit, Fault> {
    let (negated, node) = signed(word(text, at)).ok_or(Fault::Form)?;
    Ok(Lit {
        node: usize::try_from(node).unwrap_or(0),
        negated,
    })
}

fn put_lit(said: &mut Vec<u8>, l: Lit) -> Result<(), Fault> {
    put(said, if l.negated { b"-" } else { b"" })?;
    put_size(said, l.node)
}

fn put_gate(said: &mut Vec<u8>, gate: Gate) -> Result<(), Fault> {
    match gate {
        Gate::False => put(said, b"false"),
        Gate::Input(number) => {
            put(said, b"input ")?;
            put_size(said, number)
        }
        Gate::And(a, b) => put_and(said, a, b),
    }
}

fn put_and(said: &mut Vec<u8>, a: Lit, b: Lit) -> Result<(), Fault> {
    put(said, b"and ")?;
    put_lit(said, a)?;
    put(said, b" ")?;
    put_lit(said, b)
}

fn conjunction(aig: &mut Aig, a: Lit, b: Lit) -> Result<Lit, Fault> {
    if a.node >= aig.len() || b.node >= aig.len() {
        return Err(Fault::Form);
    }
    let both = aig.and(a, b)?;
    Ok(both)
}

impl Gates {
    fn say_word(&mut self, question: &[u8], said: &mut Vec<u8>) -> Result<(), Fault> {
        for _ in 0..size_at(question, 1)? {
            self.aig.input()?;
        }
        self.say_len(said)
    }

    // The conjunctions of two of the nodes from 1 to `count`.
    fn pairs(&mut self, count: usize) -> Result<(), Fault> {
        for a in 0..count {
            for b in 0..a {
                conjunction(&mut self.aig, plain(a), plain(b))?;
            }
        }
        Ok(())
    }

    fn say_pairs(&mut self, question: &[u8], said: &mut Vec<u8>) -> Result<(), Fault> {
        self.pairs(size_at(question, 1)?)?;
        self.say_len(said)
    }

    fn say_len(&self, said: &mut Vec<u8>) -> Result<(), Fault> {
        put_size(said, self.aig.len())
    }

    fn say_and(&mut self, question: &[u8], said: &mut Vec<u8>) -> Result<(), Fault> {
        let (a, b) = (lit_at(question, 1)?, lit_at(question, 2)?);
        put_lit(said, conjunction(&mut self.aig, a, b)?)?;
        put(said, b" of ")?;
        self.say_len(said)
    }

    fn say_gate(&self, question: &[u8], said: &mut Vec<u8>) -> Result<(), Fault> {
        let node = size_at(question, 1)?;
        if node >= self.aig.len() {
            return Err(Fault::Form);
        }
        put_gate(said, self.aig.gate(node))
    }

    fn say_input(&mut self, said: &mut Vec<u8>) -> Result<(), Fault> {
        let l = self.aig.input()?;
        put_lit(said, l)
    }

    fn say(&mut self, question: &[u8], said: &mut Vec<u8>) -> Result<(), Fault> {
        match first_named(&CALLS, question)? {
            Call::Input => self.say_input(said),
            Call::And => self.say_and(question, said),
            Call::Gate => self.say_gate(question, said),
            Call::Inputs => put_size(said, self.aig.input_count()),
            Call::Word => self.say_word(question, said),
            Call::Pairs => self.say_pairs(question, said),
            Call::Len => self.say_len(said),
        }
    }
}

// The literal of an input's node, by how many nodes stand between it and that of false.
fn plain(below: usize) -> Lit {
    Lit {
        node: below.saturating_add(1),
        negated: false,
    }
}

impl Judge for Gates {
    fn row(&mut self, question: &[u8], _wanted: &[u8], said: &mut Vec<u8>) -> Result<(), Fault> {
        self.say(question, said)
    }
}
