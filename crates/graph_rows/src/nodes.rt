//! The graph of expressions.
//!
//! - `nodes`: one graph. An expression is made, and the answer is its node: nodes are numbered from 0 as they are made, operands before
//!   what is computed from them and the last operand first, and an equal shape is the same node. The other rows answer how many nodes there
//!   are then: `many 200` makes variables of that many entries, `cut 2` cuts off all nodes from that one on, `copy` keeps a copy of the
//!   graph, and `back` puts the copy in the place of the graph.
//! - `becomes`: an expression, and what it is once it is simplified.
//! - `substitute`: `replace now 1 001` and `replace prev 1 001` put a node in the place of an entry. The other rows are an expression, how
//!   many nodes its substitution makes, and what it becomes: `not now0.4 => 0 not now1.4`. Where it makes none, what it becomes is there
//!   before.

use case_exprs::built;
use case_rows::{Fault, Judge, named, put, put_size, size_at, word, words_from};
use std::alloc::Global;
use svex_arena::{Arena, Node, Shape, Subst, VarName};
use svex_rewrite::simplify;

#[derive(Clone, Copy)]
enum Call {
    Many,
    Cut,
    Copy,
    Back,
}

static CALLS: [(&[u8], Call); 4] = [
    (b"many", Call::Many),
    (b"cut", Call::Cut),
    (b"copy", Call::Copy),
    (b"back", Call::Back),
];

#[derive(Drop)]
pub struct Nodes {
    alloc: Global,
    arena: Arena,
    copy: Arena,
}

impl Nodes {
    pub fn new(alloc: Global) -> Nodes {
        Nodes {
            alloc,
            arena: Arena::new(alloc),
            copy: Arena::new(alloc),
        }
    }

    fn many(&mut self, question: &[u8]) -> Result<usize, Fault> {
        for at in 0..size_at(question, 1)? {
            let shape = Shape::Var(VarName::Now(at), 7);
            if self.arena.fits(&shape) {
                self.arena.intern(self.alloc, shape)?;
            }
        }
        Ok(self.arena.len())
    }

    fn cut(&mut self, question: &[u8]) -> Result<usize, Fault> {
        let len = size_at(question, 1)?;
        if len > self.arena.len() {
            return Err(Fault::Form);
        }
        self.arena.cut(len);
        Ok(self.arena.len())
    }

    fn keep(&mut self) -> Result<usize, Fault> {
        self.copy = self.arena.copy(self.alloc)?;
        Ok(self.arena.len())
    }

    fn back(&mut self) -> Result<usize, Fault> {
        self.arena = self.copy.copy(self.alloc)?;
        Ok(self.arena.len())
    }

    fn node(&mut self, text: &[u8]) -> Result<usize, Fault> {
        let node = built(&mut self.arena, self.alloc, text)?;
        Ok(node.index())
    }

    fn answer(&mut self, question: &[u8]) -> Result<usize, Fault> {
        match named(&CALLS, word(question, 0)) {
            Some(Call::Many) => self.many(question),
            Some(Call::Cut) => self.cut(question),
            Some(Call::Copy) => self.keep(),
            Some(Call::Back) => self.back(),
            None => self.node(question),
        }
    }
}

impl Judge for Nodes {
    fn row(&mut self, question: &[u8], _wanted: &[u8], said: &mut Vec<u8>) -> Result<(), Fault> {
        let answer = self.answer(question)?;
        put_size(said, answer)
    }
}

// Tells of two nodes.
fn put_nodes(said: &mut Vec<u8>, is: Node, wanted: Node) -> Result<(), Fault> {
    put(said, b"node ")?;
    put_size(said, is.index())?;
    put(said, b" and not node ")?;
    put_size(said, wanted.index())
}

#[derive(Drop)]
pub struct Becomes {
    alloc: Global,
    arena: Arena,
}

impl Becomes {
    pub fn new(alloc: Global) -> Becomes {
        Becomes {
            alloc,
            arena: Arena::new(alloc),
        }
    }
}

impl Judge for Becomes {
    fn row(&mut self, question: &[u8], wanted: &[u8], said: &mut Vec<u8>) -> Result<(), Fault> {
        let root = built(&mut self.arena, self.alloc, question)?;
        let node = built(&mut self.arena, self.alloc, wanted)?;
        if root.index() >= self.arena.len() {
            return Err(Fault::Form);
        }
        let simple = simplify(&mut self.arena, self.alloc, root)?;
        if simple == node {
            put(said, wanted)
        } else {
            put_nodes(said, simple, node)
        }
    }
}

#[derive(Drop)]
pub struct Substituted {
    alloc: Global,
    arena: Arena,
    by: Subst,
}

// Puts a node at a place of a list, with none before it where there was none.
fn set_entry(list: &mut Vec<Option<Node>>, at: usize, node: Node) -> Result<(), Fault> {
    for _ in list.len()..at {
        list.push(None)?;
    }
    Ok(list.push(Some(node))?)
}

fn set_replacement(by: &mut Subst, present: bool, at: usize, node: Node) -> Result<(), Fault> {
    if present {
        set_entry(&mut by.present, at, node)
    } else {
        set_entry(&mut by.previous, at, node)
    }
}

fn answer_of(arena: &mut Arena, alloc: Global, root: Node, by: &Subst) -> Result<Node, Fault> {
    if root.index() >= arena.len() {
        return Err(Fault::Form);
    }
    let roots = [root];
    let answers = arena.substitute(alloc, &roots, by)?;
    answers.first().copied().ok_or(Fault::Form)
}

fn put_made(said: &mut Vec<u8>, made: usize, is: Node, wanted: Node) -> Result<(), Fault> {
    put_size(said, made)?;
    put(said, b" made, ")?;
    put_nodes(said, is, wanted)
}

impl Substituted {
    pub fn new(alloc: Global) -> Substituted {
        Substituted {
            alloc,
            arena: Arena::new(alloc),
            by: Subst {
                present: Vec::new(alloc),
                previous: Vec::new(alloc),
                stim: Vec::new(alloc),
                chosen: Vec::new(alloc),
                sampled: Vec::new(alloc),
            },
        }
    }

    fn replace(&mut self, row: &[u8]) -> Result<(), Fault> {
        let node = built(&mut self.arena, self.alloc, words_from(row, 3))?;
        let at = size_at(row, 2)?;
        let present = word(row, 1) == b"now".as_slice();
        set_replacement(&mut self.by, present, at, node)
    }

    fn substitute(
        &mut self,
        question: &[u8],
        wanted: &[u8],
        said: &mut Vec<u8>,
    ) -> Result<(), Fault> {
        let root = built(&mut self.arena, self.alloc, question)?;
        if word(wanted, 0) == b"0".as_slice() {
            built(&mut self.arena, self.alloc, words_from(wanted, 1))?;
        }
        self.say(root, wanted, said)
    }

    // What a substitution gives, and how many nodes it made.
    fn made(&mut self, root: Node) -> Result<(Node, usize), Fault> {
        let before = self.arena.len();
        let answer = answer_of(&mut self.arena, self.alloc, root, &self.by)?;
        Ok((answer, self.arena.len().saturating_sub(before)))
    }

    // Says what is wanted, where a substitution gives that by so many nodes.
    fn say(&mut self, root: Node, wanted: &[u8], said: &mut Vec<u8>) -> Result<(), Fault> {
        let (answer, made) = self.made(root)?;
        let node = built(&mut self.arena, self.alloc, words_from(wanted, 1))?;
        if answer == node && made == size_at(wanted, 0)? {
            put(said, wanted)
        } else {
            put_made(said, made, answer, node)
        }
    }
}

impl Judge for Substituted {
    fn row(&mut self, question: &[u8], wanted: &[u8], said: &mut Vec<u8>) -> Result<(), Fault> {
        if word(question, 0) == b"replace".as_slice() {
            self.replace(question)?;
            put(said, wanted)
        } else {
            self.substitute(question, wanted, said)
        }
    }
}
