//! Trees over lists and boxes. `trees`: a tree as words, a branch before what is on it, and the sum of its leaves modulo 256:
//! `pair list.3 1 pair 20 30 list.0 4 => 55`.

use case_rows::{Fault, Judge, named, part, put_number, size, small};
use items::{Boxed, Items, both};
use std::alloc::{AllocError, Global};

enum Tree {
    Leaf(u8),
    Node(Items<Tree>),
    Pair(Boxed<Tree>, Boxed<Tree>),
}

impl Drop for Tree {
    #[cycle(tree_drop)]
    fn drop(self) {
        match self {
            Tree::Leaf(_) => {}
            Tree::Node(_) => {}
            Tree::Pair(_, _) => {}
        }
    }
}

// The sum of the leaves, modulo 256.
fn total(tree: &Tree) -> u8 {
    match tree {
        Tree::Leaf(weight) => *weight,
        Tree::Node(children) => {
            let mut sum = 0u8;
            for child in children.as_slice() {
                sum = sum.wrapping_add(total(child));
            }
            sum
        }
        Tree::Pair(left, right) => total(left.get()).wrapping_add(total(right.get())),
    }
}

fn boxed(alloc: Global, tree: Option<Tree>) -> Result<Boxed<Tree>, Fault> {
    match tree {
        Some(tree) => Ok(Boxed::new(alloc, tree)?),
        None => Err(Fault::Form),
    }
}

// The tree of two that are taken off the stack.
fn pair(alloc: Global, stack: &mut Items<Tree>) -> Result<Tree, Fault> {
    let left = boxed(alloc, stack.pop())?;
    let (left, right) = both(left, boxed(alloc, stack.pop()))?;
    Ok(Tree::Pair(left, right))
}

// Takes a tree off the stack and puts it at the end of a list.
fn take(children: &mut Items<Tree>, stack: &mut Items<Tree>) -> Result<(), Fault> {
    match stack.pop() {
        Some(child) => Ok(children.push(child)?),
        None => Err(Fault::Form),
    }
}

fn take_all(children: &mut Items<Tree>, stack: &mut Items<Tree>, word: &[u8]) -> Result<(), Fault> {
    for _ in 0..size(part(word, b'.', 1))? {
        take(children, stack)?;
    }
    Ok(())
}

fn list(alloc: Global, stack: &mut Items<Tree>, word: &[u8]) -> Result<Tree, Fault> {
    let mut children = Items::new(alloc);
    let taken = take_all(&mut children, stack, word);
    let (children, _) = both(children, taken)?;
    Ok(Tree::Node(children))
}

#[derive(Clone, Copy)]
enum Branch {
    Pair,
    List,
}

static BRANCHES: [(&[u8], Branch); 2] = [(b"pair", Branch::Pair), (b"list", Branch::List)];

fn put_tree(alloc: Global, word: &[u8], stack: &mut Items<Tree>) -> Result<(), Fault> {
    let tree = match named(&BRANCHES, part(word, b'.', 0)) {
        Some(Branch::Pair) => pair(alloc, stack),
        Some(Branch::List) => list(alloc, stack, word),
        None => leaf(word),
    };
    push(stack, tree)
}

fn leaf(word: &[u8]) -> Result<Tree, Fault> {
    let weight = small(word).ok_or(Fault::Form)?;
    Ok(Tree::Leaf(weight))
}

fn push(stack: &mut Items<Tree>, tree: Result<Tree, Fault>) -> Result<(), Fault> {
    match tree {
        Ok(tree) => Ok(stack.push(tree)?),
        Err(fault) => Err(fault),
    }
}

fn put_trees(alloc: Global, text: &[u8], stack: &mut Items<Tree>) -> Result<(), Fault> {
    for word in text.rsplit(|c| *c == b' ') {
        put_tree(alloc, word, stack)?;
    }
    Ok(())
}

fn put_total(stack: &Items<Tree>, said: &mut Vec<u8>) -> Result<(), Fault> {
    match stack.as_slice() {
        [tree] => put_number(said, u64::from(total(tree))),
        _ => Err(Fault::Form),
    }
}

#[derive(Drop)]
pub struct Trees {
    pub alloc: Global,
}

impl Judge for Trees {
    fn row(&mut self, question: &[u8], _wanted: &[u8], said: &mut Vec<u8>) -> Result<(), Fault> {
        let mut stack = Items::new(self.alloc);
        let put = put_trees(self.alloc, question, &mut stack);
        let (stack, _) = both(stack, put)?;
        put_total(&stack, said)
    }
}
