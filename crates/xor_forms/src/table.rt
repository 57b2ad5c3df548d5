//! Which nodes are known to be which forms. Each is found by its node, and by the nodes of its form. What is looked for is compared
//! with what is found, so no proof speaks of the hashes.

ghost use Rattle.std.specs.Prelude.{◌≡◌, ℕ, ◌<◌, ◌≤◌, ◌↔◌, Bool, IfOk, IfSome, IsTrue, [], length};
ghost use Rattle.std.specs.List.{All};
ghost use Rattle.xor_forms.specs.Forms.{AreForms, IsPut, differ, entry_at, value_of};

use crate::form::Form;
use hash_index::HashIndex;
use std::alloc::{AllocError, Global};
use std::marker::Model;

/// How many nodes a form has at most that is kept.
const MOST_NODES: usize = 128;

/// 2 ^ 64 over the golden ratio: it spreads numbers that are near each other.
const FACTOR: u64 = 11_400_714_819_323_198_485;

/// A node and its form. Contracts see both.
#[derive(Drop)]
struct Sum {
    node: usize,
    odd: bool,
    nodes: Vec<usize>,
}

impl Model for Sum {
    ghost use Rattle.xor_forms.specs.Forms.{Entry};

    ghost Value = { Entry };

    ghost view = { λ s. record { node = s.node; odd = s.odd; nodes = s.nodes.items } };
}

/// A node, or its negation where it is odd.
#[derive(Clone, Copy)]
pub struct Known {
    pub node: usize,
    pub odd: bool,
}

/// Nodes that are known to be forms. Contracts see the list of both.
#[derive(Drop)]
pub struct Table {
    sums: Vec<Sum>,
    by_node: HashIndex,
    by_form: HashIndex,
    // How many nodes all forms have together.
    size: usize,
}

impl Model for Table {
    ghost use Rattle.std.specs.Prelude.{List};
    ghost use Rattle.xor_forms.specs.Forms.{Entry, AreIndexed};

    ghost Value = { List Entry };

    ghost view = { λ t. t.sums.items };

    ghost invariant = { λ t. AreIndexed t.sums.items t.by_node t.by_form };
}

// A number of 64 bits for nodes.
fn hash_of(nodes: &[usize]) -> u64 {
    let mut hash: u64 = 0;
    for node in nodes {
        let next = hash.wrapping_add(*node as u64).wrapping_mul(FACTOR);
        hash = next ^ next.wrapping_shr(32);
    }
    hash
}

// Whether this is the form of the node.
fn is_of(sum: &Sum, node: usize) -> bool
    ensures { IsTrue result ↔ (sum.now.node ≡ node) }
{
    sum.node == node
}

// Whether the form has these nodes.
fn has_nodes(sum: &Sum, nodes: &[usize]) -> bool
    ensures { IsTrue result ↔ (sum.now.nodes ≡ nodes.now) }
{
    sum.nodes.as_slice() == nodes
}

// Where a node stands.
fn place_of(sums: &[Sum], index: &HashIndex, node: usize) -> Option<usize>
    requires { length index.now ≤ length sums.now }
    ensures within { IfSome result (λ k. k < length sums.now) }
    ensures found { IfSome result (λ k. (entry_at sums.now k).node ≡ node) }
{
    index.find(node as u64, |k| is_of(&sums[k], node))
}

// Where a form of these nodes stands.
fn place_of_form(sums: &[Sum], index: &HashIndex, nodes: &[usize]) -> Option<usize>
    requires { length index.now ≤ length sums.now }
    ensures within { IfSome result (λ k. k < length sums.now) }
    ensures found { IfSome result (λ k. (entry_at sums.now k).nodes ≡ nodes.now) }
{
    index.find(hash_of(nodes), |k| has_nodes(&sums[k], nodes))
}

impl Table {
    /// A table without entries. It takes no memory.
    pub fn new(alloc: Global) -> Table
        ensures { result ≡ [] }
    {
        Table {
            sums: Vec::new(alloc),
            by_node: HashIndex::new(alloc),
            by_form: HashIndex::new(alloc),
            size: 0,
        }
    }

    /// The form that a node, or its negation, is known to be, and else the node alone.
    pub fn form_of(&self, alloc: Global, node: usize, negated: bool) -> Result<Form, AllocError>
        ensures { IfOk result (λ form. (v : ℕ → Bool) → AreForms v self.now → value_of v form.odd form.nodes.items ≡ differ negated (v node)) }
    {
        match place_of(&self.sums, &self.by_node, node) {
            Some(k) => {
                let sum = &self.sums[k];
                Ok(Form {
                    nodes: sum.nodes.as_slice().to_vec(alloc)?,
                    odd: sum.odd != negated,
                })
            }
            None => Ok(Form {
                nodes: Vec::from_slice(alloc, &[node])?,
                odd: negated,
            }),
        }
    }

    /// A node, or its negation, that is known to be the form.
    pub fn known(&self, form: &Form) -> Option<Known>
        ensures value { IfSome result (λ known. (v : ℕ → Bool) → AreForms v self.now → differ known.odd (v known.node) ≡ value_of v form.now.odd form.now.nodes.items) }
        ensures within { IfSome result (λ known. (n : ℕ) → All (λ e. e.node < n) self.now → known.node < n) }
    {
        let k = place_of_form(&self.sums, &self.by_form, form.nodes.as_slice())?;
        let sum = &self.sums[k];
        Some(Known {
            node: sum.node,
            odd: sum.odd != form.odd,
        })
    }

    /// Notes that a node is a form, where that has not too many nodes, and all forms together have not more than there is room for.
    pub fn put(
        &mut self,
        alloc: Global,
        node: usize,
        form: Form,
        room: usize,
    ) -> Result<(), AllocError>
        ensures { IsPut self.old (record { node = node; odd = form.odd; nodes = form.nodes.items }) self.new }
    {
        let size = self.size.saturating_add(form.nodes.len());
        if form.nodes.len() > MOST_NODES || size > room {
            return Ok(());
        }
        let hash = hash_of(form.nodes.as_slice());
        let Form { nodes, odd } = form;
        self.size = size;
        self.sums.push(Sum { node, odd, nodes })?;
        self.by_node.push(alloc, node as u64)?;
        self.by_form.push(alloc, hash)
    }
}
