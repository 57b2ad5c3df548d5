// Nodes at some places of a store: what was put there, or what stood there before. An ordered map has them, so that a branch costs what
// it writes, and nothing for the other wires of its block. Contracts see a list by place, with `None` where there is no node.
ghost use Rattle.std.specs.Prelude.{◌≡◌, ◌≢◌, ℕ, [], Some, None, IfOk, OnOk};
ghost use Rattle.std.specs.BTreeMap.{keys};
ghost use Rattle.svex_arena.specs.Substs.{entry_at};
ghost use Rattle.sv_blocks.specs.Overlays.{node_over, Covers};

use items::Items;
use std::alloc::{AllocError, Global};
use std::collections::BTreeMap;
use std::marker::Model;
use svex_arena::Node;

// The keys of a map, in order.
fn keys_of(alloc: Global, nodes: &BTreeMap<usize, Node>) -> Result<Items<usize>, AllocError>
    ensures { IfOk result (λ all. all ≡ keys nodes.now) }
{
    let mut all = Items::new(alloc);
    'keys: for key in nodes.keys() {
        all.push(*key)?;
    }
    Ok(all)
}

/// Nodes at some places of a store.
pub struct Overlay {
    nodes: BTreeMap<usize, Node>,
}

impl Drop for Overlay {
    fn drop(self) {
        let Overlay { nodes: _ } = self;
    }
}

impl Model for Overlay {
    ghost use Rattle.std.specs.Prelude.{ℕ, List, Option};
    ghost use Rattle.wire_places.specs.Laying.{laid};

    ghost Value = { List (Option ℕ) };

    ghost view = { λ o. laid o.nodes.entries };
}

impl Overlay {
    /// No place has a node. Takes no memory.
    pub fn new(alloc: Global) -> Overlay
        ensures { result ≡ [] }
    {
        Overlay {
            nodes: BTreeMap::new(alloc),
        }
    }

    /// The node at a place, if it has one.
    pub fn get(&self, at: usize) -> Option<Node>
        ensures { result ≡ entry_at self.now at }
    {
        self.nodes.get(&at).copied()
    }

    /// The node at a place, or this one where it has none.
    pub fn node_over(&self, at: usize, node: Node) -> Node
        ensures { result ≡ node_over self.now at node }
    {
        self.get(at).unwrap_or(node)
    }

    /// Puts a node at a place, whatever was there.
    pub fn put(&mut self, at: usize, node: Node) -> Result<(), AllocError>
        ensures here { OnOk result (entry_at self.new at ≡ Some node) }
        ensures others { OnOk result ((i : ℕ) → i ≢ at → entry_at self.new i ≡ entry_at self.old i) }
    {
        let _ = self.nodes.insert(at, node)?;
        Ok(())
    }

    /// Puts a node at a place where there is none yet.
    pub fn keep(&mut self, at: usize, node: Node) -> Result<(), AllocError>
        ensures here { OnOk result (entry_at self.new at ≡ Some (node_over self.old at node)) }
        ensures others { OnOk result ((i : ℕ) → i ≢ at → entry_at self.new i ≡ entry_at self.old i) }
    {
        let first = self.node_over(at, node);
        self.put(at, first)
    }

    /// The places that have nodes.
    pub fn places(&self, alloc: Global) -> Result<Items<usize>, AllocError>
        ensures { IfOk result (λ all. Covers all self.now) }
    {
        keys_of(alloc, &self.nodes)
    }
}
