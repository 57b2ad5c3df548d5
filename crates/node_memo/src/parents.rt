//! For each node the nodes of which it is a child.

ghost use Rattle.std.specs.Prelude.{◌≡◌, ℕ, ◌<◌, [], length, All, IfOk, IfSome, OnOk, Contains, slice_index_or};
ghost use Rattle.svex_shape.specs.Shapes.{OnChildren, shape_at};
ghost use Rattle.node_memo.specs.Memos.{rows_in, AreParents};
ghost use Rattle.node_memo.specs.Lists.{Gains};

use crate::lists::{no_lists, put_number};
use std::alloc::{AllocError, Global};
use svex_arena::{Arena, Node};
use svex_shape::child_nodes;

// Puts a node at the end of the parents of another, if there is one.
fn put_parent(
    parents: &mut [Vec<usize>],
    child: Option<usize>,
    node: usize,
) -> Result<(), AllocError>
    requires { IfSome child (λ c. c < length parents.old) }
    ensures gains { OnOk result (Gains (rows_in parents.old) node (rows_in parents.new)) }
    ensures has { OnOk result (IfSome child (λ c. Contains (slice_index_or (rows_in parents.new) c []) node)) }
{
    match child {
        None => Ok(()),
        Some(child) => put_number(parents, child, node),
    }
}

// Puts a node at the end of the parents of its children.
fn put_node(parents: &mut [Vec<usize>], arena: &Arena, node: usize) -> Result<(), AllocError>
    requires len { length parents.old ≡ length arena.now }
    requires node { node < length arena.now }
    ensures gains { OnOk result (Gains (rows_in parents.old) node (rows_in parents.new)) }
    ensures has { OnOk result (OnChildren (λ c. Contains (slice_index_or (rows_in parents.new) c []) node) (shape_at arena.now node)) }
{
    let of = child_nodes(&arena.shape(Node::new(node)));
    put_parent(parents, of.first, node)?;
    put_parent(parents, of.second, node)?;
    put_parent(parents, of.third, node)
}

fn put_nodes(parents: &mut [Vec<usize>], arena: &Arena) -> Result<(), AllocError>
    requires len { length parents.old ≡ length arena.now }
    requires none { (k : ℕ) → slice_index_or (rows_in parents.old) k [] ≡ [] }
    ensures len { OnOk result (length parents.new ≡ length arena.now) }
    ensures inside { OnOk result ((c k : ℕ) → Contains (slice_index_or (rows_in parents.new) c []) k → k < length arena.now) }
    ensures parents { OnOk result (AreParents arena.now (rows_in parents.new)) }
{
    for node in 0..arena.len() {
        put_node(parents, arena, node)?;
    }
    Ok(())
}

/// For each node of a graph the nodes of which it is a child.
pub fn parents_of(alloc: Global, arena: &Arena) -> Result<Vec<Vec<usize>>, AllocError>
    ensures len { IfOk result (λ parents. length parents.items ≡ length arena.now) }
    ensures inside { IfOk result (λ parents. (c k : ℕ) → Contains (slice_index_or (rows_in parents.items) c []) k → k < length arena.now) }
    ensures parents { IfOk result (λ parents. AreParents arena.now (rows_in parents.items)) }
{
    let mut parents = no_lists(alloc, arena.len())?;
    put_nodes(&mut parents, arena)?;
    Ok(parents)
}
