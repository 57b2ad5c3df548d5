//! Values of nodes that are kept, and which of them are fresh: nothing that such a node reads has changed since it was evaluated.
//!
//! Where a node is asked for, a walk goes down from it over stale nodes alone, and evaluates each behind its children. The path of the
//! walk lies in room that was taken once; numbers fall along it, so no node comes on it twice, and no call deeper than the graph is needed.
//! Where a node is forgotten, all fresh nodes that reach it are forgotten with it, from parent to parent. So the children of a fresh node are
//! always fresh, a walk down ends at fresh nodes and one up at stale ones, and each evaluation is paid for by one change.

ghost use Rattle.std.specs.Prelude.{◌≡◌, ℕ, ◌+◌, ◌-◌, ◌<◌, ◌≤◌, ◌⊎◌, true, false, None, List, [], ◌∷◌, ◌++◌, length, All, IfOk, IfSome, Contains, slice_index_or, take, vec_capacity};
ghost use Rattle.svex_shape.specs.declared.shape.Shape.{Shape};
ghost use Rattle.svex_shape.specs.Shapes.{OnChildren, shape_at};
ghost use Rattle.svex_shape.specs.Values.{read};
ghost use Rattle.node_memo.specs.Memos.{IsMemo, HasFresh, StayFresh, IsForgotten, is_fresh};
ghost use Rattle.node_memo.specs.Walks.{is_stale, IsDown, KeepsUp, AreDropped, stale_marks, fresh_marks};

use crate::parents::parents_of;
use fourvec::Four;
use std::alloc::{AllocError, Global};
use svex_arena::{Arena, Env, Node, shape_value};
use svex_shape::child_nodes;

/// Values of the nodes of a graph, and which of them are fresh. Only `new` takes memory.
pub struct Memo {
    /// For each node its value, where it is fresh.
    pub values: Vec<Four>,
    fresh: Vec<bool>,
    // for each node those of which it is a child
    parents: Vec<Vec<usize>>,
    // in a walk down nodes that wait for their children, each a child of the one before it
    path: Vec<usize>,
    /// The nodes that were forgotten last.
    pub stale: Vec<usize>,
}

impl Drop for Memo {
    fn drop(self) {
        let Memo {
            values: _,
            fresh: _,
            parents: _,
            path: _,
            stale: _,
        } = self;
    }
}

impl Memo {
    /// Room for the values of the nodes of a graph. None is fresh.
    pub fn new(alloc: Global, arena: &Arena) -> Result<Memo, AllocError>
        ensures memo { IfOk result (IsMemo arena.now) }
        ensures none { IfOk result (λ memo. (k : ℕ) → is_fresh memo.fresh.items k ≡ false) }
    {
        let nodes = arena.len();
        let parents = parents_of(alloc, arena)?;
        Ok(Memo {
            values: vec![in alloc; Four::new(1, 1, 0); nodes]?,
            fresh: vec![in alloc; false; nodes]?,
            parents,
            path: Vec::with_capacity(alloc, nodes)?,
            stale: Vec::with_capacity(alloc, nodes)?,
        })
    }

    /// Forgets all nodes.
    pub fn clear(&mut self)
        ensures memo { (shapes : List Shape) → IsMemo shapes self.old → IsMemo shapes self.new }
        ensures none { (k : ℕ) → is_fresh self.new.fresh.items k ≡ false }
        ensures values { self.new.values ≡ self.old.values }
    {
        clear_marks(&mut self.fresh);
    }

    // ---- down

    // Whether there is a child, and it is stale.
    fn is_stale(&self, child: Option<usize>) -> bool
        requires { IfSome child (λ k. k < length self.now.fresh.items) }
        ensures { result ≡ is_stale self.now.fresh.items child }
    {
        match child {
            None => false,
            Some(node) => !self.fresh[node],
        }
    }

    // The first child of a node that is stale.
    fn stale_child(&self, arena: &Arena, node: usize) -> Option<usize>
        requires marks { length self.now.fresh.items ≡ length arena.now }
        requires node { node < length arena.now }
        ensures stale { IfSome result (λ k. is_fresh self.now.fresh.items k ≡ false) }
        ensures lower { IfSome result (λ k. k < node) }
        ensures none { result ≡ None → OnChildren (λ k. (is_fresh self.now.fresh.items k ≡ true) × (k < node)) (shape_at arena.now node) }
    {
        let of = child_nodes(&arena.shape(Node::new(node)));
        if self.is_stale(of.first) {
            return of.first;
        }
        if self.is_stale(of.second) {
            return of.second;
        }
        if self.is_stale(of.third) {
            return of.third;
        }
        None
    }

    // Puts a node on the path.
    fn enter(&mut self, node: usize)
        requires { length self.old.path.items < vec_capacity self.old.path }
        ensures path { self.new.path.items ≡ self.old.path.items ++ node ∷ [] }
        ensures room { vec_capacity self.new.path ≡ vec_capacity self.old.path }
        ensures values { self.new.values ≡ self.old.values }
        ensures fresh { self.new.fresh ≡ self.old.fresh }
        ensures kept { KeepsUp self.old self.new }
    {
        self.path.push_reserved(node);
    }

    // Evaluates the last node of the path, whose children are fresh, and takes it from the path.
    fn leave(&mut self, arena: &Arena, env: &Env, node: usize)
        requires down { IsDown arena.now self.old }
        requires right { HasFresh (read env.now) arena.now self.old }
        requires some { 0 < length self.old.path.items }
        requires node { node ≡ slice_index_or self.old.path.items (length self.old.path.items - 1) 0 }
        requires children { OnChildren (λ k. (is_fresh self.old.fresh.items k ≡ true) × (k < node)) (shape_at arena.now node) }
        ensures down { IsDown arena.now self.new }
        ensures right { HasFresh (read env.now) arena.now self.new }
        ensures path { self.new.path.items ≡ take (length self.old.path.items - 1) self.old.path.items }
        ensures has { is_fresh self.new.fresh.items node ≡ true }
        ensures stay { StayFresh self.old self.new }
        ensures kept { KeepsUp self.old self.new }
        ensures less { stale_marks self.new.fresh.items < stale_marks self.old.fresh.items }
    {
        // For the proof: recalls what the type promises of it.
        let _ = arena.len();
        let _ = self.path.pop();
        let shape = arena.shape(Node::new(node));
        self.values[node] = shape_value(&shape, env, &self.values);
        self.fresh[node] = true;
    }

    // Goes down from the last node of the path over stale children, to one that has none.
    fn go_down(&mut self, arena: &Arena) -> usize
        requires down { IsDown arena.now self.old }
        requires some { 0 < length self.old.path.items }
        ensures down { IsDown arena.now self.new }
        ensures some { 0 < length self.new.path.items }
        ensures first { slice_index_or self.new.path.items 0 0 ≡ slice_index_or self.old.path.items 0 0 }
        ensures last { result ≡ slice_index_or self.new.path.items (length self.new.path.items - 1) 0 }
        ensures children { OnChildren (λ k. (is_fresh self.new.fresh.items k ≡ true) × (k < result)) (shape_at arena.now result) }
        ensures values { self.new.values ≡ self.old.values }
        ensures fresh { self.new.fresh ≡ self.old.fresh }
        ensures kept { KeepsUp self.old self.new }
    {
        let mut node = self.path[self.path.len() - 1];
        'down: while let Some(child) = self.stale_child(arena, node) {
            self.enter(child);
            node = child;
        }
        node
    }

    /// Evaluates a node, where it is stale, with all stale ones that it reaches.
    pub fn evaluate(&mut self, arena: &Arena, env: &Env, node: usize)
        requires memo { IsMemo arena.now self.old }
        requires right { HasFresh (read env.now) arena.now self.old }
        requires node { node < length arena.now }
        ensures memo { IsMemo arena.now self.new }
        ensures right { HasFresh (read env.now) arena.now self.new }
        ensures has { is_fresh self.new.fresh.items node ≡ true }
        ensures stay { StayFresh self.old self.new }
    {
        if self.fresh[node] {
            return;
        }
        self.enter(node);
        'path: while 0 < self.path.len() {
            let last = self.go_down(arena);
            self.leave(arena, env, last);
        }
    }

    // ---- up

    /// Forgets a node, and with it all that were fresh and reach it.
    pub fn forget(&mut self, arena: &Arena, node: usize)
        requires memo { IsMemo arena.now self.old }
        requires node { node < length arena.now }
        ensures memo { IsMemo arena.now self.new }
        ensures forgotten { IsForgotten self.old node self.new }
        ensures inside { All (λ k. k < length arena.now) self.new.stale.items }
    {
        // For the proof: recalls what the type promises of it.
        let _ = arena.len();
        self.stale.clear();
        drop_one(node, &mut self.fresh, &mut self.stale);
        let mut at = 0;
        'up: while at < self.stale.len() {
            let child = self.stale[at];
            drop_all(&self.parents[child], &mut self.fresh, &mut self.stale);
            at += 1;
        }
    }
}

fn clear_marks(fresh: &mut Vec<bool>)
    ensures len { length fresh.new.items ≡ length fresh.old.items }
    ensures none { (k : ℕ) → is_fresh fresh.new.items k ≡ false }
{
    for node in 0..fresh.len() {
        fresh[node] = false;
    }
}

// Forgets a node, if it is fresh.
fn drop_one(node: usize, fresh: &mut Vec<bool>, stale: &mut Vec<usize>)
    requires within { node < length fresh.old.items }
    requires room { fresh_marks fresh.old.items + length stale.old.items ≤ vec_capacity stale.old }
    ensures dropped { AreDropped (node ∷ []) fresh.old.items stale.old.items fresh.new.items stale.new.items }
    ensures room { vec_capacity stale.new ≡ vec_capacity stale.old }
{
    if fresh[node] {
        fresh[node] = false;
        stale.push_reserved(node);
    }
}

// Forgets those of these nodes that are fresh, and puts them behind others that were forgotten.
fn drop_all(nodes: &[usize], fresh: &mut Vec<bool>, stale: &mut Vec<usize>)
    requires within { All (λ k. k < length fresh.old.items) nodes.now }
    requires room { fresh_marks fresh.old.items + length stale.old.items ≤ vec_capacity stale.old }
    ensures dropped { AreDropped nodes.now fresh.old.items stale.old.items fresh.new.items stale.new.items }
    ensures room { vec_capacity stale.new ≡ vec_capacity stale.old }
{
    for node in nodes {
        drop_one(*node, fresh, stale);
    }
}
