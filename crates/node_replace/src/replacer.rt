//! The walk.
//!
//! It goes down from a node to those that have no answer yet, on a path of its own, so that no call is as deep as the graph. A node is
//! answered when each of its children is: a variable from outside, any other by its shape over the answers of its children. Children
//! have lower numbers, and only nodes of the beginning are walked, each once until its answer is taken back. An answer is loose where
//! it rests on one that was given as loose: such answers can be taken back, all others stay.

ghost use Rattle.std.specs.Prelude.{◌≡◌, ℕ, ◌<◌, ◌≤◌, ◌||◌, ◌↔◌, [], None, List, length, All, IsTrue, IfOk, OnOk, IfSome, MatchOption, false, slice_index, slice_index_or};
ghost use Rattle.svex_shape.specs.Shapes.{OnChildren, ChildrenBelow, IsChild, shape_at};
ghost use Rattle.svex_arena.specs.Arenas.{IsArena, Extends};
ghost use Rattle.svex_arena.specs.Marks.{IsMarked};
ghost use Rattle.svex_shape.specs.declared.shape.Shape.{Shape};
ghost use Rattle.svex_arena.specs.Substs.{Replacements, renamed};
ghost use Rattle.node_replace.specs.Replacing.{AreNamed, IsReplacing};
ghost use Rattle.svex_rewrite.specs.Meaning.{IsOver, Makes};
ghost use Rattle.node_replace.specs.Walks.{Begins, IsThere, IsWalk, IsNew, GoesOn, IsGiven, IsForgotten, Waits, Entered, Left, IsCleared, answer_at, children_of, is_open, is_marked, is_variable, any_loose, work_left};

use std::alloc::{AllocError, Global};
use svex_arena::{Arena, Node, Shape, rename};
use svex_rewrite::make;
use svex_shape::{Children, child_nodes};

/// The answers for the nodes of the beginning.
pub struct Replacer {
    // for each node of the beginning whether it was reached
    marks: Vec<bool>,
    // what stands for it
    answers: Vec<Node>,
    // whether that can be taken back
    loose: Vec<bool>,
    // the nodes whose answers are loose
    touched: Vec<usize>,
    // nodes that wait for their children, each reached from the one before it
    path: Vec<usize>,
}

impl Drop for Replacer {
    fn drop(self) {
        let Replacer {
            marks: _,
            answers: _,
            loose: _,
            touched: _,
            path: _,
        } = self;
    }
}

impl Replacer {
    /// No answers for so many nodes.
    pub fn new(alloc: Global, nodes: usize) -> Result<Replacer, AllocError>
        ensures new { IfOk result (IsNew nodes) }
        ensures replacing { IfOk result (λ m. (shapes : List Shape) (by : Replacements) → nodes ≤ length shapes → AreNamed by (length shapes) → IsReplacing by shapes m) }
    {
        Ok(Replacer {
            marks: vec![in alloc; false; nodes]?,
            answers: vec![in alloc; Node::new(0); nodes]?,
            loose: vec![in alloc; false; nodes]?,
            touched: Vec::new(alloc),
            path: Vec::new(alloc),
        })
    }

    // Whether there is a child, and it was not reached yet.
    fn is_open(&self, child: Option<usize>) -> bool
        requires { IfSome child (λ k. k < length self.now.marks.items) }
        ensures { result ≡ is_open self.now.marks.items child }
    {
        match child {
            None => false,
            Some(node) => !self.marks[node],
        }
    }

    // The first child of a node that was not reached yet.
    fn open_child(&self, arena: &Arena, node: usize) -> Option<usize>
        requires marks { node ≤ length self.now.marks.items }
        requires node { node < length arena.now }
        ensures fresh { IfSome result (λ k. slice_index_or self.now.marks.items k false ≡ false) }
        ensures lower { IfSome result (λ k. k < node) }
        ensures child { IfSome result (λ k. IsChild k (shape_at arena.now node)) }
        ensures reached { result ≡ None → OnChildren (λ k. IsMarked self.now.marks.items k × (k < node)) (shape_at arena.now node) }
    {
        let of = child_nodes(&arena.shape(Node::new(node)));
        if self.is_open(of.first) {
            return of.first;
        }
        if self.is_open(of.second) {
            return of.second;
        }
        if self.is_open(of.third) {
            return of.third;
        }
        None
    }

    // Whether there is a child, and its answer is loose.
    fn is_loose(&self, child: Option<usize>) -> bool
        requires { IfSome child (λ k. k < length self.now.loose.items) }
        ensures { result ≡ is_marked self.now.loose.items child }
    {
        match child {
            None => false,
            Some(node) => self.loose[node],
        }
    }

    // Whether the answer of a child is loose.
    fn rests_loosely(&self, of: &Children) -> bool
        requires first { IfSome of.now.first (λ k. k < length self.now.loose.items) }
        requires second { IfSome of.now.second (λ k. k < length self.now.loose.items) }
        requires third { IfSome of.now.third (λ k. k < length self.now.loose.items) }
        ensures { result ≡ (is_marked self.now.loose.items of.now.first || (is_marked self.now.loose.items of.now.second || is_marked self.now.loose.items of.now.third)) }
    {
        self.is_loose(of.first) || self.is_loose(of.second) || self.is_loose(of.third)
    }

    // Puts a node on the path.
    fn enter(&mut self, node: usize) -> Result<(), AllocError>
        requires { node < length self.old.marks.items }
        ensures { OnOk result (Entered self.old node self.new) }
    {
        self.path.push(node)?;
        self.marks[node] = true;
        Ok(())
    }

    // Takes the last node from the path, with its answer.
    fn leave(&mut self, node: usize, answer: Node, loose: bool) -> Result<(), AllocError>
        requires answers { node < length self.old.answers.items }
        requires loose { node < length self.old.loose.items }
        ensures { OnOk result (Left self.old node answer loose self.new) }
    {
        if loose {
            self.touched.push(node)?;
        }
        let _ = self.path.pop();
        self.answers[node] = answer;
        self.loose[node] = loose;
        Ok(())
    }

    // The answer for a node over those of its children, and whether it is loose.
    fn over_children(
        &self,
        arena: &mut Arena,
        alloc: Global,
        shape: &Shape,
    ) -> Result<(Node, bool), AllocError>
        requires arena { IsArena arena.old }
        requires looses { length self.now.loose.items ≡ length self.now.answers.items }
        requires children { ChildrenBelow (length self.now.answers.items) shape.now }
        requires over { IsOver arena.old (renamed (λ k. slice_index self.now.answers.items k) shape.now) }
        ensures makes { IfOk result (λ p. Makes arena.old (renamed (λ k. slice_index self.now.answers.items k) shape.now) arena.new p.0) }
        ensures loose { IfOk result (λ p. p.1 ≡ any_loose self.now.loose.items shape.now) }
        ensures extends { Extends arena.old arena.new }
        ensures arena { IsArena arena.new }
    {
        let loose = self.rests_loosely(&child_nodes(shape));
        let node = make(arena, alloc, &rename(shape, &self.answers))?;
        Ok((node, loose))
    }

    // Answers the last node of the path, whose children have their answers.
    fn answer(
        &mut self,
        arena: &mut Arena,
        alloc: Global,
        node: usize,
        shape: &Shape,
    ) -> Result<(), AllocError>
        requires arena { IsArena arena.old }
        requires walk { IsWalk arena.old self.old }
        requires waits { Waits self.old node }
        requires is { shape.now ≡ shape_at arena.old node }
        requires other { is_variable shape.now ≡ false }
        requires children { OnChildren (λ k. IsMarked self.old.marks.items k × (k < node)) shape.now }
        ensures walk { OnOk result (IsWalk arena.new self.new) }
        ensures goes { OnOk result (GoesOn arena.old self.old arena.new self.new) }
        ensures less { OnOk result (work_left self.new < work_left self.old) }
        ensures extends { Extends arena.old arena.new }
        ensures arena { IsArena arena.new }
    {
        let (answer, loose) = self.over_children(arena, alloc, shape)?;
        self.leave(node, answer, loose)
    }

    // Goes one step on from the last node of the path: to a child that was not reached yet, or back with an answer where there is none.
    // Says whether the node is a variable that waits for its answer.
    fn advance(&mut self, arena: &mut Arena, alloc: Global, node: usize) -> Result<bool, AllocError>
        requires arena { IsArena arena.old }
        requires walk { IsWalk arena.old self.old }
        requires waits { Waits self.old node }
        ensures walk { OnOk result (IsWalk arena.new self.new) }
        ensures goes { OnOk result (GoesOn arena.old self.old arena.new self.new) }
        ensures waits { IfOk result (λ w. IsTrue w → (Waits self.new node × IsTrue (is_variable (shape_at arena.new node)))) }
        ensures stays { IfOk result (λ w. IsTrue w → work_left self.new ≤ work_left self.old) }
        ensures less { IfOk result (λ w. w ≡ false → work_left self.new < work_left self.old) }
        ensures extends { Extends arena.old arena.new }
        ensures arena { IsArena arena.new }
    {
        let shape = arena.shape(Node::new(node));
        if let Some(child) = self.open_child(arena, node) {
            self.enter(child)?;
            return Ok(false);
        }
        match &shape {
            Shape::Var(_, _) => Ok(true),
            _ => {
                self.answer(arena, alloc, node, &shape)?;
                Ok(false)
            }
        }
    }

    /// Begins a walk from a node, unless it was reached before.
    pub fn begin(&mut self, arena: &Arena, root: Node) -> Result<(), AllocError>
        requires walk { IsWalk arena.now self.old }
        requires path { self.old.path.items ≡ [] }
        requires root { root < length self.old.answers.items }
        ensures walk { OnOk result (IsWalk arena.now self.new) }
        ensures begins { OnOk result (Begins arena.now self.old root self.new) }
    {
        // For the proof: recalls what the type promises of it.
        let _ = arena;
        if self.marks[root.index()] {
            return Ok(());
        }
        self.enter(root.index())
    }

    /// Goes on until a variable waits for its answer, which is answered, or nothing waits any more.
    pub fn next_variable(
        &mut self,
        arena: &mut Arena,
        alloc: Global,
    ) -> Result<Option<Node>, AllocError>
        requires arena { IsArena arena.old }
        requires walk { IsWalk arena.old self.old }
        ensures walk { OnOk result (IsWalk arena.new self.new) }
        ensures goes { OnOk result (GoesOn arena.old self.old arena.new self.new) }
        ensures next { IfOk result (λ o. MatchOption o (self.new.path.items ≡ []) (λ v. Waits self.new v × IsTrue (is_variable (shape_at arena.new v)))) }
        ensures work { OnOk result (work_left self.new ≤ work_left self.old) }
        ensures extends { Extends arena.old arena.new }
        ensures arena { IsArena arena.new }
    {
        // For the proof: recalls what the type promises of it.
        let _ = arena.len();
        'path: while 0 < self.path.len() {
            let node = self.path[self.path.len() - 1];
            if self.advance(arena, alloc, node)? {
                return Ok(Some(Node::new(node)));
            }
        }
        Ok(None)
    }

    /// Gives the variable that waits its answer, which may be loose.
    pub fn give(
        &mut self,
        arena: &Arena,
        variable: Node,
        answer: Node,
        loose: bool,
    ) -> Result<(), AllocError>
        requires walk { IsWalk arena.now self.old }
        requires waits { Waits self.old variable }
        requires answer { IsThere arena.now variable answer }
        ensures walk { OnOk result (IsWalk arena.now self.new) }
        ensures given { OnOk result (IsGiven arena.now self.old variable answer loose self.new) }
        ensures less { OnOk result (work_left self.new < work_left self.old) }
    {
        // For the proof: recalls what the type promises of it.
        let _ = arena;
        self.leave(variable.index(), answer, loose)
    }

    /// What stands for a node.
    pub fn answer_of(&self, node: Node) -> Node
        requires { node < length self.now.answers.items }
        ensures { result ≡ answer_at self.now node }
    {
        self.answers[node.index()]
    }

    /// Whether no answer is loose.
    pub fn is_fixed(&self) -> bool
        ensures { IsTrue result ↔ (self.now.touched.items ≡ []) }
    {
        self.touched.is_empty()
    }

    // Takes the loose answers back.
    fn take_back(&mut self)
        requires marks { All (λ k. k < length self.old.marks.items) self.old.touched.items }
        requires loose { All (λ k. k < length self.old.loose.items) self.old.touched.items }
        ensures { IsForgotten self.old self.new }
    {
        clear(&self.touched, &mut self.marks);
        clear(&self.touched, &mut self.loose);
        self.touched.clear();
    }

    /// Takes the loose answers back. All others stay, whatever is named for variables from then on.
    pub fn forget(&mut self)
        requires marks { All (λ k. k < length self.old.marks.items) self.old.touched.items }
        requires loose { All (λ k. k < length self.old.loose.items) self.old.touched.items }
        ensures forgotten { IsForgotten self.old self.new }
        ensures replacing { (shapes : List Shape) (by other : Replacements) → IsReplacing by shapes self.old
            → AreNamed other (length shapes) → IsReplacing other shapes self.new }
    {
        self.take_back();
    }
}

// Takes marks away.
fn clear(nodes: &[usize], marks: &mut Vec<bool>)
    requires below { All (λ k. k < length marks.old.items) nodes.now }
    ensures { IsCleared nodes.now marks.old.items marks.new.items }
{
    'nodes: for at in 0..nodes.len() {
        marks[nodes[at]] = false;
    }
}
