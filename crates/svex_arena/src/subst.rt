//! Replacing variables by nodes, all at once. Nodes are gone through from the lowest number up, and each is answered by what
//! replaces it or by the node of its shape over its children's answers, so that nodes that are shared stay shared. Only the
//! nodes that were there at the beginning are gone through: what is put in for a variable is not looked at again.

ghost use Rattle.std.specs.Prelude.{◌≡◌, ℕ, ◌<◌, ◌≤◌, ◌+◌, [], length, slice_index, IfOk, IfSome, None, Option, map, ◌∷◌, ◌++◌};
ghost use Rattle.svex_shape.specs.Shapes.{ChildrenBelow, FitsWidths, shape_at, width_at};
ghost use Rattle.svex_shape.specs.Values.{value_at, read, Rows};
ghost use Rattle.svex_arena.specs.Arenas.{IsArena, Extends};
ghost use Rattle.svex_arena.specs.Marks.{IsClosed, IsMarked, HasRoots};
ghost use Rattle.svex_arena.specs.Substs.{replacement_of, fitting, replacement_at, renamed, entry_at, AreAnswers, IsReplaced, IsReplacedByNamed, IsSubstituted, IsPicked, HasAnswers};

use crate::arena::Arena;
use std::alloc::{AllocError, Global};
use std::marker::Model;
use svex_shape::{Node, Shape, VarName};

/// The nodes that are named for variables, to replace them: a list for each kind by number. Contracts see the five lists.
pub struct Subst {
    pub present: Vec<Option<Node>>,
    pub previous: Vec<Option<Node>>,
    pub stim: Vec<Option<Node>>,
    pub chosen: Vec<Option<Node>>,
    pub sampled: Vec<Option<Node>>,
}

impl Drop for Subst {
    fn drop(self) {
        let Subst {
            present: _,
            previous: _,
            stim: _,
            chosen: _,
            sampled: _,
        } = self;
    }
}

impl Model for Subst {
    ghost use Rattle.svex_arena.specs.Substs.{Replacements};

    ghost Value = { Replacements };

    ghost view = { λ e. record {
      present = e.present.items;
      previous = e.previous.items;
      stim = e.stim.items;
      chosen = e.chosen.items;
      sampled = e.sampled.items;
    } };
}

fn place(list: &[Option<Node>], at: usize) -> Option<Node>
    ensures { result ≡ entry_at list.now at }
{
    if at < list.len() { list[at] } else { None }
}

impl Subst {
    /// The node that is named for a variable. None past the end of its list.
    pub fn of(&self, name: &VarName) -> Option<Node>
        ensures { result ≡ replacement_of self.now name.now }
    {
        match name {
            VarName::Now(at) => place(&self.present, *at),
            VarName::Prev(at) => place(&self.previous, *at),
            VarName::Stim(at) => place(&self.stim, *at),
            VarName::Chosen(at) => place(&self.chosen, *at),
            VarName::Sampled(at) => place(&self.sampled, *at),
        }
    }
}

// The answer for a node.
fn answer(done: &[Node], node: Node) -> Node
    requires { node < length done.now }
    ensures { result ≡ slice_index done.now node }
{
    done[node.index()]
}

/// A shape over other children.
pub fn rename(shape: &Shape, done: &[Node]) -> Shape
    requires { ChildrenBelow (length done.now) shape.now }
    ensures { result ≡ renamed (λ k. slice_index done.now k) shape.now }
{
    match shape {
        Shape::Const(value) => Shape::Const(*value),
        Shape::Var(name, width) => Shape::Var(*name, *width),
        Shape::Unary(op, a) => Shape::Unary(*op, answer(done, *a)),
        Shape::Binary(op, a, b) => Shape::Binary(*op, answer(done, *a), answer(done, *b)),
        Shape::Cond(c, a, b) => Shape::Cond(answer(done, *c), answer(done, *a), answer(done, *b)),
        Shape::Pick(c, a, b) => Shape::Pick(answer(done, *c), answer(done, *a), answer(done, *b)),
        Shape::Slice { of, lo, width } => Shape::Slice {
            of: answer(done, *of),
            lo: *lo,
            width: *width,
        },
        Shape::Zext(a, width) => Shape::Zext(answer(done, *a), *width),
        Shape::Sext(a, width) => Shape::Sext(answer(done, *a), *width),
        Shape::DynSlice { of, at, spot } => Shape::DynSlice {
            of: answer(done, *of),
            at: answer(done, *at),
            spot: *spot,
        },
        Shape::DynPut { of, at, spot, put } => Shape::DynPut {
            of: answer(done, *of),
            at: answer(done, *at),
            spot: *spot,
            put: answer(done, *put),
        },
    }
}

// The node that is named for a variable of this width, where it is one of the first and has the width.
#[tactic(auto, unfolding(crate::specs::Substs::fitting))]
fn fitting(arena: &Arena, len: usize, found: Option<Node>, width: u8) -> Option<Node>
    requires { len ≤ length arena.now }
    ensures { result ≡ fitting len (width_at arena.now) found width }
{
    let node = found?;
    if node.index() < len && arena.width(node) == width {
        Some(node)
    } else {
        None
    }
}

// The node that replaces a shape, where that is a variable.
#[tactic(auto, unfolding(crate::specs::Substs::replacement_at))]
fn replacement(arena: &Arena, len: usize, by: &Subst, shape: &Shape) -> Option<Node>
    requires { len ≤ length arena.now }
    ensures { result ≡ replacement_at by.now len (width_at arena.now) shape.now }
{
    match shape {
        Shape::Var(name, width) => fitting(arena, len, by.of(name), *width),
        _ => None,
    }
}

// The answer for the next node, where it is marked.
fn next_answer(
    arena: &mut Arena,
    alloc: Global,
    len: usize,
    marks: &[bool],
    by: &Subst,
    done: &[Node],
) -> Result<Node, AllocError>
    requires here { length done.now < len }
    requires so_far { IsSubstituted len by.now arena.old marks.now done.now }
    ensures more { IfOk result (λ n. IsSubstituted len by.now arena.new marks.now (done.now ++ n ∷ [])) }
    ensures extends { Extends arena.old arena.new }
{
    let at = done.len();
    if !marks[at] {
        return Ok(Node::new(0));
    }
    let shape = arena.shape(Node::new(at));
    match replacement(arena, len, by, &shape) {
        Some(node) => Ok(node),
        None => arena.intern(alloc, rename(&shape, done)),
    }
}

// The answers for the marked nodes, one after another.
fn answer_all(
    arena: &mut Arena,
    alloc: Global,
    len: usize,
    marks: &[bool],
    by: &Subst,
) -> Result<Vec<Node>, AllocError>
    requires start { IsSubstituted len by.now arena.old marks.now [] }
    ensures done { IfOk result (λ v. IsSubstituted len by.now arena.new marks.now v.items) }
    ensures full { IfOk result (λ v. length v.items ≡ len) }
    ensures extends { Extends arena.old arena.new }
{
    let mut done = Vec::with_capacity(alloc, len)?;
    for _node in 0..len {
        let answer = next_answer(arena, alloc, len, marks, by, &done)?;
        done.push(answer)?;
    }
    Ok(done)
}

// The answers for the roots.
fn pick(alloc: Global, roots: &[Node], done: &[Node]) -> Result<Vec<Node>, AllocError>
    requires { (i : ℕ) → i < length roots.now → slice_index roots.now i < length done.now }
    ensures { IfOk result (λ v. IsPicked done.now roots.now v.items (length roots.now)) }
{
    let mut picked = Vec::with_capacity(alloc, roots.len())?;
    for root in roots {
        picked.push(answer(done, *root))?;
    }
    Ok(picked)
}

// The roots' nodes once the variables are replaced, made from the first nodes by the marks of the roots.
#[tactic(auto, using(crate::proofs::Substituting::all_answered))]
fn substitute_marked(
    arena: &mut Arena,
    alloc: Global,
    roots: &[Node],
    marks: &[bool],
    by: &Subst,
) -> Result<Vec<Node>, AllocError>
    requires within { (i : ℕ) → i < length roots.now → slice_index roots.now i < length arena.old }
    requires start { IsSubstituted (length arena.old) by.now arena.old marks.now [] }
    requires rooted { HasRoots roots.now marks.now (length roots.now) }
    ensures answers { IfOk result (λ v. HasAnswers (length arena.old) by.now arena.new roots.now v.items) }
    ensures extends { Extends arena.old arena.new }
{
    let len = arena.len();
    let done = answer_all(arena, alloc, len, marks, by)?;
    pick(alloc, roots, &done)
}

impl Arena {
    /// The roots' nodes once the variables are replaced, all at once. A variable for which no node is named stays, and so does one
    /// whose node is not in the arena or has another width than the variable.
    pub fn substitute(
        &mut self,
        alloc: Global,
        roots: &[Node],
        by: &Subst,
    ) -> Result<Vec<Node>, AllocError>
        requires { (i : ℕ) → i < length roots.now → slice_index roots.now i < length self.old }

        // Each node that a root reaches is answered by what replaces it, or by the node of its shape over its children's answers.
        ensures answers { IfOk result (λ v. AreAnswers self.old by.now self.new roots.now v.items) }

        // The answers have the roots' widths, and their values and variables once the variables are replaced.
        ensures replaced { IfOk result (λ v. IsReplaced self.old by.now self.new roots.now v.items) }
        ensures named { IfOk result (λ v. IsReplacedByNamed self.old by.now self.new roots.now v.items) }

        ensures extends { Extends self.old self.new }
        ensures arena { IsArena self.new }
    {
        // The two calls of `len` recall what holds of every arena.
        let _ = self.len();
        let marks = self.reached(alloc, roots)?;
        let answers = substitute_marked(self, alloc, roots, &marks, by);
        // For the proof: recalls what the type promises of it.
        let _ = self.len();
        answers
    }
}
