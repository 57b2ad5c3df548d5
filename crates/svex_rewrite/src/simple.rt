//! Simplifying what a node reaches. Marked nodes are rewritten from the lowest number up, each once, over the nodes that its
//! children became, so that shared nodes are rewritten once and there is no recursion. The nodes that are there stay as they
//! are, since others may name them; simplified ones are added behind.

ghost use Rattle.std.specs.Prelude.{◌≡◌, ℕ, ◌<◌, ◌≤◌, ◌+◌, ◌∷◌, [], ◌++◌, length, slice_index, IfOk};
ghost use Rattle.svex_arena.specs.Arenas.{IsArena, Extends};
ghost use Rattle.svex_arena.specs.Marks.{IsMarked, HasRoots};
ghost use Rattle.svex_rewrite.specs.Meaning.{IsSimplified, StandsFor};

use crate::rules::make;
use std::alloc::{AllocError, Global};
use svex_arena::{Arena, Node, rename};

// The node that stands for the next node, where it is marked.
#[tactic(auto, using(crate::proofs::Simplifying::next_unmarked, crate::proofs::Simplifying::next_over))]
fn next_simple(
    arena: &mut Arena,
    alloc: Global,
    len: usize,
    marks: &[bool],
    done: &[Node],
) -> Result<Node, AllocError>
    requires here { length done.now < len }
    requires so_far { IsSimplified len arena.old marks.now done.now }
    ensures more { IfOk result (λ n. IsSimplified len arena.new marks.now (done.now ++ n ∷ [])) }
    ensures extends { Extends arena.old arena.new }
{
    let at = done.len();
    if marks[at] {
        let shape = arena.shape(Node::new(at));
        let simple = make(arena, alloc, &rename(&shape, done))?;
        Ok(simple)
    } else {
        Ok(Node::new(0))
    }
}

// The nodes that stand for the first nodes that are marked, from the lowest number up.
fn simplify_first(
    arena: &mut Arena,
    alloc: Global,
    count: usize,
    len: usize,
    marks: &[bool],
) -> Result<Vec<Node>, AllocError>
    requires within { count ≤ len }
    requires start { IsSimplified len arena.old marks.now [] }
    ensures done { IfOk result (λ v. IsSimplified len arena.new marks.now v.items) }
    ensures full { IfOk result (λ v. length v.items ≡ count) }
    ensures extends { Extends arena.old arena.new }
{
    let mut done = Vec::with_capacity(alloc, count)?;
    for _node in 0..count {
        let simple = next_simple(arena, alloc, len, marks, &done)?;
        done.push(simple)?;
    }
    Ok(done)
}

// The answer for a node.
fn answer(done: &[Node], node: Node) -> Node
    requires { node < length done.now }
    ensures { result ≡ slice_index done.now node }
{
    done[node.index()]
}

// What stands for a marked node.
#[tactic(auto, using(crate::proofs::Simplifying::stands_for))]
fn simplify_marked(
    arena: &mut Arena,
    alloc: Global,
    node: Node,
    marks: &[bool],
) -> Result<Node, AllocError>
    requires within { node < length arena.old }
    requires start { IsSimplified (length arena.old) arena.old marks.now [] }
    requires rooted { IsMarked marks.now node }
    ensures stands { IfOk result (λ n. StandsFor arena.old node arena.new n) }
    ensures extends { Extends arena.old arena.new }
{
    let len = arena.len();
    let done = simplify_first(arena, alloc, node.index() + 1, len, marks)?;
    Ok(answer(&done, node))
}

/// A node with the width of another and, whatever the variables have, its value, that mentions no other variable, nor one at
/// another width. Each node that it reaches is rewritten once by the laws of its operator, over the nodes that its children
/// became. The nodes that are there stay; new ones are added, also before memory runs out.
///
/// That the answer is smaller, and that the time is linear in the length of the arena, is not proved.
#[tactic(auto, using(crate::proofs::Simplifying::nothing_simple))]
pub fn simplify(arena: &mut Arena, alloc: Global, node: Node) -> Result<Node, AllocError>
    requires { node < length arena.old }
    ensures stands { IfOk result (λ n. StandsFor arena.old node arena.new n) }
    ensures extends { Extends arena.old arena.new }
    ensures arena { IsArena arena.new }
{
    // The two calls of `len` recall what holds of every arena.
    let _ = arena.len();
    let roots = [node];
    let marks = arena.reached(alloc, &roots)?;
    let simple = simplify_marked(arena, alloc, node, &marks);
    // For the proof: recalls what the type promises of it.
    let _ = arena.len();
    simple
}
