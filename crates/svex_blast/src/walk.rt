//! The vectors of all nodes that are reached, from the lowest number up: children have lower numbers, so each finds the vectors of its
//! children in the list, and there is no recursion, however deep an expression is. A node that is not reached has an empty vector in its
//! place, takes no gates, and nothing is said of it.

ghost use Rattle.std.specs.Prelude.{◌≡◌, ◌<◌, IfOk, length, map, true, slice_index_or, false, if◌then◌else◌};
ghost use Rattle.std.specs.List.{All};
ghost use Rattle.aig_words.specs.Words.{Grew, Obeyed};
ghost use Rattle.svex_arena.specs.Arenas.{IsArena};
ghost use Rattle.svex_arena.specs.Marks.{IsMarked, IsClosed};
ghost use Rattle.svex_shape.specs.Shapes.{shape_at, width_at};
ghost use Rattle.svex_shape.specs.Values.{value_at};
ghost use Rattle.pair_words.specs.Rails.{bits, IsWired, IsVector};
ghost use Rattle.svex_blast.specs.Sizes.{gates_of, gates_to};
ghost use Rattle.svex_blast.specs.Reads.{reading_at, AreVectors};
ghost use Rattle.svex_blast.specs.Knowns.{is_known_node, are_twins, AreShared};

use crate::known::known_vector;
use aig::Aig;
use items::Items;
use pair_words::Pair;
use std::alloc::{AllocError, Global};
use svex_arena::{Arena, Node, Shape};

// The shape of a node. The second clause says what holds of every arena.
fn shape_of(arena: &Arena, node: usize) -> Shape
    requires { node < length arena.now }
    ensures is { result ≡ shape_at arena.now node }
    ensures arena { IsArena arena.now }
{
    // For the proof: recalls what the type promises of it.
    let _ = arena.len();
    arena.shape(Node::new(node))
}

// The vector of the node after those that have theirs.
fn marked_vector(
    alloc: Global,
    arena: &Arena,
    aig: &mut Aig,
    marks: &[bool],
    vars: &[Items<Pair>],
    done: &[Items<Pair>],
) -> Result<Vec<Pair>, AllocError>
    requires node { 0 < length aig.old }
    requires marks { length marks.now ≡ length arena.now }
    requires here { length done.now < length marks.now }
    requires marked { IsMarked marks.now (length done.now) }
    requires closed { IsClosed arena.now marks.now 0 }
    requires vars_in { All (All (IsWired aig.old)) vars.now }
    requires twins { All (λ w. are_twins w ≡ true) vars.now }
    requires so_far { AreVectors arena.now marks.now vars.now aig.old done.now }
    requires shared_so_far { AreShared (map (λ w. length w) vars.now) arena.now marks.now done.now }
    ensures grew { Grew (gates_of (width_at arena.now) (shape_at arena.now (length done.now))) aig.old aig.new }
    ensures word { IfOk result (λ r. IsVector aig.new (width_at arena.now (length done.now)) r.items) }
    ensures value { IfOk result (λ r. Obeyed aig.new (λ v. bits v r.items ≡ value_at (reading_at v vars.now) arena.now (length done.now))) }
    ensures shared { IfOk result (λ r. is_known_node (map (λ w. length w) vars.now) arena.now (length done.now) ≡ true → are_twins r.items ≡ true) }
{
    // For the proof: recalls what the type promises of it.
    let _ = marks;
    let shape = shape_of(arena, done.len());
    let word = known_vector(alloc, aig, &shape, vars, done)?;
    Ok(word)
}

// The same, where the node is marked, and else an empty vector.
fn next_vector(
    alloc: Global,
    arena: &Arena,
    aig: &mut Aig,
    marks: &[bool],
    vars: &[Items<Pair>],
    done: &[Items<Pair>],
) -> Result<Vec<Pair>, AllocError>
    requires node { 0 < length aig.old }
    requires marks { length marks.now ≡ length arena.now }
    requires here { length done.now < length marks.now }
    requires closed { IsClosed arena.now marks.now 0 }
    requires vars_in { All (All (IsWired aig.old)) vars.now }
    requires twins { All (λ w. are_twins w ≡ true) vars.now }
    requires so_far { AreVectors arena.now marks.now vars.now aig.old done.now }
    requires shared_so_far { AreShared (map (λ w. length w) vars.now) arena.now marks.now done.now }
    ensures grew { Grew (if slice_index_or marks.now (length done.now) false then gates_of (width_at arena.now) (shape_at arena.now (length done.now)) else 0) aig.old aig.new }
    ensures word { IfOk result (λ r. IsMarked marks.now (length done.now) → IsVector aig.new (width_at arena.now (length done.now)) r.items) }
    ensures value { IfOk result (λ r. IsMarked marks.now (length done.now) → Obeyed aig.new (λ v. bits v r.items ≡ value_at (reading_at v vars.now) arena.now (length done.now))) }
    ensures shared { IfOk result (λ r. IsMarked marks.now (length done.now) → is_known_node (map (λ w. length w) vars.now) arena.now (length done.now) ≡ true → are_twins r.items ≡ true) }
{
    if marks[done.len()] {
        let word = marked_vector(alloc, arena, aig, marks, vars, done)?;
        return Ok(word);
    }
    Ok(Vec::new(alloc))
}

/// The vectors of the marked nodes, and an empty vector for each other.
pub fn all_vectors(
    alloc: Global,
    arena: &Arena,
    aig: &mut Aig,
    marks: &[bool],
    vars: &[Items<Pair>],
) -> Result<Vec<Items<Pair>>, AllocError>
    requires node { 0 < length aig.old }
    requires marks { length marks.now ≡ length arena.now }
    requires closed { IsClosed arena.now marks.now 0 }
    requires vars_in { All (All (IsWired aig.old)) vars.now }
    requires twins { All (λ w. are_twins w ≡ true) vars.now }
    ensures grew { Grew (gates_to arena.now marks.now (length marks.now)) aig.old aig.new }
    ensures long { IfOk result (λ done. length done.items ≡ length marks.now) }
    ensures vectors { IfOk result (λ done. AreVectors arena.now marks.now vars.now aig.new done.items) }
    ensures shared { IfOk result (λ done. AreShared (map (λ w. length w) vars.now) arena.now marks.now done.items) }
{
    let mut done: Vec<Items<Pair>> = Vec::new(alloc);
    for node in 0..marks.len() {
        let word = next_vector(alloc, arena, aig, marks, vars, &done)?;
        done.push(Items::from_vec(word))?;
    }
    Ok(done)
}
