//! Which nodes some roots reach. Children have lower numbers, so one walk from the highest number down marks all: when a node
//! is come to, each that has it as a child was looked at before. So no stack of open nodes is kept, and the time is that of the
//! list, however nodes are shared.

ghost use Rattle.std.specs.Prelude.{◌≡◌, ℕ, ◌<◌, ◌≤◌, length, slice_index, slice_index_or, slice_set, replicate, false, true, if◌then◌else◌, IfOk};
ghost use Rattle.svex_shape.specs.Shapes.{ChildrenBelow, shape_at};
ghost use Rattle.svex_arena.specs.Marks.{marked, IsClosed, OnlyReached, OnlyRoots, HasEarlierChildren, HasRoots};

use std::alloc::{AllocError, Global};
use svex_shape::{Node, Shape};

// Marks the children of a shape.
fn mark_children(shape: &Shape, marks: &mut [bool])
    requires { ChildrenBelow (length marks.old) shape.now }
    ensures { marks.new ≡ marked shape.now marks.old }
{
    match shape {
        Shape::Const(_) => {}
        Shape::Var(_, _) => {}
        Shape::Unary(_, a) => marks[a.index()] = true,
        Shape::Binary(_, a, b) => {
            marks[a.index()] = true;
            marks[b.index()] = true;
        }
        Shape::Cond(c, a, b) => {
            marks[c.index()] = true;
            marks[a.index()] = true;
            marks[b.index()] = true;
        }
        Shape::Pick(c, a, b) => {
            marks[c.index()] = true;
            marks[a.index()] = true;
            marks[b.index()] = true;
        }
        Shape::Slice { of, .. } => marks[of.index()] = true,
        Shape::Zext(a, _) => marks[a.index()] = true,
        Shape::Sext(a, _) => marks[a.index()] = true,
        Shape::DynSlice { of, at, .. } => {
            marks[of.index()] = true;
            marks[at.index()] = true;
        }
        Shape::DynPut { of, at, put, .. } => {
            marks[of.index()] = true;
            marks[at.index()] = true;
            marks[put.index()] = true;
        }
    }
}

// Marks the children of a marked node.
fn mark_from(shapes: &[Shape], node: usize, marks: &mut [bool])
    requires within { node < length shapes.now }
    requires room { node < length marks.old }
    requires children { ChildrenBelow (length marks.old) (shape_at shapes.now node) }
    ensures { marks.new
        ≡ (if slice_index_or marks.old node false
        then marked (shape_at shapes.now node) marks.old
        else marks.old) }
{
    if marks[node] {
        mark_children(&shapes[node], marks);
    }
}

// Marks the roots.
#[tactic(auto, using(crate::proofs::Marking::roots_none, crate::proofs::Marking::roots_more, crate::proofs::Marking::only_roots_none, crate::proofs::Marking::only_roots_more))]
fn mark_roots(roots: &[Node], marks: &mut [bool])
    requires within { (i : ℕ) → i < length roots.now → slice_index roots.now i < length marks.old }
    requires empty { marks.old ≡ replicate (length marks.old) false }
    ensures roots { HasRoots roots.now marks.new (length roots.now) }
    ensures only { OnlyRoots roots.now marks.new }
{
    for root in roots {
        marks[root.index()] = true;
    }
}

// Marks what the roots reach, from the highest number down.
#[tactic(auto, using(crate::proofs::Marking::only_reached, crate::proofs::Marking::roots_rise))]
fn mark_reached(shapes: &[Shape], roots: &[Node], marks: &mut [bool])
    requires children { HasEarlierChildren shapes.now }
    requires size { length marks.old ≤ length shapes.now }
    requires within { (i : ℕ) → i < length roots.now → slice_index roots.now i < length marks.old }
    requires empty { marks.old ≡ replicate (length marks.old) false }
    ensures roots { HasRoots roots.now marks.new (length roots.now) }
    ensures closed { IsClosed shapes.now marks.new 0 }
    ensures only { OnlyReached shapes.now roots.now marks.new }
{
    mark_roots(roots, marks);
    let mut node = marks.len();
    'nodes: while node > 0 {
        node -= 1;
        mark_from(shapes, node, marks);
    }
}

/// Marks on what the roots reach, among the first `len` nodes.
pub fn marks_of(
    alloc: Global,
    shapes: &[Shape],
    roots: &[Node],
    len: usize,
) -> Result<Vec<bool>, AllocError>
    requires children { HasEarlierChildren shapes.now }
    requires size { len ≤ length shapes.now }
    requires within { (i : ℕ) → i < length roots.now → slice_index roots.now i < len }
    ensures len { IfOk result (λ m. length m.items ≡ len) }
    ensures roots { IfOk result (λ m. HasRoots roots.now m.items (length roots.now)) }
    ensures closed { IfOk result (λ m. IsClosed shapes.now m.items 0) }
    ensures only { IfOk result (λ m. OnlyReached shapes.now roots.now m.items) }
{
    let mut marks = vec![in alloc; false; len]?;
    mark_reached(shapes, roots, marks.as_mut_slice());
    Ok(marks)
}
