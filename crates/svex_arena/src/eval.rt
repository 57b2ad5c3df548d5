//! The values of nodes. What a root reaches is marked first and then evaluated from the lowest number up: children have lower
//! numbers, so their values are there, and there is no recursion whose depth a graph could make great. Places of nodes that are
//! not reached hold a vector that nothing reads.

ghost use Rattle.std.specs.Prelude.{◌≡◌, ℕ, ◌<◌, ◌≤◌, ◌+◌, [], ◌∷◌, length, slice_index_or, IfOk};
ghost use Rattle.svex_shape.specs.Shapes.{ChildrenBelow, FitsWidths, FitsPair, shape_at};
ghost use Rattle.svex_shape.specs.Values.{unary_value, binary_value, value_of, value_at, read};
ghost use Rattle.svex_arena.specs.Arenas.{IsArena};
ghost use Rattle.svex_arena.specs.Marks.{IsClosed, IsMarked, HasRoots};
ghost use Rattle.svex_arena.specs.Evaluated.{IsEvaluated, value_in, width_in};

use crate::marks::marks_of;
use fourvec::Four;
use std::alloc::{AllocError, Global};
use svex_shape::{Bin, Env, Node, Shape, Un};

/// The value of an operator on one vector.
pub fn unary(op: &Un, a: &Four) -> Four
    ensures { result ≡ unary_value op.now a.now }
{
    match op {
        Un::Unfloat => a.unfloat(),
        Un::Not => a.not(),
        Un::Neg => a.neg(),
        Un::RedAnd => a.red_and(),
        Un::RedOr => a.red_or(),
        Un::RedXor => a.red_xor(),
        Un::Truth => a.truth(),
    }
}

/// The value of an operator on two vectors.
pub fn binary(op: &Bin, a: &Four, b: &Four) -> Four
    requires { FitsPair op.now (length a.now) (length b.now) }
    ensures { result ≡ binary_value op.now a.now b.now }
{
    match op {
        Bin::And => a.and(b),
        Bin::Or => a.or(b),
        Bin::Xor => a.xor(b),
        Bin::Eq => a.eq(b),
        Bin::Lt => a.lt(b),
        Bin::Slt => a.slt(b),
        Bin::Add => a.add(b),
        Bin::Sub => a.sub(b),
        Bin::Mul => a.mul(b),
        Bin::Div => a.div(b),
        Bin::Rem => a.rem(b),
        Bin::Sdiv => a.sdiv(b),
        Bin::Srem => a.srem(b),
        Bin::Res => a.res(b),
        Bin::Shl => a.shl(b),
        Bin::Shr => a.shr(b),
        Bin::Sar => a.sar(b),
        Bin::Concat => a.concat(b),
    }
}

// The value of a node.
fn value(done: &[Four], node: Node) -> &Four
    requires { node < length done.now }
    ensures { result.now ≡ value_in done.now node }
{
    &done[node.index()]
}

/// The value of a shape over the values of its children.
#[tactic(auto, unfolding(svex_shape::specs::Values::value_of))]
pub fn shape_value(shape: &Shape, env: &Env, done: &[Four]) -> Four
    requires children { ChildrenBelow (length done.now) shape.now }
    requires fits { FitsWidths (width_in done.now) shape.now }
    ensures { result ≡ value_of (read env.now) (value_in done.now) shape.now }
{
    match shape {
        Shape::Const(value) => *value,
        Shape::Var(name, width) => env.read(name, *width),
        Shape::Unary(op, a) => unary(op, value(done, *a)),
        Shape::Binary(op, a, b) => binary(op, value(done, *a), value(done, *b)),
        Shape::Cond(c, a, b) => value(done, *c).cond(value(done, *a), value(done, *b)),
        Shape::Pick(c, a, b) => value(done, *c).pick(value(done, *a), value(done, *b)),
        Shape::Slice { of, lo, width } => value(done, *of).slice(*lo, *width),
        Shape::Zext(a, width) => value(done, *a).zext(*width),
        Shape::Sext(a, width) => value(done, *a).sext(*width),
        Shape::DynSlice { of, at, spot } => value(done, *of).dyn_slice(value(done, *at), spot),
        Shape::DynPut { of, at, spot, put } => {
            value(done, *of).dyn_put(value(done, *at), spot, value(done, *put))
        }
    }
}

// Evaluates a node, where it is marked.
fn evaluate_marked(shapes: &[Shape], marks: &[bool], env: &Env, node: usize, done: &mut [Four])
    requires arena { IsArena shapes.now }
    requires within { length marks.now ≤ length shapes.now }
    requires closed { IsClosed shapes.now marks.now 0 }
    requires room { length done.old ≡ length marks.now }
    requires here { node < length marks.now }
    requires so_far { IsEvaluated (read env.now) shapes.now marks.now done.old node }
    ensures { IsEvaluated (read env.now) shapes.now marks.now done.new (node + 1) }
{
    if marks[node] {
        let value = shape_value(&shapes[node], env, done);
        done[node] = value;
    }
}

// Evaluates the marked nodes, from the lowest number up.
#[tactic(auto, using(crate::proofs::Evaluating::evaluated_none))]
fn evaluate_all(shapes: &[Shape], marks: &[bool], env: &Env, done: &mut [Four])
    requires arena { IsArena shapes.now }
    requires within { length marks.now ≤ length shapes.now }
    requires closed { IsClosed shapes.now marks.now 0 }
    requires room { length done.old ≡ length marks.now }
    ensures { IsEvaluated (read env.now) shapes.now marks.now done.new (length marks.now) }
{
    'nodes: for node in 0..marks.len() {
        evaluate_marked(shapes, marks, env, node, done);
    }
}

// The value of a root, once all marked nodes are evaluated.
#[tactic(auto, using(crate::proofs::Evaluating::evaluated_root))]
fn root_value(shapes: &[Shape], marks: &[bool], env: &Env, root: Node, done: &mut [Four]) -> Four
    requires arena { IsArena shapes.now }
    requires within { length marks.now ≤ length shapes.now }
    requires closed { IsClosed shapes.now marks.now 0 }
    requires room { length done.old ≡ length marks.now }
    requires here { root < length marks.now }
    requires rooted { HasRoots (root ∷ []) marks.now 1 }
    ensures { result ≡ value_at (read env.now) shapes.now root }
{
    evaluate_all(shapes, marks, env, done);
    done[root.index()]
}

/// The value of a node. Each node that it reaches is evaluated once, and no other.
pub fn node_value(
    alloc: Global,
    shapes: &[Shape],
    node: Node,
    env: &Env,
) -> Result<Four, AllocError>
    requires arena { IsArena shapes.now }
    requires within { node < length shapes.now }
    ensures { IfOk result (λ v. v ≡ value_at (read env.now) shapes.now node) }
{
    let roots = [node];
    let len = node.index() + 1;
    let marks = marks_of(alloc, shapes, &roots, len)?;
    let mut done = vec![in alloc; Four::new(1, 0, 0); len]?;
    let value = root_value(shapes, &marks, env, node, &mut done);
    Ok(value)
}
