//! The widths of shapes.

ghost use Rattle.std.specs.Prelude.{◌≡◌, ℕ, ◌<◌, ◌≤◌, ◌+◌, length, slice_index};
ghost use Rattle.svex_shape.specs.Shapes.{ChildrenBelow, FitsWidths, FitsPair, IsWidth, OnChildren, width_of, unary_width, binary_width};

use crate::node::Node;
use crate::shape::{Bin, Shape, Un};

fn unary(op: &Un, a: u8) -> u8
    requires some { 0 < a }
    requires most { a ≤ 128 }
    ensures is { result ≡ unary_width op.now a }
    ensures some { 0 < result }
    ensures most { result ≤ 128 }
{
    match op {
        Un::Unfloat | Un::Not | Un::Neg => a,
        _ => 1,
    }
}

fn binary(op: &Bin, a: u8, b: u8) -> u8
    requires fits { FitsPair op.now a b }
    requires some { 0 < a }
    requires most { a ≤ 128 }
    ensures is { result ≡ binary_width op.now a b }
    ensures some { 0 < result }
    ensures most { result ≤ 128 }
{
    match op {
        Bin::Eq | Bin::Lt | Bin::Slt => 1,
        Bin::Concat => a + b,
        _ => a,
    }
}

fn width_at(widths: &[u8], node: &Node) -> u8
    requires { node.now < length widths.now }
    ensures { result ≡ slice_index widths.now node.now }
{
    widths[node.index()]
}

/// The width of a shape over the widths of its children.
#[tactic(auto, unfolding(crate::specs::Shapes::width_of))]
pub fn shape_width(shape: &Shape, widths: &[u8]) -> u8
    requires children { ChildrenBelow (length widths.now) shape.now }
    requires sized { OnChildren (λ k. IsWidth (slice_index widths.now k)) shape.now }
    requires fits { FitsWidths (λ k. slice_index widths.now k) shape.now }
    ensures is { result ≡ width_of (λ k. slice_index widths.now k) shape.now }
    ensures some { 0 < result }
    ensures most { result ≤ 128 }
{
    match shape {
        Shape::Const(value) => value.width(),
        Shape::Var(_, width) => *width,
        Shape::Unary(op, a) => unary(op, width_at(widths, a)),
        Shape::Binary(op, a, b) => binary(op, width_at(widths, a), width_at(widths, b)),
        Shape::Cond(_, a, _) => width_at(widths, a),
        Shape::Pick(_, a, _) => width_at(widths, a),
        Shape::Slice { width, .. } => *width,
        Shape::Zext(_, width) => *width,
        Shape::Sext(_, width) => *width,
        Shape::DynSlice { spot, .. } => spot.width,
        Shape::DynPut { of, .. } => width_at(widths, of),
    }
}
