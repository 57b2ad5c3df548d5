// Nodes of one shape over others.
ghost use Rattle.std.specs.Prelude.{◌≡◌, ◌<◌, ◌≤◌, length, IfOk};
ghost use Rattle.svex_shape.specs.Shapes.{ChildrenBelow, FitsWidths, FitsPair, width_at, unary_width, binary_width};
ghost use Rattle.svex_shape.specs.Values.{unary_value, binary_value};
ghost use Rattle.svex_arena.specs.Arenas.{Extends};
ghost use Rattle.sv_lower.specs.Nodes.{IsMade, IsConstant, FromOne, FromTwo};

use fourvec::Four;
use std::alloc::{AllocError, Global};
use svex_arena::{Arena, Bin, Node, Shape, Un};

/// The node of a shape.
#[tactic(auto, using(crate::proofs::Making::made))]
pub fn make(alloc: Global, arena: &mut Arena, shape: Shape) -> Result<Node, AllocError>
    requires children { ChildrenBelow (length arena.old) shape }
    requires fits { FitsWidths (width_at arena.old) shape }
    ensures stays { Extends arena.old arena.new }
    ensures ok { IfOk result (λ n. IsMade arena.old shape arena.new n) }
{
    arena.intern(alloc, shape)
}

/// An operator on one node.
#[tactic(auto, using(crate::proofs::Making::from_unary))]
pub fn unary(alloc: Global, arena: &mut Arena, op: Un, a: Node) -> Result<Node, AllocError>
    requires a { a < length arena.old }
    ensures stays { Extends arena.old arena.new }
    ensures ok { IfOk result (λ n. FromOne arena.old arena.new (unary_value op) a (unary_width op (width_at arena.old a)) n) }
{
    make(alloc, arena, Shape::Unary(op, a))
}

/// An operator on two nodes whose widths fit it.
#[tactic(auto, using(crate::proofs::Making::from_binary))]
pub fn binary(
    alloc: Global,
    arena: &mut Arena,
    op: Bin,
    a: Node,
    b: Node,
) -> Result<Node, AllocError>
    requires a { a < length arena.old }
    requires b { b < length arena.old }
    requires fits { FitsPair op (width_at arena.old a) (width_at arena.old b) }
    ensures stays { Extends arena.old arena.new }
    ensures ok { IfOk result (λ n. FromTwo arena.old arena.new (binary_value op) a b (binary_width op (width_at arena.old a) (width_at arena.old b)) n) }
{
    make(alloc, arena, Shape::Binary(op, a, b))
}

/// The node of a constant.
#[tactic(auto, using(crate::proofs::Making::constant_made))]
pub fn constant(alloc: Global, arena: &mut Arena, value: &Four) -> Result<Node, AllocError>
    ensures stays { Extends arena.old arena.new }
    ensures ok { IfOk result (λ n. IsConstant arena.new value.now n) }
{
    make(alloc, arena, Shape::Const(*value))
}
