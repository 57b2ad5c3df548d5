//! Operators on nodes (IEEE 1800-2017, table 11-21). The graph has few operators; the others are one or two of them with a
//! negation, or with the operands turned round.
ghost use Rattle.std.specs.Prelude.{◌≡◌, ◌<◌, ◌≤◌, length, IfOk};
ghost use Rattle.fourvec.specs.Bits.{truth_of, cond_of, not_of, or_of};
ghost use Rattle.svex_shape.specs.Shapes.{FitsPair, unary_width, binary_width, width_at};
ghost use Rattle.svex_shape.specs.Values.{unary_value, binary_value};
ghost use Rattle.svex_arena.specs.Arenas.{Extends};
ghost use Rattle.sv_typed.specs.Ops.{turned, reduced, computed, moved, compared, combined, combined_truths};
ghost use Rattle.sv_lower.specs.Nodes.{FromOne, FromTwo, FromThree};

use crate::steps::{binary, make, unary};
use std::alloc::{AllocError, Global};
use sv_typed::{Arithmetic, Comparison, Logic, Reduction, Shift, Turn};
use svex_arena::{Arena, Bin, Node, Shape, Un};

/// Unary `+`, `-` and `~`. `+` is the operand itself.
#[tactic(auto, using(crate::proofs::Making::itself, svex_arena::proofs::Keeping::extends_self))]
pub fn turned(alloc: Global, arena: &mut Arena, op: Turn, a: Node) -> Result<Node, AllocError>
    requires { a < length arena.old }
    ensures stays { Extends arena.old arena.new }
    ensures ok { IfOk result (λ n. FromOne arena.old arena.new (turned op) a (width_at arena.old a) n) }
{
    match op {
        Turn::Plus => Ok(a),
        Turn::Minus => unary(alloc, arena, Un::Neg, a),
        Turn::Not => unary(alloc, arena, Un::Not, a),
    }
}

// An operator of one bit, and then its negation.
#[tactic(auto, using(crate::proofs::Making::one_then, svex_arena::proofs::Keeping::extends_on))]
fn denied(alloc: Global, arena: &mut Arena, op: Un, a: Node) -> Result<Node, AllocError>
    requires within { a < length arena.old }
    requires bit { unary_width op (width_at arena.old a) ≡ 1 }
    ensures stays { Extends arena.old arena.new }
    ensures ok { IfOk result (λ n. FromOne arena.old arena.new (λ x. not_of (unary_value op x)) a 1 n) }
{
    let bit = unary(alloc, arena, op, a)?;
    unary(alloc, arena, Un::Not, bit)
}

/// An operator of one bit on one operand.
pub fn reduced(alloc: Global, arena: &mut Arena, op: Reduction, a: Node) -> Result<Node, AllocError>
    requires { a < length arena.old }
    ensures stays { Extends arena.old arena.new }
    ensures ok { IfOk result (λ n. FromOne arena.old arena.new (reduced op) a 1 n) }
{
    match op {
        Reduction::LogicNot => denied(alloc, arena, Un::Truth, a),
        Reduction::And => unary(alloc, arena, Un::RedAnd, a),
        Reduction::Nand => denied(alloc, arena, Un::RedAnd, a),
        Reduction::Or => unary(alloc, arena, Un::RedOr, a),
        Reduction::Nor => denied(alloc, arena, Un::RedOr, a),
        Reduction::Xor => unary(alloc, arena, Un::RedXor, a),
        Reduction::Xnor => denied(alloc, arena, Un::RedXor, a),
    }
}

// An operator on two operands of one width, and then its negation.
#[tactic(auto, using(crate::proofs::Making::two_then, svex_arena::proofs::Keeping::extends_on))]
fn denied_pair(
    alloc: Global,
    arena: &mut Arena,
    op: Bin,
    a: Node,
    b: Node,
) -> Result<Node, AllocError>
    requires a { a < length arena.old }
    requires b { b < length arena.old }
    requires fits { FitsPair op (width_at arena.old a) (width_at arena.old b) }
    ensures stays { Extends arena.old arena.new }
    ensures ok { IfOk result (λ n. FromTwo arena.old arena.new (λ x y. not_of (binary_value op x y)) a b (binary_width op (width_at arena.old a) (width_at arena.old b)) n) }
{
    let pair = binary(alloc, arena, op, a, b)?;
    unary(alloc, arena, Un::Not, pair)
}

/// An operator on two operands of one width.
pub fn computed(
    alloc: Global,
    arena: &mut Arena,
    op: Arithmetic,
    signed: bool,
    a: Node,
    b: Node,
) -> Result<Node, AllocError>
    requires a { a < length arena.old }
    requires b { b < length arena.old }
    requires fits { width_at arena.old a ≡ width_at arena.old b }
    ensures stays { Extends arena.old arena.new }
    ensures ok { IfOk result (λ n. FromTwo arena.old arena.new (computed op signed) a b (width_at arena.old a) n) }
{
    match op {
        Arithmetic::Mul => binary(alloc, arena, Bin::Mul, a, b),
        Arithmetic::Div if signed => binary(alloc, arena, Bin::Sdiv, a, b),
        Arithmetic::Div => binary(alloc, arena, Bin::Div, a, b),
        Arithmetic::Rem if signed => binary(alloc, arena, Bin::Srem, a, b),
        Arithmetic::Rem => binary(alloc, arena, Bin::Rem, a, b),
        Arithmetic::Add => binary(alloc, arena, Bin::Add, a, b),
        Arithmetic::Sub => binary(alloc, arena, Bin::Sub, a, b),
        Arithmetic::And => binary(alloc, arena, Bin::And, a, b),
        Arithmetic::Xor => binary(alloc, arena, Bin::Xor, a, b),
        Arithmetic::Xnor => denied_pair(alloc, arena, Bin::Xor, a, b),
        Arithmetic::Or => binary(alloc, arena, Bin::Or, a, b),
    }
}

/// A shift (11.4.10).
pub fn moved(
    alloc: Global,
    arena: &mut Arena,
    op: Shift,
    signed: bool,
    a: Node,
    b: Node,
) -> Result<Node, AllocError>
    requires a { a < length arena.old }
    requires b { b < length arena.old }
    ensures stays { Extends arena.old arena.new }
    ensures ok { IfOk result (λ n. FromTwo arena.old arena.new (moved op signed) a b (width_at arena.old a) n) }
{
    match op {
        Shift::Left => binary(alloc, arena, Bin::Shl, a, b),
        Shift::SignedRight if signed => binary(alloc, arena, Bin::Sar, a, b),
        Shift::Right | Shift::SignedRight => binary(alloc, arena, Bin::Shr, a, b),
    }
}

/// A comparison of two operands of one width.
#[tactic(auto, using(crate::proofs::Making::two_swapped))]
pub fn compared(
    alloc: Global,
    arena: &mut Arena,
    op: Comparison,
    signed: bool,
    a: Node,
    b: Node,
) -> Result<Node, AllocError>
    requires a { a < length arena.old }
    requires b { b < length arena.old }
    requires fits { width_at arena.old a ≡ width_at arena.old b }
    ensures stays { Extends arena.old arena.new }
    ensures ok { IfOk result (λ n. FromTwo arena.old arena.new (compared op signed) a b 1 n) }
{
    let less = if signed { Bin::Slt } else { Bin::Lt };
    match op {
        Comparison::Lt => binary(alloc, arena, less, a, b),
        Comparison::Le => denied_pair(alloc, arena, less, b, a),
        Comparison::Gt => binary(alloc, arena, less, b, a),
        Comparison::Ge => denied_pair(alloc, arena, less, a, b),
        Comparison::Eq => binary(alloc, arena, Bin::Eq, a, b),
        Comparison::Ne => denied_pair(alloc, arena, Bin::Eq, a, b),
    }
}

// An operator on two bits.
fn joined(alloc: Global, arena: &mut Arena, op: Logic, a: Node, b: Node) -> Result<Node, AllocError>
    requires a { a < length arena.old }
    requires b { b < length arena.old }
    requires first { width_at arena.old a ≡ 1 }
    requires second { width_at arena.old b ≡ 1 }
    ensures stays { Extends arena.old arena.new }
    ensures ok { IfOk result (λ n. FromTwo arena.old arena.new (combined_truths op) a b 1 n) }
{
    match op {
        Logic::And => binary(alloc, arena, Bin::And, a, b),
        Logic::Or => binary(alloc, arena, Bin::Or, a, b),
        Logic::Implies => implied(alloc, arena, a, b),
        Logic::Equivalent => denied_pair(alloc, arena, Bin::Xor, a, b),
    }
}

#[tactic(auto, using(crate::proofs::Making::first_then, svex_arena::proofs::Keeping::extends_on, svex_arena::proofs::Steps::kept_steps))]
fn implied(alloc: Global, arena: &mut Arena, a: Node, b: Node) -> Result<Node, AllocError>
    requires a { a < length arena.old }
    requires b { b < length arena.old }
    requires first { width_at arena.old a ≡ 1 }
    requires second { width_at arena.old b ≡ 1 }
    ensures stays { Extends arena.old arena.new }
    ensures ok { IfOk result (λ n. FromTwo arena.old arena.new (λ x y. or_of (not_of x) y) a b 1 n) }
{
    let a = unary(alloc, arena, Un::Not, a)?;
    binary(alloc, arena, Bin::Or, a, b)
}

/// An operator on what is true of two operands.
#[tactic(auto, using(crate::proofs::Making::both_then, svex_arena::proofs::Keeping::extends_on, svex_arena::proofs::Steps::kept_steps))]
pub fn combined(
    alloc: Global,
    arena: &mut Arena,
    op: Logic,
    a: Node,
    b: Node,
) -> Result<Node, AllocError>
    requires a { a < length arena.old }
    requires b { b < length arena.old }
    ensures stays { Extends arena.old arena.new }
    ensures ok { IfOk result (λ n. FromTwo arena.old arena.new (combined op) a b 1 n) }
{
    let a = unary(alloc, arena, Un::Truth, a)?;
    let b = unary(alloc, arena, Un::Truth, b)?;
    joined(alloc, arena, op, a, b)
}

/// `c ? a : b` (11.4.11).
#[tactic(auto, using(crate::proofs::Making::from_choice, svex_arena::proofs::Keeping::extends_on, svex_arena::proofs::Steps::kept_steps))]
pub fn chosen(
    alloc: Global,
    arena: &mut Arena,
    c: Node,
    a: Node,
    b: Node,
) -> Result<Node, AllocError>
    requires c { c < length arena.old }
    requires a { a < length arena.old }
    requires b { b < length arena.old }
    requires fits { width_at arena.old a ≡ width_at arena.old b }
    ensures stays { Extends arena.old arena.new }
    ensures ok { IfOk result (λ n. FromThree arena.old arena.new (λ x y z. cond_of (truth_of x) y z) c a b (width_at arena.old a) n) }
{
    let c = unary(alloc, arena, Un::Truth, c)?;
    let node = make(alloc, arena, Shape::Cond(c, a, b))?;
    Ok(node)
}
