//! Operators, by how their operands are sized, and what each gives of the bits of its operands. The groups are those of the forms of
//! typed expressions, so each form has one rule for its sizes.
ghost use Rattle.std.specs.Prelude.{◌≡◌, ◌≤◌, length};
ghost use Rattle.fourvec.specs.Bits.{cond_of, truth_of};
ghost use Rattle.sv_typed.specs.Ops.{one_of, two_of, turned, reduced, computed, moved, compared, combined};
ghost use Rattle.sv_meaning.specs.Values.{less};

use fourvec::Four;
use sv_tree::{BinaryOp, UnaryOp};

/// Operators whose operand has the size and sign of their context (table 11-21).
#[derive(Clone, Copy)]
pub enum Turn {
    Plus,
    Minus,
    Not,
}

/// Operators of one bit on an operand by itself.
#[derive(Clone, Copy)]
pub enum Reduction {
    LogicNot,
    And,
    Nand,
    Or,
    Nor,
    Xor,
    Xnor,
}

/// An operator on one operand.
#[derive(Clone, Copy)]
pub enum One {
    Turned(Turn),
    Reduced(Reduction),
}

/// Operators whose operands both have the size and sign of their context.
#[derive(Clone, Copy)]
pub enum Arithmetic {
    Mul,
    Div,
    Rem,
    Add,
    Sub,
    And,
    Xor,
    Xnor,
    Or,
}

/// Operators of which the left operand alone has the size and sign of their context.
#[derive(Clone, Copy)]
pub enum Shift {
    Left,
    Right,
    SignedRight,
}

/// Operators of one bit whose operands have one size and sign.
#[derive(Clone, Copy)]
pub enum Comparison {
    Lt,
    Le,
    Gt,
    Ge,
    Eq,
    Ne,
}

/// Operators of one bit on what is true.
#[derive(Clone, Copy)]
pub enum Logic {
    And,
    Or,
    Implies,
    Equivalent,
}

/// An operator on two operands, but for `**`.
#[derive(Clone, Copy)]
pub enum Pair {
    Computed(Arithmetic),
    Moved(Shift),
    Compared(Comparison),
    Combined(Logic),
}

/// An operator on two operands.
#[derive(Clone, Copy)]
pub enum Two {
    Power,
    Pair(Pair),
}

pub fn one_of(op: UnaryOp) -> One
    ensures { result ≡ one_of op }
{
    match op {
        UnaryOp::Plus => One::Turned(Turn::Plus),
        UnaryOp::Minus => One::Turned(Turn::Minus),
        UnaryOp::Not => One::Turned(Turn::Not),
        UnaryOp::LogicNot => One::Reduced(Reduction::LogicNot),
        UnaryOp::And => One::Reduced(Reduction::And),
        UnaryOp::Nand => One::Reduced(Reduction::Nand),
        UnaryOp::Or => One::Reduced(Reduction::Or),
        UnaryOp::Nor => One::Reduced(Reduction::Nor),
        UnaryOp::Xor => One::Reduced(Reduction::Xor),
        UnaryOp::TildeXor => One::Reduced(Reduction::Xnor),
        UnaryOp::XorTilde => One::Reduced(Reduction::Xnor),
    }
}

pub fn two_of(op: BinaryOp) -> Two
    ensures { result ≡ two_of op }
{
    match op {
        BinaryOp::Power => Two::Power,
        BinaryOp::Mul => Two::Pair(Pair::Computed(Arithmetic::Mul)),
        BinaryOp::Div => Two::Pair(Pair::Computed(Arithmetic::Div)),
        BinaryOp::Rem => Two::Pair(Pair::Computed(Arithmetic::Rem)),
        BinaryOp::Add => Two::Pair(Pair::Computed(Arithmetic::Add)),
        BinaryOp::Sub => Two::Pair(Pair::Computed(Arithmetic::Sub)),
        BinaryOp::Shl => Two::Pair(Pair::Moved(Shift::Left)),
        BinaryOp::Shr => Two::Pair(Pair::Moved(Shift::Right)),
        BinaryOp::Sal => Two::Pair(Pair::Moved(Shift::Left)),
        BinaryOp::Sar => Two::Pair(Pair::Moved(Shift::SignedRight)),
        BinaryOp::Lt => Two::Pair(Pair::Compared(Comparison::Lt)),
        BinaryOp::Le => Two::Pair(Pair::Compared(Comparison::Le)),
        BinaryOp::Gt => Two::Pair(Pair::Compared(Comparison::Gt)),
        BinaryOp::Ge => Two::Pair(Pair::Compared(Comparison::Ge)),
        BinaryOp::Eq => Two::Pair(Pair::Compared(Comparison::Eq)),
        BinaryOp::Ne => Two::Pair(Pair::Compared(Comparison::Ne)),
        BinaryOp::And => Two::Pair(Pair::Computed(Arithmetic::And)),
        BinaryOp::Xor => Two::Pair(Pair::Computed(Arithmetic::Xor)),
        BinaryOp::TildeXor => Two::Pair(Pair::Computed(Arithmetic::Xnor)),
        BinaryOp::XorTilde => Two::Pair(Pair::Computed(Arithmetic::Xnor)),
        BinaryOp::Or => Two::Pair(Pair::Computed(Arithmetic::Or)),
        BinaryOp::LogicAnd => Two::Pair(Pair::Combined(Logic::And)),
        BinaryOp::LogicOr => Two::Pair(Pair::Combined(Logic::Or)),
        BinaryOp::Implies => Two::Pair(Pair::Combined(Logic::Implies)),
        BinaryOp::Equivalent => Two::Pair(Pair::Combined(Logic::Equivalent)),
    }
}

#[tactic(auto, using(fourvec::proofs::Widths::widths))]
pub fn turned(op: Turn, a: &Four) -> Four
    ensures is { result ≡ turned op a.now }
    ensures width { length result ≡ length a.now }
{
    match op {
        Turn::Plus => *a,
        Turn::Minus => a.neg(),
        Turn::Not => a.not(),
    }
}

pub fn reduced(op: Reduction, a: &Four) -> Four
    ensures is { result ≡ reduced op a.now }
    ensures width { length result ≡ 1 }
{
    match op {
        Reduction::LogicNot => a.truth().not(),
        Reduction::And => a.red_and(),
        Reduction::Nand => a.red_and().not(),
        Reduction::Or => a.red_or(),
        Reduction::Nor => a.red_or().not(),
        Reduction::Xor => a.red_xor(),
        Reduction::Xnor => a.red_xor().not(),
    }
}

pub fn computed(op: Arithmetic, signed: bool, a: &Four, b: &Four) -> Four
    requires { length a.now ≡ length b.now }
    ensures is { result ≡ computed op signed a.now b.now }
    ensures width { length result ≡ length a.now }
{
    match op {
        Arithmetic::Mul => a.mul(b),
        Arithmetic::Div if signed => a.sdiv(b),
        Arithmetic::Div => a.div(b),
        Arithmetic::Rem if signed => a.srem(b),
        Arithmetic::Rem => a.rem(b),
        Arithmetic::Add => a.add(b),
        Arithmetic::Sub => a.sub(b),
        Arithmetic::And => a.and(b),
        Arithmetic::Xor => a.xor(b),
        Arithmetic::Xnor => a.xor(b).not(),
        Arithmetic::Or => a.or(b),
    }
}

pub fn moved(op: Shift, signed: bool, a: &Four, b: &Four) -> Four
    ensures is { result ≡ moved op signed a.now b.now }
    ensures width { length result ≡ length a.now }
{
    match op {
        Shift::Left => a.shl(b),
        Shift::SignedRight if signed => a.sar(b),
        Shift::Right | Shift::SignedRight => a.shr(b),
    }
}

fn less(signed: bool, a: &Four, b: &Four) -> Four
    requires { length a.now ≡ length b.now }
    ensures { result ≡ less signed a.now b.now }
{
    if signed { a.slt(b) } else { a.lt(b) }
}

pub fn compared(op: Comparison, signed: bool, a: &Four, b: &Four) -> Four
    requires { length a.now ≡ length b.now }
    ensures is { result ≡ compared op signed a.now b.now }
    ensures width { length result ≡ 1 }
{
    match op {
        Comparison::Lt => less(signed, a, b),
        Comparison::Le => less(signed, b, a).not(),
        Comparison::Gt => less(signed, b, a),
        Comparison::Ge => less(signed, a, b).not(),
        Comparison::Eq => a.eq(b),
        Comparison::Ne => a.eq(b).not(),
    }
}

pub fn combined(op: Logic, a: &Four, b: &Four) -> Four
    ensures is { result ≡ combined op a.now b.now }
    ensures width { length result ≡ 1 }
{
    let (a, b) = (a.truth(), b.truth());
    match op {
        Logic::And => a.and(&b),
        Logic::Or => a.or(&b),
        Logic::Implies => a.not().or(&b),
        Logic::Equivalent => a.xor(&b).not(),
    }
}

/// `? :` of a condition by itself (11.4.11).
#[tactic(auto, using(fourvec::proofs::Widths::widths))]
pub fn chosen(condition: &Four, a: &Four, b: &Four) -> Four
    requires { length a.now ≡ length b.now }
    ensures is { result ≡ cond_of (truth_of condition.now) a.now b.now }
    ensures width { length result ≡ length a.now }
{
    condition.truth().cond(a, b)
}
