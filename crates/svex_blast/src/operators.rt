//! Operators on vectors of pairs, by the operators of shapes. Each has the value that fourvec gives its operator, and takes no more
//! nodes than its kind may take at a width `n`: nothing where bits only move, a few for each bit where the operator goes bit by bit,
//! and a multiple of the square for the rest. A bound is stated for every `n` that is no less than the widths of the operands, since
//! the node that calls counts by the widest of its vectors.

ghost use Rattle.std.specs.Prelude.{◌≡◌, ℕ, ◌+◌, ◌-◌, ◌*◌, ◌<◌, ◌≤◌, IfOk, length, [], ◌∷◌, ◌++◌, take, drop, replicate};
ghost use Rattle.std.specs.List.{All};
ghost use Rattle.aig_words.specs.Words.{Grew, Obeyed};
ghost use Rattle.fourvec.specs.declared.Bit.TheVariants.{Zero};
ghost use Rattle.fourvec.specs.Bits.{over, each_pair, first, choose, truth_of, neg_of, eq_of, shl_of, shr_of, sar_of, concat_of};
ghost use Rattle.svex_shape.specs.Shapes.{FitsPair, unary_width, binary_width};
ghost use Rattle.svex_shape.specs.Values.{unary_value, binary_value};
ghost use Rattle.pair_words.specs.Rails.{bits, IsWired, IsVector, two_value, two_nodes};
ghost use Rattle.pair_words.specs.Truths.{number_value, number_width};
ghost use Rattle.pair_words.specs.Ways.{constant_pair};
ghost use Rattle.svex_blast.specs.Sizes.{unary_gates, binary_gates};

use aig::Aig;
use fourvec::Bit;
use pair_words::{
    Number, One, Pair, Two, Way, constant, on_both, on_choice, on_each, on_numbers, one_bit,
    over_all, shift,
};
use std::alloc::{AllocError, Global};
use svex_arena::{Bin, Un};

// A vector of one pair.
fn alone(alloc: Global, bit: Pair) -> Result<Vec<Pair>, AllocError>
    ensures { IfOk result (λ r. r.items ≡ bit ∷ []) }
{
    let mut word = Vec::new(alloc);
    word.push(bit)?;
    Ok(word)
}

fn reduced(
    alloc: Global,
    aig: &mut Aig,
    op: Two,
    start: Bit,
    a: &[Pair],
) -> Result<Vec<Pair>, AllocError>
    requires node { 0 < length aig.old }
    requires some { 0 < length a.now }
    requires a_in { All (IsWired aig.old) a.now }
    ensures grew { Grew (256 * length a.now * length a.now) aig.old aig.new }
    ensures word { IfOk result (λ r. IsVector aig.new 1 r.items) }
    ensures value { IfOk result (λ r. Obeyed aig.new (λ v. bits v r.items ≡ over (two_value op) start (bits v a.now) ∷ [])) }
{
    let bit = over_all(aig, op, constant(start), a)?;
    let word = alone(alloc, bit)?;
    Ok(word)
}

fn zeros(alloc: Global, n: usize) -> Result<Vec<Pair>, AllocError>
    ensures { IfOk result (λ r. r.items ≡ replicate n (constant_pair Zero)) }
{
    let mut word = Vec::new(alloc);
    word.resize(n, constant(Bit::Zero))?;
    Ok(word)
}

fn negative(alloc: Global, aig: &mut Aig, a: &[Pair]) -> Result<Vec<Pair>, AllocError>
    requires node { 0 < length aig.old }
    requires some { 0 < length a.now }
    requires a_in { All (IsWired aig.old) a.now }
    ensures grew { Grew (256 * length a.now * length a.now) aig.old aig.new }
    ensures word { IfOk result (λ r. IsVector aig.new (length a.now) r.items) }
    ensures value { IfOk result (λ r. Obeyed aig.new (λ v. bits v r.items ≡ neg_of (bits v a.now))) }
{
    let none = zeros(alloc, a.len())?;
    let word = on_numbers(alloc, aig, Number::Sub, &none, a)?;
    Ok(word)
}

fn equal(alloc: Global, aig: &mut Aig, a: &[Pair], b: &[Pair]) -> Result<Vec<Pair>, AllocError>
    requires node { 0 < length aig.old }
    requires some { 0 < length a.now }
    requires same { length a.now ≡ length b.now }
    requires a_in { All (IsWired aig.old) a.now }
    requires b_in { All (IsWired aig.old) b.now }
    ensures grew { Grew (16 * length a.now + 2) aig.old aig.new }
    ensures word { IfOk result (λ r. IsVector aig.new 1 r.items) }
    ensures value { IfOk result (λ r. Obeyed aig.new (λ v. bits v r.items ≡ eq_of (bits v a.now) (bits v b.now))) }
{
    let apart = on_both(alloc, aig, Two::Xor, a, b)?;
    let some = over_all(aig, Two::Or, constant(Bit::Zero), &apart)?;
    let none = one_bit(aig, One::Not, some)?;
    let word = alone(alloc, none)?;
    Ok(word)
}

fn truth(alloc: Global, aig: &mut Aig, a: &[Pair]) -> Result<Vec<Pair>, AllocError>
    requires node { 0 < length aig.old }
    requires some { 0 < length a.now }
    requires a_in { All (IsWired aig.old) a.now }
    ensures grew { Grew (256 * length a.now * length a.now) aig.old aig.new }
    ensures word { IfOk result (λ r. IsVector aig.new 1 r.items) }
    ensures value { IfOk result (λ r. Obeyed aig.new (λ v. bits v r.items ≡ truth_of (bits v a.now))) }
{
    let word = reduced(alloc, aig, Two::Or, Bit::Zero, a)?;
    Ok(word)
}

/// An operator on one vector.
pub fn unary(alloc: Global, aig: &mut Aig, op: &Un, a: &[Pair]) -> Result<Vec<Pair>, AllocError>
    requires node { 0 < length aig.old }
    requires some { 0 < length a.now }
    requires a_in { All (IsWired aig.old) a.now }
    ensures grew { Grew (unary_gates op.now (length a.now)) aig.old aig.new }
    ensures word { IfOk result (λ r. IsVector aig.new (unary_width op.now (length a.now)) r.items) }
    ensures value { IfOk result (λ r. Obeyed aig.new (λ v. bits v r.items ≡ unary_value op.now (bits v a.now))) }
{
    match op {
        Un::Unfloat => on_each(alloc, aig, One::Unfloat, a),
        Un::Not => on_each(alloc, aig, One::Not, a),
        Un::Neg => negative(alloc, aig, a),
        Un::RedAnd => reduced(alloc, aig, Two::And, Bit::One, a),
        Un::RedOr => reduced(alloc, aig, Two::Or, Bit::Zero, a),
        Un::RedXor => reduced(alloc, aig, Two::Xor, Bit::Zero, a),
        Un::Truth => truth(alloc, aig, a),
    }
}

fn number(
    alloc: Global,
    aig: &mut Aig,
    op: Number,
    a: &[Pair],
    b: &[Pair],
) -> Result<Vec<Pair>, AllocError>
    requires some { 0 < length a.now }
    requires same { length a.now ≡ length b.now }
    requires a_in { All (IsWired aig.old) a.now }
    requires b_in { All (IsWired aig.old) b.now }
    ensures grew { (n : ℕ) → length a.now ≤ n → length b.now ≤ n → Grew (256 * n * n) aig.old aig.new }
    ensures word { IfOk result (λ r. IsVector aig.new (number_width op (length a.now)) r.items) }
    ensures value { IfOk result (λ r. Obeyed aig.new (λ v. bits v r.items ≡ number_value op (bits v a.now) (bits v b.now))) }
{
    on_numbers(alloc, aig, op, a, b)
}

// Bit by bit.
fn bitwise(
    alloc: Global,
    aig: &mut Aig,
    op: Two,
    a: &[Pair],
    b: &[Pair],
) -> Result<Vec<Pair>, AllocError>
    requires some { 0 < length a.now }
    requires same { length a.now ≡ length b.now }
    requires a_in { All (IsWired aig.old) a.now }
    requires b_in { All (IsWired aig.old) b.now }
    ensures grew { (n : ℕ) → length a.now ≤ n → length b.now ≤ n → Grew (two_nodes op * n) aig.old aig.new }
    ensures word { IfOk result (λ r. IsVector aig.new (length a.now) r.items) }
    ensures value { IfOk result (λ r. Obeyed aig.new (λ v. bits v r.items ≡ each_pair (two_value op) (bits v a.now) (bits v b.now))) }
{
    on_both(alloc, aig, op, a, b)
}

// The same, counted by the square of the width.
fn bitwise_by_square(
    alloc: Global,
    aig: &mut Aig,
    op: Two,
    a: &[Pair],
    b: &[Pair],
) -> Result<Vec<Pair>, AllocError>
    requires some { 0 < length a.now }
    requires same { length a.now ≡ length b.now }
    requires a_in { All (IsWired aig.old) a.now }
    requires b_in { All (IsWired aig.old) b.now }
    ensures grew { (n : ℕ) → length a.now ≤ n → length b.now ≤ n → Grew (256 * n * n) aig.old aig.new }
    ensures word { IfOk result (λ r. IsVector aig.new (length a.now) r.items) }
    ensures value { IfOk result (λ r. Obeyed aig.new (λ v. bits v r.items ≡ each_pair (two_value op) (bits v a.now) (bits v b.now))) }
{
    on_both(alloc, aig, op, a, b)
}

fn same(alloc: Global, aig: &mut Aig, a: &[Pair], b: &[Pair]) -> Result<Vec<Pair>, AllocError>
    requires node { 0 < length aig.old }
    requires some { 0 < length a.now }
    requires same { length a.now ≡ length b.now }
    requires a_in { All (IsWired aig.old) a.now }
    requires b_in { All (IsWired aig.old) b.now }
    ensures grew { (n : ℕ) → length a.now ≤ n → length b.now ≤ n → Grew (256 * n * n) aig.old aig.new }
    ensures word { IfOk result (λ r. IsVector aig.new (1) r.items) }
    ensures value { IfOk result (λ r. Obeyed aig.new (λ v. bits v r.items ≡ eq_of (bits v a.now) (bits v b.now))) }
{
    equal(alloc, aig, a, b)
}

fn up(alloc: Global, aig: &mut Aig, a: &[Pair], b: &[Pair]) -> Result<Vec<Pair>, AllocError>
    requires node { 0 < length aig.old }
    requires some { 0 < length a.now }
    requires some_b { 0 < length b.now }
    requires a_in { All (IsWired aig.old) a.now }
    requires b_in { All (IsWired aig.old) b.now }
    ensures grew { (n : ℕ) → length a.now ≤ n → length b.now ≤ n → Grew (256 * n * n) aig.old aig.new }
    ensures word { IfOk result (λ r. IsVector aig.new (length a.now) r.items) }
    ensures value { IfOk result (λ r. Obeyed aig.new (λ v. bits v r.items ≡ shl_of (bits v a.now) (bits v b.now))) }
{
    let word = shift(alloc, aig, Way::Up, a, b)?;
    Ok(word)
}

fn down(alloc: Global, aig: &mut Aig, a: &[Pair], b: &[Pair]) -> Result<Vec<Pair>, AllocError>
    requires node { 0 < length aig.old }
    requires some { 0 < length a.now }
    requires some_b { 0 < length b.now }
    requires a_in { All (IsWired aig.old) a.now }
    requires b_in { All (IsWired aig.old) b.now }
    ensures grew { (n : ℕ) → length a.now ≤ n → length b.now ≤ n → Grew (256 * n * n) aig.old aig.new }
    ensures word { IfOk result (λ r. IsVector aig.new (length a.now) r.items) }
    ensures value { IfOk result (λ r. Obeyed aig.new (λ v. bits v r.items ≡ shr_of (bits v a.now) (bits v b.now))) }
{
    let word = shift(alloc, aig, Way::Down(constant(Bit::Zero)), a, b)?;
    Ok(word)
}

fn down_signed(
    alloc: Global,
    aig: &mut Aig,
    a: &[Pair],
    b: &[Pair],
) -> Result<Vec<Pair>, AllocError>
    requires node { 0 < length aig.old }
    requires some { 0 < length a.now }
    requires some_b { 0 < length b.now }
    requires a_in { All (IsWired aig.old) a.now }
    requires b_in { All (IsWired aig.old) b.now }
    ensures grew { (n : ℕ) → length a.now ≤ n → length b.now ≤ n → Grew (256 * n * n) aig.old aig.new }
    ensures word { IfOk result (λ r. IsVector aig.new (length a.now) r.items) }
    ensures value { IfOk result (λ r. Obeyed aig.new (λ v. bits v r.items ≡ sar_of (bits v a.now) (bits v b.now))) }
{
    let word = shift(alloc, aig, Way::Down(a[a.len() - 1]), a, b)?;
    Ok(word)
}

fn joined(alloc: Global, a: &[Pair], b: &[Pair]) -> Result<Vec<Pair>, AllocError>
    ensures { IfOk result (λ r. r.items ≡ b.now ++ a.now) }
{
    let mut word = Vec::from_slice(alloc, b)?;
    word.extend_from_slice(a)?;
    Ok(word)
}

fn concat(alloc: Global, aig: &mut Aig, a: &[Pair], b: &[Pair]) -> Result<Vec<Pair>, AllocError>
    requires a_in { All (IsWired aig.old) a.now }
    requires b_in { All (IsWired aig.old) b.now }
    ensures grew { (n : ℕ) → length a.now ≤ n → length b.now ≤ n → Grew 0 aig.old aig.new }
    ensures word { IfOk result (λ r. IsVector aig.new (length a.now + length b.now) r.items) }
    ensures value { IfOk result (λ r. Obeyed aig.new (λ v. bits v r.items ≡ concat_of (bits v a.now) (bits v b.now))) }
{
    let word = joined(alloc, a, b)?;
    Ok(word)
}

/// An operator on two vectors.
pub fn binary(
    alloc: Global,
    aig: &mut Aig,
    op: &Bin,
    a: &[Pair],
    b: &[Pair],
) -> Result<Vec<Pair>, AllocError>
    requires node { 0 < length aig.old }
    requires fits { FitsPair op.now (length a.now) (length b.now) }
    requires some { 0 < length a.now }
    requires some_b { 0 < length b.now }
    requires a_in { All (IsWired aig.old) a.now }
    requires b_in { All (IsWired aig.old) b.now }
    ensures grew { (n : ℕ) → length a.now ≤ n → length b.now ≤ n → Grew (binary_gates op.now n) aig.old aig.new }
    ensures word { IfOk result (λ r. IsVector aig.new (binary_width op.now (length a.now) (length b.now)) r.items) }
    ensures value { IfOk result (λ r. Obeyed aig.new (λ v. bits v r.items ≡ binary_value op.now (bits v a.now) (bits v b.now))) }
{
    match op {
        Bin::And => bitwise(alloc, aig, Two::And, a, b),
        Bin::Or => bitwise(alloc, aig, Two::Or, a, b),
        Bin::Xor => bitwise_by_square(alloc, aig, Two::Xor, a, b),
        Bin::Eq => same(alloc, aig, a, b),
        Bin::Lt => number(alloc, aig, Number::Lt, a, b),
        Bin::Slt => number(alloc, aig, Number::Slt, a, b),
        Bin::Add => number(alloc, aig, Number::Add, a, b),
        Bin::Sub => number(alloc, aig, Number::Sub, a, b),
        Bin::Mul => number(alloc, aig, Number::Mul, a, b),
        Bin::Div => number(alloc, aig, Number::Div, a, b),
        Bin::Rem => number(alloc, aig, Number::Rem, a, b),
        Bin::Sdiv => number(alloc, aig, Number::Sdiv, a, b),
        Bin::Srem => number(alloc, aig, Number::Srem, a, b),
        Bin::Res => bitwise_by_square(alloc, aig, Two::Res, a, b),
        Bin::Shl => up(alloc, aig, a, b),
        Bin::Shr => down(alloc, aig, a, b),
        Bin::Sar => down_signed(alloc, aig, a, b),
        Bin::Concat => concat(alloc, aig, a, b),
    }
}

/// A choice by a vector of one bit: `op` joins the vectors where it is unknown.
pub fn choice(
    alloc: Global,
    aig: &mut Aig,
    op: Two,
    c: &[Pair],
    a: &[Pair],
    b: &[Pair],
) -> Result<Vec<Pair>, AllocError>
    requires one { length c.now ≡ 1 }
    requires some { 0 < length a.now }
    requires same { length a.now ≡ length b.now }
    requires c_in { All (IsWired aig.old) c.now }
    requires a_in { All (IsWired aig.old) a.now }
    requires b_in { All (IsWired aig.old) b.now }
    ensures grew { (n : ℕ) → length a.now ≤ n → Grew (256 * n * n) aig.old aig.new }
    ensures word { IfOk result (λ r. IsVector aig.new (length a.now) r.items) }
    ensures value { IfOk result (λ r. Obeyed aig.new (λ v. bits v r.items ≡ choose (two_value op) (first (bits v c.now)) (bits v a.now) (bits v b.now))) }
{
    let word = on_choice(alloc, aig, op, c[0], a, b)?;
    Ok(word)
}

/// The bits from a place on.
pub fn slice(alloc: Global, a: &[Pair], lo: u8, width: u8) -> Result<Vec<Pair>, AllocError>
    requires { lo + width ≤ length a.now }
    ensures { IfOk result (λ r. r.items ≡ take width (drop lo a.now)) }
{
    let lo = usize::from(lo);
    Vec::from_slice(alloc, &a[lo..lo + usize::from(width)])
}

/// A vector with copies of a pair above it.
pub fn extended(alloc: Global, a: &[Pair], width: u8, fill: Pair) -> Result<Vec<Pair>, AllocError>
    requires { length a.now ≤ width }
    ensures { IfOk result (λ r. r.items ≡ a.now ++ replicate (width - length a.now) fill) }
{
    let mut word = Vec::from_slice(alloc, a)?;
    word.resize(usize::from(width), fill)?;
    Ok(word)
}
