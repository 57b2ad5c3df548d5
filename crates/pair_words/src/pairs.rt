//! Circuits for single four-valued bits. An operator of an expression takes Z for X, so its operands go through `unfloat` first, and
//! then each rail is a gate or two of the rails: the upper one tells where the bit may be 1, the lower one where it must be. Of a bit that
//! is known both rails are one literal, and `Aig` finds each gate again, so that a circuit of known bits has one gate for both rails.
//! Of two bits that are known an exclusive or is made, which `Aig` may find again by all that is added up.

ghost use Rattle.std.specs.Prelude.{◌≡◌, ◌<◌, IfOk, IsTrue, ◌↔◌, ◌&&◌, ◌||◌, not, if◌then◌else◌};
ghost use Rattle.aig.specs.Graph.{holds, IsIn};
ghost use Rattle.aig_words.specs.Words.{Grew, Obeyed, differ};
ghost use Rattle.fourvec.specs.declared.Bit.TheVariants.{Unknown};
ghost use Rattle.fourvec.specs.Bits.{unfloat_bit, not_bit, and_bit, or_bit, xor_bit, res_bit, merge_bit, keep_bit};
ghost use Rattle.pair_words.specs.Rails.{bit_at, IsWired, one_value, two_value, two_nodes};

use aig::{Aig, Lit};
use aig_words::{or, pick, xor};
use std::alloc::AllocError;

/// A four-valued bit as two literals: 1 is (1,1), 0 is (0,0), X is (1,0) and Z is (0,1) in (`up`, `low`).
#[derive(Clone, Copy)]
pub struct Pair {
    pub up: Lit,
    pub low: Lit,
}

/// An operator on one bit.
#[derive(Clone, Copy)]
pub enum One {
    Unfloat,
    Not,
}

/// An operator on two bits. `Merge` and `Keep` are what a choice makes of its two values where its condition is unknown.
#[derive(Clone, Copy)]
pub enum Two {
    And,
    Or,
    Xor,
    Res,
    Merge,
    Keep,
}

// Two gates, one for each rail.
fn two_gates(aig: &mut Aig, w: Lit, x: Lit, y: Lit, z: Lit) -> Result<Pair, AllocError>
    requires w_in { IsIn aig.old w }
    requires x_in { IsIn aig.old x }
    requires y_in { IsIn aig.old y }
    requires z_in { IsIn aig.old z }
    ensures grew { Grew 2 aig.old aig.new }
    ensures within { IfOk result (λ r. IsWired aig.new r) }
    ensures value { IfOk result (λ r. Obeyed aig.new (λ v. (holds v r.up ≡ (holds v w && holds v x)) × (holds v r.low ≡ (holds v y && holds v z)))) }
{
    let up = aig.and(w, x)?;
    let low = aig.and(y, z)?;
    Ok(Pair { up, low })
}

// The pair that may be 1 where one of two literals is true, and must be 1 where both of two others are.
fn or_and(aig: &mut Aig, w: Lit, x: Lit, y: Lit, z: Lit) -> Result<Pair, AllocError>
    requires w_in { IsIn aig.old w }
    requires x_in { IsIn aig.old x }
    requires y_in { IsIn aig.old y }
    requires z_in { IsIn aig.old z }
    ensures grew { Grew 2 aig.old aig.new }
    ensures within { IfOk result (λ r. IsWired aig.new r) }
    ensures value { IfOk result (λ r. Obeyed aig.new (λ v. (holds v r.up ≡ (holds v w || holds v x)) × (holds v r.low ≡ (holds v y && holds v z)))) }
{
    let gates = two_gates(aig, !w, !x, y, z)?;
    Ok(Pair {
        up: !gates.up,
        low: gates.low,
    })
}

/// Z as X.
pub fn unfloat(aig: &mut Aig, a: Pair) -> Result<Pair, AllocError>
    requires a_in { IsWired aig.old a }
    ensures grew { Grew 2 aig.old aig.new }
    ensures within { IfOk result (λ r. IsWired aig.new r) }
    ensures value { IfOk result (λ r. Obeyed aig.new (λ v. (holds v r.up ≡ (holds v a.up || holds v a.low)) × (holds v r.low ≡ (holds v a.up && holds v a.low)))) }
{
    or_and(aig, a.up, a.low, a.up, a.low)
}

fn inverse(aig: &mut Aig, a: Pair) -> Result<Pair, AllocError>
    requires a_in { IsWired aig.old a }
    ensures grew { Grew 2 aig.old aig.new }
    ensures within { IfOk result (λ r. IsWired aig.new r) }
    ensures value { IfOk result (λ r. Obeyed aig.new (λ v. bit_at v r ≡ not_bit (bit_at v a))) }
{
    let plain = unfloat(aig, a)?;
    Ok(Pair {
        up: !plain.low,
        low: !plain.up,
    })
}

// Both bits, with Z as X.
fn unfloat_both(aig: &mut Aig, a: Pair, b: Pair) -> Result<(Pair, Pair), AllocError>
    requires a_in { IsWired aig.old a }
    requires b_in { IsWired aig.old b }
    ensures grew { Grew 4 aig.old aig.new }
    ensures first_in { IfOk result (λ r. IsWired aig.new r.0) }
    ensures second_in { IfOk result (λ r. IsWired aig.new r.1) }
    ensures first { IfOk result (λ r. Obeyed aig.new (λ v. (holds v r.0.up ≡ (holds v a.up || holds v a.low)) × (holds v r.0.low ≡ (holds v a.up && holds v a.low)))) }
    ensures second { IfOk result (λ r. Obeyed aig.new (λ v. (holds v r.1.up ≡ (holds v b.up || holds v b.low)) × (holds v r.1.low ≡ (holds v b.up && holds v b.low)))) }
{
    let first = unfloat(aig, a)?;
    let second = unfloat(aig, b)?;
    Ok((first, second))
}

fn both(aig: &mut Aig, a: Pair, b: Pair) -> Result<Pair, AllocError>
    requires a_in { IsWired aig.old a }
    requires b_in { IsWired aig.old b }
    ensures grew { Grew 6 aig.old aig.new }
    ensures within { IfOk result (λ r. IsWired aig.new r) }
    ensures value { IfOk result (λ r. Obeyed aig.new (λ v. bit_at v r ≡ and_bit (bit_at v a) (bit_at v b))) }
{
    let (first, second) = unfloat_both(aig, a, b)?;
    two_gates(aig, first.up, second.up, first.low, second.low)
}

fn either(aig: &mut Aig, a: Pair, b: Pair) -> Result<Pair, AllocError>
    requires a_in { IsWired aig.old a }
    requires b_in { IsWired aig.old b }
    ensures grew { Grew 6 aig.old aig.new }
    ensures within { IfOk result (λ r. IsWired aig.new r) }
    ensures value { IfOk result (λ r. Obeyed aig.new (λ v. bit_at v r ≡ or_bit (bit_at v a) (bit_at v b))) }
{
    let (first, second) = unfloat_both(aig, a, b)?;
    let neither = two_gates(aig, !first.up, !second.up, !first.low, !second.low)?;
    Ok(Pair {
        up: !neither.up,
        low: !neither.low,
    })
}

/// Whether two literals are one.
pub fn is_same(a: Lit, b: Lit) -> bool
    ensures { IsTrue result ↔ (a ≡ b) }
{
    a == b
}

// One of `a` and `b` without the other, where the other's opposite rail tells that it may be, or must be, 0.
fn without(aig: &mut Aig, a: Lit, b: Lit, other_a: Lit, other_b: Lit) -> Result<Lit, AllocError>
    requires a_in { IsIn aig.old a }
    requires b_in { IsIn aig.old b }
    requires other_a_in { IsIn aig.old other_a }
    requires other_b_in { IsIn aig.old other_b }
    ensures grew { Grew 3 aig.old aig.new }
    ensures within { IfOk result (λ r. IsIn aig.new r) }
    ensures value { IfOk result (λ r. Obeyed aig.new (λ v. holds v r ≡ ((holds v a && not (holds v other_b)) || (holds v b && not (holds v other_a))))) }
{
    if is_same(a, other_a) && is_same(b, other_b) {
        return xor(aig, a, b);
    }
    let alone = two_gates(aig, a, !other_b, b, !other_a)?;
    or(aig, alone.up, alone.low)
}

fn differ(aig: &mut Aig, a: Pair, b: Pair) -> Result<Pair, AllocError>
    requires a_in { IsWired aig.old a }
    requires b_in { IsWired aig.old b }
    ensures grew { Grew 10 aig.old aig.new }
    ensures within { IfOk result (λ r. IsWired aig.new r) }
    ensures value { IfOk result (λ r. Obeyed aig.new (λ v. bit_at v r ≡ xor_bit (bit_at v a) (bit_at v b))) }
{
    let (first, second) = unfloat_both(aig, a, b)?;
    let up = without(aig, first.up, second.up, first.low, second.low)?;
    let low = without(aig, first.low, second.low, first.up, second.up)?;
    Ok(Pair { up, low })
}

fn resolved(aig: &mut Aig, a: Pair, b: Pair) -> Result<Pair, AllocError>
    requires a_in { IsWired aig.old a }
    requires b_in { IsWired aig.old b }
    ensures grew { Grew 2 aig.old aig.new }
    ensures within { IfOk result (λ r. IsWired aig.new r) }
    ensures value { IfOk result (λ r. Obeyed aig.new (λ v. bit_at v r ≡ res_bit (bit_at v a) (bit_at v b))) }
{
    or_and(aig, a.up, b.up, a.low, b.low)
}

// Whether two bits are not the same.
fn apart(aig: &mut Aig, a: Pair, b: Pair) -> Result<Lit, AllocError>
    requires a_in { IsWired aig.old a }
    requires b_in { IsWired aig.old b }
    ensures grew { Grew 7 aig.old aig.new }
    ensures within { IfOk result (λ r. IsIn aig.new r) }
    ensures value { IfOk result (λ r. Obeyed aig.new (λ v. holds v r ≡ (differ (holds v a.up) (holds v b.up) || differ (holds v a.low) (holds v b.low)))) }
{
    let first = xor(aig, a.up, b.up)?;
    let second = xor(aig, a.low, b.low)?;
    or(aig, first, second)
}

/// The bit where both are equal, else X.
pub fn kept(aig: &mut Aig, a: Pair, b: Pair) -> Result<Pair, AllocError>
    requires a_in { IsWired aig.old a }
    requires b_in { IsWired aig.old b }
    ensures grew { Grew 9 aig.old aig.new }
    ensures within { IfOk result (λ r. IsWired aig.new r) }
    ensures value { IfOk result (λ r. Obeyed aig.new (λ v. bit_at v r ≡ keep_bit (bit_at v a) (bit_at v b))) }
{
    let other = apart(aig, a, b)?;
    or_and(aig, a.up, other, a.low, !other)
}

fn merged(aig: &mut Aig, a: Pair, b: Pair) -> Result<Pair, AllocError>
    requires a_in { IsWired aig.old a }
    requires b_in { IsWired aig.old b }
    ensures grew { Grew 11 aig.old aig.new }
    ensures within { IfOk result (λ r. IsWired aig.new r) }
    ensures value { IfOk result (λ r. Obeyed aig.new (λ v. bit_at v r ≡ merge_bit (bit_at v a) (bit_at v b))) }
{
    let same = kept(aig, a, b)?;
    unfloat(aig, same)
}

fn plain(aig: &mut Aig, a: Pair) -> Result<Pair, AllocError>
    requires a_in { IsWired aig.old a }
    ensures grew { Grew 2 aig.old aig.new }
    ensures within { IfOk result (λ r. IsWired aig.new r) }
    ensures value { IfOk result (λ r. Obeyed aig.new (λ v. bit_at v r ≡ unfloat_bit (bit_at v a))) }
{
    unfloat(aig, a)
}

/// The pair where the condition is true, else X.
pub fn pair_or_x(aig: &mut Aig, c: Lit, a: Pair) -> Result<Pair, AllocError>
    requires c_in { IsIn aig.old c }
    requires a_in { IsWired aig.old a }
    ensures grew { Grew 2 aig.old aig.new }
    ensures within { IfOk result (λ r. IsWired aig.new r) }
    ensures value { IfOk result (λ r. Obeyed aig.new (λ v. bit_at v r ≡ (if holds v c then bit_at v a else Unknown))) }
{
    or_and(aig, !c, a.up, c, a.low)
}

/// The first pair where the condition is true, else the second.
pub fn pick_pair(aig: &mut Aig, c: Lit, a: Pair, b: Pair) -> Result<Pair, AllocError>
    requires c_in { IsIn aig.old c }
    requires a_in { IsWired aig.old a }
    requires b_in { IsWired aig.old b }
    ensures grew { Grew 6 aig.old aig.new }
    ensures within { IfOk result (λ r. IsWired aig.new r) }
    ensures value { IfOk result (λ r. Obeyed aig.new (λ v. bit_at v r ≡ (if holds v c then bit_at v a else bit_at v b))) }
{
    let up = pick(aig, c, a.up, b.up)?;
    let low = pick(aig, c, a.low, b.low)?;
    Ok(Pair { up, low })
}

/// An operator on one bit.
pub fn one_bit(aig: &mut Aig, op: One, a: Pair) -> Result<Pair, AllocError>
    requires a_in { IsWired aig.old a }
    ensures grew { Grew 2 aig.old aig.new }
    ensures within { IfOk result (λ r. IsWired aig.new r) }
    ensures value { IfOk result (λ r. Obeyed aig.new (λ v. bit_at v r ≡ one_value op (bit_at v a))) }
{
    match op {
        One::Unfloat => plain(aig, a),
        One::Not => inverse(aig, a),
    }
}

/// An operator on two bits.
pub fn two_bits(aig: &mut Aig, op: Two, a: Pair, b: Pair) -> Result<Pair, AllocError>
    requires a_in { IsWired aig.old a }
    requires b_in { IsWired aig.old b }
    ensures grew { Grew (two_nodes op) aig.old aig.new }
    ensures within { IfOk result (λ r. IsWired aig.new r) }
    ensures value { IfOk result (λ r. Obeyed aig.new (λ v. bit_at v r ≡ two_value op (bit_at v a) (bit_at v b))) }
{
    match op {
        Two::And => both(aig, a, b),
        Two::Or => either(aig, a, b),
        Two::Xor => differ(aig, a, b),
        Two::Res => resolved(aig, a, b),
        Two::Merge => merged(aig, a, b),
        Two::Keep => kept(aig, a, b),
    }
}
