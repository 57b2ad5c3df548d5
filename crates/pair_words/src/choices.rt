//! Choices between vectors: by a literal, which is one gate of three nodes for each rail, or by a four-valued bit. Where the bit is
//! unknown the result joins both vectors, so three vectors are chosen from; where it can not be unknown, two are.

ghost use Rattle.std.specs.Prelude.{◌≡◌, ◌+◌, ◌*◌, ◌<◌, IfOk, length, if◌then◌else◌};
ghost use Rattle.std.specs.List.{All};
ghost use Rattle.aig.specs.Graph.{holds, IsIn};
ghost use Rattle.aig_words.specs.Words.{Grew, Obeyed};
ghost use Rattle.fourvec.specs.Bits.{choose, all_x};
ghost use Rattle.pair_words.specs.Rails.{bit_at, bits, IsWired, IsVector, two_value, two_nodes};

use crate::pairs::{Pair, Two, unfloat};
use crate::steps::{Step, each_place};
use crate::vectors::on_both;
use aig::{Aig, Lit};
use std::alloc::{AllocError, Global};

/// The first vector where the condition is true, else the second.
pub fn pick_vector(
    alloc: Global,
    aig: &mut Aig,
    c: Lit,
    a: &[Pair],
    b: &[Pair],
) -> Result<Vec<Pair>, AllocError>
    requires same { length a.now ≡ length b.now }
    requires c_in { IsIn aig.old c }
    requires a_in { All (IsWired aig.old) a.now }
    requires b_in { All (IsWired aig.old) b.now }
    ensures grew { Grew (6 * length a.now) aig.old aig.new }
    ensures word { IfOk result (λ r. IsVector aig.new (length a.now) r.items) }
    ensures value { IfOk result (λ r. Obeyed aig.new (λ v. bits v r.items ≡ (if holds v c then bits v a.now else bits v b.now))) }
{
    each_place(alloc, aig, Step::Pick(c), a, b)
}

/// The vector where the condition is true, else all X.
pub fn vector_or_x(
    alloc: Global,
    aig: &mut Aig,
    c: Lit,
    a: &[Pair],
) -> Result<Vec<Pair>, AllocError>
    requires c_in { IsIn aig.old c }
    requires a_in { All (IsWired aig.old) a.now }
    ensures grew { Grew (2 * length a.now) aig.old aig.new }
    ensures word { IfOk result (λ r. IsVector aig.new (length a.now) r.items) }
    ensures value { IfOk result (λ r. Obeyed aig.new (λ v. bits v r.items ≡ (if holds v c then bits v a.now else all_x (length a.now)))) }
{
    each_place(alloc, aig, Step::OrX(c), a, a)
}

// A choice by a bit that may be unknown. With Z as X its upper rail tells whether one of its rails is true, its lower one whether both are.
fn joined_choice(
    alloc: Global,
    aig: &mut Aig,
    op: Two,
    c: Pair,
    a: &[Pair],
    b: &[Pair],
) -> Result<Vec<Pair>, AllocError>
    requires some { 0 < length a.now }
    requires same { length a.now ≡ length b.now }
    requires c_in { IsWired aig.old c }
    requires a_in { All (IsWired aig.old) a.now }
    requires b_in { All (IsWired aig.old) b.now }
    ensures grew { Grew (two_nodes op * length a.now + 14 * length a.now) aig.old aig.new }
    ensures word { IfOk result (λ r. IsVector aig.new (length a.now) r.items) }
    ensures value { IfOk result (λ r. Obeyed aig.new (λ v. bits v r.items ≡ choose (two_value op) (bit_at v c) (bits v a.now) (bits v b.now))) }
{
    let some = unfloat(aig, c)?;
    let joined = on_both(alloc, aig, op, a, b)?;
    let other = pick_vector(alloc, aig, some.up, &joined, b)?;
    pick_vector(alloc, aig, some.low, a, &other)
}

/// A choice by a four-valued bit: `op` joins the vectors where it is unknown, and is not made at all where the bit's rails are one
/// literal, so that it is known.
pub fn on_choice(
    alloc: Global,
    aig: &mut Aig,
    op: Two,
    c: Pair,
    a: &[Pair],
    b: &[Pair],
) -> Result<Vec<Pair>, AllocError>
    requires some { 0 < length a.now }
    requires same { length a.now ≡ length b.now }
    requires c_in { IsWired aig.old c }
    requires a_in { All (IsWired aig.old) a.now }
    requires b_in { All (IsWired aig.old) b.now }
    ensures grew { Grew (two_nodes op * length a.now + 14 * length a.now) aig.old aig.new }
    ensures word { IfOk result (λ r. IsVector aig.new (length a.now) r.items) }
    ensures value { IfOk result (λ r. Obeyed aig.new (λ v. bits v r.items ≡ choose (two_value op) (bit_at v c) (bits v a.now) (bits v b.now))) }
{
    if c.up == c.low {
        pick_vector(alloc, aig, c.up, a, b)
    } else {
        joined_choice(alloc, aig, op, c, a, b)
    }
}
