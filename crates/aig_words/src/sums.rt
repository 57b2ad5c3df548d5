//! Sums, one column behind the other (a ripple-carry adder).

ghost use Rattle.std.specs.Prelude.{◌≡◌, ℕ, Bool, ◌+◌, ◌-◌, ◌*◌, ◌^◌, ◌%◌, ◌<◌, ◌≤◌, IfOk, length};
ghost use Rattle.std.specs.List.{All};
ghost use Rattle.aig.specs.Graph.{holds, Always, IsIn};
ghost use Rattle.aig_words.specs.Words.{number, weight, Grew, IsWord, IsSum};

use crate::cells::add_column;
use crate::lists::negated;
use aig::{Aig, Lit};
use std::alloc::{AllocError, Global};

/// A word, and the carry out of its last column.
#[derive(Drop)]
pub struct Sum {
    pub word: Vec<Lit>,
    pub carry: Lit,
}

/// The sum of two words and a literal.
pub fn sum_of(
    alloc: Global,
    aig: &mut Aig,
    a: &[Lit],
    b: &[Lit],
    carry: Lit,
) -> Result<Sum, AllocError>
    requires some { 0 < length a.now }
    requires same { length a.now ≡ length b.now }
    requires a_in { All (IsIn aig.old) a.now }
    requires b_in { All (IsIn aig.old) b.now }
    requires carry_in { IsIn aig.old carry }
    ensures grew { Grew (7 * length a.now) aig.old aig.new }
    ensures word { IfOk result (λ s. IsWord aig.new (length a.now) s.word.items) }
    ensures carry_out { IfOk result (λ s. IsIn aig.new s.carry) }
    ensures value { IfOk result (λ s. Always aig.new (IsSum a.now b.now carry s.word.items s.carry)) }
{
    let mut word = Vec::new(alloc);
    let mut last = carry;
    for i in 0..a.len() {
        let next = add_column(aig, a[i], b[i], last)?;
        word.push(next.sum)?;
        last = next.carry;
    }
    Ok(Sum { word, carry: last })
}

/// The sum, modulo 2 ^ length. The operands may be swapped: the same nodes serve.
pub fn add(alloc: Global, aig: &mut Aig, a: &[Lit], b: &[Lit]) -> Result<Vec<Lit>, AllocError>
    requires some { 0 < length a.now }
    requires same { length a.now ≡ length b.now }
    requires a_in { All (IsIn aig.old) a.now }
    requires b_in { All (IsIn aig.old) b.now }
    ensures grew { Grew (7 * length a.now) aig.old aig.new }
    ensures word { IfOk result (λ r. IsWord aig.new (length a.now) r.items) }
    ensures value { IfOk result (λ r. Always aig.new (λ v. number v r.items ≡ (number v a.now + number v b.now) % 2 ^ length a.now)) }
{
    let Sum { word, carry: _ } = sum_of(alloc, aig, a, b, Lit::constant(false))?;
    Ok(word)
}

/// The difference, with a carry where the second word is not the larger one.
pub fn difference(alloc: Global, aig: &mut Aig, a: &[Lit], b: &[Lit]) -> Result<Sum, AllocError>
    requires some { 0 < length a.now }
    requires same { length a.now ≡ length b.now }
    requires a_in { All (IsIn aig.old) a.now }
    requires b_in { All (IsIn aig.old) b.now }
    ensures grew { Grew (7 * length a.now) aig.old aig.new }
    ensures word { IfOk result (λ s. IsWord aig.new (length a.now) s.word.items) }
    ensures carry_out { IfOk result (λ s. IsIn aig.new s.carry) }
    ensures value { IfOk result (λ s. Always aig.new (λ v.
        number v s.word.items + 2 ^ length a.now * weight (holds v s.carry) + number v b.now ≡ number v a.now + 2 ^ length a.now)) }
{
    let complement = negated(alloc, b)?;
    sum_of(alloc, aig, a, &complement, Lit::constant(true))
}

/// The difference, modulo 2 ^ length.
pub fn sub(alloc: Global, aig: &mut Aig, a: &[Lit], b: &[Lit]) -> Result<Vec<Lit>, AllocError>
    requires some { 0 < length a.now }
    requires same { length a.now ≡ length b.now }
    requires a_in { All (IsIn aig.old) a.now }
    requires b_in { All (IsIn aig.old) b.now }
    ensures grew { Grew (7 * length a.now) aig.old aig.new }
    ensures word { IfOk result (λ r. IsWord aig.new (length a.now) r.items) }
    ensures value { IfOk result (λ r. Always aig.new (λ v. number v r.items ≡ (number v a.now + (2 ^ length a.now - number v b.now)) % 2 ^ length a.now)) }
{
    let Sum { word, carry: _ } = difference(alloc, aig, a, b)?;
    Ok(word)
}
