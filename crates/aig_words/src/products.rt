//! Products, one row for each bit of an operand (shift and add).

ghost use Rattle.std.specs.Prelude.{◌≡◌, ℕ, Bool, ◌+◌, ◌-◌, ◌*◌, ◌^◌, ◌%◌, ◌<◌, ◌≤◌, IfOk, length, if◌then◌else◌};
ghost use Rattle.std.specs.List.{All};
ghost use Rattle.aig.specs.Graph.{holds, Always, IsIn};
ghost use Rattle.aig_words.specs.Words.{number, Grew, IsWord};

use crate::lists::{Way, zeros};
use crate::shifts::moved_if;
use crate::sums::add;
use aig::{Aig, Lit};
use std::alloc::{AllocError, Global};

// Adds a word's multiple by 2 ^ k where the bit is set, and else `none`, which is the word of zeros.
fn add_row(
    alloc: Global,
    aig: &mut Aig,
    total: &[Lit],
    bit: Lit,
    a: &[Lit],
    k: usize,
    none: &[Lit],
) -> Result<Vec<Lit>, AllocError>
    requires some { 0 < length a.now }
    requires within { k ≤ length a.now }
    requires as_total { length total.now ≡ length a.now }
    requires as_none { length a.now ≡ length none.now }
    requires total_in { All (IsIn aig.old) total.now }
    requires bit_in { IsIn aig.old bit }
    requires a_in { All (IsIn aig.old) a.now }
    requires none_in { All (IsIn aig.old) none.now }
    ensures grew { Grew (10 * length a.now) aig.old aig.new }
    ensures word { IfOk result (λ r. IsWord aig.new (length a.now) r.items) }
    ensures value { IfOk result (λ r. Always aig.new (λ v. number v r.items
        ≡ (number v total.now + (if holds v bit then (number v a.now * 2 ^ k) % 2 ^ length a.now else number v none.now)) % 2 ^ length a.now)) }
{
    let row = moved_if(alloc, aig, bit, Way::Up, a, k, none)?;
    add(alloc, aig, total, &row)
}

// The sum of the first word's multiples by the bits of the second.
fn product_of(alloc: Global, aig: &mut Aig, a: &[Lit], b: &[Lit]) -> Result<Vec<Lit>, AllocError>
    requires some { 0 < length a.now }
    requires same { length a.now ≡ length b.now }
    requires a_in { All (IsIn aig.old) a.now }
    requires b_in { All (IsIn aig.old) b.now }
    ensures grew { Grew (10 * length a.now * length a.now) aig.old aig.new }
    ensures word { IfOk result (λ r. IsWord aig.new (length a.now) r.items) }
    ensures value { IfOk result (λ r. Always aig.new (λ v. number v r.items ≡ (number v a.now * number v b.now) % 2 ^ length a.now)) }
{
    let none = zeros(alloc, a.len())?;
    let mut total = zeros(alloc, a.len())?;
    for i in 0..a.len() {
        total = add_row(alloc, aig, &total, b[i], a, i, &none)?;
    }
    Ok(total)
}

/// The product, modulo 2 ^ length. The operands may be swapped: the same nodes serve.
pub fn mul(alloc: Global, aig: &mut Aig, a: &[Lit], b: &[Lit]) -> Result<Vec<Lit>, AllocError>
    requires some { 0 < length a.now }
    requires same { length a.now ≡ length b.now }
    requires a_in { All (IsIn aig.old) a.now }
    requires b_in { All (IsIn aig.old) b.now }
    ensures grew { Grew (10 * length a.now * length a.now) aig.old aig.new }
    ensures word { IfOk result (λ r. IsWord aig.new (length a.now) r.items) }
    ensures value { IfOk result (λ r. Always aig.new (λ v. number v r.items ≡ (number v a.now * number v b.now) % 2 ^ length a.now)) }
{
    if b < a {
        product_of(alloc, aig, b, a)
    } else {
        product_of(alloc, aig, a, b)
    }
}
