//! Comparisons.

ghost use Rattle.std.specs.Prelude.{◌≡◌, ℕ, Bool, ◌+◌, ◌*◌, ◌^◌, ◌<◌, ◌≤◌, IfOk, length, nat_lt, ◌==◌, int_lt};
ghost use Rattle.std.specs.List.{All};
ghost use Rattle.aig.specs.Graph.{holds, Always, IsIn, IsGraph};
ghost use Rattle.aig_words.specs.Words.{number, Grew, Obeyed, signed};

use crate::cells::{less_more, same_more};
use aig::{Aig, Lit};
use std::alloc::AllocError;

/// Whether the words stand for one number. The operands may be swapped: the same nodes serve.
pub fn eq(aig: &mut Aig, a: &[Lit], b: &[Lit]) -> Result<Lit, AllocError>
    requires some { 0 < length a.now }
    requires same { length a.now ≡ length b.now }
    requires a_in { All (IsIn aig.old) a.now }
    requires b_in { All (IsIn aig.old) b.now }
    ensures grew { Grew (4 * length a.now) aig.old aig.new }
    ensures within { IfOk result (λ r. IsIn aig.new r) }
    ensures value { IfOk result (λ r. Always aig.new (λ v. holds v r ≡ (number v a.now == number v b.now))) }
{
    let mut last = Lit::constant(true);
    for i in 0..a.len() {
        last = same_more(aig, a[i], b[i], last)?;
    }
    Ok(last)
}

// Whether the first number is below the second, also for empty words.
fn is_less(aig: &mut Aig, a: &[Lit], b: &[Lit]) -> Result<Lit, AllocError>
    requires node { 0 < length aig.old }
    requires same { length a.now ≡ length b.now }
    requires a_in { All (IsIn aig.old) a.now }
    requires b_in { All (IsIn aig.old) b.now }
    ensures grew { Grew (4 * length a.now) aig.old aig.new }
    ensures within { IfOk result (λ r. IsIn aig.new r) }
    ensures value { IfOk result (λ r. Obeyed aig.new (λ v. holds v r ≡ nat_lt (number v a.now) (number v b.now))) }
    ensures graph { IfOk result (λ r. 0 < length a.now → IsGraph aig.new) }
{
    let mut last = Lit::constant(false);
    for i in 0..a.len() {
        last = less_more(aig, a[i], b[i], last)?;
    }
    Ok(last)
}

/// Whether the first number is below the second.
pub fn lt(aig: &mut Aig, a: &[Lit], b: &[Lit]) -> Result<Lit, AllocError>
    requires some { 0 < length a.now }
    requires same { length a.now ≡ length b.now }
    requires a_in { All (IsIn aig.old) a.now }
    requires b_in { All (IsIn aig.old) b.now }
    ensures grew { Grew (4 * length a.now) aig.old aig.new }
    ensures within { IfOk result (λ r. IsIn aig.new r) }
    ensures value { IfOk result (λ r. Always aig.new (λ v. holds v r ≡ nat_lt (number v a.now) (number v b.now))) }
{
    let less = is_less(aig, a, b)?;
    Ok(less)
}

/// Whether the first number is below the second, both read as two's complement. At the top bits the order is turned.
pub fn slt(aig: &mut Aig, a: &[Lit], b: &[Lit]) -> Result<Lit, AllocError>
    requires some { 0 < length a.now }
    requires same { length a.now ≡ length b.now }
    requires a_in { All (IsIn aig.old) a.now }
    requires b_in { All (IsIn aig.old) b.now }
    ensures grew { Grew (4 * length a.now) aig.old aig.new }
    ensures within { IfOk result (λ r. IsIn aig.new r) }
    ensures value { IfOk result (λ r. Always aig.new (λ v. holds v r ≡ int_lt (signed (length a.now) (number v a.now)) (signed (length a.now) (number v b.now)))) }
{
    let top = a.len() - 1;
    let low = is_less(aig, &a[..top], &b[..top])?;
    let less = less_more(aig, b[top], a[top], low)?;
    Ok(less)
}
