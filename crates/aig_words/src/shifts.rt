//! Shifts, in stages by the bits of the amount (a barrel shifter). A stage moves the word by the weight of its bit, or leaves it.
//! There are no more stages than the word needs: a bit of the amount above these moves all of the word out, which one disjunction
//! tells.

ghost use Rattle.std.specs.Prelude.{◌≡◌, ℕ, Bool, ◌+◌, ◌-◌, ◌*◌, ◌/◌, ◌^◌, ◌%◌, ◌<◌, ◌≤◌, IfOk, length, nat_lt, if◌then◌else◌};
ghost use Rattle.std.specs.List.{All};
ghost use Rattle.aig.specs.Graph.{holds, Always, IsIn};
ghost use Rattle.aig_words.specs.Words.{number, Grew, IsWord, Obeyed, FillsFrom, shifted, sar_of};

use crate::cells::or;
use crate::lists::{Way, move_by};
use crate::picks::mux;
use aig::{Aig, Lit};
use std::alloc::{AllocError, Global};

/// Whether some bit is set. Words with a common upper part share the nodes of that.
pub fn any(aig: &mut Aig, a: &[Lit]) -> Result<Lit, AllocError>
    requires some { 0 < length aig.old }
    requires a_in { All (IsIn aig.old) a.now }
    ensures grew { Grew (length a.now) aig.old aig.new }
    ensures within { IfOk result (λ r. IsIn aig.new r) }
    ensures value { IfOk result (λ r. Obeyed aig.new (λ v. holds v r ≡ nat_lt 0 (number v a.now))) }
{
    let mut last = Lit::constant(false);
    for i in 0..a.len() {
        last = or(aig, last, a[a.len() - 1 - i])?;
    }
    Ok(last)
}

/// A word moved by k places where the condition is true, else another word.
pub fn moved_if(
    alloc: Global,
    aig: &mut Aig,
    condition: Lit,
    way: Way,
    a: &[Lit],
    k: usize,
    kept: &[Lit],
) -> Result<Vec<Lit>, AllocError>
    requires some { 0 < length a.now }
    requires within { k ≤ length a.now }
    requires same { length a.now ≡ length kept.now }
    requires condition_in { IsIn aig.old condition }
    requires way_in { FillsFrom aig.old way }
    requires a_in { All (IsIn aig.old) a.now }
    requires kept_in { All (IsIn aig.old) kept.now }
    ensures grew { Grew (3 * length a.now) aig.old aig.new }
    ensures word { IfOk result (λ r. IsWord aig.new (length a.now) r.items) }
    ensures value { IfOk result (λ r. Always aig.new (λ v. number v r.items ≡ (if holds v condition then shifted v way (length a.now) (number v a.now) k else number v kept.now))) }
{
    let moved = move_by(alloc, way, a, k)?;
    mux(alloc, aig, condition, &moved, kept)
}

// The first word moved by the number of the second: by each bit's weight in turn, and away where a bit above is set.
fn shift(
    alloc: Global,
    aig: &mut Aig,
    way: Way,
    a: &[Lit],
    b: &[Lit],
) -> Result<Vec<Lit>, AllocError>
    requires some { 0 < length a.now }
    requires same { length a.now ≡ length b.now }
    requires way_in { FillsFrom aig.old way }
    requires a_in { All (IsIn aig.old) a.now }
    requires b_in { All (IsIn aig.old) b.now }
    ensures grew { Grew (7 * length a.now * length a.now) aig.old aig.new }
    ensures word { IfOk result (λ r. IsWord aig.new (length a.now) r.items) }
    ensures value { IfOk result (λ r. Always aig.new (λ v. number v r.items ≡ shifted v way (length a.now) (number v a.now) (number v b.now))) }
{
    let mut word = Vec::from_slice(alloc, a)?;
    let mut k: usize = 1;
    let mut j = 0;
    while j < b.len() && k < a.len() {
        word = moved_if(alloc, aig, b[j], way, &word, k, &word)?;
        k = k.saturating_mul(2);
        j += 1;
    }
    let far = any(aig, &b[j..])?;
    moved_if(alloc, aig, far, way, a, a.len(), &word)
}

/// The bits moved up by the unsigned number of the second word, and zeros come in.
pub fn shl(alloc: Global, aig: &mut Aig, a: &[Lit], b: &[Lit]) -> Result<Vec<Lit>, AllocError>
    requires some { 0 < length a.now }
    requires same { length a.now ≡ length b.now }
    requires a_in { All (IsIn aig.old) a.now }
    requires b_in { All (IsIn aig.old) b.now }
    ensures grew { Grew (7 * length a.now * length a.now) aig.old aig.new }
    ensures word { IfOk result (λ r. IsWord aig.new (length a.now) r.items) }
    ensures value { IfOk result (λ r. Always aig.new (λ v. number v r.items ≡ (number v a.now * 2 ^ number v b.now) % 2 ^ length a.now)) }
{
    shift(alloc, aig, Way::Up, a, b)
}

/// The bits moved down by the unsigned number of the second word, and zeros come in.
pub fn shr(alloc: Global, aig: &mut Aig, a: &[Lit], b: &[Lit]) -> Result<Vec<Lit>, AllocError>
    requires some { 0 < length a.now }
    requires same { length a.now ≡ length b.now }
    requires a_in { All (IsIn aig.old) a.now }
    requires b_in { All (IsIn aig.old) b.now }
    ensures grew { Grew (7 * length a.now * length a.now) aig.old aig.new }
    ensures word { IfOk result (λ r. IsWord aig.new (length a.now) r.items) }
    ensures value { IfOk result (λ r. Always aig.new (λ v. number v r.items ≡ number v a.now / 2 ^ number v b.now)) }
{
    shift(alloc, aig, Way::Down(Lit::constant(false)), a, b)
}

/// The bits moved down by the unsigned number of the second word, and copies of the top bit come in.
pub fn sar(alloc: Global, aig: &mut Aig, a: &[Lit], b: &[Lit]) -> Result<Vec<Lit>, AllocError>
    requires some { 0 < length a.now }
    requires same { length a.now ≡ length b.now }
    requires a_in { All (IsIn aig.old) a.now }
    requires b_in { All (IsIn aig.old) b.now }
    ensures grew { Grew (7 * length a.now * length a.now) aig.old aig.new }
    ensures word { IfOk result (λ r. IsWord aig.new (length a.now) r.items) }
    ensures value { IfOk result (λ r. Always aig.new (λ v. number v r.items ≡ sar_of (length a.now) (number v a.now) (number v b.now))) }
{
    shift(alloc, aig, Way::Down(a[a.len() - 1]), a, b)
}
