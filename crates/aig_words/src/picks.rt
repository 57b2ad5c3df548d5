//! Choices between words.

ghost use Rattle.std.specs.Prelude.{◌≡◌, ℕ, Bool, ◌+◌, ◌*◌, ◌<◌, ◌≤◌, IfOk, length, if◌then◌else◌};
ghost use Rattle.std.specs.List.{All};
ghost use Rattle.aig.specs.Graph.{holds, Always, IsIn};
ghost use Rattle.aig_words.specs.Words.{number, Grew, IsWord};

use crate::cells::pick;
use aig::{Aig, Lit};
use std::alloc::{AllocError, Global};

/// The first word where the condition is true, else the second.
pub fn mux(
    alloc: Global,
    aig: &mut Aig,
    c: Lit,
    a: &[Lit],
    b: &[Lit],
) -> Result<Vec<Lit>, AllocError>
    requires some { 0 < length a.now }
    requires same { length a.now ≡ length b.now }
    requires c_in { IsIn aig.old c }
    requires a_in { All (IsIn aig.old) a.now }
    requires b_in { All (IsIn aig.old) b.now }
    ensures grew { Grew (3 * length a.now) aig.old aig.new }
    ensures word { IfOk result (λ r. IsWord aig.new (length a.now) r.items) }
    ensures value { IfOk result (λ r. Always aig.new (λ v. number v r.items ≡ (if holds v c then number v a.now else number v b.now))) }
{
    let mut word = Vec::new(alloc);
    for i in 0..a.len() {
        let next = pick(aig, c, a[i], b[i])?;
        word.push(next)?;
    }
    Ok(word)
}
