//! Words made of literals that there are: no node is made.

ghost use Rattle.std.specs.Prelude.{◌≡◌, ℕ, ◌+◌, ◌-◌, ◌<◌, ◌≤◌, IfOk, false, map, replicate, length, ◌∷◌};
ghost use Rattle.aig.specs.Graph.{negation, constant_lit};
ghost use Rattle.aig_words.specs.Words.{moved};

use aig::Lit;
use std::alloc::{AllocError, Global};

/// Where the bits of a word move: up, with zeros for what comes in, or down, with a literal for what comes in.
#[derive(Clone, Copy)]
pub enum Way {
    Up,
    Down(Lit),
}

/// Each literal negated.
pub fn negated(alloc: Global, a: &[Lit]) -> Result<Vec<Lit>, AllocError>
    ensures { IfOk result (λ r. r.items ≡ map negation a.now) }
{
    let mut word = Vec::new(alloc);
    for l in a {
        word.push(!*l)?;
    }
    Ok(word)
}

/// The word of n zeros.
pub fn zeros(alloc: Global, n: usize) -> Result<Vec<Lit>, AllocError>
    ensures { IfOk result (λ r. r.items ≡ replicate n (constant_lit false)) }
{
    let mut word = Vec::new(alloc);
    word.resize(n, Lit::constant(false))?;
    Ok(word)
}

/// Every bit moved by k places.
pub fn move_by(alloc: Global, way: Way, a: &[Lit], k: usize) -> Result<Vec<Lit>, AllocError>
    requires { k ≤ length a.now }
    ensures { IfOk result (λ r. r.items ≡ moved way k a.now) }
{
    match way {
        Way::Up => {
            let mut word = zeros(alloc, k)?;
            word.extend_from_slice(&a[..a.len() - k])?;
            Ok(word)
        }
        Way::Down(fill) => {
            let mut word = Vec::from_slice(alloc, &a[k..])?;
            word.resize(a.len(), fill)?;
            Ok(word)
        }
    }
}

/// A word with one more literal below.
pub fn above(alloc: Global, first: Lit, a: &[Lit]) -> Result<Vec<Lit>, AllocError>
    ensures { IfOk result (λ r. r.items ≡ first ∷ a.now) }
{
    let mut word = Vec::new(alloc);
    word.push(first)?;
    word.extend_from_slice(a)?;
    Ok(word)
}
