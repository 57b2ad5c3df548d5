//! The one walk over the places of two vectors: what is made at each of them is a step.

ghost use Rattle.std.specs.Prelude.{◌≡◌, ◌*◌, ◌<◌, IfOk, length};
ghost use Rattle.std.specs.List.{All};
ghost use Rattle.aig_words.specs.Words.{Grew, Obeyed};
ghost use Rattle.fourvec.specs.Bits.{each_pair};
ghost use Rattle.pair_words.specs.Rails.{bit_at, bits, IsWired, IsVector};
ghost use Rattle.pair_words.specs.Steps.{step_value, step_nodes, StepIn};

use crate::pairs::{One, Pair, Two, kept, one_bit, pair_or_x, pick_pair, two_bits};
use aig::{Aig, Lit};
use std::alloc::{AllocError, Global};

/// What is made of the pairs at one place: an operator of the first or of both, the first where a literal is true and else the second or
/// X, or the first as far as it equals one pair that is the same for all places.
#[derive(Clone, Copy)]
pub enum Step {
    Apply(One),
    Join(Two),
    Pick(Lit),
    OrX(Lit),
    KeepBy(Pair),
}

// The step at one place.
fn stepped(aig: &mut Aig, step: Step, a: Pair, b: Pair) -> Result<Pair, AllocError>
    requires step_in { StepIn aig.old step }
    requires a_in { IsWired aig.old a }
    requires b_in { IsWired aig.old b }
    ensures grew { Grew (step_nodes step) aig.old aig.new }
    ensures within { IfOk result (λ r. IsWired aig.new r) }
    ensures value { IfOk result (λ r. Obeyed aig.new (λ v. bit_at v r ≡ step_value v step (bit_at v a) (bit_at v b))) }
{
    match step {
        Step::Apply(op) => one_bit(aig, op, a),
        Step::Join(op) => two_bits(aig, op, a, b),
        Step::Pick(c) => pick_pair(aig, c, a, b),
        Step::OrX(c) => pair_or_x(aig, c, a),
        Step::KeepBy(p) => kept(aig, a, p),
    }
}

/// The step at each place.
pub fn each_place(
    alloc: Global,
    aig: &mut Aig,
    step: Step,
    a: &[Pair],
    b: &[Pair],
) -> Result<Vec<Pair>, AllocError>
    requires same { length a.now ≡ length b.now }
    requires step_in { StepIn aig.old step }
    requires a_in { All (IsWired aig.old) a.now }
    requires b_in { All (IsWired aig.old) b.now }
    ensures grew { Grew (step_nodes step * length a.now) aig.old aig.new }
    ensures word { IfOk result (λ r. IsVector aig.new (length a.now) r.items) }
    ensures value { IfOk result (λ r. Obeyed aig.new (λ v. bits v r.items ≡ each_pair (step_value v step) (bits v a.now) (bits v b.now))) }
{
    let mut word = Vec::new(alloc);
    for i in 0..a.len() {
        let next = stepped(aig, step, a[i], b[i])?;
        word.push(next)?;
    }
    Ok(word)
}
