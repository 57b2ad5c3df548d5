//! Quotients and remainders, one bit of the quotient at a time, from the most significant down (restoring division). A turn
//! subtracts only as many low bits of the divisor as the rest has, and looks at the others for a bit that is set, so that the
//! first turns are small. By zero the result is any bits, so no gate is spent on that case.

ghost use Rattle.std.specs.Prelude.{◌≡◌, ℕ, Bool, not, ◌&&◌, ◌+◌, ◌-◌, ◌*◌, ◌/◌, ◌^◌, ◌%◌, ◌<◌, ◌≤◌, nat_lt, IfOk, length};
ghost use Rattle.std.specs.List.{All};
ghost use Rattle.aig.specs.Graph.{holds, Always, IsIn};
ghost use Rattle.aig_words.specs.Words.{number, weight, Grew, IsWord, IsTurn, IsDivided};

use crate::lists::above;
use crate::picks::mux;
use crate::shifts::any;
use crate::sums::{Sum, difference};
use aig::{Aig, Lit};
use std::alloc::{AllocError, Global};

// The bits of a quotient, and a rest.
#[derive(Drop)]
struct Divided {
    quotient: Vec<Lit>,
    rest: Vec<Lit>,
}

// Whether the divisor goes into the rest with one more bit below, and what is left then.
#[derive(Drop)]
struct Turn {
    bit: Lit,
    rest: Vec<Lit>,
}

// Whether the divisor goes in: the difference to its low bits has a carry, and no bit above those is set.
fn goes_in(aig: &mut Aig, carry: Lit, above: &[Lit]) -> Result<Lit, AllocError>
    requires some { 0 < length aig.old }
    requires carry_in { IsIn aig.old carry }
    requires above_in { All (IsIn aig.old) above.now }
    ensures grew { Grew (length above.now + 1) aig.old aig.new }
    ensures within { IfOk result (λ r. IsIn aig.new r) }
    ensures value { IfOk result (λ r. Always aig.new (λ v. holds v r ≡ (holds v carry && not (nat_lt 0 (number v above.now))))) }
{
    let larger = any(aig, above)?;
    aig.and(carry, !larger)
}

// One turn over the rest with its new bit, which is compared with as many low bits of the divisor; it is too small where a bit
// above those is set.
fn turn_over(alloc: Global, aig: &mut Aig, shifted: &[Lit], b: &[Lit]) -> Result<Turn, AllocError>
    requires some { 0 < length shifted.now }
    requires short { length shifted.now ≤ length b.now }
    requires shifted_in { All (IsIn aig.old) shifted.now }
    requires b_in { All (IsIn aig.old) b.now }
    ensures grew { Grew (11 * length b.now) aig.old aig.new }
    ensures bit_out { IfOk result (λ t. IsIn aig.new t.bit) }
    ensures word { IfOk result (λ t. IsWord aig.new (length shifted.now) t.rest.items) }
    ensures value { IfOk result (λ t. Always aig.new (λ v. number v shifted.now < 2 * number v b.now
        → (number v shifted.now ≡ weight (holds v t.bit) * number v b.now + number v t.rest.items) × (number v t.rest.items < number v b.now))) }
{
    let n = shifted.len();
    let Sum { word, carry } = difference(alloc, aig, shifted, &b[..n])?;
    let bit = goes_in(aig, carry, &b[n..])?;
    let rest = mux(alloc, aig, bit, &word, shifted)?;
    Ok(Turn { bit, rest })
}

// One turn, with the next bit of the dividend.
fn take_turn(
    alloc: Global,
    aig: &mut Aig,
    bit: Lit,
    rest: &[Lit],
    b: &[Lit],
) -> Result<Turn, AllocError>
    requires short { length rest.now < length b.now }
    requires bit_in { IsIn aig.old bit }
    requires rest_in { All (IsIn aig.old) rest.now }
    requires b_in { All (IsIn aig.old) b.now }
    ensures grew { Grew (11 * length b.now) aig.old aig.new }
    ensures bit_out { IfOk result (λ t. IsIn aig.new t.bit) }
    ensures word { IfOk result (λ t. IsWord aig.new (length rest.now + 1) t.rest.items) }
    ensures value { IfOk result (λ t. Always aig.new (IsTurn bit rest.now b.now t.bit t.rest.items)) }
{
    let shifted = above(alloc, bit, rest)?;
    turn_over(alloc, aig, &shifted, b)
}

// The quotient and the remainder. By zero they are any bits.
fn divide(alloc: Global, aig: &mut Aig, a: &[Lit], b: &[Lit]) -> Result<Divided, AllocError>
    requires some { 0 < length a.now }
    requires same { length a.now ≡ length b.now }
    requires a_in { All (IsIn aig.old) a.now }
    requires b_in { All (IsIn aig.old) b.now }
    ensures grew { Grew (11 * length a.now * length a.now) aig.old aig.new }
    ensures quotient { IfOk result (λ d. IsWord aig.new (length a.now) d.quotient.items) }
    ensures rest { IfOk result (λ d. IsWord aig.new (length a.now) d.rest.items) }
    ensures value { IfOk result (λ d. Always aig.new (IsDivided a.now b.now d.quotient.items d.rest.items)) }
{
    let mut quotient = Vec::new(alloc);
    let mut rest = Vec::new(alloc);
    for i in 0..a.len() {
        let next = take_turn(alloc, aig, a[a.len() - 1 - i], &rest, b)?;
        let Turn { bit, rest: left } = next;
        quotient = above(alloc, bit, &quotient)?;
        rest = left;
    }
    Ok(Divided { quotient, rest })
}

/// The quotient. By zero it is any bits.
pub fn div(alloc: Global, aig: &mut Aig, a: &[Lit], b: &[Lit]) -> Result<Vec<Lit>, AllocError>
    requires some { 0 < length a.now }
    requires same { length a.now ≡ length b.now }
    requires a_in { All (IsIn aig.old) a.now }
    requires b_in { All (IsIn aig.old) b.now }
    ensures grew { Grew (11 * length a.now * length a.now) aig.old aig.new }
    ensures word { IfOk result (λ r. IsWord aig.new (length a.now) r.items) }
    ensures value { IfOk result (λ r. Always aig.new (λ v. 0 < number v b.now → number v r.items ≡ number v a.now / number v b.now)) }
{
    let Divided { quotient, rest: _ } = divide(alloc, aig, a, b)?;
    Ok(quotient)
}

/// The remainder. By zero it is any bits.
pub fn rem(alloc: Global, aig: &mut Aig, a: &[Lit], b: &[Lit]) -> Result<Vec<Lit>, AllocError>
    requires some { 0 < length a.now }
    requires same { length a.now ≡ length b.now }
    requires a_in { All (IsIn aig.old) a.now }
    requires b_in { All (IsIn aig.old) b.now }
    ensures grew { Grew (11 * length a.now * length a.now) aig.old aig.new }
    ensures word { IfOk result (λ r. IsWord aig.new (length a.now) r.items) }
    ensures value { IfOk result (λ r. Always aig.new (λ v. 0 < number v b.now → number v r.items ≡ number v a.now % number v b.now)) }
{
    let Divided { quotient: _, rest } = divide(alloc, aig, a, b)?;
    Ok(rest)
}
