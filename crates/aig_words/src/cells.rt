//! Circuits on single literals: disjunctions, differences (xor), choices (multiplexers), and the columns of sums (full adders)
//! and comparisons. Words are made of these from the least significant place up. A sum of two literals is made of its carry, so
//! that the difference and the carry share a node; two operands that are swapped give the same literals, since the graph finds
//! conjunctions again in either order, and most exclusive ors in any.

ghost use Rattle.std.specs.Prelude.{◌≡◌, ℕ, Bool, ◌+◌, ◌*◌, ◌<◌, ◌≤◌, ◌-◌, IfOk, ◌&&◌, ◌||◌, if◌then◌else◌, length};
ghost use Rattle.std.specs.List.{All};
ghost use Rattle.aig.specs.Graph.{holds, Always, IsIn};
ghost use Rattle.aig_words.specs.Words.{Grew, Obeyed, IsColumn, parity_of, weight, differ, same_column, less_column};

use aig::{Aig, Lit};
use std::alloc::AllocError;

/// A sum of two or three literals.
#[derive(Clone, Copy)]
pub struct Column {
    pub sum: Lit,
    pub carry: Lit,
}

/// The disjunction.
pub fn or(aig: &mut Aig, a: Lit, b: Lit) -> Result<Lit, AllocError>
    requires a_in { IsIn aig.old a }
    requires b_in { IsIn aig.old b }
    ensures grew { Grew 1 aig.old aig.new }
    ensures within { IfOk result (λ c. IsIn aig.new c) }
    ensures value { IfOk result (λ c. Always aig.new (λ v. holds v c ≡ (holds v a || holds v b))) }
{
    let neither = aig.and(!a, !b)?;
    Ok(!neither)
}

/// Whether the two differ. The operands may be swapped: the same nodes serve.
pub fn xor(aig: &mut Aig, a: Lit, b: Lit) -> Result<Lit, AllocError>
    requires a_in { IsIn aig.old a }
    requires b_in { IsIn aig.old b }
    ensures grew { Grew 3 aig.old aig.new }
    ensures within { IfOk result (λ c. IsIn aig.new c) }
    ensures value { IfOk result (λ c. Always aig.new (λ v. holds v c ≡ differ (holds v a) (holds v b))) }
{
    aig.xor(a, b)
}

/// Whether an odd number of literals is true. It is made of halves, so that it is a tree of few levels. (Known bits in pairs are cut at
/// the same places, so that equal bits make equal nodes.)
pub fn parity(aig: &mut Aig, a: &[Lit]) -> Result<Lit, AllocError>
    requires some { 0 < length a.now }
    requires a_in { All (IsIn aig.old) a.now }
    ensures grew { Grew (3 * (length a.now - 1)) aig.old aig.new }
    ensures within { IfOk result (λ c. IsIn aig.new c) }
    ensures value { IfOk result (λ c. Obeyed aig.new (λ v. holds v c ≡ parity_of v a.now)) }
{
    if a.len() == 1 {
        return Ok(a[0]);
    }
    let half = a.len() / 2;
    let first = parity(aig, &a[..half])?;
    let second = parity(aig, &a[half..])?;
    xor(aig, first, second)
}

/// The first literal where the condition is true, else the second.
pub fn pick(aig: &mut Aig, c: Lit, a: Lit, b: Lit) -> Result<Lit, AllocError>
    requires c_in { IsIn aig.old c }
    requires a_in { IsIn aig.old a }
    requires b_in { IsIn aig.old b }
    ensures grew { Grew 3 aig.old aig.new }
    ensures within { IfOk result (λ d. IsIn aig.new d) }
    ensures value { IfOk result (λ d. Always aig.new (λ v. holds v d ≡ (if holds v c then holds v a else holds v b))) }
{
    let first = aig.and(c, a)?;
    let second = aig.and(!c, b)?;
    let either = or(aig, first, second)?;
    Ok(either)
}

/// Whether the two differ, and whether both are true.
fn add_pair(aig: &mut Aig, a: Lit, b: Lit) -> Result<Column, AllocError>
    requires a_in { IsIn aig.old a }
    requires b_in { IsIn aig.old b }
    ensures grew { Grew 3 aig.old aig.new }
    ensures sum_in { IfOk result (λ d. IsIn aig.new d.sum) }
    ensures carry_in { IfOk result (λ d. IsIn aig.new d.carry) }
    ensures carry { IfOk result (λ d. Always aig.new (λ v. holds v d.carry ≡ (holds v a && holds v b))) }
    ensures sum { IfOk result (λ d. Always aig.new (λ v. holds v d.sum ≡ differ (holds v a) (holds v b))) }
{
    let both = aig.half_sum(a, b)?;
    Ok(Column {
        sum: both.sum,
        carry: both.carry,
    })
}

/// The sum of three literals. The first two may be swapped: the same nodes serve.
pub fn add_column(aig: &mut Aig, a: Lit, b: Lit, c: Lit) -> Result<Column, AllocError>
    requires a_in { IsIn aig.old a }
    requires b_in { IsIn aig.old b }
    requires c_in { IsIn aig.old c }
    ensures grew { Grew 7 aig.old aig.new }
    ensures sum_in { IfOk result (λ d. IsIn aig.new d.sum) }
    ensures carry_in { IfOk result (λ d. IsIn aig.new d.carry) }
    ensures value { IfOk result (λ d. Always aig.new (IsColumn a b c d.sum d.carry)) }
{
    let first = add_pair(aig, a, b)?;
    let second = add_pair(aig, first.sum, c)?;
    let carry = or(aig, first.carry, second.carry)?;
    Ok(Column {
        sum: second.sum,
        carry,
    })
}

/// Whether the last pair is equal and all before it were.
pub fn same_more(aig: &mut Aig, a: Lit, b: Lit, last: Lit) -> Result<Lit, AllocError>
    requires a_in { IsIn aig.old a }
    requires b_in { IsIn aig.old b }
    requires last_in { IsIn aig.old last }
    ensures grew { Grew 4 aig.old aig.new }
    ensures within { IfOk result (λ c. IsIn aig.new c) }
    ensures value { IfOk result (λ c. Always aig.new (λ v. holds v c ≡ same_column (holds v a) (holds v b) (holds v last))) }
{
    let apart = xor(aig, a, b)?;
    let more = aig.and(last, !apart)?;
    Ok(more)
}

/// Whether a is below b in the last place, or equal there and below before it.
pub fn less_more(aig: &mut Aig, a: Lit, b: Lit, last: Lit) -> Result<Lit, AllocError>
    requires a_in { IsIn aig.old a }
    requires b_in { IsIn aig.old b }
    requires last_in { IsIn aig.old last }
    ensures grew { Grew 4 aig.old aig.new }
    ensures within { IfOk result (λ c. IsIn aig.new c) }
    ensures value { IfOk result (λ c. Always aig.new (λ v. holds v c ≡ less_column (holds v a) (holds v b) (holds v last))) }
{
    let below = aig.and(!a, b)?;
    let above = aig.and(a, !b)?;
    let kept = aig.and(last, !above)?;
    let less = or(aig, below, kept)?;
    Ok(less)
}
