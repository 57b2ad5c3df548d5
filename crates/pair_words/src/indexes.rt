//! Where an index leads: whether its bits are known, how far it is from 0, and for each place one literal that tells whether a part begins
//! there. The part begins at a whole number that grows or falls with the index, so for each place there is one distance from 0 that the
//! index has to have, if any, and the literal compares the index with that constant.

ghost use Rattle.std.specs.Prelude.{◌≡◌, ℕ, ◌+◌, ◌*◌, ◌^◌, ◌<◌, ◌==◌, IfOk, true, false, length, map, ◌+ℤ◌, if◌then◌else◌};
ghost use Rattle.std.specs.List.{All};
ghost use Rattle.aig.specs.Graph.{holds, negation, IsIn};
ghost use Rattle.aig_words.specs.Words.{number, Grew, IsWord, Obeyed};
ghost use Rattle.fourvec.specs.Bits.{is_known};
ghost use Rattle.pair_words.specs.Rails.{bits, IsWired};
ghost use Rattle.pair_words.specs.Truths.{truths};
ghost use Rattle.fourvec.specs.Spots.{reached};
ghost use Rattle.pair_words.specs.Starts.{is_there, is_distance, back_of, far_of, begin_at};

use crate::numbers::{turned, uppers};
use crate::pairs::Pair;
use crate::vectors::known;
use aig::{Aig, Lit};
use aig_words::pick;
use fourvec::Spot;
use std::alloc::{AllocError, Global};

/// Where an index leads: whether no bit of it is unknown, whether it counts downwards, and how far it is from 0.
#[derive(Drop)]
pub struct Aim {
    pub fine: Lit,
    pub back: Lit,
    pub far: Vec<Lit>,
}

/// A whole number: how far from 0 it is, and whether below.
#[derive(Clone, Copy)]
pub struct Start {
    pub back: bool,
    pub far: u128,
}

// The literal, or its negation.
fn flipped(l: Lit, yes: bool) -> Lit
    ensures { result ≡ (if yes then negation l else l) }
{
    if yes { !l } else { l }
}

fn signed_index(
    alloc: Global,
    aig: &mut Aig,
    fine: Lit,
    at: &[Lit],
    spot: &Spot,
) -> Result<Aim, AllocError>
    requires signed { spot.now.signed ≡ true }
    requires some { 0 < length at.now }
    requires at_in { All (IsIn aig.old) at.now }
    ensures grew { Grew (10 * length at.now) aig.old aig.new }
    ensures fine { IfOk result (λ x. x.fine ≡ fine) }
    ensures back_in { IfOk result (λ x. IsIn aig.new x.back) }
    ensures word { IfOk result (λ x. IsWord aig.new (length at.now) x.far.items) }
    ensures back { IfOk result (λ x. Obeyed aig.new (λ v. holds v x.back ≡ back_of spot.now (truths v at.now))) }
    ensures far { IfOk result (λ x. Obeyed aig.new (λ v. number v x.far.items ≡ far_of spot.now (truths v at.now))) }
{
    let top = at[at.len() - 1];
    let far = turned(alloc, aig, top, at)?;
    Ok(Aim {
        fine,
        back: flipped(top, spot.negate),
        far,
    })
}

fn plain_index(
    alloc: Global,
    aig: &mut Aig,
    fine: Lit,
    at: &[Lit],
    spot: &Spot,
) -> Result<Aim, AllocError>
    requires plain { spot.now.signed ≡ false }
    requires some { 0 < length at.now }
    requires at_in { All (IsIn aig.old) at.now }
    ensures grew { Grew (10 * length at.now) aig.old aig.new }
    ensures fine { IfOk result (λ x. x.fine ≡ fine) }
    ensures back_in { IfOk result (λ x. IsIn aig.new x.back) }
    ensures word { IfOk result (λ x. IsWord aig.new (length at.now) x.far.items) }
    ensures back { IfOk result (λ x. Obeyed aig.new (λ v. holds v x.back ≡ back_of spot.now (truths v at.now))) }
    ensures far { IfOk result (λ x. Obeyed aig.new (λ v. number v x.far.items ≡ far_of spot.now (truths v at.now))) }
{
    // For the proof: recalls what the type promises of it.
    let _ = aig.len();
    let far = Vec::from_slice(alloc, at)?;
    Ok(Aim {
        fine,
        back: flipped(Lit::constant(false), spot.negate),
        far,
    })
}

fn index_of(
    alloc: Global,
    aig: &mut Aig,
    fine: Lit,
    at: &[Lit],
    spot: &Spot,
) -> Result<Aim, AllocError>
    requires some { 0 < length at.now }
    requires at_in { All (IsIn aig.old) at.now }
    ensures grew { Grew (10 * length at.now) aig.old aig.new }
    ensures fine { IfOk result (λ x. x.fine ≡ fine) }
    ensures back_in { IfOk result (λ x. IsIn aig.new x.back) }
    ensures word { IfOk result (λ x. IsWord aig.new (length at.now) x.far.items) }
    ensures back { IfOk result (λ x. Obeyed aig.new (λ v. holds v x.back ≡ back_of spot.now (truths v at.now))) }
    ensures far { IfOk result (λ x. Obeyed aig.new (λ v. number v x.far.items ≡ far_of spot.now (truths v at.now))) }
{
    if spot.signed {
        signed_index(alloc, aig, fine, at, spot)
    } else {
        plain_index(alloc, aig, fine, at, spot)
    }
}

/// Where the index of a vector leads, by its upper rail.
pub fn sought(alloc: Global, aig: &mut Aig, at: &[Pair], spot: &Spot) -> Result<Aim, AllocError>
    requires node { 0 < length aig.old }
    requires some { 0 < length at.now }
    requires at_in { All (IsWired aig.old) at.now }
    ensures grew { Grew (14 * length at.now) aig.old aig.new }
    ensures fine_in { IfOk result (λ s. IsIn aig.new s.fine) }
    ensures back_in { IfOk result (λ s. IsIn aig.new s.back) }
    ensures word { IfOk result (λ s. IsWord aig.new (length at.now) s.far.items) }
    ensures fine { IfOk result (λ s. Obeyed aig.new (λ v. holds v s.fine ≡ is_known (bits v at.now))) }
    ensures back { IfOk result (λ s. Obeyed aig.new (λ v. holds v s.back ≡ back_of spot.now (truths v (map (λ p. p.up) at.now)))) }
    ensures far { IfOk result (λ s. Obeyed aig.new (λ v. number v s.far.items ≡ far_of spot.now (truths v (map (λ p. p.up) at.now)))) }
{
    let fine = known(aig, at)?;
    let x = uppers(alloc, at)?;
    index_of(alloc, aig, fine, &x, spot)
}

// Whether a word stands for a number.
fn is_number(aig: &mut Aig, word: &[Lit], k: u128) -> Result<Lit, AllocError>
    requires node { 0 < length aig.old }
    requires word_in { All (IsIn aig.old) word.now }
    ensures grew { Grew (length word.now) aig.old aig.new }
    ensures within { IfOk result (λ r. IsIn aig.new r) }
    ensures value { IfOk result (λ r. Obeyed aig.new (λ v. holds v r ≡ (number v word.now == k))) }
{
    let mut last = Lit::constant(true);
    let mut rest = k;
    for i in 0..word.len() {
        last = aig.and(last, flipped(word[i], rest % 2 == 0))?;
        rest /= 2;
    }
    if rest == 0 {
        Ok(last)
    } else {
        Ok(Lit::constant(false))
    }
}

// Whether the product of a word's number and another is a number.
fn is_product(aig: &mut Aig, word: &[Lit], each: u128, n: u128) -> Result<Lit, AllocError>
    requires node { 0 < length aig.old }
    requires word_in { All (IsIn aig.old) word.now }
    ensures grew { Grew (length word.now) aig.old aig.new }
    ensures within { IfOk result (λ r. IsIn aig.new r) }
    ensures value { IfOk result (λ r. Obeyed aig.new (λ v. holds v r ≡ (number v word.now * each == n))) }
{
    if each == 0 {
        return Ok(Lit::constant(n == 0));
    }
    if n % each != 0 {
        return Ok(Lit::constant(false));
    }
    is_number(aig, word, n / each)
}

// How far from 0 an index that counts upwards has to be to lead to a place.
fn distance_up(start: Start, t: u128) -> Option<u128>
    requires small { t < 2 ^ 64 }
    requires near { start.far < 2 ^ 65 }
    ensures { (p : ℕ) → is_distance result p ≡ is_there (reached false p +ℤ reached start.back start.far) t }
{
    if start.back {
        Some(t + start.far)
    } else if start.far <= t {
        Some(t - start.far)
    } else {
        None
    }
}

// How far from 0 an index that counts downwards has to be to lead to a place. From a start below 0, or at it, it leads there only
// where all are 0.
fn distance_down(start: Start, t: u128) -> Option<u128>
    requires small { t < 2 ^ 64 }
    requires near { start.far < 2 ^ 65 }
    ensures { (p : ℕ) → is_distance result p ≡ is_there (reached true p +ℤ reached start.back start.far) t }
{
    if start.back {
        if t + start.far == 0 { Some(0) } else { None }
    } else if t <= start.far {
        Some(start.far - t)
    } else {
        None
    }
}

// Whether the product of a word's number and another is a distance.
fn goes_as_far(
    aig: &mut Aig,
    word: &[Lit],
    each: u128,
    distance: Option<u128>,
) -> Result<Lit, AllocError>
    requires node { 0 < length aig.old }
    requires word_in { All (IsIn aig.old) word.now }
    ensures grew { Grew (length word.now) aig.old aig.new }
    ensures within { IfOk result (λ r. IsIn aig.new r) }
    ensures value { IfOk result (λ r. Obeyed aig.new (λ v. holds v r ≡ is_distance distance (number v word.now * each))) }
{
    match distance {
        Some(n) => is_product(aig, word, each, n),
        None => Ok(Lit::constant(false)),
    }
}

/// Whether an index leads to a place.
pub fn leads(
    aig: &mut Aig,
    back: Lit,
    far: &[Lit],
    each: u128,
    start: Start,
    t: u128,
) -> Result<Lit, AllocError>
    requires node { 0 < length aig.old }
    requires small { t < 2 ^ 64 }
    requires near { start.far < 2 ^ 65 }
    requires back_in { IsIn aig.old back }
    requires far_in { All (IsIn aig.old) far.now }
    ensures grew { Grew (2 * length far.now + 3) aig.old aig.new }
    ensures within { IfOk result (λ r. IsIn aig.new r) }
    ensures value { IfOk result (λ r. Obeyed aig.new (λ v. holds v r ≡ is_there (begin_at (holds v back) (number v far.now) each start.back start.far) t)) }
{
    let up = goes_as_far(aig, far, each, distance_up(start, t))?;
    let down = goes_as_far(aig, far, each, distance_down(start, t))?;
    pick(aig, back, down, up)
}
