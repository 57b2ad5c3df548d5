//! Circuits for arithmetic and comparisons. The upper rails of two vectors are words of which aig_words makes the result, and one literal
//! tells whether all bits are known and the result is defined: without it each bit of the result is X. Of vectors whose rails are the
//! same literals that literal is true, and no gate is made but those of the words.

ghost use Rattle.std.specs.Prelude.{◌≡◌, ◌+◌, ◌-◌, ◌*◌, ◌/◌, ◌%◌, ◌^◌, ◌<◌, IfOk, Ok, nat_lt, unsigned_abs, ◌&&◌, true, false, [], ◌∷◌, length, map, replicate, if◌then◌else◌};
ghost use Rattle.aig.specs.declared.gate.Lit.{Lit};
ghost use Rattle.std.specs.List.{All};
ghost use Rattle.aig.specs.Graph.{holds, constant_lit, IsIn};
ghost use Rattle.aig_words.specs.Words.{number, Grew, IsWord, Obeyed, differ};
ghost use Rattle.fourvec.specs.Bits as vectors;
ghost use Rattle.fourvec.specs.Bits.{is_known, all_x, vector, neg_of, sdiv_of, srem_of};
ghost use Rattle.pair_words.specs.Rails.{bits, IsWired, IsVector};
ghost use Rattle.pair_words.specs.Truths.{truths, known_pair, number_value, number_width, is_defined};

use crate::choices::vector_or_x;
use crate::pairs::Pair;
use crate::vectors::known;
use aig::{Aig, Lit};
use aig_words::{add, div, lt, mul, mux, rem, slt, sub, xor};
use std::alloc::{AllocError, Global};

/// An operator on two vectors that stand for numbers: where a bit of them is unknown, each bit of the result is X.
#[derive(Clone, Copy)]
pub enum Number {
    Add,
    Sub,
    Mul,
    Div,
    Rem,
    Sdiv,
    Srem,
    Lt,
    Slt,
}

/// The upper rail.
pub fn uppers(alloc: Global, a: &[Pair]) -> Result<Vec<Lit>, AllocError>
    ensures { IfOk result (λ r. r.items ≡ map (λ p. p.up) a.now) }
{
    let mut word = Vec::new(alloc);
    for i in 0..a.len() {
        word.push(a[i].up)?;
    }
    Ok(word)
}

fn zeros(alloc: Global, n: usize) -> Result<Vec<Lit>, AllocError>
    ensures { IfOk result (λ r. r.items ≡ replicate n (constant_lit false)) }
{
    let mut word = Vec::new(alloc);
    word.resize(n, Lit::constant(false))?;
    Ok(word)
}

// The pairs whose rails are both the literals of a word.
fn pairs_of(alloc: Global, word: &[Lit]) -> Result<Vec<Pair>, AllocError>
    ensures { IfOk result (λ r. r.items ≡ map known_pair word.now) }
{
    let mut vector = Vec::new(alloc);
    for i in 0..word.len() {
        let both = word[i];
        vector.push(Pair {
            up: both,
            low: both,
        })?;
    }
    Ok(vector)
}

// The vector of a word where a condition is true, else all X.
fn guarded(alloc: Global, aig: &mut Aig, c: Lit, word: &[Lit]) -> Result<Vec<Pair>, AllocError>
    requires c_in { IsIn aig.old c }
    requires word_in { All (IsIn aig.old) word.now }
    ensures grew { Grew (2 * length word.now) aig.old aig.new }
    ensures word { IfOk result (λ r. IsVector aig.new (length word.now) r.items) }
    ensures value { IfOk result (λ r. Obeyed aig.new (λ v. bits v r.items ≡ (if holds v c then truths v word.now else all_x (length word.now)))) }
{
    let vector = pairs_of(alloc, word)?;
    vector_or_x(alloc, aig, c, &vector)
}

// The two's complement of a number.
fn opposite(alloc: Global, aig: &mut Aig, a: &[Lit]) -> Result<Vec<Lit>, AllocError>
    requires some { 0 < length a.now }
    requires a_in { All (IsIn aig.old) a.now }
    ensures grew { Grew (7 * length a.now) aig.old aig.new }
    ensures word { IfOk result (λ r. IsWord aig.new (length a.now) r.items) }
    ensures value { IfOk result (λ r. Obeyed aig.new (λ v. number v r.items ≡ (2 ^ length a.now - number v a.now) % 2 ^ length a.now)) }
{
    let none = zeros(alloc, a.len())?;
    sub(alloc, aig, &none, a)
}

/// The number, or its two's complement where a condition is true.
pub fn turned(alloc: Global, aig: &mut Aig, c: Lit, a: &[Lit]) -> Result<Vec<Lit>, AllocError>
    requires some { 0 < length a.now }
    requires c_in { IsIn aig.old c }
    requires a_in { All (IsIn aig.old) a.now }
    ensures grew { Grew (10 * length a.now) aig.old aig.new }
    ensures word { IfOk result (λ r. IsWord aig.new (length a.now) r.items) }
    ensures value { IfOk result (λ r. Obeyed aig.new (λ v. truths v r.items ≡ (if holds v c then neg_of (truths v a.now) else truths v a.now))) }
{
    let other = opposite(alloc, aig, a)?;
    mux(alloc, aig, c, &other, a)
}

// How far a number in two's complement is from 0.
fn magnitude(alloc: Global, aig: &mut Aig, a: &[Lit]) -> Result<Vec<Lit>, AllocError>
    requires some { 0 < length a.now }
    requires a_in { All (IsIn aig.old) a.now }
    ensures grew { Grew (10 * length a.now) aig.old aig.new }
    ensures word { IfOk result (λ r. IsWord aig.new (length a.now) r.items) }
    ensures value { IfOk result (λ r. Obeyed aig.new (λ v. number v r.items ≡ unsigned_abs (vectors.signed (truths v a.now)))) }
{
    turned(alloc, aig, a[a.len() - 1], a)
}

// The quotient of two distances from 0, turned where one of two signs is set.
fn quotient_by_signs(
    alloc: Global,
    aig: &mut Aig,
    sign: Lit,
    other: Lit,
    first: &[Lit],
    second: &[Lit],
) -> Result<Vec<Lit>, AllocError>
    requires some { 0 < length first.now }
    requires same { length first.now ≡ length second.now }
    requires first_in { All (IsIn aig.old) first.now }
    requires second_in { All (IsIn aig.old) second.now }
    requires sign_in { IsIn aig.old sign }
    requires other_in { IsIn aig.old other }
    ensures grew { Grew (11 * length first.now * length first.now + 3 + 10 * length first.now) aig.old aig.new }
    ensures word { IfOk result (λ r. IsWord aig.new (length first.now) r.items) }
    ensures value { IfOk result (λ r. Obeyed aig.new (λ v. 0 < number v second.now
        → truths v r.items ≡ (if differ (holds v sign) (holds v other) then neg_of (vector (length first.now) (number v first.now / number v second.now)) else (vector (length first.now) (number v first.now / number v second.now))))) }
{
    let plain = div(alloc, aig, first, second)?;
    let apart = xor(aig, sign, other)?;
    turned(alloc, aig, apart, &plain)
}

fn signed_quotient(
    alloc: Global,
    aig: &mut Aig,
    a: &[Lit],
    b: &[Lit],
) -> Result<Vec<Lit>, AllocError>
    requires some { 0 < length a.now }
    requires same { length a.now ≡ length b.now }
    requires a_in { All (IsIn aig.old) a.now }
    requires b_in { All (IsIn aig.old) b.now }
    ensures grew { Grew (11 * length a.now * length a.now + 40 * length a.now) aig.old aig.new }
    ensures word { IfOk result (λ r. IsWord aig.new (length a.now) r.items) }
    ensures value { IfOk result (λ r. Obeyed aig.new (λ v. 0 < number v b.now → truths v r.items ≡ sdiv_of (truths v a.now) (truths v b.now))) }
{
    let first = magnitude(alloc, aig, a)?;
    let second = magnitude(alloc, aig, b)?;
    quotient_by_signs(alloc, aig, a[a.len() - 1], b[b.len() - 1], &first, &second)
}

// What is left over by a division of two distances from 0, turned where a sign is set.
fn rest_by_sign(
    alloc: Global,
    aig: &mut Aig,
    sign: Lit,
    first: &[Lit],
    second: &[Lit],
) -> Result<Vec<Lit>, AllocError>
    requires some { 0 < length first.now }
    requires same { length first.now ≡ length second.now }
    requires first_in { All (IsIn aig.old) first.now }
    requires second_in { All (IsIn aig.old) second.now }
    requires sign_in { IsIn aig.old sign }
    ensures grew { Grew (11 * length first.now * length first.now + 10 * length first.now) aig.old aig.new }
    ensures word { IfOk result (λ r. IsWord aig.new (length first.now) r.items) }
    ensures value { IfOk result (λ r. Obeyed aig.new (λ v. 0 < number v second.now
        → truths v r.items ≡ (if holds v sign then neg_of (vector (length first.now) (number v first.now % number v second.now)) else (vector (length first.now) (number v first.now % number v second.now))))) }
{
    let plain = rem(alloc, aig, first, second)?;
    turned(alloc, aig, sign, &plain)
}

fn signed_rest(alloc: Global, aig: &mut Aig, a: &[Lit], b: &[Lit]) -> Result<Vec<Lit>, AllocError>
    requires some { 0 < length a.now }
    requires same { length a.now ≡ length b.now }
    requires a_in { All (IsIn aig.old) a.now }
    requires b_in { All (IsIn aig.old) b.now }
    ensures grew { Grew (11 * length a.now * length a.now + 40 * length a.now) aig.old aig.new }
    ensures word { IfOk result (λ r. IsWord aig.new (length a.now) r.items) }
    ensures value { IfOk result (λ r. Obeyed aig.new (λ v. 0 < number v b.now → truths v r.items ≡ srem_of (truths v a.now) (truths v b.now))) }
{
    let first = magnitude(alloc, aig, a)?;
    let second = magnitude(alloc, aig, b)?;
    rest_by_sign(alloc, aig, a[a.len() - 1], &first, &second)
}

// The word of one literal, if there is one.
fn single(alloc: Global, bit: Result<Lit, AllocError>) -> Result<Vec<Lit>, AllocError>
    ensures { IfOk result (λ r. (l : Lit) × (bit ≡ Ok l) × (r.items ≡ l ∷ [])) }
{
    let bit = bit?;
    let mut word = Vec::new(alloc);
    word.push(bit)?;
    Ok(word)
}

// The operator on words of known bits. Where its second number has no result the word is any bits.
fn computed(
    alloc: Global,
    aig: &mut Aig,
    op: Number,
    a: &[Lit],
    b: &[Lit],
) -> Result<Vec<Lit>, AllocError>
    requires some { 0 < length a.now }
    requires same { length a.now ≡ length b.now }
    requires a_in { All (IsIn aig.old) a.now }
    requires b_in { All (IsIn aig.old) b.now }
    ensures grew { Grew (100 * length a.now * length a.now) aig.old aig.new }
    ensures word { IfOk result (λ r. IsWord aig.new (number_width op (length a.now)) r.items) }
    ensures value { IfOk result (λ r. Obeyed aig.new (λ v. is_defined op (number v b.now) ≡ true → truths v r.items ≡ number_value op (truths v a.now) (truths v b.now))) }
{
    match op {
        Number::Add => add(alloc, aig, a, b),
        Number::Sub => sub(alloc, aig, a, b),
        Number::Mul => mul(alloc, aig, a, b),
        Number::Div => div(alloc, aig, a, b),
        Number::Rem => rem(alloc, aig, a, b),
        Number::Sdiv => signed_quotient(alloc, aig, a, b),
        Number::Srem => signed_rest(alloc, aig, a, b),
        Number::Lt => single(alloc, lt(aig, a, b)),
        Number::Slt => single(alloc, slt(aig, a, b)),
    }
}

// Whether the operator has a result at this second number.
fn defined(alloc: Global, aig: &mut Aig, op: Number, b: &[Lit]) -> Result<Lit, AllocError>
    requires some { 0 < length b.now }
    requires b_in { All (IsIn aig.old) b.now }
    ensures grew { Grew (4 * length b.now) aig.old aig.new }
    ensures within { IfOk result (λ r. IsIn aig.new r) }
    ensures value { IfOk result (λ r. Obeyed aig.new (λ v. holds v r ≡ is_defined op (number v b.now))) }
{
    match op {
        Number::Div => some(alloc, aig, b),
        Number::Rem => some(alloc, aig, b),
        Number::Sdiv => some(alloc, aig, b),
        Number::Srem => some(alloc, aig, b),
        _ => Ok(Lit::constant(true)),
    }
}

/// Whether the number is not 0.
pub fn some(alloc: Global, aig: &mut Aig, b: &[Lit]) -> Result<Lit, AllocError>
    requires some { 0 < length b.now }
    requires b_in { All (IsIn aig.old) b.now }
    ensures grew { Grew (4 * length b.now) aig.old aig.new }
    ensures within { IfOk result (λ r. IsIn aig.new r) }
    ensures value { IfOk result (λ r. Obeyed aig.new (λ v. holds v r ≡ nat_lt 0 (number v b.now))) }
{
    let none = zeros(alloc, b.len())?;
    lt(aig, &none, b)
}

// Whether no bit of two vectors is unknown.
fn both_known(aig: &mut Aig, a: &[Pair], b: &[Pair]) -> Result<Lit, AllocError>
    requires node { 0 < length aig.old }
    requires a_in { All (IsWired aig.old) a.now }
    requires b_in { All (IsWired aig.old) b.now }
    ensures grew { Grew (4 * length a.now + 4 * length b.now + 1) aig.old aig.new }
    ensures within { IfOk result (λ r. IsIn aig.new r) }
    ensures value { IfOk result (λ r. Obeyed aig.new (λ v. holds v r ≡ (is_known (bits v a.now) && is_known (bits v b.now)))) }
{
    let first = known(aig, a)?;
    let second = known(aig, b)?;
    aig.and(first, second)
}

// The operator on words of known bits, where a condition is true and it has a result, else all X.
fn guarded_number(
    alloc: Global,
    aig: &mut Aig,
    op: Number,
    c: Lit,
    a: &[Lit],
    b: &[Lit],
) -> Result<Vec<Pair>, AllocError>
    requires some { 0 < length a.now }
    requires same { length a.now ≡ length b.now }
    requires c_in { IsIn aig.old c }
    requires a_in { All (IsIn aig.old) a.now }
    requires b_in { All (IsIn aig.old) b.now }
    ensures grew { Grew (100 * length a.now * length a.now + 6 * length a.now + 1) aig.old aig.new }
    ensures word { IfOk result (λ r. IsVector aig.new (number_width op (length a.now)) r.items) }
    ensures value { IfOk result (λ r. Obeyed aig.new (λ v. bits v r.items
        ≡ (if holds v c && is_defined op (number v b.now)
        then number_value op (truths v a.now) (truths v b.now)
        else all_x (number_width op (length a.now))))) }
{
    let fine = defined(alloc, aig, op, b)?;
    let all = aig.and(c, fine)?;
    let word = computed(alloc, aig, op, a, b)?;
    guarded(alloc, aig, all, &word)
}

/// An operator on two vectors that stand for numbers.
pub fn on_numbers(
    alloc: Global,
    aig: &mut Aig,
    op: Number,
    a: &[Pair],
    b: &[Pair],
) -> Result<Vec<Pair>, AllocError>
    requires some { 0 < length a.now }
    requires same { length a.now ≡ length b.now }
    requires a_in { All (IsWired aig.old) a.now }
    requires b_in { All (IsWired aig.old) b.now }
    ensures grew { Grew (100 * length a.now * length a.now + 20 * length a.now) aig.old aig.new }
    ensures word { IfOk result (λ r. IsVector aig.new (number_width op (length a.now)) r.items) }
    ensures value { IfOk result (λ r. Obeyed aig.new (λ v. bits v r.items ≡ number_value op (bits v a.now) (bits v b.now))) }
{
    let both = both_known(aig, a, b)?;
    let x = uppers(alloc, a)?;
    let y = uppers(alloc, b)?;
    guarded_number(alloc, aig, op, both, &x, &y)
}
