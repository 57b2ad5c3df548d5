//! Circuits for vectors, bit by bit: an operator on each bit or on the two bits of each place, an operator over all bits, and
//! whether all bits are known. Over all bits an operator goes from the last bit to the first; `xor` alone goes by halves, since a
//! solver does better with that. Where most of the bits are exclusive ors themselves it goes over each of their two parts, so that
//! parts which two reductions share are one literal in both.

ghost use Rattle.std.specs.Prelude.{◌≡◌, ◌*◌, ◌-◌, ◌<◌, IfOk, IfSome, IsTrue, ◌↔◌, ◌&&◌, [], length};
ghost use Rattle.std.specs.List.{All};
ghost use Rattle.aig.specs.Graph.{holds, IsIn};
ghost use Rattle.aig_words.specs.Words.{Grew, Obeyed, differ, parity_of};
ghost use Rattle.fourvec.specs.declared.Bit.{Bit};
ghost use Rattle.fourvec.specs.Bits.{each, each_pair, over, is_known, is_known_bit, truth_bit, xor_bit};
ghost use Rattle.pair_words.specs.Rails.{bit_at, bits, IsWired, IsVector, one_value, two_value, two_nodes};
ghost use Rattle.pair_words.specs.Truths.{AreParts};

use crate::pairs::{One, Pair, Two, is_same, two_bits};
use crate::steps::{Step, each_place};
use aig::{Aig, Halves, Lit};
use aig_words::{parity, xor};
use std::alloc::{AllocError, Global};

/// An operator on each bit.
pub fn on_each(alloc: Global, aig: &mut Aig, op: One, a: &[Pair]) -> Result<Vec<Pair>, AllocError>
    requires a_in { All (IsWired aig.old) a.now }
    ensures grew { Grew (2 * length a.now) aig.old aig.new }
    ensures word { IfOk result (λ r. IsVector aig.new (length a.now) r.items) }
    ensures value { IfOk result (λ r. Obeyed aig.new (λ v. bits v r.items ≡ each (one_value op) (bits v a.now))) }
{
    each_place(alloc, aig, Step::Apply(op), a, a)
}

/// An operator on each pair of bits at one place.
pub fn on_both(
    alloc: Global,
    aig: &mut Aig,
    op: Two,
    a: &[Pair],
    b: &[Pair],
) -> Result<Vec<Pair>, AllocError>
    requires same { length a.now ≡ length b.now }
    requires a_in { All (IsWired aig.old) a.now }
    requires b_in { All (IsWired aig.old) b.now }
    ensures grew { Grew (two_nodes op * length a.now) aig.old aig.new }
    ensures word { IfOk result (λ r. IsVector aig.new (length a.now) r.items) }
    ensures value { IfOk result (λ r. Obeyed aig.new (λ v. bits v r.items ≡ each_pair (two_value op) (bits v a.now) (bits v b.now))) }
{
    each_place(alloc, aig, Step::Join(op), a, b)
}

// The same in turn, from the last bit to the first.
fn over_in_turn(aig: &mut Aig, op: Two, start: Pair, a: &[Pair]) -> Result<Pair, AllocError>
    requires start_in { IsWired aig.old start }
    requires a_in { All (IsWired aig.old) a.now }
    ensures grew { Grew (two_nodes op * length a.now) aig.old aig.new }
    ensures within { IfOk result (λ r. IsWired aig.new r) }
    ensures value { IfOk result (λ r. Obeyed aig.new (λ v. bit_at v r ≡ over (two_value op) (bit_at v start) (bits v a.now))) }
{
    let mut last = start;
    for i in 0..a.len() {
        last = two_bits(aig, op, a[a.len() - 1 - i], last)?;
    }
    Ok(last)
}

// One bit that does for some bits what these do one after another. It is made of halves, so that it is a tree of few levels: a
// solver finds sums of the same bits in other orders sooner where no chain of them is long.
fn pair_parity(aig: &mut Aig, a: &[Pair]) -> Result<Pair, AllocError>
    requires some { 0 < length a.now }
    requires a_in { All (IsWired aig.old) a.now }
    ensures grew { Grew (10 * (length a.now - 1)) aig.old aig.new }
    ensures within { IfOk result (λ r. IsWired aig.new r) }
    ensures value { IfOk result (λ r. Obeyed aig.new (λ v. (rest : Bit) → xor_bit (bit_at v r) rest ≡ over xor_bit rest (bits v a.now))) }
{
    if a.len() == 1 {
        return Ok(a[0]);
    }
    let half = a.len() / 2;
    let first = pair_parity(aig, &a[..half])?;
    let second = pair_parity(aig, &a[half..])?;
    two_bits(aig, Two::Xor, first, second)
}

// Whether the bit is known: both of its literals are one.
fn is_plain(p: &Pair) -> bool
    ensures { IsTrue result ↔ (p.now.up ≡ p.now.low) }
{
    is_same(p.up, p.low)
}

// Whether each bit is known.
fn are_plain(a: &[Pair]) -> bool
    ensures { IsTrue result ↔ All (λ p. p.up ≡ p.low) a.now }
{
    a.iter().all(|p| is_plain(p))
}

// Whether more of the bits that are no constants are exclusive ors than are none.
fn are_sums(aig: &Aig, a: &[Pair]) -> bool
    requires a_in { All (IsWired aig.now) a.now }
{
    let mut sums: usize = 0;
    let mut others: usize = 0;
    for i in 0..a.len() {
        let bit = a[i].up;
        if aig.halves(bit).is_some() {
            sums = sums.saturating_add(1);
        } else if bit.node != 0 {
            others = others.saturating_add(1);
        }
    }
    others < sums
}

// Two literals whose exclusive or is the given one: its halves, or itself and the constant false.
fn split(aig: &Aig, a: Lit) -> Halves
    requires { IsIn aig.now a }
    ensures first { IsIn aig.now result.first }
    ensures second { IsIn aig.now result.second }
    ensures value { Obeyed aig.now (λ v. holds v a ≡ differ (holds v result.first) (holds v result.second)) }
{
    match aig.halves(a) {
        Some(h) => h,
        None => Halves {
            first: a,
            second: Lit::constant(false),
        },
    }
}

// Two words, at each place of which stand literals whose exclusive or is a bit.
struct Parts {
    first: Vec<Lit>,
    second: Vec<Lit>,
}

impl Drop for Parts {
    fn drop(self) {
        let Parts {
            first: _,
            second: _,
        } = self;
    }
}

// Puts the parts of each bit to two words.
fn split_all(
    aig: &Aig,
    a: &[Pair],
    first: &mut Vec<Lit>,
    second: &mut Vec<Lit>,
) -> Result<(), AllocError>
    requires a_in { All (IsWired aig.now) a.now }
    requires no_first { first.old.items ≡ [] }
    requires no_second { second.old.items ≡ [] }
    ensures { IfOk result (λ _. AreParts aig.now a.now first.new.items second.new.items) }
{
    for i in 0..a.len() {
        let halves = split(aig, a[i].up);
        first.push(halves.first)?;
        second.push(halves.second)?;
    }
    Ok(())
}

// The parts of known bits, where most of them are exclusive ors.
fn parts_of(alloc: Global, aig: &Aig, a: &[Pair]) -> Result<Option<Parts>, AllocError>
    requires a_in { All (IsWired aig.now) a.now }
    ensures several { IfOk result (λ o. IfSome o (λ p. 1 < length a.now)) }
    ensures parts { IfOk result (λ o. IfSome o (λ p. AreParts aig.now a.now p.first.items p.second.items)) }
    ensures value { IfOk result (λ o. IfSome o (λ p. Obeyed aig.now (λ v. (rest : Bit) → xor_bit (truth_bit (differ (parity_of v p.first.items) (parity_of v p.second.items))) rest ≡ over xor_bit rest (bits v a.now)))) }
{
    if a.len() < 2 || !are_plain(a) || !are_sums(aig, a) {
        return Ok(None);
    }
    let mut first = Vec::new(alloc);
    let mut second = Vec::new(alloc);
    split_all(aig, a, &mut first, &mut second)?;
    Ok(Some(Parts { first, second }))
}

// The exclusive or of all literals of two words, as a known bit.
fn parity_of_both(aig: &mut Aig, first: &[Lit], second: &[Lit]) -> Result<Pair, AllocError>
    requires some { 0 < length first.now }
    requires same { length first.now ≡ length second.now }
    requires first_in { All (IsIn aig.old) first.now }
    requires second_in { All (IsIn aig.old) second.now }
    ensures grew { Grew (6 * length first.now - 3) aig.old aig.new }
    ensures within { IfOk result (λ r. IsWired aig.new r) }
    ensures value { IfOk result (λ r. Obeyed aig.new (λ v. bit_at v r ≡ truth_bit (differ (parity_of v first.now) (parity_of v second.now)))) }
{
    let one = parity(aig, first)?;
    let other = parity(aig, second)?;
    let all = xor(aig, one, other)?;
    Ok(Pair { up: all, low: all })
}

// The same as `pair_parity`, by the parts of the bits where these have some.
fn sum_of(aig: &mut Aig, a: &[Pair]) -> Result<Pair, AllocError>
    requires some { 0 < length a.now }
    requires a_in { All (IsWired aig.old) a.now }
    ensures grew { Grew (10 * (length a.now - 1)) aig.old aig.new }
    ensures within { IfOk result (λ r. IsWired aig.new r) }
    ensures value { IfOk result (λ r. Obeyed aig.new (λ v. (rest : Bit) → xor_bit (bit_at v r) rest ≡ over xor_bit rest (bits v a.now))) }
{
    let alloc = aig.allocator();
    match parts_of(alloc, aig, a)? {
        Some(parts) => parity_of_both(aig, &parts.first, &parts.second),
        None => pair_parity(aig, a),
    }
}

// The operator `xor` over all bits, from a bit on.
fn xor_all(aig: &mut Aig, start: Pair, a: &[Pair]) -> Result<Pair, AllocError>
    requires start_in { IsWired aig.old start }
    requires a_in { All (IsWired aig.old) a.now }
    ensures grew { Grew (10 * length a.now) aig.old aig.new }
    ensures within { IfOk result (λ r. IsWired aig.new r) }
    ensures value { IfOk result (λ r. Obeyed aig.new (λ v. bit_at v r ≡ over xor_bit (bit_at v start) (bits v a.now))) }
{
    if a.is_empty() {
        return Ok(start);
    }
    let all = sum_of(aig, a)?;
    two_bits(aig, Two::Xor, all, start)
}

/// An operator over all bits, from a bit on.
pub fn over_all(aig: &mut Aig, op: Two, start: Pair, a: &[Pair]) -> Result<Pair, AllocError>
    requires start_in { IsWired aig.old start }
    requires a_in { All (IsWired aig.old) a.now }
    ensures grew { Grew (two_nodes op * length a.now) aig.old aig.new }
    ensures within { IfOk result (λ r. IsWired aig.new r) }
    ensures value { IfOk result (λ r. Obeyed aig.new (λ v. bit_at v r ≡ over (two_value op) (bit_at v start) (bits v a.now))) }
{
    match op {
        Two::Xor => xor_all(aig, start, a),
        _ => over_in_turn(aig, op, start, a),
    }
}

// Whether a bit is known, and all that come after it are.
fn known_bit(aig: &mut Aig, a: Pair, last: Lit) -> Result<Lit, AllocError>
    requires a_in { IsWired aig.old a }
    requires last_in { IsIn aig.old last }
    ensures grew { Grew 4 aig.old aig.new }
    ensures within { IfOk result (λ r. IsIn aig.new r) }
    ensures value { IfOk result (λ r. Obeyed aig.new (λ v. holds v r ≡ (is_known_bit (bit_at v a) && holds v last))) }
{
    let apart = xor(aig, a.up, a.low)?;
    aig.and(!apart, last)
}

/// Whether no bit is unknown.
pub fn known(aig: &mut Aig, a: &[Pair]) -> Result<Lit, AllocError>
    requires node { 0 < length aig.old }
    requires a_in { All (IsWired aig.old) a.now }
    ensures grew { Grew (4 * length a.now) aig.old aig.new }
    ensures within { IfOk result (λ r. IsIn aig.new r) }
    ensures value { IfOk result (λ r. Obeyed aig.new (λ v. holds v r ≡ is_known (bits v a.now))) }
{
    let mut last = Lit::constant(true);
    for i in 0..a.len() {
        last = known_bit(aig, a[a.len() - 1 - i], last)?;
    }
    Ok(last)
}
