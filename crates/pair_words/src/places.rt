//! Parts of a vector at a place that another vector gives.
//!
//! Each place at which a part still overlaps the vector is tried in turn: whether the index leads there is one literal, by the one
//! distance from 0 that the index has to have.

ghost use Rattle.std.specs.Prelude.{◌≡◌, ℕ, ◌+◌, ◌-◌, ◌*◌, ◌^◌, ◌<◌, ◌≤◌, ◌==◌, IfOk, true, false, length, [], map, take, drop, replicate, slice_index_or, pos, ◌+ℤ◌, if◌then◌else◌, IsTrue};
ghost use Rattle.std.specs.List.{All};
ghost use Rattle.aig.specs.Graph.{holds, IsIn};
ghost use Rattle.aig_words.specs.Words.{number, Grew, Obeyed};
ghost use Rattle.fourvec.specs.declared.Bit.TheVariants.{Unknown};
ghost use Rattle.fourvec.specs.Spots.{reached, kept_bit, dyn_slice_of, dyn_put_of};
ghost use Rattle.fourvec.specs.Bits.{each, all_x};
ghost use Rattle.pair_words.specs.Rails.{bits, IsWired, IsVector};
ghost use Rattle.pair_words.specs.Ways.{constant_pair};
ghost use Rattle.pair_words.specs.Starts.{IsPlace, picked, begin_at, padded, parts_of, laid, laid_of};

use crate::choices::{pick_vector, vector_or_x};
use crate::indexes::{Aim, Start, leads, sought};
use crate::pairs::Pair;
use crate::shifts::constant;
use crate::steps::{Step, each_place};
use aig::{Aig, Lit};
use fourvec::{Bit, Spot};
use items::Items;
use std::alloc::{AllocError, Global};

fn nth(parts: &[Items<Pair>], t: usize) -> &[Pair]
    requires { t < length parts.now }
    ensures { result.now ≡ slice_index_or parts.now t [] }
{
    parts[t].as_slice()
}

// The part to which an index leads, or another vector where it leads to none.
fn led_to(
    alloc: Global,
    aig: &mut Aig,
    back: Lit,
    far: &[Lit],
    each: u128,
    start: Start,
    parts: &[Items<Pair>],
    none: &[Pair],
) -> Result<Vec<Pair>, AllocError>
    requires node { 0 < length aig.old }
    requires near { start.far < 2 ^ 65 }
    requires back_in { IsIn aig.old back }
    requires far_in { All (IsIn aig.old) far.now }
    requires parts_in { All (IsVector aig.old (length none.now)) parts.now }
    requires none_in { All (IsWired aig.old) none.now }
    ensures grew { Grew ((2 * length far.now + 3 + 6 * length none.now) * length parts.now) aig.old aig.new }
    ensures word { IfOk result (λ r. IsVector aig.new (length none.now) r.items) }
    ensures value { IfOk result (λ r. Obeyed aig.new (λ v. bits v r.items ≡ picked (map (bits v) parts.now) (begin_at (holds v back) (number v far.now) each start.back start.far) (bits v none.now))) }
{
    let mut word = Vec::from_slice(alloc, none)?;
    for t in 0..parts.len() {
        let there = leads(aig, back, far, each, start, t as u128)?;
        word = pick_vector(alloc, aig, there, nth(parts, t), &word)?;
    }
    Ok(word)
}

// Whether an index of so many bits leads to one of the parts whatever its bits are. Then no bit is X for want of a place, and the two
// rails of a part of known bits are one.
fn always_leads(spot: &Spot, each: u8, bits: usize, start: Start, parts: usize) -> bool
    requires near { start.far < 2 ^ 65 }
    ensures plain { IsTrue result → spot.now.signed ≡ false }
    ensures first { IsTrue result → start.far < parts }
    ensures all { IsTrue result → (far : ℕ) → far < 2 ^ bits → IsPlace parts (begin_at spot.now.negate far each start.back start.far) }
{
    if spot.signed || start.back || bits > 8 || start.far >= parts as u128 {
        return false;
    }
    let most = ((1u128 << bits) - 1) * u128::from(each);
    if spot.negate {
        most <= start.far
    } else {
        start.far + most < parts as u128
    }
}

// The part to which an index leads, X where it leads to none.
fn led_part(
    alloc: Global,
    aig: &mut Aig,
    spot: &Spot,
    back: Lit,
    far: &[Lit],
    each: u128,
    start: Start,
    parts: &[Items<Pair>],
    width: usize,
) -> Result<Vec<Pair>, AllocError>
    requires node { 0 < length aig.old }
    requires near { start.far < 2 ^ 65 }
    requires each_is { each ≡ spot.now.each }
    requires back_in { IsIn aig.old back }
    requires back_is { spot.now.signed ≡ false → Obeyed aig.old (λ v. holds v back ≡ spot.now.negate) }
    requires far_in { All (IsIn aig.old) far.now }
    requires parts_in { All (IsVector aig.old width) parts.now }
    ensures grew { Grew ((2 * length far.now + 3 + 6 * width) * length parts.now) aig.old aig.new }
    ensures word { IfOk result (λ r. IsVector aig.new width r.items) }
    ensures value { IfOk result (λ r. Obeyed aig.new (λ v. bits v r.items ≡ picked (map (bits v) parts.now) (begin_at (holds v back) (number v far.now) each start.back start.far) (all_x width))) }
{
    if always_leads(spot, spot.each, far.len(), start, parts.len()) {
        let some = nth(parts, start.far as usize);
        led_to(alloc, aig, back, far, each, start, parts, some)
    } else {
        let none = padding(alloc, width)?;
        led_to(alloc, aig, back, far, each, start, parts, &none)
    }
}

// Where a part begins with an index 0, counted from the lowest place at which it still overlaps a vector.
fn start_of(spot: &Spot) -> Start
    requires { 0 < spot.now.width }
    ensures is { reached result.back result.far ≡ spot.now.add +ℤ pos (spot.now.width - 1) }
    ensures near { result.far < 2 ^ 65 }
{
    let more = u128::from(spot.width) - 1;
    let shift = spot.add.unsigned_abs() as u128;
    if spot.add >= 0 {
        Start {
            back: false,
            far: shift + more,
        }
    } else if shift <= more {
        Start {
            back: false,
            far: more - shift,
        }
    } else {
        Start {
            back: true,
            far: shift - more,
        }
    }
}

fn padding(alloc: Global, n: usize) -> Result<Vec<Pair>, AllocError>
    ensures { IfOk result (λ r. r.items ≡ replicate n (constant_pair Unknown)) }
{
    let mut word = Vec::new(alloc);
    word.resize(n, constant(Bit::Unknown))?;
    Ok(word)
}

// A vector between as many pairs X on both sides.
fn pad(alloc: Global, a: &[Pair], n: usize) -> Result<Vec<Pair>, AllocError>
    ensures { IfOk result (λ r. r.items ≡ padded n a.now) }
{
    let more = padding(alloc, n)?;
    let mut word = padding(alloc, n)?;
    word.extend_from_slice(a)?;
    word.extend_from_slice(&more)?;
    Ok(word)
}

fn part_of(alloc: Global, a: &[Pair], lo: usize, width: usize) -> Result<Vec<Pair>, AllocError>
    requires { lo + width ≤ length a.now }
    ensures { IfOk result (λ r. r.items ≡ take width (drop lo a.now)) }
{
    Vec::from_slice(alloc, &a[lo..lo + width])
}

// The parts of a width, from the lowest up.
fn all_parts(alloc: Global, a: &[Pair], width: usize) -> Result<Vec<Items<Pair>>, AllocError>
    requires { width ≤ length a.now }
    ensures { IfOk result (λ r. r.items ≡ parts_of width a.now) }
{
    let mut parts: Vec<Items<Pair>> = Vec::new(alloc);
    for t in 0..a.len() - width + 1 {
        let part = part_of(alloc, a, t, width)?;
        parts.push(Items::from_vec(part))?;
    }
    Ok(parts)
}

// The parts of a width at all places at which they still overlap a vector, from the lowest up.
fn windows(alloc: Global, a: &[Pair], width: usize) -> Result<Vec<Items<Pair>>, AllocError>
    requires some { 0 < length a.now }
    requires some_width { 0 < width }
    ensures { IfOk result (λ r. r.items ≡ parts_of width (padded (width - 1) a.now)) }
{
    let around = pad(alloc, a, width - 1)?;
    all_parts(alloc, &around, width)
}

// The same, with the numbers of the spot.
fn slice_at(
    alloc: Global,
    aig: &mut Aig,
    a: &[Pair],
    at: &[Pair],
    spot: &Spot,
    width: usize,
    each: u128,
) -> Result<Vec<Pair>, AllocError>
    requires node { 0 < length aig.old }
    requires some { 0 < length a.now }
    requires some_at { 0 < length at.now }
    requires some_width { 0 < spot.now.width }
    requires width_is { width ≡ spot.now.width }
    requires each_is { each ≡ spot.now.each }
    requires a_in { All (IsWired aig.old) a.now }
    requires at_in { All (IsWired aig.old) at.now }
    ensures grew { Grew ((2 * length at.now + 3 + 6 * width) * (length a.now + width - 1) + 14 * length at.now + 2 * width) aig.old aig.new }
    ensures word { IfOk result (λ r. IsVector aig.new width r.items) }
    ensures value { IfOk result (λ r. Obeyed aig.new (λ v. bits v r.items ≡ dyn_slice_of (bits v a.now) (bits v at.now) spot.now)) }
{
    let Aim { fine, back, far } = sought(alloc, aig, at, spot)?;
    let parts = windows(alloc, a, width)?;
    let start = start_of(spot);
    let plain = led_part(alloc, aig, spot, back, &far, each, start, &parts, width)?;
    vector_or_x(alloc, aig, fine, &plain)
}

/// The part that begins at the place of `at`, X where the vector has no bit there, and all X where `at` has an unknown bit.
pub fn dyn_slice(
    alloc: Global,
    aig: &mut Aig,
    a: &[Pair],
    at: &[Pair],
    spot: &Spot,
) -> Result<Vec<Pair>, AllocError>
    requires node { 0 < length aig.old }
    requires some { 0 < length a.now }
    requires some_at { 0 < length at.now }
    requires some_width { 0 < spot.now.width }
    requires a_in { All (IsWired aig.old) a.now }
    requires at_in { All (IsWired aig.old) at.now }
    ensures grew { (n : ℕ) → length a.now ≤ n → length at.now ≤ n → spot.now.width ≤ n → Grew (256 * n * n) aig.old aig.new }
    ensures word { IfOk result (λ r. IsVector aig.new spot.now.width r.items) }
    ensures value { IfOk result (λ r. Obeyed aig.new (λ v. bits v r.items ≡ dyn_slice_of (bits v a.now) (bits v at.now) spot.now)) }
{
    let width = usize::from(spot.width);
    slice_at(alloc, aig, a, at, spot, width, u128::from(spot.each))
}

// Each bit that equals every bit of the other vector stays, and the rest become X.
fn kept_under(
    alloc: Global,
    aig: &mut Aig,
    a: &[Pair],
    put: &[Pair],
) -> Result<Vec<Pair>, AllocError>
    requires a_in { All (IsWired aig.old) a.now }
    requires put_in { All (IsWired aig.old) put.now }
    ensures grew { Grew (11 * length a.now * length put.now) aig.old aig.new }
    ensures word { IfOk result (λ r. IsVector aig.new (length a.now) r.items) }
    ensures value { IfOk result (λ r. Obeyed aig.new (λ v. bits v r.items ≡ each (kept_bit (bits v put.now)) (bits v a.now))) }
{
    let mut word = Vec::from_slice(alloc, a)?;
    for j in 0..put.len() {
        word = each_place(alloc, aig, Step::KeepBy(put[j]), &word, &word)?;
    }
    Ok(word)
}

// The vector with another put into it where a condition is true, else what stays of it. That is not made where the condition is known.
fn put_where(
    alloc: Global,
    aig: &mut Aig,
    fine: Lit,
    plain: Vec<Pair>,
    a: &[Pair],
    put: &[Pair],
) -> Result<Vec<Pair>, AllocError>
    requires same { length plain.items ≡ length a.now }
    requires fine_in { IsIn aig.old fine }
    requires plain_in { All (IsWired aig.old) plain.items }
    requires a_in { All (IsWired aig.old) a.now }
    requires put_in { All (IsWired aig.old) put.now }
    ensures grew { Grew (11 * length a.now * length put.now + 6 * length a.now) aig.old aig.new }
    ensures word { IfOk result (λ r. IsVector aig.new (length a.now) r.items) }
    ensures value { IfOk result (λ r. Obeyed aig.new (λ v. bits v r.items ≡ (if holds v fine then bits v plain.items else each (kept_bit (bits v put.now)) (bits v a.now)))) }
{
    if fine == Lit::constant(true) {
        return Ok(plain);
    }
    let kept = kept_under(alloc, aig, a, put)?;
    pick_vector(alloc, aig, fine, &plain, &kept)
}

// A vector with another in place of a part of it, cut to n bits from place p on.
fn laid_part(
    alloc: Global,
    a: &[Pair],
    put: &[Pair],
    p: usize,
    n: usize,
    t: usize,
) -> Result<Vec<Pair>, AllocError>
    requires fits { t + length put.now ≤ length a.now }
    requires cut { p + n ≤ length a.now }
    ensures { IfOk result (λ r. r.items ≡ laid a.now put.now p n t) }
{
    let mut word = Vec::from_slice(alloc, &a[..t])?;
    word.extend_from_slice(put)?;
    word.extend_from_slice(&a[t + put.len()..])?;
    part_of(alloc, &word, p, n)
}

// The same at each place at which the other fits, from the lowest up.
fn all_laid(
    alloc: Global,
    a: &[Pair],
    put: &[Pair],
    p: usize,
    n: usize,
) -> Result<Vec<Items<Pair>>, AllocError>
    requires fits { length put.now ≤ length a.now }
    requires cut { p + n ≤ length a.now }
    ensures { IfOk result (λ r. r.items ≡ laid_of a.now put.now p n) }
{
    let mut parts: Vec<Items<Pair>> = Vec::new(alloc);
    for t in 0..a.len() - put.len() + 1 {
        let part = laid_part(alloc, a, put, p, n, t)?;
        parts.push(Items::from_vec(part))?;
    }
    Ok(parts)
}

// The vector with another in it at all places at which that still overlaps it, from the lowest up.
fn layings(alloc: Global, a: &[Pair], put: &[Pair]) -> Result<Vec<Items<Pair>>, AllocError>
    requires some { 0 < length a.now }
    requires some_put { 0 < length put.now }
    ensures { IfOk result (λ r. r.items ≡ laid_of (padded (length put.now - 1) a.now) put.now (length put.now - 1) (length a.now)) }
{
    let around = pad(alloc, a, put.len() - 1)?;
    all_laid(alloc, &around, put, put.len() - 1, a.len())
}

// The same, with the number of the spot.
fn put_at(
    alloc: Global,
    aig: &mut Aig,
    a: &[Pair],
    at: &[Pair],
    spot: &Spot,
    put: &[Pair],
    each: u128,
) -> Result<Vec<Pair>, AllocError>
    requires node { 0 < length aig.old }
    requires some { 0 < length a.now }
    requires some_at { 0 < length at.now }
    requires some_put { 0 < length put.now }
    requires wide { length put.now ≡ spot.now.width }
    requires each_is { each ≡ spot.now.each }
    requires a_in { All (IsWired aig.old) a.now }
    requires at_in { All (IsWired aig.old) at.now }
    requires put_in { All (IsWired aig.old) put.now }
    ensures grew { Grew ((2 * length at.now + 3 + 6 * length a.now) * (length a.now + length put.now - 1) + 14 * length at.now + 11 * length a.now * length put.now + 6 * length a.now) aig.old aig.new }
    ensures word { IfOk result (λ r. IsVector aig.new (length a.now) r.items) }
    ensures value { IfOk result (λ r. Obeyed aig.new (λ v. bits v r.items ≡ dyn_put_of (bits v a.now) (bits v at.now) spot.now (bits v put.now))) }
{
    let Aim { fine, back, far } = sought(alloc, aig, at, spot)?;
    let parts = layings(alloc, a, put)?;
    let start = start_of(spot);
    let plain = led_to(alloc, aig, back, &far, each, start, &parts, a)?;
    put_where(alloc, aig, fine, plain, a, put)
}

/// The vector with the bits of `put` from the place of `at` on. Where `at` has an unknown bit, a bit stays where it equals each bit
/// of `put`, and becomes X elsewhere.
pub fn dyn_put(
    alloc: Global,
    aig: &mut Aig,
    a: &[Pair],
    at: &[Pair],
    spot: &Spot,
    put: &[Pair],
) -> Result<Vec<Pair>, AllocError>
    requires node { 0 < length aig.old }
    requires some { 0 < length a.now }
    requires some_at { 0 < length at.now }
    requires some_put { 0 < length put.now }
    requires wide { length put.now ≡ spot.now.width }
    requires a_in { All (IsWired aig.old) a.now }
    requires at_in { All (IsWired aig.old) at.now }
    requires put_in { All (IsWired aig.old) put.now }
    ensures grew { (n : ℕ) → length a.now ≤ n → length at.now ≤ n → length put.now ≤ n → Grew (256 * n * n) aig.old aig.new }
    ensures word { IfOk result (λ r. IsVector aig.new (length a.now) r.items) }
    ensures value { IfOk result (λ r. Obeyed aig.new (λ v. bits v r.items ≡ dyn_put_of (bits v a.now) (bits v at.now) spot.now (bits v put.now))) }
{
    put_at(alloc, aig, a, at, spot, put, u128::from(spot.each))
}
