//! Constant vectors, and vectors whose bits move: by each bit of a count in turn, lowest first, the bits move by its weight or stay. What
//! comes in at the end is 0 or a copy of the top bit, and X and Z move as they are, so pairs move, and not the words of aig_words.

ghost use Rattle.std.specs.Prelude.{◌≡◌, ℕ, ◌^◌, ◌+◌, ◌-◌, ◌*◌, ◌<◌, ◌≤◌, IfOk, length, min, if◌then◌else◌};
ghost use Rattle.std.specs.List.{All};
ghost use Rattle.aig.specs.Graph.{holds, IsIn};
ghost use Rattle.aig_words.specs.Words.{number, Grew, IsWord, Obeyed};
ghost use Rattle.fourvec.specs.Bits as vectors;
ghost use Rattle.fourvec.specs.Bits.{is_known, all_x};
ghost use Rattle.pair_words.specs.Rails.{bits, IsWired, IsVector};
ghost use Rattle.pair_words.specs.Ways.{constants, constant_pair, moved, moved_bits, FillsFrom};

use crate::choices::{pick_vector, vector_or_x};
use crate::numbers::{some, uppers};
use crate::pairs::Pair;
use crate::vectors::known;
use aig::{Aig, Lit};
use fourvec::Bit;
use std::alloc::{AllocError, Global};

/// Where bits move: up, with 0 for what comes in, or down, with a pair for what comes in.
#[derive(Clone, Copy)]
pub enum Way {
    Up,
    Down(Pair),
}

fn constants(up: bool, low: bool) -> Pair
    ensures { result ≡ constants up low }
{
    Pair {
        up: Lit::constant(up),
        low: Lit::constant(low),
    }
}

/// The pair that stands for a bit.
pub fn constant(bit: Bit) -> Pair
    ensures { result ≡ constant_pair bit }
{
    match bit {
        Bit::Zero => constants(false, false),
        Bit::One => constants(true, true),
        Bit::Unknown => constants(true, false),
        Bit::Floating => constants(false, true),
    }
}

// Every pair moved by k places.
fn move_by(alloc: Global, way: Way, a: &[Pair], k: usize) -> Result<Vec<Pair>, AllocError>
    requires { k ≤ length a.now }
    ensures { IfOk result (λ r. r.items ≡ moved way k a.now) }
{
    match way {
        Way::Up => {
            let mut word = Vec::new(alloc);
            word.resize(k, constant(Bit::Zero))?;
            word.extend_from_slice(&a[..a.len() - k])?;
            Ok(word)
        }
        Way::Down(fill) => {
            let mut word = Vec::from_slice(alloc, &a[k..])?;
            word.resize(a.len(), fill)?;
            Ok(word)
        }
    }
}

// Twice a distance, at most the length.
fn doubled(k: usize, most: usize) -> usize
    requires { k ≤ most }
    ensures { result ≡ min (2 * k) most }
{
    if k <= most - k { k + k } else { most }
}

// The vector, moved by k places where a condition is true.
fn moved_where(
    alloc: Global,
    aig: &mut Aig,
    way: Way,
    a: &[Pair],
    k: usize,
    c: Lit,
) -> Result<Vec<Pair>, AllocError>
    requires far { k ≤ length a.now }
    requires node { 0 < length aig.old }
    requires way_in { FillsFrom aig.old way }
    requires a_in { All (IsWired aig.old) a.now }
    requires c_in { IsIn aig.old c }
    ensures grew { Grew (6 * length a.now) aig.old aig.new }
    ensures word { IfOk result (λ r. IsVector aig.new (length a.now) r.items) }
    ensures value { IfOk result (λ r. Obeyed aig.new (λ v. bits v r.items ≡ (if holds v c then moved_bits v way k (bits v a.now) else bits v a.now))) }
{
    let moved = move_by(alloc, way, a, k)?;
    pick_vector(alloc, aig, c, &moved, a)
}

// The vector moved by the number of a word: by each bit's weight in turn.
fn shifted(
    alloc: Global,
    aig: &mut Aig,
    way: Way,
    a: &[Pair],
    b: &[Lit],
) -> Result<Vec<Pair>, AllocError>
    requires some { 0 < length a.now }
    requires way_in { FillsFrom aig.old way }
    requires a_in { All (IsWired aig.old) a.now }
    requires b_in { All (IsIn aig.old) b.now }
    ensures grew { Grew (6 * length a.now * length b.now) aig.old aig.new }
    ensures word { IfOk result (λ r. IsVector aig.new (length a.now) r.items) }
    ensures value { IfOk result (λ r. Obeyed aig.new (λ v. bits v r.items ≡ moved_bits v way (number v b.now) (bits v a.now))) }
{
    let mut word = Vec::from_slice(alloc, a)?;
    let mut k: usize = 1;
    for j in 0..b.len() {
        word = moved_where(alloc, aig, way, &word, k, b[j])?;
        k = doubled(k, a.len());
    }
    Ok(word)
}

// The least number of bits in which a number as great as this one fits, counting by powers of 2 up to it.
fn stages(most: usize) -> usize
    requires { 0 < most }
    ensures { most ≤ 2 ^ result }
{
    let mut k: usize = 1;
    for n in 0..64 {
        if most <= k {
            return n;
        }
        k = doubled(k, most);
    }
    64
}

// The lowest n bits of a word, and above them whether some higher bit is 1: as good a distance for what moves by 2 ^ n at most.
fn capped(alloc: Global, aig: &mut Aig, b: &[Lit], n: usize) -> Result<Vec<Lit>, AllocError>
    requires more { n < length b.now }
    requires b_in { All (IsIn aig.old) b.now }
    ensures grew { Grew (4 * length b.now) aig.old aig.new }
    ensures word { IfOk result (λ r. IsWord aig.new (n + 1) r.items) }
    ensures value { IfOk result (λ r. Obeyed aig.new (λ v. (most : ℕ) → most ≤ 2 ^ n → min (number v r.items) most ≡ min (number v b.now) most)) }
{
    let far = some(alloc, aig, &b[n..])?;
    let mut word = Vec::from_slice(alloc, &b[..n])?;
    word.push(far)?;
    Ok(word)
}

// The vector moved by the number of a word. A bit of the word whose weight is past the vector's length moves all out, so those bits
// are taken together.
fn moved_far(
    alloc: Global,
    aig: &mut Aig,
    way: Way,
    a: &[Pair],
    b: &[Lit],
) -> Result<Vec<Pair>, AllocError>
    requires some { 0 < length a.now }
    requires way_in { FillsFrom aig.old way }
    requires a_in { All (IsWired aig.old) a.now }
    requires b_in { All (IsIn aig.old) b.now }
    ensures grew { Grew (6 * length a.now * length b.now + 4 * length b.now) aig.old aig.new }
    ensures word { IfOk result (λ r. IsVector aig.new (length a.now) r.items) }
    ensures value { IfOk result (λ r. Obeyed aig.new (λ v. bits v r.items ≡ moved_bits v way (number v b.now) (bits v a.now))) }
{
    let near = stages(a.len());
    if b.len() <= near {
        return shifted(alloc, aig, way, a, b);
    }
    let by = capped(alloc, aig, b, near)?;
    shifted(alloc, aig, way, a, &by)
}

/// The vector moved by the number of another, all X where that has an unknown bit.
pub fn shift(
    alloc: Global,
    aig: &mut Aig,
    way: Way,
    a: &[Pair],
    b: &[Pair],
) -> Result<Vec<Pair>, AllocError>
    requires some { 0 < length a.now }
    requires node { 0 < length aig.old }
    requires way_in { FillsFrom aig.old way }
    requires a_in { All (IsWired aig.old) a.now }
    requires b_in { All (IsWired aig.old) b.now }
    ensures grew { Grew (6 * length a.now * length b.now + 8 * length b.now + 2 * length a.now) aig.old aig.new }
    ensures word { IfOk result (λ r. IsVector aig.new (length a.now) r.items) }
    ensures value { IfOk result (λ r. Obeyed aig.new (λ v. bits v r.items ≡ (if is_known (bits v b.now) then moved_bits v way (vectors.number (bits v b.now)) (bits v a.now) else all_x (length a.now)))) }
{
    let fine = known(aig, b)?;
    let by = uppers(alloc, b)?;
    let plain = moved_far(alloc, aig, way, a, &by)?;
    vector_or_x(alloc, aig, fine, &plain)
}
