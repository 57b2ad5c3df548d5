//! Vectors whose bits are known, with one literal for both rails. Whether no bit of a node can be unknown is told by its shape and by
//! the vectors of its children. Its circuit was made for each rail by itself, and gives the same gates for both; which it is by the value
//! of the node is one rail's literal, so the upper rail stands for both.

ghost use Rattle.std.specs.Prelude.{◌≡◌, ◌-◌, ◌*◌, ◌^◌, ◌<◌, ◌≤◌, ◌&&◌, true, false, IfOk, length, map, unsigned_abs, if◌then◌else◌};
ghost use Rattle.std.specs.List.{All};
ghost use Rattle.aig_words.specs.Words.{Grew, Obeyed};
ghost use Rattle.svex_shape.specs.Shapes.{ChildrenBelow, OnChildren, FitsWidths, width_of};
ghost use Rattle.svex_shape.specs.Values.{value_of};
ghost use Rattle.pair_words.specs.Rails.{bits, IsWired, IsVector};
ghost use Rattle.svex_blast.specs.Sizes.{gates_of};
ghost use Rattle.svex_blast.specs.Reads.{reading_at, word_in, IsReady};
ghost use Rattle.svex_blast.specs.Knowns.{keeps_known, lies_inside, always_inside, known_of, is_declared, is_twin, are_twins, twin_of};

use crate::nodes::{node_vector, vector_of};
use aig::Aig;
use fourvec::Spot;
use items::Items;
use pair_words::Pair;
use std::alloc::{AllocError, Global};
use svex_arena::{Bin, Node, Shape, VarName};

fn is_twin(p: Pair) -> bool
    ensures { result ≡ is_twin p }
{
    p.up.node == p.low.node && p.up.negated == p.low.negated
}

fn are_twins(word: &[Pair]) -> bool
    ensures { result ≡ are_twins word.now }
{
    word.iter().all(|p| is_twin(*p))
}

fn twin(done: &[Items<Pair>], node: Node) -> bool
    requires { node < length done.now }
    ensures { result ≡ are_twins (word_in done.now node) }
{
    are_twins(vector_of(done, node))
}

fn keeps_known(op: &Bin) -> bool
    ensures { result ≡ keeps_known op.now }
{
    !matches!(op, Bin::Div | Bin::Rem | Bin::Sdiv | Bin::Srem | Bin::Res)
}

fn kept(op: &Bin, done: &[Items<Pair>], a: Node, b: Node) -> bool
    requires a_there { a < length done.now }
    requires b_there { b < length done.now }
    ensures { result ≡ (keeps_known op.now && (are_twins (word_in done.now a) && are_twins (word_in done.now b))) }
{
    keeps_known(op) && twin(done, a) && twin(done, b)
}

fn three(done: &[Items<Pair>], c: Node, a: Node, b: Node) -> bool
    requires c_there { c < length done.now }
    requires a_there { a < length done.now }
    requires b_there { b < length done.now }
    ensures { result ≡ (are_twins (word_in done.now c) && (are_twins (word_in done.now a) && are_twins (word_in done.now b))) }
{
    twin(done, c) && twin(done, a) && twin(done, b)
}

// Whether a part lies in a vector with the index 0, and with the greatest index, which moves it so much up or down.
fn lies_inside(negate: bool, most: u128, from: u128, width: u8, wide: usize) -> bool
    requires some_room { most < 2 ^ 64 }
    requires near { from ≤ 2 ^ 64 }
    ensures { result ≡ lies_inside negate most from width wide }
{
    if negate {
        most <= from && from + u128::from(width) <= wide as u128
    } else {
        most + from + u128::from(width) <= wide as u128
    }
}

// How far from that of 0 the greatest index of so many bits leads.
fn greatest(each: u8, bits: usize) -> u128
    requires { bits < 9 }
    ensures is { result ≡ (2 ^ bits - 1) * each }
    ensures below { result < 2 ^ 64 }
{
    ((1u128 << bits) - 1) * u128::from(each)
}

fn starts_inside(spot: &Spot, wide: usize, bits: usize) -> bool
    requires { bits < 9 }
    ensures { result ≡ lies_inside spot.now.negate ((2 ^ bits - 1) * spot.now.each) (unsigned_abs spot.now.add) spot.now.width wide }
{
    let most = greatest(spot.each, bits);
    let from = spot.add.unsigned_abs() as u128;
    lies_inside(spot.negate, most, from, spot.width, wide)
}

#[tactic(auto, unfolding(crate::specs::Knowns::always_inside))]
fn always_inside(spot: &Spot, wide: usize, bits: usize) -> bool
    ensures { result ≡ always_inside wide bits spot.now }
{
    !spot.signed && bits < 9 && spot.add >= 0 && starts_inside(spot, wide, bits)
}

fn part_is_known(spot: &Spot, done: &[Items<Pair>], a: Node, at: Node) -> bool
    requires a_there { a < length done.now }
    requires at_there { at < length done.now }
    ensures { result ≡ (always_inside (length (word_in done.now a)) (length (word_in done.now at)) spot.now && (are_twins (word_in done.now a) && are_twins (word_in done.now at))) }
{
    always_inside(spot, vector_of(done, a).len(), vector_of(done, at).len())
        && twin(done, a)
        && twin(done, at)
}

fn is_declared(name: &VarName, width: u8, vars: &[Items<Pair>]) -> bool
    requires { 0 < width }
    ensures { result ≡ is_declared (map (λ w. length w) vars.now) name.now width }
{
    match name {
        VarName::Chosen(k) => *k < vars.len() && vars[*k].len() == usize::from(width),
        _ => false,
    }
}

// Whether the bits of a shape are known, where those of a child are whose rails are the same literals.
fn is_known(shape: &Shape, vars: &[Items<Pair>], done: &[Items<Pair>]) -> bool
    requires children { ChildrenBelow (length done.now) shape.now }
    requires fits { FitsWidths (λ k. length (word_in done.now k)) shape.now }
    ensures { result ≡ known_of (is_declared (map (λ w. length w) vars.now)) (λ k. length (word_in done.now k)) (λ k. are_twins (word_in done.now k)) shape.now }
{
    match shape {
        Shape::Const(value) => value.is_bool(),
        Shape::Var(name, width) => is_declared(name, *width, vars),
        Shape::Unary(_, a) => twin(done, *a),
        Shape::Binary(op, a, b) => kept(op, done, *a, *b),
        Shape::Cond(c, a, b) => three(done, *c, *a, *b),
        Shape::Pick(c, a, b) => three(done, *c, *a, *b),
        Shape::Slice { of, .. } => twin(done, *of),
        Shape::Zext(a, _) => twin(done, *a),
        Shape::Sext(a, _) => twin(done, *a),
        Shape::DynSlice { of, at, spot } => part_is_known(spot, done, *of, *at),
        Shape::DynPut { of, at, put, .. } => three(done, *of, *at, *put),
    }
}

// The upper rail for both.
fn twinned(alloc: Global, word: &[Pair]) -> Result<Vec<Pair>, AllocError>
    ensures { IfOk result (λ r. r.items ≡ map twin_of word.now) }
{
    let mut twins = Vec::new(alloc);
    for i in 0..word.len() {
        twins.push(Pair {
            up: word[i].up,
            low: word[i].up,
        })?;
    }
    Ok(twins)
}

fn twinned_where(alloc: Global, known: bool, word: Vec<Pair>) -> Result<Vec<Pair>, AllocError>
    ensures { IfOk result (λ r. r.items ≡ (if known then map twin_of word.items else word.items)) }
{
    if known {
        twinned(alloc, &word)
    } else {
        Ok(word)
    }
}

/// The vector of a shape, over those of its children, with the same literals on both rails where its bits are known by its shape.
pub fn known_vector(
    alloc: Global,
    aig: &mut Aig,
    shape: &Shape,
    vars: &[Items<Pair>],
    done: &[Items<Pair>],
) -> Result<Vec<Pair>, AllocError>
    requires node { 0 < length aig.old }
    requires children { ChildrenBelow (length done.now) shape.now }
    requires ready { OnChildren (IsReady aig.old done.now) shape.now }
    requires fits { FitsWidths (λ k. length (word_in done.now k)) shape.now }
    requires vars_in { All (All (IsWired aig.old)) vars.now }
    requires twins { All (λ w. are_twins w ≡ true) vars.now }
    ensures grew { Grew (gates_of (λ k. length (word_in done.now k)) shape.now) aig.old aig.new }
    ensures word { IfOk result (λ r. IsVector aig.new (width_of (λ k. length (word_in done.now k)) shape.now) r.items) }
    ensures value { IfOk result (λ r. Obeyed aig.new (λ v. bits v r.items ≡ value_of (reading_at v vars.now) (λ k. bits v (word_in done.now k)) shape.now)) }
    ensures shared { IfOk result (λ r. known_of (is_declared (map (λ w. length w) vars.now)) (λ k. length (word_in done.now k)) (λ k. are_twins (word_in done.now k)) shape.now ≡ true → are_twins r.items ≡ true) }
{
    let known = is_known(shape, vars, done);
    let word = node_vector(alloc, aig, shape, vars, done)?;
    twinned_where(alloc, known, word)
}
