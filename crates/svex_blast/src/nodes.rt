//! The vectors of nodes, by their shapes: each over the vectors of its children, which stand in the list of those so far under the
//! numbers of their nodes. A function for each kind of shape looks its children up, and the operator does the rest.

ghost use Rattle.std.specs.Prelude.{◌≡◌, ◌+◌, ◌<◌, ◌≤◌, IfOk, length, map, replicate};
ghost use Rattle.std.specs.List.{All};
ghost use Rattle.aig_words.specs.Words.{Grew, Obeyed};
ghost use Rattle.fourvec.specs.declared.Bit.TheVariants.{Unknown};
ghost use Rattle.fourvec.specs.Bits.{cond_of, pick_of, slice_of, zext_of, sext_of};
ghost use Rattle.fourvec.specs.Spots.{dyn_slice_of, dyn_put_of};
ghost use Rattle.svex_shape.specs.declared.shape.Shape.TheVariants.{Unary, Binary, Cond, Pick, Slice, Zext, Sext, DynSlice, DynPut};
ghost use Rattle.svex_shape.specs.Shapes.{ChildrenBelow, OnChildren, FitsWidths, FitsPair, width_of};
ghost use Rattle.svex_shape.specs.Values.{unary_value, binary_value, value_of};
ghost use Rattle.pair_words.specs.Rails.{bits, IsWired, IsVector};
ghost use Rattle.pair_words.specs.Ways.{constant_pair};
ghost use Rattle.svex_blast.specs.Sizes.{gates_of};
ghost use Rattle.svex_blast.specs.Reads.{reading_at, word_in, word_fitted, word_read, IsReady};

use crate::operators::{binary, choice, extended, slice, unary};
use aig::Aig;
use fourvec::{Bit, Four, Spot};
use items::Items;
use pair_words::{Pair, Two, constant, dyn_put, dyn_slice};
use std::alloc::{AllocError, Global};
use svex_arena::{Bin, Node, Shape, Un, VarName};

fn constants(alloc: Global, value: &Four) -> Result<Vec<Pair>, AllocError>
    ensures { IfOk result (λ r. r.items ≡ map constant_pair value.now) }
{
    let mut word = Vec::new(alloc);
    for i in 0..value.width() {
        word.push(constant(value.bit(i)))?;
    }
    Ok(word)
}

fn unknown(alloc: Global, width: u8) -> Result<Vec<Pair>, AllocError>
    ensures { IfOk result (λ r. r.items ≡ replicate width (constant_pair Unknown)) }
{
    let mut word = Vec::new(alloc);
    word.resize(usize::from(width), constant(Bit::Unknown))?;
    Ok(word)
}

// The vector of a variable, X where it has none of that width.
fn variable(
    alloc: Global,
    name: &VarName,
    width: u8,
    vars: &[Items<Pair>],
) -> Result<Vec<Pair>, AllocError>
    ensures { IfOk result (λ r. r.items ≡ word_read vars.now name.now width) }
{
    match name {
        VarName::Chosen(number) => chosen(alloc, *number, width, vars),
        _ => unknown(alloc, width),
    }
}

#[tactic(auto, using(crate::proofs::Noding::fitted_same, crate::proofs::Noding::fitted_other))]
fn fitted(alloc: Global, a: &[Pair], width: u8) -> Result<Vec<Pair>, AllocError>
    ensures { IfOk result (λ r. r.items ≡ word_fitted width a.now) }
{
    if a.len() == usize::from(width) {
        let word = Vec::from_slice(alloc, a)?;
        return Ok(word);
    }
    let word = unknown(alloc, width)?;
    Ok(word)
}

#[tactic(auto, using(crate::proofs::Noding::word_past))]
fn chosen(
    alloc: Global,
    number: usize,
    width: u8,
    vars: &[Items<Pair>],
) -> Result<Vec<Pair>, AllocError>
    ensures { IfOk result (λ r. r.items ≡ word_fitted width (word_in vars.now number)) }
{
    if number < vars.len() {
        let word = fitted(alloc, vector_of(vars, Node::new(number)), width)?;
        return Ok(word);
    }
    let word = unknown(alloc, width)?;
    Ok(word)
}

/// The vector of a node among those so far.
pub fn vector_of(done: &[Items<Pair>], node: Node) -> &[Pair]
    requires { node < length done.now }
    ensures { result.now ≡ word_in done.now node }
{
    done[node.index()].as_slice()
}

fn on_unary(
    alloc: Global,
    aig: &mut Aig,
    op: &Un,
    a: Node,
    done: &[Items<Pair>],
) -> Result<Vec<Pair>, AllocError>
    requires node { 0 < length aig.old }
    requires a_there { a < length done.now }
    requires a_ready { IsReady aig.old done.now a }
    ensures grew { Grew (gates_of (λ k. length (word_in done.now k)) (Unary op.now a)) aig.old aig.new }
    ensures word { IfOk result (λ r. IsVector aig.new (width_of (λ k. length (word_in done.now k)) (Unary op.now a)) r.items) }
    ensures value { IfOk result (λ r. Obeyed aig.new (λ v. bits v r.items ≡ unary_value op.now (bits v (word_in done.now a)))) }
{
    unary(alloc, aig, op, vector_of(done, a))
}

fn on_binary(
    alloc: Global,
    aig: &mut Aig,
    op: &Bin,
    a: Node,
    b: Node,
    done: &[Items<Pair>],
) -> Result<Vec<Pair>, AllocError>
    requires node { 0 < length aig.old }
    requires a_there { a < length done.now }
    requires a_ready { IsReady aig.old done.now a }
    requires b_there { b < length done.now }
    requires b_ready { IsReady aig.old done.now b }
    requires fits { FitsPair op.now (length (word_in done.now a)) (length (word_in done.now b)) }
    ensures grew { Grew (gates_of (λ k. length (word_in done.now k)) (Binary op.now a b)) aig.old aig.new }
    ensures word { IfOk result (λ r. IsVector aig.new (width_of (λ k. length (word_in done.now k)) (Binary op.now a b)) r.items) }
    ensures value { IfOk result (λ r. Obeyed aig.new (λ v. bits v r.items ≡ binary_value op.now (bits v (word_in done.now a)) (bits v (word_in done.now b)))) }
{
    binary(alloc, aig, op, vector_of(done, a), vector_of(done, b))
}

fn on_cond(
    alloc: Global,
    aig: &mut Aig,
    c: Node,
    a: Node,
    b: Node,
    done: &[Items<Pair>],
) -> Result<Vec<Pair>, AllocError>
    requires node { 0 < length aig.old }
    requires c_there { c < length done.now }
    requires c_ready { IsReady aig.old done.now c }
    requires a_there { a < length done.now }
    requires a_ready { IsReady aig.old done.now a }
    requires b_there { b < length done.now }
    requires b_ready { IsReady aig.old done.now b }
    requires one { length (word_in done.now c) ≡ 1 }
    requires same { length (word_in done.now a) ≡ length (word_in done.now b) }
    ensures grew { Grew (gates_of (λ k. length (word_in done.now k)) (Cond c a b)) aig.old aig.new }
    ensures word { IfOk result (λ r. IsVector aig.new (width_of (λ k. length (word_in done.now k)) (Cond c a b)) r.items) }
    ensures value { IfOk result (λ r. Obeyed aig.new (λ v. bits v r.items ≡ cond_of (bits v (word_in done.now c)) (bits v (word_in done.now a)) (bits v (word_in done.now b)))) }
{
    let word = choice(
        alloc,
        aig,
        Two::Merge,
        vector_of(done, c),
        vector_of(done, a),
        vector_of(done, b),
    )?;
    Ok(word)
}

fn on_pick(
    alloc: Global,
    aig: &mut Aig,
    c: Node,
    a: Node,
    b: Node,
    done: &[Items<Pair>],
) -> Result<Vec<Pair>, AllocError>
    requires node { 0 < length aig.old }
    requires c_there { c < length done.now }
    requires c_ready { IsReady aig.old done.now c }
    requires a_there { a < length done.now }
    requires a_ready { IsReady aig.old done.now a }
    requires b_there { b < length done.now }
    requires b_ready { IsReady aig.old done.now b }
    requires one { length (word_in done.now c) ≡ 1 }
    requires same { length (word_in done.now a) ≡ length (word_in done.now b) }
    ensures grew { Grew (gates_of (λ k. length (word_in done.now k)) (Pick c a b)) aig.old aig.new }
    ensures word { IfOk result (λ r. IsVector aig.new (width_of (λ k. length (word_in done.now k)) (Pick c a b)) r.items) }
    ensures value { IfOk result (λ r. Obeyed aig.new (λ v. bits v r.items ≡ pick_of (bits v (word_in done.now c)) (bits v (word_in done.now a)) (bits v (word_in done.now b)))) }
{
    let word = choice(
        alloc,
        aig,
        Two::Keep,
        vector_of(done, c),
        vector_of(done, a),
        vector_of(done, b),
    )?;
    Ok(word)
}

fn on_slice(
    alloc: Global,
    aig: &mut Aig,
    a: Node,
    lo: u8,
    width: u8,
    done: &[Items<Pair>],
) -> Result<Vec<Pair>, AllocError>
    requires node { 0 < length aig.old }
    requires a_there { a < length done.now }
    requires a_ready { IsReady aig.old done.now a }
    requires within { lo + width ≤ length (word_in done.now a) }
    ensures grew { Grew (gates_of (λ k. length (word_in done.now k)) (Slice a lo width)) aig.old aig.new }
    ensures word { IfOk result (λ r. IsVector aig.new (width_of (λ k. length (word_in done.now k)) (Slice a lo width)) r.items) }
    ensures value { IfOk result (λ r. Obeyed aig.new (λ v. bits v r.items ≡ slice_of (bits v (word_in done.now a)) lo width)) }
{
    let word = slice(alloc, vector_of(done, a), lo, width)?;
    Ok(word)
}

fn on_zext(
    alloc: Global,
    aig: &mut Aig,
    a: Node,
    width: u8,
    done: &[Items<Pair>],
) -> Result<Vec<Pair>, AllocError>
    requires node { 0 < length aig.old }
    requires a_there { a < length done.now }
    requires a_ready { IsReady aig.old done.now a }
    requires within { length (word_in done.now a) ≤ width }
    ensures grew { Grew (gates_of (λ k. length (word_in done.now k)) (Zext a width)) aig.old aig.new }
    ensures word { IfOk result (λ r. IsVector aig.new (width_of (λ k. length (word_in done.now k)) (Zext a width)) r.items) }
    ensures value { IfOk result (λ r. Obeyed aig.new (λ v. bits v r.items ≡ zext_of (bits v (word_in done.now a)) width)) }
{
    let word = extended(alloc, vector_of(done, a), width, constant(Bit::Zero))?;
    Ok(word)
}

fn on_sext(
    alloc: Global,
    aig: &mut Aig,
    a: Node,
    width: u8,
    done: &[Items<Pair>],
) -> Result<Vec<Pair>, AllocError>
    requires node { 0 < length aig.old }
    requires a_there { a < length done.now }
    requires a_ready { IsReady aig.old done.now a }
    requires within { length (word_in done.now a) ≤ width }
    ensures grew { Grew (gates_of (λ k. length (word_in done.now k)) (Sext a width)) aig.old aig.new }
    ensures word { IfOk result (λ r. IsVector aig.new (width_of (λ k. length (word_in done.now k)) (Sext a width)) r.items) }
    ensures value { IfOk result (λ r. Obeyed aig.new (λ v. bits v r.items ≡ sext_of (bits v (word_in done.now a)) width)) }
{
    let a = vector_of(done, a);
    let word = extended(alloc, a, width, a[a.len() - 1])?;
    Ok(word)
}

fn on_constant(alloc: Global, aig: &mut Aig, value: &Four) -> Result<Vec<Pair>, AllocError>
    requires node { 0 < length aig.old }
    ensures grew { Grew 0 aig.old aig.new }
    ensures word { IfOk result (λ r. IsVector aig.new (length value.now) r.items) }
    ensures value { IfOk result (λ r. Obeyed aig.new (λ v. bits v r.items ≡ value.now)) }
{
    let word = constants(alloc, value)?;
    Ok(word)
}

fn on_variable(
    alloc: Global,
    aig: &mut Aig,
    name: &VarName,
    width: u8,
    vars: &[Items<Pair>],
) -> Result<Vec<Pair>, AllocError>
    requires node { 0 < length aig.old }
    requires vars_in { All (All (IsWired aig.old)) vars.now }
    ensures grew { Grew 0 aig.old aig.new }
    ensures word { IfOk result (λ r. IsVector aig.new width r.items) }
    ensures value { IfOk result (λ r. Obeyed aig.new (λ v. bits v r.items ≡ reading_at v vars.now name.now width)) }
{
    let word = variable(alloc, name, width, vars)?;
    Ok(word)
}

fn on_dyn_slice(
    alloc: Global,
    aig: &mut Aig,
    a: Node,
    at: Node,
    spot: &Spot,
    done: &[Items<Pair>],
) -> Result<Vec<Pair>, AllocError>
    requires node { 0 < length aig.old }
    requires a_there { a < length done.now }
    requires a_ready { IsReady aig.old done.now a }
    requires at_there { at < length done.now }
    requires at_ready { IsReady aig.old done.now at }
    requires some { 0 < spot.now.width }
    ensures grew { Grew (gates_of (λ k. length (word_in done.now k)) (DynSlice a at spot.now)) aig.old aig.new }
    ensures word { IfOk result (λ r. IsVector aig.new (width_of (λ k. length (word_in done.now k)) (DynSlice a at spot.now)) r.items) }
    ensures value { IfOk result (λ r. Obeyed aig.new (λ v. bits v r.items ≡ dyn_slice_of (bits v (word_in done.now a)) (bits v (word_in done.now at)) spot.now)) }
{
    let word = dyn_slice(alloc, aig, vector_of(done, a), vector_of(done, at), spot)?;
    Ok(word)
}

fn on_dyn_put(
    alloc: Global,
    aig: &mut Aig,
    a: Node,
    at: Node,
    spot: &Spot,
    put: Node,
    done: &[Items<Pair>],
) -> Result<Vec<Pair>, AllocError>
    requires node { 0 < length aig.old }
    requires a_there { a < length done.now }
    requires a_ready { IsReady aig.old done.now a }
    requires at_there { at < length done.now }
    requires at_ready { IsReady aig.old done.now at }
    requires put_there { put < length done.now }
    requires put_ready { IsReady aig.old done.now put }
    requires wide { length (word_in done.now put) ≡ spot.now.width }
    ensures grew { Grew (gates_of (λ k. length (word_in done.now k)) (DynPut a at spot.now put)) aig.old aig.new }
    ensures word { IfOk result (λ r. IsVector aig.new (width_of (λ k. length (word_in done.now k)) (DynPut a at spot.now put)) r.items) }
    ensures value { IfOk result (λ r. Obeyed aig.new (λ v. bits v r.items ≡ dyn_put_of (bits v (word_in done.now a)) (bits v (word_in done.now at)) spot.now (bits v (word_in done.now put)))) }
{
    let word = dyn_put(
        alloc,
        aig,
        vector_of(done, a),
        vector_of(done, at),
        spot,
        vector_of(done, put),
    )?;
    Ok(word)
}

/// The vector of a shape, over those of its children.
pub fn node_vector(
    alloc: Global,
    aig: &mut Aig,
    shape: &Shape,
    vars: &[Items<Pair>],
    done: &[Items<Pair>],
) -> Result<Vec<Pair>, AllocError>
    requires node { 0 < length aig.old }
    requires children { ChildrenBelow (length done.now) shape.now }
    requires ready { OnChildren (IsReady aig.old done.now) shape.now }
    requires fits { FitsWidths (λ k. length (word_in done.now k)) shape.now }
    requires vars_in { All (All (IsWired aig.old)) vars.now }
    ensures grew { Grew (gates_of (λ k. length (word_in done.now k)) shape.now) aig.old aig.new }
    ensures word { IfOk result (λ r. IsVector aig.new (width_of (λ k. length (word_in done.now k)) shape.now) r.items) }
    ensures value { IfOk result (λ r. Obeyed aig.new (λ v. bits v r.items ≡ value_of (reading_at v vars.now) (λ k. bits v (word_in done.now k)) shape.now)) }
{
    match shape {
        Shape::Const(value) => on_constant(alloc, aig, value),
        Shape::Var(name, width) => on_variable(alloc, aig, name, *width, vars),
        Shape::Unary(op, a) => on_unary(alloc, aig, op, *a, done),
        Shape::Binary(op, a, b) => on_binary(alloc, aig, op, *a, *b, done),
        Shape::Cond(c, a, b) => on_cond(alloc, aig, *c, *a, *b, done),
        Shape::Pick(c, a, b) => on_pick(alloc, aig, *c, *a, *b, done),
        Shape::Slice { of, lo, width } => on_slice(alloc, aig, *of, *lo, *width, done),
        Shape::Zext(a, width) => on_zext(alloc, aig, *a, *width, done),
        Shape::Sext(a, width) => on_sext(alloc, aig, *a, *width, done),
        Shape::DynSlice { of, at, spot } => on_dyn_slice(alloc, aig, *of, *at, spot, done),
        Shape::DynPut { of, at, spot, put } => {
            on_dyn_put(alloc, aig, *of, *at, spot, *put, done)
        }
    }
}
