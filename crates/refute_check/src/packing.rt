//! Literals and hints as numbers of a row. A literal is twice its variable, and one more where it is negated. Of a hint the row
//! has how far it is from the one before it (delta coding), which is a smaller number; its direction stands where a literal has
//! its sign.

ghost use Rattle.std.specs.Prelude.{◌≡◌, ◌≤◌, ◌++◌, ◌∷◌, IfOk, OnOk, length, map, if◌then◌else◌};
ghost use Rattle.cnf.specs.declared.Dim.{Dim};
ghost use Rattle.refute_check.specs.Groups.{value, whole};
ghost use Rattle.refute_check.specs.Packed.{distance, hint_numbers, literal_of, number_of, place_at, places_at};

use crate::Number;
use cnf::Dim;
use std::alloc::{AllocError, Global};

fn sign(negated: bool) -> u8
    ensures is { result ≡ (if negated then 1 else 0) }
    ensures small { result ≤ 1 }
{
    if negated { 1 } else { 0 }
}

/// A literal as a number, by its variable and its sign.
#[tactic(auto, unfolding(crate::specs::Packed::number_of))]
fn packed(var: usize, negated: bool) -> Number
    ensures is { result ≡ number_of (record { var = var; negated = negated }) }
    ensures back { literal_of (number_of (record { var = var; negated = negated })) ≡ record { var = var; negated = negated } }
{
    let sign = sign(negated);
    Number {
        front: var / 64,
        last: (var % 64) as u8 * 2 + sign,
    }
}

/// A number as a literal.
#[tactic(auto, using(crate::proofs::Rows::mod_first), unfolding(crate::specs::Packed::literal_of))]
pub fn literal(number: Number) -> Dim
    ensures { result ≡ literal_of number }
{
    Dim {
        var: number
            .front
            .wrapping_mul(64)
            .wrapping_add(usize::from(number.last / 2)),
        negated: number.last % 2 == 1,
    }
}

// Puts literals behind numbers.
fn put_literals(numbers: &mut Vec<Number>, clause: &[Dim]) -> Result<(), AllocError>
    ensures put { OnOk result (numbers.new.items ≡ numbers.old.items ++ map number_of clause.now) }
    ensures back { OnOk result (map literal_of (map number_of clause.now) ≡ clause.now) }
{
    for d in clause {
        numbers.push(packed(d.var, d.negated))?;
    }
    Ok(())
}

// How far a number is from another.
#[tactic(auto, unfolding(crate::specs::Packed::distance))]
fn distance(from: usize, to: usize) -> Dim
    ensures is { result ≡ distance from to }
    ensures back { place_at from (distance from to) ≡ to }
{
    if from <= to {
        Dim {
            var: to - from,
            negated: false,
        }
    } else {
        Dim {
            var: from - to,
            negated: true,
        }
    }
}

/// The number that is so far from another.
#[tactic(auto, unfolding(crate::specs::Packed::place_at))]
pub fn place_at(from: usize, d: Dim) -> usize
    ensures { result ≡ place_at from d }
{
    if d.negated {
        from.wrapping_sub(d.var)
    } else {
        from.wrapping_add(d.var)
    }
}

// Puts hints behind numbers.
fn put_hints(numbers: &mut Vec<Number>, hints: &[usize]) -> Result<(), AllocError>
    ensures put { OnOk result (numbers.new.items ≡ numbers.old.items ++ hint_numbers hints.now) }
    ensures back { OnOk result (places_at 0 (map literal_of (hint_numbers hints.now)) ≡ hints.now) }
{
    let mut last: usize = 0;
    for hint in hints {
        let d = distance(last, *hint);
        numbers.push(packed(d.var, d.negated))?;
        last = *hint;
    }
    Ok(())
}

/// A step as numbers.
pub fn numbers_of(alloc: Global, clause: &[Dim], hints: &[usize]) -> Result<Vec<Number>, AllocError>
    ensures numbers { IfOk result (λ numbers. numbers.items ≡ whole (length clause.now) ∷ (map number_of clause.now ++ hint_numbers hints.now)) }
    ensures count { OnOk result (value (whole (length clause.now)) ≡ length clause.now) }
    ensures literals { OnOk result (map literal_of (map number_of clause.now) ≡ clause.now) }
    ensures hints { OnOk result (places_at 0 (map literal_of (hint_numbers hints.now)) ≡ hints.now) }
{
    let room = clause.len().saturating_add(hints.len()).saturating_add(1);
    let mut numbers = Vec::with_capacity(alloc, room)?;
    numbers.push(Number::of(clause.len()))?;
    put_literals(&mut numbers, clause)?;
    put_hints(&mut numbers, hints)?;
    Ok(numbers)
}
