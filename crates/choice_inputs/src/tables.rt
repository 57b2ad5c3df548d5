// Clauses that rule out all rows of values of some variables, each one row, and the steps that refute them. Clauses that differ in the
// least variable alone resolve to one without it, so each level of steps has half as many clauses as the one before, and the last
// is the empty clause: nothing is searched for.
ghost use Rattle.std.specs.Prelude.{◌≡◌, ℕ, ◌<◌, ◌≤◌, ◌+◌, ◌-◌, ◌*◌, ◌^◌, ◌++◌, ◌∷◌, [], IfOk, length, map};
ghost use Rattle.std.specs.List.{range_with_len};
ghost use Rattle.choice_inputs.specs.Tables as spec;
ghost use Rattle.choice_inputs.specs.Tables.{IsResolved, ruling_out};
ghost use Rattle.refute_check.specs.Accepted.{IsAccepted};
ghost use Rattle.refute_check.specs.Entry.{entry_of};

use cnf::{Cnf, Dim};
use refute_check::{Log, Step};
use std::alloc::{AllocError, Global};

// The clause that rules out the bits of a number, as values of the variables from `from` on.
fn clause_of(alloc: Global, from: usize, to: usize, number: usize) -> Result<Vec<Dim>, AllocError>
    requires { from ≤ to }
    ensures { IfOk result (λ clause. clause.items ≡ ruling_out from (to - from) number) }
{
    let mut clause = Vec::new(alloc);
    let mut left = number;
    for var in from..to {
        clause.push(Dim {
            var,
            negated: left % 2 == 1,
        })?;
        left /= 2;
    }
    Ok(clause)
}

// The clauses, by number.
fn clauses_of(alloc: Global, bits: usize) -> Result<Vec<Vec<Dim>>, AllocError>
    requires { bits ≤ 12 }
    ensures { IfOk result (λ clauses. map (λ v. v.items) clauses.items ≡ map (ruling_out 0 bits) (range_with_len 0 (2 ^ bits))) }
{
    let mut clauses = Vec::new(alloc);
    for number in 0..1usize << bits {
        clauses.push(clause_of(alloc, 0, bits, number)?)?;
    }
    Ok(clauses)
}

// The step that resolves two clauses, from place `first` on, to one.
fn step_of(alloc: Global, clause: Vec<Dim>, first: usize) -> Result<Step, AllocError>
    requires { first < 2 ^ 32 }
    ensures { IfOk result (λ step. step ≡ entry_of clause.items (first ∷ (first + 1) ∷ [])) }
{
    Step::of(alloc, clause.as_slice(), &[first, first + 1])
}

// Puts the steps of a level behind those of the levels before.
fn put_level(
    alloc: Global,
    bits: usize,
    level: usize,
    first: usize,
    steps: &mut Vec<Step>,
) -> Result<(), AllocError>
    requires bits { bits ≤ 12 }
    requires level { level < bits }
    requires so_far { IsResolved bits first level steps.old.items }
    ensures { IfOk result (λ _. IsResolved bits (first + 2 ^ (bits - level)) (level + 1) steps.new.items) }
{
    for number in 0..1usize << (bits - level - 1) {
        let clause = clause_of(alloc, level + 1, bits, number)?;
        let step = step_of(alloc, clause, first + 2 * number)?;
        steps.push(step)?;
    }
    Ok(())
}

// All levels, one after another.
fn levels(alloc: Global, bits: usize) -> Result<Vec<Step>, AllocError>
    requires { bits ≤ 12 }
    ensures { IfOk result (λ steps. (first : ℕ) → first + 1 ≡ 2 ^ bits + length steps.items → IsResolved bits first bits steps.items) }
{
    let mut steps = Vec::new(alloc);
    let mut first = 0;
    for level in 0..bits {
        put_level(alloc, bits, level, first, &mut steps)?;
        first += 1 << (bits - level);
    }
    Ok(steps)
}

// Puts the last step, which only cites an empty clause: without variables that is the one that is given.
fn put_last(alloc: Global, empty: usize, steps: &mut Vec<Step>) -> Result<(), AllocError>
    ensures { IfOk result (λ _. steps.new.items ≡ steps.old.items ++ entry_of [] (empty ∷ []) ∷ []) }
{
    let step = Step::of(alloc, &[], &[empty])?;
    steps.push(step)?;
    Ok(())
}

/// The clauses that rule out each row of values of so many variables.
pub fn ruled_out(alloc: Global, bits: usize) -> Result<Cnf, AllocError>
    requires { bits ≤ 12 }
    ensures { IfOk result (λ cnf. cnf ≡ spec.all_ruled_out bits) }
{
    Ok(Cnf {
        vars: bits,
        clauses: clauses_of(alloc, bits)?,
    })
}

/// Steps that refute these clauses.
pub fn refutation(alloc: Global, bits: usize) -> Result<Log, AllocError>
    requires { bits ≤ 12 }
    ensures { IfOk result (λ log. IsAccepted (spec.all_ruled_out bits) log) }
{
    let mut steps = levels(alloc, bits)?;
    let empty = (1usize << bits) + steps.len() - 1;
    put_last(alloc, empty, &mut steps)?;
    Ok(Log { steps })
}
