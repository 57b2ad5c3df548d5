//! One step of a log. Its literals are denied, and each hint names a clause that has one open literal left, which is assumed,
//! until the last one names a clause that is false. A hint names a given clause or the clause of an earlier step; any other ends
//! the step unproved. What a step sets is taken back whatever comes of it, so each step is judged from marks that are clear.

ghost use Rattle.std.specs.Prelude.{◌≡◌, ℕ, ◌+◌, ◌<◌, ◌≤◌, ◌↔◌, List, None, map, length, replicate, IfOk, IsTrue};
ghost use Rattle.cnf.specs.Clauses.{AllBelow, valuation, all_open};
ghost use Rattle.cnf.specs.State.{IsState};
ghost use Rattle.refute_check.specs.Entry.{Entry};
ghost use Rattle.refute_check.specs.Accepted.{clause_at, Derives, HasRoom, IsDerived, entry_at, known_of};

use crate::log::Step;
use crate::marks::Marks;
use crate::readers::Hints;
use cnf::{ClauseState, Dim};
use std::alloc::{AllocError, Global};

/// Whether step k may cite the clause.
fn is_known(clauses: &[Vec<Dim>], k: usize, hint: usize) -> bool
    ensures { IsTrue result ↔ (hint < length clauses.now + k) }
{
    hint < clauses.len() || hint - clauses.len() < k
}

/// The given clause that a hint names.
fn given<'a>(clauses: &'a [Vec<Dim>], hint: usize) -> &'a [Dim]
    requires { hint < length clauses.now }
    ensures { (log : List Entry) (k : ℕ) → result.now ≡ clause_at (known_of (map (λ v. v.items) clauses.now) log k) hint }
{
    clauses[hint].as_slice()
}

/// The step before step k that a hint names.
fn cited<'a>(clauses: &[Vec<Dim>], steps: &'a [Step], k: usize, hint: usize) -> &'a Step
    requires k { k ≤ length steps.now }
    requires past { length clauses.now ≤ hint }
    requires hint { hint < length clauses.now + k }
    ensures { result.now.clause ≡ clause_at (known_of (map (λ v. v.items) clauses.now) steps.now k) hint }
{
    &steps[hint - clauses.len()]
}

/// A copy of the clause that a hint of step k names: a given clause, or that of a step before it.
pub fn clause_of(
    alloc: Global,
    clauses: &[Vec<Dim>],
    steps: &[Step],
    k: usize,
    hint: usize,
) -> Result<Vec<Dim>, AllocError>
    requires k { k ≤ length steps.now }
    requires hint { hint < length clauses.now + k }
    ensures { IfOk result (λ clause. clause.items ≡ clause_at (known_of (map (λ v. v.items) clauses.now) steps.now k) hint) }
{
    if hint < clauses.len() {
        Vec::from_slice(alloc, given(clauses, hint))
    } else {
        cited(clauses, steps, k, hint).clause(alloc)
    }
}

/// What the clause that a hint of step k names is under the values that there are.
fn state_at(
    marks: &Marks,
    clauses: &[Vec<Dim>],
    steps: &[Step],
    k: usize,
    hint: usize,
) -> ClauseState
    requires k { k ≤ length steps.now }
    requires hint { hint < length clauses.now + k }
    requires width { AllBelow (length marks.now) (known_of (map (λ v. v.items) clauses.now) steps.now k) }
    ensures { IsState (valuation marks.now) (clause_at (known_of (map (λ v. v.items) clauses.now) steps.now k) hint) result }
{
    if hint < clauses.len() {
        marks.state_of(given(clauses, hint))
    } else {
        let mut literals = cited(clauses, steps, k, hint).literals();
        marks.state_in(&mut literals)
    }
}

/// Whether the hints lead to a conflict, from the values that there are.
fn derives(
    marks: &mut Marks,
    clauses: &[Vec<Dim>],
    steps: &[Step],
    k: usize,
    hints: &mut Hints<'_>,
) -> bool
    requires k { k ≤ length steps.now }
    requires width { AllBelow (length marks.old) (known_of (map (λ v. v.items) clauses.now) steps.now k) }
    ensures answer { IsTrue result ↔ Derives (known_of (map (λ v. v.items) clauses.now) steps.now k) (valuation marks.old) hints.old }
    ensures width { length marks.new ≡ length marks.old }
{
    while let Some(hint) = hints.next() {
        if !is_known(clauses, k, hint) {
            return false;
        }
        match state_at(marks, clauses, steps, k, hint) {
            ClauseState::Conflict => return hints.is_done(),
            ClauseState::Unit(d) => marks.assume(d),
            ClauseState::Neither => return false,
        }
    }
    false
}

/// Whether step k follows, from marks that are clear. What it sets stays.
fn marks_lead(
    marks: &mut Marks,
    vars: usize,
    clauses: &[Vec<Dim>],
    steps: &[Step],
    k: usize,
) -> bool
    requires k { k < length steps.now }
    requires room { HasRoom (length marks.old) vars (entry_at steps.now k).clause }
    requires width { AllBelow (length marks.old) (known_of (map (λ v. v.items) clauses.now) steps.now k) }
    requires clear { valuation marks.old ≡ all_open }
    ensures answer { IsTrue result ↔ IsDerived vars (known_of (map (λ v. v.items) clauses.now) steps.now k) (entry_at steps.now k) }
    ensures width { length marks.new ≡ length marks.old }
{
    let step = &steps[k];
    let mut literals = step.literals();
    if marks.deny(vars, &mut literals) {
        let mut hints = step.hints();
        derives(marks, clauses, steps, k, &mut hints)
    } else {
        false
    }
}

/// Whether step k follows from the clauses and the steps before it.
pub fn follows(
    marks: &mut Marks,
    vars: usize,
    clauses: &[Vec<Dim>],
    steps: &[Step],
    k: usize,
) -> bool
    requires k { k < length steps.now }
    requires room { HasRoom (length marks.old) vars (entry_at steps.now k).clause }
    requires width { AllBelow (length marks.old) (known_of (map (λ v. v.items) clauses.now) steps.now k) }
    requires clear { marks.old ≡ replicate (length marks.old) None }
    ensures answer { IsTrue result ↔ IsDerived vars (known_of (map (λ v. v.items) clauses.now) steps.now k) (entry_at steps.now k) }
    ensures clear { marks.new ≡ marks.old }
{
    let is_derived = marks_lead(marks, vars, clauses, steps, k);
    marks.clear();
    is_derived
}
