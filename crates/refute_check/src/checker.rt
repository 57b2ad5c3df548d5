//! The checker of a whole log. Its room is taken once, for the variables that the clauses name and those that the steps name below
//! `vars`: a step that names another is not derived and needs none. So `vars` itself asks for no room. Steps are judged to the end
//! also behind an empty one, so that each step of an accepted log is derived.

ghost use Rattle.std.specs.Prelude.{◌≡◌, ℕ, ◌<◌, ◌≤◌, ◌↔◌, None, map, length, replicate, IsTrue, IsOk, IfOk, IfErr, []};
ghost use Rattle.std.specs.List.{All};
ghost use Rattle.cnf.specs.Formula.{Formula, formula_of};
ghost use Rattle.cnf.specs.Clauses.{AllBelow, HasNoSolution};
ghost use Rattle.refute_check.specs.Accepted.{entry_at, Fits, HasEmpty, HasRoom, IsAccepted, IsBadAt, IsFront};
ghost use Rattle.refute_check.specs.Errors.{IsBadFor};

use crate::follow::follows;
use crate::log::{Log, Step};
use crate::marks::Marks;
use crate::readers::Literals;
use cnf::{Cnf, Dim};
use std::alloc::{AllocError, Global};
use std::marker::Model;
use thiserror::Error;

/// Why a log is not accepted: the number of the first step that is not derived, counted from 0, or the number of steps where
/// all are derived and none is empty.
#[derive(Clone, Copy, Debug, Error)]
pub enum CheckErr {
    #[error("the log is not accepted: step {0}")]
    Bad(usize),
}

/// Room for the values of variables. Contracts see the number of variables that it has room for.
#[derive(Drop)]
pub struct Checker {
    marks: Marks,
}

impl Model for Checker {
    ghost use Rattle.std.specs.Prelude.{◌≡◌, ℕ, None, length, replicate};

    ghost Value = { ℕ };

    ghost view = { λ c. length c.marks };

    ghost invariant = { λ c. c.marks ≡ replicate (length c.marks) None };
}

// Above each variable that the clauses name, and no more, unless it is the greatest `usize`: room for so many can not be had.
fn width_of(clauses: &[Vec<Dim>]) -> usize
    ensures above { result < usize.MAX → AllBelow result (map (λ v. v.items) clauses.now) }
    ensures least { (bound : ℕ) → AllBelow bound (map (λ v. v.items) clauses.now) → result ≤ bound }
{
    let mut width = 0;
    for clause in clauses {
        for d in clause {
            if d.var >= width {
                width = d.var.saturating_add(1);
            }
        }
    }
    width
}

// At least so wide, and above each variable below `vars` that the literals name, and no more.
fn widened(width: usize, vars: usize, literals: &mut Literals<'_>) -> usize
    ensures over { width ≤ result }
    ensures room { HasRoom result vars literals.old }
    ensures least { (bound : ℕ) → width ≤ bound → HasRoom bound vars literals.old → result ≤ bound }
{
    let mut wide = width;
    while let Some(d) = literals.next() {
        if d.var < vars && d.var >= wide {
            wide = d.var + 1;
        }
    }
    wide
}

// At least so wide, and above each variable below `vars` that the steps name, and no more.
fn with_steps(width: usize, vars: usize, steps: &[Step]) -> usize
    ensures over { width ≤ result }
    ensures room { All (λ s. HasRoom result vars s.clause) steps.now }
    ensures least { (bound : ℕ) → width ≤ bound → All (λ s. HasRoom bound vars s.clause) steps.now → result ≤ bound }
{
    let mut wide = width;
    for step in steps {
        wide = widened(wide, vars, &mut step.literals());
    }
    wide
}

// The least that fits these clauses and steps, unless it is the greatest `usize`.
fn width_for(vars: usize, clauses: &[Vec<Dim>], steps: &[Step]) -> usize
    ensures fits { result < usize.MAX → Fits result (formula_of vars (map (λ v. v.items) clauses.now)) steps.now }
    ensures least { (width : ℕ) → Fits width (formula_of vars (map (λ v. v.items) clauses.now)) steps.now → result ≤ width }
{
    with_steps(width_of(clauses), vars, steps)
}

#[tactic(auto, using(crate::proofs::Derivations::empty_at))]
fn is_empty_at(steps: &[Step], k: usize) -> bool
    requires { k < length steps.now }
    ensures { IsTrue result ↔ ((entry_at steps.now k).clause ≡ []) }
{
    let step = &steps[k];
    step.is_empty()
}

/// Whether some step is empty.
fn has_empty(steps: &[Step]) -> bool
    ensures { IsTrue result ↔ HasEmpty steps.now }
{
    for k in 0..steps.len() {
        if is_empty_at(steps, k) {
            return true;
        }
    }
    false
}

/// Judges the steps in order, up to the first one that is not derived. Answers how many there are before it.
fn front(marks: &mut Marks, vars: usize, clauses: &[Vec<Dim>], steps: &[Step]) -> usize
    requires fits { Fits (length marks.old) (formula_of vars (map (λ v. v.items) clauses.now)) steps.now }
    requires clear { marks.old ≡ replicate (length marks.old) None }
    ensures front { IsFront (formula_of vars (map (λ v. v.items) clauses.now)) steps.now result }
    ensures clear { marks.new ≡ marks.old }
{
    for k in 0..steps.len() {
        if !follows(marks, vars, clauses, steps, k) {
            return k;
        }
    }
    steps.len()
}

/// The verdict on steps of which so many come before the first one that is not derived.
fn verdict(steps: &[Step], derived: usize) -> Result<(), CheckErr>
    ensures ok { (formula : Formula) → IsFront formula steps.now derived → IsOk result ↔ IsAccepted formula steps.now }
    ensures bad { (formula : Formula) → IsFront formula steps.now derived → IfErr result (IsBadFor formula steps.now) }
{
    if derived < steps.len() {
        return Err(CheckErr::Bad(derived));
    }
    if has_empty(steps) {
        Ok(())
    } else {
        Err(CheckErr::Bad(derived))
    }
}

/// Judges all steps.
fn run(marks: &mut Marks, vars: usize, clauses: &[Vec<Dim>], steps: &[Step]) -> Result<(), CheckErr>
    requires fits { Fits (length marks.old) (formula_of vars (map (λ v. v.items) clauses.now)) steps.now }
    requires clear { marks.old ≡ replicate (length marks.old) None }
    ensures ok { IsOk result ↔ IsAccepted (formula_of vars (map (λ v. v.items) clauses.now)) steps.now }
    ensures bad { IfErr result (IsBadFor (formula_of vars (map (λ v. v.items) clauses.now)) steps.now) }
    ensures clear { marks.new ≡ marks.old }
{
    let derived = front(marks, vars, clauses, steps);
    verdict(steps, derived)
}

impl Checker {
    /// A checker for these clauses and this log. It has room for the variables up to the greatest that they name, however great
    /// `vars` is.
    pub fn new(alloc: Global, cnf: &Cnf, log: &Log) -> Result<Checker, AllocError>
        ensures fits { IfOk result (λ checker. Fits checker cnf.now log.now) }
        ensures least { IfOk result (λ checker. (width : ℕ) → Fits width cnf.now log.now → checker ≤ width) }
    {
        let width = width_for(cnf.vars, cnf.clauses.as_slice(), log.steps.as_slice());
        Ok(Checker {
            marks: Marks::new(alloc, width)?,
        })
    }

    /// How many steps come before the first one that is not derived; all of them, where each is. It takes no memory.
    pub fn derived(&mut self, cnf: &Cnf, log: &Log) -> usize
        requires { Fits self.old cnf.now log.now }
        ensures same { self.new ≡ self.old }
        ensures front { IsFront cnf.now log.now result }
    {
        front(
            &mut self.marks,
            cnf.vars,
            cnf.clauses.as_slice(),
            log.steps.as_slice(),
        )
    }

    /// Whether each step is derived and one is empty, so that the clauses have no solution. It takes no memory.
    pub fn check(&mut self, cnf: &Cnf, log: &Log) -> Result<(), CheckErr>
        requires { Fits self.old cnf.now log.now }
        ensures fits { Fits self.new cnf.now log.now }
        ensures same { self.new ≡ self.old }
        ensures ok { IsOk result ↔ IsAccepted cnf.now log.now }
        ensures bad { (k : ℕ) → (result ≡ Err (CheckErr.Bad k)) ↔ IsBadAt cnf.now log.now k }
        ensures refuted { IsOk result → HasNoSolution cnf.now.clauses }
    {
        run(
            &mut self.marks,
            cnf.vars,
            cnf.clauses.as_slice(),
            log.steps.as_slice(),
        )
    }
}
