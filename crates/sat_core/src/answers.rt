//! What the engine answers, where it stands its check: a solution that solves each given clause, or a log that the judge accepts.
//! Nothing is proved of the engine, so what it says is worth nothing before that. Whoever asks the judge anyway takes the log as it is.

ghost use Rattle.std.specs.Prelude.{◌≡◌, ◌<◌, None, false, length, map, not, slice_index_or, IfOk, IfSome, IsTrue};
ghost use Rattle.cnf.specs.Clauses.{ClauseHolds, Solves};
ghost use Rattle.sat_core.specs.End.{IsRightEnd, IsRightProposal};

use crate::SatEnd;
use cnf::{Cnf, Dim};
use refute_check::{Checker, Log};
use sat_engine::{Found, search_for};
use std::alloc::{AllocError, Global};

/// Whether the literal is true. A variable that has no value is false.
fn holds(values: &[bool], d: Dim) -> bool
    ensures { IsTrue result → slice_index_or values.now d.var false ≡ not d.negated }
{
    values.get(d.var).copied().unwrap_or(false) != d.negated
}

/// Whether some literal of the clause is true.
fn clause_holds(values: &[bool], clause: &[Dim]) -> bool
    ensures { IsTrue result → ClauseHolds (λ v. slice_index_or values.now v false) clause.now }
{
    for d in clause {
        if holds(values, *d) {
            return true;
        }
    }
    false
}

/// Whether each clause has a literal that is true.
fn all_clauses_hold(values: &[bool], clauses: &[Vec<Dim>]) -> bool
    ensures { IsTrue result → Solves (λ v. slice_index_or values.now v false) (map (λ v. v.items) clauses.now) }
{
    for clause in clauses {
        if !clause_holds(values, clause.as_slice()) {
            return false;
        }
    }
    true
}

/// What the engine proposes.
#[derive(Drop)]
pub enum Proposal {
    /// A value for each variable, by its number. Each clause holds.
    Solution(Vec<bool>),
    /// A log of which nothing is known before it is judged.
    Refutation(Log),
    Nothing,
}

/// The values, if they are a full solution.
fn tried(cnf: &Cnf, values: Vec<bool>) -> Proposal
    ensures { IsRightProposal cnf.now result }
{
    if values.len() == cnf.vars && all_clauses_hold(values.as_slice(), cnf.clauses.as_slice()) {
        Proposal::Solution(values)
    } else {
        Proposal::Nothing
    }
}

/// What the engine proposes: a solution, or a log that is still to be judged.
pub fn propose(alloc: Global, cnf: &Cnf) -> Result<Proposal, AllocError>
    ensures { IfOk result (IsRightProposal cnf.now) }
{
    match search_for(alloc, cnf)? {
        Found::Solution(values) => Ok(tried(cnf, values)),
        Found::Refutation(log) => Ok(Proposal::Refutation(log)),
        Found::GivenUp => Ok(Proposal::Nothing),
    }
}

/// The log, if the judge accepts it.
fn judged(alloc: Global, cnf: &Cnf, log: Log) -> Result<Option<SatEnd>, AllocError>
    ensures { IfOk result (λ end. IfSome end (IsRightEnd cnf.now None)) }
{
    let mut checker = Checker::new(alloc, cnf, &log)?;
    match checker.check(cnf, &log) {
        Ok(()) => Ok(Some(SatEnd::Unsat(log))),
        Err(_) => Ok(None),
    }
}

/// What the engine answers, if it stands its check.
pub fn solve_by_engine(alloc: Global, cnf: &Cnf) -> Result<Option<SatEnd>, AllocError>
    ensures { IfOk result (λ end. IfSome end (IsRightEnd cnf.now None)) }
{
    match propose(alloc, cnf)? {
        Proposal::Solution(values) => Ok(Some(SatEnd::Sat(values))),
        Proposal::Refutation(log) => judged(alloc, cnf, log),
        Proposal::Nothing => Ok(None),
    }
}
