//! The solver. Within a budget each step has to be new, so it searches over all clauses, of which none is left out. Without one the
//! engine searches, of which nothing is proved; where what it says does not stand its check, the search over all clauses answers.

ghost use Rattle.std.specs.Prelude.{ℕ, ◌<◌, None, IfOk, IfSome, length, map, Option};
ghost use Rattle.cnf.specs.Formula.{Formula, formula_of};
ghost use Rattle.cnf.specs.Clauses.{AllBelow};
ghost use Rattle.sat_core.specs.Stop.{IsRightStop};
ghost use Rattle.sat_core.specs.End.{IsRightEnd};

use crate::answers::solve_by_engine;
use crate::{Stop, search_whole};
use cnf::{Cnf, Dim};
use refute_check::{Log, Step};
use std::alloc::{AllocError, Global};

/// How the search ended.
#[derive(Drop)]
pub enum SatEnd {
    /// A value for each variable, by its number. Each clause holds.
    Sat(Vec<bool>),
    /// A log that refutes the clauses, which the checker accepts.
    Unsat(Log),
    /// As many steps as the budget, each a clause that follows and is new.
    Spent(Log),
}

// The end, with the steps where they are its log.
fn ended(stop: Stop, steps: Vec<Step>) -> SatEnd
    ensures { (formula : Formula) (budget : Option ℕ) → IsRightStop formula budget steps.items stop → IsRightEnd formula budget result }
{
    match stop {
        Stop::Solved(values) => SatEnd::Sat(values),
        Stop::Refuted => SatEnd::Unsat(Log { steps }),
        Stop::UsedUp => SatEnd::Spent(Log { steps }),
    }
}

/// Searches over all clauses.
fn solve_within(
    alloc: Global,
    vars: usize,
    clauses: &[Vec<Dim>],
    budget: Option<u64>,
) -> Result<SatEnd, AllocError>
    requires clauses { AllBelow vars (map (λ v. v.items) clauses.now) }
    requires budget { IfSome budget (λ n. 0 < n) }
    ensures { IfOk result (IsRightEnd (formula_of vars (map (λ v. v.items) clauses.now)) budget) }
{
    let mut steps: Vec<Step> = Vec::new(alloc);
    let stop = search_whole(alloc, vars, clauses, budget, &mut steps)?;
    Ok(ended(stop, steps))
}

/// Answers what the engine finds, where that stands its check, and else what the search over all clauses finds.
fn solve_freely(alloc: Global, cnf: &Cnf) -> Result<SatEnd, AllocError>
    requires { AllBelow cnf.now.vars cnf.now.clauses }
    ensures { IfOk result (IsRightEnd cnf.now None) }
{
    match solve_by_engine(alloc, cnf)? {
        Some(end) => Ok(end),
        None => solve_within(alloc, cnf.vars, cnf.clauses.as_slice(), None),
    }
}

/// Finds a solution, or a log that the checker accepts; or gives up after as many new steps as the budget.
pub fn solve(alloc: Global, cnf: &Cnf, budget: Option<u64>) -> Result<SatEnd, AllocError>
    requires clauses { AllBelow cnf.now.vars cnf.now.clauses }
    requires budget { IfSome budget (λ n. 0 < n) }
    ensures { IfOk result (IsRightEnd cnf.now budget) }
{
    match budget {
        None => solve_freely(alloc, cnf),
        Some(_) => solve_within(alloc, cnf.vars, cnf.clauses.as_slice(), budget),
    }
}
