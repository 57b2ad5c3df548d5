//! New numbers for the variables of clauses and a log, where the given ones are too great for how many literals there are.

ghost use Rattle.std.specs.Prelude.{◌≡◌, ℕ, ◌<◌, ◌≤◌, ◌↔◌, IfOk, IsTrue, length};
ghost use Rattle.std.specs.List.{All, Contains};
ghost use Rattle.std.specs.List.Sorted.{IsStrictlyIncreasing};
ghost use Rattle.refute_check.specs.Accepted.{IsAccepted, IsBadAt};
ghost use Rattle.cert_names.specs.Names.{AreNamed, AreNew, NamesBelow, literals_in, names_of, roomy};

use crate::names::put_names;
use crate::renaming::{renamed_clauses, renamed_steps};
use cnf::Cnf;
use refute_check::Log;
use std::alloc::{AllocError, Global};

// Whether each is below what is roomy for so many.
fn are_dense(names: &[usize]) -> bool
    ensures { IsTrue result → All (λ n. n < roomy (length names.now)) names.now }
{
    let bound = names.len().saturating_mul(8).saturating_add(1000);
    names.iter().all(|n| *n < bound)
}

// The variable of each literal.
fn all_names(alloc: Global, cnf: &Cnf, log: &Log) -> Result<Vec<usize>, AllocError>
    ensures { IfOk result (λ names. names.items ≡ names_of cnf.now.clauses log.now) }
{
    let mut names = Vec::new(alloc);
    put_names(&mut names, cnf.clauses.as_slice(), log.steps.as_slice())?;
    Ok(names)
}

// The names in their order, each once.
fn distinct(names: Vec<usize>) -> Vec<usize>
    ensures rising { IsStrictlyIncreasing result.items }
    ensures has { (name : ℕ) → Contains names.items name → Contains result.items name }
    ensures few { length result.items ≤ length names.items }
{
    let mut names = names;
    names.sort_unstable();
    names.dedup();
    names
}

// With the place of each variable among the names for its number.
fn renumbered(
    alloc: Global,
    names: &[usize],
    cnf: &Cnf,
    log: &Log,
) -> Result<(Cnf, Log), AllocError>
    requires rising { IsStrictlyIncreasing names.now }
    requires clauses { All (AreNamed names.now) cnf.now.clauses }
    requires steps { All (λ s. AreNamed names.now s.clause) log.now }
    ensures { IfOk result (λ p. AreNew names.now cnf.now log.now p.0 p.1) }
{
    let clauses = renamed_clauses(alloc, names, cnf.clauses.as_slice())?;
    let steps = renamed_steps(alloc, names, log.steps.as_slice())?;
    Ok((
        Cnf {
            vars: names.len(),
            clauses,
        },
        Log { steps },
    ))
}

/// Clauses and a log of which the judge says what it says of the given ones, and whose variables are not great for how many literals there
/// are: the given ones, or these with their variables numbered anew, in their order.
pub fn compact(alloc: Global, cnf: Cnf, log: Log) -> Result<(Cnf, Log), AllocError>
    requires { NamesBelow cnf.vars cnf log }
    ensures accepted { IfOk result (λ p. IsAccepted p.0 p.1 ↔ IsAccepted cnf log) }
    ensures bad { IfOk result (λ p. (k : ℕ) → IsBadAt p.0 p.1 k ↔ IsBadAt cnf log k) }

    // each variable is below 8 times the number of literals and 1,000 more
    ensures room { IfOk result (λ p. NamesBelow (roomy (literals_in cnf log)) p.0 p.1) }

    // and each is below the number of variables still
    ensures below { IfOk result (λ p. NamesBelow p.0.vars p.0 p.1) }
{
    let names = all_names(alloc, &cnf, &log)?;
    if are_dense(names.as_slice()) {
        return Ok((cnf, log));
    }
    let names = distinct(names);
    renumbered(alloc, names.as_slice(), &cnf, &log)
}
