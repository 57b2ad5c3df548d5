//! Clauses and steps with their variables numbered anew.

ghost use Rattle.std.specs.Prelude.{◌≡◌, IfOk, map};
ghost use Rattle.std.specs.List.{All, AllZip, Contains};
ghost use Rattle.std.specs.List.Sorted.{IsStrictlyIncreasing};
ghost use Rattle.cert_names.specs.Names.{AreNamed, AreRenamed, IsAt, IsRenamed, IsRenamedStep};

use cnf::Dim;
use refute_check::Step;
use std::alloc::{AllocError, Global};

// The place of a name.
fn place(names: &[usize], var: usize) -> usize
    requires rising { IsStrictlyIncreasing names.now }
    requires inside { Contains names.now var }
    ensures { IsAt names.now var result }
{
    names.binary_search(&var).unwrap()
}

fn renamed(names: &[usize], d: Dim) -> Dim
    requires rising { IsStrictlyIncreasing names.now }
    requires inside { Contains names.now d.var }
    ensures { IsRenamed names.now d result }
{
    Dim {
        var: place(names, d.var),
        negated: d.negated,
    }
}

fn renamed_clause(alloc: Global, names: &[usize], clause: &[Dim]) -> Result<Vec<Dim>, AllocError>
    requires rising { IsStrictlyIncreasing names.now }
    requires inside { AreNamed names.now clause.now }
    ensures { IfOk result (λ new. AreRenamed names.now clause.now new.items) }
{
    let mut new = Vec::with_capacity(alloc, clause.len())?;
    for d in clause {
        new.push(renamed(names, *d))?;
    }
    Ok(new)
}

/// Clauses with each variable's place among the names.
pub fn renamed_clauses(
    alloc: Global,
    names: &[usize],
    clauses: &[Vec<Dim>],
) -> Result<Vec<Vec<Dim>>, AllocError>
    requires rising { IsStrictlyIncreasing names.now }
    requires inside { All (AreNamed names.now) (map (λ v. v.items) clauses.now) }
    ensures { IfOk result (λ new. AllZip (AreRenamed names.now) (map (λ v. v.items) clauses.now) (map (λ v. v.items) new.items)) }
{
    let mut new = Vec::new(alloc);
    for clause in clauses {
        new.push(renamed_clause(alloc, names, clause.as_slice())?)?;
    }
    Ok(new)
}

fn renamed_step(alloc: Global, names: &[usize], step: &Step) -> Result<Step, AllocError>
    requires rising { IsStrictlyIncreasing names.now }
    requires inside { AreNamed names.now step.now.clause }
    ensures { IfOk result (λ new. IsRenamedStep names.now step.now new) }
{
    let clause = step.clause(alloc)?;
    let hints = step.hint_list(alloc)?;
    let new = renamed_clause(alloc, names, clause.as_slice())?;
    Step::of(alloc, new.as_slice(), hints.as_slice())
}

/// Steps with each variable's place among the names, and the same hints.
pub fn renamed_steps(
    alloc: Global,
    names: &[usize],
    steps: &[Step],
) -> Result<Vec<Step>, AllocError>
    requires rising { IsStrictlyIncreasing names.now }
    requires inside { All (λ s. AreNamed names.now s.clause) steps.now }
    ensures { IfOk result (λ new. AllZip (IsRenamedStep names.now) steps.now new.items) }
{
    let mut new = Vec::new(alloc);
    for step in steps {
        new.push(renamed_step(alloc, names, step)?)?;
    }
    Ok(new)
}
