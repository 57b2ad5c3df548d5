//! The variables that clauses and a log name.

ghost use Rattle.std.specs.Prelude.{◌≡◌, ◌++◌, OnOk, map};
ghost use Rattle.std.specs.List.{flat_map};
ghost use Rattle.cert_names.specs.Names.{names_in, names_of};

use cnf::Dim;
use refute_check::{Literals, Step};
use std::alloc::AllocError;

fn put_clause(names: &mut Vec<usize>, clause: &[Dim]) -> Result<(), AllocError>
    ensures { OnOk result (names.new.items ≡ names.old.items ++ names_in clause.now) }
{
    for d in clause {
        names.push(d.var)?;
    }
    Ok(())
}

fn put_clauses(names: &mut Vec<usize>, clauses: &[Vec<Dim>]) -> Result<(), AllocError>
    ensures { OnOk result (names.new.items ≡ names.old.items ++ flat_map names_in (map (λ v. v.items) clauses.now)) }
{
    for clause in clauses {
        put_clause(names, clause.as_slice())?;
    }
    Ok(())
}

fn put_literals(names: &mut Vec<usize>, literals: &mut Literals<'_>) -> Result<(), AllocError>
    ensures { OnOk result (names.new.items ≡ names.old.items ++ names_in literals.old) }
{
    while let Some(d) = literals.next() {
        names.push(d.var)?;
    }
    Ok(())
}

fn put_steps(names: &mut Vec<usize>, steps: &[Step]) -> Result<(), AllocError>
    ensures { OnOk result (names.new.items ≡ names.old.items ++ flat_map (λ s. names_in s.clause) steps.now) }
{
    for step in steps {
        put_literals(names, &mut step.literals())?;
    }
    Ok(())
}

/// Puts the variable of each literal behind others.
pub fn put_names(
    names: &mut Vec<usize>,
    clauses: &[Vec<Dim>],
    steps: &[Step],
) -> Result<(), AllocError>
    ensures { OnOk result (names.new.items ≡ names.old.items ++ names_of (map (λ v. v.items) clauses.now) steps.now) }
{
    put_clauses(names, clauses)?;
    put_steps(names, steps)?;
    Ok(())
}
