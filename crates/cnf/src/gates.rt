//! The clauses of a graph and a literal, by the encoding of Tseitin (1968).

ghost use Rattle.std.specs.Prelude.{◌≡◌, IfOk, ◌∷◌, ◌++◌, [], map, length};
ghost use Rattle.aig.specs.Graph.{IsIn, gate_at};
ghost use Rattle.cnf.specs.Formula.{formula_of};
ghost use Rattle.cnf.specs.Clauses.{AllBelow};
ghost use Rattle.cnf.specs.Gates.{gate_clauses, clauses_for, AsksFor, AnswersAll};

use crate::{Cnf, Dim};
use aig::{Aig, Gate, Lit};
use std::alloc::{AllocError, Global};

/// Adds one clause.
fn add_clause(alloc: Global, clauses: &mut Vec<Vec<Dim>>, dims: &[Dim]) -> Result<(), AllocError>
    ensures { IfOk result (λ _. map (λ v. v.items) clauses.new.items ≡ map (λ v. v.items) clauses.old.items ++ dims.now ∷ []) }
{
    let mut clause = Vec::new(alloc);
    clause.extend_from_slice(dims)?;
    clauses.push(clause)?;
    Ok(())
}

/// Adds the clauses of one node.
fn add_gate(
    alloc: Global,
    clauses: &mut Vec<Vec<Dim>>,
    node: usize,
    gate: Gate,
) -> Result<(), AllocError>
    ensures { IfOk result (λ _. map (λ v. v.items) clauses.new.items ≡ map (λ v. v.items) clauses.old.items ++ gate_clauses node gate) }
{
    match gate {
        Gate::And(a, b) => {
            let k = Dim {
                var: node,
                negated: false,
            };
            let p = Dim::from(a);
            let q = Dim::from(b);
            add_clause(alloc, clauses, &[!k, p])?;
            add_clause(alloc, clauses, &[!k, q])?;
            add_clause(alloc, clauses, &[k, !p, !q])?;
            Ok(())
        }
        _ => Ok(()),
    }
}

/// The clauses, in order.
fn clause_list(alloc: Global, aig: &Aig, root: Lit) -> Result<Vec<Vec<Dim>>, AllocError>
    ensures { IfOk result (λ clauses. map (λ v. v.items) clauses.items ≡ clauses_for aig.now root) }
{
    let mut clauses = Vec::new(alloc);
    let bottom = Dim {
        var: 0,
        negated: true,
    };
    add_clause(alloc, &mut clauses, &[bottom])?;
    for k in 0..aig.len() {
        add_gate(alloc, &mut clauses, k, aig.gate(k))?;
    }
    add_clause(alloc, &mut clauses, &[Dim::from(root)])?;
    Ok(clauses)
}

/// The clauses that say that each gate is obeyed and the literal is true. Variable k is node k.
#[tactic(auto, using(crate::proofs::Solutions::below))]
pub fn clauses_of(alloc: Global, aig: &Aig, root: Lit) -> Result<Cnf, AllocError>
    requires { IsIn aig.now root }
    ensures clauses { IfOk result (λ c. c ≡ formula_of (length aig.now) (clauses_for aig.now root)) }
    ensures in_range { IfOk result (λ c. AllBelow c.vars c.clauses) }
    ensures solutions { IfOk result (λ c. AsksFor aig.now root c.clauses) }
    ensures inputs { IfOk result (λ c. AnswersAll aig.now root c.clauses) }
{
    Ok(Cnf {
        vars: aig.len(),
        clauses: clause_list(alloc, aig, root)?,
    })
}
