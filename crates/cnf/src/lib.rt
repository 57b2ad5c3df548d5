//! Clauses over numbered variables (a conjunctive normal form) and what it means that they have a solution (a satisfying
//! assignment), the clauses of a graph of gates, and the walk over a clause by which a solver and a judge of refutations go.
#![tactic(auto)]

ghost use Rattle.std.specs.Prelude.{◌≡◌};
ghost use Rattle.cnf.specs.Clauses.{negate};
ghost use Rattle.cnf.specs.Gates.{dim};

mod gates;
mod walk;

use aig::Lit;
pub use gates::clauses_of;
use std::marker::Model;
use std::ops::Not;
pub use walk::{ClauseState, look, looked, state_of};

/// A literal of clauses: a variable, or its negation. Clauses and their judge have it in this form, with variables up to 2^64. A
/// log has it as a number in bytes, the solver packs it into 8 (`PackedDim` of sat_state), and contracts see a `Dim` there too.
#[derive(Clone, Copy, PartialEq, Eq)]
pub struct Dim {
    pub var: usize,
    pub negated: bool,
}

impl Not for Dim {
    type Output = Dim;

    ghost not_gives = { λ d e. e ≡ negate d };

    /// The negation.
    fn not(self) -> Dim {
        Dim {
            var: self.var,
            negated: !self.negated,
        }
    }
}

impl From<Lit> for Dim {
    ghost from_gives = { λ l d. d ≡ dim l };

    /// Variable k is node k.
    fn from(l: Lit) -> Dim {
        Dim {
            var: l.node,
            negated: l.negated,
        }
    }
}

/// Clauses over the variables below `vars`, each a list of literals of which one is to be true. Contracts see lists in
/// place of vectors.
#[derive(Drop)]
pub struct Cnf {
    pub vars: usize,
    pub clauses: Vec<Vec<Dim>>,
}

impl Model for Cnf {
    ghost use Rattle.std.specs.Prelude.{map};
    ghost use Rattle.cnf.specs.Formula.{Formula};

    ghost Value = { Formula };

    ghost view = { λ c. record { vars = c.vars; clauses = map (λ v. v.items) c.clauses.items } };
}
