//! A log of steps. It is most of what a search takes, so a step is a row of small numbers: how many literals its clause has, these,
//! and the hints.

ghost use Rattle.std.specs.Prelude.{◌≡◌, [], ◌↔◌, IfOk, IsTrue};
ghost use Rattle.refute_check.specs.Entry.{entry_of};

use crate::NumberRow;
use crate::packing::numbers_of;
use crate::readers::{Hints, Literals, all_hints, all_literals};
use cnf::Dim;
use std::alloc::{AllocError, Global};
use std::marker::Model;

/// A step before it stands in a log: a clause, and the numbers of the clauses by which it follows: the given clauses first, then
/// the steps, both from 0.
#[derive(Drop)]
pub struct Draft {
    pub clause: Vec<Dim>,
    pub hints: Vec<usize>,
}

impl Model for Draft {
    ghost use Rattle.refute_check.specs.Entry.{Entry};

    ghost Value = { Entry };

    ghost view = { λ s. record { clause = s.clause.items; hints = s.hints.items } };
}

/// A step in a log. Contracts see its clause and its hints.
#[derive(Drop)]
pub struct Step {
    row: NumberRow,
}

impl Model for Step {
    ghost use Rattle.refute_check.specs.Entry.{Entry};
    ghost use Rattle.refute_check.specs.Packed.{entry_from};

    ghost Value = { Entry };

    ghost view = { λ s. entry_from s.row };
}

impl Step {
    /// A step with this clause and these hints.
    pub fn of(alloc: Global, clause: &[Dim], hints: &[usize]) -> Result<Step, AllocError>
        ensures { IfOk result (λ step. step ≡ entry_of clause.now hints.now) }
    {
        let numbers = numbers_of(alloc, clause, hints)?;
        let row = NumberRow::of(alloc, numbers.as_slice())?;
        Ok(Step { row })
    }

    /// Reads the clause.
    pub fn literals(&self) -> Literals<'_>
        ensures { result ≡ self.now.clause }
    {
        let mut rest = self.row.reader();
        match rest.next() {
            None => Literals::of(0, rest),
            Some(count) => Literals::of(count.value(), rest),
        }
    }

    /// Reads the hints.
    pub fn hints(&self) -> Hints<'_>
        ensures { result ≡ self.now.hints }
    {
        let mut rest = self.row.reader();
        match rest.next() {
            None => Hints::of(rest),
            Some(count) => {
                rest.skip(count.value());
                Hints::of(rest)
            }
        }
    }

    /// Whether the clause is empty.
    pub fn is_empty(&self) -> bool
        ensures { IsTrue result ↔ (self.now.clause ≡ []) }
    {
        let mut literals = self.literals();
        literals.is_done()
    }

    /// A copy of the clause.
    pub fn clause(&self, alloc: Global) -> Result<Vec<Dim>, AllocError>
        ensures { IfOk result (λ clause. clause.items ≡ self.now.clause) }
    {
        let mut literals = self.literals();
        let room = literals.most();
        all_literals(alloc, room, &mut literals)
    }

    /// A copy of the hints.
    pub fn hint_list(&self, alloc: Global) -> Result<Vec<usize>, AllocError>
        ensures { IfOk result (λ hints. hints.items ≡ self.now.hints) }
    {
        let mut hints = self.hints();
        all_hints(alloc, &mut hints)
    }
}

/// Steps in order, each of which may cite the given clauses and the earlier steps.
#[derive(Drop)]
pub struct Log {
    pub steps: Vec<Step>,
}

impl Model for Log {
    ghost use Rattle.std.specs.Prelude.{List};
    ghost use Rattle.refute_check.specs.Entry.{Entry};

    ghost Value = { List Entry };

    ghost view = { λ l. l.steps.items };
}
