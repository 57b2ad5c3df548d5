//! All clauses in one piece of memory (a clause arena): the literals one after another, and for each clause where they begin and
//! end. The search reads clauses all the time, and so they lie close together and packed in 8 bytes a literal. Clauses never
//! change and are never taken out, so that a number names one clause for ever.

ghost use Rattle.std.specs.Prelude.{◌≡◌, ◌*◌, ◌+◌, ◌<◌, ◌^◌, ◌≤◌, ◌++◌, ◌∷◌, [], length, map, take, OnOk, OnErr, IfOk};
ghost use Rattle.std.specs.List.{All};
ghost use Rattle.refute_check.specs.Accepted.{clause_at};
ghost use Rattle.sat_state.specs.Narrow.{AreNarrow};

use crate::packed::PackedDim;
use cnf::Dim;
use std::alloc::{AllocError, Global};
use std::marker::Model;

/// Where the literals of one clause stand: from `start` up to `end`.
#[derive(Clone, Copy)]
pub struct Span {
    pub start: usize,
    pub end: usize,
}

/// Clauses by their numbers, whose literals stand one after another. Contracts see the list of the clauses.
pub struct Store {
    lits: Vec<PackedDim>,
    spans: Vec<Span>,
}

impl Drop for Store {
    fn drop(self) {
        let Store { lits: _, spans: _ } = self;
    }
}

impl Model for Store {
    ghost use Rattle.std.specs.Prelude.{List, length};
    ghost use Rattle.std.specs.List.{All};
    ghost use Rattle.cnf.specs.declared.Dim.{Dim};
    ghost use Rattle.sat_state.specs.Store.{IsInside, clauses_in};

    ghost Value = { List (List Dim) };

    ghost view = { λ s. clauses_in s.lits.items s.spans.items };

    ghost invariant = { λ s. All (IsInside (length s.lits.items)) s.spans.items };
}

// Appends a literal.
fn write_one(lits: &mut Vec<PackedDim>, d: Dim) -> Result<(), AllocError>
    requires { 2 * d.var + 1 < 2 ^ 64 }
    ensures added { OnOk result (lits.new.items ≡ lits.old.items ++ d ∷ []) }
    ensures unchanged { OnErr result (lits.new.items ≡ lits.old.items) }
{
    let lit = PackedDim::of(d);
    lits.push(lit)?;
    Ok(())
}

/// Appends these literals, or, where there is no memory for all, some.
fn write(lits: &mut Vec<PackedDim>, clause: &[Dim]) -> Result<(), AllocError>
    requires { AreNarrow clause.now }
    ensures all { OnOk result (lits.new.items ≡ lits.old.items ++ clause.now) }
    ensures front { take (length lits.old.items) lits.new.items ≡ lits.old.items }
    ensures longer { length lits.old.items ≤ length lits.new.items }
{
    for d in clause {
        write_one(lits, *d)?;
    }
    Ok(())
}

// How many literals the clauses have together.
fn literal_count(clauses: &[Vec<Dim>]) -> usize {
    let mut count: usize = 0;
    for clause in clauses {
        count = count.saturating_add(clause.len());
    }
    count
}

impl Store {
    /// No clause, with room for so many clauses, and for so many literals of all.
    pub fn with_room(alloc: Global, clauses: usize, literals: usize) -> Result<Store, AllocError>
        ensures { IfOk result (λ store. store ≡ []) }
    {
        Ok(Store {
            lits: Vec::with_capacity(alloc, literals)?,
            spans: Vec::with_capacity(alloc, clauses)?,
        })
    }

    /// These clauses, in this order.
    pub fn from_clauses(alloc: Global, clauses: &[Vec<Dim>]) -> Result<Store, AllocError>
        requires { All AreNarrow (map (λ v. v.items) clauses.now) }
        ensures { IfOk result (λ store. store ≡ map (λ v. v.items) clauses.now) }
    {
        let mut store = Store::with_room(alloc, clauses.len(), literal_count(clauses))?;
        for clause in clauses {
            store.push(clause.as_slice())?;
        }
        Ok(store)
    }

    /// How many clauses there are.
    pub fn len(&self) -> usize
        ensures { result ≡ length self.now }
    {
        self.spans.len()
    }

    /// The literals of a clause.
    pub fn clause(&self, k: usize) -> &[PackedDim]
        requires { k < length self.now }
        ensures { result.now ≡ clause_at self.now k }
    {
        let span = self.spans[k];
        &self.lits[span.start..span.end]
    }

    /// Puts a clause behind all others. Where there is no memory for it, the clauses stay as they are.
    #[tactic(auto, using(crate::proofs::Stores::kept, crate::proofs::Stores::inside_more))]
    pub fn push(&mut self, clause: &[Dim]) -> Result<(), AllocError>
        requires { AreNarrow clause.now }
        ensures added { OnOk result (self.new ≡ self.old ++ clause.now ∷ []) }
        ensures unchanged { OnErr result (self.new ≡ self.old) }
    {
        let start = self.lits.len();
        write(&mut self.lits, clause)?;
        let end = self.lits.len();
        self.spans.push(Span { start, end })?;
        Ok(())
    }
}
