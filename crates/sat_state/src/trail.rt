//! The values so far (a partial assignment), and the literals that they make false, with why (the implication graph). The trail
//! holds the false literals and not the true ones, so that a learned clause is a part of it as it stands. Contracts see values
//! and trail; the levels, phases, order and places beside them choose what is tried, and no proof rests on them, so a sum of them
//! may stop at the greatest number.

ghost use Rattle.std.specs.Prelude.{◌≡◌, ◌+◌, ◌<◌, None, length, OnOk, MatchOption, IfOk, [], ◌∷◌, ◌++◌};
ghost use Rattle.std.specs.List.{All};
ghost use Rattle.cnf.specs.Clauses.{all_open, valuation};
ghost use Rattle.sat_state.specs.Trail.{Tracks, open_count};

use crate::order::Order;
use crate::queue::Queue;
use cnf::Dim;
use std::alloc::{AllocError, Global};
use std::marker::Model;

/// A literal that is false: by a decision, or by the clause that `reason` names.
#[derive(Clone, Copy)]
pub struct Assigned {
    pub dim: Dim,
    pub reason: Option<usize>,
}

/// Values of variables, and the literals that they make false in the order in which they came. Contracts see these two
/// lists. Beside them it keeps a queue of the variables, and, for the choice of decisions alone, the level at which each variable
/// had a value last, that value, the place on the trail that it had, what the newest conflicts were like, and the place of each clause
/// at which a literal was found last.
pub struct Trail {
    values: Vec<Option<bool>>,
    entries: Vec<Assigned>,
    levels: Vec<usize>,
    phases: Vec<bool>,
    level: usize,
    queue: Queue,
    order: Order,
    places: Vec<usize>,
    spots: Vec<usize>,
}

impl Drop for Trail {
    fn drop(self) {
        let Trail {
            values: _,
            entries: _,
            levels: _,
            phases: _,
            level: _,
            queue: _,
            order: _,
            places: _,
            spots: _,
        } = self;
    }
}

impl Model for Trail {
    ghost use Rattle.std.specs.Prelude.{◌≡◌, length};
    ghost use Rattle.sat_state.specs.Lists.{TrailLists};
    ghost use Rattle.sat_state.specs.Queue.{IsQueue};

    ghost Value = { TrailLists };

    ghost view = { λ t. record { values = t.values.items; entries = t.entries.items } };

    ghost invariant = { λ t. (length t.levels.items ≡ length t.values.items) × (length t.phases.items ≡ length t.values.items)
        × IsQueue t.values.items t.queue.list.items t.queue.stamps.items t.queue.clock t.queue.next };
}

// The level after one more literal.
fn level_with(level: usize, e: Assigned) -> usize {
    if e.reason.is_none() {
        level.saturating_add(1)
    } else {
        level
    }
}

// The level without the newest literal.
fn level_without(level: usize, e: Assigned) -> usize {
    if e.reason.is_none() {
        level.saturating_sub(1)
    } else {
        level
    }
}

// Appends zeros up to a length.
fn fill_up(places: &mut Vec<usize>, count: usize) -> Result<(), AllocError> {
    for _ in places.len()..count {
        places.push(0)?;
    }
    Ok(())
}

// No value for each variable.
fn open_values(alloc: Global, vars: usize) -> Result<Vec<Option<bool>>, AllocError>
    ensures width { IfOk result (λ values. length values.items ≡ vars) }
    ensures open { IfOk result (λ values. valuation values.items ≡ all_open) }
{
    let open: Option<bool> = None;
    let values = vec![in alloc; open; vars]?;
    Ok(values)
}

// Sets the number of a variable, if there is one.
fn note_at(numbers: &mut [usize], var: usize, number: usize) {
    if let Some(old) = numbers.get_mut(var) {
        *old = number;
    }
}

impl Trail {
    /// A trail on which each of the variables below `vars` is open.
    pub fn new(alloc: Global, vars: usize) -> Result<Trail, AllocError>
        ensures width { IfOk result (λ trail. length trail.values ≡ vars) }
        ensures open { IfOk result (λ trail. valuation trail.values ≡ all_open) }
        ensures empty { IfOk result (λ trail. trail.entries ≡ []) }
    {
        Ok(Trail {
            values: open_values(alloc, vars)?,
            entries: Vec::with_capacity(alloc, vars)?,
            levels: vec![in alloc; 0; vars]?,
            phases: vec![in alloc; false; vars]?,
            level: 0,
            queue: Queue::new(alloc, vars)?,
            order: Order::new(alloc, vars)?,
            places: Vec::new(alloc),
            spots: vec![in alloc; 0; vars]?,
        })
    }

    /// The values by the number of the variable.
    pub fn values(&self) -> &[Option<bool>]
        ensures { result.now ≡ self.now.values }
    {
        self.values.as_slice()
    }

    /// The literals that are false, the oldest first.
    pub fn entries(&self) -> &[Assigned]
        ensures { result.now ≡ self.now.entries }
    {
        self.entries.as_slice()
    }

    /// How many decisions there are.
    pub fn level(&self) -> usize {
        self.level
    }

    /// The level at which the variable had a value last.
    pub fn level_of(&self, var: usize) -> usize
        requires { var < length self.now.values }
    {
        self.levels[var]
    }

    /// The level at which the variable had a value last, if there is such a variable, or 0.
    pub fn last_level(&self, var: usize) -> usize {
        self.levels.get(var).copied().unwrap_or(0)
    }

    /// The clause by which a variable has its value, if it has one by a clause.
    pub fn reason_of(&self, var: usize) -> Option<usize> {
        let spot = self.spots.get(var).copied()?;
        let e = self.entries.get(spot)?;
        if e.dim.var == var { e.reason } else { None }
    }

    /// The value that the variable had last.
    pub fn phase_of(&self, var: usize) -> bool
        requires { var < length self.now.values }
    {
        self.phases[var]
    }

    /// A variable that has no value, to be decided next.
    pub fn choose(&mut self) -> Option<usize>
        ensures open { MatchOption result (All (λ o. o ≡ None → ⊥) self.old.values) (λ v. (v < length self.old.values) × (valuation self.old.values v ≡ None)) }
        ensures unchanged { self.new ≡ self.old }
    {
        self.queue.choose(&self.values)
    }

    /// Of each clause, by its number, the place from which to look for a literal that is not false.
    pub fn places(&self) -> &[usize] {
        self.places.as_slice()
    }

    /// Sets the place of a clause, if there is room for it.
    pub fn set_place(&mut self, clause: usize, place: usize)
        ensures { self.new ≡ self.old }
    {
        if let Some(old) = self.places.get_mut(clause) {
            *old = place;
        }
    }

    /// After a conflict that taught this clause: lets its variables be chosen before all others, and makes room for the places of
    /// so many clauses.
    pub fn after_conflict(
        &mut self,
        walked: &mut [usize],
        clause: &[Dim],
        count: usize,
    ) -> Result<(), AllocError>
        ensures { self.new ≡ self.old }
    {
        self.order.arrange(self.queue.stamps(), walked)?;
        self.order.count(&self.levels, clause);
        self.queue.bump_all(&self.values, walked);
        fill_up(&mut self.places, count)
    }

    /// Whether the search is to start anew.
    pub fn is_restart_due(&mut self) -> bool
        ensures { self.new ≡ self.old }
    {
        self.order.is_restart_due()
    }

    /// Makes an open literal false.
    #[tactic(auto, using(crate::proofs::Trails::tracks_push))]
    pub fn assign(&mut self, e: Assigned) -> Result<(), AllocError>
        requires range { e.dim.var < length self.old.values }
        requires tracks { Tracks self.old.values self.old.entries }
        requires open { valuation self.old.values e.dim.var ≡ None }
        ensures tracks { OnOk result (Tracks self.new.values self.new.entries) }
        ensures entries { OnOk result (self.new.entries ≡ self.old.entries ++ e ∷ []) }
        ensures width { OnOk result (length self.new.values ≡ length self.old.values) }
        ensures fewer { OnOk result (open_count self.new.values + 1 ≡ open_count self.old.values) }
    {
        note_at(&mut self.spots, e.dim.var, self.entries.len());
        self.entries.push(e)?;
        self.values[e.dim.var] = Some(e.dim.negated);
        self.level = level_with(self.level, e);
        self.levels[e.dim.var] = self.level;
        self.phases[e.dim.var] = e.dim.negated;
        Ok(())
    }

    /// Takes the newest literal away.
    pub fn pop(&mut self) -> Assigned
        requires some { 0 < length self.old.entries }
        requires tracks { Tracks self.old.values self.old.entries }
        ensures tracks { Tracks self.new.values self.new.entries }
        ensures entries { self.old.entries ≡ self.new.entries ++ result ∷ [] }
        ensures width { length self.new.values ≡ length self.old.values }
    {
        let e = self.entries.pop().unwrap();
        self.values[e.dim.var] = None;
        self.level = level_without(self.level, e);
        self.queue.reopen(e.dim.var);
        e
    }
}
