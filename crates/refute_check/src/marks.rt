//! The values that variables have while one step is judged. A trail of the variables that have one stands beside them, so that
//! taking them back costs what was set and not the number of variables. The trail has room for all variables from the
//! beginning, since none is set twice, so only `new` takes memory.

ghost use Rattle.std.specs.Prelude.{◌≡◌, ◌^◌, ◌<◌, ◌≤◌, ◌↔◌, None, length, IsTrue, IfOk, OnOk, replicate, vec_capacity};
ghost use Rattle.std.specs.Bool.{OnTrue};
ghost use Rattle.cnf.specs.Clauses.{AreBelow, valuation, all_open, assume, denied, IsOpen};
ghost use Rattle.cnf.specs.State.{IsState};
ghost use Rattle.refute_check.specs.Accepted.{HasRoom, IsConsistent};
ghost use Rattle.refute_check.specs.Trail.{IsTracked};

use crate::readers::Literals;
use cnf::{ClauseState, Dim, look, looked, state_of};
use std::alloc::{AllocError, Global};
use std::marker::Model;

/// Values of variables, and a trail of the variables that have one. Contracts see the list of the values. Only `new` takes
/// memory.
#[derive(Drop)]
pub struct Marks {
    values: Vec<Option<bool>>,
    trail: Vec<usize>,
}

impl Model for Marks {
    ghost use Rattle.std.specs.Prelude.{List, Option, Bool, vec_capacity};
    ghost use Rattle.refute_check.specs.Trail.{IsTracked};

    ghost Value = { List (Option Bool) };

    ghost view = { λ m. m.values.items };

    ghost invariant = { λ m. IsTracked m.values.items m.trail.items (vec_capacity m.trail) };
}

// Takes back what was set.
fn clear_trail(values: &mut [Option<bool>], trail: &mut Vec<usize>)
    requires { IsTracked values.old trail.old.items (vec_capacity trail.old) }
    ensures values { values.new ≡ replicate (length values.old) None }
    ensures tracked { IsTracked values.new trail.new.items (vec_capacity trail.new) }
{
    while let Some(var) = trail.pop() {
        values[var] = None;
    }
}

// What a clause is under these values, by its literals as they are read.
fn state_in(values: &[Option<bool>], literals: &mut Literals<'_>) -> ClauseState
    requires { AreBelow (length values.now) literals.old }
    ensures { IsState (valuation values.now) literals.old result }
{
    let mut found: Option<Dim> = None;
    while let Some(d) = literals.next() {
        if !look(values, d, &mut found) {
            return ClauseState::Neither;
        }
    }
    looked(found)
}

impl Marks {
    /// Marks for the variables below `width`, which are open. No vector has room for 2 ^ 63 of them.
    pub fn new(alloc: Global, width: usize) -> Result<Marks, AllocError>
        ensures open { IfOk result (λ marks. marks ≡ replicate width None) }
        ensures width { OnOk result (width < 2 ^ 63) }
    {
        let open: Option<bool> = None;
        Ok(Marks {
            values: vec![in alloc; open; width]?,
            trail: Vec::with_capacity(alloc, width)?,
        })
    }

    /// The value of a variable, if it has one.
    fn value_of(&self, var: usize) -> Option<bool>
        requires { var < length self.now }
        ensures { result ≡ valuation self.now var }
    {
        self.values[var]
    }

    /// What a clause is under these values.
    pub fn state_of(&self, clause: &[Dim]) -> ClauseState
        requires { AreBelow (length self.now) clause.now }
        ensures { IsState (valuation self.now) clause.now result }
    {
        state_of(self.values.as_slice(), clause)
    }

    /// What the clause of a step is under these values.
    pub fn state_in(&self, literals: &mut Literals<'_>) -> ClauseState
        requires { AreBelow (length self.now) literals.old }
        ensures { IsState (valuation self.now) literals.old result }
    {
        state_in(self.values.as_slice(), literals)
    }

    /// Makes an open literal true.
    pub fn assume(&mut self, d: Dim)
        requires below { d.var < length self.old }
        requires open { IsOpen (valuation self.old) d }
        ensures value { valuation self.new ≡ assume (valuation self.old) d }
        ensures width { length self.new ≡ length self.old }
    {
        self.values[d.var] = Some(!d.negated);
        self.trail.push_reserved(d.var);
    }

    /// Makes each literal of a clause false, where all variables are open. Answers whether each variable is below `vars`
    /// and none stands with both signs.
    pub fn deny(&mut self, vars: usize, literals: &mut Literals<'_>) -> bool
        requires room { HasRoom (length self.old) vars literals.old }
        requires open { valuation self.old ≡ all_open }
        ensures answer { IsTrue result ↔ (AreBelow vars literals.old × IsConsistent literals.old) }
        ensures values { OnTrue result (valuation self.new ≡ denied literals.old) }
        ensures width { length self.new ≡ length self.old }
    {
        while let Some(d) = literals.next() {
            if d.var >= vars {
                return false;
            }
            match self.value_of(d.var) {
                Some(value) => {
                    if value != d.negated {
                        return false;
                    }
                }
                None => self.assume(!d),
            }
        }
        true
    }

    /// Makes all variables open.
    pub fn clear(&mut self)
        ensures { self.new ≡ replicate (length self.old) None }
    {
        clear_trail(self.values.as_mut_slice(), &mut self.trail);
    }
}
