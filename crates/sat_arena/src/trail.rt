//! The partial assignment, and its implication graph: the values of literals, the trail of those that are true, in the order in
//! which they became so, and of each variable the clause that is the reason of its value. The trail is the queue of what is to be
//! propagated, too.

use crate::words::{
    Lit, NONE, at, at_or, filled, is_set, lit_of, narrow, push, put, room_for, var_of,
};
use std::alloc::Global;

/// The value of a literal.
#[derive(Clone, Copy)]
pub enum Value {
    Open,
    True,
    False,
}

/// Of a variable that has a value: the level on which it got it, the clause that gave it, and where it stands on the trail.
#[derive(Clone, Copy)]
pub struct Fact {
    pub level: u32,
    pub reason: u32,
    pub place: u32,
}

/// Of no variable.
const NO_FACT: Fact = Fact {
    level: 0,
    reason: NONE,
    place: 0,
};

/// The value of a literal, if there is such a literal.
#[inline]
pub fn value_of(values: &[Value], lit: Lit) -> Value {
    at_or(values, lit as usize, Value::Open)
}

/// Whether a literal is true.
#[inline]
pub fn is_true(values: &[Value], lit: Lit) -> bool {
    matches!(value_of(values, lit), Value::True)
}

/// Whether a literal is false.
#[inline]
pub fn is_false(values: &[Value], lit: Lit) -> bool {
    matches!(value_of(values, lit), Value::False)
}

/// Whether a variable has no value, and was not taken out.
#[inline]
pub fn is_open(values: &[Value], gone: &[bool], var: u32) -> bool {
    let is_valued = !matches!(value_of(values, lit_of(var, true)), Value::Open);
    !is_valued && !is_set(gone, var as usize)
}

/// Values and trail.
pub struct Trail {
    /// Of each literal.
    pub values: Vec<Value>,
    // Of each variable.
    facts: Vec<Fact>,
    /// Of each variable whose value is fixed, the number of the clause that has its literal alone.
    pub units: Vec<u32>,
    /// The literals that are true, the oldest first.
    pub lits: Vec<Lit>,
    /// How many of the literals were propagated.
    pub head: usize,
    // Where each level begins, but the one of what is fixed.
    starts: Vec<u32>,
    /// Whether there was no room for a literal, or for a watch of one.
    pub is_short: bool,
}

impl Drop for Trail {
    fn drop(self) {
        let Trail {
            values: _,
            facts: _,
            units: _,
            lits: _,
            head: _,
            starts: _,
            is_short: _,
        } = self;
    }
}

impl Trail {
    /// So many variables, of which none has a value.
    pub fn new(alloc: Global, vars: usize) -> Trail {
        let mut is_short = false;
        let values = filled(alloc, Value::Open, vars.saturating_mul(2), &mut is_short);
        let facts = filled(alloc, NO_FACT, vars, &mut is_short);
        let units = filled(alloc, NONE, vars, &mut is_short);
        let lits = room_for(alloc, vars, &mut is_short);
        Trail {
            values,
            facts,
            units,
            lits,
            head: 0,
            starts: Vec::new(alloc),
            is_short,
        }
    }

    /// The newest level, from 0.
    #[inline]
    pub fn level(&self) -> u32 {
        narrow(self.starts.len())
    }

    /// Whether one of these literals is true for ever.
    pub fn satisfies(&self, literals: &[Lit]) -> bool {
        for lit in literals {
            if is_true(&self.values, *lit) {
                let fact = self.fact(var_of(*lit));
                if fact.level == 0 {
                    return true;
                }
            }
        }
        false
    }

    /// What is known of a variable that has a value.
    #[inline]
    pub fn fact(&self, var: usize) -> Fact {
        at_or(&self.facts, var, NO_FACT)
    }

    /// The number of the clause that has the literal alone by which the variable is fixed.
    pub fn unit(&self, var: usize) -> u32 {
        at(&self.units, var)
    }

    /// Notes that number. The variable needs no other reason then.
    pub fn set_unit(&mut self, var: usize, number: u32) {
        put(&mut self.units, var, number);
        self.set_reason(var, NONE);
    }

    /// Notes which clause gave a variable its value.
    pub fn set_reason(&mut self, var: usize, reason: u32) {
        let fact = self.fact(var);
        put(&mut self.facts, var, Fact { reason, ..fact });
    }

    /// Where a level begins on the trail. What is fixed begins at 0, as a level that is not there does.
    pub fn start(&self, level: u32) -> usize {
        at(&self.starts, (level as usize).wrapping_sub(1)) as usize
    }

    /// Makes a literal true.
    #[inline]
    pub fn assign(&mut self, lit: Lit, reason: u32) {
        let fact = Fact {
            level: self.level(),
            reason,
            place: narrow(self.lits.len()),
        };
        let values = &mut self.values;
        put(values, lit as usize, Value::True);
        put(values, (lit ^ 1) as usize, Value::False);
        put(&mut self.facts, var_of(lit), fact);
        push(&mut self.lits, lit, &mut self.is_short);
    }

    /// Begins a level with a literal.
    pub fn decide(&mut self, lit: Lit) {
        let start = narrow(self.lits.len());
        push(&mut self.starts, start, &mut self.is_short);
        self.assign(lit, NONE);
    }

    /// The next literal that is to be propagated.
    pub fn next(&mut self) -> Option<Lit> {
        if self.head >= self.lits.len() {
            return None;
        }
        let lit = self.lits[self.head];
        self.head = self.head.saturating_add(1);
        Some(lit)
    }

    /// Takes the newest literal off.
    pub fn pop(&mut self) -> Option<Lit> {
        match self.lits.pop() {
            None => None,
            Some(lit) => {
                let values = &mut self.values;
                put(values, lit as usize, Value::Open);
                put(values, (lit ^ 1) as usize, Value::Open);
                Some(lit)
            }
        }
    }

    /// Leaves the levels above this one, of which no literal is on the trail any more.
    pub fn leave(&mut self, level: u32) {
        self.starts.truncate(level as usize);
        self.head = self.head.min(self.lits.len());
    }
}
