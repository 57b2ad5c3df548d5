//! Phase saving (Pipatsrisawat and Darwiche 2007) and rephasing (as in cadical, without its local search and its second mode): a
//! variable is decided to have the value that it had last, and by turns all of them are set to one value, or to those of the
//! longest trail that had no conflict.

use sat_arena::constants::{PHASE_TURNS, REPHASE};
use sat_arena::words::{Lit, at, filled, is_negated, is_set, put, var_of};
use std::alloc::Global;

/// The values that variables are decided to have.
pub struct Phases {
    pub saved: Vec<bool>,
    // Those of the longest trail without a conflict since the last turn, and how long it was.
    best: Vec<bool>,
    longest: usize,
    /// How many literals of the trail had no conflict.
    pub calm: usize,
    // How many turns there were.
    turns: u64,
    /// At which conflict the next turn comes.
    pub due: u64,
}

impl Drop for Phases {
    fn drop(self) {
        let Phases {
            saved: _,
            best: _,
            longest: _,
            calm: _,
            turns: _,
            due: _,
        } = self;
    }
}

impl Phases {
    /// All true at first. Where there is no room for them, that is noted.
    pub fn new(alloc: Global, vars: usize, is_short: &mut bool) -> Phases {
        Phases {
            saved: filled(alloc, true, vars, is_short),
            best: filled(alloc, true, vars, is_short),
            longest: 0,
            calm: 0,
            turns: 0,
            due: REPHASE,
        }
    }

    /// Keeps the value of a variable that loses it.
    pub fn save(&mut self, lit: Lit) {
        put(&mut self.saved, var_of(lit), !is_negated(lit));
    }

    /// Keeps the values of the trail, if so much of it was never without a conflict.
    pub fn keep_best(&mut self, trail: &[Lit]) {
        if self.calm <= self.longest {
            return;
        }
        self.longest = self.calm;
        for place in 0..self.calm {
            let lit = at(trail, place);
            put(&mut self.best, var_of(lit), !is_negated(lit));
        }
    }

    // Sets all values.
    fn set_all(&mut self, value: bool) {
        for var in 0..self.saved.len() {
            put(&mut self.saved, var, value);
        }
    }

    // Takes the values of the longest trail.
    fn take_best(&mut self) {
        for var in 0..self.best.len() {
            let value = is_set(&self.best, var);
            put(&mut self.saved, var, value);
        }
    }

    /// Takes the next turn: the best values, false, the best ones, true, and so on.
    pub fn turn(&mut self, conflicts: u64) {
        match self.turns % PHASE_TURNS {
            1 => self.set_all(false),
            3 => self.set_all(true),
            _ => self.take_best(),
        }
        self.longest = 0;
        self.turns = self.turns.saturating_add(1);
        let pause = self.turns.saturating_add(1).saturating_mul(REPHASE);
        self.due = conflicts.saturating_add(pause);
    }
}
