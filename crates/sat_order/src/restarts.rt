//! Restarts by exponential moving averages of the glue (Biere and Froehlich 2015), and when clause-database reduction is due. The
//! search begins anew where new clauses have more levels, in a quick mean, than they had in a slow one: then much is decided, and
//! little follows.

use sat_arena::constants::{
    FEWEST_WALKS, LEAST_LOG, MARGIN, PAUSE, QUICK, REDUCE, REDUCE_MORE, SLOW, WALKS,
};

/// Means are kept times this.
const SCALE: u64 = 1 << 32;

/// A mean in which newer numbers count more, or all alike while there are few.
#[derive(Clone, Copy)]
struct Mean {
    value: u64,
    count: u64,
}

const NO_MEAN: Mean = Mean { value: 0, count: 0 };

// A share of a number.
fn share(number: u64, count: u64) -> u64 {
    number.checked_div(count).unwrap_or(0)
}

impl Mean {
    // The mean with one number more, where at most so many count.
    fn with(self, number: u32, most: u64) -> Mean {
        let count = self.count.saturating_add(1).min(most);
        let more = share(u64::from(number).saturating_mul(SCALE), count);
        let less = share(self.value, count);
        Mean {
            value: self.value.saturating_sub(less).saturating_add(more),
            count,
        }
    }
}

/// Counts of conflicts, and at which counts something is due.
#[derive(Clone, Copy)]
pub struct Pace {
    pub conflicts: u64,
    quick: Mean,
    slow: Mean,
    // How many variables a conflict walks over.
    walk: Mean,
    // From which conflict on a restart may come.
    restart: u64,
    /// At which conflict learned clauses go.
    pub reduce: u64,
    // How often they did.
    reductions: u64,
    /// At how many bytes the log is trimmed.
    pub trim: usize,
}

impl Pace {
    /// Before the first conflict.
    pub fn new() -> Pace {
        Pace {
            conflicts: 0,
            quick: NO_MEAN,
            slow: NO_MEAN,
            walk: NO_MEAN,
            restart: PAUSE,
            reduce: REDUCE,
            reductions: 0,
            trim: LEAST_LOG,
        }
    }

    /// Counts a conflict whose clause has so many levels.
    pub fn count(&mut self, levels: u32) {
        self.conflicts = self.conflicts.saturating_add(1);
        self.quick = self.quick.with(levels, QUICK);
        self.slow = self.slow.with(levels, SLOW);
    }

    /// Counts a conflict that walked over so many variables.
    pub fn count_walk(&mut self, vars: u32) {
        self.walk = self.walk.with(vars, WALKS);
    }

    /// Whether conflicts walk over more than so many variables, as far as that can be told by now.
    pub fn is_walk_long(&self, vars: u32) -> bool {
        self.walk.count >= FEWEST_WALKS && self.walk.value > u64::from(vars).saturating_mul(SCALE)
    }

    /// Whether the search is to begin anew.
    pub fn is_restart_due(&self) -> bool {
        let quick = self.quick.value;
        let slow = self.slow.value;
        self.conflicts >= self.restart && quick.saturating_mul(100) > slow.saturating_mul(MARGIN)
    }

    /// Notes that the search begins anew.
    pub fn note_restart(&mut self) {
        self.restart = self.conflicts.saturating_add(PAUSE);
    }

    /// Notes that learned clauses go.
    pub fn note_reduction(&mut self) {
        self.reductions = self.reductions.saturating_add(1);
        let more = self.reductions.saturating_mul(REDUCE_MORE);
        let pause = more.saturating_add(REDUCE);
        self.reduce = self.conflicts.saturating_add(pause);
    }
}
