//! Which of the variables of a conflict is decided first, and when the search starts anew. It is a choice of speed alone, of
//! which no proof says anything.
//!
//! The variables of a conflict are moved to the front in the order in which they stand, so that those of newer conflicts are
//! decided first (VMTF, variable move-to-front, of Siege; Ryan, 2004). The search starts anew (a restart) where the newest
//! clauses have more levels than clauses had in the mean, after Glucose (Audemard and Simon, 2009) and with the exponential
//! moving averages of Biere and Froehlich (2015): then it is on a path on which much is decided and little follows. The levels of
//! a clause are its glue (literal block distance).

ghost use Rattle.std.specs.Prelude.{◌<◌};

use cnf::Dim;
use std::alloc::{AllocError, Global};

/// Numbers of levels are kept times this.
const SCALE: u64 = 1 << 20;

/// How many clauses count in the mean of the newest ones, and in that of all.
const FAST: u64 = 32;

const SLOW: u64 = 1_024;

/// How many conflicts the search goes on at least before it starts anew.
const PAUSE: u64 = 5;

/// What the newest conflicts were like.
pub struct Order {
    ranked: Vec<(u64, usize)>,
    conflicts: u64,
    // The conflict after which the search was started anew last.
    restarted: u64,
    // For each level the newest conflict whose clause has a literal of it.
    met: Vec<u64>,
    // The two means of numbers of levels.
    newest: u64,
    all: u64,
}

impl Drop for Order {
    fn drop(self) {
        let Order {
            ranked: _,
            conflicts: _,
            restarted: _,
            met: _,
            newest: _,
            all: _,
        } = self;
    }
}

// A mean of so many numbers in which one is replaced by a new number.
fn moving_average(mean: u64, number: u64, count: u64) -> u64
    requires { 0 < count }
{
    mean.saturating_sub(mean / count)
        .saturating_add(number / count)
}

impl Order {
    /// Before the first conflict.
    pub fn new(alloc: Global, vars: usize) -> Result<Order, AllocError> {
        Ok(Order {
            ranked: Vec::new(alloc),
            conflicts: 0,
            restarted: 0,
            met: vec![in alloc; 0; vars.saturating_add(1)]?,
            newest: 0,
            all: 0,
        })
    }

    /// Puts variables into the order of their stamps, the least first.
    pub fn arrange(&mut self, stamps: &[u64], walked: &mut [usize]) -> Result<(), AllocError> {
        self.ranked.clear();
        for var in walked.iter() {
            self.ranked
                .push((stamps.get(*var).copied().unwrap_or(0), *var))?;
        }
        self.ranked.sort_unstable();
        for i in 0..walked.len() {
            if let Some((_, var)) = self.ranked.get(i).copied() {
                walked[i] = var;
            }
        }
        Ok(())
    }

    // Whether the level of a variable was not met before in the clause of this conflict. Then it is now.
    fn meets(&mut self, levels: &[usize], var: usize) -> bool {
        let level = levels.get(var).copied().unwrap_or(0);
        match self.met.get_mut(level) {
            Some(conflict) => {
                let is_new = *conflict != self.conflicts;
                *conflict = self.conflicts;
                is_new
            }
            None => false,
        }
    }

    /// Counts a conflict and the levels of its clause, where these are the levels of the variables.
    pub fn count(&mut self, levels: &[usize], clause: &[Dim]) {
        self.conflicts = self.conflicts.saturating_add(1);
        let mut found: u64 = 0;
        for d in clause {
            if self.meets(levels, d.var) {
                found = found.saturating_add(1);
            }
        }
        let scaled = found.saturating_mul(SCALE);
        self.newest = moving_average(self.newest, scaled, FAST);
        self.all = moving_average(self.all, scaled, self.conflicts.clamp(1, SLOW));
    }

    // Whether the newest clauses have over 1.1 times as many levels as all had.
    fn is_worse(&self) -> bool {
        self.newest.saturating_mul(10) > self.all.saturating_mul(11)
    }

    /// Whether the search is to start anew after this conflict: where the newest clauses have many levels, and it has not just been
    /// started anew. Then it is taken to be so.
    pub fn is_restart_due(&mut self) -> bool {
        let is_early = self.conflicts.saturating_sub(self.restarted) < PAUSE;
        if is_early || !self.is_worse() {
            return false;
        }
        self.restarted = self.conflicts;
        true
    }
}
