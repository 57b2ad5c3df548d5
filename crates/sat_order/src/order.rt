//! Decisions: which open variable comes next, by the queue or by scores, and what its value is. Where conflicts walk over many
//! variables the scores tell it, and else the queue.

use crate::phases::Phases;
use crate::queue::Queue;
use crate::restarts::Pace;
use crate::scores::Scores;
use sat_arena::constants::{LONG_WALK, SHORT_WALK};
use sat_arena::trail::{Trail, is_open};
use sat_arena::words::{Lit, at, filled, is_set, lit_of, narrow, put};
use std::alloc::Global;

/// In which order variables are decided, and which are not, since no clause has them any more.
pub struct Order {
    pub queue: Queue,
    scores: Scores,
    // Whether variables are decided by scores, and not by the queue.
    is_scored: bool,
    pub phases: Phases,
    /// Of each variable whether it was taken out of the clauses, and how many were.
    pub gone: Vec<bool>,
    pub left_out: usize,
    // The variables of a conflict, behind their stamps in the queue.
    ranked: Vec<(u64, u32)>,
    /// Whether there was no room for something.
    pub is_short: bool,
}

impl Drop for Order {
    fn drop(self) {
        let Order {
            queue: _,
            scores: _,
            is_scored: _,
            phases: _,
            gone: _,
            left_out: _,
            ranked: _,
            is_short: _,
        } = self;
    }
}

impl Order {
    /// So many variables, the greatest first, which are true.
    pub fn new(alloc: Global, vars: usize) -> Order {
        let mut is_short = false;
        let queue = Queue::new(alloc, narrow(vars), &mut is_short);
        let phases = Phases::new(alloc, vars, &mut is_short);
        let gone = filled(alloc, false, vars, &mut is_short);
        Order {
            queue,
            scores: Scores::new(alloc),
            is_scored: false,
            phases,
            gone,
            left_out: 0,
            ranked: Vec::new(alloc),
            is_short,
        }
    }

    /// Notes that a variable is taken out of the clauses.
    pub fn leave_out(&mut self, var: u32) {
        put(&mut self.gone, var as usize, true);
        self.queue.remove(var);
        self.left_out = self.left_out.saturating_add(1);
    }

    // The variable that is to be decided next, if some is open.
    fn open_variable(&mut self, trail: &Trail) -> Option<u32> {
        if self.is_scored {
            self.scores.open_variable(&trail.values, &self.gone)
        } else {
            self.queue.open_variable(&trail.values, &self.gone)
        }
    }

    /// Decides a variable. Answers whether some was open.
    pub fn decide(&mut self, trail: &mut Trail) -> bool {
        match self.open_variable(trail) {
            None => false,
            Some(var) => {
                let value = is_set(&self.phases.saved, var as usize);
                trail.decide(lit_of(var, value));
                true
            }
        }
    }

    // How soon a variable is decided: a greater number comes first.
    fn rank(&self, var: u32) -> u64 {
        if self.is_scored {
            self.scores.score(var)
        } else {
            self.queue.stamp(var)
        }
    }

    // The level up to which all comes before a variable of this rank.
    fn level_before(&self, trail: &Trail, rank: u64) -> u32 {
        for level in 0..trail.level() {
            let place = trail.start(level.saturating_add(1));
            let lit = at(&trail.lits, place);
            if self.rank(lit / 2) <= rank {
                return level;
            }
        }
        trail.level()
    }

    /// The level up to which all would be decided again, if the search began anew (van der Tak and others 2011).
    pub fn kept_level(&mut self, trail: &Trail) -> u32 {
        match self.open_variable(trail) {
            None => trail.level(),
            Some(var) => self.level_before(trail, self.rank(var)),
        }
    }

    // Notes that a literal has no value any more.
    fn reopen(&mut self, lit: Lit) {
        self.phases.save(lit);
        if self.is_scored {
            self.scores.insert(lit / 2);
        } else {
            self.queue.reopen(lit / 2);
        }
    }

    /// Goes back to a level.
    pub fn backtrack(&mut self, trail: &mut Trail, level: u32) {
        if level >= trail.level() {
            return;
        }
        self.phases.keep_best(&trail.lits);
        let start = trail.start(level.saturating_add(1));
        for _ in start..trail.lits.len() {
            if let Some(lit) = trail.pop() {
                self.reopen(lit);
            }
        }
        trail.leave(level);
    }

    /// Lets the variables come first that a conflict walked over. By how many these are it begins or ends to decide by scores.
    pub fn bump(&mut self, pace: &mut Pace, vars: &[u32], trail: &Trail) {
        pace.count_walk(narrow(vars.len()));
        if self.is_scored && !pace.is_walk_long(SHORT_WALK) {
            self.is_scored = false;
            self.queue.rewind();
        } else if !self.is_scored && pace.is_walk_long(LONG_WALK) {
            self.is_scored = true;
            self.scores.begin(self.gone.len(), &mut self.is_short);
        }
        if self.is_scored {
            self.scores.bump_all(vars);
        } else {
            self.queue
                .rank_all(vars, &mut self.ranked, &mut self.is_short);
            self.queue.bump_all(&self.ranked, &trail.values, &self.gone);
        }
    }
}
