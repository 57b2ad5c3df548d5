//! Which literals of a new clause the others imply (clause minimisation, after Sorensson and Biere, 2009): those whose reasons
//! lead, by any number of steps, to literals of the clause alone. A literal is looked up by its reason, and those of the reason
//! in their turn, up to one that was decided or that is of a level on which the clause has none; what was found is kept for the
//! next literal of the clause. After some literals the search gives up, since each that is left out costs the log as many hints
//! as there were steps.
//!
//! It is a choice of speed alone, of which no proof says anything: what is left out is resolved away by its reason, and the clause
//! is right whichever literals these are.

use sat_state::store::Store;
use sat_state::trail::{Assigned, Trail};
use std::alloc::{AllocError, Global};

/// How many literals are looked at for one literal of a clause.
const LOOKS: usize = 30;

/// What is known of a literal.
#[derive(Clone, Copy)]
enum Verdict {
    Unknown,
    Implied,
    Free,
}

/// A literal on the way, by its variable, and how many literals of its reason were looked at.
#[derive(Clone, Copy)]
struct Visit {
    var: usize,
    looked: usize,
}

/// What is known of the literals of the trail while one clause is made.
pub struct Redundancy {
    verdicts: Vec<Verdict>,
    // The variables that have a verdict.
    told: Vec<usize>,
    // The literals that are open, from the one of the clause on.
    path: Vec<Visit>,
    // For each level the newest clause that has a literal of it.
    met: Vec<u64>,
    clauses: u64,
}

impl Drop for Redundancy {
    fn drop(self) {
        let Redundancy {
            verdicts: _,
            told: _,
            path: _,
            met: _,
            clauses: _,
        } = self;
    }
}

/// What comes after a literal of a reason.
enum Turn {
    /// The next one is looked at.
    On,
    /// This variable is to be looked up first.
    Down(usize),
    /// The literal is not implied.
    Stop,
}

impl Redundancy {
    /// Before the first clause, for so many variables.
    pub fn new(alloc: Global, vars: usize) -> Result<Redundancy, AllocError> {
        Ok(Redundancy {
            verdicts: vec![in alloc; Verdict::Unknown; vars]?,
            told: Vec::new(alloc),
            path: Vec::new(alloc),
            met: vec![in alloc; 0; vars.saturating_add(1)]?,
            clauses: 0,
        })
    }

    /// Begins with a clause: the literals of these entries of the trail that are seen.
    pub fn begin(&mut self, trail: &Trail, entries: &[Assigned], seen: &[bool]) {
        for var in self.told.iter() {
            if let Some(verdict) = self.verdicts.get_mut(*var) {
                *verdict = Verdict::Unknown;
            }
        }
        self.told.clear();
        self.clauses = self.clauses.saturating_add(1);
        for e in entries {
            if is_seen(seen, e.dim.var) {
                self.meet(trail.last_level(e.dim.var));
            }
        }
    }

    // Notes that the clause has a literal of a level.
    fn meet(&mut self, level: usize) {
        if let Some(clause) = self.met.get_mut(level) {
            *clause = self.clauses;
        }
    }

    // Whether the clause has a literal of a level.
    fn is_met(&self, level: usize) -> bool {
        self.met.get(level).copied() == Some(self.clauses)
    }

    // What is known of a variable.
    fn verdict(&self, var: usize) -> Verdict {
        self.verdicts.get(var).copied().unwrap_or(Verdict::Free)
    }

    // Notes what is known of a variable.
    fn tell(&mut self, var: usize, told: Verdict) -> Result<(), AllocError> {
        if let Some(verdict) = self.verdicts.get_mut(var) {
            *verdict = told;
        }
        self.told.push(var)?;
        Ok(())
    }

    // Takes a variable for not implied, and all from which the way led to it.
    fn give_up(&mut self) -> Result<bool, AllocError> {
        for _ in 0..self.path.len() {
            if let Some(visit) = self.path.pop() {
                self.tell(visit.var, Verdict::Free)?;
            }
        }
        Ok(false)
    }

    // What comes of one literal of a reason.
    fn turn(&self, trail: &Trail, seen: &[bool], of: usize, var: usize) -> Turn {
        if var == of || is_seen(seen, var) {
            return Turn::On;
        }
        match self.verdict(var) {
            Verdict::Implied => Turn::On,
            Verdict::Free => Turn::Stop,
            Verdict::Unknown => {
                if trail.reason_of(var).is_some() && self.is_met(trail.last_level(var)) {
                    Turn::Down(var)
                } else {
                    Turn::Stop
                }
            }
        }
    }

    // Looks at the next literal of the reason of the last literal on the way. Answers whether the way goes on.
    fn look(
        &mut self,
        trail: &Trail,
        store: &Store,
        seen: &[bool],
        visit: Visit,
    ) -> Result<bool, AllocError> {
        match next_variable(trail, store, visit) {
            None => self.tell(visit.var, Verdict::Implied)?,
            Some(var) => {
                match self.turn(trail, seen, visit.var, var) {
                    Turn::Stop => return Ok(false),
                    Turn::On => self.path.push(behind(visit))?,
                    Turn::Down(down) => {
                        self.path.push(behind(visit))?;
                        self.path.push(Visit {
                            var: down,
                            looked: 0,
                        })?;
                    }
                }
            }
        }
        Ok(true)
    }

    /// Whether the literal of a variable, which is seen, is implied by others that are, as far as was looked.
    pub fn is_redundant(
        &mut self,
        trail: &Trail,
        store: &Store,
        seen: &[bool],
        var: usize,
    ) -> Result<bool, AllocError> {
        match self.verdict(var) {
            Verdict::Implied => return Ok(true),
            Verdict::Free => return Ok(false),
            Verdict::Unknown => {}
        }
        self.path.clear();
        self.path.push(Visit { var, looked: 0 })?;
        for _ in 0..LOOKS {
            match self.path.pop() {
                None => return Ok(true),
                Some(visit) => {
                    if !self.look(trail, store, seen, visit)? {
                        self.path.push(visit)?;
                        return self.give_up();
                    }
                }
            }
        }
        self.give_up()
    }
}

// Whether a variable is seen.
fn is_seen(seen: &[bool], var: usize) -> bool {
    seen.get(var).copied().unwrap_or(false)
}

// The visit, with one literal more that was looked at.
fn behind(visit: Visit) -> Visit {
    Visit {
        var: visit.var,
        looked: visit.looked.saturating_add(1),
    }
}

// The variable of the literal of the reason that is to be looked at, if there is one.
fn next_variable(trail: &Trail, store: &Store, visit: Visit) -> Option<usize> {
    let reason = trail.reason_of(visit.var)?;
    if reason >= store.len() {
        return None;
    }
    let d = store.clause(reason).get(visit.looked)?;
    Some(d.dim().var)
}
