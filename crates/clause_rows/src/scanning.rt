//! A plain solver. It tries one value after another and looks at all clauses after each. It shares no code with the solver that
//! it is compared with, not even what a clause is under values, and is kept as simple as it can be, without any contract; so it
//! gives up after a number of turns, and rows are small.

use cnf::{ClauseState, Cnf, Dim};
use std::alloc::{AllocError, Global};

// A variable with a value, and whether the other one is still to be tried.
#[derive(Clone, Copy)]
struct Trial {
    var: usize,
    untried: bool,
}

#[derive(Drop)]
struct Scanning {
    values: Vec<Option<bool>>,
    trials: Vec<Trial>,
}

fn value_of(values: &[Option<bool>], var: usize) -> Option<bool> {
    match values.get(var) {
        Some(value) => *value,
        None => None,
    }
}

fn set_value(values: &mut [Option<bool>], var: usize, value: Option<bool>) {
    if let Some(old) = values.get_mut(var) {
        *old = value;
    }
}

// What a clause is under these values.
fn state_of(values: &[Option<bool>], clause: &[Dim]) -> ClauseState {
    let mut open: Option<Dim> = None;
    for d in clause {
        match value_of(values, d.var) {
            Some(value) => {
                if value != d.negated {
                    return ClauseState::Neither;
                }
            }
            None => match open {
                None => {
                    open = Some(*d);
                }
                Some(e) => {
                    if e != *d {
                        return ClauseState::Neither;
                    }
                }
            },
        }
    }
    match open {
        None => ClauseState::Conflict,
        Some(d) => ClauseState::Unit(d),
    }
}

// The state of the first clause that is false or unit.
fn first_state(values: &[Option<bool>], clauses: &[Vec<Dim>]) -> ClauseState {
    for clause in clauses {
        let state = state_of(values, clause.as_slice());
        if state != ClauseState::Neither {
            return state;
        }
    }
    ClauseState::Neither
}

fn first_open(values: &[Option<bool>]) -> Option<usize> {
    values.iter().position(|value| value.is_none())
}

impl Scanning {
    // Makes a literal true.
    fn set(&mut self, d: Dim, untried: bool) -> Result<(), AllocError> {
        set_value(&mut self.values, d.var, Some(!d.negated));
        let trial = Trial {
            var: d.var,
            untried,
        };
        Ok(self.trials.push(trial)?)
    }

    // Goes back to the newest variable whose other value is untried, and takes that. Answers whether there is one.
    fn go_back(&mut self) -> Result<bool, AllocError> {
        for _ in 0..self.trials.len() {
            let trial = match self.trials.pop() {
                Some(trial) => trial,
                None => return Ok(false),
            };
            let negated = value_of(&self.values, trial.var) == Some(true);
            set_value(&mut self.values, trial.var, None);
            if trial.untried {
                let d = Dim {
                    var: trial.var,
                    negated,
                };
                self.set(d, false)?;
                return Ok(true);
            }
        }
        Ok(false)
    }
}

impl Scanning {
    // What a look at the clauses leads to: whether they have a solution, or none where more is to be tried.
    fn turn(&mut self, clauses: &[Vec<Dim>]) -> Result<Option<bool>, AllocError> {
        match first_state(&self.values, clauses) {
            ClauseState::Conflict => self.retreat(),
            ClauseState::Unit(d) => {
                self.set(d, false)?;
                Ok(None)
            }
            ClauseState::Neither => self.advance(),
        }
    }

    fn retreat(&mut self) -> Result<Option<bool>, AllocError> {
        let more = self.go_back()?;
        Ok(if more { None } else { Some(false) })
    }

    fn advance(&mut self) -> Result<Option<bool>, AllocError> {
        match first_open(&self.values) {
            None => Ok(Some(true)),
            Some(var) => {
                let d = Dim {
                    var,
                    negated: false,
                };
                self.set(d, true)?;
                Ok(None)
            }
        }
    }

    fn run(&mut self, clauses: &[Vec<Dim>]) -> Result<Option<bool>, AllocError> {
        for _ in 0..100_000u32 {
            let ended = self.turn(clauses)?;
            if ended.is_some() {
                return Ok(ended);
            }
        }
        Ok(None)
    }
}

// One more than the greatest variable that clauses name.
fn named(clauses: &[Vec<Dim>]) -> usize {
    let mut count: usize = 0;
    for clause in clauses {
        for d in clause.as_slice() {
            count = count.max(d.var.saturating_add(1));
        }
    }
    count
}

/// Whether the clauses have a solution. None where that takes too long.
pub fn scanned(alloc: Global, cnf: &Cnf) -> Result<Option<bool>, AllocError> {
    let open: Option<bool> = None;
    let mut scanning = Scanning {
        values: vec![in alloc; open; named(&cnf.clauses)]?,
        trials: Vec::new(alloc),
    };
    scanning.run(&cnf.clauses)
}
