//! The cone of influence of two variables: what their gates read, what the gates of these read, and so on, the nearest first, up to
//! some number. Whether two literals are equal is mostly told by what lies near to them, so that nothing else is decided for a
//! pair.

use sat_arena::arena::Arena;
use sat_arena::constants::PAIR_GATES;
use sat_arena::trail::is_open;
use sat_arena::words::{Lit, NONE, at, filled, is_set, lit_of, push, put, var_of};
use sat_cdcl::database::Database;
use sat_order::order::Order;
use std::alloc::Global;

/// Two literals that are to be refuted together, and the variables of their cone in the order in which they are decided.
pub struct Cone {
    pub first: Lit,
    pub second: Lit,
    /// They are found when they are asked for, while there are none.
    pub vars: Vec<u32>,
    /// Before this place no variable is open.
    pub next: usize,
    // For each variable the newest cone that it is in.
    stamps: Vec<u32>,
    stamp: u32,
}

impl Drop for Cone {
    fn drop(self) {
        let Cone {
            first: _,
            second: _,
            vars: _,
            next: _,
            stamps: _,
            stamp: _,
        } = self;
    }
}

impl Cone {
    /// An empty one, of so many variables, or of none, where it notes that there is no room.
    pub fn new(alloc: Global, vars: usize, is_short: &mut bool) -> Cone {
        Cone {
            first: 0,
            second: 0,
            vars: Vec::new(alloc),
            next: 0,
            stamps: filled(alloc, 0, vars, is_short),
            stamp: 0,
        }
    }

    // Adds the variables of literals that are not in the cone.
    fn add(&mut self, literals: &[Lit], is_short: &mut bool) {
        for lit in literals {
            if at(&self.stamps, var_of(*lit)) != self.stamp {
                put(&mut self.stamps, var_of(*lit), self.stamp);
                push(&mut self.vars, *lit / 2, is_short);
            }
        }
    }

    // Finds its variables, where each variable has this gate. What is looked at for that counts as work.
    fn make(&mut self, arena: &Arena, gates: &[u32], work: &mut u64, is_short: &mut bool) {
        self.stamp = self.stamp.wrapping_add(1);
        let pair = [self.first, self.second];
        self.add(&pair, is_short);
        for k in 0..PAIR_GATES {
            if k >= self.vars.len() {
                break;
            }
            let gate = at(gates, at(&self.vars, k) as usize);
            if gate != NONE {
                *work = work.saturating_add(1);
                self.add(arena.literals(gate), is_short);
            }
        }
    }

    /// Decides the next open variable, where each has this gate. Answers whether some was open.
    pub fn decide(
        &mut self,
        data: &mut Database,
        order: &Order,
        gates: &[u32],
        work: &mut u64,
    ) -> bool {
        if self.vars.is_empty() {
            self.make(&data.arena, gates, work, &mut data.is_short);
        }
        for k in self.next..self.vars.len() {
            let var = at(&self.vars, k);
            if is_open(&data.trail.values, &order.gone, var) {
                self.next = k;
                let value = is_set(&order.phases.saved, var as usize);
                data.trail.decide(lit_of(var, value));
                return true;
            }
        }
        false
    }
}
