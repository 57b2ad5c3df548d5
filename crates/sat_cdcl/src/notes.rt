//! Conflict analysis: what is learned is the clause of the first cut of the reasons with one literal of the newest level (first
//! unique implication point, first UIP, Marques-Silva and Sakallah 1996, Zhang and others 2001), without literals that the others
//! imply, where reasons of reasons tell so (clause minimisation, Soerensson and Biere 2009). Here is noted which variables were met,
//! which literals the clause gets, and by which clauses it follows. All of this room is used again for the next conflict.

use sat_arena::arena::{Arena, Status};
use sat_arena::constants::{DEPTH, OTHER_USES, TIER1_GLUE, TIER2_GLUE, TIER2_USES};
use sat_arena::trail::{Fact, Trail};
use sat_arena::words::{Lit, NONE, at, at_or, filled, narrow, push, put, var_of};
use std::alloc::Global;

/// What is known of a literal that may be left out of the clause.
#[derive(Clone, Copy)]
enum Verdict {
    Unknown,
    /// The clause implies it.
    Implied,
    /// It does not, as far as was looked.
    Free,
    /// It does, and the hints say so.
    Explained,
}

/// What is noted of a variable.
#[derive(Clone, Copy)]
struct Mark {
    is_met: bool,
    verdict: Verdict,
}

const NO_MARK: Mark = Mark {
    is_met: false,
    verdict: Verdict::Unknown,
};

/// What is noted of a level: how many literals of the clause are of it, and the first place of these on the trail.
#[derive(Clone, Copy)]
struct Part {
    count: u32,
    first: u32,
}

const NO_PART: Part = Part {
    count: 0,
    first: NONE,
};

/// A variable on the way from one of the clause, and how many literals of its reason were looked at.
#[derive(Clone, Copy)]
struct Visit {
    var: usize,
    looked: u32,
}

/// What is still to be done to note why a variable has its value: all of it, or, behind what its reason rests on, the reason itself.
#[derive(Clone, Copy)]
enum Task {
    Explain(u32),
    Cite(u32),
}

/// The notes on one conflict.
pub struct Notes {
    // Of each variable.
    marks: Vec<Mark>,
    /// The variables that were met.
    pub met: Vec<u32>,
    // Those that have a verdict.
    told: Vec<u32>,
    // Of each level.
    parts: Vec<Part>,
    /// Which levels older literals of the clause have.
    pub levels: Vec<u32>,
    // For each level the newest count of levels that came to it.
    stamps: Vec<u64>,
    stamp: u64,
    // The way along reasons, and whose reasons are still to be noted.
    path: Vec<Visit>,
    open: Vec<Task>,
    // The numbers of the clauses that were gone through, the newest first.
    chain: Vec<u32>,
    /// The literals of the clause, of which the first is that of the newest level.
    pub clause: Vec<Lit>,
    /// The numbers of the clauses by which it follows.
    pub hints: Vec<u32>,
    /// Whether there was no room for something.
    pub is_short: bool,
}

impl Drop for Notes {
    fn drop(self) {
        let Notes {
            marks: _,
            met: _,
            told: _,
            parts: _,
            levels: _,
            stamps: _,
            stamp: _,
            path: _,
            open: _,
            chain: _,
            clause: _,
            hints: _,
            is_short: _,
        } = self;
    }
}

impl Notes {
    /// For so many variables.
    pub fn new(alloc: Global, vars: usize) -> Notes {
        let levels = vars.saturating_add(1);
        let mut is_short = false;
        let marks = filled(alloc, NO_MARK, vars, &mut is_short);
        let parts = filled(alloc, NO_PART, levels, &mut is_short);
        let stamps = filled(alloc, 0, levels, &mut is_short);
        Notes {
            marks,
            met: Vec::new(alloc),
            told: Vec::new(alloc),
            parts,
            levels: Vec::new(alloc),
            stamps,
            stamp: 0,
            path: Vec::new(alloc),
            open: Vec::new(alloc),
            chain: Vec::new(alloc),
            clause: Vec::new(alloc),
            hints: Vec::new(alloc),
            is_short,
        }
    }

    /// Begins with a clause that has a place for its first literal.
    pub fn begin(&mut self) {
        self.clause.clear();
        self.hints.clear();
        push(&mut self.clause, NONE, &mut self.is_short);
    }

    // The mark of a variable.
    #[inline]
    fn mark(&self, var: usize) -> Mark {
        at_or(&self.marks, var, NO_MARK)
    }

    /// Whether a variable was met.
    #[inline]
    pub fn is_met(&self, var: usize) -> bool {
        let mark = self.mark(var);
        mark.is_met
    }

    // Notes what is known of a variable.
    fn tell(&mut self, var: usize, verdict: Verdict) {
        let mark = self.mark(var);
        put(&mut self.marks, var, Mark { verdict, ..mark });
        push(&mut self.told, narrow(var), &mut self.is_short);
    }

    // The part of a level.
    fn part(&self, level: u32) -> Part {
        at_or(&self.parts, level as usize, NO_PART)
    }

    // Puts a literal of an older level into the clause.
    fn put_older(&mut self, lit: Lit, fact: Fact) {
        let part = self.part(fact.level);
        if part.count == 0 {
            push(&mut self.levels, fact.level, &mut self.is_short);
        }
        let part = Part {
            count: part.count.saturating_add(1),
            first: part.first.min(fact.place),
        };
        put(&mut self.parts, fact.level as usize, part);
        push(&mut self.clause, lit, &mut self.is_short);
    }

    // Takes a literal of a clause that is gone through. Answers whether it is of the newest level and was not met before.
    #[inline]
    fn take(&mut self, trail: &Trail, lit: Lit) -> bool {
        let var = var_of(lit);
        let mark = self.mark(var);
        if mark.is_met {
            return false;
        }
        let is_met = true;
        put(&mut self.marks, var, Mark { is_met, ..mark });
        push(&mut self.met, lit / 2, &mut self.is_short);
        let fact = trail.fact(var);
        if fact.level == trail.level() {
            return true;
        }
        if fact.level == 0 {
            push(&mut self.hints, trail.unit(var), &mut self.is_short);
        } else {
            self.put_older(lit, fact);
        }
        false
    }

    /// Goes through a clause whose literals are false, but for one that was met. Answers how many literals of the newest level it has
    /// that were not.
    pub fn trace(&mut self, arena: &mut Arena, trail: &Trail, clause: u32) -> u32 {
        self.use_clause(arena, trail, clause);
        push(&mut self.chain, arena.number(clause), &mut self.is_short);
        let mut count: u32 = 0;
        for lit in arena.literals(clause) {
            if self.take(trail, *lit) {
                count = count.saturating_add(1);
            }
        }
        count
    }

    // Notes that a clause is of use. Its levels are counted anew, as they may be fewer by now.
    fn use_clause(&mut self, arena: &mut Arena, trail: &Trail, clause: u32) {
        let status = arena.status(clause);
        if !status.is_learned {
            return;
        }
        let mut glue = status.glue;
        if glue > TIER1_GLUE {
            glue = self.count_levels(trail, arena.literals(clause), glue);
        }
        let used = uses(glue);
        arena.set_status(
            clause,
            Status {
                used,
                glue,
                ..status
            },
        );
    }

    // How many levels literals have, or `most` if they have no fewer.
    fn count_levels(&mut self, trail: &Trail, literals: &[Lit], most: u32) -> u32 {
        self.stamp = self.stamp.saturating_add(1);
        let mut count: u32 = 0;
        for lit in literals {
            if count >= most {
                break;
            }
            let fact = trail.fact(var_of(*lit));
            let level = fact.level as usize;
            if level < self.stamps.len() && self.stamps[level] != self.stamp {
                put(&mut self.stamps, level, self.stamp);
                count = count.saturating_add(1);
            }
        }
        count
    }

    // What can be told of a literal without looking at its reason. An inner one is not of the clause, but of a reason.
    fn known(&self, trail: &Trail, var: usize, is_inner: bool) -> Verdict {
        let mark = self.mark(var);
        if is_inner && mark.is_met {
            return Verdict::Implied;
        }
        match mark.verdict {
            Verdict::Unknown => {}
            told => return told,
        }
        let fact = trail.fact(var);
        if fact.level == 0 {
            return Verdict::Implied;
        }
        let part = self.part(fact.level);
        let least = if is_inner { 1 } else { 2 };
        if fact.reason == NONE || part.count < least || fact.place <= part.first {
            return Verdict::Free;
        }
        Verdict::Unknown
    }

    // Looks through the reason of a variable, up to a literal that is to be looked up first, or does not follow. Answers whether
    // the way goes on.
    fn look(&mut self, arena: &Arena, trail: &Trail, visit: Visit) -> bool {
        let fact = trail.fact(visit.var);
        for k in visit.looked..arena.size(fact.reason) {
            let other = var_of(arena.literal(fact.reason, k));
            if other != visit.var {
                match self.known(trail, other, true) {
                    Verdict::Implied => {}
                    Verdict::Explained => {}
                    Verdict::Free => return false,
                    Verdict::Unknown => {
                        self.go_to(visit.var, k.wrapping_add(1));
                        self.go_to(other, 0);
                        return self.path.len() < DEPTH;
                    }
                }
            }
        }
        self.tell(visit.var, Verdict::Implied);
        true
    }

    // Puts a variable behind the others on the way.
    fn go_to(&mut self, var: usize, looked: u32) {
        push(&mut self.path, Visit { var, looked }, &mut self.is_short);
    }

    // Takes a variable for one that does not follow, and all from which the way led to it.
    fn give_up(&mut self, var: usize) {
        self.tell(var, Verdict::Free);
        for _ in 0..self.path.len() {
            if let Some(visit) = self.path.pop() {
                self.tell(visit.var, Verdict::Free);
            }
        }
    }

    // Whether a literal of the clause follows from the others.
    fn is_implied(&mut self, arena: &Arena, trail: &Trail, var: usize) -> bool {
        match self.known(trail, var, false) {
            Verdict::Implied => true,
            Verdict::Explained => true,
            Verdict::Free => false,
            Verdict::Unknown => self.is_reached(arena, trail, var),
        }
    }

    // Whether a literal of the clause follows from the others, by reasons that are to be looked through.
    fn is_reached(&mut self, arena: &Arena, trail: &Trail, var: usize) -> bool {
        self.path.clear();
        self.go_to(var, 0);
        for _ in 0..u64::MAX {
            match self.path.pop() {
                None => break,
                Some(visit) => {
                    if !self.look(arena, trail, visit) {
                        self.give_up(visit.var);
                        return false;
                    }
                }
            }
        }
        true
    }

    // Whether it is still to be noted why a variable has its value: it was left out of the clause, or others were by its value.
    fn is_unexplained(&self, trail: &Trail, var: usize) -> bool {
        let mark = self.mark(var);
        match mark.verdict {
            Verdict::Implied => true,
            Verdict::Explained => false,
            _ => {
                let fact = trail.fact(var);
                fact.level == 0 && !mark.is_met
            }
        }
    }

    // Notes why a variable has its value, where that is to be done: its reason stands behind what that rests on.
    fn explain(&mut self, arena: &Arena, trail: &Trail, var: u32) {
        if !self.is_unexplained(trail, var as usize) {
            return;
        }
        self.tell(var as usize, Verdict::Explained);
        let fact = trail.fact(var as usize);
        if fact.level == 0 {
            push(
                &mut self.hints,
                trail.unit(var as usize),
                &mut self.is_short,
            );
        } else {
            self.open_reason(arena, trail, fact.reason);
        }
    }

    // Opens what a reason rests on, before the reason itself.
    fn open_reason(&mut self, arena: &Arena, trail: &Trail, reason: u32) {
        push(&mut self.open, Task::Cite(reason), &mut self.is_short);
        for lit in arena.literals(reason) {
            if self.is_unexplained(trail, var_of(*lit)) {
                push(&mut self.open, Task::Explain(*lit / 2), &mut self.is_short);
            }
        }
    }

    // Does what is still to be done to note why a variable has its value.
    fn work_off(&mut self, arena: &Arena, trail: &Trail, task: Task) {
        match task {
            Task::Explain(var) => self.explain(arena, trail, var),
            Task::Cite(reason) => push(&mut self.hints, arena.number(reason), &mut self.is_short),
        }
    }

    // Notes why the open variables have their values.
    fn explain_all(&mut self, arena: &Arena, trail: &Trail) {
        for _ in 0..u64::MAX {
            match self.open.pop() {
                None => break,
                Some(task) => self.work_off(arena, trail, task),
            }
        }
    }

    // Leaves out what the clause implies.
    fn minimize(&mut self, arena: &Arena, trail: &Trail) {
        let mut kept: usize = 1;
        for k in 1..self.clause.len() {
            let lit = at(&self.clause, k);
            if self.is_implied(arena, trail, var_of(lit)) {
                push(&mut self.open, Task::Explain(lit / 2), &mut self.is_short);
            } else {
                put(&mut self.clause, kept, lit);
                kept = kept.wrapping_add(1);
            }
        }
        self.clause.truncate(kept);
        self.explain_all(arena, trail);
    }

    /// Puts the clauses that were gone through behind the hints, the last one first.
    pub fn close(&mut self) {
        let chain = &mut self.chain;
        for k in (0..chain.len()).rev() {
            push(&mut self.hints, chain[k], &mut self.is_short);
        }
        chain.clear();
    }

    // Goes through reasons from a clause that is false, up to the first literal of the newest level on which all others of it rest. Answers
    // its negation.
    fn find_first(&mut self, arena: &mut Arena, trail: &Trail, conflict: u32) -> Lit {
        let mut open = self.trace(arena, trail, conflict);
        for place in (0..trail.lits.len()).rev() {
            let lit = at(&trail.lits, place);
            if self.is_met(var_of(lit)) {
                open = open.saturating_sub(1);
                if open == 0 {
                    return lit ^ 1;
                }
                let fact = trail.fact(var_of(lit));
                open = open.saturating_add(self.trace(arena, trail, fact.reason));
            }
        }
        NONE
    }

    /// Finds the clause that a conflict teaches, and its hints. Answers the level to which to go back.
    pub fn analyze(&mut self, arena: &mut Arena, trail: &Trail, conflict: u32) -> u32 {
        self.begin();
        let first = self.find_first(arena, trail, conflict);
        put(&mut self.clause, 0, first);
        self.minimize(arena, trail);
        self.close();
        put_second(&mut self.clause, trail)
    }

    /// Takes all marks back.
    pub fn clear(&mut self) {
        forget(&mut self.marks, &mut self.told, NO_MARK);
        forget(&mut self.marks, &mut self.met, NO_MARK);
        forget(&mut self.parts, &mut self.levels, NO_PART);
    }
}

/// For how many reductions a clause of this glue stays that is used.
pub fn uses(glue: u32) -> u32 {
    if glue <= TIER2_GLUE {
        TIER2_USES
    } else {
        OTHER_USES
    }
}

// Puts a literal of the newest of the older levels behind the first. Answers that level.
fn put_second(clause: &mut Vec<Lit>, trail: &Trail) -> u32 {
    let mut newest: u32 = 0;
    for k in 1..clause.len() {
        let lit = at(clause, k);
        let fact = trail.fact(var_of(lit));
        if fact.level > newest {
            newest = fact.level;
            let second = at(clause, 1);
            put(clause, k, second);
            put(clause, 1, lit);
        }
    }
    newest
}

// Forgets what is noted at these places, and the places.
fn forget<T: Copy>(notes: &mut Vec<T>, places: &mut Vec<u32>, nothing: T) {
    for k in 0..places.len() {
        put(notes, at(places, k) as usize, nothing);
    }
    places.clear();
}
