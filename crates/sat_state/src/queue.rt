//! The variables in the order in which they are decided, and a pointer before which none is open: the queue of VMTF (variable
//! move-to-front, of Siege; Ryan, 2004), with the stamps of Biere and Froehlich (2015). Stamps fall along the list, so that two
//! variables are compared without a walk when one is open again. Where the pointer has passed the end, each variable has a value,
//! so nothing is looked through for that; a variable that moves to the front gets a greater stamp, and where stamps are used up
//! none moves.

ghost use Rattle.std.specs.Prelude.{◌≡◌, ℕ, ◌+◌, ◌-◌, ◌<◌, ◌≤◌, Bool, Option, Some, None, ◌⊎◌, ◌^◌, List, ◌∷◌, length, IfOk, MatchBool, MatchOption, IfSome, slice_set};
ghost use Rattle.std.specs.List.{All};
ghost use Rattle.idx_list.specs.Order.{without};
ghost use Rattle.cnf.specs.Clauses.{valuation};
ghost use Rattle.sat_state.specs.Queue.{stamp_at, IsListed, IsQueue};

use idx_list::IdxList;
use std::alloc::{AllocError, Global};

/// All variables, the one that was moved last at the front. Stamps tell of two variables which one stands before the other.
pub struct Queue {
    list: IdxList,
    stamps: Vec<u64>,
    clock: u64,
    next: Option<usize>,
}

impl Drop for Queue {
    fn drop(self) {
        let Queue {
            list: _,
            stamps: _,
            clock: _,
            next: _,
        } = self;
    }
}

// Whether the variable has no value.
fn is_open(values: &[Option<bool>], var: usize) -> bool
    requires { var < length values.now }
    ensures { MatchBool result (valuation values.now var ≡ None) (valuation values.now var ≡ None → ⊥) }
{
    values[var].is_none()
}

// Stamps by which each variable stands before all greater ones.
fn first_stamps(alloc: Global, vars: usize) -> Result<Vec<u64>, AllocError>
    ensures count { IfOk result (λ stamps. length stamps.items ≡ vars) }
    ensures stamps { IfOk result (λ stamps. (v : ℕ) → stamp_at stamps.items v ≡ vars - v) }
{
    let mut stamps = Vec::with_capacity(alloc, vars)?;
    for var in 0..vars {
        stamps.push((vars - var) as u64)?;
    }
    Ok(stamps)
}

// The variables below `vars`, the least first.
fn first_list(alloc: Global, vars: usize, stamps: &[u64]) -> Result<IdxList, AllocError>
    requires { (v : ℕ) → stamp_at stamps.now v ≡ vars - v }
    ensures { IfOk result (λ list. IsListed vars list.items stamps.now) }
{
    let mut list = IdxList::new(alloc, vars)?;
    for var in 0..vars {
        list.push_back(var);
    }
    Ok(list)
}

// Where the pointer stands at first.
fn first_place(vars: usize) -> Option<usize>
    ensures none { result ≡ None → vars ≡ 0 }
    ensures some { IfSome result (λ n. (n ≡ 0) × (0 < vars)) }
{
    if vars == 0 { None } else { Some(0) }
}

// The one of the pointer and a variable that stands before the other.
fn earlier(stamps: &[u64], next: Option<usize>, var: usize) -> usize
    requires { var < length stamps.now }
    ensures which { (result ≡ var) ⊎ (next ≡ Some result) }
    ensures own { stamp_at stamps.now var ≤ stamp_at stamps.now result }
    ensures after { IfSome next (λ n. stamp_at stamps.now n ≤ stamp_at stamps.now result) }
{
    match next {
        None => var,
        Some(n) => {
            if stamps.get(n).copied().unwrap_or(0) < stamps[var] {
                var
            } else {
                n
            }
        }
    }
}

impl Queue {
    /// The variables below `vars`, the least first.
    pub fn new(alloc: Global, vars: usize) -> Result<Queue, AllocError>
        ensures { IfOk result (λ q. (values : List (Option Bool)) → length values ≡ vars → IsQueue values q.list.items q.stamps.items q.clock q.next) }
    {
        let stamps = first_stamps(alloc, vars)?;
        Ok(Queue {
            list: first_list(alloc, vars, &stamps)?,
            stamps,
            clock: vars as u64,
            next: first_place(vars),
        })
    }

    /// Of each variable when it was moved to the front last.
    pub fn stamps(&self) -> &[u64] {
        self.stamps.as_slice()
    }

    /// Moves a variable to the front, unless the stamps are used up.
    pub fn bump(&mut self, values: &[Option<bool>], var: usize)
        requires { IsQueue values.now self.old.list.items self.old.stamps.items self.old.clock self.old.next }
        ensures front { var < length values.now → self.old.clock + 1 < 2 ^ 64 → self.new.list.items ≡ var ∷ without var self.old.list.items }
        ensures queue { IsQueue values.now self.new.list.items self.new.stamps.items self.new.clock self.new.next }
    {
        if var >= values.len() || self.clock == u64::MAX {
            return;
        }
        self.list.move_front(var);
        self.clock += 1;
        self.stamps[var] = self.clock;
        if is_open(values, var) {
            self.next = Some(var);
        }
    }

    /// Moves variables to the front, one after another.
    pub fn bump_all(&mut self, values: &[Option<bool>], vars: &[usize])
        requires { IsQueue values.now self.old.list.items self.old.stamps.items self.old.clock self.old.next }
        ensures { IsQueue values.now self.new.list.items self.new.stamps.items self.new.clock self.new.next }
    {
        for var in vars {
            self.bump(values, *var);
        }
    }

    /// Sets the pointer back to a variable that is open again, if it stands before it.
    pub fn reopen(&mut self, var: usize)
        requires { var < length self.old.stamps.items }
        ensures { (values : List (Option Bool)) → IsQueue values self.old.list.items self.old.stamps.items self.old.clock self.old.next →
            IsQueue (slice_set values var None) self.new.list.items self.new.stamps.items self.new.clock self.new.next }
    {
        self.next = Some(earlier(&self.stamps, self.next, var));
    }

    /// The first open variable. The pointer goes on to it; where there is none, it passes the end.
    pub fn choose(&mut self, values: &[Option<bool>]) -> Option<usize>
        requires { IsQueue values.now self.old.list.items self.old.stamps.items self.old.clock self.old.next }
        ensures open { MatchOption result (All (λ o. o ≡ None → ⊥) values.now) (λ v. (v < length values.now) × (valuation values.now v ≡ None)) }
        ensures queue { IsQueue values.now self.new.list.items self.new.stamps.items self.new.clock self.new.next }
    {
        while let Some(var) = self.next {
            if is_open(values, var) {
                return Some(var);
            }
            self.next = self.list.next(var);
        }
        None
    }
}
