//! Back along the trail: to where a learned clause has one open literal (backjumping), or to the first decision, where the search
//! is to start anew (a restart). Levels on which no literal of the clause lies are taken away whole. Where a level ends is told
//! by the decision on the trail and not by the numbers of levels, which are kept for choices alone.

ghost use Rattle.std.specs.Prelude.{◌≡◌, ℕ, ◌+◌, ◌-◌, ◌<◌, ◌≤◌, Option, None, length, MatchBool, IfSome, List, ◌++◌, reverse, take, slice_index_or, ◌⊎◌};
ghost use Rattle.std.specs.List.{All, filter};
ghost use Rattle.cnf.specs.Clauses.{valuation};
ghost use Rattle.sat_state.specs.Trail.{falses, Tracks};
ghost use Rattle.sat_search.specs.Learn.{seen_at, IsClear, IsAnchored, IsTraced, StopsBelow, WentBack, no_assigned};

use sat_state::trail::{Assigned, Trail};

/// Whether no variable is seen back to the last decision, which there is.
pub fn is_clear(trail: &[Assigned], seen: &[bool]) -> bool
    requires { All (λ e. e.dim.var < length seen.now) trail.now }
    ensures { MatchBool result (IsClear seen.now (reverse trail.now)) (IsAnchored seen.now (reverse trail.now)) }
{
    let mut i = trail.len();
    while i > 0 {
        i -= 1;
        let e = trail[i];
        if seen[e.dim.var] {
            return false;
        }
        if e.reason.is_none() {
            return true;
        }
    }
    false
}

/// Takes the newest literals away until so many are left.
pub fn cut(trail: &mut Trail, n: usize)
    requires range { n ≤ length trail.old.entries }
    requires tracks { Tracks trail.old.values trail.old.entries }
    ensures tracks { Tracks trail.new.values trail.new.entries }
    ensures width { length trail.new.values ≡ length trail.old.values }
    ensures entries { trail.new.entries ≡ take n trail.old.entries }
{
    while trail.entries().len() > n {
        let _top = trail.pop();
    }
}

/// Takes the newest level away, on which nothing is seen.
fn leave_level(trail: &mut Trail, seen: &[bool])
    requires clear { IsClear seen.now (reverse trail.old.entries) }
    requires tracks { Tracks trail.old.values trail.old.entries }
    ensures tracks { Tracks trail.new.values trail.new.entries }
    ensures width { length trail.new.values ≡ length trail.old.values }
    ensures below { StopsBelow trail.old.entries trail.new.entries }
    ensures kept { filter (λ d. seen_at seen.now d.var) (falses trail.new.entries) ≡ filter (λ d. seen_at seen.now d.var) (falses trail.old.entries) }
{
    loop {
        let top = trail.pop();
        match top.reason {
            None => return,
            Some(_) => {}
        }
    }
}

/// Takes the newest levels away, as long as nothing is seen on them.
fn unwind(trail: &mut Trail, seen: &[bool])
    requires seen { length seen.now ≡ length trail.old.values }
    requires tracks { Tracks trail.old.values trail.old.entries }
    ensures tracks { Tracks trail.new.values trail.new.entries }
    ensures width { length trail.new.values ≡ length trail.old.values }
    ensures anchored { IsAnchored seen.now (reverse trail.new.entries) }
    ensures front { (trail.new.entries ≡ trail.old.entries) ⊎ StopsBelow trail.old.entries trail.new.entries }
    ensures kept { filter (λ d. seen_at seen.now d.var) (falses trail.new.entries) ≡ filter (λ d. seen_at seen.now d.var) (falses trail.old.entries) }
{
    while is_clear(trail.entries(), seen) {
        leave_level(trail, seen);
    }
}

/// Takes the literal at a place and all newer ones away, and the levels below it on which nothing is seen. It is the one
/// literal of its level that is seen.
pub fn go_back(trail: &mut Trail, seen: &[bool], n: usize)
    requires some { 0 < n }
    requires range { n ≤ length trail.old.entries }
    requires seen { length seen.now ≡ length trail.old.values }
    requires tracks { Tracks trail.old.values trail.old.entries }
    requires traced { IsTraced seen.now (reverse (take n trail.old.entries)) }
    ensures tracks { Tracks trail.new.values trail.new.entries }
    ensures width { length trail.new.values ≡ length trail.old.values }
    ensures anchored { IsAnchored seen.now (reverse trail.new.entries) }
    ensures below { StopsBelow trail.old.entries trail.new.entries }
    ensures kept { filter (λ d. seen_at seen.now d.var) (falses trail.new.entries) ≡ filter (λ d. seen_at seen.now d.var) (falses (take (n - 1) trail.old.entries)) }
    ensures open { valuation trail.new.values (slice_index_or trail.old.entries (n - 1) no_assigned).dim.var ≡ None }
{
    cut(trail, n - 1);
    unwind(trail, seen);
}

/// The place of the first decision.
fn first_decision(entries: &[Assigned]) -> Option<usize>
    ensures { IfSome result (λ i. (i < length entries.now) × ((slice_index_or entries.now i no_assigned).reason ≡ None)) }
{
    for (i, e) in entries.iter().enumerate() {
        if e.reason.is_none() {
            return Some(i);
        }
    }
    None
}

/// Takes all decisions back, where the search is to start anew. Answers from where to propagate; that was `from` before.
pub fn restart(trail: &mut Trail, from: usize) -> usize
    requires { Tracks trail.old.values trail.old.entries }
    ensures tracks { Tracks trail.new.values trail.new.entries }
    ensures width { length trail.new.values ≡ length trail.old.values }
    ensures back { WentBack trail.old trail.new from result }
{
    if !trail.is_restart_due() {
        return from;
    }
    match first_decision(trail.entries()) {
        None => from,
        Some(n) => {
            cut(trail, n);
            n
        }
    }
}
