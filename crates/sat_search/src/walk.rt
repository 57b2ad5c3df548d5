//! Work on one list of watches, that of a literal that became false. Watches that stay are written over the front of the list
//! as the walk goes on, so that it needs no second list, and those that move leave a gap that the caller closes. Where a clause
//! is false the walk ends, and the rest of the list stays as it is.

ghost use Rattle.std.specs.Prelude.{◌+◌, ◌<◌, ◌≤◌, length, OnOk, IfOk};
ghost use Rattle.std.specs.List.{All};
ghost use Rattle.cnf.specs.Clauses.{AllBelow, Valuation, valuation};
ghost use Rattle.refute_check.specs.Accepted.{clause_at};
ghost use Rattle.sat_state.specs.Watch.{ArePairs, IsGood, IsHalf, Rest, numbers, pair_at, rows};
ghost use Rattle.sat_state.specs.Visited.{IsVisited};
ghost use Rattle.sat_search.specs.Walk.{before, StandsAt, left_of};
ghost use Rattle.sat_search.specs.Found.{IsFound};
ghost use Rattle.sat_search.specs.Lesson.{IsFuller, IsHalfway, IsOut};

use cnf::Dim;
use sat_state::lists::add_to;
use sat_state::store::Store;
use sat_state::trail::{Assigned, Trail};
use sat_state::watch::{Pair, Visit, Watch, is_true, look_again};
use std::alloc::AllocError;

/// How far a walk along a list came: the clause that is false, if any, and the watches that are no longer in the list, from
/// `kept` up to `read`.
#[derive(Clone, Copy)]
pub struct Walk {
    pub conflict: Option<usize>,
    pub kept: usize,
    pub read: usize,
}

/// Decides what is to be done with a clause in the list of `d`, which has become false; `places` tell where to begin.
fn look_at(
    values: &[Option<bool>],
    pairs: &[Pair],
    store: &Store,
    places: &[usize],
    watch: &Watch,
    d: Dim,
) -> Visit
    requires width { AllBelow (length values.now) store.now }
    requires pairs { ArePairs store.now pairs.now }
    requires good { IsGood store.now watch.now }
    requires half { (low : Valuation) × IsHalf low (valuation values.now) (clause_at store.now watch.now.clause) (pair_at pairs.now watch.now.clause) }
    ensures { IsVisited (valuation values.now) (clause_at store.now watch.now.clause) (pair_at pairs.now watch.now.clause) d result }
{
    if is_true(values, watch.blocker) {
        return Visit::Keep(watch.blocker);
    }
    let clause = store.clause(watch.clause);
    let from = places.get(watch.clause).copied().unwrap_or(0);
    look_again(values, clause, &pairs[watch.clause], watch.blocker, d, from)
}

/// Looks at each clause in the list of the literal `d` that became false at a place of the trail, up to one that is false.
pub fn work_off(
    trail: &mut Trail,
    pairs: &mut [Pair],
    lists: &mut [Vec<Watch>],
    list: &mut [Watch],
    at: usize,
    d: Dim,
    store: &Store,
) -> Result<Walk, AllocError>
    requires out { IsOut (length trail.old.values) store.now pairs.old (rows lists.old) trail.old d (numbers list.old) }
    requires at { at < length trail.old.entries }
    requires stands { StandsAt trail.old.entries at d }
    requires good { All (IsGood store.now) list.old }
    requires rest { Rest store.now pairs.old (before trail.old.entries at) (before trail.old.entries (at + 1)) (valuation trail.old.values) (numbers list.old) }
    ensures out { IfOk result (λ walk. IsOut (length trail.old.values) store.now pairs.new (rows lists.new) trail.new d (numbers (left_of list.new walk.kept walk.read))) }
    ensures fuller { OnOk result (IsFuller trail.old trail.new) }
    ensures good { OnOk result (All (IsGood store.now) list.new) }
    ensures order { IfOk result (λ walk. walk.kept ≤ walk.read) }
    ensures read { IfOk result (λ walk. walk.read ≤ length list.old) }
    ensures found { IfOk result (λ walk. IsFound store.now (valuation trail.new.values) walk.conflict (IsHalfway store.now pairs.new trail.new (at + 1))) }
{
    let mut kept = 0;
    for i in 0..list.len() {
        let watch = list[i];
        let clause = watch.clause;
        match look_at(trail.values(), pairs, store, trail.places(), &watch, d) {
            Visit::Keep(blocker) => {
                let kept_watch = Watch { clause, blocker };
                list[kept] = kept_watch;
                kept += 1;
            }
            Visit::Move(pair, place) => {
                let a = pair.a;
                let b = pair.b;
                trail.set_place(clause, place);
                let new_pair = Pair { a, b };
                pairs[clause] = new_pair;
                let moved = Watch { clause, blocker: a };
                add_to(lists, b, moved)?;
            }
            Visit::Unit(open) => {
                list[kept] = watch;
                kept += 1;
                trail.assign(Assigned {
                    dim: Dim {
                        var: open.var,
                        negated: !open.negated,
                    },
                    reason: Some(clause),
                })?;
            }
            Visit::Conflict => {
                return Ok(Walk {
                    conflict: Some(clause),
                    kept,
                    read: i,
                });
            }
        }
    }
    Ok(Walk {
        conflict: None,
        kept,
        read: list.len(),
    })
}
