//! The watches of the given clauses. Two literals that differ are looked for; a clause without two, which may repeat one
//! literal, is not watched, and its literal is made true before anything else is assigned. So it holds from then on or is the
//! conflict that is answered, and the search needs no case for short clauses. A clause that is false already is only noted, and
//! the rest is set up all the same.

ghost use Rattle.std.specs.Prelude.{◌≡◌, ◌≢◌, ℕ, ◌+◌, ◌<◌, ◌≤◌, Option, None, length, OnOk, IfOk, MatchBool, MatchOption};
ghost use Rattle.std.specs.List.{All, Contains};
ghost use Rattle.cnf.specs.Clauses.{AllBelow, IsConflict, valuation};
ghost use Rattle.refute_check.specs.Accepted.{clause_at};
ghost use Rattle.sat_search.specs.Learn.{IsBelow};
ghost use Rattle.sat_state.specs.Watch.{HasTrue, rows};
ghost use Rattle.sat_search.specs.Start.{first_of, IsForcedBy, IsStarted, IsTwoOf};

use crate::learn::watch_pair;
use cnf::{ClauseState, Dim};
use sat_state::packed::PackedDim;
use sat_state::store::Store;
use sat_state::trail::{Assigned, Trail};
use sat_state::watch::{Pair, Watch, packed_state};
use std::alloc::AllocError;

// Whether the literals are not the same.
fn differ(a: Dim, b: Dim) -> bool
    ensures { MatchBool result (a ≢ b) (a ≡ b) }
{
    a != b
}

/// The first literal of a clause, if there is one.
fn first_of(clause: &[PackedDim]) -> PackedDim
    ensures { result ≡ first_of clause.now }
{
    let none = PackedDim::of(Dim {
        var: 0,
        negated: false,
    });
    clause.first().copied().unwrap_or(none)
}

/// Two literals of a clause that are not the same, if there are two.
fn two_of(clause: &[PackedDim]) -> Option<Pair>
    ensures { IsTwoOf clause.now result }
{
    let a = first_of(clause);
    for b in clause {
        if differ(b.dim(), a.dim()) {
            let b = *b;
            return Some(Pair { a, b });
        }
    }
    None
}

/// A pair of a clause of which no two literals are watched.
fn no_two() -> Pair
    ensures { result.a ≡ result.b }
{
    let a = PackedDim::of(Dim {
        var: 0,
        negated: false,
    });
    Pair { a, b: a }
}

/// Makes the one literal of the clause k true, unless it is false.
fn force(trail: &mut Trail, store: &Store, k: usize) -> Result<Option<usize>, AllocError>
    requires k { k < length store.now }
    requires width { AllBelow (length trail.old.values) store.now }
    requires same { All (λ b. b ≡ first_of (clause_at store.now k)) (clause_at store.now k) }
    requires forced { IsForcedBy store.now trail.old }
    ensures forced { OnOk result (IsForcedBy store.now trail.new) }
    ensures width { OnOk result (length trail.new.values ≡ length trail.old.values) }
    ensures grown { OnOk result (IsBelow (valuation trail.old.values) (valuation trail.new.values)) }
    ensures found { IfOk result (λ found. MatchOption found (HasTrue (valuation trail.new.values) (clause_at store.now k))
        (λ j. (j ≡ k) × IsConflict (valuation trail.new.values) (clause_at store.now k))) }
{
    match packed_state(trail.values(), store.clause(k)) {
        ClauseState::Conflict => Ok(Some(k)),
        ClauseState::Unit(d) => {
            trail.assign(Assigned {
                dim: Dim {
                    var: d.var,
                    negated: !d.negated,
                },
                reason: Some(k),
            })?;
            Ok(None)
        }
        ClauseState::Neither => Ok(None),
    }
}

/// Watches two literals of the clause k; where there are no two, makes its literal true.
fn start_one(
    trail: &mut Trail,
    pairs: &mut Vec<Pair>,
    lists: &mut [Vec<Watch>],
    store: &Store,
    k: usize,
    found: Option<usize>,
) -> Result<Option<usize>, AllocError>
    requires k { k < length store.now }
    requires width { AllBelow (length trail.old.values) store.now }
    requires started { IsStarted (length trail.old.values) store.now k pairs.old.items (rows lists.old) trail.old found }
    ensures width { OnOk result (length trail.new.values ≡ length trail.old.values) }
    ensures started { IfOk result (IsStarted (length trail.old.values) store.now (k + 1) pairs.new.items (rows lists.new) trail.new) }
{
    match two_of(store.clause(k)) {
        Some(pair) => {
            watch_pair(pairs, lists, pair, k)?;
            Ok(found)
        }
        None => {
            pairs.push(no_two())?;
            match found {
                Some(j) => Ok(Some(j)),
                None => {
                    let forced = force(trail, store, k)?;
                    Ok(forced)
                }
            }
        }
    }
}

/// Watches two literals of each clause, and makes the literal of a clause that has no two true. Answers a clause that is false,
/// if there is one.
pub fn start(
    trail: &mut Trail,
    pairs: &mut Vec<Pair>,
    lists: &mut [Vec<Watch>],
    store: &Store,
) -> Result<Option<usize>, AllocError>
    requires width { AllBelow (length trail.old.values) store.now }
    requires started { IsStarted (length trail.old.values) store.now 0 pairs.old.items (rows lists.old) trail.old None }
    ensures started { IfOk result (IsStarted (length trail.old.values) store.now (length store.now) pairs.new.items (rows lists.new) trail.new) }
{
    let mut found = None;
    for k in 0..store.len() {
        found = start_one(trail, pairs, lists, store, k, found)?;
    }
    Ok(found)
}
