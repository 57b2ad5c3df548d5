//! Unit propagation and decisions, up to a conflict or a solution. The trail itself is the queue of what is to be propagated: a
//! place goes along it, and literals that become false are put behind. A variable is decided as it was last, which keeps what was
//! found of a solution (phase saving; Pipatsrisawat and Darwiche, 2007); where no variable is open, each clause holds.

ghost use Rattle.std.specs.Prelude.{◌≡◌, ◌+◌, ◌<◌, None, length, OnOk, IfOk};
ghost use Rattle.std.specs.List.{All};
ghost use Rattle.cnf.specs.Clauses.{valuation};
ghost use Rattle.sat_state.specs.Trail.{IsQuiet};
ghost use Rattle.sat_state.specs.Watch.{IsCalm, rows};
ghost use Rattle.sat_search.specs.Found.{IsFound};
ghost use Rattle.sat_search.specs.Lesson.{IsFuller, IsHalfway, IsReady};

use crate::walk::work_off;
use cnf::Dim;
use sat_state::lists::{close_gap, put_list, take_list};
use sat_state::store::Store;
use sat_state::trail::{Assigned, Trail};
use sat_state::watch::{Pair, Watch};
use std::alloc::{AllocError, Global};

/// Looks at the clauses in which the literal at a place of the trail is watched, up to one that is false.
fn look_through(
    alloc: Global,
    trail: &mut Trail,
    pairs: &mut [Pair],
    lists: &mut [Vec<Watch>],
    at: usize,
    store: &Store,
) -> Result<Option<usize>, AllocError>
    requires ready { IsReady (length trail.old.values) store.now pairs.old (rows lists.old) trail.old }
    requires at { at < length trail.old.entries }
    requires half { IsHalfway store.now pairs.old trail.old at }
    ensures ready { OnOk result (IsReady (length trail.old.values) store.now pairs.new (rows lists.new) trail.new) }
    ensures fuller { OnOk result (IsFuller trail.old trail.new) }
    ensures found { IfOk result (λ found. IsFound store.now (valuation trail.new.values) found (IsHalfway store.now pairs.new trail.new (at + 1))) }
{
    let d = trail.entries()[at].dim;
    let mut list = take_list(alloc, lists, d);
    let walk = work_off(trail, pairs, lists, list.as_mut_slice(), at, d, store)?;
    close_gap(&mut list, walk.kept, walk.read);
    put_list(lists, d, list);
    Ok(walk.conflict)
}

/// Propagates from a place of the trail on, until some clause is false, whose number it answers, or nothing is left to do.
fn propagate(
    alloc: Global,
    trail: &mut Trail,
    pairs: &mut [Pair],
    lists: &mut [Vec<Watch>],
    from: usize,
    store: &Store,
) -> Result<Option<usize>, AllocError>
    requires ready { IsReady (length trail.old.values) store.now pairs.old (rows lists.old) trail.old }
    requires half { IsHalfway store.now pairs.old trail.old from }
    ensures ready { OnOk result (IsReady (length trail.old.values) store.now pairs.new (rows lists.new) trail.new) }
    ensures fuller { OnOk result (IsFuller trail.old trail.new) }
    ensures found { IfOk result (λ found. IsFound store.now (valuation trail.new.values) found (IsCalm store.now pairs.new (valuation trail.new.values))) }
{
    let mut at = from;
    while at < trail.entries().len() {
        match look_through(alloc, trail, pairs, lists, at, store)? {
            Some(k) => return Ok(Some(k)),
            None => {}
        }
        at += 1;
    }
    Ok(None)
}

// Propagates from a place of the trail on, and decides, until some clause is false, whose number it answers, or each variable
// has a value.
fn search(
    alloc: Global,
    trail: &mut Trail,
    pairs: &mut [Pair],
    lists: &mut [Vec<Watch>],
    from: usize,
    store: &Store,
) -> Result<Option<usize>, AllocError>
    requires ready { IsReady (length trail.old.values) store.now pairs.old (rows lists.old) trail.old }
    requires half { IsHalfway store.now pairs.old trail.old from }
    ensures ready { OnOk result (IsReady (length trail.old.values) store.now pairs.new (rows lists.new) trail.new) }
    ensures found { IfOk result (λ found. IsFound store.now (valuation trail.new.values) found
        (IsQuiet store.now (valuation trail.new.values) × All (λ o. o ≡ None → ⊥) trail.new.values)) }
{
    let mut next = from;
    loop {
        match propagate(alloc, trail, pairs, lists, next, store)? {
            Some(k) => return Ok(Some(k)),
            None => {}
        }
        match trail.choose() {
            None => return Ok(None),
            Some(var) => {
                next = trail.entries().len();
                let negated = trail.phase_of(var);
                trail.assign(Assigned {
                    dim: Dim { var, negated },
                    reason: None,
                })?;
            }
        }
    }
}

/// The number of a false clause: the one that was found before, or one that a search finds.
pub fn conflict_of(
    alloc: Global,
    trail: &mut Trail,
    pairs: &mut Vec<Pair>,
    lists: &mut [Vec<Watch>],
    found: Option<usize>,
    from: usize,
    store: &Store,
) -> Result<Option<usize>, AllocError>
    requires ready { IsReady (length trail.old.values) store.now pairs.old.items (rows lists.old) trail.old }
    requires found { IsFound store.now (valuation trail.old.values) found (IsHalfway store.now pairs.old.items trail.old from) }
    ensures ready { OnOk result (IsReady (length trail.old.values) store.now pairs.new.items (rows lists.new) trail.new) }
    ensures found { IfOk result (λ found. IsFound store.now (valuation trail.new.values) found
        (IsQuiet store.now (valuation trail.new.values) × All (λ o. o ≡ None → ⊥) trail.new.values)) }
{
    match found {
        Some(k) => Ok(Some(k)),
        None => {
            let next = search(alloc, trail, pairs.as_mut_slice(), lists, from, store)?;
            Ok(next)
        }
    }
}
