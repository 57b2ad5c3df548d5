//! From a conflict back to a new clause (conflict analysis), with the hints from which it follows. The trail is walked from the
//! newest literal down, and a marked one is replaced by the others of the clause that made it false, until one marked literal of
//! its level is left (the first unique implication point); then literals that the others imply are dropped (clause minimisation).
//! What is marked is written down, so that marks are taken away by that list and not by a walk over all variables.

ghost use Rattle.std.specs.Prelude.{◌≢◌, ◌≡◌, ℕ, ◌+◌, ◌*◌, ◌<◌, ◌≤◌, Bool, true, false, Option, Some, None, length, OnOk, IfOk, MatchBool, IsTrue, List, [], ◌∷◌, ◌++◌, reverse, take, IfNone, IfSome, ◌⊎◌};
ghost use Rattle.std.specs.List.{All, filter};
ghost use Rattle.cnf.specs.Clauses.{AllBelow, AreBelow, IsConflict, all_open, valuation};
ghost use Rattle.refute_check.specs.Entry.{Entry};
ghost use Rattle.refute_check.specs.Fresh.{IsNew};
ghost use Rattle.refute_check.specs.Count.{free_count};
ghost use Rattle.refute_check.specs.Accepted.{clause_at};
ghost use Rattle.sat_state.specs.declared.trail.Assigned.{Assigned};
ghost use Rattle.sat_state.specs.Trail.{falses, Tracks, IsSound};
ghost use Rattle.sat_search.specs.Lesson.{IsHalfway, IsLast, IsReady, IsTaught};
ghost use Rattle.sat_state.specs.Watch.{first_pair, rows, with_pair};
ghost use Rattle.sat_search.specs.Learn.{seen_at, HasVariable, IsClear, IsAnchored, IsAlone, IsTraced, Explains, ExplainsOver, StopsBelow, Suffices};

use crate::back::{go_back, is_clear};
use crate::redundant::Redundancy;
use cnf::Dim;
use refute_check::{Draft, Step};
use sat_state::lists::add_to;
use sat_state::packed::PackedDim;
use sat_state::store::Store;
use sat_state::trail::{Assigned, Trail};
use sat_state::watch::{Pair, Watch};
use std::alloc::{AllocError, Global};

/// What is kept from one conflict to the next, for speed alone.
pub struct Notes {
    /// The variables that the newest conflict marked.
    walked: Vec<usize>,
    /// Its hints, which the log gets a copy of.
    hints: Vec<usize>,
    /// Which literals others imply.
    redundancy: Redundancy,
}

impl Drop for Notes {
    fn drop(self) {
        let Notes {
            walked: _,
            hints: _,
            redundancy: _,
        } = self;
    }
}

impl Notes {
    /// Before the first conflict, for so many variables.
    pub fn new(alloc: Global, vars: usize) -> Result<Notes, AllocError> {
        Ok(Notes {
            walked: Vec::new(alloc),
            hints: Vec::new(alloc),
            redundancy: Redundancy::new(alloc, vars)?,
        })
    }
}

/// Marks a variable. Answers how many (one or none) were not marked and had their value at the newest level.
fn mark_one(trail: &Trail, seen: &mut [bool], var: usize) -> usize
    requires range { var < length seen.old }
    requires width { length seen.old ≡ length trail.now.values }
    ensures marked { seen_at seen.new var ≡ true }
    ensures more { (v : ℕ) → seen_at seen.old v ≡ true → seen_at seen.new v ≡ true }
{
    if seen[var] {
        return 0;
    }
    seen[var] = true;
    if trail.level_of(var) == trail.level() {
        1
    } else {
        0
    }
}

/// Marks the variables of a clause. Answers how many were not marked and had their value at the newest level.
fn mark(trail: &Trail, seen: &mut [bool], clause: &[PackedDim]) -> usize
    requires range { AreBelow (length seen.old) clause.now }
    requires width { length seen.old ≡ length trail.now.values }
    ensures marked { All (λ d. seen_at seen.new d.var ≡ true) clause.now }
    ensures more { (v : ℕ) → seen_at seen.old v ≡ true → seen_at seen.new v ≡ true }
{
    let mut count: usize = 0;
    for d in clause {
        count = count.saturating_add(mark_one(trail, seen, d.dim().var));
    }
    count
}

// Writes down a variable that was marked.
fn note(walked: &mut Vec<usize>, var: usize) -> Result<(), AllocError> {
    walked.push(var)?;
    Ok(())
}

/// Whether the newest variable is the only one that is seen since the last decision, which there is.
fn is_alone(trail: &[Assigned], seen: &[bool]) -> bool
    requires { All (λ e. e.dim.var < length seen.now) trail.now }
    ensures { IsTrue result → IsAlone seen.now (reverse trail.now) }
{
    let n = trail.len();
    if n == 0 {
        return false;
    }
    if trail[n - 1].reason.is_none() {
        return true;
    }
    is_clear(&trail[..n - 1], seen)
}

/// Traces a conflict back, and writes the hints that lead to it, the last one first, and the variables that were seen, the
/// newest first. Answers how much of the trail is left: nothing, or up to the one literal of its level that is seen.
fn trace(
    trail: &Trail,
    seen: &mut [bool],
    walked: &mut Vec<usize>,
    store: &Store,
    conflict: usize,
    hints: &mut Vec<usize>,
) -> Result<usize, AllocError>
    requires width { AllBelow (length trail.now.values) store.now }
    requires sound { IsSound store.now trail.now.values trail.now.entries }
    requires seen { length seen.old ≡ length trail.now.values }
    requires hints { hints.old.items ≡ [] }
    requires known { conflict < length store.now }
    requires conflict { IsConflict (valuation trail.now.values) (clause_at store.now conflict) }
    ensures range { IfOk result (λ n. n ≤ length trail.now.entries) }
    ensures explains { IfOk result (λ n. Explains store.now (reverse (take n trail.now.entries)) seen.new hints.new.items) }
    ensures traced { IfOk result (λ n. IsTraced seen.new (reverse (take n trail.now.entries))) }
{
    let entries = trail.entries();
    let mut count = mark(trail, seen, store.clause(conflict));
    hints.push(conflict)?;
    let mut i = entries.len();
    while i > 0 {
        let e = entries[i - 1];
        if seen[e.dim.var] {
            note(walked, e.dim.var)?;
            if count <= 1 && is_alone(&entries[..i], seen) {
                return Ok(i);
            }
            match e.reason {
                None => {
                    return Ok(i);
                }
                Some(r) => {
                    let more = mark(trail, seen, store.clause(r));
                    seen[e.dim.var] = false;
                    count = count.saturating_add(more).saturating_sub(1);
                    hints.push(r)?;
                }
            }
        }
        i -= 1;
    }
    Ok(0)
}

/// Marks the variables of a clause, and no others.
fn mark_all(seen: &mut [bool], clause: &[PackedDim])
    requires { AreBelow (length seen.old) clause.now }
    ensures marked { All (λ d. seen_at seen.new d.var ≡ true) clause.now }
    ensures more { (v : ℕ) → seen_at seen.old v ≡ true → seen_at seen.new v ≡ true }
    ensures only { (v : ℕ) → seen_at seen.new v ≡ true → (seen_at seen.old v ≡ true) ⊎ HasVariable clause.now v }
{
    for d in clause {
        seen[d.dim().var] = true;
    }
}

/// Notes the literal at a place of the trail, which is not the last of the first `left`, if it is seen, and replaces it by the
/// others of the clause that made it false where these are implied by what else is seen.
fn drop_implied(
    trail: &Trail,
    seen: &mut [bool],
    walked: &mut Vec<usize>,
    left: usize,
    i: usize,
    store: &Store,
    hints: &mut Vec<usize>,
    redundancy: &mut Redundancy,
) -> Result<(), AllocError>
    requires width { AllBelow (length trail.now.values) store.now }
    requires sound { IsSound store.now trail.now.values trail.now.entries }
    requires seen { length seen.old ≡ length trail.now.values }
    requires place { i + 1 < left }
    requires range { left ≤ length trail.now.entries }
    requires enough { ExplainsOver store.now (reverse (take left trail.now.entries)) (reverse (take (i + 1) trail.now.entries)) seen.old hints.old.items }
    requires traced { IsTraced seen.old (reverse (take left trail.now.entries)) }
    ensures enough { OnOk result (ExplainsOver store.now (reverse (take left trail.now.entries)) (reverse (take i trail.now.entries)) seen.new hints.new.items) }
    ensures traced { OnOk result (IsTraced seen.new (reverse (take left trail.now.entries))) }
{
    let e = trail.entries()[i];
    if !seen[e.dim.var] {
        return Ok(());
    }
    note(walked, e.dim.var)?;
    match e.reason {
        None => Ok(()),
        Some(r) => {
            if !redundancy.is_redundant(trail, store, seen, e.dim.var)? {
                return Ok(());
            }
            mark_all(seen, store.clause(r));
            seen[e.dim.var] = false;
            hints.push(r)?;
            Ok(())
        }
    }
}

/// Drops the literals that the others imply, but the last of the first `left`, and notes their variables and those of the rest.
fn shorten(
    trail: &Trail,
    seen: &mut [bool],
    walked: &mut Vec<usize>,
    left: usize,
    store: &Store,
    hints: &mut Vec<usize>,
    redundancy: &mut Redundancy,
) -> Result<(), AllocError>
    requires width { AllBelow (length trail.now.values) store.now }
    requires sound { IsSound store.now trail.now.values trail.now.entries }
    requires seen { length seen.old ≡ length trail.now.values }
    requires range { left ≤ length trail.now.entries }
    requires explains { Explains store.now (reverse (take left trail.now.entries)) seen.old hints.old.items }
    requires traced { IsTraced seen.old (reverse (take left trail.now.entries)) }
    ensures enough { OnOk result (Suffices store.now (reverse (take left trail.now.entries)) seen.new hints.new.items) }
    ensures traced { OnOk result (IsTraced seen.new (reverse (take left trail.now.entries))) }
{
    redundancy.begin(trail, &trail.entries()[..left], seen);
    let mut next = left;
    while next > 1 {
        next -= 1;
        drop_implied(
            trail,
            seen,
            walked,
            left,
            next - 1,
            store,
            hints,
            redundancy,
        )?;
    }
    Ok(())
}

/// The literals of the trail that are seen, the newest first. There is room for so many from the beginning.
fn collect(
    alloc: Global,
    trail: &[Assigned],
    seen: &[bool],
    room: usize,
) -> Result<Vec<Dim>, AllocError>
    requires { All (λ e. e.dim.var < length seen.now) trail.now }
    ensures { IfOk result (λ clause. clause.items ≡ filter (λ d. seen_at seen.now d.var) (falses trail.now)) }
{
    let mut clause = Vec::with_capacity(alloc, room)?;
    let mut i = trail.len();
    while i > 0 {
        i -= 1;
        let e = trail[i];
        if seen[e.dim.var] {
            clause.push(e.dim)?;
        }
    }
    Ok(clause)
}

/// A new clause, with why it follows, and how much of the trail stood up to its first literal.
#[derive(Drop)]
struct Taught {
    left: usize,
    step: Draft,
}

/// Learns a clause from a conflict. It is empty where nothing of the trail is left; then the clauses are refuted.
fn teach(
    alloc: Global,
    trail: &Trail,
    seen: &mut [bool],
    walked: &mut Vec<usize>,
    hints: &mut Vec<usize>,
    redundancy: &mut Redundancy,
    store: &Store,
    conflict: usize,
) -> Result<Taught, AllocError>
    requires width { AllBelow (length trail.now.values) store.now }
    requires sound { IsSound store.now trail.now.values trail.now.entries }
    requires seen { length seen.old ≡ length trail.now.values }
    requires known { conflict < length store.now }
    requires conflict { IsConflict (valuation trail.now.values) (clause_at store.now conflict) }
    ensures range { IfOk result (λ t. t.left ≤ length trail.now.entries) }
    ensures last { IfOk result (λ t. t.left ≡ 0 → IsLast (length trail.now.values) store.now t.step) }
    ensures taught { IfOk result (λ t. 0 < t.left → IsTaught (length trail.now.values) store.now trail.now.entries seen.new t.left t.step) }
{
    walked.clear();
    hints.clear();
    let left = trace(trail, seen, walked, store, conflict, hints)?;
    shorten(trail, seen, walked, left, store, hints, redundancy)?;
    // Of each variable that was walked over there is a hint, or its literal stays; and the conflict is a hint.
    let room = walked.len().saturating_sub(hints.len()).saturating_add(1);
    let clause = collect(alloc, &trail.entries()[..left], seen, room)?;
    hints.reverse();
    let kept = Vec::from_slice(alloc, hints.as_slice())?;
    Ok(Taught {
        left,
        step: Draft {
            clause,
            hints: kept,
        },
    })
}

/// The first two literals of a clause that is not empty, or twice the only one.
fn first_two(clause: &[PackedDim]) -> Pair
    requires { 0 < length clause.now }
    ensures { result ≡ first_pair clause.now }
{
    let a = clause[0];
    let b = clause.get(1).copied().unwrap_or(a);
    Pair { a, b }
}

/// Watches the pair of the clause k.
pub fn watch_pair(
    pairs: &mut Vec<Pair>,
    lists: &mut [Vec<Watch>],
    pair: Pair,
    k: usize,
) -> Result<(), AllocError>
    requires first { 2 * pair.a.var + 1 < length lists.old }
    requires second { 2 * pair.b.var + 1 < length lists.old }
    ensures pairs { OnOk result (pairs.new.items ≡ pairs.old.items ++ pair ∷ []) }
    ensures lists { OnOk result (rows lists.new ≡ with_pair (rows lists.old) pair k) }
{
    let a = pair.a;
    let b = pair.b;
    pairs.push(Pair { a, b })?;
    add_to(
        lists,
        a,
        Watch {
            clause: k,
            blocker: b,
        },
    )?;
    add_to(
        lists,
        b,
        Watch {
            clause: k,
            blocker: a,
        },
    )?;
    Ok(())
}

/// Adds a clause that is not empty, and watches its first two literals. Answers its number.
fn add_clause(
    pairs: &mut Vec<Pair>,
    lists: &mut [Vec<Watch>],
    store: &mut Store,
    clause: &[Dim],
) -> Result<usize, AllocError>
    requires some { 0 < length clause.now }
    requires room { All (λ d. 2 * d.var + 1 < length lists.old) clause.now }
    ensures number { IfOk result (λ k. k ≡ length store.old) }
    ensures store { OnOk result (store.new ≡ store.old ++ clause.now ∷ []) }
    ensures pairs { OnOk result (pairs.new.items ≡ pairs.old.items ++ first_pair clause.now ∷ []) }
    ensures lists { OnOk result (rows lists.new ≡ with_pair (rows lists.old) (first_pair clause.now) (length store.old)) }
{
    let number = store.len();
    store.push(clause)?;
    let pair = first_two(store.clause(number));
    watch_pair(pairs, lists, pair, number)?;
    Ok(number)
}

/// Puts a step behind the log.
pub fn write(alloc: Global, steps: &mut Vec<Step>, draft: &Draft) -> Result<(), AllocError>
    ensures { OnOk result (steps.new.items ≡ steps.old.items ++ draft.now ∷ []) }
{
    let step = Step::of(alloc, draft.clause.as_slice(), draft.hints.as_slice())?;
    steps.push(step)?;
    Ok(())
}

/// Takes the trail back to where the new clause has one open literal, adds the clause, and makes that literal true. Answers
/// from where to propagate.
fn take_up(
    trail: &mut Trail,
    seen: &[bool],
    pairs: &mut Vec<Pair>,
    lists: &mut [Vec<Watch>],
    store: &mut Store,
    left: usize,
    step: &Draft,
) -> Result<usize, AllocError>
    requires ready { IsReady (length trail.old.values) store.old pairs.old.items (rows lists.old) trail.old }
    requires seen { length seen.now ≡ length trail.old.values }
    requires some { 0 < left }
    requires range { left ≤ length trail.old.entries }
    requires taught { IsTaught (length trail.old.values) store.old trail.old.entries seen.now left step.now }
    ensures store { OnOk result (store.new ≡ store.old ++ step.now.clause ∷ []) }
    ensures ready { OnOk result (IsReady (length trail.old.values) store.new pairs.new.items (rows lists.new) trail.new) }
    ensures half { IfOk result (λ from. IsHalfway store.new pairs.new.items trail.new from) }
{
    let top = trail.entries()[left - 1].dim;
    go_back(trail, seen, left);
    let reason = add_clause(pairs, lists, store, step.clause.as_slice())?;
    let from = trail.entries().len();
    trail.assign(Assigned {
        dim: Dim {
            var: top.var,
            negated: !top.negated,
        },
        reason: Some(reason),
    })?;
    Ok(from)
}

// Takes the marks away.
fn clear_marks(seen: &mut [bool], walked: &[usize]) {
    for var in walked {
        if let Some(mark) = seen.get_mut(*var) {
            *mark = false;
        }
    }
}

/// What was learned from a conflict: a step, and from where to propagate; that is nowhere where the clauses are refuted, and then
/// the step is empty.
#[derive(Drop)]
pub struct Lesson {
    pub step: Draft,
    pub next: Option<usize>,
}

/// Learns a clause from a conflict, and makes its first literal true.
pub fn learn(
    alloc: Global,
    trail: &mut Trail,
    seen: &mut [bool],
    pairs: &mut Vec<Pair>,
    lists: &mut [Vec<Watch>],
    store: &mut Store,
    notes: &mut Notes,
    conflict: usize,
) -> Result<Lesson, AllocError>
    requires ready { IsReady (length trail.old.values) store.old pairs.old.items (rows lists.old) trail.old }
    requires seen { length seen.old ≡ length trail.old.values }
    requires known { conflict < length store.old }
    requires conflict { IsConflict (valuation trail.old.values) (clause_at store.old conflict) }
    ensures refuted { IfOk result (λ l. IfNone l.next (IsLast (length trail.old.values) store.old l.step)) }
    ensures store { IfOk result (λ l. IfSome l.next (λ _. store.new ≡ store.old ++ l.step.clause ∷ [])) }
    ensures learned { IfOk result (λ l. IfSome l.next (λ _. IsNew (length trail.old.values) store.old l.step)) }
    ensures less { IfOk result (λ l. IfSome l.next (λ _. free_count (length trail.old.values) store.new all_open
        < free_count (length trail.old.values) store.old all_open)) }
    ensures ready { IfOk result (λ l. IfSome l.next (λ _. IsReady (length trail.old.values) store.new pairs.new.items (rows lists.new) trail.new)) }
    ensures half { IfOk result (λ l. IfSome l.next (λ n. IsHalfway store.new pairs.new.items trail.new n)) }
{
    let Taught { left, step } = teach(
        alloc,
        trail,
        seen,
        &mut notes.walked,
        &mut notes.hints,
        &mut notes.redundancy,
        store,
        conflict,
    )?;
    if left == 0 {
        return Ok(Lesson { step, next: None });
    }
    trail.after_conflict(
        &mut notes.walked,
        step.clause.as_slice(),
        store.len().saturating_add(1),
    )?;
    let from = take_up(trail, seen, pairs, lists, store, left, &step)?;
    clear_marks(seen, &notes.walked);
    Ok(Lesson {
        step,
        next: Some(from),
    })
}
