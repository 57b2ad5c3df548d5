//! The search over all clauses: one clause after another is learned, until no conflict is left, the empty clause is learned, or
//! there are as many steps as the budget. Each learned clause is new, and there are finitely many, so the loop ends also without
//! a budget.
//! The parts that are borrowed (marks, notes, lists, trail, store) are made in functions around one another, so that each of
//! these owns few things.

ghost use Rattle.std.specs.Prelude.{◌≡◌, ℕ, ◌*◌, ◌+◌, ◌<◌, ◌≤◌, ◌++◌, ◌∷◌, None, IfOk, IfSome, IsSomeAnd, IsTrue, ◌↔◌, unwrap_or, false, length, map, [], OnOk, Option};
ghost use Rattle.std.specs.List.{All};
ghost use Rattle.cnf.specs.Formula.{Formula, formula_of};
ghost use Rattle.cnf.specs.Clauses.{AllBelow, all_open, valuation};
ghost use Rattle.sat_state.specs.Trail.{IsQuiet};
ghost use Rattle.sat_state.specs.Watch.{rows};
ghost use Rattle.sat_search.specs.Found.{IsFound};
ghost use Rattle.sat_search.specs.Lesson.{IsHalfway, IsReady};
ghost use Rattle.sat_core.specs.Stop.{IsRightStop};

use cnf::Dim;
use refute_check::Step;
use sat_search::back::restart;
use sat_search::learn::{Lesson, Notes, learn, write};
use sat_search::search::conflict_of;
use sat_search::start::start;
use sat_state::lists::empty_lists;
use sat_state::store::Store;
use sat_state::trail::Trail;
use sat_state::watch::{Pair, Watch};
use std::alloc::{AllocError, Global};

/// The values, where each variable has one.
fn solution(alloc: Global, values: &[Option<bool>]) -> Result<Vec<bool>, AllocError>
    ensures { IfOk result (λ found. found.items ≡ map (λ o. unwrap_or o false) values.now) }
{
    values.iter().map(|o| o.unwrap_or(false)).collect(alloc)
}

/// Whether there are as many steps as the budget.
fn is_spent(budget: Option<u64>, steps: usize) -> bool
    ensures { IsTrue result ↔ IsSomeAnd budget (λ n. n ≤ steps) }
{
    match budget {
        None => false,
        Some(n) => n <= steps as u64,
    }
}

/// How the search ended. The steps so far stand beside it.
#[derive(Drop)]
pub enum Stop {
    /// Each clause holds under these values.
    Solved(Vec<bool>),
    /// The last step is the empty clause.
    Refuted,
    /// There are as many steps as the budget.
    UsedUp,
}

/// Puts what was learned behind the log. Answers from where to propagate.
fn keep(alloc: Global, steps: &mut Vec<Step>, lesson: Lesson) -> Result<Option<usize>, AllocError>
    ensures next { IfOk result (λ next. next ≡ lesson.next) }
    ensures step { OnOk result (steps.new.items ≡ steps.old.items ++ lesson.step ∷ []) }
{
    let Lesson { step, next } = lesson;
    write(alloc, steps, &step)?;
    Ok(next)
}

/// Learns a clause from each conflict, until there is none or the steps are as many as the budget.
fn learn_all(
    alloc: Global,
    budget: Option<u64>,
    trail: &mut Trail,
    seen: &mut [bool],
    pairs: &mut Vec<Pair>,
    lists: &mut [Vec<Watch>],
    store: &mut Store,
    steps: &mut Vec<Step>,
    notes: &mut Notes,
    first: Option<usize>,
) -> Result<Stop, AllocError>
    requires budget { IfSome budget (λ n. 0 < n) }
    requires seen { length seen.old ≡ length trail.old.values }
    requires steps { steps.old.items ≡ [] }
    requires ready { IsReady (length trail.old.values) store.old pairs.old.items (rows lists.old) trail.old }
    requires found { IsFound store.old (valuation trail.old.values) first (IsHalfway store.old pairs.old.items trail.old 0) }
    ensures { IfOk result (IsRightStop (formula_of (length trail.old.values) store.old) budget steps.new.items) }
{
    let mut found = first;
    let mut from = 0;
    'conflicts: loop {
        match conflict_of(alloc, trail, pairs, lists, found, from, store)? {
            None => {
                return Ok(Stop::Solved(solution(alloc, trail.values())?));
            }
            Some(conflict) => {
                let lesson = learn(alloc, trail, seen, pairs, lists, store, notes, conflict)?;
                match keep(alloc, steps, lesson)? {
                    None => return Ok(Stop::Refuted),
                    Some(place) => {
                        if is_spent(budget, steps.len()) {
                            return Ok(Stop::UsedUp);
                        }
                        from = restart(trail, place);
                        found = None;
                    }
                }
            }
        }
    }
}

/// Watches the clauses, and learns until the end.
fn run_on(
    alloc: Global,
    budget: Option<u64>,
    trail: &mut Trail,
    seen: &mut [bool],
    lists: &mut [Vec<Watch>],
    store: &mut Store,
    steps: &mut Vec<Step>,
    notes: &mut Notes,
) -> Result<Stop, AllocError>
    requires clauses { AllBelow (length trail.old.values) store.old }
    requires budget { IfSome budget (λ n. 0 < n) }
    requires steps { steps.old.items ≡ [] }
    requires open { valuation trail.old.values ≡ all_open }
    requires empty { trail.old.entries ≡ [] }
    requires seen { length seen.old ≡ length trail.old.values }
    requires count { length (rows lists.old) ≡ 2 * length trail.old.values }
    requires lists { All (λ row. row ≡ []) (rows lists.old) }
    ensures { IfOk result (IsRightStop (formula_of (length trail.old.values) store.old) budget steps.new.items) }
{
    let mut pairs: Vec<Pair> = Vec::with_capacity(alloc, store.len())?;
    let found = start(trail, &mut pairs, lists, store)?;
    learn_all(
        alloc, budget, trail, seen, &mut pairs, lists, store, steps, notes, found,
    )
}

/// Makes the lists and the trail, and runs.
fn search_with(
    alloc: Global,
    budget: Option<u64>,
    seen: &mut [bool],
    store: &mut Store,
    steps: &mut Vec<Step>,
    notes: &mut Notes,
) -> Result<Stop, AllocError>
    requires clauses { AllBelow (length seen.old) store.old }
    requires budget { IfSome budget (λ n. 0 < n) }
    requires steps { steps.old.items ≡ [] }
    ensures { IfOk result (IsRightStop (formula_of (length seen.old) store.old) budget steps.new.items) }
{
    let vars = seen.len();
    let mut lists = empty_lists(alloc, vars * 2)?;
    let mut trail = Trail::new(alloc, vars)?;
    run_on(
        alloc,
        budget,
        &mut trail,
        seen,
        lists.as_mut_slice(),
        store,
        steps,
        notes,
    )
}

/// Puts the clauses into a store, and runs.
fn run_with(
    alloc: Global,
    clauses: &[Vec<Dim>],
    budget: Option<u64>,
    seen: &mut [bool],
    steps: &mut Vec<Step>,
) -> Result<Stop, AllocError>
    requires clauses { AllBelow (length seen.old) (map (λ v. v.items) clauses.now) }
    requires budget { IfSome budget (λ n. 0 < n) }
    requires steps { steps.old.items ≡ [] }
    ensures { IfOk result (IsRightStop (formula_of (length seen.old) (map (λ v. v.items) clauses.now)) budget steps.new.items) }
{
    let mut notes = Notes::new(alloc, seen.len())?;
    let mut store = Store::from_clauses(alloc, clauses)?;
    search_with(alloc, budget, seen, &mut store, steps, &mut notes)
}

/// Finds a solution, or steps that the checker accepts, each of which is new but for the empty one; or gives up after as many new
/// steps as the budget.
pub fn search_whole(
    alloc: Global,
    vars: usize,
    clauses: &[Vec<Dim>],
    budget: Option<u64>,
    steps: &mut Vec<Step>,
) -> Result<Stop, AllocError>
    requires clauses { AllBelow vars (map (λ v. v.items) clauses.now) }
    requires budget { IfSome budget (λ n. 0 < n) }
    requires steps { steps.old.items ≡ [] }
    ensures { IfOk result (IsRightStop (formula_of vars (map (λ v. v.items) clauses.now)) budget steps.new.items) }
{
    let mut seen = vec![in alloc; false; vars]?;
    run_with(alloc, clauses, budget, seen.as_mut_slice(), steps)
}
