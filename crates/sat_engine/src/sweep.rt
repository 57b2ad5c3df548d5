//! SAT sweeping of candidate equivalences (Kuehlmann and others 2002): pairs of literals that are likely to be equal are shown to
//! be. It is decided before all else that the one is true and the other is false, until that is refuted or given up. What is
//! learned by that are short clauses between places inside of two circuits that are to be the same, without which their ends are
//! out of reach.

use crate::cone::Cone;
use crate::equal::settle;
use sat_arena::arena::Status;
use sat_arena::constants::{PAIR_CONFLICTS, PAIR_FAILURES, PAIR_SHARE, PAIR_WORK};
use sat_arena::trail::{Value, is_true, value_of};
use sat_arena::words::{Lit, NONE, at, var_of};
use sat_cdcl::database::Database;
use sat_cdcl::engine::Engine;
use sat_cdcl::notes::Notes;

/// A clause of two literals that was learned from a pair.
const LEARNED_PAIR: Status = Status {
    is_learned: true,
    is_garbage: false,
    is_tried: false,
    used: 0,
    glue: 1,
};

/// What became of two literals that were to be refuted together.
#[derive(Clone, Copy)]
enum Outcome {
    Refuted,
    /// Both can be true, as far as what is near to them tells.
    Met,
    GivenUp,
}

// Goes through what makes a literal false on the first level. Answers whether the literal that is decided does.
fn trace_back(data: &mut Database, notes: &mut Notes, lit: Lit) -> bool {
    notes.begin();
    for place in (0..data.trail.lits.len()).rev() {
        let var = var_of(at(&data.trail.lits, place));
        if var == var_of(lit) || notes.is_met(var) {
            let fact = data.trail.fact(var);
            if fact.reason == NONE {
                return fact.level > 0;
            }
            let _count = notes.trace(&mut data.arena, &data.trail, fact.reason);
        }
    }
    false
}

// Writes down that not both literals are true, where the first is decided and makes the second false.
fn learn_pair(engine: &mut Engine, first: Lit, second: Lit) {
    let is_needed = trace_back(&mut engine.data, &mut engine.notes, second);
    engine.notes.close();
    engine.notes.clear();
    engine.backtrack(0);
    if is_needed {
        let pair = [second ^ 1, first ^ 1];
        let number = engine.data.log.add(&pair, &engine.notes.hints);
        let _place = engine.add(&pair, number, LEARNED_PAIR);
    } else {
        let number = engine.data.log.add(&[second ^ 1], &engine.notes.hints);
        engine.data.add_unit(second ^ 1, number);
    }
}

// Goes on from where nothing is to be propagated. Answers what became of the literals, if it is known. Where the first is true by
// decision alone, and makes the second false, that is learned.
fn go_on(engine: &mut Engine, cone: &mut Cone, gates: &[u32]) -> Option<Outcome> {
    let (first, second) = (cone.first, cone.second);
    let trail = &engine.data.trail;
    if trail.satisfies(&[first ^ 1, second ^ 1]) {
        return Some(Outcome::Refuted);
    }
    let is_first_true = is_true(&trail.values, first);
    let lit = if is_first_true { second } else { first };
    match value_of(&trail.values, lit) {
        Value::Open => engine.data.trail.decide(lit),
        Value::True => {
            if !cone.decide(&mut engine.data, &engine.order, gates, &mut engine.work) {
                return Some(Outcome::Met);
            }
        }
        Value::False => {
            let fact = trail.fact(var_of(lit));
            if is_first_true && trail.level() == 1 && fact.reason != NONE {
                learn_pair(engine, first, second);
                return Some(Outcome::Refuted);
            }
            engine.backtrack(0);
        }
    }
    None
}

// Tries to refute that both literals are true.
fn refute(engine: &mut Engine, cone: &mut Cone, gates: &[u32], first: Lit, second: Lit) -> Outcome {
    let most = engine.pace.conflicts.saturating_add(PAIR_CONFLICTS);
    engine.backtrack(0);
    cone.first = first;
    cone.second = second;
    cone.next = 0;
    for _ in 0..u64::MAX {
        if let Some(conflict) = engine.propagate() {
            engine.learn(conflict);
            cone.next = 0;
        } else {
            if let Some(outcome) = go_on(engine, cone, gates) {
                return outcome;
            }
            if engine.pace.conflicts >= most {
                break;
            }
        }
        if engine.data.is_refuted() {
            return Outcome::Refuted;
        }
        if engine.lacks_room() {
            break;
        }
    }
    Outcome::GivenUp
}

// Tries to refute a pair in both ways. Where it is met in one, the other is not tried.
fn try_pair(engine: &mut Engine, cone: &mut Cone, gates: &[u32], one: Lit, other: Lit) -> Outcome {
    cone.vars.clear();
    let outcome = refute(engine, cone, gates, one, other ^ 1);
    if matches!(outcome, Outcome::Refuted) && !engine.data.is_refuted() {
        refute(engine, cone, gates, one ^ 1, other)
    } else {
        outcome
    }
}

// Tries pairs until too many are given up, for how many ways of pairs were refuted, or so much was looked at.
fn try_all(
    engine: &mut Engine,
    cone: &mut Cone,
    gates: &[u32],
    pairs: &[(u32, Lit, Lit)],
    work: u64,
) {
    let mut failures: u64 = 0;
    let mut successes: u64 = 0;
    for (_, one, other) in pairs {
        let is_poor = failures > successes / PAIR_SHARE + PAIR_FAILURES;
        if engine.data.is_refuted() || engine.work > work || is_poor {
            break;
        }
        match try_pair(engine, cone, gates, *one, *other) {
            Outcome::Refuted => successes = successes.saturating_add(2),
            Outcome::Met => {}
            Outcome::GivenUp => failures = failures.saturating_add(1),
        }
    }
}

/// Tries the pairs in their order, where each variable has this gate, until too many of them are given up or enough was looked at. Then
/// what is fixed is propagated.
pub fn sweep(engine: &mut Engine, gates: &[u32], pairs: &[(u32, Lit, Lit)]) {
    let work = engine.work.saturating_add(PAIR_WORK);
    let vars = engine.order.gone.len();
    let mut cone = Cone::new(engine.data.alloc, vars, &mut engine.data.is_short);
    try_all(engine, &mut cone, gates, pairs, work);
    engine.backtrack(0);
    settle(engine);
}
