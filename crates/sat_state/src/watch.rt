//! Two literals of each clause are watched (as in Chaff; Moskewicz et al., 2001): while neither is false, the clause is neither
//! false nor unit, so it is looked at only when one of them becomes false. What is to be done with it then is decided here,
//! without changing anything. The literal beside is looked at first, and another one is looked for from the place at which one
//! was found last, and then before it (circular search; Gent, 2013), so that long clauses are not read from the front each time.

ghost use Rattle.std.specs.Prelude.{◌≡◌, ◌≢◌, ℕ, ◌<◌, ◌≤◌, ◌⊎◌, ◌↔◌, Option, Some, None, not, length, MatchOption, IsTrue};
ghost use Rattle.std.specs.List.{All, Contains};
ghost use Rattle.cnf.specs.Clauses.{AreBelow, IsFalsified, Valuation, valuation};
ghost use Rattle.cnf.specs.State.{IsState};
ghost use Rattle.sat_state.specs.Watch.{HasTrue, IsHalf, IsBeside, Watches};
ghost use Rattle.sat_state.specs.Visited.{IsFreeAt, IsVisited};

use crate::packed::PackedDim;
use cnf::{ClauseState, Dim, look, looked};

/// The two literals of a clause that are watched. A clause of which none is watched has twice the same.
#[derive(Clone, Copy)]
pub struct Pair {
    pub a: PackedDim,
    pub b: PackedDim,
}

/// The number of a clause, and one of its literals (a blocking literal): while that is true, the clause need not be looked at.
#[derive(Clone, Copy)]
pub struct Watch {
    pub clause: usize,
    pub blocker: PackedDim,
}

/// What is to be done with a clause of which a watched literal has become false.
#[derive(Clone, Copy)]
pub enum Visit {
    /// It stays in the list, with this literal to be looked at first.
    Keep(PackedDim),
    /// The second of this pair, which stands at this place of the clause, is watched in place of the false literal.
    Move(Pair, usize),
    /// This literal is open, and each other one is false.
    Unit(Dim),
    /// Each literal is false.
    Conflict,
}

/// Whether the literal is false.
fn is_false(values: &[Option<bool>], lit: PackedDim) -> bool
    requires { lit.var < length values.now }
    ensures { IsTrue result ↔ IsFalsified (valuation values.now) lit }
{
    let d = lit.dim();
    match values[d.var] {
        None => false,
        Some(value) => value == d.negated,
    }
}

/// Whether the literal is true.
pub fn is_true(values: &[Option<bool>], lit: PackedDim) -> bool
    requires { lit.var < length values.now }
    ensures { IsTrue result ↔ (valuation values.now lit.var ≡ Some (not lit.negated)) }
{
    let d = lit.dim();
    match values[d.var] {
        None => false,
        Some(value) => value != d.negated,
    }
}

/// What the clause is under these values, by the number of the variable. A literal that stands twice counts once.
pub fn packed_state(values: &[Option<bool>], clause: &[PackedDim]) -> ClauseState
    requires { AreBelow (length values.now) clause.now }
    ensures { IsState (valuation values.now) clause.now result }
{
    let mut found: Option<Dim> = None;
    for d in clause {
        if !look(values, d.dim(), &mut found) {
            return ClauseState::Neither;
        }
    }
    looked(found)
}

/// The first place of a literal that is not false, and not `other`.
fn first_free(values: &[Option<bool>], clause: &[PackedDim], other: Dim) -> Option<usize>
    requires { AreBelow (length values.now) clause.now }
    ensures { IsFreeAt (valuation values.now) clause.now other result }
{
    for (i, d) in clause.iter().enumerate() {
        if !is_false(values, *d) && d.dim() != other {
            return Some(i);
        }
    }
    None
}

// The number, if it is below the length, or else 0.
fn within(from: usize, length: usize) -> usize
    ensures { result ≤ length }
{
    if from < length { from } else { 0 }
}

/// The place of a literal that is not false, and not `other`. It is looked for from a place on, and then before it.
#[tactic(auto, using(crate::proofs::Places::free_later, crate::proofs::Places::free_rest))]
pub fn other_free(
    values: &[Option<bool>],
    clause: &[PackedDim],
    other: Dim,
    from: usize,
) -> Option<usize>
    requires { AreBelow (length values.now) clause.now }
    ensures { IsFreeAt (valuation values.now) clause.now other result }
{
    let start = within(from, clause.len());
    match first_free(values, &clause[start..], other) {
        Some(i) => Some(start + i),
        None => first_free(values, &clause[..start], other),
    }
}

/// The watched literal beside `d`, if two are watched and `d` is one of them.
fn beside(pair: &Pair, d: Dim) -> Option<PackedDim>
    ensures { MatchOption result ((pair.now.a ≡ pair.now.b) ⊎ ((pair.now.a ≢ d) × (pair.now.b ≢ d))) (λ o. IsBeside pair.now d o × (d ≢ o)) }
{
    let a = pair.a.dim();
    let b = pair.b.dim();
    if a == b {
        None
    } else if a == d {
        Some(pair.b)
    } else if b == d {
        Some(pair.a)
    } else {
        None
    }
}

/// Decides what is to be done with a clause of which `d` has become false; `blocker` is one of its literals, and `from` the
/// place from which to look for another one to be watched.
pub fn look_again(
    values: &[Option<bool>],
    clause: &[PackedDim],
    pair: &Pair,
    blocker: PackedDim,
    d: Dim,
    from: usize,
) -> Visit
    requires range { AreBelow (length values.now) clause.now }
    requires blocker { Contains clause.now blocker }
    requires inside { (x : Dim) → Watches pair.now x → Contains clause.now x }
    requires half { (low : Valuation) × IsHalf low (valuation values.now) clause.now pair.now }
    ensures { IsVisited (valuation values.now) clause.now pair.now d result }
{
    match beside(pair, d) {
        None => Visit::Keep(blocker),
        Some(other) => look_beside(values, clause, pair, d, other, from),
    }
}

#[tactic(auto, using(crate::proofs::Visits::visit_unit, crate::proofs::Visits::visit_conflict))]
fn look_beside(
    values: &[Option<bool>],
    clause: &[PackedDim],
    pair: &Pair,
    d: Dim,
    other: PackedDim,
    from: usize,
) -> Visit
    requires range { AreBelow (length values.now) clause.now }
    requires two { d ≢ other }
    requires beside { IsBeside pair.now d other }
    requires inside { Contains clause.now other }
    ensures { IsVisited (valuation values.now) clause.now pair.now d result }
{
    if is_true(values, other) {
        return Visit::Keep(other);
    }
    match other_free(values, clause, other.dim(), from) {
        Some(i) => Visit::Move(
            Pair {
                a: other,
                b: clause[i],
            },
            i,
        ),
        None => {
            if is_false(values, other) {
                Visit::Conflict
            } else {
                Visit::Unit(other.dim())
            }
        }
    }
}
