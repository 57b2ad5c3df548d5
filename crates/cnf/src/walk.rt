//! The walk over a clause that tells whether it is false, unit, or neither.

ghost use Rattle.std.specs.Prelude.{◌<◌, ◌++◌, ◌∷◌, [], List, length};
ghost use Rattle.std.specs.Bool.{OnFalse, OnTrue};
ghost use Rattle.cnf.specs.declared.Dim.{Dim};
ghost use Rattle.cnf.specs.Clauses.{AreBelow, Valuation, valuation};
ghost use Rattle.cnf.specs.State.{IsNeither, IsState, Looked};

use crate::Dim;

/// What a clause is where some of the variables have values.
#[derive(Clone, Copy, PartialEq, Eq)]
pub enum ClauseState {
    /// Each literal is false.
    Conflict,
    /// This literal is open, and each other one is false.
    Unit(Dim),
    /// Some literal is true, or two are open.
    Neither,
}

/// Looks at one literal more, where `found` is the open one among those before it, if there is one. Answers whether the walk goes
/// on: where it does not, the clause is neither a conflict nor unit.
#[tactic(auto, using(crate::proofs::Walks::value_on, crate::proofs::Walks::value_over, crate::proofs::Walks::looked_open, crate::proofs::Walks::again_on, crate::proofs::Walks::again_over))]
pub fn look(values: &[Option<bool>], d: Dim, found: &mut Option<Dim>) -> bool
    requires { d.var < length values.now }
    ensures on { (xs : List Dim) → Looked (valuation values.now) xs found.old → OnTrue result (Looked (valuation values.now) (xs ++ d ∷ []) found.new) }
    ensures over { (xs ys : List Dim) → Looked (valuation values.now) xs found.old → OnFalse result (IsNeither (valuation values.now) (xs ++ d ∷ ys)) }
{
    match values[d.var] {
        Some(value) => value == d.negated,
        None => match *found {
            None => {
                *found = Some(d);
                true
            }
            Some(e) => e == d,
        },
    }
}

/// What a clause is, of whose literals one at most was found to be open, and the others to be false.
pub fn looked(found: Option<Dim>) -> ClauseState
    ensures { (a : Valuation) (xs : List Dim) → Looked a xs found → IsState a xs result }
{
    match found {
        None => ClauseState::Conflict,
        Some(d) => ClauseState::Unit(d),
    }
}

/// What the clause is under these values, by the number of the variable. A literal that stands twice counts once.
pub fn state_of(values: &[Option<bool>], clause: &[Dim]) -> ClauseState
    requires { AreBelow (length values.now) clause.now }
    ensures { IsState (valuation values.now) clause.now result }
{
    let mut found: Option<Dim> = None;
    for d in clause {
        if !look(values, *d, &mut found) {
            return ClauseState::Neither;
        }
    }
    looked(found)
}
