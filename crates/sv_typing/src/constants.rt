// Constants that are wholly 0 and 1.
ghost use Rattle.std.specs.Prelude.{◌≡◌, ◌&&◌, true, IfOk};
ghost use Rattle.sv_typed.specs.Typed.{IsSound};
ghost use Rattle.sv_meaning.specs.Meanings.{Meaning, from, fixed_faults};
ghost use Rattle.sv_typing.specs.Judging.{Judges, Types, Fixes};

use crate::position::Fixed;
use crate::refusals::refusal;
use sv_names::Known;
use sv_outside::{Place, TextErr, refusals};
use sv_typed::Typed;

// Whether both hold.
pub(crate) fn both_hold(a: bool, b: bool) -> bool
    ensures { result ≡ (a && b) }
{
    a && b
}

/// A constant wholly 0 and 1 that begins at a place, or E15.
#[tactic(auto, using(crate::proofs::Fixing::fixings))]
pub(crate) fn fixed_of(start: Place, x: Result<Typed, TextErr>) -> Result<Fixed, TextErr>
    requires { IfOk x (λ t. IsSound t) }
    ensures { (m : Meaning) → Judges m true x → Fixes (from start m) result }
{
    let x = x?;
    let value = x.own();
    let known = Known {
        value,
        signed: x.signed,
    };
    let constant = x.constant;
    drop(x);
    if value.is_bool() {
        Ok(Fixed::new(known, constant))
    } else {
        Err(TextErr::No(refusal(refusals::CONST_UNKNOWN, start)))
    }
}

/// The same as an index of a select.
#[tactic(auto, using(crate::proofs::Fixing::fixings))]
pub(crate) fn fixed_index(start: Place, x: Result<Typed, TextErr>) -> Result<Typed, TextErr>
    requires { IfOk x (λ t. IsSound t) }
    ensures { (m : Meaning) → m.start ≡ start → Judges m true x → Types m (fixed_faults m) result }
{
    let x = x?;
    if x.own().is_bool() {
        Ok(x)
    } else {
        drop(x);
        Err(TextErr::No(refusal(refusals::CONST_UNKNOWN, start)))
    }
}
