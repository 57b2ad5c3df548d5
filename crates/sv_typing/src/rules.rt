//! Rules of typing: what is made of typed parts, or why it is refused. A rule takes the results of all its parts, so that the
//! cycle over trees hands on no error and holds no tree while it does.
ghost use Rattle.std.specs.Prelude.{◌≡◌, ◌&&◌, Bool, IfOk, IfErr, pos, int_lt};
ghost use Rattle.fourvec.specs.Bits.{is_known};
ghost use Rattle.sv_outside.specs.declared.refusal.Place.{Place};
ghost use Rattle.sv_typed.specs.Ops.{one_meaning, pair_meaning, two_meaning};
ghost use Rattle.sv_typed.specs.Typed.{IsSound};
ghost use Rattle.sv_meaning.specs.Layouts.{Scope};
ghost use Rattle.sv_meaning.specs.Values.{mean};
ghost use Rattle.sv_meaning.specs.Meanings.{Meaning, from, of_literal, to_sign, log_up, chosen, power, whole};
ghost use Rattle.sv_typing.specs.Judging.{Judges, Fixes, IsCause, IsTyped, IsExponent};

use crate::begins::start;
use crate::constants::both_hold;
use crate::held::both_made;
use crate::literals::refused;
use crate::numbers::is_negative;
use crate::position::Fixed;
use crate::refusals::refusal;
use fourvec::Four;
use items::both;
use std::alloc::Global;
use sv_literal::literal;
use sv_outside::{Place, TextErr, refusals};
use sv_tree::{Expr, Word};
use sv_typed::{One, Pair, Two, Typed};

/// A literal, or E2, E14 or E16.
pub(crate) fn literal_typed(word: &Word) -> Result<Typed, TextErr>
    ensures { (c : Bool) → Judges (of_literal word.now) c result }
{
    match literal(word.text.bytes()) {
        Ok(found) => Ok(Typed::literal(found)),
        Err(why) => Err(TextErr::No(refused(why, word.place))),
    }
}

/// An operator on one operand.
pub(crate) fn one_typed(alloc: Global, op: One, x: Result<Typed, TextErr>) -> Result<Typed, TextErr>
    ensures { (m : Meaning) (c : Bool) (p : Place) → Judges m c x → Judges (from p (one_meaning op m)) c result }
{
    let x = x?;
    match op {
        One::Turned(op) => Ok(Typed::turned(alloc, op, x)?),
        One::Reduced(op) => Ok(Typed::reduced(alloc, op, x)?),
    }
}

// An operator on two operands, but for `**`.
fn pair_typed(
    alloc: Global,
    op: Pair,
    x: Result<Typed, TextErr>,
    y: Result<Typed, TextErr>,
) -> Result<Typed, TextErr>
    ensures { (m n : Meaning) (c : Bool) → Judges m c x → Judges n c y → Judges (pair_meaning op m n) c result }
{
    let (x, y) = both_made(x, y)?;
    Ok(Typed::pair(alloc, op, x, y)?)
}

/// A choice by a condition.
pub(crate) fn chosen_typed(
    alloc: Global,
    condition: Result<Typed, TextErr>,
    x: Result<Typed, TextErr>,
    y: Result<Typed, TextErr>,
) -> Result<Typed, TextErr>
    ensures { (l m n : Meaning) (c : Bool) → Judges l c condition → Judges m c x → Judges n c y → Judges (chosen l m n) c result }
{
    let ((condition, x), y) = both_made(both_made(condition, x), y)?;
    Ok(Typed::chosen(alloc, condition, x, y)?)
}

/// A cast to a sign.
pub(crate) fn sign_typed(
    alloc: Global,
    signed: bool,
    x: Result<Typed, TextErr>,
) -> Result<Typed, TextErr>
    ensures { (m : Meaning) (c : Bool) (p : Place) → Judges m c x → Judges (from p (to_sign signed m)) c result }
{
    let x = x?;
    Ok(Typed::standing(alloc, signed, x)?)
}

/// `$clog2` of a constant.
pub(crate) fn log_typed(alloc: Global, x: Result<Fixed, TextErr>) -> Result<Typed, TextErr>
    ensures { (m : Meaning) (c : Bool) (p : Place) → Fixes m x → Judges (from p (log_up m)) c result }
{
    let x = x?;
    Ok(Typed::log_up(alloc, &x.known.value))
}

// Whether a known number is below 0.
fn is_below_zero(bits: &Four, signed: bool) -> bool
    ensures { result ≡ (is_known bits.now && int_lt (whole signed bits.now) (pos 0)) }
{
    bits.is_bool() && signed && is_negative(bits)
}

/// The bits of the exponent of `**`, or E25 or E15.
fn exponent_bits(place: Place, start: Place, x: &Typed, y: &Typed) -> Result<Four, TextErr>
    requires { IsSound y.now }
    ensures is { IfOk result (λ bits. IsExponent x.now y.now bits) }
    ensures cause { (m n : Meaning) (c : Bool) → m.start ≡ start → IsTyped m (m.faults c) x.now → IsTyped n (n.faults c) y.now → IfErr result (λ e. IsCause ((power place m n).faults c) e) }
{
    let bits = y.own();
    let constant = both_hold(x.constant, y.constant);
    if !constant {
        return Err(TextErr::No(refusal(refusals::OUT_OF_SCOPE, place)));
    }
    let below = is_below_zero(&bits, y.signed);
    if below {
        return Err(TextErr::No(refusal(refusals::CONST_UNKNOWN, start)));
    }
    Ok(bits)
}

// `**` of typed operands, or E25 or E15.
fn power_of(
    alloc: Global,
    place: Place,
    start: Place,
    x: Typed,
    y: &Typed,
) -> Result<Typed, TextErr>
    requires { IsSound y.now }
    ensures { (m n : Meaning) (c : Bool) → m.start ≡ start → IsTyped m (m.faults c) x → IsTyped n (n.faults c) y.now → Judges (power place m n) c result }
{
    let bits = exponent_bits(place, start, &x, y);
    let (x, bits) = both(x, bits)?;
    Ok(Typed::power(alloc, x, y, &bits)?)
}

// `**`, or E25 or E15.
fn power_typed(
    alloc: Global,
    place: Place,
    start: Place,
    x: Result<Typed, TextErr>,
    y: Result<Typed, TextErr>,
) -> Result<Typed, TextErr>
    requires { IfOk y (λ t. IsSound t) }
    ensures { (m n : Meaning) (c : Bool) → m.start ≡ start → Judges m c x → Judges n c y → Judges (power place m n) c result }
{
    let (x, y) = both_made(x, y)?;
    let made = power_of(alloc, place, start, x, &y);
    drop(y);
    made
}

/// An operator on two operands, of which the left one is this expression; `**` or E25 or E15.
#[tactic(auto, using(crate::proofs::OfRules::two_is))]
pub(crate) fn two_typed(
    alloc: Global,
    place: Place,
    op: Two,
    left: &Expr,
    x: Result<Typed, TextErr>,
    y: Result<Typed, TextErr>,
) -> Result<Typed, TextErr>
    requires { IfOk y (λ t. IsSound t) }
    ensures { (at : Scope) (n : Meaning) (c : Bool) → Judges (mean at left.now) c x → Judges n c y → Judges (two_meaning place op (mean at left.now) n) c result }
{
    match op {
        Two::Power => power_typed(alloc, place, start(left), x, y),
        Two::Pair(op) => pair_typed(alloc, op, x, y),
    }
}
