//! Concatenations, replications and casts to a size or a type. Each takes the results of its parts, as the other rules do; a count
//! of copies is tried against the 128 bits of a vector before it is multiplied.
ghost use Rattle.std.specs.Prelude.{◌≡◌, ◌≤◌, Bool, List, length, map, Err, IfErr, Some, IfSome, IsTrue, option_map};
ghost use Rattle.std.specs.Option.{option_copied};
ghost use Rattle.std.specs.List.{AllZip};
ghost use Rattle.fourvec.specs.Bits.{is_known};
ghost use Rattle.sv_typed.specs.Typed.{Stands};
ghost use Rattle.sv_meaning.specs.Layouts.{Scope};
ghost use Rattle.sv_meaning.specs.Meanings.{Meaning, from, to_layout, concat, repeated, sized_by, cast_to, whole, is_bound};
ghost use Rattle.sv_meaning.specs.Values.{mean};
ghost use Rattle.sv_typing.specs.Judging.{Judges, JudgesAll, AreTyped, Loose, IsFixed, Fixes, is_loose};
ghost use Rattle.sv_names.specs.Kinds.{what_is, layout_is, IsSound, WhatIsSound};
ghost use Rattle.sv_typing.specs.Ranges.{JudgesCopies};
ghost use Rattle.sv_typing.specs.Casts.{LayoutUnder, CountUnder};

use crate::begins::start;
use crate::held::both_made;
use crate::numbers::small;
use crate::position::Fixed;
use crate::ranges::fits;
use crate::refusals::refusal;
use crate::roots::no_root;
use items::Items;
use std::alloc::Global;
use sv_names::{Known, Layout, What};
use sv_outside::{Place, TextErr, refusals};
use sv_tree::{Expr, Word};
use sv_typed::{Typed, TypedForm, width_together};

// Whether it is a literal without a size.
fn is_loose(typed: &Typed) -> bool
    ensures { result ≡ is_loose typed.now }
{
    match &typed.form {
        TypedForm::Literal(literal) => !literal.sized,
        _ => false,
    }
}

// Where the first part stands that has no size.
fn loose_in(exprs: &[Expr], parts: &[Typed]) -> Option<Place>
    ensures { (at : Scope) → AllZip Stands parts.now (map (mean at) exprs.now) → Loose (map (mean at) exprs.now) result }
{
    'parts: for i in 0..parts.len().min(exprs.len()) {
        if is_loose(&parts[i]) {
            return Some(start(&exprs[i]));
        }
    }
    None
}

// How many copies of so many bits a number of 32 bits says, where they are the bits of a vector.
#[tactic(auto, using(crate::proofs::Beside::no_copies, crate::proofs::Beside::many_bits))]
fn small_copies(count: i64, each: u8) -> Option<u8>
    requires { IsTrue (is_bound count) }
    ensures { JudgesCopies count each result }
{
    if count <= 0 {
        None
    } else if each == 0 {
        None
    } else if fits(count as u64, each) {
        Some(count as u8)
    } else {
        None
    }
}

// How many copies of so many bits a constant says.
#[tactic(auto, using(crate::proofs::Beside::far_copies))]
fn copies(count: &Fixed, each: u8) -> Option<u8>
    ensures { JudgesCopies (whole count.now.known.signed count.now.known.value) each result }
{
    match small(&count.known.value, count.known.signed) {
        Some(count) => small_copies(count, each),
        None => None,
    }
}

/// Parts side by side, or E14.
fn concat_typed(place: Place, loose: Option<Place>, parts: Items<Typed>) -> Result<Typed, TextErr>
    ensures { (all : List Meaning) (c : Bool) → AreTyped all c parts → Loose all loose → Judges (concat place all) c result }
{
    let width = width_together(parts.as_slice());
    match loose {
        Some(loose) => Err(TextErr::No(refusal(refusals::WIDTH, loose))),
        None => {
            if width == 0 {
                Err(TextErr::No(refusal(refusals::WIDTH, place)))
            } else if width > 128 {
                Err(TextErr::No(refusal(refusals::WIDTH, place)))
            } else {
                Ok(Typed::concat(parts))
            }
        }
    }
}

/// So many copies of parts side by side, or E14.
fn repeat_typed(
    place: Place,
    count: &Fixed,
    loose: Option<Place>,
    parts: Items<Typed>,
) -> Result<Typed, TextErr>
    ensures { (n : Meaning) (all : List Meaning) (c : Bool) → IsFixed n count.now → AreTyped all c parts → Loose all loose → Judges (repeated place n all) c result }
{
    let width = width_together(parts.as_slice());
    match loose {
        Some(loose) => Err(TextErr::No(refusal(refusals::WIDTH, loose))),
        None => match copies(count, width) {
            Some(count) => Ok(Typed::repeat(count, parts)),
            None => Err(TextErr::No(refusal(refusals::WIDTH, place))),
        },
    }
}

/// A concatenation of these expressions, typed.
pub(crate) fn concat_of(
    place: Place,
    exprs: &[Expr],
    list: Result<Items<Typed>, TextErr>,
) -> Result<Typed, TextErr>
    ensures { (at : Scope) (c : Bool) → JudgesAll (map (mean at) exprs.now) c list → Judges (concat place (map (mean at) exprs.now)) c result }
{
    let list = list?;
    let loose = loose_in(exprs, list.as_slice());
    concat_typed(place, loose, list)
}

/// So many copies of these expressions, typed.
pub(crate) fn repeat_of(
    place: Place,
    count: Result<Fixed, TextErr>,
    exprs: &[Expr],
    list: Result<Items<Typed>, TextErr>,
) -> Result<Typed, TextErr>
    ensures { (at : Scope) (n : Meaning) (c : Bool) → Fixes n count → JudgesAll (map (mean at) exprs.now) c list → Judges (repeated place n (map (mean at) exprs.now)) c result }
{
    let count = count?;
    let list = list?;
    let loose = loose_in(exprs, list.as_slice());
    repeat_typed(place, &count, loose, list)
}

/// A cast to a size, or E14.
pub(crate) fn cast_typed(
    alloc: Global,
    start: Place,
    count: Result<Fixed, TextErr>,
    x: Result<Typed, TextErr>,
) -> Result<Typed, TextErr>
    ensures judged { (n m : Meaning) (c : Bool) → n.start ≡ start → Fixes n count → Judges m c x → Judges (sized_by n m) c result }
    ensures stops { IfErr count (λ e. result ≡ Err e) }
{
    let (count, x) = both_made(count, x)?;
    let signed = x.signed;
    match copies(&count, 1) {
        Some(width) => Ok(Typed::fitted(alloc, width, signed, x)?),
        None => {
            drop(x);
            Err(TextErr::No(refusal(refusals::WIDTH, start)))
        }
    }
}

/// A cast to a type.
fn layout_cast_typed(
    alloc: Global,
    place: Place,
    layout: &Layout,
    x: Result<Typed, TextErr>,
) -> Result<Typed, TextErr>
    requires { IsSound layout.now }
    ensures { (m : Meaning) (c : Bool) → Judges m c x → Judges (from place (to_layout (layout_is layout.now) m)) c result }
{
    let x = x?;
    Ok(Typed::fitted(alloc, layout.width, layout.signed, x)?)
}

// The layout of a type.
fn layout_of(what: &What) -> Option<&Layout>
    requires { WhatIsSound what.now }
    ensures { LayoutUnder (Some (what_is what.now)) (option_copied result) }
{
    match what {
        What::Kind(layout) => Some(layout),
        What::Number(_) => None,
        What::Wire { .. } => None,
        What::Chosen { .. } => None,
        What::Sampled { .. } => None,
        What::Genvar => None,
    }
}

/// The layout of a type, where a name stands for one (6.18).
pub fn layout_under(what: Option<&What>) -> Option<&Layout>
    requires { IfSome what (λ what. WhatIsSound what.now) }
    ensures { LayoutUnder (option_map what_is (option_copied what.entry)) (option_copied result) }
{
    match what {
        Some(what) => layout_of(what),
        None => None,
    }
}

// Whether a constant is wholly 0 and 1.
fn is_wholly(known: &Known) -> bool
    ensures is { result ≡ is_known known.now.value }
    ensures some { 1 ≤ length known.now.value }
{
    let some = known.value.width() > 0;
    known.value.is_bool() && some
}

// The size that a constant gives, or E15.
#[tactic(auto, using(crate::proofs::Targets::castings))]
fn count_of(word: &Word, what: &What, constant: bool) -> Result<Fixed, TextErr>
    ensures { CountUnder word.now (Some (what_is what.now)) constant result }
{
    match what {
        What::Number(known) => {
            if is_wholly(known) {
                Ok(Fixed::new(*known, true))
            } else {
                Err(TextErr::No(refusal(refusals::CONST_UNKNOWN, word.place)))
            }
        }
        What::Kind(_) => Err(TextErr::No(refusal(refusals::CONST_UNKNOWN, word.place))),
        What::Wire { .. } => Err(TextErr::No(refusal(refusals::CONST_UNKNOWN, word.place))),
        What::Chosen { .. } => Err(TextErr::No(refusal(refusals::CONST_UNKNOWN, word.place))),
        What::Sampled { .. } => Err(TextErr::No(refusal(refusals::CONST_UNKNOWN, word.place))),
        What::Genvar => Err(TextErr::No(refusal(refusals::CONST_UNKNOWN, word.place))),
    }
}

// The size that a constant under a name gives, or E12 or E15.
fn count_under(word: &Word, what: Option<&What>, constant: bool) -> Result<Fixed, TextErr>
    ensures { CountUnder word.now (option_map what_is (option_copied what.entry)) constant result }
{
    match what {
        Some(what) => count_of(word, what, constant),
        None => Err(no_root(word.place, constant)),
    }
}

/// A cast to the size or the type that a name gives, or E12, E14 or E15.
pub(crate) fn name_cast_typed(
    alloc: Global,
    word: &Word,
    what: Option<&What>,
    constant: bool,
    x: Result<Typed, TextErr>,
) -> Result<Typed, TextErr>
    requires { IfSome what (λ what. WhatIsSound what.now) }
    ensures { (m : Meaning) → Judges m constant x → Judges (cast_to word.now (option_map what_is (option_copied what.entry)) m) constant result }
{
    match layout_under(what) {
        Some(layout) => layout_cast_typed(alloc, word.place, layout, x),
        None => cast_typed(alloc, word.place, count_under(word, what, constant), x),
    }
}
