// What statements do, put together of what their parts do: one rule for each kind of statement (IEEE 1800-2017, 10.4, 12.4 and
// 12.5). A rule takes the answers for the parts, also where they are refusals, and hands on a refusal. So the rules hold no
// statements and stand outside of the cycle that takes statements apart.
ghost use Rattle.std.specs.Prelude.{◌≡◌, ℕ, false, [], ◌∷◌, List, ◌≤◌, All, IfOk, IfErr};
ghost use Rattle.sv_outside.specs.declared.refusal.TextErr.TheVariants.{Memory};
ghost use Rattle.sv_meaning.specs.Faults.{Faults};
ghost use Rattle.sv_meaning.specs.Layouts.{NamedSignal};
ghost use Rattle.sv_meaning.specs.Meanings.{Meaning, free_faults};
ghost use Rattle.sv_meaning.specs.Targets.{Target};
ghost use Rattle.sv_meaning.specs.Deeds.{CaseArm, Deed, idle, after, assign, if_else, case_of};
ghost use Rattle.sv_typing.specs.Judging.{Judges};
ghost use Rattle.sv_targets.specs.Targets.{JudgesTargets, AreNarrow, width_of_all};
ghost use Rattle.sv_actions.specs.Typing.{IsActed, JudgesDeed};
ghost use Rattle.sv_actions.specs.Doing.{IsAimed};
ghost use Rattle.sv_actions.specs.Listing.{JudgesArms, made_behind, arms_behind, ActedAims, ArmsAim};

use crate::action::{Action, Case};
use crate::arms::ActedArms;
use crate::labels::both;
use crate::statements::Acted;
use items::Items;
use std::alloc::Global;
use sv_outside::TextErr;
use sv_targets::TypedTarget;
use sv_typed::Typed;

/// Nothing is done.
pub(crate) fn nothing(alloc: Global, made: u64) -> Acted
    ensures is { IsActed idle made result }
    ensures aims { (named : List NamedSignal) → ActedAims named result }
{
    Acted {
        actions: Items::new(alloc),
        made,
    }
}

// One action.
fn only(alloc: Global, action: Action, made: u64) -> Result<Acted, TextErr>
    ensures is { IfOk result (λ x. x.actions ≡ action ∷ []) }
    ensures made { IfOk result (λ x. x.made ≡ made) }
    ensures err { IfErr result (λ e. e ≡ Memory) }
{
    let mut actions = Items::new(alloc);
    actions.push(action)?;
    Ok(Acted { actions, made })
}

/// One after the other.
pub(crate) fn followed(first: Acted, next: Result<Acted, TextErr>) -> Result<Acted, TextErr>
    ensures is { (a b : Deed) (made : ℕ) → IsActed a made first → JudgesDeed b first.made next → JudgesDeed (after a b) made result }
    ensures aims { (named : List NamedSignal) → ActedAims named first → IfOk next (ActedAims named) → IfOk result (ActedAims named) }
{
    let next = next?;
    let mut actions = first.actions;
    actions.append(next.actions)?;
    Ok(Acted {
        actions,
        made: next.made,
    })
}

/// An assignment (10.4).
pub(crate) fn assigned(
    alloc: Global,
    targets: Result<Items<TypedTarget>, TextErr>,
    value: Result<Typed, TextErr>,
    made: u64,
) -> Result<Acted, TextErr>
    ensures is { (to : List Target) (why : Faults) (m : Meaning) → JudgesTargets free_faults why to targets → AreNarrow targets → IfOk targets (λ all. 1 ≤ width_of_all all) → Judges m false value →
        JudgesDeed (assign to why m) made result }
    ensures aims { (named : List NamedSignal) → IfOk targets (λ all. All (IsAimed named) all) → IfOk result (ActedAims named) }
{
    let targets = targets?;
    let value = value?;
    only(alloc, Action::Assign(targets, value), made)
}

/// One of two by a condition (12.4).
pub(crate) fn chosen(
    alloc: Global,
    condition: Result<Typed, TextErr>,
    first: Result<Acted, TextErr>,
    other: Result<Acted, TextErr>,
) -> Result<Acted, TextErr>
    ensures is { (c : Meaning) (a b : Deed) (made : ℕ) → Judges c false condition → JudgesDeed a made first → JudgesDeed b (made_behind first) other → JudgesDeed (if_else c a b) made result }
    ensures aims { (named : List NamedSignal) → IfOk first (ActedAims named) → IfOk other (ActedAims named) → IfOk result (ActedAims named) }
{
    let condition = condition?;
    let first = first?;
    let other = other?;
    only(
        alloc,
        Action::Choose(condition, first.actions, other.actions),
        other.made,
    )
}

/// The arm with a label that equals a value, or the rest (12.5).
pub(crate) fn matched(
    alloc: Global,
    masked: bool,
    value: Result<Typed, TextErr>,
    arms: Result<ActedArms, TextErr>,
    other: Result<Acted, TextErr>,
) -> Result<Acted, TextErr>
    ensures is { (m : Meaning) (all : List CaseArm) (d : Deed) (made : ℕ) → Judges m false value → JudgesArms all made arms → JudgesDeed d (arms_behind arms) other →
        JudgesDeed (case_of masked m (all, d)) made result }
    ensures aims { (named : List NamedSignal) → IfOk arms (ArmsAim named) → IfOk other (ActedAims named) → IfOk result (ActedAims named) }
{
    let value = value?;
    let arms = arms?;
    let other = other?;
    let width = value.width.max(arms.width);
    let signed = both(value.signed, arms.signed);
    let case = Case {
        masked,
        width,
        signed,
        value,
    };
    only(
        alloc,
        Action::Match(case, arms.arms, other.actions),
        other.made,
    )
}
