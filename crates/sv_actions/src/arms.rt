// Arms of case statements.
ghost use Rattle.std.specs.Prelude.{◌≡◌, ℕ, [], ◌∷◌, ◌++◌, List, IfOk};
ghost use Rattle.sv_meaning.specs.Layouts.{NamedSignal};
ghost use Rattle.sv_meaning.specs.Meanings.{Meaning};
ghost use Rattle.sv_meaning.specs.Deeds.{CaseArm, Deed};
ghost use Rattle.sv_actions.specs.Typing.{JudgesDeed};
ghost use Rattle.sv_actions.specs.Listing.{AreArms, JudgesArms, JudgesLabels, ActedAims, ArmsAim};

use crate::action::Arm;
use crate::labels::{Labels, both};
use crate::statements::Acted;
use items::Items;
use std::alloc::Global;
use sv_outside::TextErr;

/// The arms of a case statement, with the largest of the sizes of their labels, whether all labels are signed, and how many turns
/// of loops were made behind the arms.
#[derive(Drop)]
pub struct ActedArms {
    pub arms: Items<Arm>,
    pub width: u8,
    pub signed: bool,
    pub made: u64,
}

/// No arms.
pub(crate) fn no_arms(alloc: Global, made: u64) -> ActedArms
    ensures is { AreArms [] made result }
    ensures aim { (named : List NamedSignal) → ArmsAim named result }
{
    ActedArms {
        arms: Items::new(alloc),
        width: 0,
        signed: true,
        made,
    }
}

/// Arms with one more behind them.
pub(crate) fn with_arm(
    all: ActedArms,
    labels: Result<Labels, TextErr>,
    body: Result<Acted, TextErr>,
) -> Result<ActedArms, TextErr>
    ensures is { (arms : List CaseArm) (ms : List Meaning) (d : Deed) (made : ℕ) → AreArms arms made all → JudgesLabels ms labels → JudgesDeed d all.made body →
        JudgesArms (arms ++ record { labels = ms; body = d } ∷ []) made result }
    ensures aim { (named : List NamedSignal) → ArmsAim named all → IfOk body (ActedAims named) → IfOk result (ArmsAim named) }
{
    let labels = labels?;
    let body = body?;
    let mut arms = all.arms;
    arms.push(Arm {
        labels: labels.all,
        body: body.actions,
    })?;
    Ok(ActedArms {
        arms,
        width: all.width.max(labels.width),
        signed: both(all.signed, labels.signed),
        made: body.made,
    })
}
