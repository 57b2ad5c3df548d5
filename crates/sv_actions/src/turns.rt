// Turns of loops.
ghost use Rattle.std.specs.Prelude.{◌≡◌};
ghost use Rattle.sv_meaning.specs.Deeds.{turn_faults};
ghost use Rattle.sv_actions.specs.Listing.{JudgesFaults, made_behind, arms_behind};

use crate::arms::ActedArms;
use crate::statements::Acted;
use sv_loops::MOST_TURNS_TOGETHER;
use sv_outside::{Place, TextErr, refusals};
use sv_typing::refusal;

/// Whether the loop at a place may make a turn more, or E20.
pub(crate) fn one_more(place: Place, made: u64) -> Result<(), TextErr>
    ensures { JudgesFaults (turn_faults place made) result }
{
    if MOST_TURNS_TOGETHER <= made {
        Err(TextErr::No(refusal(refusals::LOOP_LONG, place)))
    } else {
        Ok(())
    }
}

/// How many turns were made behind what is typed. Where that is refused no loop makes a turn behind it.
pub(crate) fn made_behind(acted: &Result<Acted, TextErr>) -> u64
    ensures { result ≡ made_behind acted.now }
{
    match acted {
        Ok(acted) => acted.made,
        Err(_) => MOST_TURNS_TOGETHER,
    }
}

/// The same of arms.
pub(crate) fn arms_behind(arms: &Result<ActedArms, TextErr>) -> u64
    ensures { result ≡ arms_behind arms.now }
{
    match arms {
        Ok(arms) => arms.made,
        Err(_) => MOST_TURNS_TOGETHER,
    }
}
