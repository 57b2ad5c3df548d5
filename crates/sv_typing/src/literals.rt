// Why a literal is refused.
ghost use Rattle.std.specs.Prelude.{◌≡◌};
ghost use Rattle.sv_typing.specs.Literals.{refused};

use crate::refusals::refusal;
use sv_literal::LitErr;
use sv_outside::{Place, Refusal, refusals};

/// The refusal for each cause.
pub(crate) fn refused(why: LitErr, place: Place) -> Refusal
    ensures { result ≡ refused why place }
{
    match why {
        LitErr::Shape => refusal(refusals::BAD_TOKEN, place),
        LitErr::Wide => refusal(refusals::WIDTH, place),
        LitErr::Range => refusal(refusals::LITERAL_RANGE, place),
    }
}
