// Refusals of one place.
ghost use Rattle.std.specs.Prelude.{◌≡◌};

use sv_outside::{Place, Refusal};

/// A refusal of this number at a place.
pub fn refusal(number: u8, place: Place) -> Refusal
    ensures { result ≡ record { number = number; place = place; count = 0 } }
{
    Refusal {
        number,
        place,
        count: 0,
    }
}
