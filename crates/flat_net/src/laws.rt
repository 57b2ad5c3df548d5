// The laws of settlings.
ghost use Rattle.std.specs.Prelude.{ℕ, List};
ghost use Rattle.settling.specs.Settling.{Store};
ghost use Rattle.settling.specs.Least.{Under};
ghost use Rattle.flat_net.specs.Flats.{IsFlat, IsLeastSettling};

use crate::Flat;

/// Over each previous valuation, and whatever its wires are set to from outside, a flat design has a settling below every settling,
/// whichever of its wires are overridden, and it rises with both.
pub fn least_settling(flat: &Flat)
    requires { IsFlat flat.now }
    ensures exists { (over : List ℕ) (stim prev : Store) → (now : Store) × IsLeastSettling flat.now over stim prev now }
    ensures rises { (over : List ℕ) (stim prev more before now later : Store) → Under stim more → Under prev before
        → IsLeastSettling flat.now over stim prev now → IsLeastSettling flat.now over more before later → Under now later }
{
    // For the proof: recalls what the type promises of it.
    let _ = flat.arena.len();
}
