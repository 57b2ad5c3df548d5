//! The laws of steps.

ghost use Rattle.std.specs.Prelude.{ℕ, List};
ghost use Rattle.flat_net.specs.Flats.{IsFlat};
ghost use Rattle.event_sim.specs.Steps.{StepsStayBelow, StepsRaise, RestIsLeast, FewChange};

use flat_net::Flat;

/// From X at every bit on, after any list of steps, and whichever wires are overridden: the valuation is below every settling, a step
/// raises bits or changes nothing, at most as many steps changed it as there are bits, and where no step changes it, it is the least
/// settling.
pub fn steps_reach_the_least_settling(flat: &Flat)
    requires { IsFlat flat.now }
    ensures below { (over : List ℕ) → StepsStayBelow flat.now over }
    ensures raise { (over : List ℕ) → StepsRaise flat.now over }
    ensures few { (over : List ℕ) → FewChange flat.now over }
    ensures rest { (over : List ℕ) → RestIsLeast flat.now over }
{
    // For the proof: recalls what the type promises of it.
    let _ = flat.arena.len();
}
