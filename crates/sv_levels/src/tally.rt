// How much a design has so far.
ghost use Rattle.std.specs.Prelude.{◌≡◌, ◌+◌, ◌≤◌, suc};
ghost use Rattle.sv_meaning.specs.Deeds.{turn_faults};
ghost use Rattle.sv_meaning.specs.Faults.{provided};
ghost use Rattle.sv_hierarchy.specs.Scopes.{size_faults};
ghost use Rattle.sv_loops.specs.Answers.{Answers};

use sv_loops::MOST_TURNS_TOGETHER;
use sv_outside::{Place, TextErr, refusals};
use sv_typing::refusal;

/// The bits of all wires with the instances below the top, at most.
const MOST_BITS: u64 = 1_048_576;

/// The bits of all wires with the instances below the top, and the turns of generate loops.
#[derive(Clone, Copy)]
pub struct Tally {
    pub bits: u64,
    pub turns: u64,
    ghost bits_fit: { bits ≤ 1048576 },
    ghost turns_fit: { turns ≤ 1000000 },
}

impl Tally {
    pub fn new() -> Tally
        ensures bits { result.bits ≡ 0 }
        ensures turns { result.turns ≡ 0 }
    {
        Tally { bits: 0, turns: 0 }
    }

    /// With so many bits more, or E22 at a place.
    pub fn with_bits(self, place: Place, more: u64) -> Result<Tally, TextErr>
        ensures { Answers (λ n t. (t.bits ≡ n) × (t.turns ≡ self.turns)) (provided (size_faults place (self.bits + more)) (self.bits + more)) result }
    {
        let bits = self.bits.saturating_add(more);
        if bits > MOST_BITS {
            return Err(TextErr::No(refusal(refusals::TOO_MANY_BITS, place)));
        }
        Ok(Tally {
            bits,
            turns: self.turns,
        })
    }

    /// With one turn more, or E20 at a place.
    pub fn with_turn(self, place: Place) -> Result<Tally, TextErr>
        ensures { Answers (λ n t. (t.turns ≡ n) × (t.bits ≡ self.bits)) (provided (turn_faults place self.turns) (suc self.turns)) result }
    {
        if self.turns >= MOST_TURNS_TOGETHER {
            return Err(TextErr::No(refusal(refusals::LOOP_LONG, place)));
        }
        Ok(Tally {
            bits: self.bits,
            turns: self.turns + 1,
        })
    }
}
