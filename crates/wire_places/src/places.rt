// Places by wire. Contracts see a list by the number of the wire, up to the highest one with a place; an ordered map holds only the
// wires that have one, so a few wires of high numbers take no more room or time than a few of low ones.
ghost use Rattle.std.specs.Prelude.{◌≡◌, ◌≢◌, ℕ, [], Some, None, slice_index_or, OnOk};

use std::alloc::{AllocError, Global};
use std::collections::BTreeMap;
use std::marker::Model;

/// The place of each wire that has one, by the wire's number.
pub struct WirePlaces {
    places: BTreeMap<usize, usize>,
}

impl Drop for WirePlaces {
    fn drop(self) {
        let WirePlaces { places: _ } = self;
    }
}

impl Model for WirePlaces {
    ghost use Rattle.std.specs.Prelude.{ℕ, List, Option};
    ghost use Rattle.wire_places.specs.Laying.{laid};

    ghost Value = { List (Option ℕ) };

    ghost view = { λ p. laid p.places.entries };
}

impl WirePlaces {
    /// No wire has a place. Takes no memory.
    pub fn new(alloc: Global) -> WirePlaces
        ensures { result ≡ [] }
    {
        WirePlaces {
            places: BTreeMap::new(alloc),
        }
    }

    /// The place of a wire, if it has one.
    pub fn get(&self, wire: usize) -> Option<usize>
        ensures { result ≡ slice_index_or self.now wire None }
    {
        self.places.get(&wire).copied()
    }

    /// Gives a wire a place, whatever it had before.
    #[tactic(auto, using(crate::proofs::Laying::placed_here))]
    pub fn put(&mut self, wire: usize, place: usize) -> Result<(), AllocError>
        ensures here { OnOk result (slice_index_or self.new wire None ≡ Some place) }
        ensures others { OnOk result ((n : ℕ) → n ≢ wire → slice_index_or self.new n None ≡ slice_index_or self.old n None) }
    {
        let _ = self.places.insert(wire, place)?;
        Ok(())
    }
}
