//! What is kept of a flat design.

ghost use Rattle.std.specs.Prelude.{◌≡◌, ◌<◌, [], length, slice_index_or};
ghost use Rattle.event_nets.specs.Needs.{gift_rows};

use crate::gift::Gift;

/// What a flat design says of its bits, which stand in one row, wire by wire.
pub struct Tables {
    /// The place of each wire's lowest bit.
    pub starts: Vec<usize>,
    /// For each bit the place of the first bit of its class.
    pub homes: Vec<usize>,
    /// For each first bit that is driven or overridden the place of the lowest bit of its net.
    pub lows: Vec<Option<usize>>,
    /// The place of each net's lowest bit.
    pub nets: Vec<usize>,
    /// What is given to classes: by the drivers in order, and then by the inputs of the top; but to classes of overridden wires
    /// by these alone, behind all others.
    pub gifts: Vec<Gift>,
    /// What is given to each net, by the place of its lowest bit.
    pub given: Vec<Vec<Gift>>,
}

impl Drop for Tables {
    fn drop(self) {
        let Tables {
            starts: _,
            homes: _,
            lows: _,
            nets: _,
            gifts: _,
            given: _,
        } = self;
    }
}

impl Tables {
    /// What is given to the net whose lowest bit has this place.
    pub fn given_to(&self, low: usize) -> &[Gift]
        requires { low < length self.now.given.items }
        ensures { result.now ≡ slice_index_or (gift_rows self.now.given.items) low [] }
    {
        self.given[low].as_slice()
    }
}
