// The wires of a design by number. They are only added, and each has a width, so whoever reads them later need not ask.
ghost use Rattle.std.specs.Prelude.{◌≡◌, ◌∷◌, [], ◌++◌, length, All, OnOk};
ghost use Rattle.sv_levels.specs.Wires.{HasBits};

use items::Items;
use std::alloc::{AllocError, Global};
use std::marker::Model;
use sv_outside::Signal;

/// The wires of a design by number, each of 1 to 128 bits.
pub struct Wires {
    list: Items<Signal>,
}

impl Drop for Wires {
    fn drop(self) {
        let Wires { list: _ } = self;
    }
}

impl Model for Wires {
    ghost use Rattle.std.specs.Prelude.{List, All};
    ghost use Rattle.sv_outside.specs.declared.text.Signal.{Signal};
    ghost use Rattle.sv_levels.specs.Wires.{HasBits};

    ghost Value = { List Signal };

    ghost view = { λ a. a.list };

    ghost invariant = { λ a. All HasBits a.list };
}

impl Wires {
    /// Takes no memory.
    pub fn new(alloc: Global) -> Wires
        ensures { result ≡ [] }
    {
        Wires {
            list: Items::new(alloc),
        }
    }

    pub fn len(&self) -> usize
        ensures { result ≡ length self.now }
    {
        self.list.len()
    }

    /// One wire more.
    pub fn push(&mut self, wire: Signal) -> Result<(), AllocError>
        requires { HasBits wire }
        ensures { OnOk result (self.new ≡ self.old ++ wire ∷ []) }
    {
        self.list.push(wire)
    }

    pub fn as_slice(&self) -> &[Signal]
        ensures wires { result.now ≡ self.now }
        ensures widths { All HasBits self.now }
    {
        self.list.as_slice()
    }
}
