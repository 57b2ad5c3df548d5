// A table over the wires of a design.
use fourvec::Four;
use items::Items;
use sv_outside::Name;

/// A variable of a table, as wide as the first signal that it drives or sets.
pub struct VarDecl {
    pub name: Name,
    /// In bits, 1 to 128.
    pub width: u8,
}

impl Drop for VarDecl {
    fn drop(self) {
        let VarDecl { name: _, width: _ } = self;
    }
}

/// What drives an input in one phase, or what a signal is set to.
#[derive(Clone, Copy)]
pub enum Drive {
    /// This vector, as wide as the signal.
    Fixed(Four),
    /// The variable of that number, from 0, or its complement.
    Chosen { number: usize, flipped: bool },
    /// Nothing: any vector.
    Free,
}

/// A signal at the end of a phase, under a name.
pub struct Sample {
    pub name: Name,
    /// The number of the wire, from 0.
    pub wire: usize,
    /// The number of the phase, from 0.
    pub phase: usize,
    /// In bits, 1 to 128.
    pub width: u8,
}

impl Drop for Sample {
    fn drop(self) {
        let Sample {
            name: _,
            wire: _,
            phase: _,
            width: _,
        } = self;
    }
}

/// A table over the wires of a design.
pub struct Bound {
    pub phases: usize,
    /// In the order in which they appear.
    pub vars: Items<VarDecl>,
    /// The number of the wire of each `in` row, and its drive in each phase. Any other input is free.
    pub drives: Items<(usize, Items<Drive>)>,
    /// The number of the wire of each `over` row, and what it is set to in each phase, if to anything.
    pub overs: Items<(usize, Items<Option<Drive>>)>,
    /// By row and then by phase.
    pub samples: Items<Sample>,
}

impl Drop for Bound {
    fn drop(self) {
        let Bound {
            phases: _,
            vars: _,
            drives: _,
            overs: _,
            samples: _,
        } = self;
    }
}
