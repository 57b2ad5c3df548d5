// Flat designs, and valuations of their wires.
use driver_resolve::Driver;
use fourvec::Four;
use items::Items;
use lhs_alias::Lhs;
use sv_outside::Signal;
use svex_arena::Arena;

/// Bits of a child's port, and as many bits above it, which are one with them (IEEE 1800-2017, 23.3.3).
pub struct Join {
    pub child: Lhs,
    pub parent: Lhs,
}

impl Drop for Join {
    fn drop(self) {
        let Join {
            child: _,
            parent: _,
        } = self;
    }
}

/// A design with no hierarchy: its wires by number, the drivers of their bits, whose values are nodes of the arena, and the joins
/// in the order in which they are made.
pub struct Flat {
    pub arena: Arena,
    pub wires: Items<Signal>,
    pub drivers: Items<Driver>,
    pub joins: Items<Join>,
}

impl Drop for Flat {
    fn drop(self) {
        let Flat {
            arena: _,
            wires: _,
            drivers: _,
            joins: _,
        } = self;
    }
}

/// A value for each wire, by number, at its width.
pub struct Valuation {
    pub values: Items<Four>,
}

impl Drop for Valuation {
    fn drop(self) {
        let Valuation { values: _ } = self;
    }
}
