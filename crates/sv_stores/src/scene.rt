// The wires that a block writes, the nodes that they have, and how the block holds them.
ghost use Rattle.std.specs.Prelude.{◌≡◌};
ghost use Rattle.sv_stores.specs.Scenes as spec;

use items::Items;
use sv_meaning::WireEdge;
use svex_arena::Node;
use wire_places::WirePlaces;

/// What the wires of a block have where it begins, and what its names read (IEEE 1800-2017, 9.2.2).
pub enum Manner {
    /// Combinational: X where the block begins; a bit that it writes reads the store, any other the present phase.
    Comb,
    /// A latch block with `=`: the phase before where it begins; a bit that it writes reads the store, any other the present phase.
    Latch,
    /// A latch block with `<=`: the phase before where it begins; a bit that it writes reads that, any other the present phase.
    HeldLatch,
    /// Set off by these edges: the phase before where it begins; names read that, but the wires of the edges the present phase.
    Clocked(Items<WireEdge>),
}

impl Drop for Manner {
    fn drop(self) {
        match self {
            Manner::Comb => {}
            Manner::Latch => {}
            Manner::HeldLatch => {}
            Manner::Clocked(_) => {}
        }
    }
}

/// Whether a wire that the block writes is X where the block begins.
pub fn is_comb(manner: &Manner) -> bool
    ensures { result ≡ spec.is_comb manner.now }
{
    match manner {
        Manner::Comb => true,
        Manner::Latch => false,
        Manner::HeldLatch => false,
        Manner::Clocked(_) => false,
    }
}

/// Whether a bit that the block writes reads the store.
pub fn sees_store(manner: &Manner) -> bool
    ensures { result ≡ spec.sees_store manner.now }
{
    matches!(manner, Manner::Comb | Manner::Latch)
}

/// The wires that a block writes, and what its names read.
pub struct Scene {
    /// The place of each wire that the block writes, by the wire's number.
    pub places: WirePlaces,
    /// The number of the wire at each place.
    pub wires: Items<usize>,
    /// How many bits the wire at each place has, 1 to 128.
    pub widths: Items<u8>,
    /// Which bits the block writes: 128 marks for each place.
    pub marks: Items<bool>,
    pub manner: Manner,
}

impl Drop for Scene {
    fn drop(self) {
        let Scene {
            places: _,
            wires: _,
            widths: _,
            marks: _,
            manner: _,
        } = self;
    }
}

/// The store of a block: a node for each place, as wide as its wire. And what names read: where the block is not clocked, a node for
/// each place, which has the bits of the store (in a latch block with `<=`, of the phase before) where the block writes a bit, and else
/// those of the present phase.
#[derive(Drop)]
pub struct State {
    pub nodes: Items<Node>,
    pub seen: Items<Node>,
}
