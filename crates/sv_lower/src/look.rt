// What names read.
use sv_meaning::WireEdge;
use svex_arena::Node;
use wire_places::WirePlaces;

/// What a wire reads, by where its name stands. A variable and a sample of a table read themselves everywhere.
#[derive(Clone, Copy)]
pub enum Look<'a> {
    /// The present phase: in continuous and port assignments (IEEE 1800-2017, 10.3, 23.3.3).
    Present,
    /// The phase before.
    Previous,
    /// The phase before, but the wires of these events in the present phase: in clocked blocks, which are set off by them (9.2.2.4).
    Clocked(&'a [WireEdge]),
    /// The node under its number, or the present phase where there is none: in combinational and latch blocks, where wires that
    /// the block writes have nodes as wide as they are.
    Mixed(&'a [Option<Node>]),
    /// The same, where only some wires have places among the nodes: the place of each, by its number.
    Placed(&'a WirePlaces, &'a [Node]),
}
