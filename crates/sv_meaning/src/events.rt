// What sets a clocked block off.
use sv_tree::Edge;

/// An edge of a wire of one bit (IEEE 1800-2017, 9.4.2).
#[derive(Clone, Copy)]
pub struct WireEdge {
    pub edge: Edge,
    /// The number of the wire.
    pub wire: usize,
}
