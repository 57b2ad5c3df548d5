//! Equations, and the nodes that rounds have reached for them.

ghost use Rattle.std.specs.Prelude.{◌≡◌};

use crate::segments::Segments;
use svex_arena::Node;

/// Equations by their segments and values, the nodes that rounds have reached for them, and which of these are final.
pub struct Scene {
    pub segments: Segments,
    pub values: Vec<Node>,
    pub nodes: Vec<Node>,
    pub settled: Vec<bool>,
}

impl Drop for Scene {
    fn drop(self) {
        let Scene {
            segments: _,
            values: _,
            nodes: _,
            settled: _,
        } = self;
    }
}

impl Scene {
    /// The nodes, by equations.
    pub fn into_nodes(self) -> Vec<Node>
        ensures { result ≡ self.nodes }
    {
        let Scene {
            segments: _segments,
            values: _values,
            nodes,
            settled: _settled,
        } = self;
        nodes
    }
}
