// Goals over nodes of the graph.
use items::Items;
use sv_outside::Name;
use svex_arena::Node;

/// A goal: under each choice of the variables where the hypotheses are 1, the claims are to be 1. The nodes have one bit.
pub struct Goal {
    pub name: Name,
    /// Over variables.
    pub hyps: Items<Node>,
    /// Over variables and samples.
    pub claims: Items<Node>,
}

impl Drop for Goal {
    fn drop(self) {
        let Goal {
            name: _,
            hyps: _,
            claims: _,
        } = self;
    }
}
