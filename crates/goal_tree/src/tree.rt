// The trees of a file of goals.
use items::Items;
use sv_tree::{Expr, Word};

/// A goal: where its hypotheses hold, its claims do.
pub struct GoalTree {
    pub name: Word,
    pub hyps: Items<Expr>,
    pub claims: Items<Expr>,
}

impl Drop for GoalTree {
    fn drop(self) {
        let GoalTree {
            name: _,
            hyps: _,
            claims: _,
        } = self;
    }
}
