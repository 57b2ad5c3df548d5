// What stands behind the first part of a tree.
use items::{Boxed, Items};
use sv_tree::{Arm, CaseWord, Expr, StepMark, StepSign, Stmt};

/// What stands behind the variable in a step.
#[derive(Drop)]
pub enum StepTail {
    /// `++` or `--`
    By(StepMark),
    /// The mark of an assignment, and what is assigned.
    Set(StepSign, Expr),
}

/// What stands behind `unique` and its like.
#[derive(Drop)]
pub enum BranchTail {
    /// The condition of an `if`, the statement, and the one behind `else`.
    If(Expr, Boxed<Stmt>, Option<Boxed<Stmt>>),
    /// The word, what is compared, and the arms.
    Case(CaseWord, Expr, Items<Arm>),
}
