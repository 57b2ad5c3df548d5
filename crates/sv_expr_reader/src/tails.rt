// What stands behind the first part of a primary.
use items::{Boxed, Items};
use sv_tree::{Expr, Select};

/// What stands behind a name.
#[derive(Drop)]
pub enum NameTail {
    /// What is cast.
    CastTo(Boxed<Expr>),
    Selected(Items<Select>),
}

/// What stands behind the first part in braces.
#[derive(Drop)]
pub enum BraceTail {
    /// The first part tells how often these are repeated.
    Copied(Items<Expr>),
    /// These follow the first part.
    Followed(Items<Expr>),
}
