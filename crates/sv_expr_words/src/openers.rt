// What a token says of the part that it begins.
use sv_tree::{BinaryOp, Sign, SystemName, UnaryOp};

/// What begins an expression that has no operator between two of its parts.
#[derive(Clone, Copy)]
pub enum Opener {
    Literal,
    Name,
    Paren,
    Brace,
    Sign(Sign),
    System(SystemName),
    Unary(UnaryOp),
}

/// What begins a select.
#[derive(Clone, Copy)]
pub enum SelectOpener {
    Dot,
    Bracket,
}

/// What stands behind the first part of an expression with an operator between its parts.
#[derive(Clone, Copy)]
pub enum Joiner {
    Binary(BinaryOp),
    /// `?`
    Choose,
}
