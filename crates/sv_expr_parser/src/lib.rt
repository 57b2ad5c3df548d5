//! The longest expression from a token on.
#![tactic(auto)]

mod ends;
mod parse;

pub use parse::parse_expr;
