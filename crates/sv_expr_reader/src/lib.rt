//! Expressions are read by precedence climbing (a form of the parsing of Pratt, 1973), from a cursor on and to a depth.
#![tactic(auto)]

mod gathered;
mod grammar;
mod nesting;
mod operators;
mod seeking;
mod tails;

pub use gathered::{boxed, keep, with_first, with_more};
pub use operators::{expr, selects};
pub use tails::{BraceTail, NameTail};
