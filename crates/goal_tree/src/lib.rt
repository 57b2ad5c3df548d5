//! Files of goals: hypotheses and claims over the variables and samples of a table.
//!
//! A file has one or more of `goal NAME { hyp EXPR ; .. claim EXPR ; .. }`, with no or more hypotheses and one or more claims,
//! cut into tokens as source text is. Names and expressions are those of the source language.
#![tactic(auto)]

mod parse;
mod reader;
mod source;
mod tree;

pub use parse::parse_goals;
pub use tree::GoalTree;
