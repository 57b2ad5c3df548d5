//! Statements are read, and what stands in them: targets, labels and the steps of loops.
//!
//! A statement may hold statements to a depth, and a target in braces targets, so the rules that hold them take the reader of
//! those as a parameter.
#![tactic(auto)]

mod heads;
mod labels;
mod lvalues;
mod statements;
mod tails;
mod within;

pub use heads::{Turns, with_variable};
pub use labels::{block_label, end_label, label_behind, step};
pub use lvalues::lvalue;
pub use statements::{is_given, stmt};
pub use tails::{BranchTail, StepTail};
pub use within::{BlockParts, Bodied, Nested, block, branches, counted, parts};
