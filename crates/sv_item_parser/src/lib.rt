//! Items of modules are read: nets and variables, assignments, blocks, and generate constructs.
//!
//! Generate constructs may hold items to a depth, so the rules that hold items take the reader of those as a parameter.
#![tactic(auto)]

mod constructs;
mod heads;
mod module_items;
mod tails;

pub use constructs::item;
pub use module_items::sees_item;
pub use tails::AlwaysTail;
