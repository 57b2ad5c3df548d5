//! Numbers the variables of clauses and a log anew where few numbers of many are used, so that what a judge takes for them goes by how
//! much was read and not by how great its numbers are.
#![tactic(auto)]

mod names;
mod numbers;
mod renaming;

pub use numbers::compact;
