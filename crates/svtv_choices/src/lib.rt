//! The choices of a table's variables (assignments): by number, for tables of few variable bits.
#![tactic(auto)]

mod choice;

pub use choice::{all_numbered, choice_of};
