//! Prints wires and their values in phases as a value change dump.
#![tactic(auto)]

mod phases;
mod print;

pub use phases::{Dump, print_vcd};
