//! Prints a flat design as text: its wires and joins, the nodes that its drivers reach, and its drivers.
#![tactic(auto)]

mod copies;
mod print;
mod visits;

pub use copies::copy_flat;
pub use print::print_flat;
