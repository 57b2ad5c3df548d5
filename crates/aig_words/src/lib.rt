//! Circuits for arithmetic on words of literals, the least significant literal first.
//!
//! A word stands for a number under all values of the nodes that obey the graph, and so under all values of its inputs.
//! Results are modulo 2 to the power of the length. A circuit of constant operands alone makes no node.
#![tactic(auto)]

mod cells;
mod divides;
mod lists;
mod orders;
mod picks;
mod products;
mod shifts;
mod sums;

pub use cells::{or, parity, pick, xor};
pub use divides::{div, rem};
pub use orders::{eq, lt, slt};
pub use picks::mux;
pub use products::mul;
pub use shifts::{sar, shl, shr};
pub use sums::{add, sub};
