//! Flat designs: wires, the bits that ports join, and drivers over one graph; and which valuations settle them.
#![tactic(auto)]

mod flat;
mod laws;

pub use flat::{Flat, Join, Valuation};
pub use laws::least_settling;
