//! The nets of a flat design and what is given to them, laid out once by the places of bits in one row, so that settling it takes no
//! memory; and values of wires.
#![tactic(auto)]

pub mod gift;
pub mod lay;
pub mod make;
mod needs;
pub mod nets;
mod overriding;
pub mod tables;
pub mod values;
