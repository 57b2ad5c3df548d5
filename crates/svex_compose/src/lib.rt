//! Composes equations: for each a node over stimuli and previous values alone, which has in every environment the value of the
//! least solution (the least fixpoint); and from these a node for each wire.
#![tactic(auto)]

mod grouping;
mod start;
mod weigh;
mod wires;

pub use grouping::compose;
pub use wires::wire_nodes;
