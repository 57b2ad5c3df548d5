//! Expressions as gates (bit-blasting).
//!
//! Under all values of the inputs of the graph the pairs of literals of a node have exactly its value. The nodes that the roots
//! reach are taken once each, from the lowest number up.
#![tactic(auto)]

mod inputs;
mod known;
mod nodes;
mod operators;
mod planes;
mod walk;

pub use planes::{Rails, blast};
