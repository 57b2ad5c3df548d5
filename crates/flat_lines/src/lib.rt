//! Reads the lines of a flat design's text: shapes of nodes, segments of wires, and what stands behind the word that says the kind of
//! a line.
#![tactic(auto)]

mod lines;
mod shapes;

pub use lines::{drive, join, node, wire};
