//! And-inverter graphs: nodes that are false, inputs, or conjunctions of two literals, a literal being a node or its negation.
//!
//! A graph only grows. It is hashed (structural hashing; Kuehlmann and Krohm, 1997): no two conjunctions have the same operands,
//! in either order, and none is made whose value its operands alone decide. Exclusive ors are found again by their affine forms over
//! GF(2), in whatever order they are added up, as far as there is room for their forms.
#![tactic(auto)]

mod eval;
mod gate;
mod graph;
mod table;

pub use gate::{Gate, Lit};
pub use graph::{Aig, HalfSum, Halves};
