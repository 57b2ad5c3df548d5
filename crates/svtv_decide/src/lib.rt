//! Goals decided for all choices of a table's variables, with the samples of those that fail (counterexamples).
#![tactic(auto)]

mod goals;
mod least;

pub use goals::{Certified, Decided, Problem, certify, decide};
pub use svtv_least::Runner;
pub use svtv_machine::sample_nodes;
