//! Goals over nodes as gates: for the hypotheses and claims of a goal a graph and two literals, which tell under which choices of the
//! table's variables the hypotheses are met, and under which of these some claim is not 1. The graph has no more nodes than the goal
//! has room for.
#![tactic(auto)]

mod gates;
mod posing;
mod truths;

pub use posing::{Posed, pose};
