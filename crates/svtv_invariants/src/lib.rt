//! Invariants of a design, decided for all choices, with what a failure shows: what was found of nodes is said of the design, and the samples
//! that are shown beside it come from a simulation. The halves of the induction are made of a flat design, two tables and goals, and what is
//! found of all goals in order is reported.
#![tactic(auto)]

mod deciding;
mod finding;
mod halves;
mod showing;

pub use deciding::{Decided, decide_invariant};
pub use finding::{Findings, decide_all, reported};
pub use halves::{Halves, halves_of};
pub use svtv_induct::Half;
