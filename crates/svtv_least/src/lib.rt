//! The least run of a flat design under the stimuli of a table, phase by phase (a least fixpoint each), and its samples.
#![tactic(auto)]

mod runner;
mod samples;
mod settlers;
mod stimulus;

pub use runner::Runner;
