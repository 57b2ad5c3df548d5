//! The texts of a proof and of a simulation: goals decided in order with their report, and the samples of a least run or its value
//! change dump.
#![tactic(auto)]

mod dumps;
mod judging;
mod samples;

pub use dumps::dumped;
pub use judging::{Decisions, decide_all, reported};
pub use samples::sampled;
pub use svtv_decide::{Certified, Problem, certify, sample_nodes};
