//! Finds a solution of clauses, or a log that refutes them (a solver of Boolean satisfiability, SAT).
#![tactic(auto)]

mod answers;
mod solver;
mod whole;

pub use answers::{Proposal, propose};
pub use solver::{SatEnd, solve};
pub use whole::{Stop, search_whole};
