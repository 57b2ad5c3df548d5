//! The search for a solution: propagation over watched literals, decisions, and new clauses that are learned from conflicts. It
//! is conflict-driven clause learning (CDCL, of GRASP; Marques-Silva and Sakallah, 1996).
#![tactic(auto)]

pub mod back;
pub mod learn;
mod redundant;
pub mod search;
pub mod start;
mod walk;
