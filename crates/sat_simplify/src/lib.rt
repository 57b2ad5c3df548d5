//! Simplification of the clauses of the engine (sat_cdcl), while nothing is decided: what is fixed is left out, clauses go that others
//! subsume, and variables are eliminated, each clause that comes of it being a step of the log; and which gates the clauses describe. No
//! proof says anything of it but that it is safe and returns.
#![tactic(auto)]

pub mod clean;
pub mod eliminate;
mod occurrences;
pub mod ranks;
mod subsume;
pub mod table;
