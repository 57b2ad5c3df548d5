//! What steers the search of the engine (sat_cdcl): which variable is decided next, and what its value is to be (decision heuristics),
//! when the search begins anew (restarts), and when learned clauses go. No proof says anything of it but that it is safe and returns.
#![tactic(auto)]

pub mod order;
pub mod phases;
pub mod queue;
pub mod restarts;
pub mod scores;
