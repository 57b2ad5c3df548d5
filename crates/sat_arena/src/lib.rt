//! What the engine that searches for solutions and refutations (sat_engine) holds: clauses in one vector of words, values with the
//! trail of true literals, and a log in bytes. No proof says anything of it but that it is safe and
//! returns, since what the engine answers is tried by who asks it.
#![tactic(auto)]

pub mod arena;
pub mod constants;
pub mod log;
pub mod trail;
pub mod words;
