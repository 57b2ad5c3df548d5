//! The search by clauses that are learned from conflicts (CDCL, Marques-Silva and Sakallah 1996), over what sat_arena holds and sat_order
//! steers. No proof says anything of it but that it is safe and returns, since what it answers is tried by who asks it.
#![tactic(auto)]

pub mod database;
pub mod engine;
pub mod notes;
mod reduce;
pub mod watches;
