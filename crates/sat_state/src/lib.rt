//! What the solver holds: the clauses in one vector, two watched literals of each, the values (the assignment) with the trail of
//! false literals, and the order of decisions. A literal is a `Dim` of `cnf` everywhere in contracts; the clauses and the watches
//! hold it packed (`PackedDim`).
#![tactic(auto)]

pub mod lists;
mod order;
pub mod packed;
mod queue;
pub mod store;
pub mod trail;
pub mod watch;
