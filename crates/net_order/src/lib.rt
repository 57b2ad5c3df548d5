//! Groups of equations in an order of dependence (strongly connected components in a topological order): those that depend on
//! each other are one group, and each group stands behind those on which it depends.
#![tactic(auto)]

mod groups;
mod ordering;
mod rows;
mod tellers;
mod used;

pub use ordering::order;
