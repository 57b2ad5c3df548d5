//! Values of the nodes of a graph that are kept from one evaluation to the next (memoization): a node is evaluated once for all
//! that take it, and again only where something that it reads has changed.
#![tactic(auto)]

pub mod lists;
pub mod memo;
mod parents;

pub use memo::Memo;
