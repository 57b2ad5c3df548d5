//! The goals of a text, as nodes of the graph over the variables and samples of a table.
#![tactic(auto)]

mod goal;
mod lowering;
mod read;
mod scopes;

pub use goal::Goal;
pub use read::read_goals;
