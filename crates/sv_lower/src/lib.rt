//! Typed expressions as nodes of the graph.
#![tactic(auto)]

mod constants;
mod expressions;
mod look;
mod names;
mod operators;
mod parts;
mod places;
mod sizes;
mod steps;

pub use constants::is_nameless;
pub use expressions::{lower, lower_assigned};
pub use look::Look;
pub use parts::{beside, place_at, sliced, unknown, windowed};
pub use places::part_at;
pub use steps::{binary, constant, make, unary};
