//! Stores of blocks as nodes: what names read in a block, where a block begins, and what sets it off (IEEE 1800-2017, 9.2.2, 9.4.2).
#![tactic(auto)]

mod look;
mod places;
mod scene;
mod start;

pub use look::{lowered, truth};
pub use places::{place_in, place_of};
pub use scene::{Manner, Scene, State, is_comb, sees_store};
pub use start::{start_nodes, trigger};
