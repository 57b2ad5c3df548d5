//! Equations of segments of wires: which valuations solve them, on which others each depends, and the groups that this gives.
#![tactic(auto)]

mod group;

pub use group::{ComposeErr, Composed, Group};
