//! Rounds of equations: the members of a group take what their equations give over the nodes so far, until they are at rest
//! (fixpoint iteration).
//!
//! What an equation gives is found by a walk over the nodes of its value, in which a present variable stands for the bits of its wire,
//! put together from the nodes of segments. What rests on settled segments alone is kept for good, so that each node is walked once
//! for all equations that do not reach themselves.
#![tactic(auto)]

mod reaching;
mod rounds;
mod scene;
mod segments;
mod wires;

pub use rounds::settle;
pub use scene::Scene;
pub use segments::Segments;
pub use wires::{gather, unknown};
