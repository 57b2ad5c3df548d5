//! Settles the wires of a flat design by events: one net after another takes the resolution of what is given to it, from X at
//! every bit, until nothing changes. That is the least settling, in whatever order the nets are taken. It is event-driven
//! simulation by a worklist.
#![tactic(auto)]

mod laws;
mod links;
mod pass;
mod queue;
mod sim;

pub use laws::steps_reach_the_least_settling;
pub use sim::Sim;
