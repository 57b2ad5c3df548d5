//! The machine of one phase of a flat design: for each set of wires that are overridden a node for each wire, over the phase
//! before and what comes from outside (its next-state function).
#![tactic(auto)]

mod firsts;
mod laws;
mod machine;

pub use firsts::firsts_of;
pub use laws::groups_exclude;
pub use machine::{Fsm, make_fsm};
