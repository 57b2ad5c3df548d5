//! The walk through the items of a design: declarations, generate blocks and loops, and instances, each opened behind the items
//! that instantiate it (IEEE 1800-2017, 6.20, 23 and 27).
//!
//! Each function of the walk is tied to a walk of the definition by `Walks`: the state that it leaves is the one that the
//! definition gives, or it is refused by one of the faults that stand there.
#![tactic(auto)]

mod blocks;
mod children;
mod declare;
mod header;
mod held;
mod instances;
mod loops;
mod params;
mod walk;
mod walker;

pub use walker::{Open, Walker};
