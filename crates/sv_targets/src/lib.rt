//! Targets of assignments, and actuals of ports as targets: the bits that they name.
#![tactic(auto)]

mod actuals;
mod fixed;
mod parts;
mod places;
mod slots;
mod targets;

pub use actuals::typed_actual;
pub use parts::{Part, Target, target_of, target_of_actual};
pub use slots::all_slots;
pub use targets::{TypedTarget, typed_targets};
