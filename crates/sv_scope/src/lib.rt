//! The scopes of a design: its instances and generate blocks with their names, its wires, and what contributes to them
//! (IEEE 1800-2017, 6.20, 23 and 27). The file level is read first, then the top is found, and all that is below it is opened.
#![tactic(auto)]

mod file;
mod whole;

pub use sv_levels::{Actual, Front, Instance, Task, Work};
pub use whole::{DesignScopes, scopes};
