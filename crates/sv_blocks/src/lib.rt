//! What the actions of a block leave in the wires that it writes, as nodes of the graph, and the drivers of its bits (IEEE 1800-2017, 9.2.2).
#![tactic(auto)]

mod assigns;
mod bits;
mod choices;
mod drivers;
mod ends;
mod labels;
mod overlay;
mod parts;
mod run;
mod shown;
mod states;
mod wires;
mod writes;

pub use bits::{Marked, all_bits, mark_all};
pub use ends::scene_drivers;
pub use wires::{Wire, scene_of, stmt_wires};
