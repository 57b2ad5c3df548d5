//! One equation for each net of a flat design: a segment of first bits, and a value that resolves all that is given to them.
#![tactic(auto)]

mod classes;
mod design;
mod laws;
mod pieces;
mod runs;

pub use design::resolve;
pub use laws::{designs_stay, equations_stay};
