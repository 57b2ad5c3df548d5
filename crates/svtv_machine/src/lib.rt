//! From a flat design and a table to the machine of one phase, for each set of wires that some phase overrides, and to nodes for the table's
//! samples, unrolled over it.
#![tactic(auto)]

mod laws;
mod machine;
mod sets;

pub use laws::{designs_grow, narrow_tables_are_not_wide};
pub use machine::{machine_of, sample_nodes};
pub use phase_fsm::firsts_of;
