//! Affine forms over GF(2): exclusive ors of nodes, and a table of the nodes that are known to be such forms. Forms that are added
//! up cancel what they share, so that two sums of the same nodes are one form, in whatever order they were made.
#![tactic(auto)]

mod form;
mod table;

pub use form::{Form, sum};
pub use table::{Known, Table};
