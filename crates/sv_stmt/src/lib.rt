//! What stands in a module as nodes and drivers, over the names of its place: expressions (`lower_expr`), and blocks, by what
//! they contribute to the bits that they write (IEEE 1800-2017, 9.2.2).
#![tactic(auto)]

mod block;
mod source;

pub use block::block_drivers;
pub use source::lower_expr;
