//! The cells of tables: what they say, the fields that spell them, and their constants in the width of a signal.
#![tactic(auto)]

mod cells;
mod fitting;
mod table;

pub use cells::{cell_of, known_literal};
pub use fitting::{constant, fits};
pub use table::{Cell, Row, RowKind, Table};
