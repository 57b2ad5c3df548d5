//! Tables of stimuli, overridings and samples, and the values of their variables: CSV texts, read and bound to the signals of a
//! design.
//!
//! A table is CSV without a header: each record is a kind, `in`, `over` or `out`, the path of a signal, and one cell for each
//! phase. Refusals are told by their numbers E26 to E32 and E35 to E38; their line is the number of the record, from 1, and their
//! column that of the field. Blank lines are no records.
#![tactic(auto)]

mod binding;
mod bound;
mod drives;
mod faults;
mod fields;
mod key;
mod names;
mod overs;
mod read;
mod samples;
mod values;
mod variables;

pub use binding::bind;
pub use bound::{Bound, Drive, Sample, VarDecl};
pub use overs::over_at;
pub use read::read_table;
pub use table_cells::{Cell, Row, RowKind, Table};
pub use values::read_values;
