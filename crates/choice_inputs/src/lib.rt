//! Choices of a table's variables as inputs of gates: the bits of a choice, the choice of a solution of clauses, and the search for a
//! choice that makes a literal true, for tables of few variable bits. Where there is none, a table of clauses says so: one for each
//! choice, with steps that refute them.
#![tactic(auto)]

mod choices;
mod inputs;
mod tables;
mod trials;

pub use choices::{choice_of_values, inputs_of};
pub use tables::{refutation, ruled_out};
pub use trials::first_told;
