//! Reads flat designs from their text, and says which line breaks the form where there is none.
#![tactic(auto)]

mod cut;
mod error;
mod laws;
mod read;
mod reader;
mod tests;

pub use error::FlatErr;
pub use laws::{legal_texts_break_nowhere, one_line_breaks, texts_stand_for_one_design};
pub use read::read_flat;
