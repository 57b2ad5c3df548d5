//! The texts of a self test, and the line that it prints: a design in which a vector turns through a row of registers, a table of as
//! many cycles, and three goals, of which the last fails.
#![tactic(auto)]

mod files;
mod line;
mod parts;
mod texts;

pub use files::TestFiles;
pub use line::line_text;
pub use texts::{design_text, goals_text, table_text};
