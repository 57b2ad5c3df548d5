//! Reads a whole text (a preprocessor): the main file, with its directives and the files that it includes, one behind the other.
#![tactic(auto)]

mod branch;
mod error;
mod item;
mod known;
mod law;
mod line;
mod macros;
mod reading;
mod role;
mod stepping;
mod whole;

pub use error::PreErr;
pub use known::{Frame, Known};
pub use law::one_text;
pub use macros::Macros;
pub use reading::{Entered, enter, read_all, start_of};
pub use role::Role;
pub use whole::preprocess;
