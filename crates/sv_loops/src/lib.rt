//! Loops over a signed constant of 32 bits, of statements and of generate blocks (IEEE 1800-2017, 12.7.1 and 27.4).
//!
//! Each answer is tied to the meaning of the text by `Answers`: a value where the text gives one, or else one of the
//! refusals that stand against it.
#![tactic(auto)]

mod constants;
mod runs;
mod steps;

pub use constants::{condition, index_value};
pub use runs::{MOST_TURNS_TOGETHER, enter, leave, turns};
pub use steps::next_value;
