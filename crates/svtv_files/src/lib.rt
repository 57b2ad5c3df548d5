//! What the files of a command stand for, why one is refused or not read in its turn, and the call that reads one.
#![tactic(auto)]

mod law;
mod stop;

pub use law::refusals_lie_in_files;
pub use stop::{Stop, read, refused, refused_whole};
