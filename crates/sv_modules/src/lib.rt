//! The modules of a text, the top among them, and what an instance gives to a module (IEEE 1800-2017, 3.13, 23.2 and 23.3).
//!
//! Each answer is tied to the meaning of the text by `Answers` of sv_loops: a value where the text gives one, or else one of
//! the refusals that stand against it.
#![tactic(auto)]

mod connect;
mod library;
mod name_set;
mod numbered;
mod parameters;
mod roots;
mod used;

pub use connect::{Connection, Joined, connections};
pub use name_set::NameSet;
pub use numbered::Modules;
pub use parameters::open_params;
pub use roots::top_of;
