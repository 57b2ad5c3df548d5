//! What begins with a name in a module is read: instances of modules with their connections, and variables of a type that has a
//! name.
//!
//! Which of these it is shows behind the name. Statements do not stand in them, so this crate and the reader of statements are
//! proved side by side.
#![tactic(auto)]

mod instantiations;
mod openers;
mod tails;

pub use instantiations::named_item;
pub use openers::PinsOpener;
pub use tails::{NameTail, PlainTail};
