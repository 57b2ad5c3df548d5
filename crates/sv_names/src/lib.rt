//! Layouts of bits with the places in them, and what names stand for at a place of a text.
#![tactic(auto)]

mod cursor;
mod key;
mod layout;
mod links;
mod names;
mod ranges;
mod scope;
mod shared;

pub use cursor::{Cursor, Each, Part, Row};
pub use key::key_of;
pub use layout::{Field, Form, Known, Layout, Size, What, scalar};
pub use name_index::NameDigest;
pub use names::{Frame, Names};
pub use scope::Scope;
pub use shared::Shared;
