//! An owner of many values and an owner of one, which contracts see as what they own.
//!
//! A type may reach itself through them, so a tree built of them is plain data in a contract:
//! two trees are the same where they are equal, whatever their capacities and addresses. Beside them stands `both`, by which
//! a function that makes several owned values holds none of them where it hands on an error.
#![tactic(auto)]

mod boxed;
mod held;
mod items;

pub use boxed::Boxed;
pub use held::both;
pub use items::Items;
