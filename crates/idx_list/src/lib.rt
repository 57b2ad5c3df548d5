//! A doubly linked list of distinct numbers, linked by index inside one vector.
#![tactic(auto)]

mod list;

pub use list::IdxList;
