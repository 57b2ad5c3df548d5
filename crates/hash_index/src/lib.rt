//! An index of entries by their hashes. It finds an entry in a number of steps that is bounded by the bits of a hash, whatever
//! the hashes are, but for entries that have one hash.
#![tactic(auto)]

mod index;
mod tree;

pub use index::HashIndex;
