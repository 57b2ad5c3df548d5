//! Numbers by name: the places of names in a list, of which the first counts, and the map that holds them.
#![tactic(auto)]

mod digest;
mod index;
mod map;

pub use digest::{NameDigest, digest_of};
pub use index::NameIndex;
pub use map::NameMap;
