//! Segments of wires, lists of them as the left side of an assignment, and bits joined by ports.
#![tactic(auto)]

mod bits;
mod forest;
mod joins;
mod laws;
mod lhs;
mod segs;

pub use bits::segs_of;
pub use joins::{JoinErr, Joins};
pub use laws::{first_is_unique, linked_is_equivalence};
pub use lhs::Lhs;
pub use segs::{Seg, WireBit};
