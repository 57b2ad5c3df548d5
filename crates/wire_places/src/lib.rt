//! Places of wires by their numbers (a sparse array), at a cost that does not depend on the numbers.
#![tactic(auto)]

mod places;

pub use places::WirePlaces;
