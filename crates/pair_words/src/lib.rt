//! Circuits over four-valued bits, as pairs of literals (a dual-rail encoding).
//!
//! A four-valued bit is a pair of literals, and a vector a list of such pairs, the least significant first. Each circuit has the
//! value of its operator under all values of the nodes that obey the graph, and so under all values of its inputs, takes no more
//! nodes than it says, and none where the graph has node 0 alone.
#![tactic(auto)]

mod choices;
mod indexes;
mod numbers;
mod pairs;
mod places;
mod shifts;
mod steps;
mod vectors;

pub use choices::on_choice;
pub use numbers::{Number, on_numbers};
pub use pairs::{One, Pair, Two, one_bit};
pub use places::{dyn_put, dyn_slice};
pub use shifts::{Way, constant, shift};
pub use vectors::{on_both, on_each, over_all};
