//! Groups of places that depend on each other (strongly connected components), in an order of dependence, for any lists of what
//! each place depends on.
#![tactic(auto)]

mod finder;

pub use finder::grouping;
