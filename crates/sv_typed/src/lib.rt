//! Typed expressions: trees in which names, sizes and signs are resolved and each constant position is a number.
#![tactic(auto)]

mod bits;
mod laws;
mod make;
mod ops;
mod tree;
mod value;

pub use laws::{bits_are_as_many_as_the_context_has, bits_depend_on_names};
pub use make::width_together;
pub use ops::{
    Arithmetic, Comparison, Logic, One, Pair, Reduction, Shift, Turn, Two, chosen, combined,
    compared, computed, moved, one_of, reduced, turned, two_of,
};
pub use tree::{Origin, Pick, PickPlace, Root, Typed, TypedForm};
