//! Vectors and expressions as text, for programs of rows.
#![tactic(auto)]

mod expressions;
mod vectors;

pub use expressions::{Kind, built, kind_of};
pub use vectors::{digits, put_digits, put_vectors, read_vectors};
