//! Reads the words of a line of a flat design's text: marks, numbers with and without a sign, tests and the bits of a constant.
#![tactic(auto)]

mod bits;
mod numbers;
mod words;

pub use words::Words;
