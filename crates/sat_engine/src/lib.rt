//! A search for a solution of clauses or for a refutation, of which no proof says anything but that it is safe and returns. A solution is
//! to be tried on the clauses, and a log to be judged. So each part of it may be made faster without a word of proof, and a mistake
//! in it costs an answer, which then has to be found otherwise, but is never told.
#![tactic(auto)]

mod candidates;
mod cone;
mod equal;
mod search;
mod sweep;

pub use search::{Found, search_for};
