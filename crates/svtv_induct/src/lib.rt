//! Invariants of a design that is reset under one table and then goes through periods of another: whether claims hold at the end
//! of the reset and of each period, for any number of periods, by induction (k-induction with k = 1; Sheeran, Singh and
//! Stalmarck, 2000). Claims that a period does not keep may be strengthened by more claims beside them.
//!
//! The base asks whether some choice breaks the claims in the least run of the reset. The step asks whether the claims can be true in a
//! valuation and not in the last of the least run of one period that begins there. What is not known of that valuation is not X but any of 0, 1, X
//! and Z at each bit, joined bits being equal: two more variables for each wire stand for it. Each question is decided by gates, clauses, the
//! solver and the judge of its refutations.
#![tactic(auto)]

mod asking;
mod half;
mod inducting;
mod shown;
mod signals;
mod state;
mod wider;

pub use half::{Half, Inducted};
pub use inducting::induct;
