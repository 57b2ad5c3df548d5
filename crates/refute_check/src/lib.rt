//! Judges a log of steps by which clauses are refuted (a proof checker). Whoever wrote the log is not trusted.
//!
//! A step follows from earlier clauses by reverse unit propagation (RUP; Goldberg and Novikov, 2003) along hints (as in LRAT;
//! Cruz-Filipe et al., 2017): its literals are assumed false, each hint but the last names a clause with one open literal left,
//! which becomes true, and the last one names a clause that is false. Each literal of a clause that a hint names is looked at
//! once, and what a step has set is taken back from a trail of it, so that the number of variables does not count. (No proof
//! bounds the time.)
#![tactic(auto)]

mod checked;
mod checker;
mod follow;
mod laws;
mod log;
mod marks;
mod number;
mod packing;
mod reader;
mod readers;
mod row;

pub use checked::{Checked, judge};
pub use checker::{CheckErr, Checker};
pub use follow::clause_of;
pub use laws::fresh_logs_are_short;
pub use log::{Draft, Log, Step};
pub use number::Number;
pub use reader::Reader;
pub use readers::{Hints, Literals};
pub use row::NumberRow;
