//! Types, parameters and ports are read, and lists with commas between their parts.
//!
//! A type may hold types to a depth, so the rules that hold types take the reader of those as a parameter. Each function has the
//! exact contract of one production: which tree it reads, where the cursor stands then, and where it refuses. The laws of rules and
//! their parts, which the crates above cite too, stand in proofs/Rules.antt.
#![tactic(auto)]

mod forms;
mod lists;
mod parameters;
mod parts;

pub use forms::{ended_names, form, given, range, ranges, typedef};
pub use lists::{MOST_NESTING, expression, expressions, more_names, names};
pub use parameters::{par_port, param, port, typed_name};
pub use parts::{Part, all_parts, ended_more, ended_parts, more_parts};
pub use sv_expr_reader::{boxed, keep, with_first, with_more};
