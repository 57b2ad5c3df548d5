//! What the statements of a block do: actions with names, sizes and targets resolved and loops unrolled (IEEE 1800-2017, 10.4,
//! 12.4, 12.5 and 12.7.1).
#![tactic(auto)]

mod action;
mod arms;
mod labels;
mod marks;
mod rules;
mod statements;
mod turns;

pub use action::{Action, Arm, Case};
pub use marks::{first_mark, judge_marks};
pub use statements::{Acted, typed_body};
