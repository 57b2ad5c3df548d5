//! Constants, sizes and selects over the names of a scope.
#![tactic(auto)]

mod evaluate;

pub use evaluate::{eval_const, eval_fixed, select_chain, sized};
