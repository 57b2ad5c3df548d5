//! A graph of expressions over four-valued vectors, in which no two nodes have equal shapes (hash consing; Goto, 1974).
//!
//! A node is a number. Its shape names an operator and its children, which have lower numbers; its value, width and variables come
//! from its shape and its children alone.
#![tactic(auto)]

mod arena;
mod eval;
mod fitting;
mod hashing;
mod laws;
mod marks;
mod subst;

pub use arena::Arena;
pub use eval::{binary, shape_value, unary};
pub use laws::{
    nodes_follow_shapes, nodes_stay, values_depend_on_mentioned, values_have_widths, values_rise,
};
pub use subst::{Subst, rename};
pub use svex_shape::{Bin, Env, Node, Shape, Un, VarName};
