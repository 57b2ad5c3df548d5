//! Shapes of expressions over four-valued vectors: an operator and its children by their numbers; when two are equal, and how wide
//! they are over children of given widths; and the values of the variables that they name.
#![tactic(auto)]

mod children;
mod env;
mod node;
mod shape;
mod width;

pub use children::{Children, child_nodes};
pub use env::Env;
pub use node::Node;
pub use shape::{Bin, Shape, Un, VarName, same};
pub use width::shape_width;
