//! Smaller expressions with the same values.
//!
//! Each operator has laws, by which a shape over simplified nodes becomes another. A law keeps the value for every four-valued
//! operand, X and Z too. So it leaves `unfloat a` of `and a 1`, and a `cond` between a node and itself stays: both make X of Z.
//!
//! | A shape | becomes |
//! |---|---|
//! | any operator on constants | the constant |
//! | `and a 0`, `or a 1`, `res a x` | the constant |
//! | `and a 1`, `or a 0`, `xor a 0`, `and a a`, `or a a` | `unfloat a` |
//! | `xor a 1` | `not a` |
//! | `res a z`, `res a a` | a |
//! | `eq a 1`, `eq a 0` of one bit | `unfloat a`, `not a` |
//! | `truth` or a reduction of one bit | `unfloat` of it |
//! | `not (not a)` | `unfloat a` |
//! | `unfloat a`, where the operator of a never gives Z | a |
//! | `cond` and `pick` with the condition 1 or 0 | the branch |
//! | `pick c a a` | a |
//! | a part of a part, of one half of a concatenation, or of what is extended | a part of the inner node |
//! | a part of the zeros of a `zext` | the constant |
//! | a part of all bits, or an extension to the own width | the node |
//! | a concatenation of two parts that stand together in a node | one part |
//! | `zext` of `zext`, `sext` of `sext` | one extension |
//! | a computed part at a constant place, within the node | a part |
//!
//! A constant operand stands on either side, and 0, 1, x or z stands for a vector of them.
#![tactic(auto)]

mod bitwise;
mod choices;
mod computed;
mod nodes;
mod operators;
mod parts;
mod place;
mod rules;
mod simple;
mod unfloating;

pub use place::{Place, narrowed, shape_of};
pub use rules::make;
pub use simple::simplify;
