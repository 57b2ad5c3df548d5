//! What a token says of the expression that it begins or goes on with, and how tightly operators bind (their precedence).
#![tactic(auto)]

mod openers;
mod signs;

pub use openers::{Joiner, Opener, SelectOpener};
pub use signs::{
    begins, binary_mark, joiner, range_mark, right_level, select_opener, sign_keyword, strength,
    unary_mark,
};
