//! What the parsers share: the sorts of tokens, a cursor over them, and what a parser answers.
#![tactic(auto)]

mod cursor;
mod error;
mod refusals;
mod sort;
mod sorts;

pub use cursor::Cursor;
pub use error::ParseErr;
pub use refusals::{place_at, refusal, syntax_number};
pub use sort::{Keyword, Mark, Sort};
pub use sorts::sort_of;
