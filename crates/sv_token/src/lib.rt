//! Cuts a text into tokens (a lexer), each the longest that begins at its place (maximal munch).
#![tactic(auto)]

mod bytes;
mod front;
mod lexer;
mod scan;

pub use front::Front;
pub use lexer::{Lined, end_of, lex, lex_lines, one_list};
