//! Case files (of test cases), in which values that were worked out by hand stand as text, and what judges them by.
//!
//! A file has cases, each begun by a line `case NAME`. Below it stand lines `KEY WORDS`, each with a block of rows behind it, and a row is a
//! line `| text`. Lines that begin with `#` and empty lines are passed over. What a case does not give is as in the case before it.
//! Most rows are `question => answer`. What a key means, the program says that judges by it.
#![tactic(auto)]

mod judging;
mod programs;
mod words;

pub use judging::{Bench, Judge, Report, each_row};
pub use programs::judge_file;
pub use words::{
    Fault, first_named, keep_lines, named, number, part, put, put_number, put_size, put_three,
    rows_of, sides, signed, size, size_at, small, small_at, trimmed, word, words_from,
};
