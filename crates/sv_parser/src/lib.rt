//! Whole source texts are read: modules, and the types and parameters beside them.
//!
//! `parse` reads all tokens of a text, or says why no tree spells them, and where. What stands in modules is read by the crates
//! below this one, whose calls for one production are handed on here.
#![tactic(auto)]

mod source;
mod two_state;
mod whole;

pub use sv_instance_parser::{NameTail, PinsOpener, PlainTail};
pub use sv_item_parser::{AlwaysTail, item};
pub use sv_stmt_parser::{BranchTail, StepTail, lvalue, step, stmt};
pub use sv_type_parser::{form, par_port, param, port, typedef};
pub use sv_word_parser::{
    AlwaysWord, ItemOpener, ParamOpener, PartOpener, StepOpener, StmtOpener, TailOpener,
    TargetOpener, TypeOpener,
};
pub use whole::{parse, texts_are_decided};
