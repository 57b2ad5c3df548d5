//! The kinds and texts of the tokens that the parts of a module are spelled by. What `spell` writes of a whole text is
//! made of these: each function writes one kind of part behind what is written already.
#![tactic(auto)]

mod design;
mod exprs;
mod forms;
mod lexeme;
mod modules;
mod part;
mod spelling;
mod stmts;

pub use design::items;
pub use forms::{param, typedef};
pub use lexeme::{Lexeme, Lexemes, Writer};
pub use part::{Part, commas, each};
pub use spelling::spell;
pub use stmts::end;
