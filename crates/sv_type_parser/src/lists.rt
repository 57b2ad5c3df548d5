// Lists with commas between their parts.
ghost use Rattle.std.specs.Prelude.{◌≡◌};
ghost use Rattle.sv_cursor.specs.Parsers as parser;
ghost use Rattle.sv_cursor.specs.Parsers.{Reads};
ghost use Rattle.sv_cursor.specs.Tests as test;
ghost use Rattle.sv_expr_reader.specs.Reading as expr_spec;
ghost use Rattle.sv_word_parser.specs.Combined.{listed};
ghost use Rattle.sv_type_parser.specs.Forms as spec;
ghost use Rattle.sv_type_parser.specs.Lists as list;

use crate::parts::{all_parts, more_parts};
use items::Items;
use std::alloc::Global;
use sv_cursor::{Cursor, ParseErr};
use sv_expr_reader::expr;
use sv_tree::{Expr, Word};

/// How many expressions, statements, generate constructs or types may hold a token (this project's rule).
pub const MOST_NESTING: u8 = 200;

/// An expression (A.8.3).
pub fn expression(alloc: Global, tokens: &mut Cursor<'_>) -> Result<Expr, ParseErr>
    ensures { Reads (spec.expression tokens.old) result tokens.new }
{
    expr(alloc, tokens, MOST_NESTING + 1, 0)
}

/// One or more expressions, with commas between them.
pub fn expressions(alloc: Global, tokens: &mut Cursor<'_>) -> Result<Items<Expr>, ParseErr>
    ensures { Reads (listed spec.expression tokens.old) result tokens.new }
{
    all_parts::<Expr>(alloc, tokens)
}

/// The names behind the first.
pub fn more_names(alloc: Global, tokens: &mut Cursor<'_>) -> Result<Items<Word>, ParseErr>
    ensures { Reads (list.more (parser.token test.id_test) tokens.old) result tokens.new }
{
    more_parts::<Word>(alloc, tokens)
}

/// One or more names, with commas between them.
#[tactic(auto, unfolding(crate::specs::Forms::names))]
pub fn names(alloc: Global, tokens: &mut Cursor<'_>) -> Result<Items<Word>, ParseErr>
    ensures { Reads (spec.names tokens.old) result tokens.new }
{
    all_parts::<Word>(alloc, tokens)
}
