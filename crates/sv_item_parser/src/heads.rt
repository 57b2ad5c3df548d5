// The heads of generate loops and conditions, up to the `)`. No items stand in them, so they are read here and not beside
// the reader of items, where each function is dear.
ghost use Rattle.sv_cursor.specs.Parsers as parser;
ghost use Rattle.sv_cursor.specs.Parsers.{Reads};
ghost use Rattle.sv_cursor.specs.Tests as test;
ghost use Rattle.sv_item_parser.specs.Items as spec;

use items::both;
use std::alloc::Global;
use sv_cursor::{Cursor, Keyword, Mark, ParseErr};
use sv_outside::Place;
use sv_stmt_parser::{Turns, with_variable};
use sv_tree::{Expr, Word};
use sv_type_parser::expression;

fn maybe_genvar(tokens: &mut Cursor<'_>) -> Result<Option<Place>, ParseErr>
    ensures { Reads (parser.maybe_read (test.keyword_test Keyword.Genvar) (test.keyword Keyword.Genvar) tokens.old) result tokens.new }
{
    match tokens.peek_keyword(Keyword::Genvar) {
        Some(_) => {
            let place = tokens.keyword(Keyword::Genvar)?;
            Ok(Some(place))
        }
        None => Ok(None),
    }
}

/// `genvar`, the variable of a loop, and its turns.
pub type LoopHead = (Option<Place>, (Word, Turns));

/// What stands behind the `for` of a loop (A.4.2, loop_generate_construct).
#[tactic(auto, unfolding(crate::specs::Items::loop_head))]
pub fn loop_head(alloc: Global, tokens: &mut Cursor<'_>) -> Result<LoopHead, ParseErr>
    ensures { Reads (spec.loop_head tokens.old) result tokens.new }
{
    tokens.mark(Mark::LeftParen)?;
    let word = maybe_genvar(tokens)?;
    both(word, with_variable(alloc, tokens))
}

/// What stands behind the `if` of a condition (A.4.2, if_generate_construct).
#[tactic(auto, unfolding(crate::specs::Items::cond_head))]
pub fn cond_head(alloc: Global, tokens: &mut Cursor<'_>) -> Result<Expr, ParseErr>
    ensures { Reads (spec.cond_head tokens.old) result tokens.new }
{
    tokens.mark(Mark::LeftParen)?;
    let condition = expression(alloc, tokens)?;
    let (condition, _) = both(condition, tokens.mark(Mark::RightParen))?;
    Ok(condition)
}
