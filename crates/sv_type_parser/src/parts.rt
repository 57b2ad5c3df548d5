// Lists of parts that are read alike, whatever the parts are.
ghost use Rattle.sv_cursor.specs.Parsers as parser;
ghost use Rattle.sv_cursor.specs.Parsers.{Reads};
ghost use Rattle.sv_cursor.specs.Tests as test;
ghost use Rattle.sv_word_parser.specs.Combined.{◌◂◌, listed};
ghost use Rattle.sv_type_parser.specs.Forms as spec;
ghost use Rattle.sv_type_parser.specs.Lists as list;

use crate::lists::expression;
use items::Items;
use std::alloc::Global;
use sv_cursor::{Cursor, Mark, ParseErr};
use sv_expr_reader::{keep, with_more};
use sv_tree::{Expr, Word};
use sv_word_parser::sees;

/// What can stand in a list. A crate that reads trees of another crate names them by a type of its own.
pub trait Part {
    /// What is read.
    type Tree: Drop;

    ghost parser: { parser.Parser Self.Tree };

    /// Reads one. The cursor stands behind it then.
    fn read(alloc: Global, tokens: &mut Cursor<'_>) -> Result<Self::Tree, ParseErr>
        ensures { Reads (parser tokens.old) result tokens.new };
}

impl Part for Expr {
    type Tree = Expr;

    ghost parser = { spec.expression };

    fn read(alloc: Global, tokens: &mut Cursor<'_>) -> Result<Expr, ParseErr> {
        expression(alloc, tokens)
    }
}

impl Part for Word {
    type Tree = Word;

    ghost parser = { parser.token test.id_test };

    fn read(alloc: Global, tokens: &mut Cursor<'_>) -> Result<Word, ParseErr> {
        tokens.id(alloc)
    }
}

#[tactic(auto, unfolding(crate::specs::Lists::behind_comma))]
fn comma_part<T: Part>(alloc: Global, tokens: &mut Cursor<'_>) -> Result<T::Tree, ParseErr>
    ensures { Reads (list.behind_comma T.parser tokens.old) result tokens.new }
{
    tokens.mark(Mark::Comma)?;
    T::read(alloc, tokens)
}

/// The parts behind the first.
pub fn more_parts<T: Part>(
    alloc: Global,
    tokens: &mut Cursor<'_>,
) -> Result<Items<T::Tree>, ParseErr>
    ensures { Reads (list.more T.parser tokens.old) result tokens.new }
{
    let mut found = Items::new(alloc);
    for _turn in 0..tokens.left() {
        if !sees(tokens, Mark::Comma) {
            return Ok(found);
        }
        let part = comma_part::<T>(alloc, tokens);
        keep(&mut found, part)?;
    }
    Ok(found)
}

/// One or more parts, with commas between them.
#[tactic(auto, unfolding(crate::specs::Lists::more, crate::specs::Lists::behind_comma))]
pub fn all_parts<T: Part>(
    alloc: Global,
    tokens: &mut Cursor<'_>,
) -> Result<Items<T::Tree>, ParseErr>
    ensures { Reads (listed T.parser tokens.old) result tokens.new }
{
    let first = T::read(alloc, tokens)?;
    let more = more_parts::<T>(alloc, tokens);
    with_more(alloc, first, more)
}

/// One or more parts, with commas between them and a semicolon behind them.
pub fn ended_parts<T: Part>(
    alloc: Global,
    tokens: &mut Cursor<'_>,
) -> Result<Items<T::Tree>, ParseErr>
    ensures { Reads ((listed T.parser ◂ test.mark Mark.Semicolon) tokens.old) result tokens.new }
{
    let all = all_parts::<T>(alloc, tokens)?;
    tokens.mark(Mark::Semicolon)?;
    Ok(all)
}

/// The parts behind the first, and a semicolon behind them.
pub fn ended_more<T: Part>(
    alloc: Global,
    tokens: &mut Cursor<'_>,
) -> Result<Items<T::Tree>, ParseErr>
    ensures { Reads ((list.more T.parser ◂ test.mark Mark.Semicolon) tokens.old) result tokens.new }
{
    let more = more_parts::<T>(alloc, tokens)?;
    tokens.mark(Mark::Semicolon)?;
    Ok(more)
}
