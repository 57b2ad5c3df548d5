// The heads of loops, up to the `)`. No statements stand in them, so they are read here and not beside the reader of statements,
// where each function is dear. Generate loops have the same turns.
ghost use Rattle.sv_cursor.specs.Parsers as parser;
ghost use Rattle.sv_cursor.specs.Parsers.{Reads, ◌⊗◌, ◌▷◌};
ghost use Rattle.sv_cursor.specs.Tests as test;
ghost use Rattle.sv_word_parser.specs.Combined.{◌▸◌, ◌◂◌};
ghost use Rattle.sv_type_parser.specs.Forms as forms;
ghost use Rattle.sv_stmt_parser.specs.Loops as spec;
ghost use Rattle.sv_stmt_parser.specs.Targets as targets;

use crate::labels::step;
use items::both;
use std::alloc::Global;
use sv_cursor::{Cursor, Mark, ParseErr};
use sv_tree::{Expr, Step, WholeWord, Word};
use sv_type_parser::expression;
use sv_word_parser::take_whole;

/// The start, the test and the step of a loop.
pub type Turns = (Expr, (Expr, Step));

/// The type of a loop's variable, the variable, and its turns.
pub type LoopHead = (WholeWord, (Word, Turns));

fn ended_step(alloc: Global, tokens: &mut Cursor<'_>, variable: &Word) -> Result<Step, ParseErr>
    ensures { Reads ((targets.step variable.now ◂ test.mark Mark.RightParen) tokens.old) result tokens.new }
{
    let by = step(alloc, tokens, variable)?;
    tokens.mark(Mark::RightParen)?;
    Ok(by)
}

// From the test on.
fn tested(alloc: Global, tokens: &mut Cursor<'_>, variable: &Word) -> Result<(Expr, Step), ParseErr>
    ensures { Reads ((forms.expression ⊗ (test.mark Mark.Semicolon ▸ (targets.step variable.now ◂ test.mark Mark.RightParen))) tokens.old) result tokens.new }
{
    let condition = expression(alloc, tokens)?;
    let (condition, _) = both(condition, tokens.mark(Mark::Semicolon))?;
    both(condition, ended_step(alloc, tokens, variable))
}

fn turns(alloc: Global, tokens: &mut Cursor<'_>, variable: &Word) -> Result<Turns, ParseErr>
    ensures { Reads (spec.head_turns variable.now tokens.old) result tokens.new }
{
    tokens.mark(Mark::Assign)?;
    let start = expression(alloc, tokens)?;
    let (start, _) = both(start, tokens.mark(Mark::Semicolon))?;
    both(start, tested(alloc, tokens, variable))
}

/// The variable of a loop, its turns, and the `)`.
pub fn with_variable(alloc: Global, tokens: &mut Cursor<'_>) -> Result<(Word, Turns), ParseErr>
    ensures { Reads ((parser.token test.id_test ▷ spec.head_turns) tokens.old) result tokens.new }
{
    let variable = tokens.id(alloc)?;
    let rest = turns(alloc, tokens, &variable);
    both(variable, rest)
}

/// What stands behind the `for` of a loop of statements (A.6.8, loop_statement).
#[tactic(auto, unfolding(crate::specs::Loops::loop_head))]
pub fn loop_head(alloc: Global, tokens: &mut Cursor<'_>) -> Result<LoopHead, ParseErr>
    ensures { Reads (spec.loop_head tokens.old) result tokens.new }
{
    tokens.mark(Mark::LeftParen)?;
    let word = take_whole(tokens)?;
    let rest = with_variable(alloc, tokens)?;
    Ok((word, rest))
}
