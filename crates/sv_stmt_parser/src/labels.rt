// Names that repeat another: the labels of ends, and the variable in the step of a loop (IEEE 1800-2017, A.4.2, A.6.3 and
// A.6.8). That they are the same name is a rule of the grammar here, so a tree that is read needs no check afterwards. The
// refusal is made before the name is read, and so stands at the name that differs.
ghost use Rattle.std.specs.Prelude.{◌≡◌, length};
ghost use Rattle.std.specs.Str.{bytes_eq};
ghost use Rattle.sv_cursor.specs.Parsers as parser;
ghost use Rattle.sv_cursor.specs.Parsers.{Reads, told};
ghost use Rattle.sv_cursor.specs.Tests as test;
ghost use Rattle.sv_word_parser.specs.Combined.{◌▸◌, sort_test};
ghost use Rattle.sv_type_parser.specs.Lists as list;
ghost use Rattle.sv_stmt_parser.specs.Targets as spec;
ghost use Rattle.sv_word_parser.specs.Words as words;

use crate::tails::StepTail;
use std::alloc::Global;
use sv_cursor::{Cursor, Mark, ParseErr, Sort};
use sv_tree::{Step, Word};
use sv_type_parser::expression;
use sv_word_parser::{StepOpener, step_next, take_step, take_step_sign};

fn same(a: &[u8], b: &[u8]) -> bool
    ensures { result ≡ bytes_eq a.now b.now }
{
    a == b
}

/// The name that has to come next, with the same text as the other (`Syntax` where it does not).
#[tactic(auto, using(crate::proofs::Firsts::repeated, crate::proofs::Firsts::not_repeated, crate::proofs::Firsts::no_name))]
pub fn repeated(alloc: Global, tokens: &mut Cursor<'_>, other: &Word) -> Result<Word, ParseErr>
    ensures { Reads (parser.token (spec.repeat_test other.now) tokens.old) result tokens.new }
{
    let refusal = tokens.refuse();
    let word = tokens.id(alloc)?;
    if same(word.text.bytes(), other.text.bytes()) {
        Ok(word)
    } else {
        Err(refusal)
    }
}

#[tactic(auto, unfolding(sv_type_parser::specs::Lists::behind_colon))]
fn colon_name(alloc: Global, tokens: &mut Cursor<'_>) -> Result<Word, ParseErr>
    ensures { Reads (list.behind_colon (parser.token test.id_test) tokens.old) result tokens.new }
{
    tokens.mark(Mark::Colon)?;
    tokens.id(alloc)
}

/// The name of a block, behind its `begin`.
#[tactic(auto, unfolding(crate::specs::Targets::block_label, sv_type_parser::specs::Lists::behind_colon))]
pub fn block_label(alloc: Global, tokens: &mut Cursor<'_>) -> Result<Option<Word>, ParseErr>
    ensures { Reads (spec.block_label tokens.old) result tokens.new }
{
    match tokens.peek_mark(Mark::Colon) {
        Some(_) => colon_name(alloc, tokens).map(Some),
        None => Ok(None),
    }
}

#[tactic(auto, unfolding(sv_type_parser::specs::Lists::behind_colon))]
fn colon_repeated(alloc: Global, tokens: &mut Cursor<'_>, other: &Word) -> Result<Word, ParseErr>
    ensures { Reads (list.behind_colon (parser.token (spec.repeat_test other.now)) tokens.old) result tokens.new }
{
    tokens.mark(Mark::Colon)?;
    repeated(alloc, tokens, other)
}

/// A colon and the name again, where a colon comes next.
#[tactic(auto, unfolding(crate::specs::Targets::label_behind, sv_type_parser::specs::Lists::behind_colon))]
pub fn label_behind(
    alloc: Global,
    tokens: &mut Cursor<'_>,
    name: &Word,
) -> Result<Option<Word>, ParseErr>
    ensures { Reads (spec.label_behind name.now tokens.old) result tokens.new }
{
    match tokens.peek_mark(Mark::Colon) {
        Some(_) => colon_repeated(alloc, tokens, name).map(Some),
        None => Ok(None),
    }
}

/// The label of an end, where the name that it repeats is there.
pub fn end_label(
    alloc: Global,
    tokens: &mut Cursor<'_>,
    name: &Option<Word>,
) -> Result<Option<Word>, ParseErr>
    ensures { Reads (spec.end_label name.now tokens.old) result tokens.new }
{
    match name {
        Some(name) => label_behind(alloc, tokens, name),
        None => Ok(None),
    }
}

// ---- steps

#[tactic(auto, unfolding(crate::specs::Targets::step_tail))]
fn step_tail(alloc: Global, tokens: &mut Cursor<'_>) -> Result<StepTail, ParseErr>
    ensures { Reads (spec.step_tail tokens.old) result tokens.new }
{
    match step_next(tokens) {
        Some(_) => take_step(tokens).map(StepTail::By),
        None => {
            let mark = take_step_sign(tokens)?;
            let value = expression(alloc, tokens)?;
            Ok(StepTail::Set(mark, value))
        }
    }
}

#[tactic(auto, unfolding(crate::specs::Targets::step_before))]
fn step_before(alloc: Global, tokens: &mut Cursor<'_>, variable: &Word) -> Result<Step, ParseErr>
    ensures { Reads (spec.step_before variable.now tokens.old) result tokens.new }
{
    let mark = take_step(tokens)?;
    let name = repeated(alloc, tokens, variable)?;
    Ok(Step::Before(mark, name))
}

#[tactic(auto, unfolding(crate::specs::Targets::named_step))]
fn named_step(alloc: Global, tokens: &mut Cursor<'_>, variable: &Word) -> Result<Step, ParseErr>
    ensures { Reads (spec.named_step variable.now tokens.old) result tokens.new }
{
    let name = repeated(alloc, tokens, variable)?;
    match step_tail(alloc, tokens)? {
        StepTail::By(mark) => Ok(Step::After(name, mark)),
        StepTail::Set(mark, value) => Ok(Step::Assign(name, mark, value)),
    }
}

fn step_opener_of_mark(mark: Mark) -> Option<StepOpener>
    ensures { result ≡ words.step_opener_by_mark mark }
{
    match mark {
        Mark::Increment => Some(StepOpener::Mark),
        Mark::Decrement => Some(StepOpener::Mark),
        _ => None,
    }
}

fn step_opener_of(sort: Sort) -> Option<StepOpener>
    ensures { result ≡ words.step_opener_by_sort sort }
{
    match sort {
        Sort::Mark(mark) => step_opener_of_mark(mark),
        Sort::Id => Some(StepOpener::Name),
        _ => None,
    }
}

#[tactic(auto, using(sv_word_parser::proofs::Firsts::sort_first))]
fn step_opener_next(tokens: &Cursor<'_>) -> Option<StepOpener>
    ensures { result ≡ told (sort_test words.step_opener_by_sort) tokens.now }
{
    step_opener_of(tokens.sort())
}

fn step_for(
    alloc: Global,
    tokens: &mut Cursor<'_>,
    variable: &Word,
    opener: StepOpener,
) -> Result<Step, ParseErr>
    ensures { Reads (spec.step_for variable.now opener tokens.old) result tokens.new }
{
    match opener {
        StepOpener::Mark => step_before(alloc, tokens, variable),
        StepOpener::Name => named_step(alloc, tokens, variable),
    }
}

/// The step of the loop of that variable (A.6.8, for_step; A.4.2, genvar_iteration).
#[tactic(auto, unfolding(crate::specs::Targets::step))]
pub fn step(alloc: Global, tokens: &mut Cursor<'_>, variable: &Word) -> Result<Step, ParseErr>
    ensures { Reads (spec.step variable.now tokens.old) result tokens.new }
{
    match step_opener_next(tokens) {
        Some(opener) => step_for(alloc, tokens, variable, opener),
        None => Err(tokens.refuse()),
    }
}
