// Targets. Those in braces are read as expressions in braces are: to a depth, by rules that take the reader of the
// targets in them as a parameter, so that each is proved by itself.
ghost use Rattle.std.specs.Prelude.{◌≡◌};
ghost use Rattle.sv_cursor.specs.Parsers as parser;
ghost use Rattle.sv_cursor.specs.Parsers.{Reads, told};
ghost use Rattle.sv_cursor.specs.Tests as test;
ghost use Rattle.sv_cursor.specs.declared.sort.Mark.TheVariants as mark;
ghost use Rattle.sv_word_parser.specs.Combined.{listed, sort_test};
ghost use Rattle.sv_type_parser.specs.Lists as list;
ghost use Rattle.sv_type_parser.specs.Lists.{Nests};
ghost use Rattle.sv_stmt_parser.specs.Targets as spec;
ghost use Rattle.sv_word_parser.specs.Words as words;

use crate::within::{Nested, parts};
use items::Items;
use std::alloc::Global;
use sv_cursor::{Cursor, Mark, ParseErr, Sort};
use sv_expr_reader::selects;
use sv_outside::Place;
use sv_tree::Lvalue;
use sv_type_parser::{MOST_NESTING, with_more};
use sv_word_parser::{TargetOpener, sees};

#[tactic(auto, unfolding(crate::specs::Targets::named_target))]
fn named_target(alloc: Global, tokens: &mut Cursor<'_>, depth: u8) -> Result<Lvalue, ParseErr>
    ensures { Reads (spec.named_target depth tokens.old) result tokens.new }
{
    let name = tokens.id(alloc)?;
    let all = selects(alloc, tokens, depth)?;
    Ok(Lvalue::Name(name, all))
}

fn target_of_mark(mark: Mark) -> Option<TargetOpener>
    ensures { result ≡ words.target_by_mark mark }
{
    match mark {
        Mark::LeftBrace => Some(TargetOpener::Brace),
        _ => None,
    }
}

fn target_of(sort: Sort) -> Option<TargetOpener>
    ensures { result ≡ words.target_by_sort sort }
{
    match sort {
        Sort::Mark(mark) => target_of_mark(mark),
        Sort::Id => Some(TargetOpener::Name),
        _ => None,
    }
}

#[tactic(auto, using(sv_word_parser::proofs::Firsts::sort_first))]
fn target_next(tokens: &Cursor<'_>) -> Option<TargetOpener>
    ensures { result ≡ told (sort_test words.target_by_sort) tokens.now }
{
    target_of(tokens.sort())
}

/// The rules of targets in braces, over a reader of the targets in them.
#[derive(Drop)]
struct Braces<F> {
    alloc: Global,
    /// Fewer expressions may hold a token of a part.
    depth: u8,
    /// Reads a target to a depth.
    target: F,
}

// Targets behind the first, each with the comma before it.
impl<F: Fn(Global, &mut Cursor<'_>, u8) -> Result<Lvalue, ParseErr>> Nested<Lvalue> for Braces<F> {
    type Opener = Place;

    ghost ready = { λ rules. Nests (spec.target rules.depth) rules.depth (F.pre rules.target) (F.post rules.target) };

    ghost parser = { λ rules. list.behind_comma (spec.target rules.depth) };

    ghost test = { test.mark_test mark.Comma };

    fn comes(tokens: &Cursor<'_>) -> bool {
        sees(tokens, Mark::Comma)
    }

    #[tactic(auto, unfolding(sv_type_parser::specs::Lists::behind_comma))]
    fn part(&self, tokens: &mut Cursor<'_>) -> Result<Lvalue, ParseErr> {
        tokens.mark(Mark::Comma)?;
        self.target(tokens)
    }
}

impl<F: Fn(Global, &mut Cursor<'_>, u8) -> Result<Lvalue, ParseErr>> Braces<F> {
    fn target(&self, tokens: &mut Cursor<'_>) -> Result<Lvalue, ParseErr>
        requires { Nests (spec.target self.now.depth) self.now.depth (F.pre self.now.target) (F.post self.now.target) }
        ensures { Reads (spec.target self.now.depth tokens.old) result tokens.new }
    {
        (self.target)(self.alloc, tokens, self.depth)
    }

    #[tactic(auto, unfolding(sv_type_parser::specs::Lists::more, sv_type_parser::specs::Lists::behind_comma, sv_type_parser::specs::Lists::while_told))]
    fn targets(&self, tokens: &mut Cursor<'_>) -> Result<Items<Lvalue>, ParseErr>
        requires { Nests (spec.target self.now.depth) self.now.depth (F.pre self.now.target) (F.post self.now.target) }
        ensures { Reads (listed (spec.target self.now.depth) tokens.old) result tokens.new }
    {
        let first = self.target(tokens)?;
        let more = parts(self.alloc, tokens, self);
        with_more(self.alloc, first, more)
    }

    #[tactic(auto, unfolding(crate::specs::Targets::braced_targets))]
    fn braced(&self, tokens: &mut Cursor<'_>) -> Result<Lvalue, ParseErr>
        requires { Nests (spec.target self.now.depth) self.now.depth (F.pre self.now.target) (F.post self.now.target) }
        ensures { Reads (spec.braced_targets (spec.target self.now.depth) tokens.old) result tokens.new }
    {
        let place = tokens.mark(Mark::LeftBrace)?;
        let all = self.targets(tokens)?;
        tokens.mark(Mark::RightBrace)?;
        Ok(Lvalue::Concat(place, all))
    }

    // The brace itself lies too deep where no expression more may hold a token.
    fn guarded(&self, tokens: &mut Cursor<'_>) -> Result<Lvalue, ParseErr>
        requires { Nests (spec.target self.now.depth) self.now.depth (F.pre self.now.target) (F.post self.now.target) }
        ensures { Reads (parser.guarded self.now.depth (spec.braced_targets (spec.target self.now.depth)) tokens.old) result tokens.new }
    {
        if self.depth == 0 {
            return Err(tokens.too_deep());
        }
        self.braced(tokens)
    }
}

// A target, of which fewer than `depth` expressions hold a token.
fn target(alloc: Global, tokens: &mut Cursor<'_>, depth: u8) -> Result<Lvalue, ParseErr>
    ensures { Reads (spec.target depth tokens.old) result tokens.new }
{
    if depth == 0 {
        return Err(tokens.too_deep());
    }
    let Some(opener) = target_next(tokens) else {
        return Err(tokens.refuse());
    };
    match opener {
        TargetOpener::Name => named_target(alloc, tokens, depth),
        TargetOpener::Brace => Braces {
            alloc,
            depth: depth - 1,
            target,
        }
        .guarded(tokens),
    }
}

/// A target (A.8.5, variable_lvalue and net_lvalue). Braces count as expressions: the cursor stands behind it then, or
/// `TooDeep` names the brace, or the token of a select, that over 200 hold.
pub fn lvalue(alloc: Global, tokens: &mut Cursor<'_>) -> Result<Lvalue, ParseErr>
    ensures { Reads (spec.lvalue tokens.old) result tokens.new }
{
    target(alloc, tokens, MOST_NESTING + 1)
}
