// What begins with a name is read: instances with their connections, and variables of a named type (IEEE 1800-2017, A.2.1.3 and
// A.4.1.1). Which of them it is shows at the token behind the first name, or at the one behind the second. So the names are
// read first and a tail behind them, and the item is put together from both, without reading a token twice.
ghost use Rattle.std.specs.Prelude.{◌≡◌, IfOk};
ghost use Rattle.sv_cursor.specs.Parsers as parser;
ghost use Rattle.sv_cursor.specs.Parsers.{Reads, told};
ghost use Rattle.sv_cursor.specs.Tests as test;
ghost use Rattle.sv_expr_words.specs.Signs.{opener_test};
ghost use Rattle.sv_word_parser.specs.Combined.{listed, some_of, sort_test};
ghost use Rattle.sv_type_parser.specs.Forms as forms;
ghost use Rattle.sv_instance_parser.specs.Instances as spec;
ghost use Rattle.sv_type_parser.specs.Lists as list;
ghost use Rattle.sv_instance_parser.specs.Pins as opening;
ghost use Rattle.sv_word_parser.specs.Words as words;

use crate::openers::PinsOpener;
use crate::tails::{NameTail, PlainTail};
use items::{Items, both};
use std::alloc::{AllocError, Global};
use sv_cursor::{Cursor, Mark, ParseErr, Sort};
use sv_expr_words::{Opener, begins};
use sv_tree::{Expr, Inst, Item, NamedPin, One, Pin, Pins, Range, TypeTree, Word};
use sv_type_parser::{
    Part, all_parts, ended_more, ended_names, ended_parts, expression, expressions, range, ranges,
    with_first, with_more,
};
use sv_word_parser::{TailOpener, given_pin};

// ---- connections

fn maybe_expression(alloc: Global, tokens: &mut Cursor<'_>) -> Result<Option<Expr>, ParseErr>
    ensures { Reads (parser.maybe_read opener_test forms.expression tokens.old) result tokens.new }
{
    match begins(tokens) {
        Some(_) => expression(alloc, tokens).map(Some),
        None => Ok(None),
    }
}

#[tactic(auto, unfolding(crate::specs::Instances::pin_inside))]
fn pin_inside(alloc: Global, tokens: &mut Cursor<'_>) -> Result<Option<Expr>, ParseErr>
    ensures { Reads (spec.pin_inside tokens.old) result tokens.new }
{
    tokens.mark(Mark::LeftParen)?;
    let inner = maybe_expression(alloc, tokens)?;
    let (inner, _) = both(inner, tokens.mark(Mark::RightParen))?;
    Ok(inner)
}

#[tactic(auto, unfolding(crate::specs::Instances::pin))]
fn pin(alloc: Global, tokens: &mut Cursor<'_>) -> Result<Pin, ParseErr>
    ensures { Reads (spec.pin tokens.old) result tokens.new }
{
    match tokens.peek_mark(Mark::LeftParen) {
        Some(_) => {
            let inner = pin_inside(alloc, tokens)?;
            Ok(given_pin(inner))
        }
        None => Ok(Pin::Same),
    }
}

// Connections by name, as parts of a list.
struct NamedPins;

impl Part for NamedPins {
    type Tree = NamedPin;

    ghost parser = { spec.named_pin };

    #[tactic(auto, unfolding(crate::specs::Instances::named_pin))]
    fn read(alloc: Global, tokens: &mut Cursor<'_>) -> Result<NamedPin, ParseErr> {
        tokens.mark(Mark::Dot)?;
        let name = tokens.id(alloc)?;
        let pin = pin(alloc, tokens)?;
        Ok(NamedPin { name, pin })
    }
}

fn pins_for(alloc: Global, tokens: &mut Cursor<'_>, opener: PinsOpener) -> Result<Pins, ParseErr>
    ensures { Reads (spec.pins_for opener tokens.old) result tokens.new }
{
    match opener {
        PinsOpener::Named => all_parts::<NamedPins>(alloc, tokens).map(Pins::Named),
        PinsOpener::Ordered => expressions(alloc, tokens).map(Pins::Ordered),
    }
}

fn ordered_if(opener: Option<Opener>) -> Option<PinsOpener>
    ensures { result ≡ opening.ordered_if opener }
{
    match opener {
        Some(_) => Some(PinsOpener::Ordered),
        None => None,
    }
}

#[tactic(auto, using(crate::proofs::Firsts::named_pins_next, crate::proofs::Firsts::ordered_pins_next))]
fn pins_next(tokens: &Cursor<'_>) -> Option<PinsOpener>
    ensures { result ≡ told (sort_test opening.pins_by_sort) tokens.now }
{
    match tokens.peek_mark(Mark::Dot) {
        Some(_) => Some(PinsOpener::Named),
        None => ordered_if(begins(tokens)),
    }
}

#[tactic(auto, unfolding(crate::specs::Instances::pins))]
fn pins(alloc: Global, tokens: &mut Cursor<'_>) -> Result<Pins, ParseErr>
    ensures { Reads (spec.pins tokens.old) result tokens.new }
{
    match pins_next(tokens) {
        Some(opener) => pins_for(alloc, tokens, opener),
        None => Err(tokens.refuse()),
    }
}

fn maybe_pins(alloc: Global, tokens: &mut Cursor<'_>) -> Result<Option<Pins>, ParseErr>
    ensures { Reads (parser.maybe_read (sort_test opening.pins_by_sort) spec.pins tokens.old) result tokens.new }
{
    match pins_next(tokens) {
        Some(_) => pins(alloc, tokens).map(Some),
        None => Ok(None),
    }
}

// Connections in parentheses, or none.
#[tactic(auto, unfolding(crate::specs::Instances::pins_inside))]
fn pins_inside(alloc: Global, tokens: &mut Cursor<'_>) -> Result<Option<Pins>, ParseErr>
    ensures { Reads (spec.pins_inside tokens.old) result tokens.new }
{
    tokens.mark(Mark::LeftParen)?;
    let all = maybe_pins(alloc, tokens)?;
    let (all, _) = both(all, tokens.mark(Mark::RightParen))?;
    Ok(all)
}

// Instances, as parts of a list.
struct Ones;

impl Part for Ones {
    type Tree = One;

    ghost parser = { spec.one };

    #[tactic(auto, unfolding(crate::specs::Instances::one))]
    fn read(alloc: Global, tokens: &mut Cursor<'_>) -> Result<One, ParseErr> {
        let name = tokens.id(alloc)?;
        let pins = pins_inside(alloc, tokens)?;
        Ok(One { name, pins })
    }
}

// ---- behind the name that begins an item

#[tactic(auto, unfolding(crate::specs::Instances::instances, crate::specs::Instances::more_ones, sv_type_parser::specs::Lists::more, sv_type_parser::specs::Lists::behind_comma))]
fn instances(alloc: Global, tokens: &mut Cursor<'_>) -> Result<PlainTail, ParseErr>
    ensures { Reads (spec.instances tokens.old) result tokens.new }
{
    let pins = pins_inside(alloc, tokens)?;
    let (pins, more) = both(pins, ended_more::<Ones>(alloc, tokens))?;
    Ok(PlainTail::Instances(pins, more))
}

#[tactic(auto, unfolding(crate::specs::Instances::variables, crate::specs::Instances::more_names, sv_type_parser::specs::Lists::more, sv_type_parser::specs::Lists::behind_comma))]
fn variables(alloc: Global, tokens: &mut Cursor<'_>) -> Result<PlainTail, ParseErr>
    ensures { Reads (spec.variables tokens.old) result tokens.new }
{
    ended_more::<Word>(alloc, tokens).map(PlainTail::Variables)
}

#[tactic(auto, unfolding(crate::specs::Instances::plain_tail))]
fn plain_tail(alloc: Global, tokens: &mut Cursor<'_>) -> Result<PlainTail, ParseErr>
    ensures { Reads (spec.plain_tail tokens.old) result tokens.new }
{
    match tokens.peek_mark(Mark::LeftParen) {
        Some(_) => instances(alloc, tokens),
        None => variables(alloc, tokens),
    }
}

#[tactic(auto, unfolding(crate::specs::Instances::overridden))]
fn overridden(alloc: Global, tokens: &mut Cursor<'_>) -> Result<NameTail, ParseErr>
    ensures { Reads (spec.overridden tokens.old) result tokens.new }
{
    tokens.mark(Mark::Hash)?;
    let params = pins_inside(alloc, tokens)?;
    let (params, all) = both(params, ended_parts::<Ones>(alloc, tokens))?;
    Ok(NameTail::Overridden(params, all))
}

// One or more ranges.
#[tactic(auto, unfolding(sv_type_parser::specs::Forms::ranges))]
fn some_ranges(alloc: Global, tokens: &mut Cursor<'_>) -> Result<Items<Range>, ParseErr>
    ensures { Reads (some_of (test.mark_test Mark.LeftBracket) forms.range tokens.old) result tokens.new }
{
    let first = range(alloc, tokens)?;
    let more = ranges(alloc, tokens);
    with_more(alloc, first, more)
}

#[tactic(auto, unfolding(crate::specs::Instances::ranged))]
fn ranged(alloc: Global, tokens: &mut Cursor<'_>) -> Result<NameTail, ParseErr>
    ensures { Reads (spec.ranged tokens.old) result tokens.new }
{
    let ranges = some_ranges(alloc, tokens)?;
    let all = ended_names(alloc, tokens)?;
    Ok(NameTail::Ranged(ranges, all))
}

#[tactic(auto, unfolding(crate::specs::Instances::plain))]
fn plain(alloc: Global, tokens: &mut Cursor<'_>) -> Result<NameTail, ParseErr>
    ensures { Reads (spec.plain tokens.old) result tokens.new }
{
    let name = tokens.id(alloc)?;
    let tail = plain_tail(alloc, tokens)?;
    Ok(NameTail::Plain(name, tail))
}

fn tail_of_mark(mark: Mark) -> Option<TailOpener>
    ensures { result ≡ words.tail_by_mark mark }
{
    match mark {
        Mark::Hash => Some(TailOpener::Hash),
        Mark::LeftBracket => Some(TailOpener::Bracket),
        _ => None,
    }
}

fn tail_of(sort: Sort) -> Option<TailOpener>
    ensures { result ≡ words.tail_by_sort sort }
{
    match sort {
        Sort::Mark(mark) => tail_of_mark(mark),
        Sort::Id => Some(TailOpener::Name),
        _ => None,
    }
}

#[tactic(auto, using(sv_word_parser::proofs::Firsts::sort_first))]
fn tail_next(tokens: &Cursor<'_>) -> Option<TailOpener>
    ensures { result ≡ told (sort_test words.tail_by_sort) tokens.now }
{
    tail_of(tokens.sort())
}

fn tail_for(
    alloc: Global,
    tokens: &mut Cursor<'_>,
    opener: TailOpener,
) -> Result<NameTail, ParseErr>
    ensures { Reads (spec.tail_for opener tokens.old) result tokens.new }
{
    match opener {
        TailOpener::Hash => overridden(alloc, tokens),
        TailOpener::Bracket => ranged(alloc, tokens),
        TailOpener::Name => plain(alloc, tokens),
    }
}

#[tactic(auto, unfolding(crate::specs::Instances::name_tail))]
fn name_tail(alloc: Global, tokens: &mut Cursor<'_>) -> Result<NameTail, ParseErr>
    ensures { Reads (spec.name_tail tokens.old) result tokens.new }
{
    match tail_next(tokens) {
        Some(opener) => tail_for(alloc, tokens, opener),
        None => Err(tokens.refuse()),
    }
}

// ---- the whole item

fn plain_item(alloc: Global, first: Word, name: Word, tail: PlainTail) -> Result<Item, AllocError>
    ensures { IfOk result (λ x. x ≡ spec.made_named_item (first, NameTail.Plain name tail)) }
{
    match tail {
        PlainTail::Instances(pins, more) => {
            let list = with_first(alloc, One { name, pins }, more)?;
            Ok(Item::Inst(Inst {
                of_module: first,
                params: None,
                list,
            }))
        }
        PlainTail::Variables(more) => {
            let all = with_first(alloc, name, more)?;
            Ok(Item::Variable(TypeTree::Named(first, Items::new(alloc)), all))
        }
    }
}

fn item_of(alloc: Global, first: Word, tail: NameTail) -> Result<Item, AllocError>
    ensures { IfOk result (λ x. x ≡ spec.made_named_item (first, tail)) }
{
    match tail {
        NameTail::Overridden(params, list) => Ok(Item::Inst(Inst {
            of_module: first,
            params: Some(params),
            list,
        })),
        NameTail::Ranged(ranges, all) => Ok(Item::Variable(TypeTree::Named(first, ranges), all)),
        NameTail::Plain(name, tail) => plain_item(alloc, first, name, tail),
    }
}

/// What begins with a name: instances of a module (A.4.1.1, module_instantiation), or variables of a type that has
/// a name.
#[tactic(auto, unfolding(crate::specs::Instances::named_item))]
pub fn named_item(alloc: Global, tokens: &mut Cursor<'_>) -> Result<Item, ParseErr>
    ensures { Reads (spec.named_item tokens.old) result tokens.new }
{
    let first = tokens.id(alloc)?;
    let tail = name_tail(alloc, tokens)?;
    let whole = item_of(alloc, first, tail)?;
    Ok(whole)
}
