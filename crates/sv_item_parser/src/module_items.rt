// Blocks of modules, and items that hold no items. Each function reads one production of the grammar, over the functions
// that read its parts, and what the next token begins of an item is told here, since a list of items ends by it. Where no
// generate construct may hold a token, these are all items.
ghost use Rattle.std.specs.Prelude.{◌≡◌, is_some};
ghost use Rattle.sv_cursor.specs.Parsers.{Reads, told, too_deep};
ghost use Rattle.sv_cursor.specs.Tests as test;
ghost use Rattle.sv_word_parser.specs.Combined.{◌◂◌, listed, sort_test};
ghost use Rattle.sv_instance_parser.specs.Instances as instances;
ghost use Rattle.sv_item_parser.specs.Items as spec;
ghost use Rattle.sv_type_parser.specs.Lists as list;
ghost use Rattle.sv_word_parser.specs.Words as words;

use crate::tails::AlwaysTail;
use items::both;
use std::alloc::Global;
use sv_cursor::{Cursor, Keyword, Mark, ParseErr, Sort};
use sv_instance_parser::named_item;
use sv_stmt_parser::{Nested, lvalue, parts, stmt};
use sv_tree::{AssignPair, Block, BlockKind, Event, EventMark, Events, Item, NextEvent, Word};
use sv_type_parser::{
    MOST_NESTING, Part, ended_more, ended_names, ended_parts, form, given, param, typed_name,
    typedef, with_more,
};
use sv_word_parser::{AlwaysWord, ItemOpener, always_next, event_mark_next, take_edge, take_net};

// ---- blocks

#[tactic(auto, unfolding(crate::specs::Items::event))]
fn event(alloc: Global, tokens: &mut Cursor<'_>) -> Result<Event, ParseErr>
    ensures { Reads (spec.event tokens.old) result tokens.new }
{
    let edge = take_edge(tokens)?;
    let name = tokens.id(alloc)?;
    Ok(Event { edge, name })
}

fn or_mark(tokens: &mut Cursor<'_>) -> Result<EventMark, ParseErr>
    ensures { Reads (spec.event_mark_for EventMark.Or tokens.old) result tokens.new }
{
    tokens.keyword(Keyword::Or)?;
    Ok(EventMark::Or)
}

fn comma_mark(tokens: &mut Cursor<'_>) -> Result<EventMark, ParseErr>
    ensures { Reads (spec.event_mark_for EventMark.Comma tokens.old) result tokens.new }
{
    tokens.mark(Mark::Comma)?;
    Ok(EventMark::Comma)
}

#[tactic(auto, unfolding(crate::specs::Items::event_mark))]
fn event_mark(tokens: &mut Cursor<'_>) -> Result<EventMark, ParseErr>
    ensures { Reads (spec.event_mark tokens.old) result tokens.new }
{
    match event_mark_next(tokens) {
        Some(EventMark::Or) => or_mark(tokens),
        Some(EventMark::Comma) => comma_mark(tokens),
        None => Err(tokens.refuse()),
    }
}

/// Reads the events behind the first.
#[derive(Drop)]
struct NextEvents {
    alloc: Global,
}

impl Nested<NextEvent> for NextEvents {
    type Opener = EventMark;

    ghost ready = { λ rules. Unit {0} };

    ghost parser = { λ rules. spec.next_event };

    ghost test = { sort_test words.event_mark_by_sort };

    fn comes(tokens: &Cursor<'_>) -> bool {
        event_mark_next(tokens).is_some()
    }

    #[tactic(auto, unfolding(crate::specs::Items::next_event))]
    fn part(&self, tokens: &mut Cursor<'_>) -> Result<NextEvent, ParseErr> {
        let mark = event_mark(tokens)?;
        let event = event(self.alloc, tokens)?;
        Ok(NextEvent { mark, event })
    }
}

#[tactic(auto, unfolding(crate::specs::Items::events_inside))]
fn events_inside(alloc: Global, tokens: &mut Cursor<'_>) -> Result<Events, ParseErr>
    ensures { Reads (spec.events_inside tokens.old) result tokens.new }
{
    let rules = NextEvents { alloc };
    let first = event(alloc, tokens)?;
    let (first, more) = both(first, parts(alloc, tokens, &rules))?;
    tokens.mark(Mark::RightParen)?;
    Ok(Events { first, more })
}

#[tactic(auto, unfolding(crate::specs::Items::events))]
fn events(alloc: Global, tokens: &mut Cursor<'_>) -> Result<Events, ParseErr>
    ensures { Reads (spec.events tokens.old) result tokens.new }
{
    tokens.mark(Mark::At)?;
    tokens.mark(Mark::LeftParen)?;
    events_inside(alloc, tokens)
}

#[tactic(auto, unfolding(crate::specs::Items::star_inside))]
fn star_inside(tokens: &mut Cursor<'_>) -> Result<AlwaysTail, ParseErr>
    ensures { Reads (spec.star_inside tokens.old) result tokens.new }
{
    tokens.mark(Mark::Star)?;
    tokens.mark(Mark::RightParen)?;
    Ok(AlwaysTail::StarParen)
}

#[tactic(auto, unfolding(crate::specs::Items::always_inside))]
fn always_inside(alloc: Global, tokens: &mut Cursor<'_>) -> Result<AlwaysTail, ParseErr>
    ensures { Reads (spec.always_inside tokens.old) result tokens.new }
{
    match tokens.peek_mark(Mark::Star) {
        Some(_) => star_inside(tokens),
        None => {
            let inside = events_inside(alloc, tokens)?;
            Ok(AlwaysTail::Events(inside))
        }
    }
}

#[tactic(auto, unfolding(crate::specs::Items::star))]
fn star(tokens: &mut Cursor<'_>) -> Result<AlwaysTail, ParseErr>
    ensures { Reads (spec.star tokens.old) result tokens.new }
{
    tokens.mark(Mark::Star)?;
    Ok(AlwaysTail::Star)
}

#[tactic(auto, unfolding(crate::specs::Items::always_tail))]
fn always_tail(alloc: Global, tokens: &mut Cursor<'_>) -> Result<AlwaysTail, ParseErr>
    ensures { Reads (spec.always_tail tokens.old) result tokens.new }
{
    match tokens.peek_mark(Mark::Star) {
        Some(_) => star(tokens),
        None => {
            tokens.mark(Mark::LeftParen)?;
            always_inside(alloc, tokens)
        }
    }
}

fn always_kind(tail: AlwaysTail) -> BlockKind
    ensures { result ≡ spec.made_always_kind tail }
{
    match tail {
        AlwaysTail::Star => BlockKind::Star,
        AlwaysTail::StarParen => BlockKind::StarParen,
        AlwaysTail::Events(all) => BlockKind::Always(all),
    }
}

fn comb_kind(tokens: &mut Cursor<'_>) -> Result<BlockKind, ParseErr>
    ensures { Reads (spec.kind_for AlwaysWord.Comb tokens.old) result tokens.new }
{
    tokens.keyword(Keyword::AlwaysComb)?;
    Ok(BlockKind::Comb)
}

fn latch_kind(tokens: &mut Cursor<'_>) -> Result<BlockKind, ParseErr>
    ensures { Reads (spec.kind_for AlwaysWord.Latch tokens.old) result tokens.new }
{
    tokens.keyword(Keyword::AlwaysLatch)?;
    Ok(BlockKind::Latch)
}

fn ff_kind(alloc: Global, tokens: &mut Cursor<'_>) -> Result<BlockKind, ParseErr>
    ensures { Reads (spec.kind_for AlwaysWord.Ff tokens.old) result tokens.new }
{
    tokens.keyword(Keyword::AlwaysFf)?;
    let all = events(alloc, tokens)?;
    Ok(BlockKind::Ff(all))
}

fn plain_kind(alloc: Global, tokens: &mut Cursor<'_>) -> Result<BlockKind, ParseErr>
    ensures { Reads (spec.kind_for AlwaysWord.Always tokens.old) result tokens.new }
{
    tokens.keyword(Keyword::Always)?;
    tokens.mark(Mark::At)?;
    let tail = always_tail(alloc, tokens)?;
    Ok(always_kind(tail))
}

fn kind_for(alloc: Global, tokens: &mut Cursor<'_>, word: AlwaysWord) -> Result<BlockKind, ParseErr>
    ensures { Reads (spec.kind_for word tokens.old) result tokens.new }
{
    match word {
        AlwaysWord::Comb => comb_kind(tokens),
        AlwaysWord::Latch => latch_kind(tokens),
        AlwaysWord::Ff => ff_kind(alloc, tokens),
        AlwaysWord::Always => plain_kind(alloc, tokens),
    }
}

#[tactic(auto, unfolding(crate::specs::Items::kind))]
fn kind(alloc: Global, tokens: &mut Cursor<'_>) -> Result<BlockKind, ParseErr>
    ensures { Reads (spec.kind tokens.old) result tokens.new }
{
    match always_next(tokens) {
        Some(word) => kind_for(alloc, tokens, word),
        None => Err(tokens.refuse()),
    }
}

/// A block of a module (A.6.2, always_construct).
#[tactic(auto, unfolding(crate::specs::Items::always))]
fn always(alloc: Global, tokens: &mut Cursor<'_>) -> Result<Block, ParseErr>
    ensures { Reads (spec.always tokens.old) result tokens.new }
{
    let kind = kind(alloc, tokens)?;
    let (kind, body) = both(kind, stmt(alloc, tokens, MOST_NESTING))?;
    Ok(Block { kind, body })
}

// ---- items that hold no items

/// One or more nets (A.2.1.3, net_declaration).
#[tactic(auto, unfolding(crate::specs::Items::net, sv_instance_parser::specs::Instances::more_names, sv_type_parser::specs::Lists::more, sv_type_parser::specs::Lists::behind_comma))]
fn net(alloc: Global, tokens: &mut Cursor<'_>) -> Result<Item, ParseErr>
    ensures { Reads (spec.net tokens.old) result tokens.new }
{
    let word = take_net(tokens)?;
    let (form, name) = typed_name(alloc, tokens)?;
    let more = ended_more::<Word>(alloc, tokens);
    let (form, all) = both(form, with_more(alloc, name, more))?;
    Ok(Item::Net(word, form, all))
}

/// One or more variables (A.2.1.3, data_declaration).
#[tactic(auto, unfolding(crate::specs::Items::variable))]
fn variable(alloc: Global, tokens: &mut Cursor<'_>) -> Result<Item, ParseErr>
    ensures { Reads (spec.variable tokens.old) result tokens.new }
{
    let shape = form(alloc, tokens, MOST_NESTING)?;
    let (shape, all) = both(shape, ended_names(alloc, tokens))?;
    Ok(Item::Variable(shape, all))
}

/// One or more loop variables (A.4.2, genvar_declaration).
#[tactic(auto, unfolding(crate::specs::Items::genvar))]
fn genvar(alloc: Global, tokens: &mut Cursor<'_>) -> Result<Item, ParseErr>
    ensures { Reads (spec.genvar tokens.old) result tokens.new }
{
    tokens.keyword(Keyword::Genvar)?;
    ended_names(alloc, tokens).map(Item::Genvar)
}

/// A type that is given a name.
fn typedef_item(alloc: Global, tokens: &mut Cursor<'_>) -> Result<Item, ParseErr>
    ensures { Reads (spec.typedef_item tokens.old) result tokens.new }
{
    typedef(alloc, tokens).map(Item::Typedef)
}

/// Parameters.
fn param_item(alloc: Global, tokens: &mut Cursor<'_>) -> Result<Item, ParseErr>
    ensures { Reads (spec.param_item tokens.old) result tokens.new }
{
    param(alloc, tokens).map(Item::Param)
}

/// A block as an item.
fn always_item(alloc: Global, tokens: &mut Cursor<'_>) -> Result<Item, ParseErr>
    ensures { Reads (spec.always_item tokens.old) result tokens.new }
{
    always(alloc, tokens).map(Item::Always)
}

// Assignments, as parts of a list.
struct Pairs;

impl Part for Pairs {
    type Tree = AssignPair;

    ghost parser = { spec.pair };

    #[tactic(auto, unfolding(crate::specs::Items::pair))]
    fn read(alloc: Global, tokens: &mut Cursor<'_>) -> Result<AssignPair, ParseErr> {
        let target = lvalue(alloc, tokens)?;
        let (target, value) = both(target, given(alloc, tokens))?;
        Ok(AssignPair { target, value })
    }
}

/// One or more assignments (A.6.1, continuous_assign).
#[tactic(auto, unfolding(crate::specs::Items::assigns))]
fn assigns(alloc: Global, tokens: &mut Cursor<'_>) -> Result<Item, ParseErr>
    ensures { Reads (spec.assigns tokens.old) result tokens.new }
{
    tokens.keyword(Keyword::Assign)?;
    ended_parts::<Pairs>(alloc, tokens).map(Item::Assign)
}

// ---- what begins an item

fn item_of_word(word: Keyword) -> Option<ItemOpener>
    ensures { result ≡ words.item_by_word word }
{
    match word {
        Keyword::Wire => Some(ItemOpener::Net),
        Keyword::Tri => Some(ItemOpener::Net),
        Keyword::Logic => Some(ItemOpener::Type),
        Keyword::Reg => Some(ItemOpener::Type),
        Keyword::Signed => Some(ItemOpener::Type),
        Keyword::Unsigned => Some(ItemOpener::Type),
        Keyword::Integer => Some(ItemOpener::Type),
        Keyword::Struct => Some(ItemOpener::Type),
        Keyword::Enum => Some(ItemOpener::Type),
        Keyword::Typedef => Some(ItemOpener::Typedef),
        Keyword::Parameter => Some(ItemOpener::Param),
        Keyword::Localparam => Some(ItemOpener::Param),
        Keyword::Genvar => Some(ItemOpener::Genvar),
        Keyword::Assign => Some(ItemOpener::Assign),
        Keyword::AlwaysComb => Some(ItemOpener::Always),
        Keyword::AlwaysLatch => Some(ItemOpener::Always),
        Keyword::AlwaysFf => Some(ItemOpener::Always),
        Keyword::Always => Some(ItemOpener::Always),
        Keyword::For => Some(ItemOpener::For),
        Keyword::If => Some(ItemOpener::If),
        Keyword::Generate => Some(ItemOpener::Generate),
        _ => None,
    }
}

fn item_of_mark(mark: Mark) -> Option<ItemOpener>
    ensures { result ≡ words.item_by_mark mark }
{
    match mark {
        Mark::LeftBracket => Some(ItemOpener::Type),
        _ => None,
    }
}

fn item_of(sort: Sort) -> Option<ItemOpener>
    ensures { result ≡ words.item_by_sort sort }
{
    match sort {
        Sort::Keyword(word) => item_of_word(word),
        Sort::Mark(mark) => item_of_mark(mark),
        Sort::Id => Some(ItemOpener::Name),
        _ => None,
    }
}

/// What the next token begins of an item.
#[tactic(auto, using(sv_word_parser::proofs::Firsts::sort_first))]
pub fn item_next(tokens: &Cursor<'_>) -> Option<ItemOpener>
    ensures { result ≡ told (sort_test words.item_by_sort) tokens.now }
{
    item_of(tokens.sort())
}

/// Whether an item comes next.
pub fn sees_item(tokens: &Cursor<'_>) -> bool
    ensures { result ≡ is_some (told (sort_test words.item_by_sort) tokens.now) }
{
    item_next(tokens).is_some()
}

/// An item that holds no items, by what its first token begins. A generate construct lies too deep.
pub fn flat_item(
    alloc: Global,
    tokens: &mut Cursor<'_>,
    opener: ItemOpener,
) -> Result<Item, ParseErr>
    ensures { Reads (spec.item_for too_deep too_deep too_deep opener tokens.old) result tokens.new }
{
    match opener {
        ItemOpener::Net => net(alloc, tokens),
        ItemOpener::Type => variable(alloc, tokens),
        ItemOpener::Typedef => typedef_item(alloc, tokens),
        ItemOpener::Param => param_item(alloc, tokens),
        ItemOpener::Genvar => genvar(alloc, tokens),
        ItemOpener::Assign => assigns(alloc, tokens),
        ItemOpener::Always => always_item(alloc, tokens),
        ItemOpener::Name => named_item(alloc, tokens),
        ItemOpener::For | ItemOpener::If | ItemOpener::Generate => Err(tokens.too_deep()),
    }
}
