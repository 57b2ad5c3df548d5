// Modules and whole texts are read (IEEE 1800-2017, A.1.2 and A.1.3). What stands behind a part of a module is read by a
// function of its own, and the tree is put together from the parts at the end. Modules do not nest, so no reader has to be
// handed in here, and the parts of a text are a plain loop.
ghost use Rattle.std.specs.Prelude.{◌≡◌, is_some};
ghost use Rattle.sv_cursor.specs.Parsers as parser;
ghost use Rattle.sv_cursor.specs.Parsers.{Reads, told, ◌⊗◌};
ghost use Rattle.sv_cursor.specs.Tests as test;
ghost use Rattle.sv_word_parser.specs.Combined.{◌▸◌, sort_test, word_test};
ghost use Rattle.sv_stmt_parser.specs.Targets as targets;
ghost use Rattle.sv_item_parser.specs.Items as spec_items;
ghost use Rattle.sv_type_parser.specs.Lists as list;
ghost use Rattle.sv_type_parser.specs.Params as params_spec;
ghost use Rattle.sv_parser.specs.Source as spec;
ghost use Rattle.sv_word_parser.specs.Words as words;

use items::{Items, both};
use std::alloc::Global;
use sv_cursor::{Cursor, Keyword, Mark, ParseErr, Sort};
use sv_item_parser::{item, sees_item};
use sv_stmt_parser::label_behind;
use sv_tree::{Item, Module, ParPort, Port, Source, SourcePart, Word};
use sv_type_parser::{
    MOST_NESTING, keep, more_parts, par_port, param, typed_name, typedef, with_first, with_more,
};
use sv_word_parser::{PartOpener, maybe_net, take_way, way_next};

// ---- the header of a module

#[tactic(auto, unfolding(crate::specs::Source::first_port))]
fn first_port(alloc: Global, tokens: &mut Cursor<'_>) -> Result<Port, ParseErr>
    ensures { Reads (spec.first_port tokens.old) result tokens.new }
{
    let way = take_way(tokens)?;
    let kind = maybe_net(tokens)?;
    let (form, name) = typed_name(alloc, tokens)?;
    Ok(Port {
        way: Some(way),
        kind,
        form,
        name,
    })
}

#[tactic(auto, unfolding(crate::specs::Source::some_ports, crate::specs::Source::more_ports, sv_type_parser::specs::Lists::more, sv_type_parser::specs::Lists::behind_comma))]
fn some_ports(alloc: Global, tokens: &mut Cursor<'_>) -> Result<Items<Port>, ParseErr>
    ensures { Reads (spec.some_ports tokens.old) result tokens.new }
{
    let first = first_port(alloc, tokens)?;
    let more = more_parts::<Port>(alloc, tokens);
    with_more(alloc, first, more)
}

#[tactic(auto, unfolding(crate::specs::Source::ports_inside))]
fn ports_inside(alloc: Global, tokens: &mut Cursor<'_>) -> Result<Items<Port>, ParseErr>
    ensures { Reads (spec.ports_inside tokens.old) result tokens.new }
{
    match way_next(tokens) {
        Some(_) => some_ports(alloc, tokens),
        None => Ok(Items::new(alloc)),
    }
}

#[tactic(auto, unfolding(crate::specs::Source::ports))]
fn ports(alloc: Global, tokens: &mut Cursor<'_>) -> Result<Items<Port>, ParseErr>
    ensures { Reads (spec.ports tokens.old) result tokens.new }
{
    tokens.mark(Mark::LeftParen)?;
    let all = ports_inside(alloc, tokens)?;
    tokens.mark(Mark::RightParen)?;
    Ok(all)
}

#[tactic(auto, unfolding(crate::specs::Source::maybe_ports))]
fn maybe_ports(alloc: Global, tokens: &mut Cursor<'_>) -> Result<Option<Items<Port>>, ParseErr>
    ensures { Reads (spec.maybe_ports tokens.old) result tokens.new }
{
    match tokens.peek_mark(Mark::LeftParen) {
        Some(_) => {
            let all = ports(alloc, tokens)?;
            Ok(Some(all))
        }
        None => Ok(None),
    }
}

// One or more parameters.
fn some_params(
    alloc: Global,
    tokens: &mut Cursor<'_>,
) -> Result<(ParPort, Items<ParPort>), ParseErr>
    ensures { Reads ((params_spec.par_port ⊗ list.more params_spec.par_port) tokens.old) result tokens.new }
{
    let first = par_port(alloc, tokens)?;
    both(first, more_parts::<ParPort>(alloc, tokens))
}

#[tactic(auto, unfolding(crate::specs::Source::params_inside, crate::specs::Source::more_par_ports, sv_type_parser::specs::Lists::more, sv_type_parser::specs::Lists::behind_comma))]
fn params_inside(
    alloc: Global,
    tokens: &mut Cursor<'_>,
) -> Result<(ParPort, Items<ParPort>), ParseErr>
    ensures { Reads (spec.params_inside tokens.old) result tokens.new }
{
    tokens.mark(Mark::Hash)?;
    tokens.mark(Mark::LeftParen)?;
    let all = some_params(alloc, tokens)?;
    let (all, _) = both(all, tokens.mark(Mark::RightParen))?;
    Ok(all)
}

#[tactic(auto, unfolding(crate::specs::Source::params))]
fn params(alloc: Global, tokens: &mut Cursor<'_>) -> Result<Items<ParPort>, ParseErr>
    ensures { Reads (spec.params tokens.old) result tokens.new }
{
    match tokens.peek_mark(Mark::Hash) {
        Some(_) => {
            let (first, more) = params_inside(alloc, tokens)?;
            let all = with_first(alloc, first, more)?;
            Ok(all)
        }
        None => Ok(Items::new(alloc)),
    }
}

// ---- modules

fn body_item(alloc: Global, tokens: &mut Cursor<'_>) -> Result<Item, ParseErr>
    ensures { Reads (spec_items.item 200 tokens.old) result tokens.new }
{
    item(alloc, tokens, MOST_NESTING)
}

fn body(alloc: Global, tokens: &mut Cursor<'_>) -> Result<Items<Item>, ParseErr>
    ensures { Reads (spec_items.items (spec_items.item 200) tokens.old) result tokens.new }
{
    let mut found = Items::new(alloc);
    for _turn in 0..tokens.left() {
        if !sees_item(tokens) {
            return Ok(found);
        }
        let part = body_item(alloc, tokens);
        keep(&mut found, part)?;
    }
    Ok(found)
}

// The items and the label of a module.
type ItemsRest = (Items<Item>, Option<Word>);

// The parameters, the ports, the items and the label of a module.
type ModuleRest = (Items<ParPort>, (Option<Items<Port>>, ItemsRest));

// What stands behind the semicolon of the header.
fn items_rest(alloc: Global, tokens: &mut Cursor<'_>, name: &Word) -> Result<ItemsRest, ParseErr>
    ensures { Reads ((spec_items.items (spec_items.item 200) ⊗ (test.keyword Keyword.Endmodule ▸ targets.label_behind name.now)) tokens.old) result tokens.new }
{
    let items = body(alloc, tokens)?;
    let (items, _) = both(items, tokens.keyword(Keyword::Endmodule))?;
    both(items, label_behind(alloc, tokens, name))
}

// What stands behind the parameters of a module.
fn ports_rest(
    alloc: Global,
    tokens: &mut Cursor<'_>,
    name: &Word,
) -> Result<(Option<Items<Port>>, ItemsRest), ParseErr>
    ensures { Reads ((spec.maybe_ports ⊗ (test.mark Mark.Semicolon ▸ (spec_items.items (spec_items.item 200) ⊗ (test.keyword Keyword.Endmodule ▸ targets.label_behind name.now)))) tokens.old) result tokens.new }
{
    let ports = maybe_ports(alloc, tokens)?;
    let (ports, _) = both(ports, tokens.mark(Mark::Semicolon))?;
    both(ports, items_rest(alloc, tokens, name))
}

// What stands behind the name of a module.
fn module_rest(alloc: Global, tokens: &mut Cursor<'_>, name: &Word) -> Result<ModuleRest, ParseErr>
    ensures { Reads (spec.module_rest name.now tokens.old) result tokens.new }
{
    let params = params(alloc, tokens)?;
    both(params, ports_rest(alloc, tokens, name))
}

/// A module (A.1.2, module_declaration). The cursor stands behind it then.
#[tactic(auto, unfolding(crate::specs::Source::modul))]
fn module(alloc: Global, tokens: &mut Cursor<'_>) -> Result<Module, ParseErr>
    ensures { Reads (spec.modul tokens.old) result tokens.new }
{
    tokens.keyword(Keyword::Module)?;
    let name = tokens.id(alloc)?;
    let (params, (ports, (items, label))) = module_rest(alloc, tokens, &name)?;
    Ok(Module {
        name,
        params,
        ports,
        items,
        label,
    })
}

// ---- whole texts

fn part_of_word(word: Keyword) -> Option<PartOpener>
    ensures { result ≡ words.part_by_word word }
{
    match word {
        Keyword::Module => Some(PartOpener::Module),
        Keyword::Typedef => Some(PartOpener::Typedef),
        Keyword::Parameter => Some(PartOpener::Param),
        Keyword::Localparam => Some(PartOpener::Param),
        _ => None,
    }
}

#[tactic(auto, using(sv_word_parser::proofs::Firsts::word_first))]
fn part_next(tokens: &Cursor<'_>) -> Option<PartOpener>
    ensures { result ≡ told (word_test words.part_by_word) tokens.now }
{
    match tokens.sort() {
        Sort::Keyword(word) => part_of_word(word),
        _ => None,
    }
}

fn sees_part(tokens: &Cursor<'_>) -> bool
    ensures { result ≡ is_some (told (word_test words.part_by_word) tokens.now) }
{
    part_next(tokens).is_some()
}

fn part_for(
    alloc: Global,
    tokens: &mut Cursor<'_>,
    opener: PartOpener,
) -> Result<SourcePart, ParseErr>
    ensures { Reads (spec.part_for opener tokens.old) result tokens.new }
{
    match opener {
        PartOpener::Module => module(alloc, tokens).map(SourcePart::Module),
        PartOpener::Typedef => typedef(alloc, tokens).map(SourcePart::Typedef),
        PartOpener::Param => param(alloc, tokens).map(SourcePart::Param),
    }
}

#[tactic(auto, unfolding(crate::specs::Source::part))]
fn part(alloc: Global, tokens: &mut Cursor<'_>) -> Result<SourcePart, ParseErr>
    ensures { Reads (spec.part tokens.old) result tokens.new }
{
    match part_next(tokens) {
        Some(opener) => part_for(alloc, tokens, opener),
        None => Err(tokens.refuse()),
    }
}

fn all_parts(alloc: Global, tokens: &mut Cursor<'_>) -> Result<Items<SourcePart>, ParseErr>
    ensures { Reads (list.while_told (word_test words.part_by_word) spec.part tokens.old) result tokens.new }
{
    let mut found = Items::new(alloc);
    for _turn in 0..tokens.left() {
        if !sees_part(tokens) {
            return Ok(found);
        }
        let part = part(alloc, tokens);
        keep(&mut found, part)?;
    }
    Ok(found)
}

#[tactic(auto, unfolding(crate::specs::Source::parts, sv_type_parser::specs::Lists::while_told))]
fn parts(alloc: Global, tokens: &mut Cursor<'_>) -> Result<Source, ParseErr>
    ensures { Reads (spec.parts tokens.old) result tokens.new }
{
    let parts = all_parts(alloc, tokens)?;
    Ok(Source { parts })
}

// The tree, where no token is left.
fn ended(tokens: &Cursor<'_>, whole: Source) -> Result<Source, ParseErr>
    ensures { Reads (spec.ended whole tokens.now) result tokens.now }
{
    if tokens.left() == 0 {
        Ok(whole)
    } else {
        Err(tokens.refuse())
    }
}

/// A whole text (A.1.2, source_text), up to the end of the tokens.
#[tactic(auto, unfolding(crate::specs::Source::source))]
pub fn source(alloc: Global, tokens: &mut Cursor<'_>) -> Result<Source, ParseErr>
    ensures { Reads (spec.source tokens.old) result tokens.new }
{
    let whole = parts(alloc, tokens)?;
    ended(tokens, whole)
}
