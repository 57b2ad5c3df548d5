// Parameters, names with types, and ports are read (IEEE 1800-2017, A.1.3, A.2.1.1 and A.2.4). A type may be left out before a
// name, and a type may be a name itself: of two names the first is the type's, which shows only behind it. So the first name is
// read in either case, and what follows decides.
ghost use Rattle.std.specs.Prelude.{◌≡◌};
ghost use Rattle.sv_cursor.specs.Parsers as parser;
ghost use Rattle.sv_cursor.specs.Parsers.{Reads, ◌⊗◌, told};
ghost use Rattle.sv_cursor.specs.Tests as test;
ghost use Rattle.sv_word_parser.specs.Combined.{sort_test};
ghost use Rattle.sv_type_parser.specs.Forms as forms;
ghost use Rattle.sv_type_parser.specs.Params as spec;
ghost use Rattle.sv_word_parser.specs.Words as words;

use crate::forms::{behind_next, form, given, maybe_range, range, ranges, word_type_next};
use crate::lists::MOST_NESTING;
use crate::parts::{Part, ended_parts};
use items::{Items, both};
use std::alloc::Global;
use sv_cursor::{Cursor, Keyword, Mark, ParseErr, Sort};
use sv_tree::{Expr, ParPort, Param, ParamItem, ParamType, Port, Range, TypeTree, Word};
use sv_word_parser::{
    ParamOpener, maybe_net, maybe_param, maybe_sign, maybe_way, take_param, take_param_bits,
    take_sign, take_whole,
};

// ---- types of parameters

#[tactic(auto, unfolding(crate::specs::Params::whole_type, crate::specs::Forms::maybe_sign))]
fn whole_type(tokens: &mut Cursor<'_>) -> Result<ParamType, ParseErr>
    ensures { Reads (spec.whole_type tokens.old) result tokens.new }
{
    let word = take_whole(tokens)?;
    let sign = maybe_sign(tokens)?;
    Ok(ParamType::Whole(word, sign))
}

#[tactic(auto, unfolding(crate::specs::Params::word_bits, crate::specs::Forms::maybe_sign))]
fn word_bits(alloc: Global, tokens: &mut Cursor<'_>) -> Result<ParamType, ParseErr>
    ensures { Reads (spec.word_bits tokens.old) result tokens.new }
{
    let word = take_param_bits(tokens)?;
    let sign = maybe_sign(tokens)?;
    let range = maybe_range(alloc, tokens)?;
    Ok(ParamType::Bits(Some(word), sign, range))
}

#[tactic(auto, unfolding(crate::specs::Params::sign_bits))]
fn sign_bits(alloc: Global, tokens: &mut Cursor<'_>) -> Result<ParamType, ParseErr>
    ensures { Reads (spec.sign_bits tokens.old) result tokens.new }
{
    let sign = take_sign(tokens)?;
    let range = maybe_range(alloc, tokens)?;
    Ok(ParamType::Bits(None, Some(sign), range))
}

#[tactic(auto, unfolding(crate::specs::Params::range_bits))]
fn range_bits(alloc: Global, tokens: &mut Cursor<'_>) -> Result<ParamType, ParseErr>
    ensures { Reads (spec.range_bits tokens.old) result tokens.new }
{
    let range = range(alloc, tokens)?;
    Ok(ParamType::Bits(None, None, Some(range)))
}

fn param_type_for(
    alloc: Global,
    tokens: &mut Cursor<'_>,
    opener: ParamOpener,
) -> Result<ParamType, ParseErr>
    ensures { Reads (spec.param_type_for opener tokens.old) result tokens.new }
{
    match opener {
        ParamOpener::Whole => whole_type(tokens),
        ParamOpener::Word => word_bits(alloc, tokens),
        ParamOpener::Sign => sign_bits(alloc, tokens),
        ParamOpener::Range => range_bits(alloc, tokens),
    }
}

fn param_type_of_word(word: Keyword) -> Option<ParamOpener>
    ensures { result ≡ words.param_type_by_word word }
{
    match word {
        Keyword::Int => Some(ParamOpener::Whole),
        Keyword::Integer => Some(ParamOpener::Whole),
        Keyword::Bit => Some(ParamOpener::Word),
        Keyword::Logic => Some(ParamOpener::Word),
        Keyword::Reg => Some(ParamOpener::Word),
        Keyword::Signed => Some(ParamOpener::Sign),
        Keyword::Unsigned => Some(ParamOpener::Sign),
        _ => None,
    }
}

fn param_type_of_mark(mark: Mark) -> Option<ParamOpener>
    ensures { result ≡ words.param_type_by_mark mark }
{
    match mark {
        Mark::LeftBracket => Some(ParamOpener::Range),
        _ => None,
    }
}

fn param_type_of(sort: Sort) -> Option<ParamOpener>
    ensures { result ≡ words.param_type_by_sort sort }
{
    match sort {
        Sort::Keyword(word) => param_type_of_word(word),
        Sort::Mark(mark) => param_type_of_mark(mark),
        _ => None,
    }
}

#[tactic(auto, using(sv_word_parser::proofs::Firsts::sort_first))]
fn param_type_next(tokens: &Cursor<'_>) -> Option<ParamOpener>
    ensures { result ≡ told (sort_test words.param_type_by_sort) tokens.now }
{
    param_type_of(tokens.sort())
}

#[tactic(auto, unfolding(crate::specs::Params::maybe_param_type, crate::specs::Params::param_type))]
fn maybe_param_type(alloc: Global, tokens: &mut Cursor<'_>) -> Result<Option<ParamType>, ParseErr>
    ensures { Reads (spec.maybe_param_type tokens.old) result tokens.new }
{
    match param_type_next(tokens) {
        Some(opener) => param_type_for(alloc, tokens, opener).map(Some),
        None => Ok(None),
    }
}

// ---- parameters

// A name, `=` and an expression.
fn named_value(alloc: Global, tokens: &mut Cursor<'_>) -> Result<(Word, Expr), ParseErr>
    ensures { Reads ((parser.token test.id_test ⊗ forms.given) tokens.old) result tokens.new }
{
    let name = tokens.id(alloc)?;
    both(name, given(alloc, tokens))
}

/// A parameter of a module's header (A.1.3, parameter_port_declaration).
#[tactic(auto, unfolding(crate::specs::Params::par_port))]
pub fn par_port(alloc: Global, tokens: &mut Cursor<'_>) -> Result<ParPort, ParseErr>
    ensures { Reads (spec.par_port tokens.old) result tokens.new }
{
    let word = maybe_param(tokens)?;
    let form = maybe_param_type(alloc, tokens)?;
    let (form, (name, value)) = both(form, named_value(alloc, tokens))?;
    Ok(ParPort {
        word,
        form,
        name,
        value,
    })
}

impl Part for ParPort {
    type Tree = ParPort;

    ghost parser = { spec.par_port };

    fn read(alloc: Global, tokens: &mut Cursor<'_>) -> Result<ParPort, ParseErr> {
        par_port(alloc, tokens)
    }
}

#[tactic(auto, unfolding(crate::specs::Params::param_item))]
fn param_item(alloc: Global, tokens: &mut Cursor<'_>) -> Result<ParamItem, ParseErr>
    ensures { Reads (spec.param_item tokens.old) result tokens.new }
{
    let (name, value) = named_value(alloc, tokens)?;
    Ok(ParamItem { name, value })
}

impl Part for ParamItem {
    type Tree = ParamItem;

    ghost parser = { spec.param_item };

    fn read(alloc: Global, tokens: &mut Cursor<'_>) -> Result<ParamItem, ParseErr> {
        param_item(alloc, tokens)
    }
}

/// A declaration of parameters (A.2.1.1, parameter_declaration and local_parameter_declaration).
#[tactic(auto, unfolding(crate::specs::Params::param))]
pub fn param(alloc: Global, tokens: &mut Cursor<'_>) -> Result<Param, ParseErr>
    ensures { Reads (spec.param tokens.old) result tokens.new }
{
    let word = take_param(tokens)?;
    let form = maybe_param_type(alloc, tokens)?;
    let (form, list) = both(form, ended_parts::<ParamItem>(alloc, tokens))?;
    Ok(Param { word, form, list })
}

// ---- names with types

#[tactic(auto, unfolding(crate::specs::Params::behind_type))]
fn behind_type(alloc: Global, tokens: &mut Cursor<'_>) -> Result<(Items<Range>, Word), ParseErr>
    ensures { Reads (spec.behind_type tokens.old) result tokens.new }
{
    let all = ranges(alloc, tokens)?;
    both(all, tokens.id(alloc))
}

fn maybe_behind_type(
    alloc: Global,
    tokens: &mut Cursor<'_>,
) -> Result<Option<(Items<Range>, Word)>, ParseErr>
    ensures { Reads (parser.maybe_read (sort_test words.behind_by_sort) spec.behind_type tokens.old) result tokens.new }
{
    match behind_next(tokens) {
        Some(_) => behind_type(alloc, tokens).map(Some),
        None => Ok(None),
    }
}

#[tactic(auto, unfolding(crate::specs::Params::untyped))]
fn untyped(alloc: Global, tokens: &mut Cursor<'_>) -> Result<(Option<TypeTree>, Word), ParseErr>
    ensures { Reads (spec.untyped tokens.old) result tokens.new }
{
    let first = tokens.id(alloc)?;
    let (first, rest) = both(first, maybe_behind_type(alloc, tokens))?;
    match rest {
        Some((all, name)) => Ok((Some(TypeTree::Named(first, all)), name)),
        None => Ok((None, first)),
    }
}

#[tactic(auto, unfolding(crate::specs::Params::typed))]
fn typed(alloc: Global, tokens: &mut Cursor<'_>) -> Result<(Option<TypeTree>, Word), ParseErr>
    ensures { Reads (spec.typed tokens.old) result tokens.new }
{
    let shape = form(alloc, tokens, MOST_NESTING)?;
    let name = tokens.id(alloc)?;
    Ok((Some(shape), name))
}

/// A type and a name, or a name alone. Of two names the first is the type's.
#[tactic(auto, unfolding(crate::specs::Params::typed_name))]
pub fn typed_name(
    alloc: Global,
    tokens: &mut Cursor<'_>,
) -> Result<(Option<TypeTree>, Word), ParseErr>
    ensures { Reads (spec.typed_name tokens.old) result tokens.new }
{
    match word_type_next(tokens) {
        Some(_) => typed(alloc, tokens),
        None => untyped(alloc, tokens),
    }
}

/// A port of a module's header (A.1.3, ansi_port_declaration).
#[tactic(auto, unfolding(crate::specs::Params::port))]
pub fn port(alloc: Global, tokens: &mut Cursor<'_>) -> Result<Port, ParseErr>
    ensures { Reads (spec.port tokens.old) result tokens.new }
{
    let way = maybe_way(tokens)?;
    let kind = maybe_net(tokens)?;
    let (form, name) = typed_name(alloc, tokens)?;
    Ok(Port {
        way,
        kind,
        form,
        name,
    })
}

impl Part for Port {
    type Tree = Port;

    ghost parser = { spec.port };

    fn read(alloc: Global, tokens: &mut Cursor<'_>) -> Result<Port, ParseErr> {
        port(alloc, tokens)
    }
}
