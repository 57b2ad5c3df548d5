// Types, ranges and enumerators are read (IEEE 1800-2017, A.2.1.3, A.2.2.1 and A.2.5). The next token tells which kind of type
// begins. Only members of structures hold types: their rules take the reader of types as a parameter, so that each is proved by
// itself, and `form` closes the cycle with one depth less.
ghost use Rattle.std.specs.Prelude.{◌≡◌, is_some};
ghost use Rattle.sv_cursor.specs.Parsers as parser;
ghost use Rattle.sv_cursor.specs.Parsers.{Reads, ◌⊗◌, told};
ghost use Rattle.sv_cursor.specs.Tests as test;
ghost use Rattle.sv_word_parser.specs.Combined.{◌▸◌, ◌◂◌, listed, sort_test};
ghost use Rattle.sv_type_parser.specs.Forms as spec;
ghost use Rattle.sv_type_parser.specs.Lists as list;
ghost use Rattle.sv_type_parser.specs.Lists.{Nests};
ghost use Rattle.sv_word_parser.specs.Words as words;

use crate::lists::{MOST_NESTING, expression};
use crate::parts::{Part, all_parts, ended_parts};
use items::{Items, both};
use std::alloc::Global;
use sv_cursor::{Cursor, Keyword, Mark, ParseErr, Sort};
use sv_expr_reader::{boxed, keep, with_more};
use sv_tree::{EnumLabel, Expr, Member, Range, TypeTree, Typedef, Word};
use sv_word_parser::{TypeOpener, maybe_sign, sees, take_bits, take_sign};

// The second expression of a range, between `:` and `]`.
fn right_end(alloc: Global, tokens: &mut Cursor<'_>) -> Result<Expr, ParseErr>
    ensures { Reads ((test.mark Mark.Colon ▸ (spec.expression ◂ test.mark Mark.RightBracket)) tokens.old) result tokens.new }
{
    tokens.mark(Mark::Colon)?;
    let right = expression(alloc, tokens)?;
    tokens.mark(Mark::RightBracket)?;
    Ok(right)
}

/// `[`, two expressions with `:` between them, and `]` (A.2.5, packed_dimension).
#[tactic(auto, unfolding(crate::specs::Forms::range))]
pub fn range(alloc: Global, tokens: &mut Cursor<'_>) -> Result<Range, ParseErr>
    ensures { Reads (spec.range tokens.old) result tokens.new }
{
    let place = tokens.mark(Mark::LeftBracket)?;
    let left = expression(alloc, tokens)?;
    let right = right_end(alloc, tokens)?;
    Ok(Range { place, left, right })
}

/// The ranges that stand here.
pub fn ranges(alloc: Global, tokens: &mut Cursor<'_>) -> Result<Items<Range>, ParseErr>
    ensures { Reads (spec.ranges tokens.old) result tokens.new }
{
    let mut found = Items::new(alloc);
    for _turn in 0..tokens.left() {
        if !sees(tokens, Mark::LeftBracket) {
            return Ok(found);
        }
        let part = range(alloc, tokens);
        keep(&mut found, part)?;
    }
    Ok(found)
}

/// A range, where one comes next.
#[tactic(auto, unfolding(crate::specs::Forms::range_if))]
pub fn maybe_range(alloc: Global, tokens: &mut Cursor<'_>) -> Result<Option<Range>, ParseErr>
    ensures { Reads (spec.range_if tokens.old) result tokens.new }
{
    match tokens.peek_mark(Mark::LeftBracket) {
        Some(_) => range(alloc, tokens).map(Some),
        None => Ok(None),
    }
}

/// `=` and an expression.
#[tactic(auto, unfolding(crate::specs::Forms::given))]
pub fn given(alloc: Global, tokens: &mut Cursor<'_>) -> Result<Expr, ParseErr>
    ensures { Reads (spec.given tokens.old) result tokens.new }
{
    tokens.mark(Mark::Assign)?;
    expression(alloc, tokens)
}

fn maybe_given(alloc: Global, tokens: &mut Cursor<'_>) -> Result<Option<Expr>, ParseErr>
    ensures { Reads (parser.maybe_read (test.mark_test Mark.Assign) spec.given tokens.old) result tokens.new }
{
    match tokens.peek_mark(Mark::Assign) {
        Some(_) => given(alloc, tokens).map(Some),
        None => Ok(None),
    }
}

#[tactic(auto, unfolding(crate::specs::Forms::enum_label))]
fn enum_label(alloc: Global, tokens: &mut Cursor<'_>) -> Result<EnumLabel, ParseErr>
    ensures { Reads (spec.enum_label tokens.old) result tokens.new }
{
    let name = tokens.id(alloc)?;
    let value = maybe_given(alloc, tokens)?;
    Ok(EnumLabel { name, value })
}

impl Part for EnumLabel {
    type Tree = EnumLabel;

    ghost parser = { spec.enum_label };

    fn read(alloc: Global, tokens: &mut Cursor<'_>) -> Result<EnumLabel, ParseErr> {
        enum_label(alloc, tokens)
    }
}

// ---- types that hold no types

#[tactic(auto, unfolding(crate::specs::Forms::word_vector, crate::specs::Forms::maybe_sign))]
fn word_vector(alloc: Global, tokens: &mut Cursor<'_>) -> Result<TypeTree, ParseErr>
    ensures { Reads (spec.word_vector tokens.old) result tokens.new }
{
    let word = take_bits(tokens)?;
    let sign = maybe_sign(tokens)?;
    let all = ranges(alloc, tokens)?;
    Ok(TypeTree::Vector(Some(word), sign, all))
}

#[tactic(auto, unfolding(crate::specs::Forms::sign_vector))]
fn sign_vector(alloc: Global, tokens: &mut Cursor<'_>) -> Result<TypeTree, ParseErr>
    ensures { Reads (spec.sign_vector tokens.old) result tokens.new }
{
    let sign = take_sign(tokens)?;
    let all = ranges(alloc, tokens)?;
    Ok(TypeTree::Vector(None, Some(sign), all))
}

#[tactic(auto, unfolding(crate::specs::Forms::range_vector))]
fn range_vector(alloc: Global, tokens: &mut Cursor<'_>) -> Result<TypeTree, ParseErr>
    ensures { Reads (spec.range_vector tokens.old) result tokens.new }
{
    let first = range(alloc, tokens)?;
    let more = ranges(alloc, tokens);
    let all = with_more(alloc, first, more)?;
    Ok(TypeTree::Vector(None, None, all))
}

#[tactic(auto, unfolding(crate::specs::Forms::whole))]
fn whole(tokens: &mut Cursor<'_>) -> Result<TypeTree, ParseErr>
    ensures { Reads (spec.whole tokens.old) result tokens.new }
{
    tokens.keyword(Keyword::Integer)?;
    Ok(TypeTree::Integer)
}

// The enumerators in braces.
fn braced_labels(alloc: Global, tokens: &mut Cursor<'_>) -> Result<Items<EnumLabel>, ParseErr>
    ensures { Reads (list.braced (listed spec.enum_label) tokens.old) result tokens.new }
{
    tokens.mark(Mark::LeftBrace)?;
    let all = all_parts::<EnumLabel>(alloc, tokens)?;
    tokens.mark(Mark::RightBrace)?;
    Ok(all)
}

// The range of an enumeration, and the enumerators.
#[tactic(auto, unfolding(crate::specs::Forms::range_if))]
fn enum_body(
    alloc: Global,
    tokens: &mut Cursor<'_>,
) -> Result<(Option<Range>, Items<EnumLabel>), ParseErr>
    ensures { Reads ((parser.maybe_read (test.mark_test Mark.LeftBracket) spec.range ⊗ list.braced (listed spec.enum_label)) tokens.old) result tokens.new }
{
    let base = maybe_range(alloc, tokens)?;
    both(base, braced_labels(alloc, tokens))
}

#[tactic(auto, unfolding(crate::specs::Forms::enumeration, crate::specs::Forms::maybe_sign))]
fn enumeration(alloc: Global, tokens: &mut Cursor<'_>) -> Result<TypeTree, ParseErr>
    ensures { Reads (spec.enumeration tokens.old) result tokens.new }
{
    tokens.keyword(Keyword::Enum)?;
    let word = take_bits(tokens)?;
    let sign = maybe_sign(tokens)?;
    let (base, all) = enum_body(alloc, tokens)?;
    Ok(TypeTree::Enum(word, sign, base, all))
}

#[tactic(auto, unfolding(crate::specs::Forms::named))]
fn named(alloc: Global, tokens: &mut Cursor<'_>) -> Result<TypeTree, ParseErr>
    ensures { Reads (spec.named tokens.old) result tokens.new }
{
    let name = tokens.id(alloc)?;
    let all = ranges(alloc, tokens)?;
    Ok(TypeTree::Named(name, all))
}

// ---- types that hold types

fn type_of_word(word: Keyword) -> Option<TypeOpener>
    ensures { result ≡ words.type_by_word word }
{
    match word {
        Keyword::Logic => Some(TypeOpener::Word),
        Keyword::Reg => Some(TypeOpener::Word),
        Keyword::Signed => Some(TypeOpener::Sign),
        Keyword::Unsigned => Some(TypeOpener::Sign),
        Keyword::Integer => Some(TypeOpener::Integer),
        Keyword::Struct => Some(TypeOpener::Struct),
        Keyword::Enum => Some(TypeOpener::Enum),
        _ => None,
    }
}

fn type_of_mark(mark: Mark) -> Option<TypeOpener>
    ensures { result ≡ words.type_by_mark mark }
{
    match mark {
        Mark::LeftBracket => Some(TypeOpener::Range),
        _ => None,
    }
}

fn type_of(sort: Sort) -> Option<TypeOpener>
    ensures { result ≡ words.type_by_sort sort }
{
    match sort {
        Sort::Keyword(word) => type_of_word(word),
        Sort::Mark(mark) => type_of_mark(mark),
        Sort::Id => Some(TypeOpener::Name),
        _ => None,
    }
}

fn word_type_of(sort: Sort) -> Option<TypeOpener>
    ensures { result ≡ words.word_type_by_sort sort }
{
    match sort {
        Sort::Keyword(word) => type_of_word(word),
        Sort::Mark(mark) => type_of_mark(mark),
        _ => None,
    }
}

fn behind_of(sort: Sort) -> Option<TypeOpener>
    ensures { result ≡ words.behind_by_sort sort }
{
    match sort {
        Sort::Mark(mark) => type_of_mark(mark),
        Sort::Id => Some(TypeOpener::Name),
        _ => None,
    }
}

/// What the next token begins of a type.
#[tactic(auto, using(sv_word_parser::proofs::Firsts::sort_first))]
pub fn type_next(tokens: &Cursor<'_>) -> Option<TypeOpener>
    ensures { result ≡ told (sort_test words.type_by_sort) tokens.now }
{
    type_of(tokens.sort())
}

/// What the next token begins of a type that does not begin with a name.
#[tactic(auto, using(sv_word_parser::proofs::Firsts::sort_first))]
pub fn word_type_next(tokens: &Cursor<'_>) -> Option<TypeOpener>
    ensures { result ≡ told (sort_test words.word_type_by_sort) tokens.now }
{
    word_type_of(tokens.sort())
}

/// What the next token goes on with behind a name that is a type's.
#[tactic(auto, using(sv_word_parser::proofs::Firsts::sort_first))]
pub fn behind_next(tokens: &Cursor<'_>) -> Option<TypeOpener>
    ensures { result ≡ told (sort_test words.behind_by_sort) tokens.now }
{
    behind_of(tokens.sort())
}

fn sees_type(tokens: &Cursor<'_>) -> bool
    ensures { result ≡ is_some (told (sort_test words.type_by_sort) tokens.now) }
{
    type_next(tokens).is_some()
}

/// Names, and the semicolon behind them.
#[tactic(auto, unfolding(crate::specs::Forms::names))]
pub fn ended_names(alloc: Global, tokens: &mut Cursor<'_>) -> Result<Items<Word>, ParseErr>
    ensures { Reads ((spec.names ◂ test.mark Mark.Semicolon) tokens.old) result tokens.new }
{
    ended_parts::<Word>(alloc, tokens)
}

// The ranges behind the members of a structure.
fn ranges_behind(alloc: Global, tokens: &mut Cursor<'_>) -> Result<Items<Range>, ParseErr>
    ensures { Reads ((test.mark Mark.RightBrace ▸ spec.ranges) tokens.old) result tokens.new }
{
    tokens.mark(Mark::RightBrace)?;
    ranges(alloc, tokens)
}

/// The rules of types, over a reader of the types of members.
#[derive(Drop)]
struct Types<F> {
    alloc: Global,
    /// How many types may hold a token of a part.
    depth: u8,
    /// Reads a type to a depth.
    form: F,
}

impl<F: Fn(Global, &mut Cursor<'_>, u8) -> Result<TypeTree, ParseErr>> Types<F> {
    #[tactic(auto, unfolding(crate::specs::Forms::member))]
    fn member(&self, tokens: &mut Cursor<'_>) -> Result<Member, ParseErr>
        requires { Nests (spec.form self.now.depth) self.now.depth (F.pre self.now.form) (F.post self.now.form) }
        ensures { Reads (spec.member (spec.form self.now.depth) tokens.old) result tokens.new }
    {
        let form = boxed(self.alloc, (self.form)(self.alloc, tokens, self.depth))?;
        let all = ended_names(self.alloc, tokens)?;
        Ok(Member::Of(form, all))
    }

    fn more_members(&self, tokens: &mut Cursor<'_>) -> Result<Items<Member>, ParseErr>
        requires { Nests (spec.form self.now.depth) self.now.depth (F.pre self.now.form) (F.post self.now.form) }
        ensures { Reads (list.while_told (sort_test words.type_by_sort) (spec.member (spec.form self.now.depth)) tokens.old) result tokens.new }
    {
        let mut found = Items::new(self.alloc);
        for _turn in 0..tokens.left() {
            if !sees_type(tokens) {
                return Ok(found);
            }
            let part = self.member(tokens);
            keep(&mut found, part)?;
        }
        Ok(found)
    }

    #[tactic(auto, unfolding(crate::specs::Forms::members, crate::specs::Lists::while_told))]
    fn members(&self, tokens: &mut Cursor<'_>) -> Result<Items<Member>, ParseErr>
        requires { Nests (spec.form self.now.depth) self.now.depth (F.pre self.now.form) (F.post self.now.form) }
        ensures { Reads (spec.members (spec.form self.now.depth) tokens.old) result tokens.new }
    {
        let first = self.member(tokens)?;
        let more = self.more_members(tokens);
        with_more(self.alloc, first, more)
    }

    // The members of a structure in braces, and the ranges behind them.
    fn body(&self, tokens: &mut Cursor<'_>) -> Result<(Items<Member>, Items<Range>), ParseErr>
        requires { Nests (spec.form self.now.depth) self.now.depth (F.pre self.now.form) (F.post self.now.form) }
        ensures { Reads ((test.mark Mark.LeftBrace ▸ (spec.members (spec.form self.now.depth) ⊗ (test.mark Mark.RightBrace ▸ spec.ranges))) tokens.old) result tokens.new }
    {
        tokens.mark(Mark::LeftBrace)?;
        let all = self.members(tokens)?;
        both(all, ranges_behind(self.alloc, tokens))
    }

    #[tactic(auto, unfolding(crate::specs::Forms::structure, crate::specs::Forms::maybe_sign))]
    fn structure(&self, tokens: &mut Cursor<'_>) -> Result<TypeTree, ParseErr>
        requires { Nests (spec.form self.now.depth) self.now.depth (F.pre self.now.form) (F.post self.now.form) }
        ensures { Reads (spec.structure (spec.form self.now.depth) tokens.old) result tokens.new }
    {
        tokens.keyword(Keyword::Struct)?;
        tokens.keyword(Keyword::Packed)?;
        let sign = maybe_sign(tokens)?;
        let (all, behind) = self.body(tokens)?;
        Ok(TypeTree::Struct(sign, all, behind))
    }

    fn type_for(&self, tokens: &mut Cursor<'_>, opener: TypeOpener) -> Result<TypeTree, ParseErr>
        requires { Nests (spec.form self.now.depth) self.now.depth (F.pre self.now.form) (F.post self.now.form) }
        ensures { Reads (spec.type_for (spec.form self.now.depth) opener tokens.old) result tokens.new }
    {
        match opener {
            TypeOpener::Word => word_vector(self.alloc, tokens),
            TypeOpener::Sign => sign_vector(self.alloc, tokens),
            TypeOpener::Range => range_vector(self.alloc, tokens),
            TypeOpener::Integer => whole(tokens),
            TypeOpener::Struct => self.structure(tokens),
            TypeOpener::Enum => enumeration(self.alloc, tokens),
            TypeOpener::Name => named(self.alloc, tokens),
        }
    }

    #[tactic(auto, unfolding(crate::specs::Forms::type_level))]
    fn level(&self, tokens: &mut Cursor<'_>) -> Result<TypeTree, ParseErr>
        requires { Nests (spec.form self.now.depth) self.now.depth (F.pre self.now.form) (F.post self.now.form) }
        ensures { Reads (spec.type_level (spec.form self.now.depth) tokens.old) result tokens.new }
    {
        match type_next(tokens) {
            Some(opener) => self.type_for(tokens, opener),
            None => Err(tokens.refuse()),
        }
    }
}

fn is_name(sort: Sort) -> bool
    ensures { result ≡ test.is_id_sort sort }
{
    matches!(sort, Sort::Id)
}

#[tactic(auto, using(crate::proofs::Words::name_seen))]
fn sees_name(tokens: &Cursor<'_>) -> bool
    ensures { result ≡ is_some (told test.id_test tokens.now) }
{
    is_name(tokens.sort())
}

// Where no type may hold a token: a name alone is no part of the types. With ranges it is one, as the bracket behind it shows.
#[tactic(auto, unfolding(crate::specs::Forms::name_alone))]
fn name_alone(alloc: Global, tokens: &mut Cursor<'_>) -> Result<TypeTree, ParseErr>
    ensures { Reads (spec.name_alone tokens.old) result tokens.new }
{
    if !sees_name(tokens) {
        return Err(tokens.too_deep());
    }
    let left = tokens.left();
    let name = tokens.id(alloc)?;
    if sees(tokens, Mark::LeftBracket) {
        return Err(ParseErr::TooDeep(left, tokens.left()));
    }
    Ok(TypeTree::Named(name, Items::new(alloc)))
}

/// A type (A.2.2.1, data_type), of which at most `depth` hold a token. The cursor stands behind it then.
pub fn form(alloc: Global, tokens: &mut Cursor<'_>, depth: u8) -> Result<TypeTree, ParseErr>
    ensures { Reads (spec.form depth tokens.old) result tokens.new }
{
    if depth == 0 {
        return name_alone(alloc, tokens);
    }
    Types {
        alloc,
        depth: depth - 1,
        form,
    }
    .level(tokens)
}

// A name, and the semicolon behind it.
fn ended_name(alloc: Global, tokens: &mut Cursor<'_>) -> Result<Word, ParseErr>
    ensures { Reads ((parser.token test.id_test ◂ test.mark Mark.Semicolon) tokens.old) result tokens.new }
{
    let name = tokens.id(alloc)?;
    tokens.mark(Mark::Semicolon)?;
    Ok(name)
}

/// `typedef`, a type and its name (A.2.1.3, type_declaration).
#[tactic(auto, unfolding(crate::specs::Forms::typedef))]
pub fn typedef(alloc: Global, tokens: &mut Cursor<'_>) -> Result<Typedef, ParseErr>
    ensures { Reads (spec.typedef tokens.old) result tokens.new }
{
    tokens.keyword(Keyword::Typedef)?;
    let shape = form(alloc, tokens, MOST_NESTING)?;
    let name = ended_name(alloc, tokens)?;
    Ok(Typedef { form: shape, name })
}
