// The tree of a whole text, or the refusal with its number and place. Reading itself answers only where it stops, or which
// token lies too deep; which number is refused there is found afterwards from the tokens round that place, so that the readers
// below need to know nothing of numbers. The tokens that are left are turned into a place here, since only here all of them are
// known.
ghost use Rattle.std.specs.Prelude.{◌≡◌, ◌-◌, Err, IfOk, List, length};
ghost use Rattle.sv_cursor.specs.Refusals as places;
ghost use Rattle.sv_parser.specs.Answers.{Decides};
ghost use Rattle.sv_parser.specs.Source as text;
ghost use Rattle.sv_parser.specs.Whole as spec;
ghost use Rattle.sv_parser.specs.Whole.{IsParsed, IsRead};

use crate::source::source;
use crate::two_state::is_two_state_type;
use std::alloc::{AllocError, Global};
use sv_cursor::{Cursor, ParseErr, place_at, refusal, syntax_number};
use sv_outside::{Place, TextErr, Token, Tokens, refusals};
use sv_tree::Source;

// The number of the refusal where reading stops at that token.
#[tactic(auto, unfolding(crate::specs::Whole::number_at))]
fn number_at(alloc: Global, tokens: &[Token], at: usize) -> Result<u8, AllocError>
    ensures { IfOk result (λ number. number ≡ spec.number_at tokens.now at) }
{
    let two_state = is_two_state_type(alloc, tokens, at)?;
    if two_state {
        Ok(25)
    } else {
        Ok(syntax_number(tokens, at))
    }
}

// The tree of all tokens, or where reading stops.
#[tactic(auto, using(crate::proofs::Wholes::read_as))]
fn read(alloc: Global, tokens: &[Token]) -> Result<Source, ParseErr>
    ensures { IsRead tokens.now result }
{
    let mut cursor = Cursor::new(tokens);
    source(alloc, &mut cursor)
}

// The number of the refusal where reading stops with so many tokens left.
fn number_before(alloc: Global, tokens: &[Token], left: usize) -> Result<u8, AllocError>
    ensures { IfOk result (λ number. number ≡ spec.number_at tokens.now (length tokens.now - left)) }
{
    number_at(alloc, tokens, tokens.len().saturating_sub(left))
}

// The place before so many tokens.
fn place_before(tokens: &[Token], end: Place, left: usize) -> Place
    ensures { result ≡ places.place_at tokens.now end (length tokens.now - left) }
{
    place_at(tokens, end, tokens.len().saturating_sub(left))
}

// The refusal where reading stops with so many tokens left.
fn stopped(alloc: Global, tokens: &[Token], end: Place, left: usize) -> TextErr
    requires { IsRead tokens.now (Err (ParseErr.Syntax left)) }
    ensures { IsParsed tokens.now end (Err result) }
{
    match number_before(alloc, tokens, left) {
        Ok(number) => refusal(number, place_before(tokens, end, left)),
        Err(_) => TextErr::Memory,
    }
}

// The refusal of a token that lies too deep, with so many tokens left from it on.
fn nested(tokens: &[Token], end: Place, deep: usize, left: usize) -> TextErr
    requires { IsRead tokens.now (Err (ParseErr.TooDeep deep left)) }
    ensures { IsParsed tokens.now end (Err result) }
{
    refusal(refusals::TOO_DEEP, place_before(tokens, end, deep))
}

// What a refusal says of all the tokens.
fn refused(alloc: Global, tokens: &[Token], end: Place, refusal: ParseErr) -> TextErr
    requires { IsRead tokens.now (Err refusal) }
    ensures { IsParsed tokens.now end (Err result) }
{
    match refusal {
        ParseErr::Syntax(left) => stopped(alloc, tokens, end, left),
        ParseErr::TooDeep(deep, left) => nested(tokens, end, deep, left),
        ParseErr::Memory => TextErr::Memory,
    }
}

// The tree of all tokens, or why there is none.
#[tactic(auto, using(crate::proofs::Wholes::parsed_ok))]
fn parsed(alloc: Global, tokens: &[Token], end: Place) -> Result<Source, TextErr>
    ensures { IsParsed tokens.now end result }
{
    match read(alloc, tokens) {
        Ok(whole) => Ok(whole),
        Err(refusal) => Err(refused(alloc, tokens, end, refusal)),
    }
}

/// The tree that all of the tokens spell (A.1.2, source_text). They spell no other.
///
/// Refused where no tree spells them: as E25 at a reserved word that is in no rule of the grammar, at `===`, `!==`,
/// `==?` or `!=?`, at a system name that the grammar does not have, and at `int` and `bit` where `logic` could be read,
/// and else as E8, at the token at which reading stops, or at the end of the text. As E9 at a token that over 200
/// expressions, statements, generate constructs or types hold in each tree whose spelling begins as the tokens do.
/// `Memory` says nothing of the tokens.
pub fn parse(alloc: Global, tokens: &Tokens) -> Result<Source, TextErr>
    ensures { IsParsed tokens.now.list tokens.now.end result }
{
    parsed(alloc, tokens.list.as_slice(), tokens.end)
}

/// What reading makes of any tokens: the one tree that all of them spell; or no tree does, and none whose spelling begins
/// with them up to the token at which reading stops; or each tree whose spelling begins so is nested too deep.
#[tactic(auto, using(crate::proofs::Laws::decides))]
pub fn texts_are_decided()
    ensures { (tokens : List Token) → Decides tokens (text.source tokens) }
{}
