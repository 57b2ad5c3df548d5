// The goals of all tokens.
ghost use Rattle.std.specs.Prelude.{◌≡◌, ◌-◌, Err, length, slice_get};
ghost use Rattle.goal_tree.specs.Parsed as spec;
ghost use Rattle.goal_tree.specs.Parsed.{AreGoals, AreRead};
ghost use Rattle.sv_cursor.specs.Refusals as places;

use crate::reader::Reader;
use crate::source::source;
use crate::tree::GoalTree;
use items::Items;
use std::alloc::Global;
use sv_cursor::{ParseErr, place_at, refusal, syntax_number};
use sv_outside::{Place, TextErr, Token, refusals};

// The goals of all tokens, or where reading stops.
#[tactic(auto, using(crate::proofs::Parsed::read_as))]
fn read(alloc: Global, tokens: &[Token]) -> Result<Items<GoalTree>, ParseErr>
    ensures { AreRead tokens.now result }
{
    let mut reader = Reader::new(tokens);
    source(alloc, &mut reader)
}

// The number of the refusal where reading stops at that token.
#[tactic(auto, unfolding(crate::specs::Parsed::number_of))]
fn number_at(tokens: &[Token], at: usize) -> u8
    ensures { result ≡ spec.number_of (slice_get tokens.now at) }
{
    if syntax_number(tokens, at) == refusals::OUT_OF_SCOPE {
        refusals::OUT_OF_SCOPE
    } else {
        refusals::GOAL_SYNTAX
    }
}

// The number of the refusal where reading stops with so many tokens left.
fn number_before(tokens: &[Token], left: usize) -> u8
    ensures { result ≡ spec.number_of (slice_get tokens.now (length tokens.now - left)) }
{
    number_at(tokens, tokens.len().saturating_sub(left))
}

// The place before so many tokens.
fn place_before(tokens: &[Token], end: Place, left: usize) -> Place
    ensures { result ≡ places.place_at tokens.now end (length tokens.now - left) }
{
    place_at(tokens, end, tokens.len().saturating_sub(left))
}

// The refusal where reading stops with so many tokens left.
fn stopped(tokens: &[Token], end: Place, left: usize) -> TextErr
    requires { AreRead tokens.now (Err (ParseErr.Syntax left)) }
    ensures { AreGoals tokens.now end (Err result) }
{
    refusal(number_before(tokens, left), place_before(tokens, end, left))
}

// The refusal of a token that lies too deep, with so many tokens left from it on.
fn nested(tokens: &[Token], end: Place, deep: usize, left: usize) -> TextErr
    requires { AreRead tokens.now (Err (ParseErr.TooDeep deep left)) }
    ensures { AreGoals tokens.now end (Err result) }
{
    refusal(refusals::TOO_DEEP, place_before(tokens, end, deep))
}

// What a refusal says of all the tokens.
fn refused(tokens: &[Token], end: Place, refusal: ParseErr) -> TextErr
    requires { AreRead tokens.now (Err refusal) }
    ensures { AreGoals tokens.now end (Err result) }
{
    match refusal {
        ParseErr::Syntax(left) => stopped(tokens, end, left),
        ParseErr::TooDeep(deep, left) => nested(tokens, end, deep, left),
        ParseErr::Memory => TextErr::Memory,
    }
}

/// The goals that all of the tokens spell. They spell no others.
///
/// Refused where no goals are spelled by them: as E25 at a reserved word that is in no rule of the grammar, at `===`, `!==`,
/// `==?` or `!=?`, and at a system name that the grammar does not have, and else as E33, at the token at which reading stops, or
/// at the end of the text. As E9 at a token that over 200 expressions hold in all goals whose spelling begins as the tokens do.
/// `Memory` says nothing of the tokens.
#[tactic(auto, using(crate::proofs::Parsed::goals_ok))]
pub fn parse_goals(alloc: Global, tokens: &[Token], end: Place) -> Result<Items<GoalTree>, TextErr>
    ensures { AreGoals tokens.now end result }
{
    match read(alloc, tokens) {
        Ok(goals) => Ok(goals),
        Err(refusal) => Err(refused(tokens, end, refusal)),
    }
}
