// The types `int` and `bit`, which have no unknown values (IEEE 1800-2017, 6.11) and stand only in parameters and in the loops
// of blocks. Where reading stops at such a word, its refusal depends on whether `logic` could stand there, so the tokens before
// it are read once more with `logic` behind them. That costs a second reading of the text, but only on the way to a refusal.
ghost use Rattle.std.specs.Prelude.{◌≡◌, IfOk};
ghost use Rattle.sv_parser.specs.Source as text;
ghost use Rattle.sv_parser.specs.TwoState as spec;

use crate::source::source;
use std::alloc::{AllocError, Global};
use sv_cursor::{Cursor, Keyword, ParseErr, Sort, sort_of};
use sv_outside::{Kind, Name, Place, Token};

fn is_two_state_word(word: Keyword) -> bool
    ensures { result ≡ spec.is_two_state_word word }
{
    match word {
        Keyword::Int => true,
        Keyword::Bit => true,
        _ => false,
    }
}

fn is_two_state(sort: Sort) -> bool
    ensures { result ≡ spec.is_two_state sort }
{
    match sort {
        Sort::Keyword(word) => is_two_state_word(word),
        _ => false,
    }
}

fn copied(token: &Token) -> Result<Token, AllocError>
    ensures { IfOk result (λ copy. copy ≡ token.now) }
{
    Ok(Token {
        kind: token.kind,
        text: token.text.copy()?,
        place: token.place,
    })
}

#[tactic(auto, unfolding(crate::specs::TwoState::logic_at))]
fn logic_at(alloc: Global, place: Place) -> Result<Token, AllocError>
    ensures { IfOk result (λ word. word ≡ spec.logic_at place) }
{
    Ok(Token {
        kind: Kind::Word,
        text: Name::new(alloc, b"logic")?,
        place,
    })
}

fn all_copied(alloc: Global, tokens: &[Token]) -> Result<Vec<Token>, AllocError>
    ensures { IfOk result (λ copy. copy.items ≡ tokens.now) }
{
    let mut copy = Vec::new(alloc);
    'token: for token in tokens {
        copy.push(copied(token)?)?;
    }
    Ok(copy)
}

// The tokens, and `logic` behind them.
fn with_logic(alloc: Global, tokens: &[Token], place: Place) -> Result<Vec<Token>, AllocError>
    ensures { IfOk result (λ all. all.items ≡ spec.with_logic tokens.now place) }
{
    let mut all = all_copied(alloc, tokens)?;
    all.push(logic_at(alloc, place)?)?;
    Ok(all)
}

// Whether a refusal stands at the last token.
#[tactic(auto, using(crate::proofs::TwoStates::syntax_real, crate::proofs::TwoStates::deep_real))]
fn is_at_last(refusal: ParseErr) -> Result<bool, AllocError>
    ensures { spec.IsAtLast refusal result }
{
    match refusal {
        ParseErr::Syntax(left) => Ok(left == 1),
        ParseErr::TooDeep(_, _) => Ok(false),
        ParseErr::Memory => Err(AllocError),
    }
}

// Whether reading stops at the last of the tokens.
#[tactic(auto, using(crate::proofs::TwoStates::goes_by, crate::proofs::TwoStates::stops_by))]
fn stops_at_last(alloc: Global, tokens: &[Token]) -> Result<bool, AllocError>
    ensures { IfOk result (λ stops. stops ≡ spec.stops_at_last (text.source tokens.now)) }
{
    let mut cursor = Cursor::new(tokens);
    match source(alloc, &mut cursor) {
        Ok(_) => Ok(false),
        Err(refusal) => is_at_last(refusal),
    }
}

// Whether `logic` could be read behind the tokens.
fn takes_logic(alloc: Global, tokens: &[Token], place: Place) -> Result<bool, AllocError>
    ensures { IfOk result (λ takes. takes ≡ spec.takes_logic tokens.now place) }
{
    let all = with_logic(alloc, tokens, place)?;
    let stops = stops_at_last(alloc, all.as_slice())?;
    Ok(!stops)
}

/// Whether the token with that number is `int` or `bit`, and `logic` could be read in its place.
pub fn is_two_state_type(alloc: Global, tokens: &[Token], at: usize) -> Result<bool, AllocError>
    ensures { IfOk result (λ is. is ≡ spec.is_two_state_type tokens.now at) }
{
    match tokens.get(at) {
        Some(token) => {
            if is_two_state(sort_of(token)) {
                takes_logic(alloc, &tokens[..at], token.place)
            } else {
                Ok(false)
            }
        }
        None => Ok(false),
    }
}
