// Numbers and places of refusals.
ghost use Rattle.std.specs.Prelude.{◌≡◌, slice_get};
ghost use Rattle.sv_cursor.specs.Refusals as spec;

use crate::sort::Sort;
use crate::sorts::{same, sort_of};
use sv_outside::{Kind, Place, Refusal, TextErr, Token, refusals};

#[tactic(auto, unfolding(crate::specs::Refusals::is_listed_mark))]
fn is_listed_mark(text: &[u8]) -> bool
    ensures { result ≡ spec.is_listed_mark text.now }
{
    if same(text, b"===") {
        return true;
    }
    if same(text, b"!==") {
        return true;
    }
    if same(text, b"==?") {
        return true;
    }
    same(text, b"!=?")
}

fn is_other(sort: Sort) -> bool
    ensures { result ≡ spec.is_other sort }
{
    matches!(sort, Sort::Other)
}

fn is_listed(token: &Token) -> bool
    ensures { result ≡ spec.is_listed token.now }
{
    match token.kind {
        Kind::Word => is_other(sort_of(token)),
        Kind::System => is_other(sort_of(token)),
        Kind::Mark => is_listed_mark(token.text.bytes()),
        _ => false,
    }
}

/// The place of the token with that number, and `end` for one behind the last.
pub fn place_at(tokens: &[Token], end: Place, at: usize) -> Place
    ensures { result ≡ spec.place_at tokens.now end at }
{
    match tokens.get(at) {
        Some(token) => token.place,
        None => end,
    }
}

/// The number of the refusal where reading stops at the token with that number: 25 at a reserved word that is in no
/// rule of the grammar, at `===`, `!==`, `==?` and `!=?`, and at a system name that the grammar does not have; else 8.
pub fn syntax_number(tokens: &[Token], at: usize) -> u8
    ensures { result ≡ spec.syntax_number_of (slice_get tokens.now at) }
{
    match tokens.get(at) {
        Some(token) => {
            if is_listed(token) {
                refusals::OUT_OF_SCOPE
            } else {
                refusals::SYNTAX
            }
        }
        None => refusals::SYNTAX,
    }
}

/// A refusal that counts nothing.
pub fn refusal(number: u8, place: Place) -> TextErr
    ensures { result ≡ spec.refused number place }
{
    TextErr::No(Refusal {
        number,
        place,
        count: 0,
    })
}
