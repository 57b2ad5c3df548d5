// Cuts a text into tokens, and counts places and lines. It stands at a token or a gap and takes the longest form that begins
// there, so what is cut is decided from the left without going back. Each token is made with its line, for the directives,
// which end with their line; `lex` drops the lines afterwards, so that the loop and its proof stand once.
ghost use Rattle.std.specs.Prelude.{◌≡◌, ◌≤◌, ◌<◌, ◌+◌, ◌++◌, ◌∷◌, ◌^◌, [], length, take, drop, map, ℕ, List, if◌then◌else◌, IfOk, OnOk, IfErr, IsErr};
ghost use Rattle.sv_outside.specs.declared.refusal.Refusal.{Refusal};
ghost use Rattle.sv_outside.specs.declared.text.Token.{Token};
ghost use Rattle.sv_token.specs.Cut as cut;
ghost use Rattle.sv_token.specs.declared.lexer.Lined.{Lined};
ghost use Rattle.sv_token.specs.Result.{GivesOnly, IfRefused};
ghost use Rattle.sv_outside.specs.declared.refusal.TextErr.TheVariants.{No};

use crate::Front;
use crate::bytes::may_stand;
use crate::front::front_of;
use std::alloc::{AllocError, Global};
use sv_outside::{FILE_START, Kind, MOST_BYTES, Name, Place, Refusal, TextErr, Token, refusals};

const MOST_TOKENS: usize = 4_000_000;

// The place behind these bytes.
#[tactic(auto, unfolding(crate::specs::Cut::past))]
fn past(place: Place, text: &[u8]) -> Place
    requires line { place.line + length text.now < 2 ^ 64 }
    requires column { place.column + length text.now < 2 ^ 64 }
    ensures { result ≡ cut.past place text.now }
{
    let mut place = place;
    let mut rest = text;
    while let [b, after @ ..] = rest {
        if *b == b'\n' {
            place.line += 1;
            place.column = 1;
        } else {
            place.column += 1;
        }
        rest = after;
    }
    place
}

// The place and the bytes behind so many.
fn beyond(place: Place, rest: &[u8], len: usize) -> (Place, &[u8])
    requires within { len ≤ length rest.now }
    requires line { place.line + length rest.now < 2 ^ 64 }
    requires column { place.column + length rest.now < 2 ^ 64 }
    ensures place { result.0 ≡ cut.past place (take len rest.now) }
    ensures rest { result.1.now ≡ drop len rest.now }
{
    let (piece, after) = rest.split_at(len);
    (past(place, piece), after)
}

fn no(number: u8, place: Place) -> TextErr
    ensures { result ≡ No (cut.refused number place) }
{
    TextErr::No(Refusal {
        number,
        place,
        count: 0,
    })
}

// Why nothing starts with this byte.
fn reason(byte: u8) -> u8
    ensures { result ≡ cut.reason byte }
{
    if may_stand(byte) {
        refusals::BAD_TOKEN
    } else {
        refusals::BAD_BYTE
    }
}

/// The place behind the last byte of a file of at most 16,777,216 bytes.
pub fn end_of(file: usize, text: &[u8]) -> Place
    requires { length text.now ≤ cut.most_bytes }
    ensures { result ≡ cut.past (cut.start file) text.now }
{
    let start = Place { file, ..FILE_START };
    past(start, text)
}

/// A token and the number of its line, from 1, where a line end inside a comment does not count.
#[derive(Drop)]
pub struct Lined {
    pub token: Token,
    pub line: usize,
}

// Whether this byte at the front of a gap ends a line: a comment begins with another.
fn ends_line(first: u8) -> bool
    ensures { result ≡ cut.is_end_of_line first }
{
    first == b'\n'
}

fn line_behind(line: usize, first: u8) -> usize
    requires { line < 2 ^ 32 }
    ensures { result ≡ (if cut.is_end_of_line first then line + 1 else line) }
{
    if ends_line(first) { line + 1 } else { line }
}

// Writes a token and the number of its line behind those that are there.
fn put_piece(
    alloc: Global,
    kind: Kind,
    piece: &[u8],
    place: Place,
    line: usize,
    tokens: &mut Vec<Lined>,
) -> Result<(), AllocError>
    ensures { OnOk result (tokens.new.items ≡ tokens.old.items ++ (record { token = record { kind = kind; text = piece.now; place = place }; line = line }) ∷ []) }
{
    let text = Name::new(alloc, piece)?;
    let token = Token { kind, text, place };
    tokens.push(Lined { token, line })?;
    Ok(())
}

/// The tokens of a text as `lex` gives them, each with its line: for directives, which end with the line.
pub fn lex_lines(alloc: Global, file: usize, text: &[u8]) -> Result<Vec<Lined>, TextErr>
    ensures cut { IfOk result (λ lines. cut.LexesLines file text.now lines.items) }
    ensures within { IfOk result (λ lines. cut.IsWithin text.now lines.items) }

    // The cause of a refusal holds, and where one holds there are no tokens.
    ensures refused { IfErr result (IfRefused (cut.IsRefused file text.now)) }
    ensures faulty { (refusal : Refusal) → cut.IsRefused file text.now refusal → IsErr result }

    // No other text is refused, and there are no other tokens.
    ensures only { (lines : List Lined) → cut.LexesLines file text.now lines → cut.IsWithin text.now lines → GivesOnly (λ v. v.items) result lines }
{
    let mut place = Place { file, ..FILE_START };
    if text.len() > MOST_BYTES {
        return Err(no(refusals::TOO_LONG, place));
    }
    let mut line = 1;
    let mut tokens = Vec::new(alloc);
    let mut rest = text;
    'cut: while let Some((first, _after)) = rest.split_first() {
        match front_of(rest) {
            Front::Nothing => return Err(no(reason(*first), place)),
            Front::Gap(len) => {
                line = line_behind(line, *first);
                let (place_behind, after) = beyond(place, rest, len);
                place = place_behind;
                rest = after;
            }
            Front::Piece(kind, len) => {
                if tokens.len() == MOST_TOKENS {
                    return Err(no(refusals::TOO_LONG, place));
                }
                put_piece(alloc, kind, &rest[..len], place, line, &mut tokens)?;
                let (place_behind, after) = beyond(place, rest, len);
                place = place_behind;
                rest = after;
            }
        }
    }
    Ok(tokens)
}

fn without_lines(alloc: Global, lines: Vec<Lined>) -> Result<Vec<Token>, AllocError>
    ensures { IfOk result (λ tokens. tokens.items ≡ map (λ a. a.token) lines.items) }
{
    let mut tokens = Vec::new(alloc);
    'strip: for lined in lines {
        tokens.push(lined.token)?;
    }
    Ok(tokens)
}

/// The tokens of the text of the file with that number: the longest matches from the left, to the last byte.
/// A place has its line and column from 1, columns in bytes. A line ends at a line feed, and a carriage return directly before it belongs to its end.
/// Refused are E1, a byte that may not stand there; E2, where no token starts, or a comment or a quoted text is not ended; and E4,
/// over 16,777,216 bytes, at 1:1, or over 4,000,000 tokens, at the token.
pub fn lex(alloc: Global, file: usize, text: &[u8]) -> Result<Vec<Token>, TextErr>
    ensures cut { IfOk result (λ tokens. cut.Lexes file text.now tokens.items) }
    ensures within { IfOk result (λ tokens. cut.IsWithin text.now tokens.items) }

    // The cause of a refusal holds, and where one holds there are no tokens.
    ensures refused { IfErr result (IfRefused (cut.IsRefused file text.now)) }
    ensures faulty { (refusal : Refusal) → cut.IsRefused file text.now refusal → IsErr result }

    // No other text is refused, and there are no other tokens.
    ensures only { (tokens : List Token) → cut.Lexes file text.now tokens → cut.IsWithin text.now tokens → GivesOnly (λ v. v.items) result tokens }
{
    let lines = lex_lines(alloc, file, text)?;
    let tokens = without_lines(alloc, lines)?;
    Ok(tokens)
}

/// A text has at most one list of tokens.
pub fn one_list()
    ensures { (file : ℕ) (text : List ℕ) (tokens others : List Token) → cut.Lexes file text tokens → cut.Lexes file text others → tokens ≡ others }
{}
