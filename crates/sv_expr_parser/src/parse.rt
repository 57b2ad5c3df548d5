// The longest expression from a token on, with its end, or why there is none (IEEE 1800-2017, A.8.3). Reading goes on as far as
// it can, and where it is refused at a token, the longest expression ends before that. So shorter fronts are tried from there
// down, at the last places where an expression can end, and the tokens are read about twice and not once for each front.
ghost use Rattle.std.specs.Prelude.{◌≤◌, length};
ghost use Rattle.sv_cursor.specs.Parsers.{Reads};
ghost use Rattle.sv_expr_parser.specs.Parsed.{IsFront, IsLongest, IsParsed, NoneBeyond, Refuses, RefusesFront};
ghost use Rattle.sv_expr_reader.specs.Reading.{expr as expr_read};

use crate::ends::last_end;
use std::alloc::Global;
use sv_cursor::{Cursor, ParseErr, place_at, refusal, syntax_number};
use sv_expr_reader::expr;
use sv_outside::{Place, TextErr, Token, refusals};
use sv_tree::Expr;

/// How many expressions may hold a token (this project's rule).
const MOST_NESTING: u8 = 200;

fn start(alloc: Global, tokens: &mut Cursor<'_>) -> Result<Expr, ParseErr>
    ensures { Reads (expr_read 201 0 tokens.old) result tokens.new }
{
    expr(alloc, tokens, MOST_NESTING + 1, 0)
}

// What the refusal of a front says of all the tokens.
fn refused_front(tokens: &[Token], len: usize, refusal: ParseErr) -> Result<Option<Expr>, ParseErr>
    requires within { len ≤ length tokens.now }
    requires refuses { RefusesFront tokens.now len refusal }
    ensures { IsFront tokens.now len result }
{
    match refusal {
        ParseErr::Syntax(_) => Ok(None),
        ParseErr::TooDeep(deep, left) => {
            Err(ParseErr::TooDeep(deep + (tokens.len() - len), left))
        }
        ParseErr::Memory => Err(ParseErr::Memory),
    }
}

// The expression that the first tokens spell, all of them.
fn front(alloc: Global, tokens: &[Token], len: usize) -> Result<Option<Expr>, ParseErr>
    requires { len ≤ length tokens.now }
    ensures { IsFront tokens.now len result }
{
    let mut cursor = Cursor::new(&tokens[..len]);
    match start(alloc, &mut cursor) {
        Ok(x) => {
            if cursor.left() == 0 {
                Ok(Some(x))
            } else {
                drop(x);
                Ok(None)
            }
        }
        Err(refusal) => refused_front(tokens, len, refusal),
    }
}

// The most tokens behind which an expression can end, where none takes more than so many.
#[tactic(auto, using(crate::proofs::Fronts::up_to_end))]
fn shorter(tokens: &[Token], most: usize) -> usize
    requires within { most ≤ length tokens.now }
    requires none { NoneBeyond tokens.now most }
    ensures within { result ≤ most }
    ensures none { NoneBeyond tokens.now result }
{
    last_end(&tokens[..most])
}

// The longest expression at the front that takes at most so many tokens.
#[tactic(auto, using(crate::proofs::Fronts::longest_found, crate::proofs::Fronts::one_less, crate::proofs::Fronts::front_refuses))]
fn longest_within(
    alloc: Global,
    tokens: &[Token],
    most: usize,
    left: usize,
) -> Result<(Expr, usize), ParseErr>
    requires within { most ≤ length tokens.now }
    requires none { NoneBeyond tokens.now most }
    requires stops { Refuses tokens.now (ParseErr.Syntax left) }
    ensures { IsLongest tokens.now result }
{
    let mut len = shorter(tokens, most);
    while len > 0 {
        if let Some(x) = front(alloc, tokens, len)? {
            return Ok((x, len));
        }
        len = shorter(tokens, len - 1);
    }
    Err(ParseErr::Syntax(left))
}

// What is answered where reading on from the front is refused.
fn or_shorter(alloc: Global, tokens: &[Token], refusal: ParseErr) -> Result<(Expr, usize), ParseErr>
    requires { Refuses tokens.now refusal }
    ensures { IsLongest tokens.now result }
{
    match refusal {
        ParseErr::Syntax(left) => longest_within(alloc, tokens, tokens.len() - left, left),
        ParseErr::TooDeep(deep, left) => Err(ParseErr::TooDeep(deep, left)),
        ParseErr::Memory => Err(ParseErr::Memory),
    }
}

// The longest expression at the front, and how many tokens it takes.
fn longest(alloc: Global, tokens: &[Token]) -> Result<(Expr, usize), ParseErr>
    ensures { IsLongest tokens.now result }
{
    let mut cursor = Cursor::new(tokens);
    match start(alloc, &mut cursor) {
        Ok(found) => {
            let len = tokens.len() - cursor.left();
            Ok((found, len))
        }
        Err(refusal) => or_shorter(alloc, tokens, refusal),
    }
}

/// The longest expression (A.8.3) that the tokens spell from the one with the number `at` on, and the number of the
/// token behind it; the tokens up to there spell no other. `end` is the place of the end behind the last token.
///
/// Refused where no expression stands there: as E25 at a reserved word that is in no rule of the grammar, at
/// `===`, `!==`, `==?` or `!=?`, and at a system name that the grammar does not have, and else as E8, at the token at
/// which reading stops; as E9 at a token that over 200 expressions hold in each tree whose spelling begins as the
/// tokens do, where no expression ends there that does not hold it so. `Memory` says nothing of the tokens.
#[tactic(auto, using(crate::proofs::Shifted::shifted))]
pub fn parse_expr(
    alloc: Global,
    tokens: &[Token],
    end: Place,
    at: usize,
) -> Result<(Expr, usize), TextErr>
    requires { at ≤ length tokens.now }
    ensures { IsParsed tokens.now end at result }
{
    match longest(alloc, &tokens[at..]) {
        Ok((x, len)) => Ok((x, at + len)),
        Err(ParseErr::Syntax(left)) => {
            let stop = tokens.len() - left;
            Err(refusal(syntax_number(tokens, stop), place_at(tokens, end, stop)))
        }
        Err(ParseErr::TooDeep(deep, _)) => {
            let stop = tokens.len() - deep;
            Err(refusal(refusals::TOO_DEEP, place_at(tokens, end, stop)))
        }
        Err(ParseErr::Memory) => Err(TextErr::Memory),
    }
}
