// The rest of a line, which a backslash at its end continues.
ghost use Rattle.std.specs.Prelude.{◌≡◌, ◌+◌, ◌==◌, ◌++◌, ◌∷◌, [], ℕ, Bool, true, false, List, length, IfOk, OnOk, if◌then◌else◌};
ghost use Rattle.sv_outside.specs.declared.text.Token.{Token};
ghost use Rattle.sv_preproc.specs.Directives.{placed};
ghost use Rattle.sv_preproc.specs.Seen.{line_of};
ghost use Rattle.sv_preproc.specs.Roles as roles;

use crate::role::{Role, role_of};
use std::alloc::{AllocError, Global};
use sv_outside::{Place, Token};
use sv_token::Lined;

// A copy of the token, at the place.
fn copy_at(token: &Token, place: Place) -> Result<Token, AllocError>
    ensures { IfOk result (λ copy. copy ≡ placed place token.now) }
{
    Ok(Token {
        kind: token.kind,
        text: token.text.copy()?,
        place,
    })
}

/// Writes a copy of the token, at the place, behind those that are there.
pub fn put_at(token: &Token, place: Place, out: &mut Vec<Token>) -> Result<(), AllocError>
    ensures { OnOk result (out.new.items ≡ out.old.items ++ placed place token.now ∷ []) }
{
    out.push(copy_at(token, place)?)?;
    Ok(())
}

// Whether the token stands in the line, or in the one behind it.
fn stands_in(token: &Lined, line: usize, next: bool) -> bool
    ensures { result ≡ (token.now.line == line_of line next) }
{
    if next {
        token.line > line && token.line - line == 1
    } else {
        token.line == line
    }
}

fn continues(token: &Token) -> bool
    ensures { result ≡ roles.is_continued (roles.role_of token.now) }
{
    match role_of(token) {
        Role::Continued => true,
        _ => false,
    }
}

/// What stands behind the line.
#[tactic(auto, unfolding(crate::specs::Roles::line_rest))]
pub fn line_rest(line: usize, tokens: &[Lined]) -> &[Lined]
    ensures { result.now ≡ roles.line_rest line tokens.now }
{
    let mut line = line;
    let mut next = false;
    let mut rest = tokens;
    'line: while let Some((first, after)) = rest.split_first() {
        if !stands_in(first, line, next) {
            return rest;
        }
        line = first.line;
        next = continues(&first.token);
        rest = after;
    }
    rest
}

// Writes a copy of the tokens of the line behind those that are there.
#[tactic(auto, unfolding(crate::specs::Roles::line_text))]
fn put_line(line: usize, tokens: &[Lined], out: &mut Vec<Token>) -> Result<(), AllocError>
    ensures { OnOk result (out.new.items ≡ out.old.items ++ roles.line_text line tokens.now) }
{
    let mut line = line;
    let mut next = false;
    let mut rest = tokens;
    'line: while let Some((first, after)) = rest.split_first() {
        if !stands_in(first, line, next) {
            return Ok(());
        }
        line = first.line;
        next = continues(&first.token);
        if !next {
            put_at(&first.token, first.token.place, out)?;
        }
        rest = after;
    }
    Ok(())
}

/// A copy of the tokens of the line.
pub fn line_text(alloc: Global, line: usize, tokens: &[Lined]) -> Result<Vec<Token>, AllocError>
    ensures { IfOk result (λ text. text.items ≡ roles.line_text line tokens.now) }
{
    let mut text = Vec::new(alloc);
    put_line(line, tokens, &mut text)?;
    Ok(text)
}
