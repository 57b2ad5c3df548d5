// What is printed of a text: tokens with their kinds, places and lines, refusals, identifiers, and values of literals. A kind
// is one letter before the text, so that a row of tokens stays readable. Brief refusals give the line alone, for cases in which
// the column says nothing.
use crate::printed::Printed;
use fourvec::{Bit, Four};
use std::alloc::{AllocError, Global};
use sv_literal::{LitErr, Literal, literal};
use sv_outside::{Kind, Name, Refusal, TextErr, Token, Tokens, is_id};
use sv_token::{Lined, end_of, lex, lex_lines};

/// The number of the file that texts are of.
pub const FILE: usize = 7;

/// The tokens of a text.
pub fn tokens_of(alloc: Global, text: &[u8]) -> Result<Tokens, TextErr> {
    let list = lex(alloc, FILE, text)?;
    let files: Vec<Name> = Vec::new(alloc);
    Ok(Tokens {
        list,
        files,
        end: end_of(FILE, text),
    })
}

fn letter(kind: Kind) -> &'static [u8] {
    match kind {
        Kind::Word => b"w:",
        Kind::System => b"s:",
        Kind::Literal => b"n:",
        Kind::Quoted => b"q:",
        Kind::Mark => b"m:",
        Kind::Directive => b"d:",
        Kind::Continue => b"c:",
    }
}

/// A token as `w:name`.
pub fn print_lexeme(kind: Kind, text: &[u8], out: &mut Printed) -> Result<(), AllocError> {
    out.next(letter(kind))?;
    out.text(text)
}

pub fn print_tokens(tokens: &[Token], out: &mut Printed) -> Result<(), AllocError> {
    for token in tokens {
        print_lexeme(token.kind, token.text.bytes(), out)?;
    }
    Ok(())
}

pub fn print_places(tokens: &[Token], out: &mut Printed) -> Result<(), AllocError> {
    for token in tokens {
        out.next(b"")?;
        out.place(token.place)?;
    }
    Ok(())
}

fn print_numbers(lines: &[Lined], out: &mut Printed) -> Result<(), AllocError> {
    for lined in lines {
        out.next(b"")?;
        out.number(lined.line)?;
    }
    Ok(())
}

/// The lines of the tokens, as directives count them.
pub fn print_lines(alloc: Global, text: &[u8], out: &mut Printed) -> Result<(), AllocError> {
    match lex_lines(alloc, FILE, text) {
        Ok(lines) => print_numbers(&lines, out),
        Err(error) => print_error(error, false, out),
    }
}

/// `E`, the number, and the place; of a brief one the line alone.
pub fn print_refusal(
    refusal: Refusal,
    is_brief: bool,
    out: &mut Printed,
) -> Result<(), AllocError> {
    out.text(b"E")?;
    out.number(usize::from(refusal.number))?;
    out.text(b" ")?;
    if is_brief {
        return out.number(refusal.place.line);
    }
    out.place(refusal.place)?;
    if refusal.count == 0 {
        return Ok(());
    }
    out.text(b" with a count")
}

pub fn print_error(error: TextErr, is_brief: bool, out: &mut Printed) -> Result<(), AllocError> {
    match error {
        TextErr::No(refusal) => print_refusal(refusal, is_brief, out),
        TextErr::Memory => out.text(b"out of memory"),
    }
}

pub fn print_identifier(text: &[u8], out: &mut Printed) -> Result<(), AllocError> {
    if is_id(text) {
        out.text(b"identifier")
    } else {
        out.text(b"none")
    }
}

fn digit(bit: Bit) -> &'static [u8] {
    match bit {
        Bit::Zero => b"0",
        Bit::One => b"1",
        Bit::Unknown => b"x",
        Bit::Floating => b"z",
    }
}

// The bits, the most significant first.
fn print_bits(value: &Four, out: &mut Printed) -> Result<(), AllocError> {
    let width = value.width();
    for at in 0..width {
        out.text(digit(value.bit(width - 1 - at)))?;
    }
    Ok(())
}

fn print_value(value: &Literal, out: &mut Printed) -> Result<(), AllocError> {
    if value.sized {
        out.text(b"sized ")?;
    }
    if value.signed {
        out.text(b"signed ")?;
    }
    if value.fill {
        out.text(b"fill ")?;
    }
    print_bits(&value.value, out)
}

/// The marks and the bits of a literal.
pub fn print_literal(text: &[u8], out: &mut Printed) -> Result<(), AllocError> {
    match literal(text) {
        Ok(value) => print_value(&value, out),
        Err(LitErr::Shape) => out.text(b"shape"),
        Err(LitErr::Wide) => out.text(b"wide"),
        Err(LitErr::Range) => out.text(b"range"),
    }
}
