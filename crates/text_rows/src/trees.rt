// What is printed of trees: an expression with how many tokens it takes, whether a text is read, and how a tree is spelled. A
// spelling is read and written a second time, and both lines are printed, so that a case shows that the tree was not changed on
// the way.
use crate::printed::Printed;
use crate::shown::show;
use crate::texts::{print_error, print_lexeme, tokens_of};
use items::Items;
use std::alloc::{AllocError, Global};
use sv_expr_parser::parse_expr;
use sv_outside::{TextErr, Tokens};
use sv_parser::parse;
use sv_tree::Expr;
use sv_write::{Lexeme, spell};

fn print_read(
    tree: &Expr,
    len: usize,
    is_brief: bool,
    tokens: &Tokens,
    out: &mut Printed,
) -> Result<(), AllocError> {
    if !is_brief {
        show(tree, out)?;
        out.text(b" ")?;
        out.number(len)
    } else if len == tokens.list.len() {
        out.text(b"whole")
    } else {
        out.text(b"a part")
    }
}

/// The tree that the tokens begin with, and how many of them it takes; of a brief one whether it takes all.
pub fn print_expression(
    alloc: Global,
    tokens: &Tokens,
    is_brief: bool,
    out: &mut Printed,
) -> Result<(), AllocError> {
    match parse_expr(alloc, tokens.list.as_slice(), tokens.end, 0) {
        Ok((tree, len)) => print_read(&tree, len, is_brief, tokens, out),
        Err(error) => print_error(error, is_brief, out),
    }
}

/// Whether the tokens are a whole source text.
pub fn print_source(
    alloc: Global,
    tokens: &Tokens,
    is_brief: bool,
    out: &mut Printed,
) -> Result<(), AllocError> {
    match parse(alloc, tokens) {
        Ok(_) => out.text(b"read"),
        Err(error) => print_error(error, is_brief, out),
    }
}

fn spelled(alloc: Global, tokens: &Tokens) -> Result<Items<Lexeme>, TextErr> {
    let tree = parse(alloc, tokens)?;
    match spell(alloc, &tree) {
        Ok(lexemes) => Ok(lexemes),
        Err(_) => Err(TextErr::Memory),
    }
}

// The lexemes, and the same as a text, with a blank between two of them.
fn print_lexemes(all: &[Lexeme], text: &mut Printed, out: &mut Printed) -> Result<(), AllocError> {
    for lexeme in all {
        print_lexeme(lexeme.kind, lexeme.text.bytes(), out)?;
        text.next(lexeme.text.bytes())?;
    }
    Ok(())
}

fn print_spelled(
    alloc: Global,
    tokens: &Tokens,
    text: &mut Printed,
    out: &mut Printed,
) -> Result<(), AllocError> {
    match spelled(alloc, tokens) {
        Ok(all) => print_lexemes(all.as_slice(), text, out),
        Err(error) => print_error(error, false, out),
    }
}

fn print_twice(
    alloc: Global,
    tokens: &Tokens,
    text: &mut Printed,
    out: &mut Printed,
) -> Result<(), AllocError> {
    print_spelled(alloc, tokens, text, out)?;
    out.text(b"\n")?;
    print_again(alloc, text.bytes(), out)
}

/// What the tree of the tokens is written with, and in a second line what the tree of that is written with.
pub fn print_spelling(alloc: Global, tokens: &Tokens, out: &mut Printed) -> Result<(), AllocError> {
    let mut text = Printed::new(alloc);
    print_twice(alloc, tokens, &mut text, out)
}

fn print_again(alloc: Global, text: &[u8], out: &mut Printed) -> Result<(), AllocError> {
    let mut again = Printed::new(alloc);
    match tokens_of(alloc, text) {
        Ok(tokens) => print_spelled(alloc, &tokens, &mut again, out),
        Err(error) => print_error(error, false, out),
    }
}
