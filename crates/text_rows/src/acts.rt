// What the keys of a case do, with the file d.sv or with all files. Each prints lines:
//   tokens              the kind and the text of each token: w:, s:, n:, q:, m:, d: and c: stand for a word, a system name, a literal, a quoted text, a mark, a directive and a backslash at a line's end
//   places, lines       the place of each token, LINE:COLUMN; its line, as directives count lines
//   end                 the place behind the last byte
//   expression          the tree that the tokens begin with, parentheses round each operation, those of the text as angles, and how many tokens it takes
//   source              `read`, where the tokens are a whole source text
//   spell               what the tree of a source text is written with, as tokens; and again, what the tree of that is written with
//   literal             whether it is sized, signed and a fill, and its bits; or shape, wide or range, which it breaks
//   identifier          whether it is one
//   preprocess, placed  the texts of the tokens with all directives; with their places, the files that were read, and the end
//   reads NAME .., real NAME ..   what reads of the case's files give, one after another; of files of the system
//   sink, put           what writes of each file to a sink in memory give, and what it holds then; in one write each, or whole by as many as it takes
//   stream, full        what writes of each file to a stream give, and what it holds then; to one with room for two bytes
// A refusal is printed as E2 1:5, with the file's number before the place and its name behind it where there are several. Behind `expression brief`
// and `source brief` the line stands in place of the place, and `whole` or `a part` (of all tokens) in place of the tree.
use crate::cases::{Case, is, parts};
use crate::directives::print_preprocessed;
use crate::edges::{print_full, print_own_reads, print_reads, print_sink, print_stream};
use crate::printed::Printed;
use crate::report::System;
use crate::texts::{
    FILE, print_error, print_identifier, print_lines, print_literal, print_places, print_tokens,
    tokens_of,
};
use crate::trees::{print_expression, print_source, print_spelling};
use case_rows::named;
use std::alloc::AllocError;
use sv_outside::Tokens;

/// What is done.
#[derive(Clone, Copy)]
pub enum Key {
    Tokens,
    Places,
    Lines,
    End,
    Expression,
    Source,
    Spell,
    Literal,
    Identifier,
    Preprocess,
    Placed,
    Reads,
    Real,
    Sink,
    Put,
    Stream,
    Full,
    Other,
}

static KEYS: [(&[u8], Key); 17] = [
    (b"tokens", Key::Tokens),
    (b"places", Key::Places),
    (b"lines", Key::Lines),
    (b"end", Key::End),
    (b"expression", Key::Expression),
    (b"source", Key::Source),
    (b"spell", Key::Spell),
    (b"literal", Key::Literal),
    (b"identifier", Key::Identifier),
    (b"preprocess", Key::Preprocess),
    (b"placed", Key::Placed),
    (b"reads", Key::Reads),
    (b"real", Key::Real),
    (b"sink", Key::Sink),
    (b"put", Key::Put),
    (b"stream", Key::Stream),
    (b"full", Key::Full),
];

/// The key of a word.
pub fn key_of(word: &[u8]) -> Key {
    named(&KEYS, word).unwrap_or(Key::Other)
}

/// Does what the case says.
pub fn act(case: &Case, files: &mut System, out: &mut Printed) -> Result<(), AllocError> {
    if case.is_each {
        let lines = parts(case.alloc, case.text(), b'\n')?;
        act_on_lines(case, &lines, out)
    } else {
        act_on_files(case, files, out)?;
        out.line()
    }
}

fn act_on_lines(case: &Case, lines: &[&[u8]], out: &mut Printed) -> Result<(), AllocError> {
    for line in lines {
        act_on_text(case, line, out)?;
        out.text(b"\n")?;
    }
    Ok(())
}

fn act_on_files(case: &Case, files: &mut System, out: &mut Printed) -> Result<(), AllocError> {
    match case.key {
        Key::Preprocess => print_preprocessed(case, false, out),
        Key::Placed => print_preprocessed(case, true, out),
        Key::Reads => print_own_reads(case, out),
        Key::Real => print_reads(case.alloc, &case.words, files, out),
        Key::Sink => print_sink(case, false, out),
        Key::Put => print_sink(case, true, out),
        Key::Stream => print_stream(case, out),
        Key::Full => print_full(case, out),
        _ => act_on_text(case, case.text(), out),
    }
}

fn act_on_text(case: &Case, text: &[u8], out: &mut Printed) -> Result<(), AllocError> {
    out.of_file(FILE);
    match case.key {
        Key::Literal => print_literal(text, out),
        Key::Identifier => print_identifier(text, out),
        Key::Lines => print_lines(case.alloc, text, out),
        _ => act_on_tokens_of(case, text, out),
    }
}

fn act_on_tokens_of(case: &Case, text: &[u8], out: &mut Printed) -> Result<(), AllocError> {
    match tokens_of(case.alloc, text) {
        Ok(tokens) => act_on_tokens(case, &tokens, out),
        Err(error) => print_error(error, false, out),
    }
}

fn act_on_tokens(case: &Case, tokens: &Tokens, out: &mut Printed) -> Result<(), AllocError> {
    match case.key {
        Key::Tokens => print_tokens(&tokens.list, out),
        Key::Places => print_places(&tokens.list, out),
        Key::End => out.place(tokens.end),
        _ => act_on_trees(case, tokens, out),
    }
}

fn act_on_trees(case: &Case, tokens: &Tokens, out: &mut Printed) -> Result<(), AllocError> {
    let is_brief = is(case.words.as_slice(), "brief");
    match case.key {
        Key::Expression => print_expression(case.alloc, tokens, is_brief, out),
        Key::Source => print_source(case.alloc, tokens, is_brief, out),
        Key::Spell => print_spelling(case.alloc, tokens, out),
        _ => out.text(b"no such key"),
    }
}
