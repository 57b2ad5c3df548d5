// What is printed of a text with its directives.
use crate::cases::Case;
use crate::edges::files_of;
use crate::printed::Printed;
use crate::texts::print_refusal;
use items::both;
use std::alloc::AllocError;
use sv_outside::{Name, Place, Refusal, Token, Tokens};
use sv_preproc::{PreErr, preprocess};

fn print_texts(tokens: &[Token], out: &mut Printed) -> Result<(), AllocError> {
    for token in tokens {
        out.next(token.text.bytes())?;
    }
    Ok(())
}

fn print_token(token: &Token, out: &mut Printed) -> Result<(), AllocError> {
    out.place(token.place)?;
    out.next(token.text.bytes())?;
    out.text(b"\n")
}

fn print_file(name: &Name, out: &mut Printed) -> Result<(), AllocError> {
    out.text(b"file ")?;
    out.text(name.bytes())?;
    out.text(b"\n")
}

fn print_files(files: &[Name], out: &mut Printed) -> Result<(), AllocError> {
    for name in files {
        print_file(name, out)?;
    }
    Ok(())
}

// The tokens with their places, the files, and the end.
fn print_placed(tokens: &Tokens, out: &mut Printed) -> Result<(), AllocError> {
    for token in &tokens.list {
        print_token(token, out)?;
    }
    print_files(&tokens.files, out)?;
    out.text(b"end ")?;
    out.place(tokens.end)
}

fn print_refused(refusal: Refusal, name: &Name, out: &mut Printed) -> Result<(), AllocError> {
    print_refusal(refusal, false, out)?;
    out.next(name.bytes())
}

fn print_fault(place: Place, name: &Name, out: &mut Printed) -> Result<(), AllocError> {
    out.text(b"read fault ")?;
    out.place(place)?;
    out.next(name.bytes())
}

fn print_answer(
    answer: &Result<Tokens, PreErr>,
    is_placed: bool,
    out: &mut Printed,
) -> Result<(), AllocError> {
    match answer {
        Ok(tokens) if is_placed => print_placed(tokens, out),
        Ok(tokens) => print_texts(&tokens.list, out),
        Err(PreErr::No(refusal, name)) => print_refused(*refusal, name, out),
        Err(PreErr::Read(place, name)) => print_fault(*place, name, out),
        Err(PreErr::Memory) => out.text(b"out of memory"),
    }
}

/// The tokens that the file d.sv of the case stands for.
pub fn print_preprocessed(
    case: &Case,
    is_placed: bool,
    out: &mut Printed,
) -> Result<(), AllocError> {
    let main = Name::new(case.alloc, b"d.sv")?;
    let (main, mut files) = both(main, files_of(case))?;
    let answer = preprocess(case.alloc, &mut files, &main);
    print_answer(&answer, is_placed, out)
}
