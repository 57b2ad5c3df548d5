// The turns of loops behind turns that were made before. The count before is given and not made by loops, so that a short text
// comes to the limit. A statement is put into a module of its own, so that it is read as any text is.
use crate::counts::{fault_of, tokens_of};
use case_rows::{Fault, Judge, number, word, words_from};
use std::alloc::{AllocError, Global};
use sv_actions::typed_body;
use sv_names::{Names, Scope, What, scalar};
use sv_outside::{Name, Refusal, TextErr};
use sv_parser::parse;
use sv_tree::{Item, Source, SourcePart, Stmt};

fn put_wire(alloc: Global, scope: &mut Scope) -> Result<(), AllocError> {
    let number = 0;
    let layout = scalar(false);
    scope.push(Name::new(alloc, b"a")?, What::Wire { number, layout })
}

fn put_refusal(alloc: Global, refusal: Refusal, out: &mut Vec<u8>) -> Result<(), TextErr> {
    let number = refusal.number;
    let column = refusal.place.column;
    out.extend_from_slice(format!(in alloc; "E{number} {column}")?.as_bytes())?;
    Ok(())
}

fn put_made(alloc: Global, made: u64, out: &mut Vec<u8>) -> Result<(), TextErr> {
    out.extend_from_slice(format!(in alloc; "{made}")?.as_bytes())?;
    Ok(())
}

fn put_body(
    alloc: Global,
    body: &Stmt,
    names: &mut Names<'_>,
    made: u64,
    out: &mut Vec<u8>,
) -> Result<(), TextErr> {
    match typed_body(alloc, body, names, made) {
        Ok(acted) => put_made(alloc, acted.made, out),
        Err(TextErr::No(refusal)) => put_refusal(alloc, refusal, out),
        Err(TextErr::Memory) => Err(TextErr::Memory),
    }
}

// The statement of the block with which the first module begins.
fn body_of(source: &Source) -> Option<&Stmt> {
    match source.parts.as_slice() {
        [SourcePart::Module(module), ..] => match module.items.as_slice() {
            [Item::Always(block), ..] => Some(&block.body),
            _ => None,
        },
        _ => None,
    }
}

fn put_source(
    alloc: Global,
    source: &Source,
    names: &mut Names<'_>,
    made: u64,
    out: &mut Vec<u8>,
) -> Result<(), TextErr> {
    match body_of(source) {
        Some(body) => put_body(alloc, body, names, made, out),
        None => Err(TextErr::Memory),
    }
}

// A module whose only block has the statement, on a line of its own.
fn module_of(alloc: Global, text: &[u8]) -> Result<Vec<u8>, AllocError> {
    let mut module = b"module m; always_comb\n".to_vec(alloc)?;
    module.extend_from_slice(text)?;
    module.extend_from_slice(b"\nendmodule\n")?;
    Ok(module)
}

fn put_statement(
    alloc: Global,
    text: &[u8],
    names: &mut Names<'_>,
    made: u64,
    out: &mut Vec<u8>,
) -> Result<(), TextErr> {
    let module = module_of(alloc, text)?;
    let tokens = tokens_of(alloc, &module)?;
    let source = parse(alloc, &tokens)?;
    put_source(alloc, &source, names, made, out)
}

// What comes of a statement over the signal behind so many turns.
fn put_turns(alloc: Global, text: &[u8], made: u64, out: &mut Vec<u8>) -> Result<(), TextErr> {
    let mut scope = Scope::new(alloc, 0);
    put_wire(alloc, &mut scope)?;
    let mut names = Names::new(alloc, 0);
    names.push_scope(&scope, scope.len(), scope.len())?;
    put_statement(alloc, text, &mut names, made, out)
}

/// What comes of statements behind turns that were made before.
#[derive(Drop)]
pub struct Turns {
    pub alloc: Global,
}

impl Judge for Turns {
    fn row(&mut self, question: &[u8], _wanted: &[u8], said: &mut Vec<u8>) -> Result<(), Fault> {
        let made = number(word(question, 0)).ok_or(Fault::Form)?;
        match put_turns(self.alloc, words_from(question, 1), made, said) {
            Ok(()) => Ok(()),
            Err(error) => Err(fault_of(error)),
        }
    }
}
