// How many nodes and drivers a design takes.
use case_rows::{Fault, Judge, put, size_at};
use std::alloc::Global;
use sv_elab::{elaborate, key_of};
use sv_outside::{Name, TextErr, Tokens};
use sv_parser::parse;
use sv_token::{end_of, lex};

/// The tokens of a text, which includes no other.
pub fn tokens_of(alloc: Global, text: &[u8]) -> Result<Tokens, TextErr> {
    let list = lex(alloc, 0, text)?;
    let files: Vec<Name> = Vec::new(alloc);
    Ok(Tokens {
        list,
        files,
        end: end_of(0, text),
    })
}

/// Why a row was not judged.
pub fn fault_of(error: TextErr) -> Fault {
    match error {
        TextErr::Memory => Fault::Memory,
        TextErr::No(_) => Fault::Form,
    }
}

// Whether the nodes and drivers that a design takes are at most so many.
fn is_within(alloc: Global, text: &[u8], nodes: usize, drivers: usize) -> Result<bool, TextErr> {
    let tokens = tokens_of(alloc, text)?;
    let source = parse(alloc, &tokens)?;
    let flat = elaborate(alloc, key_of(&tokens), &source, None)?;
    Ok(flat.arena.len() <= nodes && flat.drivers.len() <= drivers)
}

/// What a design takes.
#[derive(Drop)]
pub struct Takes<'a> {
    pub alloc: Global,
    pub text: &'a [u8],
}

impl Judge for Takes<'_> {
    fn row(&mut self, question: &[u8], _wanted: &[u8], said: &mut Vec<u8>) -> Result<(), Fault> {
        let nodes = size_at(question, 0)?;
        let drivers = size_at(question, 1)?;
        match is_within(self.alloc, self.text, nodes, drivers) {
            Ok(true) => put(said, b"yes"),
            Ok(false) => put(said, b"no"),
            Err(error) => Err(fault_of(error)),
        }
    }
}
