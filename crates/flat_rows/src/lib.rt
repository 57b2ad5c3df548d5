//! Judges texts of flat designs by what was found by hand: which are read and printed again as they stand, which are printed
//! otherwise, and which line is refused. The test cases stand in data/ of the crate rows.
//!
//! `text` gives the lines of a text, each behind `| `. A row of `read` says what comes of it: `same` where the design that is read is
//! printed as the text stands, `other` where it is printed otherwise, and `line N` where line N is refused. `prints` gives the lines
//! that are printed. `open` takes the last line feed of the text away.
#![tactic(auto)]

use case_rows::{Bench, Fault, Judge, Report, each_row, keep_lines, named, put, put_size, word};
use flat_print::print_flat;
use flat_read::{FlatErr, read_flat};
use std::alloc::Global;

#[derive(Clone, Copy)]
enum Key {
    Text,
    Open,
    Read,
    Prints,
}

static KEYS: [(&[u8], Key); 4] = [
    (b"text", Key::Text),
    (b"open", Key::Open),
    (b"read", Key::Read),
    (b"prints", Key::Prints),
];

// The text that is judged.
#[derive(Drop)]
pub struct FlatRows {
    alloc: Global,
    text: Vec<u8>,
}

// What is printed of the design of a text, or the line that is refused.
fn printed(alloc: Global, text: &[u8]) -> Result<Vec<u8>, FlatErr> {
    let flat = read_flat(alloc, text)?;
    let again = print_flat(alloc, &flat)?;
    Ok(again)
}

impl Judge for FlatRows {
    fn row(&mut self, _: &[u8], _: &[u8], said: &mut Vec<u8>) -> Result<(), Fault> {
        match printed(self.alloc, &self.text) {
            Ok(again) => {
                if again.as_slice() == self.text.as_slice() {
                    put(said, b"same")
                } else {
                    put(said, b"other")
                }
            }
            Err(FlatErr::BadLine(n)) => {
                put(said, b"line ")?;
                put_size(said, n)
            }
            Err(FlatErr::Memory) => Err(Fault::Memory),
        }
    }
}

// Whether these lines are printed.
fn prints(alloc: Global, text: &[u8], block: &[u8]) -> Result<bool, Fault> {
    let mut wanted = Vec::new(alloc);
    keep_lines(&mut wanted, block)?;
    match printed(alloc, text) {
        Ok(again) => Ok(again.as_slice() == wanted.as_slice()),
        Err(FlatErr::BadLine(_)) => Ok(false),
        Err(FlatErr::Memory) => Err(Fault::Memory),
    }
}

impl Bench for FlatRows {
    fn new(alloc: Global) -> FlatRows {
        FlatRows {
            alloc,
            text: Vec::new(alloc),
        }
    }

    fn key(&mut self, line: &[u8], block: &[u8], report: &mut Report) -> Result<(), Fault> {
        match named(&KEYS, word(line, 0)) {
            Some(Key::Text) => keep_lines(&mut self.text, block),
            Some(Key::Open) => {
                let _ = self.text.pop();
                Ok(())
            }
            Some(Key::Read) => each_row(self, block, report),
            Some(Key::Prints) => {
                let right = prints(self.alloc, &self.text, block);
                report.take(line, right)
            }
            None => report.take(line, Err(Fault::Form)),
        }
    }
}
