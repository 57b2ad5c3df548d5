//! Cases are judged one after another, and what differs is told. What a key means is the program's own: it hands in a bench,
//! which is told each key with its block, and a judge, which says what comes for a question. What came is written into one
//! buffer that is used again for each row, and compared with what is wanted as text.

use crate::words::{Fault, put, put_number, put_three, rows_of, sides, word, words_from};
use std::alloc::Global;

/// What was found so far.
pub struct Report {
    // What is to be printed.
    out: Vec<u8>,
    // What came for the row at hand.
    said: Vec<u8>,
    // The name of the case at hand.
    case: Vec<u8>,
    cases: u64,
    wrong: u64,
}

impl Drop for Report {
    fn drop(self) {
        let Report {
            out: _,
            said: _,
            case: _,
            cases: _,
            wrong: _,
        } = self;
    }
}

/// What judges the rows of a block.
pub trait Judge {
    /// Says what comes for a question. The row is right where that is the text that is wanted; what may be written in several ways is said
    /// as it is wanted.
    fn row(&mut self, question: &[u8], wanted: &[u8], said: &mut Vec<u8>) -> Result<(), Fault>;
}

/// What knows the keys of a file: a line `KEY WORDS`, and the lines of the block behind it.
pub trait Bench {
    /// What a file begins with.
    fn new(alloc: Global) -> Self;

    fn key(&mut self, line: &[u8], block: &[u8], report: &mut Report) -> Result<(), Fault>;
}

impl Report {
    pub fn new(alloc: Global) -> Report {
        Report {
            out: Vec::new(alloc),
            said: Vec::new(alloc),
            case: Vec::new(alloc),
            cases: 0,
            wrong: 0,
        }
    }

    /// What is to be printed.
    pub fn out(&self) -> &[u8] {
        self.out.as_slice()
    }

    /// Where what comes for a row is put. It is empty before each row.
    pub fn said(&mut self) -> &mut Vec<u8> {
        self.said.clear();
        &mut self.said
    }

    fn begin(&mut self, name: &[u8]) -> Result<(), Fault> {
        self.cases = self.cases.saturating_add(1);
        self.case.clear();
        put(&mut self.case, name)
    }

    // Tells of a row for which something else came.
    fn differs(&mut self, row: &[u8]) -> Result<(), Fault> {
        self.wrong = self.wrong.saturating_add(1);
        put_three(&mut self.out, self.case.as_slice(), b": ", row)?;
        put_three(&mut self.out, b"\n  is ", self.said.as_slice(), b"\n")
    }

    /// Takes in whether what was said of a row is right.
    pub fn take(&mut self, row: &[u8], answer: Result<bool, Fault>) -> Result<(), Fault> {
        match answer {
            Ok(true) => Ok(()),
            Ok(false) => self.differs(row),
            Err(Fault::Form) => {
                put(&mut self.said, b"no row of its key")?;
                self.differs(row)
            }
            Err(Fault::Memory) => Err(Fault::Memory),
        }
    }

    // Takes in what was said of a row, of which that is wanted.
    fn compare(
        &mut self,
        row: &[u8],
        wanted: &[u8],
        judged: Result<(), Fault>,
    ) -> Result<(), Fault> {
        let right = self.said.as_slice() == wanted;
        match judged {
            Ok(()) => self.take(row, Ok(right)),
            Err(fault) => self.take(row, Err(fault)),
        }
    }

    // How many cases are as they should be, or how many rows differ.
    fn put_count(&mut self) -> Result<(), Fault> {
        if self.wrong == 0 {
            put_number(&mut self.out, self.cases)?;
            put(&mut self.out, b" cases as they should be\n")
        } else {
            put_number(&mut self.out, self.wrong)?;
            put(&mut self.out, b" rows differ\n")
        }
    }

    // Ends a file.
    fn end(&mut self, name: &[u8]) -> Result<(), Fault> {
        put_three(&mut self.out, name, b": ", b"")?;
        self.put_count()?;
        self.cases = 0;
        self.wrong = 0;
        Ok(())
    }
}

fn judge_row<J: Judge>(judge: &mut J, row: &[u8], report: &mut Report) -> Result<(), Fault> {
    let (question, wanted) = sides(row);
    let judged = judge.row(question, wanted, report.said());
    report.compare(row, wanted, judged)
}

/// Judges each row of a block.
pub fn each_row<J: Judge>(judge: &mut J, block: &[u8], report: &mut Report) -> Result<(), Fault> {
    for line in block.split(|c| *c == b'\n') {
        if let Some(row) = rows_of(line) {
            judge_row(judge, row, report)?;
        }
    }
    Ok(())
}

// How many bytes of a text the lines take that are rows, remarks or empty.
fn block_len(text: &[u8]) -> usize {
    let mut len: usize = 0;
    for line in text.split(|c| *c == b'\n') {
        match line.first() {
            None | Some(b'|') | Some(b'#') => {
                len = len.saturating_add(line.len()).saturating_add(1);
            }
            Some(_) => return len,
        }
    }
    text.len()
}

fn line_len(text: &[u8]) -> usize {
    text.iter().position(|c| *c == b'\n').unwrap_or(text.len())
}

fn before(text: &[u8], at: usize) -> &[u8] {
    text.get(..at).unwrap_or(text)
}

fn behind(text: &[u8], at: usize) -> &[u8] {
    text.get(at..).unwrap_or(b"")
}

fn key<B: Bench>(
    bench: &mut B,
    line: &[u8],
    block: &[u8],
    report: &mut Report,
) -> Result<(), Fault> {
    if word(line, 0) == b"case".as_slice() {
        report.begin(words_from(line, 1))
    } else {
        bench.key(line, block, report)
    }
}

/// Judges the cases of a file.
pub fn judge_text<B: Bench>(
    bench: &mut B,
    name: &[u8],
    text: &[u8],
    report: &mut Report,
) -> Result<(), Fault> {
    let mut rest = behind(text, block_len(text));
    for _ in 0..text.len() {
        if !rest.is_empty() {
            let len = line_len(rest);
            let below = behind(rest, len.saturating_add(1));
            let block = block_len(below);
            key(bench, before(rest, len), before(below, block), report)?;
            rest = behind(below, block);
        }
    }
    report.end(name)
}
