//! Judges value change dumps by test cases that were worked out by hand: which are read, where the others break the form, what
//! signals and changes they have, and what is printed of wires. The cases stand in data/ of the crate rows.
//!
//! `text` gives the lines of a text, each behind `| `, and `open` takes its last line feed away. A row of `read` says `stands`, or the line
//! and the column where the text breaks the form. A row of `signal` has a path and says the width, the code and the place of the first
//! signal with it. A row of `changes` has a path and says the times and values, or `no signal`. A row of `count` says how many signals and
//! changes there are. `wires` gives wires, a path and a width in each row, and `phases` the values of all wires in each row: the text is then
//! the dump of these. `prints` gives the lines of the text.
#![tactic(auto)]

use case_exprs::{put_digits, read_vectors};
use case_rows::{
    Bench, Fault, Judge, Report, each_row, keep_lines, named, put, put_number, put_size, rows_of,
    small_at, word,
};
use fourvec::Four;
use std::alloc::Global;
use sv_outside::{Name, Place, Signal, TextErr};
use vcd_print::Dump;
use vcd_text::{Changes, Waves, changes_of, read_vcd};

#[derive(Clone, Copy)]
enum Key {
    Text,
    Open,
    Wires,
    Phases,
    Prints,
    Ask(Asked),
}

static KEYS: [(&[u8], Key); 9] = [
    (b"text", Key::Text),
    (b"open", Key::Open),
    (b"wires", Key::Wires),
    (b"phases", Key::Phases),
    (b"prints", Key::Prints),
    (b"read", Key::Ask(Asked::Read)),
    (b"signal", Key::Ask(Asked::Signal)),
    (b"changes", Key::Ask(Asked::Changes)),
    (b"count", Key::Ask(Asked::Count)),
];

/// What the rows of a key ask.
#[derive(Clone, Copy)]
enum Asked {
    Read,
    Signal,
    Changes,
    Count,
}

// What is judged.
#[derive(Drop)]
pub struct VcdRows {
    alloc: Global,
    text: Vec<u8>,
    wires: Vec<Signal>,
    asked: Asked,
}

fn put_place(said: &mut Vec<u8>, place: Place) -> Result<(), Fault> {
    put_size(said, place.line)?;
    put(said, b":")?;
    put_size(said, place.column)
}

fn put_changes(said: &mut Vec<u8>, changes: &[(u64, Four)]) -> Result<(), Fault> {
    for (time, value) in changes {
        if !said.is_empty() {
            put(said, b", ")?;
        }
        put_number(said, *time)?;
        put(said, b" ")?;
        put_digits(said, value)?;
    }
    Ok(())
}

// The changes of a signal, or that there is none.
fn tell_changes(
    alloc: Global,
    waves: &Waves<'_>,
    path: &[u8],
    said: &mut Vec<u8>,
) -> Result<(), Fault> {
    let path = Name::new(alloc, path)?;
    match changes_of(alloc, waves, &path) {
        Ok(changes) => put_changes(said, &changes),
        Err(TextErr::No(_)) => put(said, b"no signal"),
        Err(TextErr::Memory) => Err(Fault::Memory),
    }
}

fn tell_signal(waves: &Waves<'_>, path: &[u8], said: &mut Vec<u8>) -> Result<(), Fault> {
    for var in waves.vars.as_slice() {
        if said.is_empty() && var.path.bytes() == path {
            put_size(said, var.width)?;
            put(said, b" ")?;
            put(said, var.code.bytes())?;
            put(said, b" ")?;
            put_place(said, var.place)?;
        }
    }
    Ok(())
}

// How many changes are left.
fn count(changes: Changes<'_>) -> usize {
    let mut changes = changes;
    let mut count = 0usize;
    'changes: while changes.next().is_some() {
        count = count.saturating_add(1);
    }
    count
}

fn tell(
    alloc: Global,
    asked: Asked,
    waves: &Waves<'_>,
    path: &[u8],
    said: &mut Vec<u8>,
) -> Result<(), Fault> {
    match asked {
        Asked::Read => put(said, b"stands"),
        Asked::Signal => tell_signal(waves, path, said),
        Asked::Changes => tell_changes(alloc, waves, path, said),
        Asked::Count => {
            put_size(said, waves.vars.len())?;
            put(said, b" ")?;
            put_size(said, count(waves.changes.again()))
        }
    }
}

impl Judge for VcdRows {
    fn row(&mut self, question: &[u8], _: &[u8], said: &mut Vec<u8>) -> Result<(), Fault> {
        match read_vcd(self.alloc, &self.text) {
            Ok(waves) => tell(self.alloc, self.asked, &waves, word(question, 0), said),
            Err(TextErr::No(refusal)) => put_place(said, refusal.place),
            Err(TextErr::Memory) => Err(Fault::Memory),
        }
    }
}

// Keeps the wires of a block in place of what was kept.
fn keep_wires(alloc: Global, wires: &mut Vec<Signal>, block: &[u8]) -> Result<(), Fault> {
    wires.clear();
    for line in block.split(|c| *c == b'\n') {
        if let Some(row) = rows_of(line) {
            let path = Name::new(alloc, word(row, 0))?;
            let width = small_at(row, 1)?;
            wires.push(Signal {
                path,
                width,
                input: false,
            })?;
        }
    }
    Ok(())
}

// The dump of wires in the phases of a block.
fn dumped(alloc: Global, wires: &[Signal], block: &[u8]) -> Result<Vec<u8>, Fault> {
    let mut dump = Dump::new(alloc, wires)?;
    let mut before = Vec::new(alloc);
    for line in block.split(|c| *c == b'\n') {
        if let Some(row) = rows_of(line) {
            let mut values = Vec::new(alloc);
            read_vectors(&mut values, row)?;
            dump.phase(&before, &values)?;
            before = values;
        }
    }
    Ok(dump.into_text())
}

// Whether these are the lines of a text.
fn prints(alloc: Global, text: &[u8], block: &[u8]) -> Result<bool, Fault> {
    let mut wanted = Vec::new(alloc);
    keep_lines(&mut wanted, block)?;
    Ok(text == wanted.as_slice())
}

impl Bench for VcdRows {
    fn new(alloc: Global) -> VcdRows {
        VcdRows {
            alloc,
            text: Vec::new(alloc),
            wires: Vec::new(alloc),
            asked: Asked::Read,
        }
    }

    fn key(&mut self, line: &[u8], block: &[u8], report: &mut Report) -> Result<(), Fault> {
        match named(&KEYS, word(line, 0)) {
            Some(Key::Text) => keep_lines(&mut self.text, block),
            Some(Key::Open) => {
                let _ = self.text.pop();
                Ok(())
            }
            Some(Key::Wires) => keep_wires(self.alloc, &mut self.wires, block),
            Some(Key::Phases) => {
                self.text = dumped(self.alloc, &self.wires, block)?;
                Ok(())
            }
            Some(Key::Prints) => {
                let right = prints(self.alloc, &self.text, block);
                report.take(line, right)
            }
            Some(Key::Ask(asked)) => {
                self.asked = asked;
                each_row(self, block, report)
            }
            None => report.take(line, Err(Fault::Form)),
        }
    }
}
