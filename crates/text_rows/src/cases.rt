// How a case is written. A line is
//   case NAME       begins a case; what it does not give is as in the case before it in this file
//   file NAME       the contents of that file follow, in place of those that it had
//   also NAME       the contents of one more file with that name follow
//   out             what is printed follows
//   | text          a line of the contents, with its line end (one blank behind the mark is no part of it)
//   \ text          the same without a line end
//   repeat N text   so many times that text, without a line end
//   gone NAME       that file is not there
//   read N ..       the reads with these numbers fail
//   write N ..      the writes with these numbers fail
//   most N          a sink takes so many bytes at once
//   each            each line of the file d.sv is a text of its own, and has its line in what is printed
//   whole           that file is one text
//   KEY WORDS       what is done, which acts.rt tells
//   # text          a remark; an empty line is passed over
use crate::acts::{Key, key_of};
use case_rows::named;
use std::alloc::{AllocError, Global};
use sv_outside::Name;

/// A file of a case.
pub struct File {
    pub name: Name,
    pub text: Vec<u8>,
}

impl Drop for File {
    fn drop(self) {
        let File { name: _, text: _ } = self;
    }
}

/// What is known of a case, from the lines read so far.
pub struct Case {
    pub alloc: Global,
    pub name: Vec<u8>,
    pub key: Key,
    pub words: Vec<u8>,
    pub files: Vec<File>,
    pub out: Vec<u8>,
    pub failing_reads: Vec<u64>,
    pub failing_writes: Vec<u64>,
    pub most: usize,
    pub is_each: bool,
    // Whether contents are of what is printed, and not of the last file.
    is_out: bool,
}

impl Drop for Case {
    fn drop(self) {
        let Case {
            alloc: _,
            name: _,
            key: _,
            words: _,
            files: _,
            out: _,
            failing_reads: _,
            failing_writes: _,
            most: _,
            is_each: _,
            is_out: _,
        } = self;
    }
}

/// The parts between two bytes of that kind. Behind the last of these is none where the text ends.
pub fn parts<'a>(alloc: Global, text: &'a [u8], by: u8) -> Result<Vec<&'a [u8]>, AllocError> {
    let mut parts = Vec::new(alloc);
    let mut start = 0;
    for at in 0..text.len() {
        if text[at] == by {
            parts.push(text.get(start..at).unwrap_or(b""))?;
            start = at + 1;
        }
    }
    if start < text.len() {
        parts.push(&text[start..])?;
    }
    Ok(parts)
}

/// The first word of a line, and what stands behind the blank at its end.
pub fn word_and_rest(line: &[u8]) -> (&[u8], &[u8]) {
    for at in 0..line.len() {
        if line[at] == b' ' {
            return (&line[..at], &line[at + 1..]);
        }
    }
    (line, b"")
}

/// Whether a word is that key.
pub fn is(word: &[u8], key: &str) -> bool {
    word == key.as_bytes()
}

fn number(word: &[u8]) -> u64 {
    let mut number = 0u64;
    for b in word {
        if b.is_ascii_digit() {
            number = number
                .saturating_mul(10)
                .saturating_add(u64::from(*b - b'0'));
        }
    }
    number
}

fn push_numbers(words: &[&[u8]], numbers: &mut Vec<u64>) -> Result<(), AllocError> {
    for word in words {
        numbers.push(number(word))?;
    }
    Ok(())
}

// The numbers of a line, in place of those before.
fn read_numbers(alloc: Global, line: &[u8], numbers: &mut Vec<u64>) -> Result<(), AllocError> {
    numbers.clear();
    let words = parts(alloc, line, b' ')?;
    push_numbers(&words, numbers)
}

// What a line begins with that is no key.
#[derive(Clone, Copy)]
enum Mark {
    File,
    Also,
    Out,
    Gone,
    Repeat,
    Case,
    Read,
    Write,
    Most,
    Each,
    Whole,
}

static MARKS: [(&[u8], Mark); 11] = [
    (b"file", Mark::File),
    (b"also", Mark::Also),
    (b"out", Mark::Out),
    (b"gone", Mark::Gone),
    (b"repeat", Mark::Repeat),
    (b"case", Mark::Case),
    (b"read", Mark::Read),
    (b"write", Mark::Write),
    (b"most", Mark::Most),
    (b"each", Mark::Each),
    (b"whole", Mark::Whole),
];

impl Case {
    pub fn new(alloc: Global) -> Case {
        Case {
            alloc,
            name: Vec::new(alloc),
            key: Key::Other,
            words: Vec::new(alloc),
            files: Vec::new(alloc),
            out: Vec::new(alloc),
            failing_reads: Vec::new(alloc),
            failing_writes: Vec::new(alloc),
            most: 1000,
            is_each: false,
            is_out: false,
        }
    }

    /// The contents of the file d.sv.
    pub fn text(&self) -> &[u8] {
        for file in &self.files {
            if is(file.name.bytes(), "d.sv") {
                return &file.text;
            }
        }
        b""
    }

    /// Takes one line.
    pub fn take(&mut self, line: &[u8]) -> Result<(), AllocError> {
        match line {
            [] | [b'#', ..] => Ok(()),
            [b'|', b' ', text @ ..] | [b'|', text @ ..] => {
                self.add(text)?;
                self.add(b"\n")
            }
            [b'\\', b' ', text @ ..] | [b'\\', text @ ..] => self.add(text),
            _ => {
                let (word, rest) = word_and_rest(line);
                self.take_word(word, rest)
            }
        }
    }

    fn take_word(&mut self, word: &[u8], rest: &[u8]) -> Result<(), AllocError> {
        match named(&MARKS, word) {
            Some(mark) => self.take_mark(mark, rest),
            None => self.set_key(word, rest),
        }
    }

    fn take_mark(&mut self, mark: Mark, rest: &[u8]) -> Result<(), AllocError> {
        match mark {
            Mark::File => self.begin_anew(rest),
            Mark::Also => self.begin_file(rest),
            Mark::Repeat => self.repeat(rest),
            Mark::Case => self.begin(rest),
            Mark::Read => self.fail_reads(rest),
            Mark::Write => self.fail_writes(rest),
            _ => {
                self.set(mark, rest);
                Ok(())
            }
        }
    }

    // What takes no memory.
    fn set(&mut self, mark: Mark, rest: &[u8]) {
        match mark {
            Mark::Out => self.begin_out(),
            Mark::Gone => self.remove(rest),
            Mark::Most => self.most = usize::try_from(number(rest)).unwrap_or(1),
            Mark::Each => self.is_each = true,
            _ => self.is_each = false,
        }
    }

    fn begin_out(&mut self) {
        self.is_out = true;
        self.out.clear();
    }

    fn begin_anew(&mut self, name: &[u8]) -> Result<(), AllocError> {
        self.remove(name);
        self.begin_file(name)
    }

    fn begin(&mut self, name: &[u8]) -> Result<(), AllocError> {
        replace(&mut self.name, name)
    }

    fn fail_reads(&mut self, numbers: &[u8]) -> Result<(), AllocError> {
        read_numbers(self.alloc, numbers, &mut self.failing_reads)
    }

    fn fail_writes(&mut self, numbers: &[u8]) -> Result<(), AllocError> {
        read_numbers(self.alloc, numbers, &mut self.failing_writes)
    }

    fn set_key(&mut self, key: &[u8], words: &[u8]) -> Result<(), AllocError> {
        self.key = key_of(key);
        replace(&mut self.words, words)
    }

    fn begin_file(&mut self, name: &[u8]) -> Result<(), AllocError> {
        self.is_out = false;
        let file = File {
            name: Name::new(self.alloc, name)?,
            text: Vec::new(self.alloc),
        };
        Ok(self.files.push(file)?)
    }

    fn remove(&mut self, name: &[u8]) {
        let at = place_of(&self.files, name);
        if at < self.files.len() {
            self.files.remove(at);
        }
    }

    fn repeat(&mut self, rest: &[u8]) -> Result<(), AllocError> {
        let (times, text) = word_and_rest(rest);
        let mut piece = text.to_vec(self.alloc)?;
        self.add_times(number(times), &mut piece)
    }

    // By doubling the piece, since texts of 16 MiB are made so.
    fn add_times(&mut self, times: u64, piece: &mut Vec<u8>) -> Result<(), AllocError> {
        let mut left = times;
        for _ in 0..64 {
            if left % 2 == 1 {
                self.add(piece)?;
            }
            left /= 2;
            if left == 0 {
                return Ok(());
            }
            double(self.alloc, piece)?;
        }
        Ok(())
    }

    // Puts a text behind the contents.
    fn add(&mut self, text: &[u8]) -> Result<(), AllocError> {
        if self.is_out {
            return self.out.extend_from_slice(text);
        }
        match self.files.last_mut() {
            Some(file) => file.text.extend_from_slice(text),
            None => Ok(()),
        }
    }
}

// The place of the first file with that name, or how many there are.
fn place_of(files: &[File], name: &[u8]) -> usize {
    for (at, file) in files.iter().enumerate() {
        if file.name.bytes() == name {
            return at;
        }
    }
    files.len()
}

fn double(alloc: Global, text: &mut Vec<u8>) -> Result<(), AllocError> {
    let copy = text.to_vec(alloc)?;
    text.extend_from_slice(&copy)
}

fn replace(old: &mut Vec<u8>, new: &[u8]) -> Result<(), AllocError> {
    old.clear();
    old.extend_from_slice(new)
}
