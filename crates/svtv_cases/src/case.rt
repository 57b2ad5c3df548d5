// One case, as the lines of its file give it: words, files, the calls that fail, and what should come. A case keeps what the
// one before it gave, so that a file of cases says only what changes. Lines of contents belong to the last part that was begun;
// a line with no end of line may be given too, so that every text can be written. Lines of no form are counted, so that a slip
// in a file is seen.
use std::alloc::{AllocError, Global};
use std::str;

// What lines of contents belong to.
#[derive(Clone, Copy)]
enum Part {
    Nothing,
    // The last of the files.
    File,
    Out,
    Err,
}

/// A file of a case.
#[derive(Drop)]
pub struct CaseFile<'a> {
    pub name: &'a [u8],
    pub text: Vec<u8>,
}

/// What a case gives, and what should come of it.
#[derive(Drop)]
pub struct Case<'a> {
    alloc: Global,
    part: Part,
    pub name: &'a [u8],
    pub words: Vec<String>,
    pub files: Vec<CaseFile<'a>>,
    // The read, the write of what is printed and that of the message that fail, and how much a sink takes.
    pub read: u64,
    pub write: u64,
    pub message: u64,
    pub most: usize,
    pub status: &'a [u8],
    pub out: Vec<u8>,
    pub err: Vec<u8>,
    /// How many of the lines so far are of no form.
    pub strange: usize,
}

// The first word of a line, and what is behind the blank that ends it.
fn split_word(line: &[u8]) -> (&[u8], &[u8]) {
    match line.iter().position(|byte| *byte == b' ') {
        Some(at) => {
            let (word, rest) = line.split_at(at);
            (word, without_blank(rest))
        }
        None => (line, b""),
    }
}

fn without_blank(text: &[u8]) -> &[u8] {
    match text {
        [b' ', rest @ ..] => rest,
        _ => text,
    }
}

// The number of some digits.
fn number(digits: &[u8]) -> u64 {
    let mut value: u64 = 0;
    for byte in digits {
        let digit = u64::from(byte.saturating_sub(b'0'));
        value = value.saturating_mul(10).saturating_add(digit);
    }
    value
}

fn append(to: &mut Vec<u8>, text: &[u8], end: &[u8]) -> Result<(), AllocError> {
    to.extend_from_slice(text)?;
    to.extend_from_slice(end)
}

impl<'a> Case<'a> {
    /// What the first case of a file begins with.
    pub fn new(alloc: Global) -> Case<'a> {
        Case {
            alloc,
            part: Part::Nothing,
            name: b"",
            words: Vec::new(alloc),
            files: Vec::new(alloc),
            read: 0,
            write: 0,
            message: 0,
            most: 1000,
            status: b"AllProved",
            out: Vec::new(alloc),
            err: Vec::new(alloc),
            strange: 0,
        }
    }

    /// Takes a line that begins no case.
    pub fn line(&mut self, line: &'a [u8]) -> Result<(), AllocError> {
        match line {
            [] | [b'#', ..] => Ok(()),
            [b'|', text @ ..] => self.content(without_blank(text), b"\n"),
            [b'\\', text @ ..] => self.content(without_blank(text), b""),
            _ => self.setting(line),
        }
    }

    // Takes a line of contents.
    fn content(&mut self, text: &[u8], end: &[u8]) -> Result<(), AllocError> {
        match self.part {
            Part::Nothing => Ok(()),
            Part::File => match self.files.last_mut() {
                Some(file) => append(&mut file.text, text, end),
                None => Ok(()),
            },
            Part::Out => append(&mut self.out, text, end),
            Part::Err => append(&mut self.err, text, end),
        }
    }

    // Takes so many times a text, as contents.
    fn repeat(&mut self, rest: &[u8]) -> Result<(), AllocError> {
        let (times, text) = split_word(rest);
        for _ in 0..number(times) {
            self.content(text, b"")?;
        }
        Ok(())
    }

    // Takes any other line.
    fn setting(&mut self, line: &'a [u8]) -> Result<(), AllocError> {
        let (word, rest) = split_word(line);
        match word {
            b"repeat" => self.repeat(rest),
            _ => self.key(word, rest),
        }
    }

    // Takes a line that ends the contents before it.
    fn key(&mut self, word: &[u8], rest: &'a [u8]) -> Result<(), AllocError> {
        self.part = Part::Nothing;
        match word {
            b"words" => self.put_words(rest),
            b"file" => self.open(rest),
            _ => {
                self.change(word, rest);
                Ok(())
            }
        }
    }

    // Takes a line that asks for no memory.
    fn change(&mut self, word: &[u8], rest: &'a [u8]) {
        match word {
            b"case" => self.name = rest,
            b"out" => self.begin_out(),
            b"err" => self.begin_err(),
            b"gone" => self.files.retain(|file| file.name != rest),
            b"status" => self.status = rest,
            b"read" => self.read = number(rest),
            b"write" => self.write = number(rest),
            b"message" => self.message = number(rest),
            b"most" => self.most = number(rest) as usize,
            _ => self.strange = self.strange.saturating_add(1),
        }
    }

    fn begin_out(&mut self) {
        self.out.clear();
        self.part = Part::Out;
    }

    fn begin_err(&mut self) {
        self.err.clear();
        self.part = Part::Err;
    }

    /// The words of the command, of which one that is no text is left out.
    pub fn put_words(&mut self, text: &[u8]) -> Result<(), AllocError> {
        self.words.clear();
        if text.is_empty() {
            return Ok(());
        }
        for word in text.split(|byte| *byte == b' ') {
            if let Ok(word) = str::from_utf8(word) {
                self.words.push(String::from_str(self.alloc, word)?)?;
            }
        }
        Ok(())
    }

    // An empty file of that name, to which the next lines belong.
    fn open(&mut self, name: &'a [u8]) -> Result<(), AllocError> {
        self.files.retain(|file| file.name != name);
        self.part = Part::File;
        let text = Vec::new(self.alloc);
        self.files.push(CaseFile { name, text })?;
        Ok(())
    }
}
