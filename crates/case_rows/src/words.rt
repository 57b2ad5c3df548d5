//! Words and numbers of case files: parts of lines, decimal numbers, names in tables, and texts put behind one another. Parts
//! are slices of the file and nothing is copied. A row that can not be read is a fault and no panic, since files are written by
//! hand; digits are put from the greatest power on, which needs no buffer to turn round.

use std::alloc::{AllocError, AllocFailed};

/// Why a row was not judged.
#[derive(Clone, Copy)]
pub enum Fault {
    /// Want of memory.
    Memory,
    /// The row is none that the key knows.
    Form,
}

impl From<AllocError> for Fault {
    fn from(_error: AllocError) -> Fault {
        Fault::Memory
    }
}

impl<T: Drop> From<AllocFailed<T>> for Fault {
    fn from(_failed: AllocFailed<T>) -> Fault {
        Fault::Memory
    }
}

/// The part at a place, counted from 0, of what stands between the bytes `between`; none is empty past the last.
pub fn part(text: &[u8], between: u8, at: usize) -> &[u8] {
    let mut left = at;
    for part in text.split(|c| *c == between) {
        if left == 0 {
            return part;
        }
        left -= 1;
    }
    b""
}

/// The word at a place, counted from 0; it is empty past the last.
pub fn word(text: &[u8], at: usize) -> &[u8] {
    let mut left = at;
    for word in text.split(|c| *c == b' ') {
        if !word.is_empty() {
            if left == 0 {
                return word;
            }
            left -= 1;
        }
    }
    b""
}

// The text without blanks before it.
fn trimmed_left(text: &[u8]) -> &[u8] {
    let start = text.iter().position(|c| *c != b' ').unwrap_or(text.len());
    text.get(start..).unwrap_or(b"")
}

// The text without blanks behind it.
fn trimmed_right(text: &[u8]) -> &[u8] {
    let mut end = 0;
    for at in 0..text.len() {
        if text[at] != b' ' {
            end = at + 1;
        }
    }
    text.get(..end).unwrap_or(b"")
}

/// The text without blanks round it.
pub fn trimmed(text: &[u8]) -> &[u8] {
    trimmed_left(trimmed_right(text))
}

/// What stands behind the first words, so many of them.
pub fn words_from(text: &[u8], count: usize) -> &[u8] {
    let mut rest = trimmed_left(text);
    for _ in 0..count {
        let end = rest.iter().position(|c| *c == b' ').unwrap_or(rest.len());
        rest = trimmed_left(rest.get(end..).unwrap_or(b""));
    }
    rest
}

/// The two sides of `question => answer`, without blanks round them.
pub fn sides(row: &[u8]) -> (&[u8], &[u8]) {
    let arrow = row
        .windows(2)
        .position(|w| w == b"=>".as_slice())
        .unwrap_or(row.len());
    let question = row.get(..arrow).unwrap_or(b"");
    let answer = row.get(arrow.saturating_add(2)..).unwrap_or(b"");
    (trimmed(question), trimmed(answer))
}

/// The text of a row, where a line is one.
pub fn rows_of(line: &[u8]) -> Option<&[u8]> {
    match line {
        [b'|', b' ', row @ ..] => Some(row),
        [b'|', row @ ..] => Some(row),
        _ => None,
    }
}

/// Keeps the rows of a block in place of what was kept, each with its line feed.
pub fn keep_lines(kept: &mut Vec<u8>, block: &[u8]) -> Result<(), Fault> {
    kept.clear();
    for line in block.split(|c| *c == b'\n') {
        if let Some(row) = rows_of(line) {
            put(kept, row)?;
            put(kept, b"\n")?;
        }
    }
    Ok(())
}

/// A decimal number.
pub fn number(word: &[u8]) -> Option<u64> {
    if word.is_empty() {
        return None;
    }
    let mut value: u64 = 0;
    for code in word {
        let digit = code.checked_sub(b'0')?;
        if digit > 9 {
            return None;
        }
        value = value.checked_mul(10)?.checked_add(u64::from(digit))?;
    }
    Some(value)
}

/// A decimal number below 256.
pub fn small(word: &[u8]) -> Option<u8> {
    u8::try_from(number(word)?).ok()
}

/// A number, where a row must have one.
pub fn size(word: &[u8]) -> Result<usize, Fault> {
    let value = number(word).ok_or(Fault::Form)?;
    Ok(usize::try_from(value).unwrap_or(0))
}

/// A decimal number, and whether a `-` stands before it.
pub fn signed(word: &[u8]) -> Option<(bool, u64)> {
    match word {
        [b'-', digits @ ..] => Some((true, number(digits)?)),
        _ => Some((false, number(word)?)),
    }
}

/// What a name stands for in a table of names.
pub fn named<T: Copy>(table: &[(&[u8], T)], name: &[u8]) -> Option<T> {
    for (word, what) in table {
        if *word == name {
            return Some(*what);
        }
    }
    None
}

/// What the first word of a text stands for in a table of names, where it must be one of them.
pub fn first_named<T: Copy>(table: &[(&[u8], T)], text: &[u8]) -> Result<T, Fault> {
    named(table, word(text, 0)).ok_or(Fault::Form)
}

/// The number that the word at a place is, where there must be one.
pub fn size_at(text: &[u8], at: usize) -> Result<usize, Fault> {
    size(word(text, at))
}

/// The number below 256 that the word at a place is, where there must be one.
pub fn small_at(text: &[u8], at: usize) -> Result<u8, Fault> {
    small(word(text, at)).ok_or(Fault::Form)
}

/// Puts a text behind another.
pub fn put(out: &mut Vec<u8>, text: &[u8]) -> Result<(), Fault> {
    out.extend_from_slice(text)?;
    Ok(())
}

/// Puts three texts, one behind the other.
pub fn put_three(
    out: &mut Vec<u8>,
    first: &[u8],
    second: &[u8],
    third: &[u8],
) -> Result<(), Fault> {
    put(out, first)?;
    put(out, second)?;
    put(out, third)
}

/// Puts how many there are of something.
pub fn put_size(out: &mut Vec<u8>, size: usize) -> Result<(), Fault> {
    put_number(out, size as u64)
}

// The digit of a number at a power of ten.
fn digit_at(number: u64, power: u64) -> u8 {
    let digit = number.checked_div(power).unwrap_or(0) % 10;
    b'0' + digit as u8
}

// The powers of ten from the greatest on.
static POWERS: [u64; 20] = [
    10_000_000_000_000_000_000,
    1_000_000_000_000_000_000,
    100_000_000_000_000_000,
    10_000_000_000_000_000,
    1_000_000_000_000_000,
    100_000_000_000_000,
    10_000_000_000_000,
    1_000_000_000_000,
    100_000_000_000,
    10_000_000_000,
    1_000_000_000,
    100_000_000,
    10_000_000,
    1_000_000,
    100_000,
    10_000,
    1_000,
    100,
    10,
    1,
];

/// Puts a number in decimal digits.
pub fn put_number(out: &mut Vec<u8>, number: u64) -> Result<(), Fault> {
    for power in &POWERS {
        if *power <= number || *power == 1 {
            out.push(digit_at(number, *power))?;
        }
    }
    Ok(())
}
