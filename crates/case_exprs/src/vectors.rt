//! Vectors as rows of digits, the most significant first. A `_` is passed over, and a part `0*127` between two of them is a
//! digit so many times, so that wide vectors are short to write. A vector grows by one digit below it and is refused past 128
//! bits, which is as wide as one may be; no digits at all are no vector.

ghost use Rattle.std.specs.Prelude.{◌≡◌, length, IfSome};

use case_rows::{Fault, small};
use fourvec::{Bit, Four};

#[tactic(auto, using(fourvec::proofs::Basic::views))]
fn digit(code: u8) -> Option<Four>
    ensures { IfSome result (λ d. length d ≡ 1) }
{
    match code {
        b'0' => Some(Four::new(1, 0, 0)),
        b'1' => Some(Four::new(1, 1, 1)),
        b'x' => Some(Four::new(1, 1, 0)),
        b'z' => Some(Four::new(1, 0, 1)),
        _ => None,
    }
}

// A vector with one more digit below it.
fn grown(above: Option<Four>, code: u8) -> Option<Four> {
    let next = digit(code)?;
    match above {
        None => Some(next),
        Some(above) => {
            if above.width() == 128 {
                return None;
            }
            Some(above.concat(&next))
        }
    }
}

fn with_copies(above: Option<Four>, code: u8, times: u8) -> Option<Four> {
    let mut value = above;
    for _ in 0..times {
        value = Some(grown(value, code)?);
    }
    value
}

fn with_digits(above: Option<Four>, part: &[u8]) -> Option<Four> {
    let mut value = above;
    for code in part {
        value = Some(grown(value, *code)?);
    }
    value
}

/// The vector of a row of digits.
pub fn digits(word: &[u8]) -> Option<Four> {
    let mut value: Option<Four> = None;
    for part in word.split(|c| *c == b'_') {
        value = match part {
            [code, b'*', times @ ..] => with_copies(value, *code, small(times)?),
            _ => with_digits(value, part),
        };
        if value.is_none() {
            return None;
        }
    }
    value
}

/// Puts the vectors of words behind those of a list.
pub fn read_vectors(list: &mut Vec<Four>, words: &[u8]) -> Result<(), Fault> {
    for word in words.split(|c| *c == b' ') {
        if !word.is_empty() {
            let next = digits(word).ok_or(Fault::Form)?;
            list.push(next)?;
        }
    }
    Ok(())
}

fn code_of(bit: Bit) -> u8 {
    match bit {
        Bit::Zero => b'0',
        Bit::One => b'1',
        Bit::Unknown => b'x',
        Bit::Floating => b'z',
    }
}

/// Puts the digits of a vector.
pub fn put_digits(out: &mut Vec<u8>, value: &Four) -> Result<(), Fault> {
    let width = value.width();
    for below in 0..width {
        out.push(code_of(value.bit(width - 1 - below)))?;
    }
    Ok(())
}

/// Puts the digits of vectors, with a blank between two.
pub fn put_vectors(out: &mut Vec<u8>, values: &[Four]) -> Result<(), Fault> {
    for value in values {
        if !out.is_empty() {
            out.push(b' ')?;
        }
        put_digits(out, value)?;
    }
    Ok(())
}
