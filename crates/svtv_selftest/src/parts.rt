// Texts that are put together of words and numbers.
ghost use Rattle.std.specs.Prelude.{◌≡◌, ◌++◌, OnOk, decimal};
ghost use Rattle.std.specs.List.{flat_map};
ghost use Rattle.svtv_selftest.specs.Seen.{part_text};
ghost use Rattle.svtv_selftest.specs.Texts.{often};

use itoa::Buffer;
use std::alloc::AllocError;

/// A part of a text: a word, a number in decimal digits, or a word so often.
#[derive(Clone, Copy)]
pub(crate) enum Part {
    Word(&'static [u8]),
    Number(u64),
    Often(u64, &'static [u8]),
}

fn push_number(text: &mut Vec<u8>, number: u64) -> Result<(), AllocError>
    ensures { OnOk result (text.new.items ≡ text.old.items ++ decimal number) }
{
    let mut buffer = Buffer::new();
    text.extend_from_slice(buffer.format(number).as_bytes())
}

fn push_often(text: &mut Vec<u8>, count: u64, word: &[u8]) -> Result<(), AllocError>
    ensures { OnOk result (text.new.items ≡ text.old.items ++ often count word.now) }
{
    'words: for k in 0..count {
        text.extend_from_slice(word)?;
    }
    Ok(())
}

fn push_part(text: &mut Vec<u8>, part: Part) -> Result<(), AllocError>
    ensures { OnOk result (text.new.items ≡ text.old.items ++ part_text part) }
{
    match part {
        Part::Word(word) => text.extend_from_slice(word),
        Part::Number(number) => push_number(text, number),
        Part::Often(count, word) => push_often(text, count, word),
    }
}

/// Puts the parts behind a text, in order.
pub(crate) fn push_parts(text: &mut Vec<u8>, parts: &[Part]) -> Result<(), AllocError>
    ensures { OnOk result (text.new.items ≡ text.old.items ++ flat_map part_text parts.now) }
{
    'parts: for part in parts {
        push_part(text, *part)?;
    }
    Ok(())
}
