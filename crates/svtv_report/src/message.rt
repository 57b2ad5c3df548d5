// What is said of a call that prints nothing.
ghost use Rattle.std.specs.Prelude.{◌≡◌, ◌++◌, IfOk, OnOk, codes, decimal};
ghost use Rattle.svtv_report.specs.Refusals as spec;
ghost use Rattle.svtv_report.specs.Refusals.{count_text, memory_text, place_text, read_fault_text, refusal_text, usage_text};
ghost use Rattle.svtv_report.specs.Texts.{line_feed};

use crate::refusal::word_of;
use itoa::Buffer;
use std::alloc::{AllocError, Global};
use sv_outside::{Name, Place, Refusal, refusals};

// `NAME:LINE:COLUMN: `, behind so much.
fn push_place(text: &mut Vec<u8>, name: &Name, place: Place) -> Result<(), AllocError>
    ensures { OnOk result (text.new.items ≡ text.old.items ++ place_text name.now place) }
{
    let mut buffer = Buffer::new();
    text.extend_from_slice(name.bytes())?;
    text.push(b':')?;
    text.extend_from_slice(buffer.format(place.line).as_bytes())?;
    text.push(b':')?;
    text.extend_from_slice(buffer.format(place.column).as_bytes())?;
    text.extend_from_slice(b": ")?;
    Ok(())
}

// The count of a refusal that is told with one.
fn push_count(text: &mut Vec<u8>, refusal: &Refusal) -> Result<(), AllocError>
    ensures { OnOk result (text.new.items ≡ text.old.items ++ count_text refusal.now) }
{
    let mut buffer = Buffer::new();
    if refusal.number == refusals::TOP_UNCLEAR || refusal.number == refusals::LOOP_TOO_WIDE {
        text.push(b' ')?;
        text.extend_from_slice(buffer.format(refusal.count).as_bytes())?;
    }
    Ok(())
}

// `E<number> <Word>`, with the count of E10 and E39.
fn push_refusal(text: &mut Vec<u8>, refusal: &Refusal) -> Result<(), AllocError>
    ensures { OnOk result (text.new.items ≡ text.old.items ++ (codes "E" ++ (decimal refusal.now.number ++ (codes " " ++ (spec.word_of refusal.now.number ++ (count_text refusal.now ++ line_feed)))))) }
{
    let mut buffer = Buffer::new();
    text.push(b'E')?;
    text.extend_from_slice(buffer.format(refusal.number).as_bytes())?;
    text.push(b' ')?;
    text.extend_from_slice(word_of(refusal.number))?;
    push_count(text, refusal)?;
    text.push(b'\n')?;
    Ok(())
}

/// A refusal in a file of a name: `NAME:LINE:COLUMN: E<number> <Word>`, with the count of E10 and E39.
pub fn refusal_text(alloc: Global, name: &Name, refusal: &Refusal) -> Result<Vec<u8>, AllocError>
    ensures { IfOk result (λ text. text.items ≡ refusal_text name.now refusal.now) }
{
    let mut text = Vec::new(alloc);
    push_place(&mut text, name, refusal.place)?;
    push_refusal(&mut text, refusal)?;
    Ok(text)
}

/// A file that was not read: `NAME:LINE:COLUMN: read fault`.
pub fn read_fault_text(alloc: Global, name: &Name, place: Place) -> Result<Vec<u8>, AllocError>
    ensures { IfOk result (λ text. text.items ≡ read_fault_text name.now place) }
{
    let mut text = Vec::new(alloc);
    push_place(&mut text, name, place)?;
    text.extend_from_slice(b"read fault\n")?;
    Ok(text)
}

/// How the commands are used.
pub fn usage_text() -> &'static [u8]
    ensures { result.now ≡ usage_text }
{
    b"usage: svtv prove DESIGN TABLE GOALS [--top M] [--budget N]\n       svtv sim DESIGN TABLE VALUES [--top M] [--vcd]\n       svtv dump DESIGN [--top M]\n       svtv selftest N\n       svtv cert DESIGN TABLE GOALS GOAL [--top M] [--budget N]\n       svtv check CERT\n       svtv induct DESIGN RESET PERIOD INVS [--top M] [--budget N]\n       svtv wave VCD PATH\n"
}

/// Want of memory.
pub fn memory_text() -> &'static [u8]
    ensures { result.now ≡ memory_text }
{
    b"svtv: out of memory\n"
}
