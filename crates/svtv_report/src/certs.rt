// What is said of certificates.
ghost use Rattle.std.specs.Prelude.{◌≡◌, IfOk};
ghost use Rattle.svtv_report.specs.Seen.{verdict_is};
ghost use Rattle.svtv_report.specs.Texts.{cert_note, checked_text, verdict_word};

use crate::verdicts::Verdict;
use itoa::Buffer;
use std::alloc::{AllocError, Global};
use sv_outside::Name;

// The word of a verdict.
fn verdict_word(verdict: &Verdict) -> &'static [u8]
    ensures { result.now ≡ verdict_word (verdict_is verdict.now) }
{
    match verdict {
        Verdict::Proved => b"proved",
        Verdict::Vacuous => b"vacuous",
        Verdict::Failed(_) => b"failed",
        Verdict::Undecided(_) => b"undecided",
    }
}

/// The note of the certificate of a goal: its name and the word of its verdict.
pub fn cert_note(alloc: Global, name: &Name, verdict: &Verdict) -> Result<Vec<u8>, AllocError>
    ensures { IfOk result (λ note. note.items ≡ cert_note name.now (verdict_is verdict.now)) }
{
    let mut note = Vec::new(alloc);
    note.extend_from_slice(name.bytes())?;
    note.push(b' ')?;
    note.extend_from_slice(verdict_word(verdict))?;
    Ok(note)
}

/// What is said of a certificate that was checked: `verified`, or the number of the step at which it was not.
pub fn checked_text(alloc: Global, bad: Option<usize>) -> Result<Vec<u8>, AllocError>
    ensures { IfOk result (λ text. text.items ≡ checked_text bad) }
{
    let mut text = Vec::new(alloc);
    match bad {
        None => text.extend_from_slice(b"verified\n")?,
        Some(step) => {
            let mut buffer = Buffer::new();
            text.extend_from_slice(b"not verified: step ")?;
            text.extend_from_slice(buffer.format(step).as_bytes())?;
            text.push(b'\n')?;
        }
    }
    Ok(text)
}
