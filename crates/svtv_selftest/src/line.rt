// The line of a self test.
ghost use Rattle.std.specs.Prelude.{◌≡◌, IfOk, map};
ghost use Rattle.std.specs.List.{count_by};
ghost use Rattle.svtv_report.specs.Seen.{verdict_is};
ghost use Rattle.svtv_selftest.specs.Line as t;
ghost use Rattle.svtv_selftest.specs.Seen as seen;

use crate::parts::{Part, push_parts};
use std::alloc::{AllocError, Global};
use svtv_report::Verdict;

// Words for a goal that a self test counts.
#[derive(Clone, Copy)]
enum Word {
    Proved,
    Vacuous,
    Failed,
}

// Whether this is said of a goal.
fn is_word(word: Word, verdict: &Verdict) -> bool
    ensures { result ≡ seen.is_word word (verdict_is verdict.now) }
{
    match word {
        Word::Proved => matches!(verdict, Verdict::Proved),
        Word::Vacuous => matches!(verdict, Verdict::Vacuous),
        Word::Failed => matches!(verdict, Verdict::Failed(_)),
    }
}

// Of how many goals it is said.
fn count_of(word: Word, verdicts: &[Verdict]) -> u64
    ensures { result ≡ count_by (seen.is_word word) (map verdict_is verdicts.now) }
{
    let mut count = 0;
    'verdicts: for verdict in verdicts {
        if is_word(word, verdict) {
            count += 1;
        }
    }
    count
}

/// The line that a self test prints: how many of its goals are proved, vacuous and failed.
pub fn line_text(alloc: Global, count: u64, verdicts: &[Verdict]) -> Result<Vec<u8>, AllocError>
    ensures { IfOk result (λ text. text.items ≡ t.line_text count (map verdict_is verdicts.now)) }
{
    let mut text = Vec::new(alloc);
    push_parts(
        &mut text,
        &[
            Part::Word(b"selftest "),
            Part::Number(count),
            Part::Word(b": "),
            Part::Number(count_of(Word::Proved, verdicts)),
            Part::Word(b" proved, "),
            Part::Number(count_of(Word::Vacuous, verdicts)),
            Part::Word(b" vacuous, "),
            Part::Number(count_of(Word::Failed, verdicts)),
            Part::Word(b" failed\n"),
        ],
    )?;
    Ok(text)
}
