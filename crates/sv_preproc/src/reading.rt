// Reads files with their directives. A file is read by one call of the files, cut and counted before its tokens are
// looked at, and what it includes is read in the same way, by one more call of `read_all` with one include less that may
// nest. All else that an item does stands in `stepping`, outside of that cycle, since each exit of a function in a cycle
// is dear to prove. Reading ends at the first failed read, so each call says exactly how many have failed.
ghost use Rattle.std.specs.Prelude.{◌≡◌, ◌≤◌, ◌<◌, ◌+◌, [], ℕ, List, length, IfOk, OnOk, IfErr};
ghost use Rattle.sv_outside.specs.Outside.{counted};
ghost use Rattle.sv_token.specs.Cut as cut;
ghost use Rattle.sv_preproc.specs.Directives as spec;
ghost use Rattle.sv_preproc.specs.Laws.{Possible};
ghost use Rattle.sv_preproc.specs.Reached as reached;
ghost use Rattle.sv_preproc.specs.Roles as roles;
ghost use Rattle.sv_preproc.specs.Seen.{seen, Names, IsNotRead, NotEntered, NotIncluded, NotCut, IsTakenIn, Enters, Reads, HasCause, is_read_fault};
ghost use Rattle.sv_preproc.specs.declared.error.ItemErr.TheVariants.{Refused};

use crate::error::{ItemErr, PreErr};
use crate::known::{Frame, Known};
use crate::macros::MOST_COUNTED;
use crate::stepping::{Step, read_item, refusal};
use std::alloc::Global;
use sv_outside::{FILE_START, FileErr, Files, Name, Place, TextErr, Token, refusals};
use sv_token::{Lined, end_of, lex_lines};

/// Where a file begins.
pub fn start_of(file: usize) -> Place
    ensures { result ≡ cut.start file }
{
    Place { file, ..FILE_START }
}

// Why a file's bytes are not answered: it was not read for the directive at a place of another file, or is too long.
fn not_read(why: FileErr, at: Place, asked: Name, start: Place, name: &Name) -> PreErr
    ensures { IsNotRead why at asked start name.now result }
{
    match why {
        FileErr::Failed => PreErr::Read(at, asked),
        FileErr::Long => refusal(ItemErr::Refused(refusals::TOO_LONG), start, name),
        FileErr::Memory => PreErr::Memory,
    }
}

// Reads a file's bytes for the directive at a place of another file, by one read. The name for a read fault is
// copied first, so that no want of memory hides one.
fn bytes_of<F: Files>(
    alloc: Global,
    files: &mut F,
    known: &Known,
    name: &Name,
    at: Place,
    asked: &Name,
) -> Result<Vec<u8>, PreErr>
    ensures read { IfOk result (λ text. Possible (F.contents files.old) name.now text.items) }
    ensures short { IfOk result (λ text. length text.items ≤ cut.most_bytes) }
    ensures caused { IfErr result (HasCause (NotEntered (Possible (F.contents files.old)) (seen known.now) name.now at asked.now)) }
    ensures kept { OnOk result (F.faults files.new ≡ F.faults files.old) }
    ensures counts { IfErr result (λ e. F.faults files.new ≡ counted (is_read_fault e) (F.faults files.old)) }
    ensures unchanged { (other : List ℕ) → F.contents files.new other ≡ F.contents files.old other }
    ensures counts_up { F.faults files.old ≤ F.faults files.new }
{
    let file = asked.copy()?;
    match files.read(alloc, name) {
        Ok(text) => Ok(text),
        Err(why) => Err(not_read(why, at, file, start_of(known.files.len()), name)),
    }
}

// Cuts a file's text as the next file, where its tokens may be counted.
fn cut_file(alloc: Global, known: &Known, name: &Name, text: &[u8]) -> Result<Vec<Lined>, PreErr>
    requires { known.now.counted ≤ spec.most_counted }
    ensures cut { IfOk result (λ lines. cut.LexesLines (length known.now.files.items) text.now lines.items) }
    ensures within { IfOk result (λ lines. known.now.counted + length lines.items ≤ spec.most_counted) }
    ensures caused { IfErr result (HasCause (NotCut (seen known.now) name.now text.now)) }
{
    let lines = match lex_lines(alloc, known.files.len(), text) {
        Ok(lines) => lines,
        Err(TextErr::No(refusal)) => {
            let file = name.copy()?;
            return Err(PreErr::No(refusal, file));
        }
        Err(TextErr::Memory) => return Err(PreErr::Memory),
    };
    let left = MOST_COUNTED - known.counted;
    if lines.len() > left {
        return Err(refusal(
            ItemErr::Refused(refusals::TOO_LONG),
            lines[left].token.place,
            name,
        ));
    }
    Ok(lines)
}

/// A file that is read: its tokens, and where it ends.
pub struct Entered {
    pub lines: Vec<Lined>,
    pub end: Place,
}

// Its vector is dropped by one call at each exit.
impl Drop for Entered {
    fn drop(self) {
        let Entered { lines: _, end: _ } = self;
    }
}

// Cuts a file's text as the next file, and counts its tokens.
fn take_in(alloc: Global, known: &mut Known, name: &Name, text: &[u8]) -> Result<Entered, PreErr>
    requires { (known.old.counted ≤ spec.most_counted) × (length text.now ≤ cut.most_bytes) }
    ensures taken { IfOk result (λ v. IsTakenIn (seen known.old) (seen known.new) name.now text.now v.lines.items v.end) }
    ensures within { OnOk result (known.new.counted ≤ spec.most_counted) }
    ensures caused { IfErr result (HasCause (NotCut (seen known.old) name.now text.now)) }
{
    let file = name.copy()?;
    let entered = Entered {
        lines: cut_file(alloc, known, name, text)?,
        end: end_of(known.files.len(), text),
    };
    known.files.push(file)?;
    known.counted += entered.lines.len();
    Ok(entered)
}

/// Reads a file for the directive at a place of another file, and counts its tokens.
pub fn enter<F: Files>(
    alloc: Global,
    files: &mut F,
    known: &mut Known,
    name: &Name,
    at: Place,
    asked: &Name,
) -> Result<Entered, PreErr>
    requires { known.old.counted ≤ spec.most_counted }
    ensures enters { IfOk result (λ v. Enters (Possible (F.contents files.old)) (seen known.old) (seen known.new) name.now v.lines.items v.end) }
    ensures within { OnOk result (known.new.counted ≤ spec.most_counted) }
    ensures caused { IfErr result (HasCause (NotEntered (Possible (F.contents files.old)) (seen known.old) name.now at asked.now)) }
    ensures kept { OnOk result (F.faults files.new ≡ F.faults files.old) }
    ensures counts { IfErr result (λ e. F.faults files.new ≡ counted (is_read_fault e) (F.faults files.old)) }
    ensures unchanged { (other : List ℕ) → F.contents files.new other ≡ F.contents files.old other }
    ensures counts_up { F.faults files.old ≤ F.faults files.new }
{
    let text = bytes_of(alloc, files, known, name, at, asked)?;
    take_in(alloc, known, name, &text)
}

#[tactic(auto, using(crate::proofs::Files::without_last_of, crate::proofs::Files::without_none))]
fn between_quotes(text: &[u8]) -> &[u8]
    ensures { result.now ≡ roles.between_quotes text.now }
{
    let Some((_, behind)) = text.split_first() else {
        return text;
    };
    match behind.split_last() {
        Some((_, inner)) => inner,
        None => behind,
    }
}

// A file that is included, with its name.
struct Included {
    name: Name,
    file: Entered,
}

impl Drop for Included {
    fn drop(self) {
        let Included { name: _, file: _ } = self;
    }
}

// Reads the file that a directive of another file includes, where so many includes may still nest.
fn include<F: Files>(
    alloc: Global,
    files: &mut F,
    room: usize,
    known: &mut Known,
    directive: &Token,
    path: &Token,
    asked: &Name,
) -> Result<Included, PreErr>
    requires { known.old.counted ≤ spec.most_counted }
    ensures allowed { IfOk result (λ _. 1 ≤ room) }
    ensures named { IfOk result (λ v. v.name ≡ roles.between_quotes path.now.text) }
    ensures enters { IfOk result (λ v. Enters (Possible (F.contents files.old)) (seen known.old) (seen known.new) v.name v.file.lines.items v.file.end) }
    ensures within { OnOk result (known.new.counted ≤ spec.most_counted) }
    ensures caused { IfErr result (HasCause (NotIncluded (Possible (F.contents files.old)) room (seen known.old) (roles.between_quotes path.now.text) directive.now.place asked.now)) }
    ensures kept { OnOk result (F.faults files.new ≡ F.faults files.old) }
    ensures counts { IfErr result (λ e. F.faults files.new ≡ counted (is_read_fault e) (F.faults files.old)) }
    ensures unchanged { (other : List ℕ) → F.contents files.new other ≡ F.contents files.old other }
    ensures counts_up { F.faults files.old ≤ F.faults files.new }
{
    if room == 0 {
        return Err(refusal(
            ItemErr::Refused(refusals::INCLUDE_DEEP),
            directive.place,
            asked,
        ));
    }
    let name = Name::new(alloc, between_quotes(path.text.bytes()))?;
    let file = enter(alloc, files, known, &name, directive.place, asked)?;
    Ok(Included { name, file })
}

// A file with an open conditional is refused at its end.
fn closed(frames: &[Frame], end: Place, file: &Name) -> Result<(), PreErr>
    ensures closed { OnOk result (frames.now ≡ []) }
    ensures refused { IfErr result (λ e. (0 < length frames.now) × Names (Refused 5) end file.now e) }
{
    if !frames.is_empty() {
        return Err(refusal(ItemErr::Refused(refusals::UNBALANCED), end, file));
    }
    Ok(())
}

/// Writes what the tokens of a file stand for, with so many includes left that may nest.
pub fn read_all<F: Files>(
    alloc: Global,
    files: &mut F,
    room: usize,
    file: &Name,
    lines: &[Lined],
    end: Place,
    known: &mut Known,
    out: &mut Vec<Token>,
) -> Result<(), PreErr>
    requires { known.old.counted ≤ spec.most_counted }
    ensures reads { OnOk result (Reads (Possible (F.contents files.old)) room (seen known.old) lines.now out.old.items out.new.items (seen known.new)) }
    ensures within { OnOk result (known.new.counted ≤ spec.most_counted) }
    ensures caused { IfErr result (HasCause (reached.Stops (Possible (F.contents files.old)) room (seen known.old) lines.now end file.now)) }
    ensures kept { OnOk result (F.faults files.new ≡ F.faults files.old) }
    ensures counts { IfErr result (λ e. F.faults files.new ≡ counted (is_read_fault e) (F.faults files.old)) }
    ensures unchanged { (other : List ℕ) → F.contents files.new other ≡ F.contents files.old other }
    ensures counts_up { F.faults files.old ≤ F.faults files.new }
{
    let mut live = true;
    let mut frames: Vec<Frame> = Vec::new(alloc);
    let mut rest = lines;
    'items: while let Some((first, after)) = rest.split_first() {
        match read_item(alloc, known, &mut frames, live, first, after, out, file)? {
            Step::Behind(inside, behind) => {
                live = inside;
                rest = behind;
            }
            Step::Include(directive, path, behind) => {
                let inner = include(alloc, files, room, known, directive, path, file)?;
                read_all(
                    alloc,
                    files,
                    room - 1,
                    &inner.name,
                    &inner.file.lines,
                    inner.file.end,
                    known,
                    out,
                )?;
                rest = behind;
            }
        }
    }
    closed(&frames, end, file)
}
