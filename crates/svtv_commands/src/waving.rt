// Value change dumps that are read. The line of a change is made as the change is met in the text, so that beside the text and the lines
// nothing is held but the signals.
ghost use Rattle.std.specs.Prelude.{◌≡◌, ◌≤◌, ◌⊎◌, ℕ, List, Some, None, Err, IfOk, OnOk, IfErr};
ghost use Rattle.fourvec.specs.declared.Bit.{Bit};
ghost use Rattle.sv_outside.specs.Outside.{Rose};
ghost use Rattle.sv_outside.specs.declared.refusal.Refusal.{Refusal as ARefusal};
ghost use Rattle.sv_outside.specs.declared.refusal.TextErr.TheVariants.{No};
ghost use Rattle.sv_preproc.specs.Laws.{Possible};
ghost use Rattle.svtv_commands.specs.Done.{Shows};
ghost use Rattle.svtv_files.specs.Files.{Text as AText, Told};
ghost use Rattle.svtv_files.specs.Refusals.{IsBadDump, IsSignalUnknown, LeavesWave, RefusesWave, at_first};
ghost use Rattle.svtv_files.specs.Stopping.{Counts, IfUnread, Stops};
ghost use Rattle.svtv_report.specs.Texts as texts;
ghost use Rattle.vcd_text.specs.Waves.{told_of_path};

use std::alloc::{AllocError, Global};
use sv_outside::{Files, Name, TextErr};
use svtv_files::{Stop, read, refused};
use svtv_report::push_change;
use vcd_text::{SignalChanges, Waves, read_vcd, signal_changes};

// A line for each of the changes that are left.
fn change_lines(alloc: Global, changes: SignalChanges<'_, '_>) -> Result<Vec<u8>, AllocError>
    ensures { IfOk result (λ text. text.items ≡ texts.change_lines changes.entry) }
{
    let mut left = changes;
    let mut text = Vec::new(alloc);
    'changes: while let Some((time, value)) = left.next() {
        push_change(&mut text, time, &value)?;
    }
    Ok(text)
}

// The lines of the first signal with a path.
fn lines_of(alloc: Global, waves: &Waves<'_>, path: &Name) -> Result<Vec<u8>, TextErr>
    ensures told { IfOk result (λ text. (list : List (ℕ × List Bit)) × (told_of_path waves.now.vars waves.now.changes path.now ≡ Some list) × (text.items ≡ texts.change_lines list)) }
    ensures refused { (r : ARefusal) → result ≡ Err (No r) → (told_of_path waves.now.vars waves.now.changes path.now ≡ None) × (r ≡ record { number = 48; place = at_first; count = 0 }) }
{
    match signal_changes(waves, path) {
        Ok(changes) => {
            let text = change_lines(alloc, changes)?;
            Ok(text)
        }
        Err(refusal) => Err(TextErr::No(refusal)),
    }
}

// The lines of the first signal with a path, by the dump that a text is.
fn shown(alloc: Global, text: &[u8], path: &Name) -> Result<Vec<u8>, TextErr>
    ensures shows { (told : Told) (file : AText) → Possible told file text.now → IfOk result (λ lines. Shows told file path.now lines.items) }
    ensures refused { (told : Told) (file : AText) → Possible told file text.now → (r : ARefusal) → result ≡ Err (No r) → IsBadDump told file r ⊎ IsSignalUnknown told file path.now r }
{
    match read_vcd(alloc, text) {
        Ok(waves) => lines_of(alloc, &waves, path),
        Err(error) => Err(error),
    }
}

/// A line for each change of the first signal with a path, by the value change dump that the file of that name is, or why there is none.
#[tactic(auto, using(crate::proofs::Counting::of_counts))]
pub fn wave<F: Files>(
    alloc: Global,
    files: &mut F,
    file: &Name,
    path: &Name,
) -> Result<Vec<u8>, Stop>
    ensures shows { IfOk result (λ text. Shows (F.contents files.old) file.now path.now text.items) }
    ensures stop { IfErr result (Stops (RefusesWave (F.contents files.old) file.now path.now) (LeavesWave file.now)) }
    ensures rose { IfErr result (IfUnread (Rose (F.faults files.old) (F.faults files.new))) }
    ensures kept { OnOk result (F.faults files.new ≡ F.faults files.old) }
    ensures counts { IfErr result (λ stop. Counts stop (F.faults files.old) (F.faults files.new)) }
    ensures unchanged { (other : List ℕ) → F.contents files.new other ≡ F.contents files.old other }
    ensures counts_up { F.faults files.old ≤ F.faults files.new }
{
    let text = match read(alloc, files, file) {
        Ok(text) => text,
        Err(stop) => return Err(stop),
    };
    match shown(alloc, &text, path) {
        Ok(lines) => Ok(lines),
        Err(error) => Err(refused(file, error)),
    }
}
