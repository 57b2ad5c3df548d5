//! The changes of one signal, which is the first one with a path. They are found by its code while the text is gone over once
//! more, and each value is made as wide as the signal, so nothing is held for the other signals. A signal of real numbers has no
//! changes.

ghost use Rattle.std.specs.Prelude.{◌≡◌, ◌∷◌, ◌++◌, [], None, Some, Err, IfOk, IfErr, MatchOption, List, option_copied, if◌then◌else◌};
ghost use Rattle.std.specs.Str.{bytes_eq};
ghost use Rattle.sv_outside.specs.declared.refusal.Refusal.{Refusal as ARefusal};
ghost use Rattle.sv_outside.specs.declared.refusal.TextErr.TheVariants.{No};
ghost use Rattle.vcd_text.specs.Words.{start};
ghost use Rattle.vcd_text.specs.Waves.{is_width, var_of, told_of_path};
ghost use Rattle.vcd_text.specs.Said.{GivesUnder};
ghost use Rattle.vcd_text.specs.Refusals.{refused};

use crate::changes::Changes;
use crate::scan::WrittenChange;
use crate::values::fitted;
use crate::waves::{VarKind, VcdVar, Waves};
use fourvec::Four;
use std::alloc::Global;
use std::marker::Model;
use sv_outside::{FILE_START, Name, Refusal, TextErr, refusals};

/// The changes of a signal that are left, each with the value that it gives. They stand in the text, and take no memory.
pub struct SignalChanges<'w, 'a> {
    changes: Changes<'a>,
    kind: VarKind,
    code: &'w [u8],
    width: u8,
}

impl<'w, 'a> Drop for SignalChanges<'w, 'a> {
    fn drop(self) {
        let SignalChanges {
            changes: _,
            kind: _,
            code: _,
            width: _,
        } = self;
    }
}

impl<'w, 'a> Model for SignalChanges<'w, 'a> {
    ghost use Rattle.std.specs.Prelude.{List, ℕ, ◌<◌, ◌≤◌};
    ghost use Rattle.fourvec.specs.declared.Bit.{Bit};
    ghost use Rattle.vcd_text.specs.Waves.{holding, changes_under};

    ghost Value = { List (ℕ × List Bit) };

    ghost view = { λ a. holding a.kind (changes_under a.code.now a.width a.changes) };

    ghost invariant = { λ a. (0 < a.width) × (a.width ≤ 128) };
}

fn is_same(code: &[u8], other: &[u8]) -> bool
    ensures { result ≡ bytes_eq code.now other.now }
{
    code == other
}

// The next change under a code.
fn next_under<'a>(changes: &mut Changes<'a>, code: &[u8]) -> Option<WrittenChange<'a>>
    ensures { GivesUnder code.now changes.old result changes.new }
{
    'changes: while let Some(change) = changes.next() {
        if is_same(code, change.code) {
            return Some(change);
        }
    }
    None
}

impl<'w, 'a> SignalChanges<'w, 'a> {
    /// The next change: its time, and the value that it gives.
    pub fn next(&mut self) -> Option<(u64, Four)>
        ensures { MatchOption result (self.old ≡ []) (λ change. self.old ≡ change ∷ self.new) }
    {
        if let VarKind::Number = self.kind {
            return None;
        }
        let change = next_under(&mut self.changes, self.code)?;
        Some((change.time, fitted(change.bits, self.width)))
    }
}

// The first signal with a path.
fn var_of<'a>(vars: &'a [VcdVar], path: &[u8]) -> Option<&'a VcdVar>
    ensures { option_copied result ≡ var_of vars.now path.now }
{
    vars.iter().find(|v| path == v.path.bytes())
}

// A width of 1 to 128.
fn width_of(width: usize) -> Option<u8>
    ensures { result ≡ (if is_width width then Some width else None) }
{
    if 0 < width && width <= 128 {
        Some(width as u8)
    } else {
        None
    }
}

fn no_signal() -> Refusal
    ensures { result ≡ refused 48 start }
{
    Refusal {
        number: refusals::VCD_SIGNAL,
        place: FILE_START,
        count: 0,
    }
}

/// The changes of the first signal with a path, in order. It is refused where there is no such signal, or its width is not 1 to 128.
pub fn signal_changes<'w, 'a>(
    waves: &'w Waves<'a>,
    path: &Name,
) -> Result<SignalChanges<'w, 'a>, Refusal>
    ensures told { IfOk result (λ changes. told_of_path waves.entry.now.vars waves.entry.now.changes path.now ≡ Some changes) }
    ensures refused { IfErr result (λ r. (told_of_path waves.entry.now.vars waves.entry.now.changes path.now ≡ None) × (r ≡ refused 48 start)) }
{
    let Some(var) = var_of(waves.vars.as_slice(), path.bytes()) else {
        return Err(no_signal());
    };
    let Some(width) = width_of(var.width) else {
        return Err(no_signal());
    };
    Ok(SignalChanges {
        changes: waves.changes.again(),
        kind: var.kind,
        code: var.code.bytes(),
        width,
    })
}

/// The changes of the first signal with a path, in order, each with the value that it gives. The text is gone over once more.
pub fn changes_of(
    alloc: Global,
    waves: &Waves<'_>,
    path: &Name,
) -> Result<Vec<(u64, Four)>, TextErr>
    ensures told { IfOk result (λ v. told_of_path waves.now.vars waves.now.changes path.now ≡ Some v.items) }
    ensures refused { (r : ARefusal) → result ≡ Err (No r) → (told_of_path waves.now.vars waves.now.changes path.now ≡ None) × (r ≡ refused 48 start) }
{
    let mut left = match signal_changes(waves, path) {
        Ok(left) => left,
        Err(refusal) => return Err(TextErr::No(refusal)),
    };
    let mut told = Vec::new(alloc);
    'changes: while let Some(change) = left.next() {
        told.push(change)?;
    }
    Ok(told)
}
