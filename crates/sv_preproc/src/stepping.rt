// One item at the front of what is left of a file is read, but for an include, which is only told: its file is read
// first, by `reading`. Nothing here reads files or holds anything that is owned, so that no exit has a value to drop, and
// what an item does is told as a step between two places, which the loop of `read_all` puts one behind the other.
ghost use Rattle.std.specs.Prelude.{◌≡◌, ◌≤◌, ◌&&◌, ◌++◌, ◌∷◌, [], ℕ, List, Option, Some, true, length, reverse, IfOk, OnOk, IfErr};
ghost use Rattle.sv_outside.specs.declared.refusal.Place.{Place};
ghost use Rattle.sv_preproc.specs.Directives as spec;
ghost use Rattle.sv_preproc.specs.Laws.{Possible};
ghost use Rattle.sv_preproc.specs.Reached as reached;
ghost use Rattle.sv_preproc.specs.Roles as roles;
ghost use Rattle.sv_preproc.specs.Seen.{seen, texts, point, left, Names, Steps, GoesOn, Uses, CanNotUse, IsRefusedAt, IsFaultyIn, HasCause};
ghost use Rattle.sv_preproc.specs.declared.error.PreErr.TheVariants.{Memory};

use crate::branch::{begin, turn};
use crate::error::{ItemErr, PreErr};
use crate::item::{Item, item_at};
use crate::known::{Frame, Known};
use crate::line::{line_rest, line_text, put_at};
use crate::macros::{Macros, expand_use};
use std::alloc::Global;
use sv_outside::{Name, Place, Refusal, Token};
use sv_token::Lined;

/// What is done at the front of what is left of a file.
pub enum Step<'a> {
    /// An item is read: whether the branch counts from here on, and what stands behind.
    Behind(bool, &'a [Lined]),
    /// An include, with nothing done yet: the directive, the quoted name, and what stands behind.
    Include(&'a Token, &'a Token, &'a [Lined]),
}

/// The refusal of an item, at a place of the file.
pub fn refusal(error: ItemErr, place: Place, file: &Name) -> PreErr
    ensures { Names error place file.now result }
{
    match (error, file.copy()) {
        (ItemErr::Refused(number), Ok(name)) => {
            let refusal = Refusal {
                number,
                place,
                count: 0,
            };
            PreErr::No(refusal, name)
        }
        _ => PreErr::Memory,
    }
}

// Copies a token behind those that are written.
fn keep<'a>(
    token: &Token,
    live: bool,
    behind: &'a [Lined],
    out: &mut Vec<Token>,
) -> Result<Step<'a>, PreErr>
    ensures kept { IfOk result (GoesOn (λ inside rest. (inside ≡ live) × (rest ≡ behind.now) × (out.new.items ≡ out.old.items ++ token.now ∷ []))) }
    ensures failed { IfErr result (λ e. e ≡ Memory) }
{
    put_at(token, token.place, out)?;
    Ok(Step::Behind(live, behind))
}

// Writes what the use of a macro stands for, and counts on.
fn use_macro<'a>(
    known: &mut Known,
    token: &Token,
    live: bool,
    behind: &'a [Lined],
    out: &mut Vec<Token>,
    file: &Name,
) -> Result<Step<'a>, PreErr>
    requires { known.old.counted ≤ spec.most_counted }
    ensures used { IfOk result (GoesOn (λ inside rest. (inside ≡ live) × (rest ≡ behind.now) × Uses (texts known.old.macros) token.now out.old.items out.new.items known.old.counted known.new.counted)) }
    ensures same { (texts known.new.macros ≡ texts known.old.macros) × (known.new.files ≡ known.old.files) }
    ensures within { OnOk result (known.new.counted ≤ spec.most_counted) }
    ensures refused { IfErr result (IsRefusedAt (CanNotUse (texts known.old.macros) token.now known.old.counted) token.now.place file.now) }
{
    match expand_use(&known.macros, token, out, known.counted) {
        Ok(total) => {
            known.counted = total;
            Ok(Step::Behind(live, behind))
        }
        Err(error) => Err(refusal(error, token.place, file)),
    }
}

// Defines a macro, whose text is the rest of the line.
fn define<'a>(
    alloc: Global,
    known: &mut Known,
    name: &Token,
    line: usize,
    live: bool,
    behind: &'a [Lined],
) -> Result<Step<'a>, PreErr>
    ensures defined { OnOk result (seen known.new ≡ spec.with_definition (seen known.old) name.now.text (Some (roles.line_text line behind.now))) }
    ensures rest { IfOk result (GoesOn (λ inside rest. (inside ≡ live) × (rest ≡ roles.line_rest line behind.now))) }
    ensures failed { IfErr result (λ e. e ≡ Memory) }
{
    let text = line_text(alloc, line, behind)?;
    known.macros.define(name.text.bytes(), text)?;
    Ok(Step::Behind(live, line_rest(line, behind)))
}

// Begins a conditional.
fn open<'a>(
    macros: &Macros,
    frames: &mut Vec<Frame>,
    live: bool,
    wanted: bool,
    name: &Token,
    behind: &'a [Lined],
) -> Result<Step<'a>, PreErr>
    ensures inside { IfOk result (GoesOn (λ inside rest. (inside ≡ (live && spec.is_taken wanted name.now.text (texts macros.now))) × (rest ≡ behind.now))) }
    ensures begun { OnOk result (frames.new.items ≡ frames.old.items ++ reached.first_branch live (spec.is_taken wanted name.now.text (texts macros.now)) ∷ []) }
    ensures failed { IfErr result (λ e. e ≡ Memory) }
{
    let inside = begin(macros, frames, live, wanted, name.text.bytes())?;
    Ok(Step::Behind(inside, behind))
}

// Ends a branch of a conditional.
fn end_branch<'a>(
    macros: &Macros,
    frames: &mut Vec<Frame>,
    first: &Lined,
    after: &'a [Lined],
    file: &Name,
) -> Result<Step<'a>, PreErr>
    requires { roles.ends_branch (roles.role_of first.now.token) ≡ true }
    ensures ends { IfOk result (GoesOn (λ inside rest. reached.Turns (texts macros.now) (reverse frames.old.items) first.now after.now inside (reverse frames.new.items) rest)) }
    ensures refused { IfErr result (IsRefusedAt (reached.IsMisplaced (reverse frames.old.items) first.now after.now) first.now.token.place file.now) }
{
    match turn(macros, frames, first, after) {
        Ok((inside, behind)) => Ok(Step::Behind(inside, behind)),
        Err(error) => Err(refusal(error, first.token.place, file)),
    }
}

/// Reads the item at the front of what is left of a file, in a branch that counts or in one that is skipped.
pub fn read_item<'a>(
    alloc: Global,
    known: &mut Known,
    frames: &mut Vec<Frame>,
    live: bool,
    first: &'a Lined,
    after: &'a [Lined],
    out: &mut Vec<Token>,
    file: &Name,
) -> Result<Step<'a>, PreErr>
    requires { known.old.counted ≤ spec.most_counted }
    ensures steps { IfOk result (λ step. (told : List ℕ → Option (List ℕ)) (room : ℕ) → Steps (Possible told) room (point live (reverse frames.old.items) (seen known.old) out.old.items (first.now ∷ after.now)) step (reverse frames.new.items) (seen known.new) out.new.items) }
    ensures short { IfOk result (λ step. length (left step) ≤ length after.now) }
    ensures within { OnOk result (known.new.counted ≤ spec.most_counted) }
    ensures faulty { IfErr result (HasCause (λ stop at. (room : ℕ) (end : Place) → IsFaultyIn room end (point live (reverse frames.old.items) (seen known.old) out.old.items (first.now ∷ after.now)) file.now stop at)) }
{
    match item_at(live, first, after) {
        Item::Kept(token, behind) => keep(token, live, behind, out),
        Item::Passed(behind) => Ok(Step::Behind(live, behind)),
        Item::Used(token, behind) => use_macro(known, token, live, behind, out, file),
        Item::Defined(name, line, behind) => define(alloc, known, name, line, live, behind),
        Item::Forgotten(name, behind) => {
            known.macros.forget(name.text.bytes());
            Ok(Step::Behind(live, behind))
        }
        Item::Included(directive, path, behind) => Ok(Step::Include(directive, path, behind)),
        Item::Opened(wanted, name, behind) => {
            open(&known.macros, frames, live, wanted, name, behind)
        }
        Item::Broken(number, place) => Err(refusal(ItemErr::Refused(number), place, file)),
        Item::Ended => end_branch(&known.macros, frames, first, after, file),
    }
}
