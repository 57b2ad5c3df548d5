//! Reads a value change dump.

ghost use Rattle.std.specs.Prelude.{◌≡◌, List, Ok, Err, IfOk, OnOk};
ghost use Rattle.sv_outside.specs.declared.refusal.Refusal.{Refusal as ARefusal};
ghost use Rattle.sv_outside.specs.declared.refusal.TextErr.TheVariants.{No};
ghost use Rattle.vcd_text.specs.declared.waves.VcdVar.{VcdVar as AVar};
ghost use Rattle.vcd_text.specs.Words.{Text as AText, words_from, past};
ghost use Rattle.vcd_text.specs.Waves.{Change as AChange, Wave, BreaksAt};
ghost use Rattle.vcd_text.specs.Steps.{outcome, at_start, at_changes, changes_in};
ghost use Rattle.vcd_text.specs.Refusals.{refused, IsRefusedAt};
ghost use Rattle.vcd_text.specs.Changes.{outcome_of, EndsIn, BreaksIn};

use crate::changes::{Changes, check};
use crate::declarations::{Declarations, Progress};
use crate::waves::{VcdVar, Waves};
use crate::word::Cursor;
use items::Items;
use name_index::digest_of;
use std::alloc::Global;
use sv_outside::{Place, Refusal, TextErr, refusals};

fn syntax(place: Place) -> TextErr
    ensures { result ≡ No (refused 47 place) }
{
    TextErr::No(Refusal {
        number: refusals::VCD_SYNTAX,
        place,
        count: 0,
    })
}

// Takes the words up to the end of the declarations, or to the first that may not come.
fn read_declarations<'a>(
    alloc: Global,
    key: u128,
    cursor: &mut Cursor<'a>,
) -> Result<Items<VcdVar>, TextErr>
    ensures told { IfOk result (λ vars. (scopes : List AText) × (outcome (past cursor.old.place cursor.old.rest.now) at_start (words_from cursor.old.place cursor.old.rest.now)
        ≡ outcome_of scopes vars cursor.new.place cursor.new.rest.now)) }
    ensures refused { (r : ARefusal) → result ≡ Err (No r) → IsRefusedAt (outcome (past cursor.old.place cursor.old.rest.now) at_start (words_from cursor.old.place cursor.old.rest.now)) r }
{
    let mut declarations = Declarations::new(alloc, key);
    'words: while let Some(word) = cursor.next() {
        match declarations.step(word)? {
            Progress::Taken => {}
            Progress::Over => return Ok(declarations.into_vars()),
            Progress::Refused => return Err(syntax(word.place)),
        }
    }
    Err(syntax(cursor.place()))
}

// Goes over the words behind the declarations.
fn read_changes<'a>(vars: Items<VcdVar>, cursor: Cursor<'a>) -> Result<Waves<'a>, TextErr>
    ensures told { IfOk result (λ waves. (waves.vars ≡ vars) × (waves.changes ≡ changes_in at_changes (words_from cursor.entry.place cursor.entry.rest.now))) }
    ensures ends { OnOk result ((scopes : List AText) (vs : List AVar) → EndsIn scopes vs cursor.entry.place cursor.entry.rest.now) }
    ensures refused { (r : ARefusal) → result ≡ Err (No r) → ((scopes : List AText) (vs : List AVar) → BreaksIn scopes vs cursor.entry.place cursor.entry.rest.now r.place) × (r ≡ refused 47 r.place) }
{
    match check(cursor) {
        Ok(()) => Ok(Waves {
            vars,
            changes: Changes::new(cursor),
        }),
        Err(place) => Err(syntax(place)),
    }
}

/// What a text stands for, in time linear in the text and the paths. Besides the text, memory is taken for the signals alone. The refusal
/// E47 has the place of the first word up to which no dump begins so, or of the text's end where the text could go on.
pub fn read_vcd<'a>(alloc: Global, text: &'a [u8]) -> Result<Waves<'a>, TextErr>
    ensures stands { IfOk result (λ waves. Wave text.entry.now waves.vars waves.changes) }

    // No other signals and changes are those of the text.
    ensures only { (vars : List AVar) (changes : List AChange) → Wave text.entry.now vars changes → IfOk result (λ waves. (waves.vars ≡ vars) × (waves.changes ≡ changes)) }

    // A refusal stands where the text breaks the form, and a text that stands for something is not refused.
    ensures refused { (r : ARefusal) → result ≡ Err (No r) → BreaksAt text.entry.now r.place × (r ≡ refused 47 r.place) }
    ensures taken { (r : ARefusal) → result ≡ Err (No r) → (vars : List AVar) (changes : List AChange) → Wave text.entry.now vars changes → ⊥ }
{
    let mut cursor = Cursor::new(text);
    match read_declarations(alloc, digest_of(text), &mut cursor) {
        Ok(vars) => read_changes(vars, cursor),
        Err(e) => Err(e),
    }
}
