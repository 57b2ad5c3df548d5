//! The changes of a dump, one after the other.

ghost use Rattle.std.specs.Prelude.{◌≡◌, List, Result, Ok, Err, IfErr, OnOk};
ghost use Rattle.vcd_text.specs.declared.waves.VcdVar.{VcdVar as AVar};
ghost use Rattle.vcd_text.specs.Words.{Text as AText, past, words_from};
ghost use Rattle.vcd_text.specs.Steps.{changes_in, at_changes};
ghost use Rattle.vcd_text.specs.Changes.{Gives, EndsIn, BreaksIn};

use crate::scan::{Scan, Step, WrittenChange};
use crate::word::Cursor;
use std::marker::Model;
use sv_outside::Place;

/// The changes that are left of a dump. They stand in its text, which is read again word by word, so they take no memory.
pub struct Changes<'a> {
    cursor: Cursor<'a>,
    scan: Scan<'a>,
}

impl<'a> Drop for Changes<'a> {
    fn drop(self) {
        let Changes { cursor: _, scan: _ } = self;
    }
}

impl<'a> Model for Changes<'a> {
    ghost use Rattle.std.specs.Prelude.{List};
    ghost use Rattle.vcd_text.specs.Waves.{Change};

    ghost Value = { List Change };

    ghost use Rattle.vcd_text.specs.Left.{changes_left};

    ghost view = { changes_left };
}

/// Goes over the words behind the declarations, up to the first that may not come, of which it says the place.
pub fn check(cursor: Cursor<'_>) -> Result<(), Place>
    ensures ok { OnOk result ((scopes : List AText) (vars : List AVar) → EndsIn scopes vars cursor.entry.place cursor.entry.rest.now) }
    ensures err { IfErr result (λ place. (scopes : List AText) (vars : List AVar) → BreaksIn scopes vars cursor.entry.place cursor.entry.rest.now place) }
{
    let mut cursor = cursor;
    let mut scan = Scan::new();
    'words: while let Some(word) = cursor.next() {
        match scan.step(word) {
            Step::Taken | Step::Change(_) => {}
            Step::Refused => return Err(word.place),
        }
    }
    if scan.is_done() {
        Ok(())
    } else {
        Err(cursor.place())
    }
}

impl<'a> Changes<'a> {
    /// Those that the words behind the declarations tell.
    pub fn new(cursor: Cursor<'a>) -> Changes<'a>
        ensures { result ≡ changes_in at_changes (words_from cursor.entry.place cursor.entry.rest.now) }
    {
        Changes {
            cursor,
            scan: Scan::new(),
        }
    }

    /// The same changes, from here on.
    pub fn again(&self) -> Changes<'a>
        ensures { result ≡ self.now }
    {
        Changes {
            cursor: self.cursor,
            scan: self.scan,
        }
    }

    /// The next change.
    pub fn next(&mut self) -> Option<WrittenChange<'a>>
        ensures { Gives self.old result self.new }
    {
        'words: while let Some(word) = self.cursor.next() {
            match self.scan.step(word) {
                Step::Taken => {}
                Step::Change(change) => return Some(change),
                Step::Refused => return None,
            }
        }
        None
    }
}
