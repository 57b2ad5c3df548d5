//! Takes the words of the declarations, one after the other. What is waited for is a mode, and each word leads to the next mode
//! or is refused (a finite automaton, with the open scopes and the signals so far beside it). So no word is read twice, and what
//! a word does is one step of a definition. A code may be declared more than once, with one width.

ghost use Rattle.std.specs.Prelude.{◌≡◌, ◌&&◌, ◌==◌, ◌++◌, ◌∷◌, [], not, true, if◌then◌else◌, length, IfOk, OnOk};
ghost use Rattle.sv_outside.specs.declared.refusal.Place.{Place as APlace};
ghost use Rattle.vcd_text.specs.Forms.{is_code, is_end};
ghost use Rattle.vcd_text.specs.Words.{begins_with};
ghost use Rattle.vcd_text.specs.Cursors.{word_of};
ghost use Rattle.vcd_text.specs.Waves.{with_var, but_last, width_under, agrees, is_open, path_of};
ghost use Rattle.vcd_text.specs.Steps.{goes, at, between, step, wait_step, first_step, width_step, range_step, at_start, skipping};
ghost use Rattle.vcd_text.specs.Readers.{wait_of, scope_wait, var_wait, told_of, state_of, HoldsWidths, Notes, stepped};

use crate::forms::{is_code, number};
use crate::mode::{Mode, Named, ScopePart, VarPart};
use crate::role::{Role, is_end, kind_of, role_of};
use crate::waves::{VarKind, VcdVar};
use crate::word::Word;
use items::Items;
use name_index::NameMap;
use std::alloc::{AllocError, Global};
use sv_outside::Name;

const MOST_WIDTH: u64 = 2_147_483_647;

/// What comes of a word.
#[derive(Clone, Copy)]
pub enum Progress {
    /// It is taken.
    Taken,
    /// It is taken, and the declarations are over.
    Over,
    /// It may not come.
    Refused,
}

/// What the words so far tell, and what is waited for.
pub struct Declarations<'a> {
    alloc: Global,
    mode: Mode<'a>,
    scopes: Items<Name>,
    widths: NameMap,
    vars: Items<VcdVar>,
}

impl<'a> Drop for Declarations<'a> {
    fn drop(self) {
        let Declarations {
            alloc: _,
            mode: _,
            scopes: _,
            widths: _,
            vars: _,
        } = self;
    }
}

fn opens_range(word: &[u8]) -> bool
    ensures { result ≡ begins_with is_open word.now }
{
    match word {
        [b'[', ..] => true,
        _ => false,
    }
}

// Notes the width of a code, if it is the first of the code.
#[tactic(auto, using(crate::proofs::Widths::noted_before, crate::proofs::Widths::noted_first))]
fn note(widths: &mut NameMap, code: &[u8], width: usize) -> Result<(), AllocError>
    ensures { OnOk result (Notes widths.old code.now width widths.new) }
{
    if widths.get(code).is_some() {
        return Ok(());
    }
    widths.put(code, width)
}

// The path of a signal in open scopes.
fn path_in(alloc: Global, scopes: &[Name], name: &[u8]) -> Result<Name, AllocError>
    ensures { IfOk result (λ path. path ≡ path_of scopes.now name.now) }
{
    let mut path = Vec::new(alloc);
    'scopes: for scope in scopes {
        path.extend_from_slice(scope.bytes())?;
        path.push(b'.')?;
    }
    path.extend_from_slice(name)?;
    Name::new(alloc, &path)
}

impl<'a> Declarations<'a> {
    /// Where nothing is read. The key is a digest of the text.
    #[tactic(auto, unfolding(crate::specs::Waves::width_under))]
    pub fn new(alloc: Global, key: u128) -> Declarations<'a>
        ensures start { state_of result ≡ at_start }
        ensures widths { HoldsWidths result }
    {
        Declarations {
            alloc,
            mode: Mode::Between,
            scopes: Items::new(alloc),
            widths: NameMap::new(alloc, key),
            vars: Items::new(alloc),
        }
    }

    /// The signals.
    pub fn into_vars(self) -> Items<VcdVar>
        ensures { result ≡ self.entry.vars }
    {
        let Declarations {
            alloc: _,
            mode: _,
            scopes: _,
            widths: _,
            vars,
        } = self;
        vars
    }

    // Waits for this next, if the test passes.
    fn wait(&mut self, passes: bool, mode: Mode<'a>) -> Progress
        ensures step { stepped result (state_of self.new) ≡ goes passes (wait_of mode.entry) (told_of self.old) }
        ensures widths { HoldsWidths self.old → HoldsWidths self.new }
    {
        if !passes {
            return Progress::Refused;
        }
        self.mode = mode;
        Progress::Taken
    }

    // Opens a scope at its `$end`.
    fn open(&mut self, word: &[u8], name: &[u8]) -> Result<Progress, AllocError>
        ensures step { IfOk result (λ p. stepped p (state_of self.new) ≡ goes (is_end word.now) between (record (told_of self.old) { scopes = self.old.scopes ++ name.now ∷ [] })) }
        ensures widths { HoldsWidths self.old → OnOk result (HoldsWidths self.new) }
    {
        if !is_end(word) {
            return Ok(Progress::Refused);
        }
        let name = Name::new(self.alloc, name)?;
        self.scopes.push(name)?;
        self.mode = Mode::Between;
        Ok(Progress::Taken)
    }

    // Closes the innermost scope at an `$end`.
    fn close(&mut self, word: &[u8]) -> Progress
        ensures step { stepped result (state_of self.new) ≡ goes (is_end word.now) between (record (told_of self.old) { scopes = but_last self.old.scopes }) }
        ensures widths { HoldsWidths self.old → HoldsWidths self.new }
    {
        if !is_end(word) {
            return Progress::Refused;
        }
        let _ = self.scopes.pop();
        self.mode = Mode::Between;
        Progress::Taken
    }

    fn may_close(&self) -> bool
        ensures { result ≡ not (length self.now.scopes == 0) }
    {
        !self.scopes.is_empty()
    }

    // Takes the first word of an item.
    #[tactic(auto, unfolding(crate::specs::Steps::first_step, crate::specs::Steps::change_step))]
    fn first(&mut self, word: &[u8]) -> Progress
        ensures step { stepped result (state_of self.new) ≡ first_step (told_of self.old) word.now }
        ensures widths { HoldsWidths self.old → HoldsWidths self.new }
    {
        match role_of(word) {
            Role::Scope => self.wait(true, Mode::Scope(ScopePart::Kind)),
            Role::Upscope => self.wait(self.may_close(), Mode::UpEnd),
            Role::Var => self.wait(true, Mode::Var(VarPart::Kind)),
            Role::Ending => self.wait(true, Mode::EndingEnd),
            Role::Skipped => self.wait(true, Mode::Skipping),
            Role::Dump | Role::End | Role::Other => Progress::Refused,
        }
    }

    // Takes the width of a signal.
    fn width(&mut self, word: &[u8], kind: VarKind) -> Progress
        ensures step { stepped result (state_of self.new) ≡ width_step (told_of self.old) kind word.now }
        ensures widths { HoldsWidths self.old → HoldsWidths self.new }
    {
        match number(word, MOST_WIDTH) {
            Some(width) => self.wait(true, Mode::Var(VarPart::Code(kind, width as usize))),
            None => Progress::Refused,
        }
    }

    // Whether signals of this code, if there are some, have this width.
    fn agrees(&self, code: &[u8], width: usize) -> bool
        requires { HoldsWidths self.now }
        ensures { result ≡ agrees (width_under self.now.vars code.now) width }
    {
        match self.widths.get(code) {
            Some(other) => other == width,
            None => true,
        }
    }

    fn is_free(&self, code: &[u8], width: usize) -> bool
        requires { HoldsWidths self.now }
        ensures { result ≡ (is_code code.now && agrees (width_under self.now.vars code.now) width) }
    {
        is_code(code) && self.agrees(code, width)
    }

    // Declares a signal.
    fn declare(&mut self, named: Named<'_>) -> Result<(), AllocError>
        ensures step { OnOk result (state_of self.new ≡ at between (with_var (told_of self.old) named.entry.kind named.entry.width named.entry.code.now named.entry.name.now named.entry.place)) }
        ensures widths { HoldsWidths self.old → OnOk result (HoldsWidths self.new) }
    {
        let path = path_in(self.alloc, self.scopes.as_slice(), named.name)?;
        note(&mut self.widths, named.code, named.width)?;
        let code = Name::new(self.alloc, named.code)?;
        self.vars.push(VcdVar {
            path,
            kind: named.kind,
            width: named.width,
            code,
            place: named.place,
        })?;
        self.mode = Mode::Between;
        Ok(())
    }

    // Takes what stands behind the name of a signal.
    fn range(&mut self, word: &[u8], named: Named<'a>) -> Result<Progress, AllocError>
        ensures step { IfOk result (λ p. stepped p (state_of self.new)
            ≡ range_step (told_of self.old) named.entry.kind named.entry.width named.entry.code.now named.entry.name.now named.entry.place word.now) }
        ensures widths { HoldsWidths self.old → OnOk result (HoldsWidths self.new) }
    {
        if is_end(word) {
            self.declare(named)?;
            return Ok(Progress::Taken);
        }
        Ok(self.wait(opens_range(word), Mode::Var(VarPart::End(named))))
    }

    // Declares a signal at its `$end`.
    fn end_var(&mut self, word: &[u8], named: Named<'_>) -> Result<Progress, AllocError>
        ensures step { IfOk result (λ p. stepped p (state_of self.new)
            ≡ goes (is_end word.now) between (with_var (told_of self.old) named.entry.kind named.entry.width named.entry.code.now named.entry.name.now named.entry.place)) }
        ensures widths { HoldsWidths self.old → OnOk result (HoldsWidths self.new) }
    {
        if !is_end(word) {
            return Ok(Progress::Refused);
        }
        self.declare(named)?;
        Ok(Progress::Taken)
    }

    // Ends the declarations at an `$end`.
    fn end(&self, word: &[u8]) -> Progress
        ensures { stepped result (state_of self.now) ≡ goes (is_end word.now) between (record (told_of self.now) { ended = true }) }
    {
        if is_end(word) {
            Progress::Over
        } else {
            Progress::Refused
        }
    }

    // Skips a word.
    fn skip(&mut self, word: &[u8]) -> Progress
        ensures step { stepped result (state_of self.new) ≡ goes true (if is_end word.now then between else skipping) (told_of self.old) }
        ensures widths { HoldsWidths self.old → HoldsWidths self.new }
    {
        if is_end(word) {
            self.wait(true, Mode::Between)
        } else {
            self.wait(true, Mode::Skipping)
        }
    }

    // Takes a word of a scope.
    #[tactic(auto, unfolding(crate::specs::Steps::wait_step))]
    fn scope(&mut self, word: &'a [u8], part: ScopePart<'a>) -> Result<Progress, AllocError>
        ensures step { IfOk result (λ p. (place : APlace) → stepped p (state_of self.new) ≡ wait_step (scope_wait part.entry) (told_of self.old) (record { text = word.entry.now; place = place })) }
        ensures widths { HoldsWidths self.old → OnOk result (HoldsWidths self.new) }
    {
        match part {
            ScopePart::Kind => Ok(self.wait(!is_end(word), Mode::Scope(ScopePart::Name))),
            ScopePart::Name => Ok(self.wait(!is_end(word), Mode::Scope(ScopePart::End(word)))),
            ScopePart::End(name) => self.open(word, name),
        }
    }

    // Takes a word of a signal.
    #[tactic(auto, unfolding(crate::specs::Steps::wait_step))]
    fn var(&mut self, word: Word<'a>, part: VarPart<'a>) -> Result<Progress, AllocError>
        requires { HoldsWidths self.old }
        ensures step { IfOk result (λ p. stepped p (state_of self.new) ≡ wait_step (var_wait part.entry) (told_of self.old) (word_of word.entry)) }
        ensures widths { OnOk result (HoldsWidths self.new) }
    {
        let text = word.text;
        match part {
            VarPart::Kind => {
                Ok(self.wait(!is_end(text), Mode::Var(VarPart::Width(kind_of(text)))))
            }
            VarPart::Width(kind) => Ok(self.width(text, kind)),
            VarPart::Code(kind, width) => Ok(self.wait(
                self.is_free(text, width),
                Mode::Var(VarPart::Name(kind, width, text)),
            )),
            VarPart::Name(kind, width, code) => Ok(self.wait(
                !is_end(text),
                Mode::Var(VarPart::Range(Named {
                    kind,
                    width,
                    code,
                    name: text,
                    place: word.place,
                })),
            )),
            VarPart::Range(named) => self.range(text, named),
            VarPart::End(named) => self.end_var(text, named),
        }
    }

    /// Takes one word more, if it may come.
    #[tactic(auto, unfolding(crate::specs::Steps::wait_step))]
    pub fn step(&mut self, word: Word<'a>) -> Result<Progress, AllocError>
        requires { HoldsWidths self.old }
        ensures step { IfOk result (λ p. stepped p (state_of self.new) ≡ step (state_of self.old) (word_of word.entry)) }
        ensures widths { OnOk result (HoldsWidths self.new) }
    {
        match self.mode {
            Mode::Between => Ok(self.first(word.text)),
            Mode::Scope(part) => self.scope(word.text, part),
            Mode::UpEnd => Ok(self.close(word.text)),
            Mode::Var(part) => self.var(word, part),
            Mode::EndingEnd => Ok(self.end(word.text)),
            Mode::Skipping => Ok(self.skip(word.text)),
        }
    }
}
