//! Takes the words behind the declarations, one after the other: times, changes and what is skipped. It is a finite automaton,
//! which holds what is waited for, whether values are dumped, and the time, which never falls. A change is handed out as it
//! stands in the text; whose code it has is not asked here.

ghost use Rattle.std.specs.Prelude.{◌≡◌, is_some, true};
ghost use Rattle.vcd_text.specs.Forms.{bits_of};
ghost use Rattle.vcd_text.specs.Modes.{holds_bits};

use crate::forms::{are_bits, is_code, is_real, number};
use crate::mode::Rest;
use crate::role::{Lead, Role, is_end, lead_of, role_of};
use crate::word::Word;

/// A change as it stands in the text: its time, the bits as they are written, the most significant first, and the code of what changes.
#[derive(Clone, Copy)]
pub struct WrittenChange<'a> {
    pub time: u64,
    pub bits: &'a [u8],
    pub code: &'a [u8],
    ghost said: { is_some (bits_of bits.now) ≡ true },
}

/// What comes of a word.
#[derive(Clone, Copy)]
pub enum Step<'a> {
    /// It is taken.
    Taken,
    /// It is taken, and is a change or the last word of one.
    Change(WrittenChange<'a>),
    /// It may not come.
    Refused,
}

/// What is waited for behind the declarations, whether a `$dumpvars` or the like waits for its `$end`, and the time.
#[derive(Clone, Copy)]
pub struct Scan<'a> {
    wait: Rest<'a>,
    dumping: bool,
    time: u64,
    ghost held: { holds_bits wait ≡ true },
}

impl<'a> Scan<'a> {
    ghost use Rattle.std.specs.Prelude.{◌≡◌, ℕ, ◌∷◌, [], ◌&&◌, not, false, if◌then◌else◌};
    ghost use Rattle.vcd_text.specs.Forms as form;
    ghost use Rattle.vcd_text.specs.Forms.{is_code, is_end};
    ghost use Rattle.vcd_text.specs.Words.{Word as AWord};
    ghost use Rattle.vcd_text.specs.Cursors.{word_of};
    ghost use Rattle.vcd_text.specs.Steps.{goes, between, step, change_step, first_step, lead_step, time_step, code_step, skipping, is_between, is_done, at_changes};
    ghost use Rattle.vcd_text.specs.Scans.{rest_of, told_of, state_of, stepped};
    ghost use Rattle.vcd_text.specs.declared.role.Lead.{Lead as ALead};

    /// Directly behind the declarations.
    pub fn new() -> Scan<'a>
        ensures { state_of result ≡ at_changes }
    {
        Scan {
            wait: Rest::Between,
            dumping: false,
            time: 0,
        }
    }

    // Waits for this next, if the test passes.
    fn wait(&mut self, passes: bool, rest: Rest<'a>) -> Step<'a>
        requires { passes ≡ true → holds_bits rest ≡ true }
        ensures { stepped result (state_of self.new) ≡ goes passes (rest_of rest.entry) (told_of self.old) }
    {
        if !passes {
            return Step::Refused;
        }
        self.wait = rest;
        Step::Taken
    }

    // Goes into what is dumped, if that may come.
    fn dump(&mut self) -> Step<'a>
        ensures { stepped result (state_of self.new) ≡ goes (not self.old.dumping) between (record (told_of self.old) { dumping = true }) }
    {
        if self.dumping {
            return Step::Refused;
        }
        self.dumping = true;
        self.wait = Rest::Between;
        Step::Taken
    }

    // Goes out of what is dumped, if it is in that.
    fn end_dump(&mut self) -> Step<'a>
        ensures { stepped result (state_of self.new) ≡ goes self.old.dumping between (record (told_of self.old) { dumping = false }) }
    {
        if !self.dumping {
            return Step::Refused;
        }
        self.dumping = false;
        self.wait = Rest::Between;
        Step::Taken
    }

    // Takes the digits of a time.
    fn set_time(&mut self, digits: &[u8]) -> Step<'a>
        ensures { stepped result (state_of self.new) ≡ time_step (told_of self.old) digits.now }
    {
        match number(digits, u64::MAX) {
            Some(time) if self.time <= time => {
                self.time = time;
                self.wait = Rest::Between;
                Step::Taken
            }
            _ => Step::Refused,
        }
    }

    // Takes a code, behind bits.
    #[tactic(auto, using(crate::proofs::Scanning::code_refused))]
    fn put(&mut self, bits: &'a [u8], code: &'a [u8]) -> Step<'a>
        requires { is_some (bits_of bits.now) ≡ true }
        ensures { stepped result (state_of self.new) ≡ code_step (told_of self.old) bits.entry.now code.entry.now }
    {
        if !is_code(code) {
            return Step::Refused;
        }
        self.wait = Rest::Between;
        Step::Change(WrittenChange {
            time: self.time,
            bits,
            code,
        })
    }

    // Takes a time or a change, by its first byte and what stands behind that.
    fn led(&mut self, lead: Lead, first: &'a [u8], rest: &'a [u8]) -> Step<'a>
        requires { (b : ℕ) × (first.now ≡ b ∷ []) × (form.lead_of b ≡ lead) }
        ensures { stepped result (state_of self.new) ≡ lead_step (told_of self.old) rest.entry.now lead }
    {
        match lead {
            Lead::Time => self.set_time(rest),
            Lead::Scalar(_) => self.put(first, rest),
            Lead::Vector => self.wait(are_bits(rest), Rest::VectorCode(rest)),
            Lead::Real => self.wait(is_real(rest), Rest::RealCode),
            Lead::Nothing => Step::Refused,
        }
    }

    // Takes a time or a change.
    #[tactic(auto, unfolding(crate::specs::Steps::change_step))]
    fn change(&mut self, word: &'a [u8]) -> Step<'a>
        ensures { stepped result (state_of self.new) ≡ change_step (told_of self.old) word.entry.now }
    {
        if word.is_empty() {
            return Step::Refused;
        }
        let (first, rest) = word.split_at(1);
        self.led(lead_of(first[0]), first, rest)
    }

    // Takes the first word of an item.
    #[tactic(auto, unfolding(crate::specs::Steps::first_step))]
    fn first(&mut self, word: &'a [u8]) -> Step<'a>
        ensures { stepped result (state_of self.new) ≡ first_step (told_of self.old) word.entry.now }
    {
        match role_of(word) {
            Role::Other => self.change(word),
            Role::Skipped => self.wait(true, Rest::Skipping),
            Role::Dump => self.dump(),
            Role::End => self.end_dump(),
            Role::Scope | Role::Upscope | Role::Var | Role::Ending => Step::Refused,
        }
    }

    // Skips a word.
    fn skip(&mut self, word: &[u8]) -> Step<'a>
        ensures { stepped result (state_of self.new) ≡ goes true (if is_end word.now then between else skipping) (told_of self.old) }
    {
        if is_end(word) {
            self.wait(true, Rest::Between)
        } else {
            self.wait(true, Rest::Skipping)
        }
    }

    /// Takes one word more, if it may come.
    #[tactic(auto, unfolding(crate::specs::Steps::wait_step))]
    pub fn step(&mut self, word: Word<'a>) -> Step<'a>
        ensures { stepped result (state_of self.new) ≡ step (state_of self.old) (word_of word.entry) }
    {
        match self.wait {
            Rest::Between => self.first(word.text),
            Rest::Skipping => self.skip(word.text),
            Rest::VectorCode(bits) => self.put(bits, word.text),
            Rest::RealCode => self.wait(is_code(word.text), Rest::Between),
        }
    }

    fn is_between(&self) -> bool
        ensures { result ≡ is_between (rest_of self.now.wait) }
    {
        matches!(self.wait, Rest::Between)
    }

    /// Whether the text may end here.
    #[tactic(auto, unfolding(crate::specs::Steps::is_done))]
    pub fn is_done(&self) -> bool
        ensures { result ≡ is_done (state_of self.now) }
    {
        self.is_between() && !self.dumping
    }
}
