//! A line and what is left of it. Each method reads one word at the front and goes behind it; where the front has not this form it
//! answers `None`, and nothing is said of what is left.

ghost use Rattle.std.specs.Prelude.{◌≡◌, codes, take, drop, IsFalse};
ghost use Rattle.std.specs.List.{prefix_len};
ghost use Rattle.flat_words.specs.Readers as spec;
ghost use Rattle.flat_words.specs.Readers.{joined, passed, behind};

use crate::bits::bits;
use crate::numbers::{digits, is_plain, letters, value};
use fourvec::{Four, Spot};

/// What is left of a line.
#[derive(Drop)]
pub struct Words<'a> {
    pub rest: &'a [u8],
}

impl<'a> Words<'a> {
    /// Goes behind a mark, if it stands at the front.
    #[tactic(auto, unfolding(crate::specs::Readers::behind))]
    pub fn pass(&mut self, mark: &[u8]) -> bool
        ensures is { passed result self.new.rest.now ≡ behind mark.now self.old.rest.now }
        ensures kept { IsFalse result → self.new.rest.now ≡ self.old.rest.now }
    {
        match self.rest.strip_prefix(mark) {
            Some(rest) => {
                self.rest = rest;
                true
            }
            None => false,
        }
    }

    /// What stands before the next blank.
    pub fn word(&mut self) -> &'a [u8]
        ensures word { result.now ≡ take (prefix_len spec.is_letter self.old.rest.now) self.old.rest.now }
        ensures rest { self.new.rest.now ≡ drop (prefix_len spec.is_letter self.old.rest.now) self.old.rest.now }
    {
        let (word, rest) = self.rest.split_at(letters(self.rest));
        self.rest = rest;
        word
    }

    /// A number without a sign.
    #[tactic(auto, unfolding(crate::specs::Readers::number, crate::specs::Readers::numeral))]
    pub fn number(&mut self) -> Option<usize>
        ensures { joined result self.new.rest.now ≡ spec.number self.old.rest.now }
    {
        let (word, rest) = self.rest.split_at(digits(self.rest));
        if !is_plain(word) {
            return None;
        }
        let number = value(word);
        if number == usize::MAX {
            return None;
        }
        self.rest = rest;
        Some(number)
    }

    /// A number of a byte.
    #[tactic(auto, unfolding(crate::specs::Readers::byte, crate::specs::Readers::where_))]
    pub fn byte(&mut self) -> Option<u8>
        ensures { joined result self.new.rest.now ≡ spec.byte self.old.rest.now }
    {
        let number = self.number()?;
        if number < 256 {
            Some(number as u8)
        } else {
            None
        }
    }

    /// A number behind a blank.
    #[tactic(auto, unfolding(crate::specs::Readers::next, crate::specs::Readers::before))]
    pub fn next(&mut self) -> Option<usize>
        ensures { joined result self.new.rest.now ≡ spec.next self.old.rest.now }
    {
        if self.pass(b" ") { self.number() } else { None }
    }

    /// A number of a byte behind a blank.
    #[tactic(auto, unfolding(crate::specs::Readers::next_byte, crate::specs::Readers::before))]
    pub fn next_byte(&mut self) -> Option<u8>
        ensures { joined result self.new.rest.now ≡ spec.next_byte self.old.rest.now }
    {
        if self.pass(b" ") { self.byte() } else { None }
    }

    #[tactic(auto, unfolding(crate::specs::Readers::positive, crate::specs::Readers::made, crate::specs::Readers::where_))]
    fn positive(&mut self) -> Option<i64>
        ensures { joined result self.new.rest.now ≡ spec.positive self.old.rest.now }
    {
        let number = self.number()?;
        if number < 1 << 63 {
            Some(number as i64)
        } else {
            None
        }
    }

    #[tactic(auto, unfolding(crate::specs::Readers::negative, crate::specs::Readers::made, crate::specs::Readers::where_))]
    fn negative(&mut self) -> Option<i64>
        ensures { joined result self.new.rest.now ≡ spec.negative self.old.rest.now }
    {
        let number = self.number()?;
        if 0 < number && number <= 1 << 63 {
            Some(-1 - (number - 1) as i64)
        } else {
            None
        }
    }

    // A number of 64 bits, behind a minus where it is below 0.
    #[tactic(auto, unfolding(crate::specs::Readers::signed))]
    fn signed(&mut self) -> Option<i64>
        ensures { joined result self.new.rest.now ≡ spec.signed self.old.rest.now }
    {
        if let [b'-', rest @ ..] = self.rest {
            self.rest = rest;
            return self.negative();
        }
        self.positive()
    }

    #[tactic(auto, unfolding(crate::specs::Readers::before))]
    fn next_signed(&mut self) -> Option<i64>
        ensures { joined result self.new.rest.now ≡ spec.before (codes " ") spec.signed self.old.rest.now }
    {
        if self.pass(b" ") { self.signed() } else { None }
    }

    #[tactic(auto, unfolding(crate::specs::Readers::flag))]
    fn flag(&mut self) -> Option<bool>
        ensures { joined result self.new.rest.now ≡ spec.flag self.old.rest.now }
    {
        match self.rest {
            [b'1', rest @ ..] => {
                self.rest = rest;
                Some(true)
            }
            [b'0', rest @ ..] => {
                self.rest = rest;
                Some(false)
            }
            _ => None,
        }
    }

    #[tactic(auto, unfolding(crate::specs::Readers::next_flag, crate::specs::Readers::before))]
    fn next_flag(&mut self) -> Option<bool>
        ensures { joined result self.new.rest.now ≡ spec.next_flag self.old.rest.now }
    {
        if self.pass(b" ") { self.flag() } else { None }
    }

    /// `S N EACH ADD W`, behind a blank.
    #[tactic(auto, unfolding(crate::specs::Readers::next_spot, crate::specs::Readers::made, crate::specs::Readers::both))]
    pub fn next_spot(&mut self) -> Option<Spot>
        ensures { joined result self.new.rest.now ≡ spec.next_spot self.old.rest.now }
    {
        let signed = self.next_flag()?;
        let negate = self.next_flag()?;
        let each = self.next_byte()?;
        let add = self.next_signed()?;
        let width = self.next_byte()?;
        Some(Spot {
            signed,
            negate,
            each,
            add,
            width,
        })
    }

    // The bits of a vector so wide, which go to the end of the line.
    #[tactic(auto, unfolding(crate::specs::Readers::bits))]
    fn bits(&mut self, width: u8) -> Option<Four>
        ensures { joined result self.new.rest.now ≡ spec.bits width self.old.rest.now }
    {
        if width == 0 || width > 128 || self.rest.len() != usize::from(width) {
            return None;
        }
        let value = bits(self.rest)?;
        self.rest = &[];
        Some(value)
    }

    /// VALUE, up to the end of the line.
    #[tactic(auto, unfolding(crate::specs::Readers::vector))]
    pub fn vector(&mut self) -> Option<Four>
        ensures { joined result self.new.rest.now ≡ spec.vector self.old.rest.now }
    {
        let width = self.byte()?;
        if self.pass(b"'b") {
            self.bits(width)
        } else {
            None
        }
    }
}
