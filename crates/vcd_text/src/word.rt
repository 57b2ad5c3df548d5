//! Words of a text, one after the other. What is left and its place are kept, so each byte is looked at once. Blanks, tabs and
//! line ends part the words. A place is a line and a column in bytes, from 1, and tells where a text is refused.

ghost use Rattle.std.specs.Prelude.{◌≡◌, ◌+◌, ◌<◌, ◌≤◌, ◌^◌, length, take, drop, None, Some};
ghost use Rattle.std.specs.List.{prefix_len};
ghost use Rattle.vcd_text.specs.Words as spec;
ghost use Rattle.vcd_text.specs.Words.{Room, words_from};
ghost use Rattle.vcd_text.specs.Cursors.{Next};

use sv_outside::{FILE_START, Place};

/// A word, and where it begins.
#[derive(Clone, Copy)]
pub struct Word<'a> {
    pub text: &'a [u8],
    pub place: Place,
}

/// What is left of a text, and where it begins.
#[derive(Clone, Copy)]
pub struct Cursor<'a> {
    rest: &'a [u8],
    place: Place,
    ghost room: { Room place rest.now },
}

// The place behind these bytes.
#[tactic(auto, unfolding(crate::specs::Words::past))]
fn past(place: Place, text: &[u8]) -> Place
    requires { Room place text.now }
    ensures { result ≡ spec.past place text.now }
{
    let mut place = place;
    let mut rest = text;
    while let [b, after @ ..] = rest {
        if *b == b'\n' {
            place.line += 1;
            place.column = 1;
        } else {
            place.column += 1;
        }
        rest = after;
    }
    place
}

fn is_blank(b: u8) -> bool
    ensures { result ≡ spec.is_blank b }
{
    b == b' ' || b == b'\t' || b == b'\n' || b == b'\r'
}

fn blanks(text: &[u8]) -> usize
    ensures is { result ≡ prefix_len spec.is_blank text.now }
    ensures within { result ≤ length text.now }
{
    text.iter().take_while(|b| is_blank(**b)).count()
}

fn letters(text: &[u8]) -> usize
    ensures is { result ≡ prefix_len spec.is_letter text.now }
    ensures within { result ≤ length text.now }
{
    text.iter().take_while(|b| !is_blank(**b)).count()
}

impl<'a> Cursor<'a> {
    /// At the start of a text.
    pub fn new(text: &'a [u8]) -> Cursor<'a>
        ensures rest { result.rest.now ≡ text.now }
        ensures place { result.place ≡ spec.start }
    {
        Cursor {
            rest: text,
            place: FILE_START,
        }
    }

    /// Where what is left begins.
    pub fn place(&self) -> Place
        ensures { result ≡ self.now.place }
    {
        self.place
    }

    // Goes behind so many bytes, which it answers.
    fn beyond(&mut self, len: usize) -> &'a [u8]
        requires { len ≤ length self.old.rest.now }
        ensures result { result.now ≡ take len self.old.rest.now }
        ensures rest { self.new.rest.now ≡ drop len self.old.rest.now }
        ensures place { self.new.place ≡ spec.past self.old.place (take len self.old.rest.now) }
    {
        let (piece, rest) = self.rest.split_at(len);
        self.place = past(self.place, piece);
        self.rest = rest;
        piece
    }

    /// The next word; where there is none, all is behind.
    pub fn next(&mut self) -> Option<Word<'a>>
        ensures { Next self.old.place self.old.rest.now result self.new.place self.new.rest.now }
    {
        let _ = self.beyond(blanks(self.rest));
        let place = self.place;
        let text = self.beyond(letters(self.rest));
        if text.is_empty() {
            return None;
        }
        Some(Word { text, place })
    }
}
