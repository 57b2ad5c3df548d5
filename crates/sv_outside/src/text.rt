// The tokens of a text, and the signals of a design.
ghost use Rattle.std.specs.Prelude.{◌≡◌, length, ℕ, List};

use crate::{Name, Place};
use std::marker::Model;

/// What a token is (IEEE 1800-2017, clause 5).
#[derive(Clone, Copy)]
pub enum Kind {
    /// An identifier or a keyword (5.6).
    Word,
    /// A system name, as `$signed` (5.6.3).
    System,
    /// An integer literal (5.7.1).
    Literal,
    /// A text in double quotes (5.9).
    Quoted,
    /// An operator or a punctuation mark (5.5).
    Mark,
    /// A backtick and a word: a directive or the use of a macro (5.6.4).
    Directive,
    /// A backslash directly before a line end, which continues a macro's text (22.5.1).
    Continue,
}

/// A token: its kind, its bytes as written, and the place of its first byte.
pub struct Token {
    pub kind: Kind,
    pub text: Name,
    pub place: Place,
}

impl Drop for Token {
    fn drop(self) {
        let Token {
            kind: _,
            text: _,
            place: _,
        } = self;
    }
}

/// The tokens of a text and of the files that it includes, in order; the names of these files, which
/// places count from 0; and the place where the text ends.
pub struct Tokens {
    pub list: Vec<Token>,
    pub files: Vec<Name>,
    pub end: Place,
}

impl Drop for Tokens {
    fn drop(self) {
        let Tokens {
            list: _,
            files: _,
            end: _,
        } = self;
    }
}

impl Model for Tokens {
    ghost use Rattle.sv_outside.specs.Text.{TokenList};

    ghost Value = { TokenList };

    ghost view = { λ a. record { list = a.list.items; files = a.files.items; end = a.end } };
}

/// A signal of a design. Its path is its declared name after the names of the instances and blocks that lead to
/// it from the top, joined by dots. Its width is 1 to 128 bits. `input` is true for an input or inout of the top.
pub struct Signal {
    pub path: Name,
    pub width: u8,
    pub input: bool,
}

impl Drop for Signal {
    fn drop(self) {
        let Signal {
            path: _,
            width: _,
            input: _,
        } = self;
    }
}
