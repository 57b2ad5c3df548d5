//! What words begin: an item of the dump by its keyword, and a time or a change by its first byte. Keywords are told here alone,
//! and the readers match on roles. Those with one meaning to a reader have one role: the four that dump values, and the four
//! whose text is skipped.

ghost use Rattle.std.specs.Prelude.{◌≡◌};
ghost use Rattle.vcd_text.specs.Forms as form;

use crate::forms::bit;
use crate::waves::VarKind;
use fourvec::Bit;

/// What a word begins.
#[derive(Clone, Copy)]
pub enum Role {
    Scope,
    Upscope,
    Var,
    Ending,
    Skipped,
    Dump,
    End,
    Other,
}

/// What a change or a time begins with.
#[derive(Clone, Copy)]
pub enum Lead {
    Time,
    Scalar(Bit),
    Vector,
    Real,
    Nothing,
}

fn is_skipped(word: &[u8]) -> bool
    ensures { result ≡ form.is_skipped word.now }
{
    word == b"$date".as_slice()
        || word == b"$version".as_slice()
        || word == b"$timescale".as_slice()
        || word == b"$comment".as_slice()
}

fn is_dump(word: &[u8]) -> bool
    ensures { result ≡ form.is_dump word.now }
{
    word == b"$dumpvars".as_slice()
        || word == b"$dumpall".as_slice()
        || word == b"$dumpon".as_slice()
        || word == b"$dumpoff".as_slice()
}

/// Whether a word is `$end`.
pub fn is_end(word: &[u8]) -> bool
    ensures { result ≡ form.is_end word.now }
{
    word == b"$end".as_slice()
}

/// What a word begins.
#[tactic(auto, unfolding(crate::specs::Forms::role_of))]
pub fn role_of(word: &[u8]) -> Role
    ensures { result ≡ form.role_of word.now }
{
    if word == b"$scope".as_slice() {
        Role::Scope
    } else if word == b"$upscope".as_slice() {
        Role::Upscope
    } else if word == b"$var".as_slice() {
        Role::Var
    } else if word == b"$enddefinitions".as_slice() {
        Role::Ending
    } else if is_end(word) {
        Role::End
    } else if is_skipped(word) {
        Role::Skipped
    } else if is_dump(word) {
        Role::Dump
    } else {
        Role::Other
    }
}

/// What a signal of a kind holds.
pub fn kind_of(word: &[u8]) -> VarKind
    ensures { result ≡ form.kind_of word.now }
{
    if word == b"real".as_slice() {
        VarKind::Number
    } else {
        VarKind::Bits
    }
}

/// What a change or a time begins with.
#[tactic(auto, unfolding(crate::specs::Forms::lead_of))]
pub fn lead_of(byte: u8) -> Lead
    ensures { result ≡ form.lead_of byte }
{
    match byte {
        b'#' => Lead::Time,
        b'b' | b'B' => Lead::Vector,
        b'r' | b'R' => Lead::Real,
        _ => match bit(byte) {
            Some(bit) => Lead::Scalar(bit),
            None => Lead::Nothing,
        },
    }
}
