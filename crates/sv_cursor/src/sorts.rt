// The sort of a token, by tables of texts. The tables are constants that the definitions cite too, so that the words of the
// grammar stand once; a text is looked for from the front, and each token is looked up once, when a cursor comes to it. Whether
// a word that is no keyword is an identifier is asked of `sv_outside`, which knows the reserved words that no rule reads.
ghost use Rattle.std.specs.Prelude.{◌≡◌, map, MatchOption};
ghost use Rattle.std.specs.Str.{bytes_eq};
ghost use Rattle.sv_cursor.specs.Sorts as spec;

use crate::sort::{Keyword, Mark, Sort};
use std::alloc::{AllocError, Global};
use sv_outside::{Kind, Token, is_id};
use sv_tree::SystemName;

pub const KEYWORDS: [(&[u8], Keyword); 43] = [
    (b"module", Keyword::Module),
    (b"endmodule", Keyword::Endmodule),
    (b"parameter", Keyword::Parameter),
    (b"localparam", Keyword::Localparam),
    (b"int", Keyword::Int),
    (b"integer", Keyword::Integer),
    (b"bit", Keyword::Bit),
    (b"logic", Keyword::Logic),
    (b"reg", Keyword::Reg),
    (b"signed", Keyword::Signed),
    (b"unsigned", Keyword::Unsigned),
    (b"input", Keyword::Input),
    (b"output", Keyword::Output),
    (b"inout", Keyword::Inout),
    (b"wire", Keyword::Wire),
    (b"tri", Keyword::Tri),
    (b"struct", Keyword::Struct),
    (b"packed", Keyword::Packed),
    (b"enum", Keyword::Enum),
    (b"typedef", Keyword::Typedef),
    (b"genvar", Keyword::Genvar),
    (b"assign", Keyword::Assign),
    (b"generate", Keyword::Generate),
    (b"endgenerate", Keyword::Endgenerate),
    (b"for", Keyword::For),
    (b"if", Keyword::If),
    (b"else", Keyword::Else),
    (b"begin", Keyword::Begin),
    (b"end", Keyword::End),
    (b"always_comb", Keyword::AlwaysComb),
    (b"always_latch", Keyword::AlwaysLatch),
    (b"always_ff", Keyword::AlwaysFf),
    (b"always", Keyword::Always),
    (b"posedge", Keyword::Posedge),
    (b"negedge", Keyword::Negedge),
    (b"or", Keyword::Or),
    (b"case", Keyword::Case),
    (b"casez", Keyword::Casez),
    (b"endcase", Keyword::Endcase),
    (b"unique", Keyword::Unique),
    (b"unique0", Keyword::Unique0),
    (b"priority", Keyword::Priority),
    (b"default", Keyword::Default),
];

pub const MARKS: [(&[u8], Mark); 50] = [
    (b"(", Mark::LeftParen),
    (b")", Mark::RightParen),
    (b"[", Mark::LeftBracket),
    (b"]", Mark::RightBracket),
    (b"{", Mark::LeftBrace),
    (b"}", Mark::RightBrace),
    (b".", Mark::Dot),
    (b",", Mark::Comma),
    (b";", Mark::Semicolon),
    (b":", Mark::Colon),
    (b"?", Mark::Question),
    (b"@", Mark::At),
    (b"#", Mark::Hash),
    (b"'", Mark::Tick),
    (b"=", Mark::Assign),
    (b"+", Mark::Plus),
    (b"-", Mark::Minus),
    (b"*", Mark::Star),
    (b"/", Mark::Slash),
    (b"%", Mark::Percent),
    (b"&", Mark::And),
    (b"|", Mark::Or),
    (b"^", Mark::Xor),
    (b"~", Mark::Tilde),
    (b"!", Mark::Not),
    (b"<", Mark::Less),
    (b">", Mark::Greater),
    (b"++", Mark::Increment),
    (b"--", Mark::Decrement),
    (b"+=", Mark::PlusAssign),
    (b"-=", Mark::MinusAssign),
    (b"**", Mark::Power),
    (b"==", Mark::Equal),
    (b"!=", Mark::NotEqual),
    (b"<=", Mark::LessEqual),
    (b">=", Mark::GreaterEqual),
    (b"<<", Mark::ShiftLeft),
    (b">>", Mark::ShiftRight),
    (b"<<<", Mark::ArithmeticLeft),
    (b">>>", Mark::ArithmeticRight),
    (b"&&", Mark::AndAnd),
    (b"||", Mark::OrOr),
    (b"~&", Mark::TildeAnd),
    (b"~|", Mark::TildeOr),
    (b"~^", Mark::TildeXor),
    (b"^~", Mark::XorTilde),
    (b"->", Mark::Implies),
    (b"<->", Mark::Equivalent),
    (b"+:", Mark::PlusColon),
    (b"-:", Mark::MinusColon),
];

/// Whether two texts are equal.
pub fn same(a: &[u8], b: &[u8]) -> bool
    ensures { result ≡ bytes_eq a.now b.now }
{
    a == b
}

// The entry of the text, if there is one.
fn keyword_in(mut table: &[(&[u8], Keyword)], text: &[u8]) -> Option<Keyword>
    ensures { result ≡ spec.entry (map (λ e. (e.0.now, e.1)) table.entry.now) text.now }
{
    while let [entry, rest @ ..] = table {
        if same(entry.0, text) {
            return Some(entry.1);
        }
        table = rest;
    }
    None
}

fn mark_in(mut table: &[(&[u8], Mark)], text: &[u8]) -> Option<Mark>
    ensures { result ≡ spec.entry (map (λ e. (e.0.now, e.1)) table.entry.now) text.now }
{
    while let [entry, rest @ ..] = table {
        if same(entry.0, text) {
            return Some(entry.1);
        }
        table = rest;
    }
    None
}

#[tactic(auto, unfolding(crate::specs::Sorts::keyword))]
fn keyword(text: &[u8]) -> Option<Keyword>
    ensures { result ≡ spec.keyword text.now }
{
    keyword_in(&KEYWORDS, text)
}

#[tactic(auto, unfolding(crate::specs::Sorts::mark))]
fn mark(text: &[u8]) -> Option<Mark>
    ensures { result ≡ spec.mark text.now }
{
    mark_in(&MARKS, text)
}

#[tactic(auto, unfolding(crate::specs::Sorts::system))]
fn system(text: &[u8]) -> Option<SystemName>
    ensures { result ≡ spec.system text.now }
{
    if same(text, b"$signed") {
        Some(SystemName::Signed)
    } else if same(text, b"$unsigned") {
        Some(SystemName::Unsigned)
    } else if same(text, b"$clog2") {
        Some(SystemName::Clog2)
    } else {
        None
    }
}

fn word_sort(text: &[u8]) -> Sort
    ensures { result ≡ spec.word_sort text.now }
{
    match keyword(text) {
        Some(word) => Sort::Keyword(word),
        None if is_id(text) => Sort::Id,
        None => Sort::Other,
    }
}

/// The sort of a token.
#[tactic(auto, unfolding(crate::specs::Sorts::sort))]
pub fn sort_of(token: &Token) -> Sort
    ensures { result ≡ spec.sort token.now }
{
    match token.kind {
        Kind::Word => word_sort(token.text.bytes()),
        Kind::Mark => match mark(token.text.bytes()) {
            Some(mark) => Sort::Mark(mark),
            None => Sort::Other,
        },
        Kind::System => match system(token.text.bytes()) {
            Some(name) => Sort::System(name),
            None => Sort::Other,
        },
        Kind::Literal => Sort::Literal,
        Kind::Quoted | Kind::Directive | Kind::Continue => Sort::Other,
    }
}
