// The length of each form of token at the front of a text: words, literals, quoted texts, directives and marks, and comments. A
// form answers 0 where it does not begin there, and its runs are taken as far as they go, so the length is that of the longest
// match. The kinds are tried one after another: only a `'` begins two of them, and there a literal is tried before the mark,
// which is shorter.
ghost use Rattle.std.specs.Prelude.{◌≡◌, ◌≤◌, ◌∷◌, [], ℕ, length, not, option_map};
ghost use Rattle.sv_token.specs.Cut.{run, comment_length, is_end_of_line, opens};
ghost use Rattle.sv_outside.specs.Words as word;
ghost use Rattle.sv_outside.specs.Literals as literal;
ghost use Rattle.sv_token.specs.Scan as scan;

use crate::bytes::{
    goes_decimal, goes_on, goes_value, is_digit, is_fill_digit, is_mark_1, is_mark_2, is_mark_3,
    is_sign, starts_value, starts_word,
};
use sv_outside::Kind;

// How many first bytes go on with a word.
#[tactic(auto, unfolding(crate::specs::Cut::run))]
fn word_run(text: &[u8]) -> usize
    ensures within { result ≤ length text.now }
    ensures run { result ≡ run word.goes_on text.now }
{
    let mut n = 0;
    let mut rest = text;
    while let [b, after @ ..] = rest {
        if !goes_on(*b) {
            return n;
        }
        n += 1;
        rest = after;
    }
    n
}

#[tactic(auto, unfolding(crate::specs::Cut::run))]
fn decimal_run(text: &[u8]) -> usize
    ensures within { result ≤ length text.now }
    ensures run { result ≡ run literal.goes_decimal text.now }
{
    let mut n = 0;
    let mut rest = text;
    while let [b, after @ ..] = rest {
        if !goes_decimal(*b) {
            return n;
        }
        n += 1;
        rest = after;
    }
    n
}

#[tactic(auto, unfolding(crate::specs::Cut::run))]
fn value_run(base: u8, first: u8, text: &[u8]) -> usize
    ensures within { result ≤ length text.now }
    ensures run { result ≡ run (literal.goes_value base first) text.now }
{
    let mut n = 0;
    let mut rest = text;
    while let [b, after @ ..] = rest {
        if !goes_value(base, first, *b) {
            return n;
        }
        n += 1;
        rest = after;
    }
    n
}

#[tactic(auto, unfolding(crate::specs::Cut::run))]
/// How many first bytes stand before the line's end.
pub fn line_run(text: &[u8]) -> usize
    ensures within { result ≤ length text.now }
    ensures run { result ≡ run (λ c. not (is_end_of_line c)) text.now }
{
    let mut n = 0;
    let mut rest = text;
    while let [b, after @ ..] = rest {
        if *b == b'\n' {
            return n;
        }
        n += 1;
        rest = after;
    }
    n
}

#[tactic(auto, unfolding(crate::specs::Scan::headed_scan, crate::specs::Scan::word_scan))]
fn word_len(text: &[u8]) -> usize
    ensures within { result ≤ length text.now }
    ensures scan { result ≡ scan.word_scan text.now }
{
    match text {
        [b, after @ ..] if starts_word(*b) => word_run(after) + 1,
        _ => 0,
    }
}

#[tactic(auto, unfolding(crate::specs::Scan::headed_scan, crate::specs::Scan::number_scan))]
fn number_len(text: &[u8]) -> usize
    ensures within { result ≤ length text.now }
    ensures scan { result ≡ scan.number_scan text.now }
{
    match text {
        [b, after @ ..] if is_digit(*b) => decimal_run(after) + 1,
        _ => 0,
    }
}

// The word behind a mark.
#[tactic(auto, unfolding(crate::specs::Scan::mark_scan_behind))]
fn marked_word_len(mark: u8, text: &[u8]) -> usize
    ensures within { result ≤ length text.now }
    ensures scan { result ≡ scan.mark_scan_behind mark scan.word_scan text.now }
{
    if let [b, after @ ..] = text
        && *b == mark
    {
        let n = word_len(after);
        return if n == 0 { 0 } else { n + 1 };
    }
    0
}

#[tactic(auto, unfolding(crate::specs::Scan::value_scan))]
fn value_len(text: &[u8]) -> usize
    ensures within { result ≤ length text.now }
    ensures scan { result ≡ scan.value_scan text.now }
{
    match text {
        [base, first, after @ ..] if starts_value(*base, *first) => {
            value_run(*base, *first, after) + 2
        }
        _ => 0,
    }
}

#[tactic(auto, unfolding(crate::specs::Scan::signed_scan))]
fn signed_len(text: &[u8]) -> usize
    ensures within { result ≤ length text.now }
    ensures scan { result ≡ scan.signed_scan text.now }
{
    if let [b, after @ ..] = text
        && is_sign(*b)
    {
        let n = value_len(after);
        return if n == 0 { 0 } else { n + 1 };
    }
    value_len(text)
}

#[tactic(auto, unfolding(crate::specs::Scan::mark_scan_behind, crate::specs::Scan::unsized_scan))]
fn unsized_len(text: &[u8]) -> usize
    ensures within { result ≤ length text.now }
    ensures scan { result ≡ scan.unsized_scan text.now }
{
    if let [b, after @ ..] = text
        && *b == b'\''
    {
        let n = signed_len(after);
        return if n == 0 { 0 } else { n + 1 };
    }
    0
}

#[tactic(auto, unfolding(crate::specs::Scan::fill_scan))]
fn fill_len(text: &[u8]) -> usize
    ensures within { result ≤ length text.now }
    ensures scan { result ≡ scan.fill_scan text.now }
{
    match text {
        [b, c, ..] if *b == b'\'' && is_fill_digit(*c) => 2,
        _ => 0,
    }
}

#[tactic(auto, unfolding(crate::specs::Scan::literal_scan))]
fn literal_len(text: &[u8]) -> usize
    ensures within { result ≤ length text.now }
    ensures scan { result ≡ scan.literal_scan text.now }
{
    let size = number_len(text);
    let based = unsized_len(&text[size..]);
    if based > 0 {
        return size + based;
    }
    if size > 0 {
        return size;
    }
    fill_len(text)
}

/// Whether the text begins with these two bytes.
pub fn opens(first: u8, second: u8, text: &[u8]) -> bool
    ensures { result ≡ opens first second text.now }
{
    match text {
        [a, b, ..] => *a == first && *b == second,
        _ => false,
    }
}

// The rest of a quoted text, up to its end.
#[tactic(auto, using(crate::proofs::Steps::behind_none), unfolding(crate::specs::Scan::body_scan))]
fn body_len(text: &[u8]) -> usize
    ensures within { result ≤ length text.now }
    ensures scan { result ≡ scan.body_scan text.now }
{
    let mut n = 0;
    let mut rest = text;
    'body: while let Some((b, after)) = rest.split_first() {
        if *b == b'"' {
            return n + 1;
        }
        if *b == b'\n' {
            return 0;
        }
        if *b == b'\\' {
            match after.split_first() {
                Some((c, beyond)) if *c != b'\n' => {
                    n += 2;
                    rest = beyond;
                }
                _ => return 0,
            }
        } else {
            n += 1;
            rest = after;
        }
    }
    0
}

#[tactic(auto, unfolding(crate::specs::Scan::mark_scan_behind, crate::specs::Scan::quoted_scan))]
fn quoted_len(text: &[u8]) -> usize
    ensures within { result ≤ length text.now }
    ensures scan { result ≡ scan.quoted_scan text.now }
{
    if let [b, after @ ..] = text
        && *b == b'"'
    {
        let n = body_len(after);
        return if n == 0 { 0 } else { n + 1 };
    }
    0
}

#[tactic(auto, unfolding(crate::specs::Scan::mark_scan))]
fn mark_len(text: &[u8]) -> usize
    ensures within { result ≤ length text.now }
    ensures scan { result ≡ scan.mark_scan text.now }
{
    match text {
        [a, b, c, ..] if is_mark_3(*a, *b, *c) => 3,
        [a, b, ..] if is_mark_2(*a, *b) => 2,
        [a, ..] if is_mark_1(*a) => 1,
        _ => 0,
    }
}

/// The length through the first end of a comment, or 0.
#[tactic(auto, using(crate::proofs::Steps::behind_none), unfolding(crate::specs::Cut::comment_length))]
pub fn comment_len(text: &[u8]) -> usize
    ensures within { result ≤ length text.now }
    ensures scan { result ≡ comment_length text.now }
{
    let mut n = 0;
    let mut rest = text;
    'comment: while let Some((_, after)) = rest.split_first() {
        if opens(b'*', b'/', rest) {
            return n + 2;
        }
        n += 1;
        rest = after;
    }
    0
}

/// The kind and the length of the token at the front.
#[tactic(auto, unfolding(crate::specs::Scan::token_scan, crate::specs::Scan::system_scan, crate::specs::Scan::directive_scan))]
pub fn token_at(text: &[u8]) -> Option<(Kind, usize)>
    ensures { result ≡ scan.token_scan text.now }
{
    let word = word_len(text);
    if word > 0 {
        return Some((Kind::Word, word));
    }
    let system = marked_word_len(b'$', text);
    if system > 0 {
        return Some((Kind::System, system));
    }
    let literal = literal_len(text);
    if literal > 0 {
        return Some((Kind::Literal, literal));
    }
    let quoted = quoted_len(text);
    if quoted > 0 {
        return Some((Kind::Quoted, quoted));
    }
    let directive = marked_word_len(b'`', text);
    if directive > 0 {
        return Some((Kind::Directive, directive));
    }
    let mark = mark_len(text);
    if mark > 0 {
        return Some((Kind::Mark, mark));
    }
    None
}
