// Which texts are literals, and the parts of one: the size, the sign, the base and the digits (IEEE 1800-2017, 5.7.1). A text
// is only cut here and no digit is evaluated, so each answer is a slice of the text or a truth, and nothing takes memory.
ghost use Rattle.std.specs.Prelude.{◌≡◌, ◌≤◌, drop, length, slice_index};
ghost use Rattle.std.specs.List.{list_all, prefix_len};
ghost use Rattle.sv_outside.specs.Literals as form;
ghost use Rattle.sv_literal.specs.Meaning.{size_of};

use crate::bytes::{goes_decimal, goes_value, is_digit, is_fill_digit, is_sign, starts_value};

fn all_go_decimal(text: &[u8]) -> bool
    ensures { result ≡ list_all form.goes_decimal text.now }
{
    text.iter().all(|b| goes_decimal(*b))
}

/// Whether the text is decimal digits.
pub fn is_number(text: &[u8]) -> bool
    ensures { result ≡ form.is_number text.now }
{
    match text {
        [] => false,
        [first, more @ ..] => is_digit(*first) && all_go_decimal(more),
    }
}

/// Whether the text is one of `'0 '1 'x 'z`.
pub fn is_fill(text: &[u8]) -> bool
    ensures { result ≡ form.is_fill text.now }
{
    match text {
        [quote, digit] => *quote == b'\'' && is_fill_digit(*digit),
        _ => false,
    }
}

fn all_go_value(base: u8, first: u8, text: &[u8]) -> bool
    ensures { result ≡ list_all (form.goes_value base first) text.now }
{
    text.iter().all(|b| goes_value(base, first, *b))
}

/// Whether the text is a base and digits of that base.
fn is_value(text: &[u8]) -> bool
    ensures { result ≡ form.is_value text.now }
{
    match text {
        [base, first, more @ ..] => {
            starts_value(*base, *first) && all_go_value(*base, *first, more)
        }
        _ => false,
    }
}

fn decimal_run(text: &[u8]) -> usize
    ensures within { result ≤ length text.now }
    ensures run { result ≡ prefix_len form.goes_decimal text.now }
{
    text.iter().take_while(|b| goes_decimal(**b)).count()
}

fn size_len(text: &[u8]) -> usize
    ensures within { result ≤ length text.now }
    ensures size { result ≡ length (size_of text.now) }
{
    match text {
        [first, more @ ..] if is_digit(*first) => decimal_run(more) + 1,
        _ => 0,
    }
}

/// The digits of the size, none where there is no size, and the text behind them.
#[tactic(auto, using(crate::proofs::Parts::behind_size))]
pub fn split_size(text: &[u8]) -> (&[u8], &[u8])
    ensures size { result.0.now ≡ size_of text.now }
    ensures behind { result.1.now ≡ form.without_size text.now }
{
    text.split_at(size_len(text))
}

/// Whether the text begins with `s`.
pub fn has_sign(text: &[u8]) -> bool
    ensures { result ≡ form.is_sign (slice_index text.now 0) }
{
    match text {
        [] => false,
        [first, ..] => is_sign(*first),
    }
}

/// The text behind its sign, if it has one.
pub fn without_sign(text: &[u8]) -> &[u8]
    ensures { result.now ≡ form.without_sign text.now }
{
    match text {
        [first, more @ ..] if is_sign(*first) => more,
        _ => text,
    }
}

/// The text behind its first byte.
pub fn behind_first(text: &[u8]) -> &[u8]
    ensures { result.now ≡ drop 1 text.now }
{
    match text {
        [] => text,
        [_, more @ ..] => more,
    }
}

/// Whether the text is a size, if any, a `'`, and a value that may be signed.
pub fn is_based(text: &[u8]) -> bool
    ensures { result ≡ form.is_based text.now }
{
    match split_size(text).1 {
        [b'\'', suffix @ ..] => is_value(without_sign(suffix)),
        _ => false,
    }
}
