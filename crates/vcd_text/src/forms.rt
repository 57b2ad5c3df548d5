//! Forms of single words: codes, numbers, bits and real numbers. Each test is one definition of the forms, and goes through the
//! word from the left with no memory. A real number is only told from other words, since changes of those do not count.

ghost use Rattle.std.specs.Prelude.{◌≡◌, ◌-◌, ◌^◌, ◌≤◌, drop, length, min};
ghost use Rattle.std.specs.List.{prefix_len};
ghost use Rattle.vcd_text.specs.Forms as form;

use fourvec::Bit;

fn are_code_bytes(text: &[u8]) -> bool
    ensures { result ≡ form.are_code_bytes text.now }
{
    text.iter().all(|b| 33 <= *b && *b <= 126)
}

/// Whether a word may be a code.
pub fn is_code(text: &[u8]) -> bool
    ensures { result ≡ form.is_code text.now }
{
    !text.is_empty() && are_code_bytes(text)
}

fn is_digit(b: u8) -> bool
    ensures { result ≡ form.is_digit b }
{
    b.is_ascii_digit()
}

fn all_digits(text: &[u8]) -> bool
    ensures { result ≡ form.all_digits text.now }
{
    text.iter().all(|b| is_digit(*b))
}

fn are_digits(text: &[u8]) -> bool
    ensures { result ≡ form.are_digits text.now }
{
    !text.is_empty() && all_digits(text)
}

// The number that digits say, or the greatest of this type where it is over that.
#[tactic(auto, using(crate::proofs::Numbers::value_none, crate::proofs::Numbers::value_more, crate::proofs::Numbers::capped_step))]
fn value(digits: &[u8]) -> u128
    ensures { result ≡ min (form.value digits.now) (2 ^ 128 - 1) }
{
    let mut number = 0u128;
    for b in digits {
        number = number
            .saturating_mul(10)
            .saturating_add(u128::from(b.saturating_sub(b'0')));
    }
    number
}

/// The number that a word says, if it is at most so great.
#[tactic(auto, unfolding(crate::specs::Forms::number_to))]
pub fn number(text: &[u8], most: u64) -> Option<u64>
    ensures { result ≡ form.number_to most text.now }
{
    if !are_digits(text) {
        return None;
    }
    let number = value(text);
    if number <= u128::from(most) {
        Some(number as u64)
    } else {
        None
    }
}

/// The bit that a byte says.
pub fn bit(byte: u8) -> Option<Bit>
    ensures { result ≡ form.bit_of byte }
{
    match byte {
        b'0' => Some(Bit::Zero),
        b'1' => Some(Bit::One),
        b'x' | b'X' => Some(Bit::Unknown),
        b'z' | b'Z' => Some(Bit::Floating),
        _ => None,
    }
}

fn is_bit(digit: u8) -> bool
    ensures { result ≡ form.is_bit digit }
{
    bit(digit).is_some()
}

fn all_bits(digits: &[u8]) -> bool
    ensures { result ≡ form.all_bits digits.now }
{
    digits.iter().all(|d| is_bit(*d))
}

/// Whether a word says one bit or more.
pub fn are_bits(digits: &[u8]) -> bool
    ensures { result ≡ form.are_bits digits.now }
{
    !digits.is_empty() && all_bits(digits)
}

// What stands behind a sign, if there is one.
fn unsigned(text: &[u8]) -> &[u8]
    ensures { result.now ≡ form.unsigned text.now }
{
    match text {
        [b'+' | b'-', rest @ ..] => rest,
        _ => text,
    }
}

fn digits(text: &[u8]) -> usize
    ensures is { result ≡ prefix_len form.is_digit text.now }
    ensures within { result ≤ length text.now }
{
    text.iter().take_while(|b| is_digit(**b)).count()
}

// Nothing, or an exponent.
fn is_exponent(text: &[u8]) -> bool
    ensures { result ≡ form.is_exponent text.now }
{
    match text {
        [] => true,
        [b'e' | b'E', rest @ ..] => are_digits(unsigned(rest)),
        _ => false,
    }
}

// What stands behind the digits at the front.
fn undigited(text: &[u8]) -> &[u8]
    ensures { result.now ≡ form.undigited text.now }
{
    let (_, rest) = text.split_at(digits(text));
    rest
}

// Digits, and nothing or an exponent.
fn is_decimals(text: &[u8]) -> bool
    ensures { result ≡ form.is_decimals text.now }
{
    0 < digits(text) && is_exponent(undigited(text))
}

fn is_fraction(text: &[u8]) -> bool
    ensures { result ≡ form.is_fraction text.now }
{
    match text {
        [b'.', rest @ ..] => is_decimals(rest),
        _ => is_exponent(text),
    }
}

fn is_decimal(text: &[u8]) -> bool
    ensures { result ≡ form.is_decimal text.now }
{
    0 < digits(text) && is_fraction(undigited(text))
}

fn is_no_number(text: &[u8]) -> bool
    ensures { result ≡ form.is_no_number text.now }
{
    text == b"inf".as_slice()
        || text == b"nan".as_slice()
        || text == b"Inf".as_slice()
        || text == b"NaN".as_slice()
}

// Whether a text without a sign is a real number.
fn is_magnitude(text: &[u8]) -> bool
    ensures { result ≡ form.is_magnitude text.now }
{
    is_decimal(text) || is_no_number(text)
}

/// Whether a text is a real number.
pub fn is_real(text: &[u8]) -> bool
    ensures { result ≡ form.is_real text.now }
{
    is_magnitude(unsigned(text))
}
