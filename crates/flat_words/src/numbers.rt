//! Digits and the numbers that they say. A number of more digits than a word holds is held at the greatest of a word, and no number
//! of a text of the form is that great.

ghost use Rattle.std.specs.Prelude.{◌≡◌, ◌-◌, ◌^◌, ◌≤◌, length, min};
ghost use Rattle.std.specs.List.{prefix_len};
ghost use Rattle.flat_words.specs.Readers as spec;
ghost use Rattle.flat_words.specs.Readers.{is_digit, is_letter, is_plain};

fn is_digit(b: u8) -> bool
    ensures { result ≡ is_digit b }
{
    b.is_ascii_digit()
}

/// How many digits stand at the front.
pub fn digits(text: &[u8]) -> usize
    ensures is { result ≡ prefix_len is_digit text.now }
    ensures within { result ≤ length text.now }
{
    text.iter().take_while(|b| is_digit(**b)).count()
}

/// How many bytes stand before the first blank.
pub fn letters(text: &[u8]) -> usize
    ensures is { result ≡ prefix_len is_letter text.now }
    ensures within { result ≤ length text.now }
{
    text.iter().take_while(|b| **b != b' ').count()
}

/// Whether there are digits, and no 0 before another.
pub fn is_plain(digits: &[u8]) -> bool
    ensures { result ≡ is_plain digits.now }
{
    match digits {
        [] => false,
        [b'0'] => true,
        [first, ..] => *first != b'0',
    }
}

/// The number that digits say, or the greatest of a word where it is over that.
#[tactic(auto, using(crate::proofs::Values::value_none, crate::proofs::Values::value_more, crate::proofs::Values::capped_step))]
pub fn value(digits: &[u8]) -> usize
    ensures { result ≡ min (spec.value digits.now) (2 ^ 64 - 1) }
{
    let mut number = 0usize;
    for b in digits {
        number = number
            .saturating_mul(10)
            .saturating_add(usize::from(b.saturating_sub(b'0')));
    }
    number
}
