// Which bytes stand where in a literal: digits of each base, unknown digits, bases, signs, and what may begin and go on a value
// (IEEE 1800-2017, 5.7.1). Each test has a function and a definition of its own, so that the proofs of whole literals speak of
// these and never of a byte's number.
ghost use Rattle.std.specs.Prelude.{◌≡◌, ◌||◌};
ghost use Rattle.std.specs.Char.{digit_value};
ghost use Rattle.sv_outside.specs.Words as word;
ghost use Rattle.sv_outside.specs.Literals as form;
ghost use Rattle.sv_literal.specs.Value as value;

pub fn is_digit(b: u8) -> bool
    ensures { result ≡ word.is_digit b }
{
    b.is_ascii_digit()
}

pub fn goes_decimal(b: u8) -> bool
    ensures { result ≡ form.goes_decimal b }
{
    is_digit(b) || b == b'_'
}

pub fn is_x(b: u8) -> bool
    ensures { result ≡ value.is_x b }
{
    matches!(b, b'x' | b'X')
}

pub fn is_z(b: u8) -> bool
    ensures { result ≡ value.is_z b }
{
    matches!(b, b'z' | b'Z' | b'?')
}

pub fn is_unknown(b: u8) -> bool
    ensures { result ≡ form.is_unknown b }
{
    is_x(b) || is_z(b)
}

pub fn is_sign(b: u8) -> bool
    ensures { result ≡ form.is_sign b }
{
    matches!(b, b's' | b'S')
}

pub fn is_decimal_base(b: u8) -> bool
    ensures { result ≡ form.is_decimal_base b }
{
    matches!(b, b'd' | b'D')
}

pub fn is_binary_base(b: u8) -> bool
    ensures { result ≡ form.is_binary_base b }
{
    matches!(b, b'b' | b'B')
}

pub fn is_octal_base(b: u8) -> bool
    ensures { result ≡ form.is_octal_base b }
{
    matches!(b, b'o' | b'O')
}

fn is_hex_base(b: u8) -> bool
    ensures { result ≡ form.is_hex_base b }
{
    matches!(b, b'h' | b'H')
}

fn is_binary_digit(b: u8) -> bool
    ensures { result ≡ word.is_within 48 49 b }
{
    matches!(b, b'0'..=b'1')
}

fn is_octal_digit(b: u8) -> bool
    ensures { result ≡ word.is_within 48 55 b }
{
    matches!(b, b'0'..=b'7')
}

fn is_hex_digit(b: u8) -> bool
    ensures { result ≡ (word.is_digit b || word.is_within 97 102 b || word.is_within 65 70 b) }
{
    b.is_ascii_hexdigit()
}

fn is_base_digit(base: u8, b: u8) -> bool
    ensures { result ≡ form.is_base_digit base b }
{
    (is_binary_base(base) && (is_binary_digit(b) || is_unknown(b)))
        || (is_octal_base(base) && (is_octal_digit(b) || is_unknown(b)))
        || (is_hex_base(base) && (is_hex_digit(b) || is_unknown(b)))
}

pub fn starts_value(base: u8, b: u8) -> bool
    ensures { result ≡ form.starts_value base b }
{
    is_base_digit(base, b) || (is_decimal_base(base) && (is_digit(b) || is_unknown(b)))
}

pub fn goes_value(base: u8, first: u8, b: u8) -> bool
    ensures { result ≡ form.goes_value base first b }
{
    b == b'_' || is_base_digit(base, b) || (is_decimal_base(base) && is_digit(first) && is_digit(b))
}

pub fn is_fill_digit(b: u8) -> bool
    ensures { result ≡ form.is_fill_digit b }
{
    matches!(b, b'0' | b'1' | b'x' | b'X' | b'z' | b'Z')
}

// The number of a digit, and 36 of a byte that is no digit or letter.
pub fn digit_value(b: u8) -> u8
    ensures { result ≡ digit_value b }
{
    match b {
        b'0'..=b'9' => b - b'0',
        b'A'..=b'Z' => b - b'A' + 10,
        b'a'..=b'z' => b - b'a' + 10,
        _ => 36,
    }
}
