// Which bytes stand where in a token, and which marks of one, two and three bytes there are. Each test that the scanner asks
// has a definition in the forms of tokens, so that its proofs speak of these and never of a byte's number. Marks of two bytes
// are told in four short groups, by what they are used for.
ghost use Rattle.std.specs.Prelude.{◌≡◌, ◌==◌, ◌∷◌, [], ℕ, Bool};
ghost use Rattle.std.specs.List.{list_any};
ghost use Rattle.std.specs.Str.{bytes_eq};
ghost use Rattle.sv_outside.specs.Words as word;
ghost use Rattle.sv_outside.specs.Literals as literal;
ghost use Rattle.sv_token.specs.Forms as form;

pub fn is_digit(b: u8) -> bool
    ensures { result ≡ word.is_digit b }
{
    b'0' <= b && b <= b'9'
}

pub fn starts_word(b: u8) -> bool
    ensures { result ≡ word.starts_word b }
{
    (b'a' <= b && b <= b'z') || (b'A' <= b && b <= b'Z') || b == b'_'
}

pub fn goes_on(b: u8) -> bool
    ensures { result ≡ word.goes_on b }
{
    starts_word(b) || is_digit(b) || b == b'$'
}

pub fn goes_decimal(b: u8) -> bool
    ensures { result ≡ literal.goes_decimal b }
{
    is_digit(b) || b == b'_'
}

pub fn is_unknown(b: u8) -> bool
    ensures { result ≡ literal.is_unknown b }
{
    b == b'x' || b == b'X' || b == b'z' || b == b'Z' || b == b'?'
}

pub fn is_sign(b: u8) -> bool
    ensures { result ≡ literal.is_sign b }
{
    b == b's' || b == b'S'
}

pub fn is_decimal_base(b: u8) -> bool
    ensures { result ≡ literal.is_decimal_base b }
{
    b == b'd' || b == b'D'
}

fn is_binary_digit(b: u8) -> bool
    ensures { result ≡ word.is_within 48 49 b }
{
    b'0' <= b && b <= b'1'
}

fn is_octal_digit(b: u8) -> bool
    ensures { result ≡ word.is_within 48 55 b }
{
    b'0' <= b && b <= b'7'
}

fn is_binary_base(b: u8) -> bool
    ensures { result ≡ literal.is_binary_base b }
{
    b == b'b' || b == b'B'
}

fn is_octal_base(b: u8) -> bool
    ensures { result ≡ literal.is_octal_base b }
{
    b == b'o' || b == b'O'
}

fn is_hex_base(b: u8) -> bool
    ensures { result ≡ literal.is_hex_base b }
{
    b == b'h' || b == b'H'
}

pub fn is_base_digit(base: u8, b: u8) -> bool
    ensures { result ≡ literal.is_base_digit base b }
{
    (is_binary_base(base) && (is_binary_digit(b) || is_unknown(b)))
        || (is_octal_base(base) && (is_octal_digit(b) || is_unknown(b)))
        || (is_hex_base(base)
            && (is_digit(b)
                || (b'a' <= b && b <= b'f')
                || (b'A' <= b && b <= b'F')
                || is_unknown(b)))
}

pub fn starts_value(base: u8, b: u8) -> bool
    ensures { result ≡ literal.starts_value base b }
{
    is_base_digit(base, b) || (is_decimal_base(base) && (is_digit(b) || is_unknown(b)))
}

pub fn goes_value(base: u8, first: u8, b: u8) -> bool
    ensures { result ≡ literal.goes_value base first b }
{
    b == b'_' || is_base_digit(base, b) || (is_decimal_base(base) && is_digit(first) && is_digit(b))
}

pub fn is_fill_digit(b: u8) -> bool
    ensures { result ≡ literal.is_fill_digit b }
{
    b == b'0' || b == b'1' || b == b'x' || b == b'X' || b == b'z' || b == b'Z'
}

pub fn is_blank(b: u8) -> bool
    ensures { result ≡ form.is_blank b }
{
    b == b'\t' || b == b'\n' || b == b'\r' || b == b' '
}

pub fn may_stand(b: u8) -> bool
    ensures { result ≡ form.may_stand b }
{
    b == b'\t' || b == b'\n' || b == b'\r' || (32 <= b && b <= 126)
}

fn is_bracket(a: u8) -> bool
    ensures { result ≡ list_any (λ k. a == k) form.brackets }
{
    a == b'(' || a == b')' || a == b'[' || a == b']' || a == b'{' || a == b'}'
}

fn is_separator(a: u8) -> bool
    ensures { result ≡ list_any (λ k. a == k) form.separators }
{
    a == b'.'
        || a == b','
        || a == b';'
        || a == b':'
        || a == b'?'
        || a == b'@'
        || a == b'#'
        || a == b'\''
        || a == b'='
}

fn is_operator(a: u8) -> bool
    ensures { result ≡ list_any (λ k. a == k) form.operators }
{
    a == b'+'
        || a == b'-'
        || a == b'*'
        || a == b'/'
        || a == b'%'
        || a == b'&'
        || a == b'|'
        || a == b'^'
        || a == b'~'
        || a == b'!'
        || a == b'<'
        || a == b'>'
}

pub fn is_mark_1(a: u8) -> bool
    ensures { result ≡ form.is_mark (a ∷ []) }
{
    is_bracket(a) || is_separator(a) || is_operator(a)
}

fn is_pair(a: u8, b: u8, x: u8, y: u8) -> bool
    ensures { result ≡ bytes_eq (a ∷ b ∷ []) (x ∷ y ∷ []) }
{
    a == x && b == y
}

fn is_triple(a: u8, b: u8, c: u8, x: u8, y: u8, z: u8) -> bool
    ensures { result ≡ bytes_eq (a ∷ b ∷ c ∷ []) (x ∷ y ∷ z ∷ []) }
{
    a == x && b == y && c == z
}

fn is_counting(a: u8, b: u8) -> bool
    ensures { result ≡ list_any (bytes_eq (a ∷ b ∷ [])) form.counting }
{
    is_pair(a, b, b'+', b'+')
        || is_pair(a, b, b'-', b'-')
        || is_pair(a, b, b'+', b'=')
        || is_pair(a, b, b'-', b'=')
        || is_pair(a, b, b'*', b'*')
}

fn is_comparing(a: u8, b: u8) -> bool
    ensures { result ≡ list_any (bytes_eq (a ∷ b ∷ [])) form.comparing }
{
    is_pair(a, b, b'=', b'=')
        || is_pair(a, b, b'!', b'=')
        || is_pair(a, b, b'<', b'=')
        || is_pair(a, b, b'>', b'=')
        || is_pair(a, b, b'<', b'<')
        || is_pair(a, b, b'>', b'>')
}

fn is_joining(a: u8, b: u8) -> bool
    ensures { result ≡ list_any (bytes_eq (a ∷ b ∷ [])) form.joining }
{
    is_pair(a, b, b'&', b'&')
        || is_pair(a, b, b'|', b'|')
        || is_pair(a, b, b'~', b'&')
        || is_pair(a, b, b'~', b'|')
        || is_pair(a, b, b'~', b'^')
        || is_pair(a, b, b'^', b'~')
}

fn is_pointing(a: u8, b: u8) -> bool
    ensures { result ≡ list_any (bytes_eq (a ∷ b ∷ [])) form.pointing }
{
    is_pair(a, b, b'-', b'>') || is_pair(a, b, b'+', b':') || is_pair(a, b, b'-', b':')
}

pub fn is_mark_2(a: u8, b: u8) -> bool
    ensures { result ≡ form.is_mark (a ∷ b ∷ []) }
{
    is_counting(a, b) || is_comparing(a, b) || is_joining(a, b) || is_pointing(a, b)
}

pub fn is_mark_3(a: u8, b: u8, c: u8) -> bool
    ensures { result ≡ form.is_mark (a ∷ b ∷ c ∷ []) }
{
    is_triple(a, b, c, b'=', b'=', b'=')
        || is_triple(a, b, c, b'!', b'=', b'=')
        || is_triple(a, b, c, b'=', b'=', b'?')
        || is_triple(a, b, c, b'!', b'=', b'?')
        || is_triple(a, b, c, b'<', b'<', b'<')
        || is_triple(a, b, c, b'>', b'>', b'>')
        || is_triple(a, b, c, b'<', b'-', b'>')
}
