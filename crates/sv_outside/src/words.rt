// Which words are identifiers, and which are reserved (IEEE 1800-2017, 5.6 and annex B). The reserved words stand in a table by
// their first letter, so that a word is compared with few of them, and under a letter those of the grammar come first, since
// they are met most. A row is one text and no list of texts: a static is proved constant by constant, and this has 26 in place
// of some 170. Keywords of the annex that name nothing in the grammar and are not listed as out of scope are identifiers here, so
// the table lacks them.
ghost use Rattle.std.specs.Prelude.{◌≡◌, ◌==◌, [], ◌∷◌, ◌++◌, map};
ghost use Rattle.std.specs.List.{list_any, list_all, range_with_len, slice_split};
ghost use Rattle.std.specs.Str.{bytes_eq};
ghost use Rattle.sv_outside.specs.Words as form;

// The reserved words by their first letter, from `a` on, with a blank behind each; under a letter those of the grammar come first.
static BY_LETTER: [&[u8]; 26] = [
    b"assign always_comb always_latch always_ff always alias and assert assume automatic ",
    b"bit begin bind break buf bufif0 bufif1 byte ",
    b"case casez casex checker class clocking const continue cover covergroup ",
    b"default deassign defparam disable do ",
    b"endmodule enum endgenerate else end endcase event export extern ",
    b"for final force foreach forever fork function ",
    b"genvar generate ",
    b"",
    b"int integer input inout if import initial inside interface ",
    b"join ",
    b"",
    b"localparam logic longint ",
    b"module ",
    b"negedge nand nor not notif0 notif1 ",
    b"output or ",
    b"parameter packed posedge priority package primitive program property pulldown pullup ",
    b"",
    b"reg real realtime release repeat return ",
    b"signed struct sequence shortint shortreal specify static string supply0 supply1 ",
    b"tri typedef task time tran tri0 tri1 triand trior trireg ",
    b"unsigned unique unique0 union ",
    b"var ",
    b"wire wait wand while wor ",
    b"xnor xor ",
    b"",
    b"",
];

fn starts_a_word(b: u8) -> bool
    ensures { result ≡ form.starts_word b }
{
    b.is_ascii_alphabetic() || b == b'_'
}

fn goes_on_in_word(b: u8) -> bool
    ensures { result ≡ form.goes_on b }
{
    starts_a_word(b) || b.is_ascii_digit() || b == b'$'
}

// The row of the reserved words that begin with that byte. A blank stands behind the last one too, so the last part is empty.
fn reserved_from(table: &'static [&'static [u8]], first: u8) -> &'static [u8]
    requires { map (λ row. slice_split (λ b. b == 32) row.now) table.now ≡ map (λ letter. form.words_from letter ++ [] ∷ []) (range_with_len 97 26) }
    ensures { slice_split (λ b. b == 32) result.now ≡ form.words_from first ++ [] ∷ [] }
{
    if first.is_ascii_lowercase() {
        table[usize::from(first - b'a')]
    } else {
        b""
    }
}

fn is_among(text: &[u8], row: &[u8]) -> bool
    ensures { result ≡ list_any (bytes_eq text.now) (slice_split (λ b. b == 32) row.now) }
{
    row.split(|b| *b == b' ').any(|word| text == word)
}

fn is_reserved(text: &[u8]) -> bool
    ensures { result ≡ form.is_reserved text.now }
{
    match text {
        [] => false,
        [first, ..] => is_among(text, reserved_from(&BY_LETTER, *first)),
    }
}

fn all_go_on(rest: &[u8]) -> bool
    ensures { result ≡ list_all form.goes_on rest.now }
{
    rest.iter().all(|b| goes_on_in_word(*b))
}

fn is_word(text: &[u8]) -> bool
    ensures { result ≡ form.is_word text.now }
{
    match text {
        [] => false,
        [first, rest @ ..] => starts_a_word(*first) && all_go_on(rest),
    }
}

/// Whether the text is an identifier: a word that is not reserved. It takes no memory.
pub fn is_id(text: &[u8]) -> bool
    ensures { result ≡ form.is_id text.now }
{
    is_word(text) && !is_reserved(text)
}
