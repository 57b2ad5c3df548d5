// The options, and what one word says of them. What differs between options stands in small tables (the word, whether it takes
// a text, which texts are good), and one rule reads them for all. A text behind `=` may begin with `-`; a next word that begins
// so and goes on is no text, so that a forgotten text is not taken from the option behind it.
ghost use Rattle.std.specs.Prelude.{◌≡◌, ℕ, ◌≤◌, length, true, option_copied, option_map};
ghost use Rattle.std.specs.List.{list_all};
ghost use Rattle.svtv_words.specs.Commands.{option_text, takes_text, is_digit, number_behind};
ghost use Rattle.svtv_words.specs.Reading as spec;
ghost use Rattle.svtv_words.specs.Seen.{kind_is, option_is};

/// An option of a command.
#[derive(Clone, Copy)]
pub(crate) enum OptionName {
    Top,
    Budget,
    Vcd,
}

/// What a word is where no option waits for its text.
#[derive(Clone, Copy)]
pub(crate) enum Kind<'a> {
    /// A positional.
    Name,
    /// An option with its text.
    Joined(OptionName, &'a [u8]),
    /// An option whose text is the next word.
    Apart(OptionName),
    /// An option that takes no text.
    Alone(OptionName),
    /// The word behind which every word is a positional.
    Rest,
    Unknown,
}

impl OptionName {
    fn word(self) -> &'static [u8]
        ensures { result.now ≡ option_text (option_is self) }
    {
        match self {
            OptionName::Top => b"--top",
            OptionName::Budget => b"--budget",
            OptionName::Vcd => b"--vcd",
        }
    }

    // Whether it is given with a text, or alone.
    fn takes_text(self) -> bool
        ensures { result ≡ takes_text (option_is self) }
    {
        match self {
            OptionName::Top => true,
            OptionName::Budget => true,
            OptionName::Vcd => false,
        }
    }

    /// Whether it may be given this text.
    pub(crate) fn is_good(self, text: &[u8]) -> bool
        ensures { result ≡ spec.is_good (option_is self) text.now }
    {
        match self {
            OptionName::Top => !text.is_empty(),
            OptionName::Budget => budget_of(text).is_some(),
            OptionName::Vcd => true,
        }
    }

    // What its word is.
    fn bare<'a>(self) -> Kind<'a>
        ensures { kind_is result ≡ spec.bare_kind (takes_text (option_is self)) (option_is self) }
    {
        if self.takes_text() {
            Kind::Apart(self)
        } else {
            Kind::Alone(self)
        }
    }

    // The text behind its word and `=`.
    fn joined_text<'a>(self, word: &'a [u8]) -> Option<&'a [u8]>
        ensures { option_copied result ≡ spec.joined_text (option_is self) word.now }
    {
        if !self.takes_text() {
            return None;
        }
        let behind = text_behind(self.word(), word)?;
        text_behind(b"=", behind)
    }

    // The kind of a word with this option.
    #[tactic(auto, unfolding(crate::specs::Reading::option_kind))]
    fn kind<'a>(self, word: &'a [u8]) -> Option<Kind<'a>>
        ensures { option_map kind_is result ≡ spec.option_kind (option_is self) word.now }
    {
        if word == self.word() {
            return Some(self.bare());
        }
        let text = self.joined_text(word)?;
        Some(Kind::Joined(self, text))
    }
}

/// Whether a word has two bytes or more, the first of them `-`.
pub(crate) fn is_dashed(word: &[u8]) -> bool
    ensures { result ≡ spec.is_dashed word.now }
{
    word.len() >= 2 && word[0] == b'-'
}

fn text_behind<'a>(front: &[u8], word: &'a [u8]) -> Option<&'a [u8]>
    ensures { option_copied result ≡ spec.text_behind front.now word.now }
{
    word.strip_prefix(front)
}

// The kind of a dashed word that is not `--`.
fn dashed_kind(word: &[u8]) -> Kind<'_>
    ensures { kind_is result ≡ spec.kind_among spec.every_option word.now }
{
    if let Some(kind) = OptionName::Top.kind(word) {
        kind
    } else if let Some(kind) = OptionName::Budget.kind(word) {
        kind
    } else if let Some(kind) = OptionName::Vcd.kind(word) {
        kind
    } else {
        Kind::Unknown
    }
}

/// What a word is where no option waits for its text.
#[tactic(auto, unfolding(crate::specs::Reading::kind_of))]
pub(crate) fn kind_of(word: &[u8]) -> Kind<'_>
    ensures { kind_is result ≡ spec.kind_of word.now }
{
    if !is_dashed(word) {
        Kind::Name
    } else if word == b"--".as_slice() {
        Kind::Rest
    } else {
        dashed_kind(word)
    }
}

const BUDGET_DIGITS: usize = 8;

const MOST_BUDGET: u64 = 10_000_000;

const COUNT_DIGITS: usize = 2;

const MOST_COUNT: u64 = 30;

fn are_digits(text: &[u8]) -> bool
    ensures { result ≡ list_all is_digit text.now }
{
    text.iter().all(|b| b'0' <= *b && *b <= b'9')
}

// The number of at most eight digits.
fn number_of(text: &[u8]) -> u64
    requires few { length text.now ≤ 8 }
    requires digits { list_all is_digit text.now ≡ true }
    ensures { result ≡ number_behind 0 text.now }
{
    let mut number = 0;
    for b in text {
        number = number * 10 + u64::from(*b - b'0');
    }
    number
}

fn in_bounds(number: u64, greatest: u64) -> Option<u64>
    ensures { result ≡ spec.in_bounds greatest number }
{
    if 1 <= number && number <= greatest {
        Some(number)
    } else {
        None
    }
}

// The number from 1 to the greatest that a text of at most so many digits is.
#[tactic(auto, unfolding(crate::specs::Reading::number_in))]
fn number_in(text: &[u8], digits: usize, greatest: u64) -> Option<u64>
    requires { digits ≤ 8 }
    ensures { result ≡ spec.number_in digits greatest text.now }
{
    if text.is_empty() || text.len() > digits {
        return None;
    }
    if !are_digits(text) {
        return None;
    }
    in_bounds(number_of(text), greatest)
}

/// The budget that a text is: 1 to 8 decimal digits, of a number from 1 to 10,000,000.
pub(crate) fn budget_of(text: &[u8]) -> Option<u64>
    ensures { result ≡ spec.budget_of text.now }
{
    number_in(text, BUDGET_DIGITS, MOST_BUDGET)
}

/// The count that a text is: 1 or 2 decimal digits, of a number from 1 to 30.
pub(crate) fn count_of(text: &[u8]) -> Option<u64>
    ensures { result ≡ spec.count_of text.now }
{
    number_in(text, COUNT_DIGITS, MOST_COUNT)
}
