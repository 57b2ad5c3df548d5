// The words behind the verb, read from the left. What the next word may be is a state of three (anything, the text of an
// option, or a positional behind `--`), and each word changes it and what was found. So options may stand anywhere, and what a
// word means depends on the words before it alone. Nothing is copied: what is found are slices of the words.
ghost use Rattle.std.specs.Prelude.{◌≡◌, map, string_bytes, option_map, option_copied};
ghost use Rattle.svtv_words.specs.Commands.{form_of};
ghost use Rattle.svtv_words.specs.Reading as spec;
ghost use Rattle.svtv_words.specs.Seen.{names_are, texts_are, found_is, option_is, verb_is};

use crate::positionals::Names;
use crate::settings::{Kind, OptionName, budget_of, is_dashed, kind_of};
use crate::verbs::Verb;

/// What the next word is.
#[derive(Clone, Copy)]
pub(crate) enum Next {
    Anything,
    TextOf(OptionName),
    Positional,
}

/// The texts of the options, if they were given. That of an option that takes none is empty.
#[derive(Clone, Copy)]
pub(crate) struct Texts<'a> {
    pub top: Option<&'a [u8]>,
    pub budget: Option<&'a [u8]>,
    pub vcd: Option<&'a [u8]>,
}

impl<'a> Texts<'a> {
    fn of(self, option: OptionName) -> Option<&'a [u8]>
        ensures { option_copied result ≡ spec.text_at (option_is option) (texts_are self.entry) }
    {
        match option {
            OptionName::Top => self.top,
            OptionName::Budget => self.budget,
            OptionName::Vcd => self.vcd,
        }
    }

    fn put(self, option: OptionName, text: &'a [u8]) -> Texts<'a>
        ensures { texts_are result ≡ spec.put (option_is option) text.now (texts_are self.entry) }
    {
        match option {
            OptionName::Top => Texts {
                top: Some(text),
                ..self
            },
            OptionName::Budget => Texts {
                budget: Some(text),
                ..self
            },
            OptionName::Vcd => Texts {
                vcd: Some(text),
                ..self
            },
        }
    }

    /// The number of the budget.
    pub(crate) fn number(self) -> Option<u64>
        ensures { result ≡ spec.budget_at (texts_are self.entry) }
    {
        budget_of(self.budget?)
    }
}

/// What the words so far say.
#[derive(Clone, Copy)]
pub(crate) struct Found<'a> {
    pub next: Next,
    pub names: Names<'a>,
    pub texts: Texts<'a>,
}

// One positional more, which is not empty.
fn name_more<'a>(names: Names<'a>, word: &'a [u8]) -> Option<Names<'a>>
    ensures { option_map names_are result ≡ spec.name_more (names_are names.entry) word.now }
{
    if word.is_empty() {
        return None;
    }
    names.one_more(word)
}

// Whether the verb takes the option, which comes once and with a good text.
fn may_give(verb: Verb, before: Option<&[u8]>, option: OptionName, text: &[u8]) -> bool
    ensures { result ≡ spec.may_give (form_of (verb_is verb)) (option_copied before.entry) (option_is option) text.now }
{
    if before.is_some() {
        return false;
    }
    verb.takes(option) && option.is_good(text)
}

fn with_name<'a>(found: Found<'a>, word: &'a [u8]) -> Option<Found<'a>>
    ensures { option_map found_is result ≡ spec.with_name (found_is found.entry) word.now }
{
    let names = name_more(found.names, word)?;
    Some(Found { names, ..found })
}

fn with_setting<'a>(
    verb: Verb,
    found: Found<'a>,
    option: OptionName,
    text: &'a [u8],
) -> Option<Found<'a>>
    ensures { option_map found_is result ≡ spec.with_setting (form_of (verb_is verb)) (found_is found.entry) (option_is option) text.now }
{
    if !may_give(verb, found.texts.of(option), option, text) {
        return None;
    }
    Some(Found {
        next: Next::Anything,
        texts: found.texts.put(option, text),
        ..found
    })
}

fn with_kind<'a>(verb: Verb, found: Found<'a>, word: &'a [u8]) -> Option<Found<'a>>
    ensures { option_map found_is result ≡ spec.with_kind (form_of (verb_is verb)) (found_is found.entry) word.now (spec.kind_of word.now) }
{
    match kind_of(word) {
        Kind::Name => with_name(found, word),
        Kind::Joined(option, text) => with_setting(verb, found, option, text),
        Kind::Apart(option) => Some(Found {
            next: Next::TextOf(option),
            ..found
        }),
        Kind::Alone(option) => with_setting(verb, found, option, b""),
        Kind::Rest => Some(Found {
            next: Next::Positional,
            ..found
        }),
        Kind::Unknown => None,
    }
}

fn with_word<'a>(verb: Verb, found: Found<'a>, word: &'a [u8]) -> Option<Found<'a>>
    ensures { option_map found_is result ≡ spec.with_word (form_of (verb_is verb)) (found_is found.entry) word.now }
{
    match found.next {
        Next::Anything => with_kind(verb, found, word),
        Next::TextOf(_) if is_dashed(word) => None,
        Next::TextOf(option) => with_setting(verb, found, option, word),
        Next::Positional => with_name(found, word),
    }
}

/// What the words behind a verb say, if they are none that it refuses.
pub(crate) fn found_in(verb: Verb, words: &[String]) -> Option<Found<'_>>
    ensures { option_map found_is result ≡ spec.found_in (form_of (verb_is verb)) (map string_bytes words.now) spec.nothing_found }
{
    let mut found = Found {
        next: Next::Anything,
        names: Names::none(),
        texts: Texts {
            top: None,
            budget: None,
            vcd: None,
        },
    };
    for word in words {
        found = with_word(verb, found, word.as_bytes())?;
    }
    Some(found)
}
