// The verbs, and what the words behind each may be.
ghost use Rattle.std.specs.Prelude.{◌≡◌, option_map};
ghost use Rattle.svtv_words.specs.Commands.{form_of, is_among};
ghost use Rattle.svtv_words.specs.Reading.{every_verb, verb_among};
ghost use Rattle.svtv_words.specs.Seen.{option_is, verb_is};

use crate::settings::OptionName;

/// What a command does.
#[derive(Clone, Copy)]
pub(crate) enum Verb {
    Prove,
    Sim,
    Dump,
    Selftest,
    Cert,
    Check,
    Induct,
    Wave,
}

impl Verb {
    /// How many positionals stand behind it.
    pub(crate) fn positionals(self) -> usize
        ensures { result ≡ (form_of (verb_is self)).positionals }
    {
        match self {
            Verb::Prove => 3,
            Verb::Sim => 3,
            Verb::Dump => 1,
            Verb::Selftest => 1,
            Verb::Cert => 4,
            Verb::Check => 1,
            Verb::Induct => 4,
            Verb::Wave => 2,
        }
    }

    /// Whether it may be given the option.
    pub(crate) fn takes(self, option: OptionName) -> bool
        ensures { result ≡ is_among (option_is option) (form_of (verb_is self)).options }
    {
        match option {
            OptionName::Top => matches!(
                self,
                Verb::Prove | Verb::Sim | Verb::Dump | Verb::Cert | Verb::Induct
            ),
            OptionName::Budget => matches!(self, Verb::Prove | Verb::Cert | Verb::Induct),
            OptionName::Vcd => matches!(self, Verb::Sim),
        }
    }
}

/// The verb with this word.
pub(crate) fn verb_of(word: &[u8]) -> Option<Verb>
    ensures { option_map verb_is result ≡ verb_among every_verb word.now }
{
    if word == b"prove".as_slice() {
        Some(Verb::Prove)
    } else if word == b"sim".as_slice() {
        Some(Verb::Sim)
    } else if word == b"dump".as_slice() {
        Some(Verb::Dump)
    } else if word == b"selftest".as_slice() {
        Some(Verb::Selftest)
    } else if word == b"cert".as_slice() {
        Some(Verb::Cert)
    } else if word == b"check".as_slice() {
        Some(Verb::Check)
    } else if word == b"induct".as_slice() {
        Some(Verb::Induct)
    } else if word == b"wave".as_slice() {
        Some(Verb::Wave)
    } else {
        None
    }
}
