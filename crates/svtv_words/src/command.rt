// The whole command.
ghost use Rattle.std.specs.Prelude.{◌≡◌, map, string_bytes, option_map, IfSome, IfNone};
ghost use Rattle.svtv_words.specs.Commands as m;
ghost use Rattle.svtv_words.specs.Commands.{IsCommand, IsInBounds, command_is};
ghost use Rattle.svtv_words.specs.Reading as spec;
ghost use Rattle.svtv_words.specs.Seen.{found_is, names_are, texts_are, verb_is};

use crate::positionals::Names;
use crate::scan::{Found, Next, Texts, found_in};
use crate::settings::count_of;
use crate::verbs::{Verb, verb_of};

/// A command: its files and names, what its options are given, and the count of a self test.
#[derive(Clone, Copy)]
pub enum Command<'a> {
    Prove {
        design: &'a [u8],
        table: &'a [u8],
        goals: &'a [u8],
        top: Option<&'a [u8]>,
        budget: Option<u64>,
    },
    Sim {
        design: &'a [u8],
        table: &'a [u8],
        values: &'a [u8],
        top: Option<&'a [u8]>,
        /// Whether `--vcd` is given.
        vcd: bool,
    },
    Dump {
        design: &'a [u8],
        top: Option<&'a [u8]>,
    },
    Selftest {
        count: u64,
    },
    Cert {
        design: &'a [u8],
        table: &'a [u8],
        goals: &'a [u8],
        goal: &'a [u8],
        top: Option<&'a [u8]>,
        budget: Option<u64>,
    },
    Check {
        file: &'a [u8],
    },
    Induct {
        design: &'a [u8],
        reset: &'a [u8],
        period: &'a [u8],
        invariants: &'a [u8],
        top: Option<&'a [u8]>,
        budget: Option<u64>,
    },
    Wave {
        file: &'a [u8],
        path: &'a [u8],
    },
}

// The command of a verb with as many names as it has, if the name of a self test is a count.
fn command_with<'a>(verb: Verb, names: Names<'a>, texts: Texts<'a>) -> Option<Command<'a>>
    ensures { option_map command_is result ≡ spec.command_with (verb_is verb) (names_are names.entry) (texts_are texts.entry) }
{
    let design = names.at(0);
    let top = texts.top;
    let budget = texts.number();
    match verb {
        Verb::Prove => Some(Command::Prove {
            design,
            table: names.at(1),
            goals: names.at(2),
            top,
            budget,
        }),
        Verb::Sim => Some(Command::Sim {
            design,
            table: names.at(1),
            values: names.at(2),
            top,
            vcd: texts.vcd.is_some(),
        }),
        Verb::Dump => Some(Command::Dump { design, top }),
        Verb::Selftest => Some(Command::Selftest {
            count: count_of(names.at(0))?,
        }),
        Verb::Cert => Some(Command::Cert {
            design,
            table: names.at(1),
            goals: names.at(2),
            goal: names.at(3),
            top,
            budget,
        }),
        Verb::Check => Some(Command::Check { file: names.at(0) }),
        Verb::Induct => Some(Command::Induct {
            design,
            reset: names.at(1),
            period: names.at(2),
            invariants: names.at(3),
            top,
            budget,
        }),
        Verb::Wave => Some(Command::Wave {
            file: names.at(0),
            path: names.at(1),
        }),
    }
}

// The command of what was found: no option waits for its text, and there are as many names as the verb has.
fn command_found(verb: Verb, found: Found<'_>) -> Option<Command<'_>>
    ensures { option_map command_is result ≡ spec.command_found (verb_is verb) (found_is found.entry) }
{
    if let Next::TextOf(_) = found.next {
        return None;
    }
    if found.names.count() != verb.positionals() {
        return None;
    }
    command_with(verb, found.names, found.texts)
}

fn command_in(words: &[String]) -> Option<Command<'_>>
    ensures { option_map command_is result ≡ spec.command_in (map string_bytes words.now) }
{
    let [verb, rest @ ..] = words else {
        return None;
    };
    let verb = verb_of(verb.as_bytes())?;
    let found = found_in(verb, rest)?;
    command_found(verb, found)
}

/// The command that words are, if they are one.
#[tactic(auto, using(crate::proofs::Commands::some_is, crate::proofs::Commands::none_is, crate::proofs::Commands::in_bounds_is))]
pub fn command_of(words: &[String]) -> Option<Command<'_>>
    ensures some { IfSome result (λ c. IsCommand (map string_bytes words.now) (command_is c)) }
    ensures none { IfNone result ((c : m.Command) → IsCommand (map string_bytes words.now) c → ⊥) }

    // A budget is from 1 to 10,000,000, and a count from 1 to 30.
    ensures in_bounds { IfSome result (λ c. IsInBounds (command_is c)) }

    // They are one command at most.
    ensures one { (c d : m.Command) → IsCommand (map string_bytes words.now) c → IsCommand (map string_bytes words.now) d → c ≡ d }
{
    command_in(words)
}
