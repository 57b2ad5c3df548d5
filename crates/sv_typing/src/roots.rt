//! Names before their selects: a constant with its bits, or a signal with its layout. Where an expression has to be constant, a
//! name that is none is refused by another number than a name that means nothing.
ghost use Rattle.std.specs.Prelude.{◌≡◌, Bool, List, Option, IfSome, Some, option_map, if◌then◌else◌};
ghost use Rattle.std.specs.Option.{option_copied};
ghost use Rattle.sv_outside.specs.declared.refusal.TextErr.TheVariants.{No};
ghost use Rattle.sv_tree.specs.declared.word.Word.{Word};
ghost use Rattle.sv_typed.specs.Typed.{origin_is};
ghost use Rattle.sv_meaning.specs.Layouts as meant;
ghost use Rattle.sv_meaning.specs.Layouts.{signal_is};
ghost use Rattle.sv_meaning.specs.Meanings as meanings;
ghost use Rattle.sv_names.specs.declared.cursor.Cursor.{Cursor};
ghost use Rattle.sv_names.specs.Cursors.{cursor_is};
ghost use Rattle.sv_typing.specs.Judging.{Judges};
ghost use Rattle.sv_typing.specs.Picks.{rule_faults};
ghost use Rattle.sv_names.specs.Kinds.{what_is, WhatIsSound, layout_is, IsSound};
ghost use Rattle.sv_typing.specs.Positions.{is_constant};
ghost use Rattle.sv_typing.specs.declared.chain.IndexRule.TheVariants.{Read};
ghost use Rattle.sv_typing.specs.declared.position.Position.{Position};
ghost use Rattle.sv_typing.specs.Roots.{JudgesRoot, JudgesChain, RootIs};

use crate::chain::Chain;
use crate::refusals::refusal;
use sv_names::{Cursor, Each, Layout, What};
use sv_outside::{Place, TextErr, refusals};
use sv_tree::Word;
use sv_typed::{Origin, Root, Typed};

// A signal, which is no constant.
#[tactic(auto, using(sv_names::proofs::Sound::sound_is, sv_names::proofs::Sound::sound_some, sv_names::proofs::Sound::sound_most, crate::proofs::Naming::signal_cause))]
fn signal_root<'a>(
    place: Place,
    constant: bool,
    origin: Origin,
    number: usize,
    layout: &'a Layout,
) -> Result<(Cursor<'a>, Root), TextErr>
    requires { IsSound layout.now }
    ensures { (w : Word) → w.place ≡ place → JudgesRoot w (Some (signal_is (origin_is origin) number (layout_is layout.now))) constant result }
{
    if constant {
        Err(TextErr::No(refusal(refusals::CONST_UNKNOWN, place)))
    } else {
        Ok((
            Cursor::Whole(Each::Of(layout)),
            Root::Signal {
                origin,
                number,
                width: layout.width,
            },
        ))
    }
}

// A name that stands for no value.
pub(crate) fn no_root(place: Place, constant: bool) -> TextErr
    ensures { result ≡ No (record { number = if constant then 15 else 12; place = place; count = 0 }) }
{
    TextErr::No(refusal(
        if constant {
            refusals::CONST_UNKNOWN
        } else {
            refusals::UNKNOWN_NAME
        },
        place,
    ))
}

// Where a name leads under which this is declared.
fn root_under<'a>(
    word: &Word,
    what: &'a What,
    constant: bool,
) -> Result<(Cursor<'a>, Root), TextErr>
    requires { WhatIsSound what.now }
    ensures { JudgesRoot word.now (Some (what_is what.now)) constant result }
{
    match what {
        What::Number(known) => Ok((
            Cursor::Elements {
                signed: known.signed,
                count: known.value.width(),
                each: Each::Bit,
            },
            Root::Number(known.value),
        )),
        What::Wire { number, layout } => {
            signal_root(word.place, constant, Origin::Wires, *number, layout)
        }
        What::Chosen { number, layout } => {
            signal_root(word.place, constant, Origin::Choice, *number, layout)
        }
        What::Sampled { number, layout } => {
            signal_root(word.place, constant, Origin::Samples, *number, layout)
        }
        What::Kind(_) => Err(no_root(word.place, constant)),
        What::Genvar => Err(no_root(word.place, constant)),
    }
}

/// Where a name leads, or E12 or E15.
#[tactic(auto, using(crate::proofs::Naming::none_root))]
pub(crate) fn root_of<'a>(
    word: &Word,
    what: Option<&'a What>,
    constant: bool,
) -> Result<(Cursor<'a>, Root), TextErr>
    requires { IfSome what (λ what. WhatIsSound what.now) }
    ensures { JudgesRoot word.now (option_map what_is (option_copied what.entry)) constant result }
{
    match what {
        Some(what) => root_under(word, what, constant),
        None => Err(no_root(word.place, constant)),
    }
}

/// A name with a chain of selects behind it.
pub(crate) fn named_by(root: Root, chain: Result<Chain, TextErr>) -> Result<Typed, TextErr>
    ensures { (w : Word) (what : Option meant.What) (p : Position) (at : Cursor) (all : List meanings.Step) → RootIs what (is_constant p) at root → JudgesChain (rule_faults (Read p)) (cursor_is at) all chain → Judges (meanings.named w what all) (is_constant p) result }
{
    let chain = chain?;
    Ok(Typed::named(root, chain.picks, chain.signed))
}
