// Connections of ports, and overrides of parameters: the same rules serve both (IEEE 1800-2017, 23.3.2 and 23.10.2). By name
// each has to be known and to come once, by order there may be no more than there are names. Names are looked for in hash sets,
// so the work is linear; and each connection has a name, by order that of the declaration, so that callers need not ask how it
// was written.
ghost use Rattle.std.specs.Prelude.{◌≡◌, [], map, IfOk};
ghost use Rattle.std.specs.Option.{option_copied};
ghost use Rattle.sv_meaning.specs.Layouts.{Scope};
ghost use Rattle.sv_meaning.specs.Params.{connections, by_name, in_order, pinned};
ghost use Rattle.sv_loops.specs.Answers.{Answers};
ghost use Rattle.sv_tree.specs.declared.word.Word.{Word as Spelt};
ghost use Rattle.sv_modules.specs.Naming.{Holds, texts_of};
ghost use Rattle.sv_modules.specs.Connections.{joined_is, connection_is};
ghost use Rattle.sv_modules.specs.Putting.{PutsPin};

use crate::name_set::NameSet;
use std::alloc::{AllocError, Global};
use sv_outside::{TextErr, refusals};
use sv_tree::{Expr, NamedPin, Pin, Pins, Word};
use sv_typing::{refusal, start};

/// What stands behind a name.
#[derive(Clone, Copy)]
pub enum Joined<'a> {
    /// The name itself, without selects.
    Same,
    /// Nothing: it is left open.
    Open,
    /// An expression.
    Given(&'a Expr),
}

/// A connection of a port, or an override of a parameter. The name is that which the instance writes or, where it gives
/// expressions in order, that of the declaration.
#[derive(Clone, Copy)]
pub struct Connection<'a> {
    pub name: &'a Word,
    pub joined: Joined<'a>,
}

fn joined_of(pin: &Pin) -> Joined<'_>
    ensures { (w : Spelt) → joined_is w result ≡ pinned w pin.now }
{
    match pin {
        Pin::Same => Joined::Same,
        Pin::Open => Joined::Open,
        Pin::Given(expr) => Joined::Given(expr),
    }
}

// The set of some words' texts.
fn set_of(alloc: Global, key: u128, words: &[&Word]) -> Result<NameSet, AllocError>
    ensures { IfOk result (λ names. Holds names (texts_of words.now)) }
{
    let mut names = NameSet::new(alloc, key);
    'words: for word in words {
        names.add(word.text.bytes())?;
    }
    Ok(names)
}

// A connection more: E17 where its name is none of those that are known, E18 where it is used before.
fn put_pin<'a>(
    known: &NameSet,
    used: &mut NameSet,
    list: &mut Vec<Connection<'a>>,
    pin: &'a NamedPin,
) -> Result<(), TextErr>
    ensures { PutsPin known.now used.old list.old.items pin.now used.new list.new.items result }
{
    if !known.has(pin.name.text.bytes()) {
        return Err(TextErr::No(refusal(refusals::PORT_UNKNOWN, pin.name.place)));
    }
    if used.has(pin.name.text.bytes()) {
        return Err(TextErr::No(refusal(refusals::PORT_TWICE, pin.name.place)));
    }
    used.add(pin.name.text.bytes())?;
    list.push(Connection {
        name: &pin.name,
        joined: joined_of(&pin.pin),
    })?;
    Ok(())
}

// By name: each is one of the names, and comes once.
fn by_name<'a>(
    alloc: Global,
    key: u128,
    names: &[&'a Word],
    pins: &'a [NamedPin],
) -> Result<Vec<Connection<'a>>, TextErr>
    ensures { Answers (λ all list. map connection_is list.items ≡ all) (by_name (texts_of names.now) [] pins.now) result }
{
    let known = set_of(alloc, key, names)?;
    let mut used = NameSet::new(alloc, key);
    let mut list = Vec::new(alloc);
    'pins: for pin in pins {
        put_pin(&known, &mut used, &mut list, pin)?;
    }
    Ok(list)
}

// In order: no more than there are names.
fn in_order<'a>(
    alloc: Global,
    names: &[&'a Word],
    exprs: &'a [Expr],
) -> Result<Vec<Connection<'a>>, TextErr>
    ensures { (at : Scope) → Answers (λ all list. map connection_is list.items ≡ all) (in_order at (texts_of names.now) exprs.now) result }
{
    let mut list = Vec::new(alloc);
    'exprs: for (at, expr) in exprs.iter().enumerate() {
        if at >= names.len() {
            return Err(TextErr::No(refusal(refusals::PORT_UNKNOWN, start(expr))));
        }
        list.push(Connection {
            name: names[at],
            joined: Joined::Given(expr),
        })?;
    }
    Ok(list)
}

/// What an instance gives to names, of ports or of parameters: by name, where each is one of them (E17) and comes once (E18),
/// or in order, where there are no more expressions than names (E17 where the first of the others begins) (23.3.2).
/// The key is a digest of the text.
pub fn connections<'a>(
    alloc: Global,
    key: u128,
    names: &[&'a Word],
    pins: Option<&'a Pins>,
) -> Result<Vec<Connection<'a>>, TextErr>
    ensures { (at : Scope) → Answers (λ all list. map connection_is list.items ≡ all) (connections at (texts_of names.now) (option_copied pins.entry)) result }
{
    match pins {
        None => Ok(Vec::new(alloc)),
        Some(pins) => match pins {
            Pins::Named(list) => by_name(alloc, key, names, list.as_slice()),
            Pins::Ordered(list) => in_order(alloc, names, list.as_slice()),
        },
    }
}
