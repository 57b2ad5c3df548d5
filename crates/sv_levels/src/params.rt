// Parameters: which expression gives a value, of which type, at which names (IEEE 1800-2017, 6.20). An override keeps its
// expression and the place where it is read and is evaluated only where the parameter is declared, since the type stands there.
// Overrides are found by a hash index of their names, so that a list of parameters takes linear time.
ghost use Rattle.std.specs.Prelude.{◌≡◌, [], IfOk, map};
ghost use Rattle.std.specs.Option.{option_copied};
ghost use Rattle.sv_names.specs.Names.{constants_are};
ghost use Rattle.sv_meaning.specs.Params.{name_alone, param_kind, value_as};
ghost use Rattle.sv_meaning.specs.Values.{mean};
ghost use Rattle.sv_types.specs.Values.{JudgesKind, JudgesValue, kind_is};
ghost use Rattle.sv_hierarchy.specs.Scopes as m;
ghost use Rattle.name_index.specs.Indexing.{Indexes};
ghost use Rattle.sv_levels.specs.Levels.{front_is, levels_are};
ghost use Rattle.sv_levels.specs.Overriding.{given_name};
ghost use Rattle.sv_levels.specs.Tasks.{actual_is, given_is};

use crate::held::let_go;
use crate::levels::{Front, Levels};
use crate::overrides::Overrides;
use crate::tasks::{Actual, Given};
use items::Items;
use name_index::NameIndex;
use std::alloc::{AllocError, Global};
use sv_names::{Known, Names};
use sv_outside::TextErr;
use sv_tree::{Expr, ParPort, ParamType, ParamWord, Word};
use sv_types::{ParamKind, param_kind, param_value};

/// The value of a parameter of such a kind that an expression gives, or a name that stands for itself.
pub fn value_of(
    alloc: Global,
    kind: ParamKind,
    value: Actual<'_>,
    names: &Names<'_>,
) -> Result<Known, TextErr>
    ensures { JudgesValue (value_as (kind_is kind) (mean (constants_are names.now) (actual_is value.entry))) result }
{
    match value {
        Actual::Written(expr) => param_value(alloc, kind, expr, names),
        Actual::Named(word) => value_named(alloc, kind, word, names),
    }
}

// The value that a name gives which stands for itself.
fn value_named(
    alloc: Global,
    kind: ParamKind,
    word: &Word,
    names: &Names<'_>,
) -> Result<Known, TextErr>
    ensures { JudgesValue (value_as (kind_is kind) (mean (constants_are names.now) (name_alone word.now))) result }
{
    let text = word.text.copy()?;
    let place = word.place;
    let expr = Expr::Name(Word { text, place }, Items::new(alloc));
    param_value(alloc, kind, &expr, names)
}

/// The value of a parameter of such a kind where it is given this.
pub fn value_at(
    alloc: Global,
    levels: &Levels,
    kind: ParamKind,
    given: Given<'_>,
) -> Result<Known, TextErr>
    ensures { JudgesValue (value_as (kind_is kind) (m.meant (levels_are levels.now) (given_is given.entry))) result }
{
    let names = levels.seen(alloc, given.at)?;
    let known = value_of(alloc, kind, given.value, &names);
    let_go(names);
    known
}

/// What a type makes of a value at a place of these levels.
pub fn kind_at(
    alloc: Global,
    levels: &Levels,
    at: Front,
    form: Option<&ParamType>,
) -> Result<ParamKind, TextErr>
    ensures { JudgesKind (param_kind (m.seen_at (levels_are levels.now) (front_is at)) (option_copied form.entry)) result }
{
    let names = levels.seen(alloc, at)?;
    let kind = param_kind(alloc, form, &names);
    let_go(names);
    kind
}

/// What the type of an entry of a module's list makes of a value. With neither a word nor a type it is that of the entry before.
pub fn entry_kind(
    alloc: Global,
    levels: &Levels,
    at: Front,
    port: &ParPort,
    before: ParamKind,
) -> Result<ParamKind, TextErr>
    ensures { JudgesKind (m.kind_or port.now.word port.now.form (kind_is before) (m.seen_at (levels_are levels.now) (front_is at))) result }
{
    match &port.form {
        Some(form) => kind_at(alloc, levels, at, Some(form)),
        None => match port.word {
            Some(_) => Ok(ParamKind::Kept),
            None => Ok(before),
        },
    }
}

/// What is given to a parameter, or else its own expression. A `localparam` is given nothing.
pub fn given_to<'a>(given: &Overrides<'a>, word: ParamWord, own: Given<'a>) -> Given<'a>
    ensures { given_is result ≡ m.given_or (given_is own.entry).name (m.overriding word (map given_is given.now.list.items)) (given_is own.entry) }
{
    match word {
        ParamWord::Parameter => given.given_or(own),
        ParamWord::Localparam => own,
    }
}

// Where each name stands first among those to which something is given.
fn index_of(alloc: Global, key: u128, list: &[Given<'_>]) -> Result<NameIndex, AllocError>
    ensures { IfOk result (λ index. Indexes index (map given_name list.now)) }
{
    let mut index = NameIndex::new(alloc, key);
    'list: for (number, given) in list.iter().enumerate() {
        index.note(given.name.text.bytes(), number)?;
    }
    Ok(index)
}

/// The word of an entry of a module's list, or else that of the entry before.
pub fn entry_word(port: &ParPort, before: ParamWord) -> ParamWord
    ensures { result ≡ m.word_or port.now.word before }
{
    match port.word {
        Some(word) => word,
        None => before,
    }
}

impl<'a> Overrides<'a> {
    /// Nothing is given. The key is a digest of the text.
    pub fn none(alloc: Global, key: u128) -> Result<Overrides<'a>, AllocError>
        ensures { IfOk result (λ all. all.list.items ≡ []) }
    {
        Overrides::new(alloc, key, Vec::new(alloc))
    }

    /// These.
    pub fn new(alloc: Global, key: u128, list: Vec<Given<'a>>) -> Result<Overrides<'a>, AllocError>
        ensures { IfOk result (λ all. all.list.items ≡ list.entry.items) }
    {
        let index = index_of(alloc, key, &list)?;
        Ok(Overrides { list, index })
    }

    /// The first that is given to the name, or else another.
    pub fn given_or(&self, other: Given<'a>) -> Given<'a>
        ensures { given_is result ≡ m.given_or (given_is other.entry).name (map given_is self.now.list.items) (given_is other.entry) }
    {
        match self.index.number(other.name.text.bytes()) {
            Some(number) => self.list.get(number).copied().unwrap_or(other),
            None => other,
        }
    }
}
