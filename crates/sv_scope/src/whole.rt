// The scopes of a source: the file level, then the top, and all that is below it (IEEE 1800-2017, 23). The walk is given a
// depth of 32 levels, so that it ends. What it leaves is handed out as plain lists, and what a place sees is made from its
// counts when it is asked for, so that no list of names is kept for each place.
ghost use Rattle.std.specs.Prelude.{◌≡◌, [], length, map, slice_get, All, IfOk, option_map};
ghost use Rattle.std.specs.Option.{option_copied};
ghost use Rattle.sv_loops.specs.Answers.{Answers};
ghost use Rattle.sv_names.specs.Names.{names_are, loops_of};
ghost use Rattle.sv_hierarchy.specs.Scopes as m;
ghost use Rattle.sv_levels.specs.Levels.{front_is, instance_is};
ghost use Rattle.sv_scope.specs.Scoped.{FromSome, FromTop, IsScoped, IsWalked, Reads, ReadsInto, WalksTop, instances_of, levels_of, turns_of, wires_of, works_of};
ghost use Rattle.sv_levels.specs.Tasks.{work_is};
ghost use Rattle.sv_levels.specs.Wires.{HasBits};
ghost use Rattle.sv_walk.specs.Walks.{IsNothing, state_of};

use crate::file::file_level;
use items::both;
use std::alloc::{AllocError, Global};
use sv_levels::{Front, Instance, Known, Levels, Library, Wires, Work};
use sv_modules::{Modules, top_of};
use sv_names::Names;
use sv_outside::{FILE_START, Name, Signal, TextErr, refusals};
use sv_tree::{Module, Source};
use sv_typing::refusal;
use sv_walk::{Open, Walker};

/// How many levels instances nest below the top.
const DEEPEST: usize = 32;

/// The instances and generate blocks of a design, its wires by number, and what contributes to them or joins them.
#[derive(Drop)]
pub struct DesignScopes<'a> {
    levels: Levels,
    wires: Wires,
    works: Vec<Work<'a>>,
    turns: u64,
}

// The items of the top, and all that is below it.
fn walk_top<'a>(
    walker: &mut Walker<'a>,
    own: &mut Open<'a>,
    library: &Library<'a>,
    tree: &'a Module,
    at: Front,
) -> Result<(), TextErr>
    ensures { WalksTop library.now tree.now at walker.old own.old walker.new result }
{
    walker.instance(own, true, tree, at, &[])?;
    walker.below(own, library, DEEPEST)
}

// The top with all that is below it.
fn from_top<'a>(
    walker: &mut Walker<'a>,
    file: &Open<'a>,
    library: &Library<'a>,
    top: Known<'a>,
) -> Result<(), TextErr>
    ensures { FromTop library.now top.entry walker.old file.now walker.new result }
{
    let path = Name::new(walker.alloc, b"")?;
    let at = walker.here(file);
    let given = Vec::new(walker.alloc);
    let mut own = walker.begin_instance(top, path, 0, given)?;
    walk_top(walker, &mut own, library, top.tree, at)
}

// The modules of a source, and how many names of the file level each sees.
fn read_library<'a>(
    walker: &mut Walker<'a>,
    file: &mut Open<'a>,
    source: &'a Source,
) -> Result<Library<'a>, TextErr>
    requires { state_of walker.old file.old ≡ m.file_state }
    ensures { ReadsInto source.now walker.new file.new result }
{
    let above = file_level(walker, file, source.parts.as_slice())?;
    let modules = Modules::new(walker.alloc, walker.levels.key(), source);
    let (above, modules) = both(above, modules)?;
    Ok(Library { modules, above })
}

// The file level of a source, and its modules.
fn filed<'a>(
    walker: &mut Walker<'a>,
    source: &'a Source,
) -> Result<(Open<'a>, Library<'a>), TextErr>
    requires { IsNothing walker.old }
    ensures { Reads source.now walker.new result }
{
    let mut file = walker.begin_file()?;
    let library = read_library(walker, &mut file, source)?;
    Ok((file, library))
}

// The top among the modules of a source, with all that is below it. Each number of a top is that of a module.
fn topped<'a>(
    walker: &mut Walker<'a>,
    file: &Open<'a>,
    library: &Library<'a>,
    top: Option<&Name>,
) -> Result<(), TextErr>
    ensures { FromSome library.now (option_copied top.entry) walker.old file.now walker.new result }
{
    let number = top_of(walker.alloc, walker.levels.key(), &library.modules, top)?;
    match library.known(number) {
        Some(known) => from_top(walker, file, library, known),
        None => Err(TextErr::No(refusal(refusals::UNKNOWN_MODULE, FILE_START))),
    }
}

// Finds all that a source has.
fn walk<'a>(walker: &mut Walker<'a>, source: &'a Source, top: Option<&Name>) -> Result<(), TextErr>
    requires { IsNothing walker.old }
    ensures { Answers (λ st (u : Unit {0}). IsWalked st walker.new) (m.scopes source.now (option_copied top.entry)) result }
{
    let (file, library) = filed(walker, source)?;
    topped(walker, &file, &library, top)
}

/// The scopes of a source with a top: the module of a given name or, where none is given, the one module that no module
/// instantiates. Each instance comes before its generate blocks, these in text order, and before its child instances, each whole;
/// wires are numbered so: the ports of an instance, its declarations in text order with generate blocks in their place, and then
/// its children. Refused are E10 to E18 and E20 to E23, and literals (E2).
///
/// The time is linear in the design that is laid out, but for the depth of nested blocks. The key is a digest of the text.
pub fn scopes<'a>(
    alloc: Global,
    key: u128,
    source: &'a Source,
    top: Option<&Name>,
) -> Result<DesignScopes<'a>, TextErr>
    ensures { Answers (λ st scopes. IsScoped st scopes) (m.scopes source.now (option_copied top.entry)) result }
{
    let mut walker = Walker::new(alloc, key);
    let done = walk(&mut walker, source, top);
    let (walker, _) = both(walker, done)?;
    let Walker {
        levels,
        tally,
        wires,
        works,
        ..
    } = walker;
    Ok(DesignScopes {
        levels,
        wires,
        works,
        turns: tally.turns,
    })
}

impl<'a> DesignScopes<'a> {
    /// The wires by number.
    pub fn wires(&self) -> &[Signal]
        ensures wires { result.now ≡ wires_of self.now }
        ensures widths { All HasBits (wires_of self.now) }
    {
        self.wires.as_slice()
    }

    /// What contributes or joins, in order.
    pub fn works(&self) -> &[Work<'a>]
        ensures { map work_is result.now ≡ works_of self.now }
    {
        &self.works
    }

    /// The turns of all generate loops.
    pub fn turns(&self) -> u64
        ensures { result ≡ turns_of self.now }
    {
        self.turns
    }

    /// The names that the task at a place sees: all nets and variables of the scopes around it, and the constants and types that are
    /// declared above it (23.9).
    pub fn names(&self, alloc: Global, at: Front) -> Result<Names<'_>, AllocError>
        ensures names { IfOk result (λ names. names_are names ≡ m.live_at (levels_of self.now) (front_is at)) }
        ensures loops { IfOk result (λ names. loops_of names ≡ []) }
    {
        self.levels.live(alloc, at)
    }

    /// How many instances and generate blocks there are.
    pub fn len(&self) -> usize
        ensures { result ≡ length (instances_of self.now) }
    {
        self.levels.len().saturating_sub(1)
    }

    /// The instance or generate block of a number: its path, its module and the one around it, each by number.
    pub fn instance(&self, number: usize) -> Option<Instance<'_>>
        ensures { option_map (instance_is (levels_of self.now)) result ≡ slice_get (instances_of self.now) number }
    {
        self.levels.instance(number)
    }
}
