// The scopes of a design, each with its names. Names are only added at the ends of two lists, nets and constants, so a place in
// a scope is two counts, and what it saw can be read from the levels at any time later. A constant expression sees what is
// declared above it, and all else all nets of the scopes around it: both are made from the same fronts.
ghost use Rattle.std.specs.Prelude.{◌≡◌, [], ◌∷◌, ◌++◌, length, map, slice_get, take, IfOk, OnOk, option_map};
ghost use Rattle.sv_names.specs.Kinds.{WhatIsSound, entry_is, entries_are};
ghost use Rattle.sv_names.specs.Names.{above_of, frames_of, loops_of, names_are};
ghost use Rattle.sv_meaning.specs.Layouts.{scope_of};
ghost use Rattle.sv_hierarchy.specs.Scopes.{behind, fronts_at, instances_from, level_at, live_at, prefix_of, seen_at, with_const, with_level, with_net};
ghost use Rattle.sv_levels.specs.Levels.{instance_is};
ghost use Rattle.sv_levels.specs.Levels.{block_in, front_is, front_of, fronts_are, level_is, levels_are, live_scope, seen_frames};

use crate::fronts::{Fronts, collect, outermost, within};
use crate::held::let_go;
use items::Items;
use std::alloc::{AllocError, Global};
use sv_names::{Names, Scope, Shared, What};
use sv_outside::Name;

/// A place in a scope: so many of its nets and variables, and so many of its constants and types, are declared above.
#[derive(Clone, Copy)]
pub struct Front {
    /// The number of the scope: 0 is the file level.
    pub level: usize,
    pub nets: usize,
    pub consts: usize,
}

/// A scope with names of its own: the file level, an instance or a generate block.
pub struct Level {
    pub path: Name,
    /// Its module, by the number in the text.
    pub module: usize,
    /// The scope that it stands in.
    pub parent: usize,
    /// The places in the scopes whose names it sees.
    pub around: Shared<Fronts>,
    /// Its nets and variables, behind the variable of the loop that it is a turn of.
    pub nets: Scope,
    /// Its constants, types and genvars.
    pub consts: Scope,
}

impl Drop for Level {
    fn drop(self) {
        let Level {
            path: _,
            module: _,
            parent: _,
            around: _,
            nets: _,
            consts: _,
        } = self;
    }
}

/// An instance or a generate block.
#[derive(Clone, Copy)]
pub struct Instance<'a> {
    pub path: &'a Name,
    /// Its module, by the number in the text.
    pub module: usize,
    /// The instance or block that it stands in, by number. The top stands in none.
    pub parent: Option<usize>,
    /// The place behind all of its declarations.
    pub at: Front,
}

/// All scopes so far, by number, and the key of their maps of names: a digest of the text.
pub struct Levels {
    list: Vec<Level>,
    key: u128,
}

impl Drop for Levels {
    fn drop(self) {
        let Levels { list: _, key: _ } = self;
    }
}

impl Levels {
    pub fn new(alloc: Global, key: u128) -> Levels
        ensures { levels_are result ≡ [] }
    {
        Levels {
            list: Vec::new(alloc),
            key,
        }
    }

    /// The key of maps of names.
    pub fn key(&self) -> u128 {
        self.key
    }

    pub fn len(&self) -> usize
        ensures { result ≡ length (levels_are self.now) }
    {
        self.list.len()
    }

    /// One scope more.
    pub fn push(&mut self, level: Level) -> Result<(), AllocError>
        ensures { OnOk result (levels_are self.new ≡ levels_are self.old ++ level_is level ∷ []) }
    {
        self.list.push(level)?;
        Ok(())
    }

    /// The number of the module of a scope.
    pub fn module(&self, level: usize) -> usize
        ensures { result ≡ (level_at (levels_are self.now) level).module_number }
    {
        match self.list.get(level) {
            Some(level) => level.module,
            None => 0,
        }
    }

    /// The place behind all that is declared in a scope so far.
    pub fn front(&self, level: usize) -> Front
        ensures { front_is result ≡ front_of (levels_are self.now) level }
    {
        match self.list.get(level) {
            Some(found) => Front {
                level,
                nets: found.nets.len(),
                consts: found.consts.len(),
            },
            None => Front {
                level,
                nets: 0,
                consts: 0,
            },
        }
    }

    /// The instance or generate block of a number; the scope behind the file level is the first.
    pub fn instance(&self, number: usize) -> Option<Instance<'_>>
        ensures { option_map (instance_is (levels_are self.now)) result ≡ slice_get (instances_from 1 (levels_are self.now) (behind (levels_are self.now))) number }
    {
        let count = self.len();
        if number >= count {
            return None;
        }
        let level = number + 1;
        let found = self.list.get(level)?;
        Some(Instance {
            path: &found.path,
            module: found.module,
            parent: found.parent.checked_sub(1),
            at: Front {
                level,
                nets: found.nets.len(),
                consts: found.consts.len(),
            },
        })
    }

    /// The path of a name that is declared in a scope.
    pub fn path(&self, alloc: Global, level: usize, name: &[u8]) -> Result<Name, AllocError>
        ensures { IfOk result (λ path. path ≡ prefix_of (level_at (levels_are self.now) level).path ++ name.now) }
    {
        match self.list.get(level) {
            Some(level) => joined(alloc, level.path.bytes(), name),
            None => Name::new(alloc, name),
        }
    }

    /// One constant, type or genvar more.
    pub fn add_const(&mut self, level: usize, name: Name, what: What) -> Result<(), AllocError>
        requires { WhatIsSound what }
        ensures { OnOk result (levels_are self.new ≡ with_level level (with_const (entry_is (name, what))) (levels_are self.old)) }
    {
        match self.list.get_mut(level) {
            Some(level) => level.consts.push(name, what),
            None => {
                let_go(what);
                Ok(())
            }
        }
    }

    /// One net or variable more.
    pub fn add_net(&mut self, level: usize, name: Name, what: What) -> Result<(), AllocError>
        requires { WhatIsSound what }
        ensures { OnOk result (levels_are self.new ≡ with_level level (with_net (entry_is (name, what))) (levels_are self.old)) }
    {
        match self.list.get_mut(level) {
            Some(level) => level.nets.push(name, what),
            None => {
                let_go(what);
                Ok(())
            }
        }
    }

    /// A block of a name in a path, behind all that is declared in a scope so far, in which these names stand first.
    pub fn block(
        &self,
        alloc: Global,
        level: usize,
        part: &[u8],
        nets: Scope,
    ) -> Result<Level, AllocError>
        ensures { IfOk result (λ block. level_is block ≡ block_in (levels_are self.now) level part.now (entries_are nets)) }
    {
        let path = self.path(alloc, level, part)?;
        let around = self.inside(alloc, level)?;
        let number = self.module(level);
        Ok(Level {
            path,
            module: number,
            parent: level,
            around,
            nets,
            consts: Scope::new(alloc, self.key),
        })
    }

    // The places in the scopes around a block that is begun in a scope: the last is behind all that is declared there so far.
    fn inside(&self, alloc: Global, level: usize) -> Result<Shared<Fronts>, AllocError>
        ensures { IfOk result (λ fronts. fronts_are fronts ≡ fronts_at (levels_are self.now) (front_of (levels_are self.now) level)) }
    {
        let front = self.front(level);
        match self.list.get(level) {
            Some(found) => within(alloc, front, &found.around),
            None => {
                let none = outermost(alloc)?;
                within(alloc, front, &none)
            }
        }
    }

    /// The places in the scopes whose names are seen at a place, that one the last.
    pub fn fronts(&self, alloc: Global, at: Front) -> Result<Items<Front>, AllocError>
        ensures { IfOk result (λ all. map front_is all ≡ fronts_at (levels_are self.now) (front_is at)) }
    {
        let mut all = self.around(alloc, at.level)?;
        all.push(at)?;
        Ok(all)
    }

    // The places in the scopes around one.
    fn around(&self, alloc: Global, level: usize) -> Result<Items<Front>, AllocError>
        ensures { IfOk result (λ all. map front_is all ≡ (level_at (levels_are self.now) level).around) }
    {
        let mut all = Items::new(alloc);
        if let Some(level) = self.list.get(level) {
            collect(level.around.get(), &mut all)?;
        }
        Ok(all)
    }

    /// What a constant expression at a place sees: what is declared above it (6.20.2, 23.9).
    pub fn seen(&self, alloc: Global, at: Front) -> Result<Names<'_>, AllocError>
        ensures names { IfOk result (λ names. names_are names ≡ seen_at (levels_are self.now) (front_is at)) }
        ensures loops { IfOk result (λ names. loops_of names ≡ []) }
    {
        let fronts = self.fronts(alloc, at)?;
        seen_along(alloc, self.key, &self.list, fronts.as_slice())
    }

    /// What all else at a place sees: all nets and variables of the scopes around it, and the constants and types above it. Its
    /// constant expressions see what is declared above it.
    pub fn live(&self, alloc: Global, at: Front) -> Result<Names<'_>, AllocError>
        ensures names { IfOk result (λ names. names_are names ≡ live_at (levels_are self.now) (front_is at)) }
        ensures loops { IfOk result (λ names. loops_of names ≡ []) }
    {
        let fronts = self.fronts(alloc, at)?;
        live_along(alloc, self.key, &self.list, fronts.as_slice())
    }
}

// A path, a dot and a name; the name alone where the path is empty.
fn joined(alloc: Global, path: &[u8], name: &[u8]) -> Result<Name, AllocError>
    ensures { IfOk result (λ all. all ≡ prefix_of path.now ++ name.now) }
{
    if path.is_empty() {
        return Name::new(alloc, name);
    }
    let mut bytes = path.to_vec(alloc)?;
    bytes.push(b'.')?;
    bytes.extend_from_slice(name)?;
    Name::new(alloc, &bytes)
}

// How many nets and variables a scope has.
fn nets_of(levels: &[Level], level: usize) -> usize
    ensures { result ≡ length (level_at (map level_is levels.now) level).nets }
{
    match levels.get(level) {
        Some(level) => level.nets.len(),
        None => 0,
    }
}

// The names of a front of a scope, of which so many nets are seen; those of the front are declared above.
fn enter<'a>(
    names: &mut Names<'a>,
    levels: &'a [Level],
    front: Front,
    nets: usize,
) -> Result<(), AllocError>
    ensures frames { OnOk result (entries_are (frames_of names.new) ≡ entries_are (frames_of names.old) ++ (take nets (level_at (map level_is levels.now) front.level).nets ++ take front.consts (level_at (map level_is levels.now) front.level).consts)) }
    ensures above { OnOk result (entries_are (above_of names.new) ≡ entries_are (above_of names.old) ++ (take front.nets (level_at (map level_is levels.now) front.level).nets ++ take front.consts (level_at (map level_is levels.now) front.level).consts)) }
    ensures loops { OnOk result (loops_of names.new ≡ loops_of names.old) }
{
    match levels.get(front.level) {
        Some(level) => {
            names.push_scope(&level.nets, nets, front.nets)?;
            names.push_scope(&level.consts, front.consts, front.consts)
        }
        None => Ok(()),
    }
}

// The names of fronts of scopes, with the nets above each.
fn seen_along<'a>(
    alloc: Global,
    key: u128,
    levels: &'a [Level],
    fronts: &[Front],
) -> Result<Names<'a>, AllocError>
    ensures names { IfOk result (λ names. names_are names ≡ scope_of (seen_frames (map level_is levels.now) fronts.now)) }
    ensures loops { IfOk result (λ names. loops_of names ≡ []) }
{
    let mut names = Names::new(alloc, key);
    'fronts: for front in fronts {
        enter(&mut names, levels, *front, front.nets)?;
    }
    Ok(names)
}

// The names of fronts of scopes, with all nets of each, of which a constant expression sees those above.
fn live_along<'a>(
    alloc: Global,
    key: u128,
    levels: &'a [Level],
    fronts: &[Front],
) -> Result<Names<'a>, AllocError>
    ensures names { IfOk result (λ names. names_are names ≡ live_scope (map level_is levels.now) fronts.now) }
    ensures loops { IfOk result (λ names. loops_of names ≡ []) }
{
    let mut names = Names::new(alloc, key);
    'fronts: for front in fronts {
        enter(&mut names, levels, *front, nets_of(levels, front.level))?;
    }
    Ok(names)
}
