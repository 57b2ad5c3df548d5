// Where a walk through the items of a design stands. What is found is kept in one record, and what belongs to the scope that is
// read (the names that are taken, the count of its generate constructs, its overrides) in another, which is let go with the
// scope. So a block is begun by a new `Open`, and nothing has to be restored behind it.
ghost use Rattle.std.specs.Prelude.{◌≡◌, [], map, IfOk};
ghost use Rattle.sv_meaning.specs.Layouts.{Name as Bytes};
ghost use Rattle.sv_meaning.specs.Names.{has_name};
ghost use Rattle.sv_modules.specs.Naming.{holds};
ghost use Rattle.sv_hierarchy.specs.Scopes.{add_work, declare_at, file_state, next_construct, here};
ghost use Rattle.sv_walk.specs.declared.walker.Walker.{Walker as Walking};
ghost use Rattle.sv_levels.specs.Levels.{front_is};
ghost use Rattle.sv_levels.specs.Tasks.{given_is, task_is};
ghost use Rattle.sv_walk.specs.Walks.{IsBare, IsNothing, Walks, state_of};

use std::alloc::{AllocError, Global};
use sv_levels::{
    Child, Front, Level, Levels, Overrides, Tally, Task, Wires, Work, is_name, outermost,
};
use sv_modules::NameSet;
use sv_names::Scope;
use sv_outside::{Name, Place, TextErr, refusals};
use sv_typing::refusal;

/// All that was found so far.
#[derive(Drop)]
pub struct Walker<'a> {
    pub alloc: Global,
    pub levels: Levels,
    pub tally: Tally,
    pub wires: Wires,
    pub works: Vec<Work<'a>>,
    /// The instances below the one that is read.
    pub children: Vec<Child<'a>>,
}

/// The scope that is read: its number, its names, where its generate constructs stand, and what its parameters are given.
pub struct Open<'a> {
    pub level: usize,
    pub taken: NameSet,
    /// The places of its generate constructs so far. The newest has their count as its number (27.6).
    pub constructs: Vec<Place>,
    pub overridden: Overrides<'a>,
}

impl Drop for Open<'_> {
    fn drop(self) {
        let Open {
            level: _,
            taken: _,
            constructs: _,
            overridden: _,
        } = self;
    }
}

impl<'a> Open<'a> {
    /// A scope with no names, to whose parameters this is given. The key is a digest of the text.
    pub fn new(alloc: Global, key: u128, level: usize, overridden: Overrides<'a>) -> Open<'a>
        ensures level { result.level ≡ level }
        ensures constructs { result.constructs.items ≡ [] }
        ensures overridden { map given_is result.overridden.list.items ≡ map given_is overridden.entry.list.items }
        ensures taken { (name : Bytes) → holds result.taken name ≡ has_name name [] }
    {
        Open {
            level,
            taken: NameSet::new(alloc, key),
            constructs: Vec::new(alloc),
            overridden,
        }
    }

    /// A scope with no names, to whose parameters nothing is given.
    pub(crate) fn bare(alloc: Global, key: u128, level: usize) -> Result<Open<'a>, AllocError>
        ensures { IfOk result (IsBare level) }
    {
        let overridden = Overrides::none(alloc, key)?;
        Ok(Open::new(alloc, key, level, overridden))
    }

    /// Declares a name: E2 at a place where no text spells such a name (5.6), E13 where it is taken (3.13, 23.9).
    pub(crate) fn declare_at(&mut self, place: Place, name: &[u8]) -> Result<(), TextErr>
        ensures { (w : Walking) → Walks (declare_at place name.now) w self.old w self.new result }
    {
        if !is_name(name) {
            return Err(TextErr::No(refusal(refusals::BAD_TOKEN, place)));
        }
        if self.taken.has(name) {
            return Err(TextErr::No(refusal(refusals::TWICE, place)));
        }
        self.taken.add(name)?;
        Ok(())
    }

    /// One generate construct more, at a place.
    pub(crate) fn next_construct(&mut self, place: Place) -> Result<(), TextErr>
        ensures { (w : Walking) → Walks next_construct w self.old w self.new result }
    {
        self.constructs.push(place)?;
        Ok(())
    }
}

impl<'a> Walker<'a> {
    /// Nothing is found. The key is a digest of the text.
    pub fn new(alloc: Global, key: u128) -> Walker<'a>
        ensures { IsNothing result }
    {
        Walker {
            alloc,
            levels: Levels::new(alloc, key),
            tally: Tally::new(),
            wires: Wires::new(alloc),
            works: Vec::new(alloc),
            children: Vec::new(alloc),
        }
    }

    /// The place that is read.
    pub fn here(&self, current: &Open<'a>) -> Front
        ensures { front_is result ≡ here (state_of self.now current.now) }
    {
        self.levels.front(current.level)
    }

    /// One task more.
    pub fn add_work(&mut self, current: &Open<'a>, task: Task<'a>) -> Result<(), TextErr>
        ensures { Walks (add_work (task_is task.entry)) self.old current.now self.new current.now result }
    {
        let at = self.here(current);
        self.works.push(Work { at, task })?;
        Ok(())
    }

    /// The file level is begun.
    pub fn begin_file(&mut self) -> Result<Open<'a>, AllocError>
        requires { IsNothing self.old }
        ensures { IfOk result (λ current. state_of self.new current ≡ file_state) }
    {
        let key = self.levels.key();
        self.levels.push(Level {
            path: Name::new(self.alloc, b"")?,
            module: 0,
            parent: 0,
            around: outermost(self.alloc)?,
            nets: Scope::new(self.alloc, key),
            consts: Scope::new(self.alloc, key),
        })?;
        Open::bare(self.alloc, key, 0)
    }
}
