// Instances are opened (IEEE 1800-2017, 23.3). The items of an instance are read to their end first and its children noted, and
// then each child is opened whole, so that its wires and tasks come before those of all that is below it. The recursion goes
// down by a count of levels, which ends it also where modules instantiate themselves.
ghost use Rattle.std.specs.Prelude.{◌≡◌, map, IfOk};
ghost use Rattle.sv_loops.specs.Answers.{Answers};
ghost use Rattle.sv_modules.specs.Connections.{connection_is};
ghost use Rattle.sv_hierarchy.specs.Scopes as m;
ghost use Rattle.sv_levels.specs.Levels.{front_is};
ghost use Rattle.sv_levels.specs.Library.{IsLibrary, child_alone, known_is};
ghost use Rattle.sv_walk.specs.declared.walker.Open.{Open as Opened};
ghost use Rattle.sv_levels.specs.Tasks.{child_is, given_is};
ghost use Rattle.sv_walk.specs.Walks.{Walks, state_of};

use crate::held::after;
use crate::walker::{Open, Walker};
use std::alloc::AllocError;
use std::mem;
use sv_levels::{
    Child, Front, Given, Known, Level, Library, Overrides, add_port_works, given_by, let_go,
    outermost, ports_of, wiring_of, within,
};
use sv_modules::Connection;
use sv_names::Scope;
use sv_outside::{Name, TextErr, refusals};
use sv_tree::Module;
use sv_typing::refusal;

impl<'a> Walker<'a> {
    /// An instance of a module is begun.
    pub fn begin_instance(
        &mut self,
        known: Known<'a>,
        path: Name,
        parent: usize,
        given: Vec<Given<'a>>,
    ) -> Result<Open<'a>, AllocError>
        ensures { (current : Opened) → IfOk result (λ own. state_of self.new own ≡ m.begun (known_is known.entry) path parent (map given_is given.entry.items) (state_of self.old current)) }
    {
        let front = Front {
            level: 0,
            nets: 0,
            consts: known.above,
        };
        let none = outermost(self.alloc)?;
        let around = within(self.alloc, front, &none)?;
        let (level, key) = (self.levels.len(), self.levels.key());
        self.levels.push(Level {
            path,
            module: known.number,
            parent,
            around,
            nets: Scope::new(self.alloc, key),
            consts: Scope::new(self.alloc, key),
        })?;
        self.children = Vec::new(self.alloc);
        let overridden = Overrides::new(self.alloc, key, given)?;
        Ok(Open::new(self.alloc, key, level, overridden))
    }

    /// What an instance has without its children, with its ports connected so.
    pub fn instance(
        &mut self,
        current: &mut Open<'a>,
        top: bool,
        tree: &'a Module,
        at: Front,
        pins: &[Connection<'a>],
    ) -> Result<(), TextErr>
        ensures { Walks (m.instance_walk top tree.now (front_is at) (map connection_is pins.now)) self.old current.old self.new current.new result }
    {
        self.header_params(current, tree.params.as_slice())?;
        let ports = self.header_ports(current, top, ports_of(tree))?;
        let joined = add_port_works(
            self.alloc,
            self.levels.key(),
            at,
            pins,
            &ports,
            &mut self.works,
        );
        let_go(ports);
        joined?;
        self.items(current, tree.items.as_slice())
    }

    /// The children that were found, each whole, at most so many levels deep.
    #[cycle(child)]
    pub fn below(
        &mut self,
        current: &Open<'a>,
        library: &Library<'a>,
        deep: usize,
    ) -> Result<(), TextErr>
        ensures { (all : m.Library) → IsLibrary library.now all → Walks (m.below (m.child deep all)) self.old current.now self.new current.now result }
    {
        let children = mem::replace(&mut self.children, Vec::new(self.alloc));
        'children: for child in &children {
            self.child(current, library, deep, child)?;
        }
        Ok(())
    }

    // An instance below another with all that is below it, or E21 where it lies too deep, E11, E17, E18, E22.
    #[cycle(child)]
    fn child(
        &mut self,
        current: &Open<'a>,
        library: &Library<'a>,
        deep: usize,
        child: &Child<'a>,
    ) -> Result<(), TextErr>
        ensures { (all : m.Library) → IsLibrary library.now all → Walks (m.child deep all (child_is child.now)) self.old current.now self.new current.now result }
    {
        if deep == 0 {
            return Err(TextErr::No(refusal(refusals::INSTANCE_DEEP, child.name.place)));
        }
        let known = library.module_of(child)?;
        let own = self.open_child(known, child)?;
        let done = self.below(&own, library, deep - 1);
        let_go(own);
        done
    }

    // An instance more without its children, connected as its pins say; or E22.
    fn open_child(&mut self, known: Known<'a>, child: &Child<'a>) -> Result<Open<'a>, TextErr>
        ensures { (current : Opened) → Answers (λ st own. st ≡ state_of self.new own) (child_alone (known_is known.entry) (child_is child.now) (state_of self.old current)) result }
    {
        let wiring = wiring_of(self.alloc, self.levels.key(), known.tree, child)?;
        self.tally = self.tally.with_bits(child.name.place, 1)?;
        let path = child.path.copy()?;
        let given = given_by(self.alloc, child.at, &wiring.params)?;
        let mut own = self.begin_instance(known, path, child.at.level, given)?;
        let done = self.instance(&mut own, false, known.tree, child.at, &wiring.pins);
        let_go(wiring);
        after(own, done)
    }
}
