// The modules of a text by number, and what an instance gives to one (IEEE 1800-2017, 23.3). Of the file level a module sees
// what is declared above it, so a count of names is kept for each module beside the list. Parameters and ports are judged here,
// before an instance is opened, so that E17 and E18 come before anything below it.
ghost use Rattle.std.specs.Prelude.{◌≡◌, option_map};
ghost use Rattle.sv_meaning.specs.Layouts.{Scope as Seen};
ghost use Rattle.sv_meaning.specs.Params.{connections};
ghost use Rattle.sv_loops.specs.Answers.{Answers};
ghost use Rattle.sv_hierarchy.specs.Scopes as m;
ghost use Rattle.sv_levels.specs.Library.{IsLibrary, IsListed, IsWiring, KnowsNumber, known_is, wiring};
ghost use Rattle.sv_levels.specs.Tasks.{child_is, lent};

use crate::held::let_go;
use crate::ports::{port_names, ports_of};
use crate::tasks::Child;
use items::Items;
use std::alloc::Global;
use sv_modules::{Connection, Modules, connections, open_params};
use sv_outside::{TextErr, refusals};
use sv_tree::{Module, Pins};
use sv_typing::refusal;

/// The modules of a text, and for each how many names of the file level are declared above it.
pub struct Library<'a> {
    pub modules: Modules<'a>,
    pub above: Items<usize>,
}

impl Drop for Library<'_> {
    fn drop(self) {
        let Library {
            modules: _,
            above: _,
        } = self;
    }
}

/// A module with its number, and how many names of the file level are declared above it.
#[derive(Clone, Copy)]
pub struct Known<'a> {
    pub tree: &'a Module,
    pub number: usize,
    pub above: usize,
}

/// What an instance gives to parameters, and what its ports are connected to.
pub struct Wiring<'a> {
    pub params: Vec<Connection<'a>>,
    pub pins: Vec<Connection<'a>>,
}

impl Drop for Wiring<'_> {
    fn drop(self) {
        let Wiring { params: _, pins: _ } = self;
    }
}

// What is given to the parameters of a module.
fn params_given<'a>(
    alloc: Global,
    key: u128,
    tree: &'a Module,
    params: Option<&'a Pins>,
) -> Result<Vec<Connection<'a>>, TextErr>
    ensures { (at : Seen) → Answers IsListed (connections at (m.open_params tree.now) (lent params.entry)) result }
{
    let names = open_params(alloc, tree)?;
    let found = connections(alloc, key, &names, params);
    let_go(names);
    found
}

// What the ports of a module are connected to.
fn ports_joined<'a>(
    alloc: Global,
    key: u128,
    tree: &'a Module,
    pins: Option<&'a Pins>,
) -> Result<Vec<Connection<'a>>, TextErr>
    ensures { (at : Seen) → Answers IsListed (connections at (m.port_texts (m.ports_of tree.now)) (lent pins.entry)) result }
{
    let names = port_names(alloc, ports_of(tree))?;
    let found = connections(alloc, key, &names, pins);
    let_go(names);
    found
}

/// What an instance of a module gives to it; or E17 or E18. The key is a digest of the text.
pub fn wiring_of<'a>(
    alloc: Global,
    key: u128,
    tree: &'a Module,
    child: &Child<'a>,
) -> Result<Wiring<'a>, TextErr>
    ensures { (at : Seen) → Answers IsWiring (wiring at tree.now (child_is child.now)) result }
{
    let params = params_given(alloc, key, tree, child.params)?;
    let pins = ports_joined(alloc, key, tree, child.pins)?;
    Ok(Wiring { params, pins })
}

impl<'a> Library<'a> {
    /// The module of a number, if there are so many.
    pub fn known(&self, number: usize) -> Option<Known<'a>>
        ensures { (all : m.Library) → IsLibrary self.now all → KnowsNumber all number result }
    {
        let tree = self.modules.list().get(number)?;
        let above = self.above.get(number)?;
        Some(Known {
            tree: *tree,
            number,
            above: *above,
        })
    }

    // The module of a name, if there is one.
    fn named(&self, name: &[u8]) -> Option<Known<'a>>
        ensures { (all : m.Library) → IsLibrary self.now all → option_map known_is result ≡ m.module_named name.now all }
    {
        let number = self.modules.find(name)?;
        self.known(number)
    }

    /// The module of an instance, or E11 at its name.
    #[tactic(auto, using(crate::proofs::ByNumber::module_none))]
    pub fn module_of(&self, child: &Child<'a>) -> Result<Known<'a>, TextErr>
        ensures { (all : m.Library) → IsLibrary self.now all → Answers (λ k known. k ≡ known_is known) (m.module_of all (child_is child.now)) result }
    {
        match self.named(child.of_module.text.bytes()) {
            Some(known) => Ok(known),
            None => Err(TextErr::No(refusal(refusals::UNKNOWN_MODULE, child.of_module.place))),
        }
    }
}
