// The file level: types and parameters, and how many of these each module sees (IEEE 1800-2017, 3.12, 3.13 and 23.9).
ghost use Rattle.std.specs.Prelude.{◌≡◌, [], ◌∷◌, ◌++◌, map};
ghost use Rattle.sv_hierarchy.specs.Scopes as m;
ghost use Rattle.sv_loops.specs.Answers.{Answers};
ghost use Rattle.sv_scope.specs.Filing.{Lists, one_module, one_part};
ghost use Rattle.sv_walk.specs.Walks.{Finds, state_of};

use items::Items;
use std::alloc::Global;
use sv_modules::NameSet;
use sv_outside::{TextErr, refusals};
use sv_tree::{Module, SourcePart};
use sv_typing::refusal;
use sv_walk::{Open, Walker};

/// The modules above a place of the file level: their names, and for each how many names of the file level are declared above it.
#[derive(Drop)]
pub(crate) struct Listed {
    pub names: NameSet,
    pub above: Items<usize>,
}

impl Listed {
    /// No modules. The key is a digest of the text.
    fn new(alloc: Global, key: u128) -> Listed
        ensures { Lists result [] }
    {
        Listed {
            names: NameSet::new(alloc, key),
            above: Items::new(alloc),
        }
    }

    /// A module that sees so many names, or E13 where its name stands above it.
    fn add(&mut self, module: &Module, seen: usize) -> Result<(), TextErr>
        ensures { (all : m.Library) → Lists self.old all → Answers (λ k u. Lists self.new (all ++ k ∷ [])) (one_module module.now seen all) result }
    {
        if self.names.has(module.name.text.bytes()) {
            return Err(TextErr::No(refusal(refusals::TWICE, module.name.place)));
        }
        self.names.add(module.name.text.bytes())?;
        self.above.push(seen)?;
        Ok(())
    }
}

// A part of a text more.
fn add_part<'a>(
    walker: &mut Walker<'a>,
    current: &mut Open<'a>,
    listed: &mut Listed,
    part: &'a SourcePart,
) -> Result<(), TextErr>
    ensures { (all : m.Library) → Lists listed.old all → Answers (λ found u. Lists listed.new found.0 × (found.1 ≡ state_of walker.new current.new)) (one_part part.now all (state_of walker.old current.old)) result }
{
    match part {
        SourcePart::Module(module) => {
            let seen = walker.here(current).consts;
            listed.add(module, seen)
        }
        SourcePart::Typedef(tree) => walker.add_typedef(current, tree),
        SourcePart::Param(tree) => walker.add_params(current, tree),
    }
}

/// The parts of a text in order: for each module, how many names of the file level are declared above it. E13 at the second
/// module of a name.
pub(crate) fn file_level<'a>(
    walker: &mut Walker<'a>,
    current: &mut Open<'a>,
    parts: &'a [SourcePart],
) -> Result<Items<usize>, TextErr>
    ensures { Finds (λ all above. map (λ (k : m.Known). k.above) all ≡ above) (m.library parts.now []) walker.old current.old walker.new current.new result }
{
    let mut listed = Listed::new(walker.alloc, walker.levels.key());
    'parts: for part in parts {
        add_part(walker, current, &mut listed, part)?;
    }
    Ok(listed.above)
}
