// The modules of a text.
ghost use Rattle.std.specs.Prelude.{◌≡◌, ◌<◌, [], length, IfOk, IfErr, IfSome, option_map};
ghost use Rattle.sv_hierarchy.specs.Scopes.{Library, module_named};
ghost use Rattle.sv_typing.specs.Judging.{IsCause};
ghost use Rattle.sv_loops.specs.Answers.{Answers};
ghost use Rattle.sv_hierarchy.specs.Libraries.{modules_in, repeated, IsLibraryOf};
ghost use Rattle.sv_modules.specs.Libraries.{modules_once, trees_of};
ghost use Rattle.sv_modules.specs.Listed.{modules_of};
ghost use Rattle.sv_modules.specs.Named.{Lists, PutsModule};

use crate::numbered::Modules;
use name_index::NameIndex;
use std::alloc::Global;
use sv_outside::{TextErr, refusals};
use sv_tree::{Module, Source, SourcePart};
use sv_typing::refusal;

// Puts a module behind the others under its name, or E13 there where one of them has it.
fn put<'a>(
    numbers: &mut NameIndex,
    trees: &mut Vec<&'a Module>,
    tree: &'a Module,
) -> Result<(), TextErr>
    ensures { PutsModule numbers.old (trees_of trees.old.items) tree.now numbers.new (trees_of trees.new.items) result }
{
    let name = tree.name.text.bytes();
    if numbers.number(name).is_some() {
        return Err(TextErr::No(refusal(refusals::TWICE, tree.name.place)));
    }
    numbers.note(name, trees.len())?;
    trees.push(tree)?;
    Ok(())
}

// The modules among the parts of a text under their names, or E13 at the name of the first whose name stands before it.
fn named_in<'a>(alloc: Global, key: u128, parts: &'a [SourcePart]) -> Result<Modules<'a>, TextErr>
    ensures ok { IfOk result (λ m. Lists m.numbers (modules_of m) (modules_in parts.now)) }
    ensures err { IfErr result (λ why. IsCause (repeated [] (modules_in parts.now)) why) }
{
    let mut numbers = NameIndex::new(alloc, key);
    let mut trees = Vec::new(alloc);
    'parts: for part in parts {
        match part {
            SourcePart::Module(tree) => put(&mut numbers, &mut trees, tree)?,
            SourcePart::Typedef(_) => {}
            SourcePart::Param(_) => {}
        }
    }
    Ok(Modules { numbers, trees })
}

impl<'a> Modules<'a> {
    /// The modules of a source, or E13 at the name of the first whose name stands before it (3.13). The key is a digest of its text.
    pub fn new(alloc: Global, key: u128, source: &'a Source) -> Result<Modules<'a>, TextErr>
        ensures { Answers (λ all m. modules_of m ≡ all) (modules_once source.now.parts) result }
    {
        let modules = named_in(alloc, key, source.parts.as_slice())?;
        Ok(modules)
    }

    /// The modules in the order of the text.
    pub fn list(&self) -> &[&'a Module]
        ensures { trees_of result.now ≡ modules_of self.now }
    {
        self.trees.as_slice()
    }

    /// The number of the module of a name, counted from 0 in the order of the text.
    pub fn find(&self, name: &[u8]) -> Option<usize>
        ensures is { (all : Library) → IsLibraryOf (modules_of self.now) all → option_map (λ m. m.number) (module_named name.now all) ≡ result }
        ensures within { IfSome result (λ number. number < length (modules_of self.now)) }
    {
        self.numbers.number(name)
    }
}
