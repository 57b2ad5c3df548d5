// The modules of a text, with their numbers.
ghost use Rattle.sv_modules.specs.Libraries.{trees_of};
ghost use Rattle.sv_modules.specs.Named.{AreNamed};

use name_index::NameIndex;
use sv_tree::Module;

/// The modules of a text in its order, and their numbers by name, no two of one name.
#[derive(Drop)]
pub struct Modules<'a> {
    pub(crate) numbers: NameIndex,
    pub(crate) trees: Vec<&'a Module>,
    ghost keyed: { AreNamed numbers (trees_of trees.items) },
}
