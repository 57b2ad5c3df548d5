// What an instance gives to parameters.
ghost use Rattle.std.specs.Prelude.{map};
ghost use Rattle.name_index.specs.Indexing.{Indexes};
ghost use Rattle.sv_levels.specs.Overriding.{given_name};

use crate::tasks::Given;
use name_index::NameIndex;

/// What an instance gives to parameters, of which the first for a name counts.
#[derive(Drop)]
pub struct Overrides<'a> {
    pub list: Vec<Given<'a>>,
    pub index: NameIndex,
    ghost indexed: { Indexes index (map given_name list.items) },
}
