// Sets of names.
ghost use Rattle.std.specs.Prelude.{◌≡◌, ◌∷◌, [], OnOk};
ghost use Rattle.sv_modules.specs.Naming.{holds, Holds, Adds};

use name_index::NameMap;
use std::alloc::{AllocError, Global};

/// A set of names: those that have a value in a map.
#[derive(Drop)]
pub struct NameSet {
    names: NameMap,
}

impl NameSet {
    /// Of no names. The key is a digest of the text that they are read in.
    #[tactic(auto, using(crate::proofs::Sets::holds_none))]
    pub fn new(alloc: Global, key: u128) -> NameSet
        ensures { Holds result [] }
    {
        NameSet {
            names: NameMap::new(alloc, key),
        }
    }

    /// Whether a name is in it.
    #[tactic(auto, unfolding(crate::specs::Naming::holds))]
    pub fn has(&self, name: &[u8]) -> bool
        ensures { result ≡ holds self.now name.now }
    {
        self.names.get(name).is_some()
    }

    /// Puts a name in.
    pub fn add(&mut self, name: &[u8]) -> Result<(), AllocError>
        ensures { OnOk result (Adds self.old (name.now ∷ []) self.new) }
    {
        self.names.put(name, 0)
    }
}
