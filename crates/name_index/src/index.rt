// Numbers by name.
ghost use Rattle.std.specs.Prelude.{◌≡◌, ◌∷◌, [], ◌++◌, ℕ, List, length, OnOk};
ghost use Rattle.name_index.specs.Indexing.{number_under, Indexes};

use crate::map::NameMap;
use std::alloc::{AllocError, Global};

/// The places of names in a list, of which the first counts.
#[derive(Drop)]
pub struct NameIndex {
    numbers: NameMap,
}

impl NameIndex {
    /// Of no names.
    #[tactic(auto, using(crate::proofs::Indexes::indexes_none))]
    pub fn new(alloc: Global, key: u128) -> NameIndex
        ensures { Indexes result [] }
    {
        NameIndex {
            numbers: NameMap::new(alloc, key),
        }
    }

    /// The number under a name.
    #[tactic(auto, unfolding(crate::specs::Indexing::number_under))]
    pub fn number(&self, name: &[u8]) -> Option<usize>
        ensures { result ≡ number_under self.now name.now }
    {
        self.numbers.get(name)
    }

    /// Goes on with one more name, at the end of the list.
    pub fn note(&mut self, name: &[u8], number: usize) -> Result<(), AllocError>
        ensures { OnOk result ((names : List (List ℕ)) → Indexes self.old names → number ≡ length names → Indexes self.new (names ++ name.now ∷ [])) }
    {
        if self.number(name).is_some() {
            return Ok(());
        }
        self.numbers.put(name, number)
    }
}
