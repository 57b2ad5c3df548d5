// Values under names. They stand in an ordered table of the kit, whose hash begins behind a key: a digest of the texts that the names
// were read in. So names that make look-ups slow can not be searched for, and two runs do not differ.
ghost use Rattle.std.specs.Prelude.{◌≡◌, List, ℕ, Some, None, is_some, true, OnOk, OnErr};
ghost use Rattle.name_index.specs.Under.{Keeps, Puts, under};

use crate::digest::Keyed;
use indexmap::IndexMap;
use std::alloc::{AllocError, Global};

/// Values under names.
#[derive(Drop)]
pub struct NameMap {
    alloc: Global,
    values: IndexMap<Vec<u8>, usize, Keyed>,
}

impl NameMap {
    /// No name has a value.
    pub fn new(alloc: Global, key: u128) -> NameMap
        ensures { (name : List ℕ) → under result name ≡ None }
    {
        NameMap {
            alloc,
            values: IndexMap::with_hasher(alloc, Keyed::new(key)),
        }
    }

    /// The value under a name.
    pub fn get(&self, name: &[u8]) -> Option<usize>
        ensures { result ≡ under self.now name.now }
    {
        self.values.get(name).copied()
    }

    /// Puts a value under a name, whatever it had before. Where memory is out, each name has what it had.
    pub fn put(&mut self, name: &[u8], value: usize) -> Result<(), AllocError>
        ensures ok { OnOk result (Puts self.old name.now (Some value) self.new) }
        ensures err { OnErr result (Keeps self.old self.new) }
    {
        let key = name.to_vec(self.alloc)?;
        let _ = self.values.insert(key, value)?;
        Ok(())
    }

    /// Puts another value under a name that has one.
    pub fn set(&mut self, name: &[u8], value: usize)
        ensures { is_some (under self.old name.now) ≡ true → Puts self.old name.now (Some value) self.new }
    {
        if let Some(found) = self.values.get_mut(name) {
            *found = value;
        }
    }

    /// A name has no value from here on.
    pub fn remove(&mut self, name: &[u8])
        ensures { Puts self.old name.now None self.new }
    {
        let _ = self.values.swap_remove(name);
    }
}
