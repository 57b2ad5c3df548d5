// The places of names in a list.
ghost use Rattle.std.specs.Prelude.{◌≡◌, ◌<◌, ◌∷◌, [], ◌++◌, List, length, get_or, OnOk, OnErr};
ghost use Rattle.sv_names.specs.Linked.{IsLinked, last_among};
ghost use Rattle.sv_meaning.specs.Layouts.{Name as Bytes};

use name_index::NameMap;
use std::alloc::{AllocError, Global};

/// The places of names in a list that grows and shrinks at its end: the last place of each name, and for each entry the
/// place of the entry of the same name before it.
#[derive(Drop)]
pub(crate) struct Links {
    latest: NameMap,
    earlier: Vec<Option<usize>>,
}

impl Links {
    /// Of no names, in a map with this key.
    pub(crate) fn new(alloc: Global, key: u128) -> Links
        ensures { IsLinked result [] }
    {
        Links {
            latest: NameMap::new(alloc, key),
            earlier: Vec::new(alloc),
        }
    }

    /// Goes on with one more name, at the end of the list. Where memory is out, the list is as before.
    pub(crate) fn note(&mut self, name: &[u8]) -> Result<(), AllocError>
        ensures ok { OnOk result ((names : List Bytes) → IsLinked self.old names → IsLinked self.new (names ++ name.now ∷ [])) }
        ensures err { OnErr result ((names : List Bytes) → IsLinked self.old names → IsLinked self.new names) }
    {
        self.earlier.reserve(1)?;
        let before = self.latest.get(name);
        self.latest.put(name, self.earlier.len())?;
        self.earlier.push_reserved(before);
        Ok(())
    }

    /// Goes back to the list without its last name.
    pub(crate) fn forget(&mut self, name: &[u8])
        ensures { (names : List Bytes) → IsLinked self.old (names ++ name.now ∷ []) → IsLinked self.new names }
    {
        match self.earlier.pop().flatten() {
            Some(place) => self.latest.set(name, place),
            None => self.latest.remove(name),
        }
    }

    /// The last place of a name.
    pub(crate) fn latest(&self, name: &[u8]) -> Option<usize>
        ensures { (names : List Bytes) → IsLinked self.now names → result ≡ last_among names name.now (length names) }
    {
        self.latest.get(name)
    }

    /// The last place before this one that has the same name.
    pub(crate) fn earlier(&self, place: usize) -> Option<usize>
        ensures { (names : List Bytes) → IsLinked self.now names → place < length names → result ≡ last_among names (get_or names place []) place }
    {
        self.earlier.get(place).copied().flatten()
    }
}
