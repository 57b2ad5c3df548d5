//! Names in the order in which they are declared. A front of the list is what an earlier place sees, so a name is looked for
//! behind its last place, along links from each entry to the one of the same name before it.
ghost use Rattle.std.specs.Prelude.{◌≡◌, [], ◌∷◌, ◌++◌, length, take, OnOk, OnErr, All, option_map, ◌≤◌, IfSome, MatchOption};
ghost use Rattle.std.specs.Option.{option_copied};
ghost use Rattle.sv_names.specs.Kinds.{entries_are, what_is, names_of, WhatIsSound, EntryIsSound};
ghost use Rattle.sv_names.specs.Linked.{IsLinked};
ghost use Rattle.sv_meaning.specs.Layouts.{last_of};

use crate::What;
use crate::links::Links;
use std::alloc::{AllocError, Global};
use std::marker::Model;
use sv_outside::Name;

/// What is declared, in order. Contracts see the list of names with what they stand for.
pub struct Scope {
    list: Vec<(Name, What)>,
    links: Links,
}

impl Drop for Scope {
    fn drop(self) {
        let Scope { list: _, links: _ } = self;
    }
}

impl Model for Scope {
    ghost use Rattle.std.specs.Prelude.{List, ℕ, All};
    ghost use Rattle.sv_names.specs.declared.layout.What.{What};
    ghost use Rattle.sv_names.specs.Kinds.{EntryIsSound, names_of};
    ghost use Rattle.sv_names.specs.Linked.{IsLinked};
    ghost use Rattle.std.specs.Coded.{codes};
    ghost use Rattle.sv_names.specs.contracts.layout.Form as form;

    ghost Value = { List (List ℕ × What) };

    ghost coded = { Prim.hlevel (codes, form.the_row.coded) };

    ghost view = { λ a. a.list.items };

    ghost invariant = { λ a. record { sound : All EntryIsSound a.list.items; linked : IsLinked a.links (names_of a.list.items) } };
}

impl Scope {
    /// Nothing is declared. The key is a digest of the text that the names are read in.
    pub fn new(alloc: Global, key: u128) -> Scope
        ensures { result ≡ [] }
    {
        Scope {
            list: Vec::new(alloc),
            links: Links::new(alloc, key),
        }
    }

    /// How many names are declared.
    pub fn len(&self) -> usize
        ensures { result ≡ length self.now }
    {
        self.list.len()
    }

    /// Declares a name. Where memory is out, nothing changes.
    pub fn push(&mut self, name: Name, what: What) -> Result<(), AllocError>
        requires { WhatIsSound what }
        ensures ok { OnOk result (self.new ≡ self.old ++ (name, what) ∷ []) }
        ensures err { OnErr result (self.new ≡ self.old) }
    {
        self.list.reserve(1)?;
        self.links.note(name.bytes())?;
        self.list.push_reserved((name, what));
        Ok(())
    }

    /// Takes the last declaration off, if there is one.
    pub fn pop(&mut self) -> Option<(Name, What)>
        ensures { MatchOption result
            ((self.old ≡ []) × (self.new ≡ []))
            (λ last. self.old ≡ self.new ++ last ∷ []) }
    {
        match self.list.pop() {
            Some(last) => {
                self.links.forget(last.0.bytes());
                Some(last)
            }
            None => None,
        }
    }

    /// Takes all declarations off but the first so many.
    pub fn truncate(&mut self, count: usize)
        ensures { self.new ≡ take count self.old }
    {
        'declared: while self.len() > count {
            drop(self.pop());
        }
    }

    /// The last declaration of a name among the first `before`.
    pub fn find(&self, name: &[u8], before: usize) -> Option<&What>
        ensures is { option_map what_is (option_copied result) ≡ last_of name.now (entries_are (take before self.now)) }
        ensures sound { IfSome result (λ what. WhatIsSound what.now) }
    {
        last_of(&self.list, &self.links, name, before.min(self.list.len()))
    }
}

// The last entry of a name among the first `before`.
fn last_of<'a>(
    entries: &'a [(Name, What)],
    links: &Links,
    name: &[u8],
    before: usize,
) -> Option<&'a What>
    requires within { before ≤ length entries.now }
    requires sound { All EntryIsSound entries.now }
    requires linked { IsLinked links.now (names_of entries.now) }
    ensures is { option_map what_is (option_copied result) ≡ last_of name.now (entries_are (take before entries.now)) }
    ensures sound { IfSome result (λ what. WhatIsSound what.now) }
{
    let mut latest = links.latest(name);
    'places: while let Some(place) = latest {
        if place < before {
            return Some(&entries[place].1);
        }
        latest = links.earlier(place);
    }
    None
}
