//! The literals and the hints of a step, as they are read from its row. Readers take no memory. A number of the row is a literal,
//! or with the hint before it a hint, so the judge goes over a step with no list of it. Lists are made for copies alone.

ghost use Rattle.std.specs.Prelude.{◌≡◌, ◌∷◌, [], ◌↔◌, IfNone, IfOk, IfSome, IsTrue, drop, map, take};
ghost use Rattle.refute_check.specs.Packed.{literal_of, places_at};

use crate::Reader;
use crate::packing::{literal, place_at};
use cnf::Dim;
use std::alloc::{AllocError, Global};
use std::marker::Model;

/// The literals of a step that are left, of which there are so many at most. Contracts see their list.
#[derive(Drop)]
pub struct Literals<'a> {
    left: usize,
    rest: Reader<'a>,
}

impl<'a> Model for Literals<'a> {
    ghost use Rattle.std.specs.Prelude.{List, map, take};
    ghost use Rattle.cnf.specs.declared.Dim.{Dim};
    ghost use Rattle.refute_check.specs.Packed.{literal_of};

    ghost Value = { List Dim };

    ghost view = { λ l. map literal_of (take l.left l.rest) };
}

/// The hints of a step that are left. Contracts see their list.
#[derive(Drop)]
pub struct Hints<'a> {
    // The newest hint that was read, or 0.
    last: usize,
    rest: Reader<'a>,
}

impl<'a> Model for Hints<'a> {
    ghost use Rattle.std.specs.Prelude.{List, ℕ, map};
    ghost use Rattle.refute_check.specs.Packed.{literal_of, places_at};

    ghost Value = { List ℕ };

    ghost view = { λ h. places_at h.last (map literal_of h.rest) };
}

impl<'a> Literals<'a> {
    /// The first numbers that are left, as literals.
    pub fn of(left: usize, rest: Reader<'a>) -> Literals<'a>
        ensures { result ≡ map literal_of (take left rest.entry) }
    {
        Literals { left, rest }
    }

    /// How many literals are left at most.
    pub fn most(&self) -> usize {
        self.left
    }

    /// The next literal, if one is left.
    #[tactic(auto, using(crate::proofs::Reading::taken_none, crate::proofs::Reading::taken_end, crate::proofs::Reading::taken_more))]
    pub fn next(&mut self) -> Option<Dim>
        ensures none { IfNone result (self.old ≡ []) }
        ensures some { IfSome result (λ d. self.old ≡ d ∷ self.new) }
    {
        if self.left == 0 {
            return None;
        }
        self.left -= 1;
        match self.rest.next() {
            None => None,
            Some(number) => Some(literal(number)),
        }
    }

    /// Whether none is left. It reads the next one.
    pub fn is_done(&mut self) -> bool
        ensures { IsTrue result ↔ (self.old ≡ []) }
    {
        match self.next() {
            None => true,
            Some(_) => false,
        }
    }
}

impl<'a> Hints<'a> {
    /// The numbers that are left, as hints.
    pub fn of(rest: Reader<'a>) -> Hints<'a>
        ensures { result ≡ places_at 0 (map literal_of rest.entry) }
    {
        Hints { last: 0, rest }
    }

    /// The next hint, if one is left.
    #[tactic(auto, using(crate::proofs::Reading::hints_end, crate::proofs::Reading::hints_more))]
    pub fn next(&mut self) -> Option<usize>
        ensures none { IfNone result (self.old ≡ []) }
        ensures some { IfSome result (λ h. self.old ≡ h ∷ self.new) }
    {
        match self.rest.next() {
            None => None,
            Some(number) => {
                self.last = place_at(self.last, literal(number));
                Some(self.last)
            }
        }
    }

    /// Whether none is left. It reads the next one.
    pub fn is_done(&mut self) -> bool
        ensures { IsTrue result ↔ (self.old ≡ []) }
    {
        match self.next() {
            None => true,
            Some(_) => false,
        }
    }
}

/// Reads all literals that are left. There is room for so many from the beginning.
pub fn all_literals(
    alloc: Global,
    room: usize,
    literals: &mut Literals<'_>,
) -> Result<Vec<Dim>, AllocError>
    ensures { IfOk result (λ all. all.items ≡ literals.old) }
{
    let mut all = Vec::with_capacity(alloc, room)?;
    while let Some(d) = literals.next() {
        all.push(d)?;
    }
    Ok(all)
}

/// Reads all hints that are left.
pub fn all_hints(alloc: Global, hints: &mut Hints<'_>) -> Result<Vec<usize>, AllocError>
    ensures { IfOk result (λ all. all.items ≡ hints.old) }
{
    let mut all = Vec::new(alloc);
    while let Some(hint) = hints.next() {
        all.push(hint)?;
    }
    Ok(all)
}
