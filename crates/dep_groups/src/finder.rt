//! Finds groups of places by one walk along their dependences (H. Gabow, Path-based depth-first search for strong and biconnected
//! components, 2000), in time linear in places and dependences.
//!
//! The places that were met and are in no group yet wait in the order of meeting, each of them reaching all behind it. They are cut
//! into knots, whose places reach each other. A place is met in a knot of its own; where a dependence of the last knot leads back to
//! a place that waits, all knots from there on are one. Where nothing of the last knot is left to look at, nothing leads back from
//! it, and it is a group. No call is deeper for a longer chain.

ghost use Rattle.std.specs.Prelude.{◌≡◌, ◌≢◌, ℕ, ◌<◌, ◌≤◌, ◌-◌, [], length, map, All, IfOk, OnOk, IfSome, IfNone, slice_index};
ghost use Rattle.dep_groups.specs.Groups.{IsGrouping};
ghost use Rattle.dep_groups.specs.declared.finder.Stage.TheVariants.{Unseen};
ghost use Rattle.dep_groups.specs.Searches.{state_of, stage_at, meeting, closing, grouping_from, HasFirst, Begins, Unites, Follows, FollowsAny, Advances, IsSearch};

use items::Items;
use std::alloc::{AllocError, Global};

/// Where a place stands in the search.
#[derive(Clone, Copy)]
enum Stage {
    Unseen,
    /// It waits at this position.
    Waits(usize),
    /// It is in the group of this number.
    Grouped(usize),
}

/// A search for groups.
struct Finder {
    // for each place where it stands
    stages: Vec<Stage>,
    // for each place how many of its dependences were not looked at yet; the last is looked at first
    left: Vec<usize>,
    // the places that wait, in the order in which they were met
    waiting: Vec<usize>,
    // the positions at which the knots of these start
    starts: Vec<usize>,
    // the positions of those that may have something left to look at
    pending: Vec<usize>,
    groups: Vec<Items<usize>>,
}

impl Drop for Finder {
    fn drop(self) {
        let Finder {
            stages: _,
            left: _,
            waiting: _,
            starts: _,
            pending: _,
            groups: _,
        } = self;
    }
}

// How many dependences each place has.
fn lengths(alloc: Global, all: &[Items<usize>]) -> Result<Vec<usize>, AllocError>
    ensures { IfOk result (λ v. v.items ≡ map length all.now) }
{
    let mut lengths = Vec::with_capacity(alloc, all.len())?;
    'lists: for list in all {
        lengths.push(list.len())?;
    }
    Ok(lengths)
}

// The members of a group take its number.
fn put_in_group(stages: &mut Vec<Stage>, members: &[usize], group: usize)
    requires { All (λ m. m < length stages.old.items) members.now }
    ensures { stages.new.items ≡ grouping_from group members.now stages.old.items }
{
    'members: for member in members {
        stages[*member] = Stage::Grouped(group);
    }
}

// Drops the knots that start behind a position.
fn unite(starts: &mut Vec<usize>, at: usize)
    requires { HasFirst starts.old.items }
    ensures { Unites at starts.old.items starts.new.items }
{
    'starts: while at < starts[starts.len() - 1] {
        let _ = starts.pop();
    }
}

impl Finder {
    // Before anything is met.
    fn new(alloc: Global, all: &[Items<usize>]) -> Result<Finder, AllocError>
        ensures search { IfOk result (λ f. IsSearch all.now (state_of f)) }
        ensures none { IfOk result (λ f. f.waiting.items ≡ []) }
    {
        Ok(Finder {
            stages: vec![in alloc; Stage::Unseen; all.len()]?,
            left: lengths(alloc, all)?,
            waiting: Vec::new(alloc),
            starts: Vec::new(alloc),
            pending: Vec::new(alloc),
            groups: Vec::new(alloc),
        })
    }

    // Meets a place.
    fn meet(&mut self, place: usize) -> Result<(), AllocError>
        requires { place < length self.old.stages.items }
        ensures { OnOk result (state_of self.new ≡ meeting (state_of self.old) place) }
    {
        let at = self.waiting.len();
        self.stages[place] = Stage::Waits(at);
        self.waiting.push(place)?;
        self.starts.push(at)?;
        self.pending.push(at)?;
        Ok(())
    }

    // Goes along a dependence of the last knot to a place that is there.
    fn follow(&mut self, place: usize) -> Result<(), AllocError>
        requires starts { HasFirst self.old.starts.items }
        requires within { place < length self.old.stages.items }
        ensures { OnOk result (Follows (state_of self.old) place (stage_at (state_of self.old) place) (state_of self.new)) }
    {
        match self.stages[place] {
            Stage::Unseen => self.meet(place),
            Stage::Waits(at) => {
                unite(&mut self.starts, at);
                Ok(())
            }
            Stage::Grouped(_) => Ok(()),
        }
    }

    // The same of any number: to one that is no place nothing leads.
    fn follow_any(&mut self, place: usize) -> Result<(), AllocError>
        requires starts { HasFirst self.old.starts.items }
        ensures { OnOk result (FollowsAny (state_of self.old) place (state_of self.new)) }
    {
        if place < self.stages.len() {
            self.follow(place)
        } else {
            Ok(())
        }
    }

    // Looks at a dependence of a place of the last knot that has one left.
    fn look(&mut self, all: &[Items<usize>], at: usize) -> Result<(), AllocError>
        requires search { IsSearch all.now (state_of self.old) }
        requires at { at < length self.old.waiting.items }
        requires last { slice_index self.old.starts.items (length self.old.starts.items - 1) ≤ at }
        requires some { 0 < slice_index self.old.left.items (slice_index self.old.waiting.items at) }
        ensures { OnOk result (Advances all.now (state_of self.old) (state_of self.new)) }
    {
        let place = self.waiting[at];
        let left = self.left[place] - 1;
        let next = all[place].as_slice()[left];
        self.follow_any(next)?;
        self.left[place] = left;
        Ok(())
    }

    // The last knot becomes a group.
    fn close(&mut self, alloc: Global, start: usize) -> Result<(), AllocError>
        requires start { start ≤ length self.old.waiting.items }
        requires stages { All (λ m. m < length self.old.stages.items) self.old.waiting.items }
        ensures { OnOk result (state_of self.new ≡ closing (state_of self.old) start) }
    {
        let members = self.waiting[start..].to_vec(alloc)?;
        put_in_group(&mut self.stages, &members, self.groups.len());
        self.waiting.truncate(start);
        let _ = self.starts.pop();
        self.groups.push(Items::from_vec(members))?;
        Ok(())
    }

    // The last position that may have something left to look at, where it is in the knot that starts here.
    fn pending_from(&self, start: usize) -> Option<usize>
        requires { (a b : ℕ) → a < b → b < length self.now.pending.items → slice_index self.now.pending.items a < slice_index self.now.pending.items b }
        ensures some { IfSome result (λ at. (0 < length self.now.pending.items) × (slice_index self.now.pending.items (length self.now.pending.items - 1) ≡ at) × (start ≤ at)) }
        ensures none { IfNone result ((a : ℕ) → a < length self.now.pending.items → slice_index self.now.pending.items a < start) }
    {
        let count = self.pending.len();
        if count == 0 {
            return None;
        }
        let at = self.pending[count - 1];
        if at < start { None } else { Some(at) }
    }

    // Looks at a dependence of the last pending place, or notes that none is left.
    fn work_on(&mut self, all: &[Items<usize>], at: usize) -> Result<(), AllocError>
        requires search { IsSearch all.now (state_of self.old) }
        requires some { 0 < length self.old.pending.items }
        requires at { slice_index self.old.pending.items (length self.old.pending.items - 1) ≡ at }
        requires last { slice_index self.old.starts.items (length self.old.starts.items - 1) ≤ at }
        ensures { OnOk result (Advances all.now (state_of self.old) (state_of self.new)) }
    {
        let place = self.waiting[at];
        if 0 < self.left[place] {
            self.look(all, at)
        } else {
            let _ = self.pending.pop();
            Ok(())
        }
    }

    // One step of the search, while a place waits.
    fn advance(&mut self, alloc: Global, all: &[Items<usize>]) -> Result<(), AllocError>
        requires search { IsSearch all.now (state_of self.old) }
        requires some { 0 < length self.old.waiting.items }
        ensures { OnOk result (Advances all.now (state_of self.old) (state_of self.new)) }
    {
        let start = self.starts[self.starts.len() - 1];
        match self.pending_from(start) {
            Some(at) => self.work_on(all, at),
            None => self.close(alloc, start),
        }
    }

    // Meets a place from which a search begins, if it was not met before.
    fn begin(&mut self, place: usize) -> Result<(), AllocError>
        requires { place < length self.old.stages.items }
        ensures { OnOk result (Begins (state_of self.old) place (stage_at (state_of self.old) place) (state_of self.new)) }
    {
        match self.stages[place] {
            Stage::Unseen => self.meet(place),
            Stage::Waits(_) => Ok(()),
            Stage::Grouped(_) => Ok(()),
        }
    }

    // Meets a place and all that it reaches, and puts them into groups.
    fn search_from(
        &mut self,
        alloc: Global,
        all: &[Items<usize>],
        place: usize,
    ) -> Result<(), AllocError>
        requires search { IsSearch all.now (state_of self.old) }
        requires none { self.old.waiting.items ≡ [] }
        requires within { place < length all.now }
        ensures search { OnOk result (IsSearch all.now (state_of self.new)) }
        ensures none { OnOk result (self.new.waiting.items ≡ []) }
        ensures seen { OnOk result (stage_at (state_of self.new) place ≢ Unseen) }
        ensures kept { OnOk result ((k : ℕ) → stage_at (state_of self.old) k ≢ Unseen → stage_at (state_of self.new) k ≢ Unseen) }
    {
        self.begin(place)?;
        'steps: while 0 < self.waiting.len() {
            self.advance(alloc, all)?;
        }
        Ok(())
    }

    fn into_groups(self) -> Vec<Items<usize>>
        ensures { result ≡ self.groups }
    {
        let Finder {
            stages: _,
            left: _,
            waiting: _,
            starts: _,
            pending: _,
            groups,
        } = self;
        groups
    }
}

/// Groups of places that reach each other, each behind those on which it depends, in time linear in places and dependences. What
/// stands in a list and is no place is passed over.
pub fn grouping(alloc: Global, all: &[Items<usize>]) -> Result<Vec<Items<usize>>, AllocError>
    ensures { IfOk result (λ groups. IsGrouping all.now groups.items) }
{
    let mut finder = Finder::new(alloc, all)?;
    'places: for place in 0..all.len() {
        finder.search_from(alloc, all, place)?;
    }
    Ok(finder.into_groups())
}
