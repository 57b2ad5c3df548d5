// A doubly linked list of distinct numbers in one vector: the links of a number stand at its own place, so that a number is
// found, moved and taken out in constant time and without memory. One more place closes the ring, from the end to the first
// number and from the last to the end, so that no call has a case for an empty list. A number that is not in the list is linked
// to itself, which tells that it is not.
ghost use Rattle.std.specs.Prelude.{◌≡◌, ◌≢◌, ◌↔◌, ◌+◌, ◌<◌, ◌≤◌, [], ◌∷◌, ◌++◌, length, All, AllPairs, Contains, IsTrue, IsNone, IfOk, IfSome, IfNone};
ghost use Rattle.idx_list.specs.Order.{without, IsFirst, IsLast, Follow};
ghost use Rattle.idx_list.specs.Ring.{end_of, next_of, prev_of, linked, items_of, IsRing};

use std::alloc::{AllocError, Global};
use std::marker::Model;

#[derive(Clone, Copy)]
struct Link {
    prev: usize,
    next: usize,
}

/// Distinct numbers below a bound, the room, in an order. Only `new` takes memory, and every other
/// call takes constant time.
#[derive(Drop)]
pub struct IdxList {
    // One link for each number, and one more at the end: the ring goes from it to the first number
    // and back to it from the last. A number that is not in the list is linked to itself.
    links: Vec<Link>,
}

impl Model for IdxList {
    ghost use Rattle.idx_list.specs.Order.{Order};

    ghost Value = { Order };

    ghost use Rattle.idx_list.specs.Ring.{end_of, items_of, IsRing};

    ghost view = { λ list. record { room = end_of list.links.items; items = items_of list.links.items } };

    ghost invariant = { λ list. IsRing list.links.items (items_of list.links.items) };
}

impl IdxList {
    /// An empty list with room for the numbers below `room`.
    pub fn new(alloc: Global, room: usize) -> Result<IdxList, AllocError>
        ensures { IfOk result (λ list. list ≡ record { room = room; items = [] }) }
    {
        // No vector has room for 2 ^ 63 links, so that the sum is exact wherever the room is had.
        let mut links = Vec::with_capacity(alloc, room.saturating_add(1))?;
        for number in 0..room + 1 {
            links.push(Link {
                prev: number,
                next: number,
            })?;
        }
        Ok(IdxList { links })
    }

    /// How many numbers there is room for.
    pub fn room(&self) -> usize
        ensures { result ≡ self.now.room }
    {
        self.links.len() - 1
    }

    /// Whether the number is in the list.
    pub fn has(&self, x: usize) -> bool
        ensures { IsTrue result ↔ Contains self.now.items x }
    {
        is_linked(&self.links, x)
    }

    /// Puts a number that is not in the list at the end.
    pub fn push_back(&mut self, x: usize)
        requires below { x < self.old.room }
        requires absent { ¬ Contains self.old.items x }
        ensures { self.new ≡ record { room = self.old.room; items = self.old.items ++ x ∷ [] } }
    {
        put_back(&mut self.links, x);
    }

    /// Puts a number of the list before all others.
    pub fn move_front(&mut self, x: usize)
        requires { Contains self.old.items x }
        ensures { self.new ≡ record { room = self.old.room; items = x ∷ without x self.old.items } }
    {
        bring_front(&mut self.links, x);
    }

    /// Takes a number out of the list.
    pub fn remove(&mut self, x: usize)
        requires { Contains self.old.items x }
        ensures { self.new ≡ record { room = self.old.room; items = without x self.old.items } }
    {
        take_out(&mut self.links, x);
    }

    /// Takes the first number out of the list.
    pub fn pop_front(&mut self) -> Option<usize>
        ensures none { IsNone result ↔ (self.old.items ≡ []) }
        ensures first { IfSome result (λ first. self.old ≡ record { room = self.new.room; items = first ∷ self.new.items }) }
        ensures unchanged { IfNone result (self.new ≡ self.old) }
    {
        take_first(&mut self.links)
    }

    /// The number before one of the list.
    pub fn prev(&self, x: usize) -> Option<usize>
        requires { Contains self.now.items x }
        ensures first { IsNone result ↔ IsFirst self.now.items x }
        ensures before { IfSome result (λ before. Follow self.now.items before x) }
    {
        number_before(&self.links, x)
    }

    /// The number after one of the list.
    pub fn next(&self, x: usize) -> Option<usize>
        requires { Contains self.now.items x }
        ensures last { IsNone result ↔ IsLast self.now.items x }
        ensures after { IfSome result (λ after. Follow self.now.items x after) }
    {
        number_after(&self.links, x)
    }

    /// The numbers of a list are distinct, and there is room for them.
    pub fn items_are_distinct(&self)
        ensures distinct { AllPairs ◌≢◌ self.now.items }
        ensures below { All (λ x. x < self.now.room) self.now.items }
    {
        // For the proof: recalls what the type promises of it.
        let _ = &self.links;
    }
}

#[tactic(auto, unfolding(crate::specs::Ring::next_of, crate::specs::Ring::prev_of))]
fn is_linked(links: &[Link], x: usize) -> bool
    requires { IsRing links.now (items_of links.now) }
    ensures { IsTrue result ↔ Contains (items_of links.now) x }
{
    x < links.len() - 1 && links[x].next != x
}

// The number before another, unless it is the end.
#[tactic(auto, unfolding(crate::specs::Ring::next_of, crate::specs::Ring::prev_of))]
fn number_before(links: &[Link], x: usize) -> Option<usize>
    requires { x < length links.now }
    ensures none { IsNone result ↔ (prev_of links.now x ≡ end_of links.now) }
    ensures some { IfSome result (λ before. prev_of links.now x ≡ before) }
{
    let before = links[x].prev;
    (before != links.len() - 1).then_some(before)
}

// The number after another, unless it is the end.
#[tactic(auto, unfolding(crate::specs::Ring::next_of, crate::specs::Ring::prev_of))]
fn number_after(links: &[Link], x: usize) -> Option<usize>
    requires { x < length links.now }
    ensures none { IsNone result ↔ (next_of links.now x ≡ end_of links.now) }
    ensures some { IfSome result (λ after. next_of links.now x ≡ after) }
{
    let after = links[x].next;
    (after != links.len() - 1).then_some(after)
}

fn put_back(links: &mut [Link], x: usize)
    requires ring { IsRing links.old (items_of links.old) }
    requires below { x < end_of links.old }
    requires absent { ¬ Contains (items_of links.old) x }
    ensures { IsRing links.new (items_of links.old ++ x ∷ []) }
{
    let end = links.len() - 1;
    let last = links[end].prev;
    connect(links, last, x);
    connect(links, x, end);
}

fn put_front(links: &mut [Link], x: usize)
    requires ring { IsRing links.old (items_of links.old) }
    requires below { x < end_of links.old }
    requires absent { ¬ Contains (items_of links.old) x }
    ensures { IsRing links.new (x ∷ items_of links.old) }
{
    let end = links.len() - 1;
    let first = links[end].next;
    connect(links, end, x);
    connect(links, x, first);
}

fn bring_front(links: &mut [Link], x: usize)
    requires ring { IsRing links.old (items_of links.old) }
    requires there { Contains (items_of links.old) x }
    ensures { IsRing links.new (x ∷ without x (items_of links.old)) }
{
    take_out(links, x);
    put_front(links, x);
}

fn take_first(links: &mut [Link]) -> Option<usize>
    requires { IsRing links.old (items_of links.old) }
    ensures none { IsNone result ↔ (items_of links.old ≡ []) }
    ensures first { IfSome result (λ first. items_of links.old ≡ first ∷ items_of links.new) }
    ensures unchanged { IfNone result (links.new ≡ links.old) }
    ensures ring { IsRing links.new (items_of links.new) }
{
    let first = number_after(links, links.len() - 1)?;
    take_out(links, first);
    Some(first)
}

fn take_out(links: &mut [Link], x: usize)
    requires ring { IsRing links.old (items_of links.old) }
    requires there { Contains (items_of links.old) x }
    ensures { IsRing links.new (without x (items_of links.old)) }
{
    let Link { prev, next } = links[x];
    connect(links, prev, next);
    connect(links, x, x);
}

// Links two numbers as neighbours.
#[tactic(auto, unfolding(crate::specs::Ring::linked, crate::specs::Ring::next_of, crate::specs::Ring::prev_of))]
fn connect(links: &mut [Link], before: usize, after: usize)
    requires before { before < length links.old }
    requires after { after < length links.old }
    ensures { links.new ≡ linked links.old before after }
{
    links[before].next = after;
    links[after].prev = before;
}
