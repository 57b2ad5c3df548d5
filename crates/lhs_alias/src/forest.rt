// Classes of numbers, as trees of links from each number to a root (union-find, of Galler and Fischer, 1964, with union by size).
// The smaller tree is linked to the larger, so a search takes a logarithm of steps without any links being changed, and asking
// for a class needs no mutable access. The first number of a class is kept at its root, since joins decide which it is, and the
// shape of the tree does not.
ghost use Rattle.std.specs.Prelude.{◌≡◌, ◌+◌, ◌^◌, ◌<◌, ◌≤◌, length, slice_index, slice_set, IfOk};
ghost use Rattle.std.specs.List.{range_with_len};
ghost use Rattle.lhs_alias.specs.Roots.{root_of, EndAtRoots, IsForest, IsLinkable, firsts_of, merged};

use std::alloc::{AllocError, Global};
use std::marker::Model;

/// Classes of the numbers below a count, each with a first number, which contracts see as the list
/// of the first numbers. Each class is a tree of links. The smaller of two trees is linked to the
/// larger, so that a link from any number to its root has at most as many steps as the binary
/// logarithm of the count.
#[derive(Drop)]
pub struct Forest {
    // the number that each is linked to, itself at a root
    links: Vec<usize>,
    // at a root: how many numbers its tree has; else how many it had when it was linked
    sizes: Vec<usize>,
    // at a root: the first number of the class
    firsts: Vec<usize>,
}

impl Model for Forest {
    ghost use Rattle.std.specs.Prelude.{List, ℕ};
    ghost use Rattle.lhs_alias.specs.Roots.{firsts_of, IsForest};

    ghost Value = { List ℕ };

    ghost view = { λ forest. firsts_of forest.links.items forest.firsts.items };

    ghost invariant = { λ forest. IsForest forest.links.items forest.sizes.items forest.firsts.items };
}

impl Forest {
    /// Each number is a class of its own.
    pub fn new(alloc: Global, count: usize) -> Result<Forest, AllocError>
        ensures { IfOk result (λ forest. forest ≡ range_with_len 0 count) }
    {
        Ok(Forest {
            links: numbers_below(alloc, count)?,
            sizes: vec![in alloc; 1; count]?,
            firsts: numbers_below(alloc, count)?,
        })
    }

    /// The first number of the class.
    pub fn first_of(&self, at: usize) -> usize
        requires { at < length self.now }
        ensures value { result ≡ slice_index self.now at }
        ensures within { result < length self.now }
    {
        self.firsts[root(&self.links, at)]
    }

    /// The class of `from` goes over to that of `to`, whose first number stays.
    pub fn unite(&mut self, from: usize, to: usize)
        requires from { from < length self.old }
        requires to { to < length self.old }
        ensures { self.new ≡ merged self.old from to }
    {
        unite_trees(&mut self.links, &mut self.sizes, &mut self.firsts, from, to);
    }
}

fn unite_trees(
    links: &mut [usize],
    sizes: &mut [usize],
    firsts: &mut [usize],
    from: usize,
    to: usize,
)
    requires forest { IsForest links.old sizes.old firsts.old }
    requires from { from < length links.old }
    requires to { to < length links.old }
    ensures forest { IsForest links.new sizes.new firsts.new }
    ensures firsts { firsts_of links.new firsts.new ≡ merged (firsts_of links.old firsts.old) from to }
{
    let from = root(links, from);
    let to = root(links, to);
    if from == to {
        return;
    }
    let first = firsts[to];
    if sizes[from] <= sizes[to] {
        hang(links, sizes, firsts, from, to, first);
    } else {
        hang(links, sizes, firsts, to, from, first);
    }
}

#[tactic(auto, using(crate::proofs::SegBits::ranges))]
fn numbers_below(alloc: Global, count: usize) -> Result<Vec<usize>, AllocError>
    ensures { IfOk result (λ numbers. numbers.items ≡ range_with_len 0 count) }
{
    let mut numbers = Vec::with_capacity(alloc, count)?;
    for number in 0..count {
        numbers.push(number)?;
    }
    Ok(numbers)
}

// Where the links end.
#[tactic(auto, using(crate::proofs::Climbing::climbs))]
fn root(links: &[usize], at: usize) -> usize
    requires end { EndAtRoots links.now }
    requires within { at < length links.now }
    ensures value { result ≡ root_of links.now at }
    ensures within { result < length links.now }
    ensures root { slice_index links.now result ≡ result }
{
    let mut at = at;
    while links[at] != at {
        at = links[at];
    }
    at
}

// Links the root of one tree to that of another, and keeps a first number there.
fn hang(
    links: &mut [usize],
    sizes: &mut [usize],
    firsts: &mut [usize],
    low: usize,
    high: usize,
    first: usize,
)
    requires forest { IsForest links.old sizes.old firsts.old }
    requires linkable { IsLinkable links.old sizes.old low high first }
    ensures forest { IsForest links.new sizes.new firsts.new }
    ensures links { links.new ≡ slice_set links.old low high }
    ensures firsts { firsts.new ≡ slice_set firsts.old high first }
{
    links[low] = high;
    sizes[high] += sizes[low];
    firsts[high] = first;
}
