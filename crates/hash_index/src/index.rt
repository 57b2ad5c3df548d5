//! The index: the hashes of all entries by number, and the trees by which they are found. Hashes and links are lists of their
//! own with one place for each entry, so that contracts see the list of hashes alone. Roots are made anew, about two for each
//! entry, whenever the entries reach their number. Room in all lists is made before an entry is put into them, so that none is
//! left half added.

ghost use Rattle.std.specs.Prelude.{◌≡◌, ℕ, true, false, ◌<◌, ◌≤◌, ◌+◌, [], ◌∷◌, ◌++◌, length, take, slice_index, IfOk, IfSome, IfNone, OnOk, OnErr};
ghost use Rattle.hash_index.specs.Tree.{IsLinked, IsKept};

use crate::tree::{find, link, link_all, unlink_from};
use std::alloc::{AllocError, Global};
use std::marker::Model;

/// Entries by number, which are found by their hashes. Contracts see the list of the hashes.
///
/// A root is one more than the number of the entry that stands there, and so are the two links of an entry; 0 stands for none.
pub struct HashIndex {
    hashes: Vec<u64>,
    low: Vec<usize>,
    high: Vec<usize>,
    roots: Vec<usize>,
}

impl Drop for HashIndex {
    fn drop(self) {
        let HashIndex {
            hashes: _,
            low: _,
            high: _,
            roots: _,
        } = self;
    }
}

impl Model for HashIndex {
    ghost use Rattle.std.specs.Prelude.{ℕ, List};
    ghost use Rattle.hash_index.specs.Tree.{IsKept};

    ghost Value = { List ℕ };

    ghost view = { λ a. a.hashes.items };

    ghost invariant = { λ a. IsKept a.hashes.items a.low.items a.high.items a.roots.items };
}

// Makes new roots, about two for each entry, and puts all entries in again.
fn grow(
    alloc: Global,
    hashes: &[u64],
    low: &mut [usize],
    high: &mut [usize],
    roots: &mut Vec<usize>,
) -> Result<(), AllocError>
    requires low { length low.old ≡ length hashes.now }
    requires high { length high.old ≡ length hashes.now }
    ensures linked { OnOk result (IsLinked (length hashes.now) hashes.now low.new high.new roots.new.items) }
    ensures some { OnOk result (0 < length roots.new.items) }
    ensures low { OnErr result (low.new ≡ low.old) }
    ensures high { OnErr result (high.new ≡ high.old) }
    ensures roots { OnErr result (roots.new.items ≡ roots.old.items) }
{
    let buckets = hashes.len().saturating_mul(2).saturating_add(17);
    let mut made = vec![in alloc; 0; buckets]?;
    low.fill(0);
    high.fill(0);
    link_all(hashes, low, high, &mut made);
    *roots = made;
    Ok(())
}

// Makes sure that there are more roots than entries.
fn make_room(
    alloc: Global,
    hashes: &[u64],
    low: &mut Vec<usize>,
    high: &mut Vec<usize>,
    roots: &mut Vec<usize>,
) -> Result<(), AllocError>
    requires kept { IsKept hashes.now low.old.items high.old.items roots.old.items }
    ensures kept { IsKept hashes.now low.new.items high.new.items roots.new.items }
    ensures some { OnOk result (0 < length roots.new.items) }
{
    if roots.len() <= hashes.len() {
        grow(
            alloc,
            hashes,
            low.as_mut_slice(),
            high.as_mut_slice(),
            roots,
        )?;
    }
    Ok(())
}

// Adds an entry that is not linked yet.
fn push_entry(
    hashes: &mut Vec<u64>,
    low: &mut Vec<usize>,
    high: &mut Vec<usize>,
    hash: u64,
) -> Result<(), AllocError>
    ensures hashes { OnOk result (hashes.new.items ≡ hashes.old.items ++ hash ∷ []) }
    ensures low { OnOk result (low.new.items ≡ low.old.items ++ 0 ∷ []) }
    ensures high { OnOk result (high.new.items ≡ high.old.items ++ 0 ∷ []) }
    ensures hashes_kept { OnErr result (hashes.new.items ≡ hashes.old.items) }
    ensures low_kept { OnErr result (low.new.items ≡ low.old.items) }
    ensures high_kept { OnErr result (high.new.items ≡ high.old.items) }
{
    hashes.reserve(1)?;
    low.reserve(1)?;
    high.reserve(1)?;
    hashes.push_reserved(hash);
    low.push_reserved(0);
    high.push_reserved(0);
    Ok(())
}

// Links the last entry.
fn link_last(
    hashes: &[u64],
    number: usize,
    low: &mut Vec<usize>,
    high: &mut Vec<usize>,
    roots: &mut Vec<usize>,
)
    requires last { length hashes.now ≡ number + 1 }
    requires low { length low.old.items ≡ number + 1 }
    requires high { length high.old.items ≡ number + 1 }
    requires some { 0 < length roots.old.items }
    requires linked { IsLinked number hashes.now low.old.items high.old.items roots.old.items }
    ensures { IsKept hashes.now low.new.items high.new.items roots.new.items }
{
    link(hashes, number, low, high, roots);
}

// Adds an entry behind all others.
fn push_in(
    alloc: Global,
    hashes: &mut Vec<u64>,
    low: &mut Vec<usize>,
    high: &mut Vec<usize>,
    roots: &mut Vec<usize>,
    hash: u64,
) -> Result<(), AllocError>
    requires { IsKept hashes.old.items low.old.items high.old.items roots.old.items }
    ensures kept { IsKept hashes.new.items low.new.items high.new.items roots.new.items }
    ensures added { OnOk result (hashes.new.items ≡ hashes.old.items ++ hash ∷ []) }
    ensures refused { OnErr result (hashes.new.items ≡ hashes.old.items) }
{
    make_room(alloc, hashes, low, high, roots)?;
    let number = hashes.len();
    push_entry(hashes, low, high, hash)?;
    link_last(hashes, number, low, high, roots);
    Ok(())
}

// Takes the entries from a number on away.
fn cut_from(
    len: usize,
    hashes: &mut Vec<u64>,
    low: &mut Vec<usize>,
    high: &mut Vec<usize>,
    roots: &mut Vec<usize>,
)
    requires within { len ≤ length hashes.old.items }
    requires kept { IsKept hashes.old.items low.old.items high.old.items roots.old.items }
    ensures hashes { hashes.new.items ≡ take len hashes.old.items }
    ensures kept { IsKept hashes.new.items low.new.items high.new.items roots.new.items }
{
    unlink_from(hashes, len, low, high, roots);
    hashes.truncate(len);
    low.truncate(len);
    high.truncate(len);
}

// Copies of the lists that link entries.
fn links_copied(
    alloc: Global,
    low: &[usize],
    high: &[usize],
    roots: &[usize],
) -> Result<(Vec<usize>, Vec<usize>, Vec<usize>), AllocError>
    ensures { IfOk result (λ p. (p.0.items ≡ low.now) × (p.1.items ≡ high.now) × (p.2.items ≡ roots.now)) }
{
    let low = low.to_vec(alloc)?;
    let high = high.to_vec(alloc)?;
    let roots = roots.to_vec(alloc)?;
    Ok((low, high, roots))
}

impl HashIndex {
    /// An index with no entry. It takes no memory.
    pub fn new(alloc: Global) -> HashIndex
        ensures { result ≡ [] }
    {
        HashIndex {
            hashes: Vec::new(alloc),
            low: Vec::new(alloc),
            high: Vec::new(alloc),
            roots: Vec::new(alloc),
        }
    }

    /// How many entries there are.
    pub fn len(&self) -> usize
        ensures { result ≡ length self.now }
    {
        self.hashes.len()
    }

    /// An entry that has this hash and passes a test, or none where none does. It looks along one way of the index, and asks of an
    /// entry at most once.
    pub fn find<F: Fn(usize) -> bool>(&self, hash: u64, test: F) -> Option<usize>
        requires { (k : ℕ) → k < length self.now → F.pre test k }
        ensures some { IfSome result (λ k. (k < length self.now) × (slice_index self.now k ≡ hash) × F.post test k true) }
        ensures none { IfNone result ((k : ℕ) → k < length self.now → slice_index self.now k ≡ hash → F.post test k false) }
    {
        find(&self.hashes, &self.low, &self.high, &self.roots, hash, test)
    }

    /// Puts an entry behind all others. Where there is no memory for it nothing has changed.
    pub fn push(&mut self, alloc: Global, hash: u64) -> Result<(), AllocError>
        ensures added { OnOk result (self.new ≡ self.old ++ hash ∷ []) }
        ensures kept { OnErr result (self.new ≡ self.old) }
    {
        push_in(
            alloc,
            &mut self.hashes,
            &mut self.low,
            &mut self.high,
            &mut self.roots,
            hash,
        )
    }

    /// Takes the entries from a number on away. It takes no memory.
    pub fn truncate(&mut self, len: usize)
        ensures { self.new ≡ take len self.old }
    {
        if len < self.hashes.len() {
            cut_from(
                len,
                &mut self.hashes,
                &mut self.low,
                &mut self.high,
                &mut self.roots,
            );
        }
    }

    /// An index with the same entries.
    pub fn copy(&self, alloc: Global) -> Result<HashIndex, AllocError>
        ensures { IfOk result (λ index. index ≡ self.now) }
    {
        let hashes = self.hashes.as_slice().to_vec(alloc)?;
        let (low, high, roots) = links_copied(
            alloc,
            self.low.as_slice(),
            self.high.as_slice(),
            self.roots.as_slice(),
        )?;
        Ok(HashIndex {
            hashes,
            low,
            high,
            roots,
        })
    }
}
