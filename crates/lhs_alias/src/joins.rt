// The bits of wires, and which of them ports join (IEEE 1800-2017, 23.3.3). Bits of all wires stand in one row, so that a class
// is one of numbers, and a bit stands for its class by the class's first bit. A list of bits is walked first to see whether one
// is joined already, then to mark it, and only then are classes united: so a refused join leaves all as it was, and no list has
// to be kept.
ghost use Rattle.std.specs.Prelude.{◌≡◌, ◌≢◌, ℕ, ◌+◌, ◌<◌, ◌≤◌, ◌^◌, ◌⊎◌, ◌&&◌, true, false, not, List, [], ◌∷◌, ◌++◌, length, map, replicate, IsTrue, IfOk, OnOk, OnErr, All, Any, Contains, Err};
ghost use Rattle.std.specs.Bool.{OnTrue, OnFalse};
ghost use Rattle.std.specs.List.{zip, AllZip, list_any, range_with_len};
ghost use Rattle.lhs_alias.specs.declared.segs.WireBit.{WireBit};
ghost use Rattle.lhs_alias.specs.Segs.{seg_bits, lhs_bits, AreSegs, IsUnited};
ghost use Rattle.lhs_alias.specs.Lies.{LieIn};
ghost use Rattle.lhs_alias.specs.Pairs.{IsFirst, IsChild, FallTo, AreDistinct};
ghost use Rattle.lhs_alias.specs.Joined.{widths_of, starts_of, all_bits, first_of, Stands, place_in, HasPlace, is_marked, marked, are_free, all_merged, first_bit};

use crate::bits::{Bits, segs_of};
use crate::forest::Forest;
use crate::lhs::Lhs;
use crate::segs::{Seg, WireBit};
use std::alloc::{AllocError, Global};
use std::marker::Model;
use thiserror::Error;

/// The bits of some wires, and the joins made among them.
#[derive(Drop)]
pub struct Joins {
    alloc: Global,
    widths: Vec<u8>,
    // the place of each wire's lowest bit in the row of all bits
    starts: Vec<usize>,
    bits: Vec<WireBit>,
    forest: Forest,
    joined: Vec<bool>,
}

impl Model for Joins {
    ghost use Rattle.lhs_alias.specs.Joined.{Kept, IsLaid};

    ghost Value = { Kept };

    ghost view = { λ joins. record { widths = joins.widths.items; firsts = joins.forest; joined = joins.joined.items } };

    ghost invariant = { λ joins. IsLaid joins.widths.items joins.starts.items joins.bits.items joins.forest joins.joined.items };
}

impl Joins {
    ghost use Rattle.lhs_alias.specs.declared.joins.JoinErr.TheVariants.{Taken, Memory};

    /// The bits of wires of these widths, none of them joined.
    pub fn new(alloc: Global, widths: &[u8]) -> Result<Joins, AllocError>
        requires { All (λ width. (1 ≤ width) × (width ≤ 128)) widths.now }
        ensures widths { IfOk result (λ joins. widths_of joins ≡ widths.now) }
        ensures none { IfOk result (λ joins. Stands joins []) }
    {
        let copied = widths.to_vec(alloc)?;
        let (starts, bits) = row_of(alloc, widths)?;
        let (forest, joined) = unjoined(alloc, bits.len())?;
        Ok(Joins {
            alloc,
            widths: copied,
            starts,
            bits,
            forest,
            joined,
        })
    }

    /// Joins each child bit to its parent bit, pairwise from the least significant bit on. Takes no
    /// memory.
    pub fn join(&mut self, child: &Lhs, parent: &Lhs) -> Result<(), JoinErr>
        requires child { LieIn (widths_of self.old) child.now }
        requires parent { LieIn (widths_of self.old) parent.now }
        requires falls { FallTo (lhs_bits child.now) (lhs_bits parent.now) }

        ensures widths { widths_of self.new ≡ widths_of self.old }
        ensures joined { OnOk result ((pairs : List (WireBit × WireBit)) →
            Stands self.old pairs → Stands self.new (pairs ++ zip (lhs_bits child.now) (lhs_bits parent.now))) }

        // Taken comes exactly where a child bit is joined already or stands twice.
        ensures free { OnOk result ((pairs : List (WireBit × WireBit)) →
            Stands self.old pairs → All (λ b. ¬ IsChild pairs b) (lhs_bits child.now)) }
        ensures distinct { OnOk result (AreDistinct (lhs_bits child.now)) }
        ensures taken { result ≡ Err Taken → (pairs : List (WireBit × WireBit)) →
            Stands self.old pairs → Any (IsChild pairs) (lhs_bits child.now) ⊎ (¬ AreDistinct (lhs_bits child.now)) }
        ensures no_memory { result ≢ Err Memory }
        ensures unchanged { OnErr result (self.new ≡ self.old) }
    {
        if !mark_free(&mut self.joined, &self.starts, child.segs()) {
            return Err(JoinErr::Taken);
        }
        unite_all(&mut self.forest, &self.starts, child.segs(), parent.segs());
        Ok(())
    }

    /// Each bit replaced by the first bit of its class, in united segments.
    pub fn canon(&self, of: &Lhs) -> Result<Lhs, AllocError>
        requires { LieIn (widths_of self.now) of.now }
        ensures firsts { IfOk result (λ canon. lhs_bits canon ≡ map (first_of self.now) (lhs_bits of.now)) }
        ensures classes { IfOk result (λ canon. (pairs : List (WireBit × WireBit)) →
            Stands self.now pairs → AllZip (IsFirst pairs) (lhs_bits of.now) (lhs_bits canon)) }
        ensures lies { IfOk result (LieIn (widths_of self.now)) }
        ensures united { IfOk result IsUnited }
    {
        let firsts = first_bits(
            self.alloc,
            &self.bits,
            &self.starts,
            &self.forest,
            of.segs(),
        )?;
        let segs = segs_of(self.alloc, &firsts)?;
        Ok(Lhs::from_vec(segs))
    }
}

/// Why bits were not joined.
#[derive(Clone, Copy, Debug, Error)]
pub enum JoinErr {
    /// A child bit is joined already, or stands twice.
    #[error("a bit is joined already")]
    Taken,
    #[error("out of memory")]
    Memory,
}

// The place of the lowest bit of each wire in the row of all bits, and this row.
fn row_of(alloc: Global, widths: &[u8]) -> Result<(Vec<usize>, Vec<WireBit>), AllocError>
    ensures starts { IfOk result (λ row. row.0.items ≡ starts_of widths.now) }
    ensures bits { IfOk result (λ row. row.1.items ≡ all_bits widths.now) }
{
    let mut starts = Vec::new(alloc);
    let mut bits = Vec::new(alloc);
    for width in widths {
        add_wire(&mut starts, &mut bits, *width)?;
    }
    Ok((starts, bits))
}

// So many numbers, each a class of its own, and none of them joined.
fn unjoined(alloc: Global, count: usize) -> Result<(Forest, Vec<bool>), AllocError>
    ensures forest { IfOk result (λ made. made.0 ≡ range_with_len 0 count) }
    ensures joined { IfOk result (λ made. made.1.items ≡ replicate count false) }
{
    let joined = vec![in alloc; false; count]?;
    Ok((Forest::new(alloc, count)?, joined))
}

// Adds the bits of one more wire to the row.
#[tactic(auto, using(crate::proofs::SegBits::seg_grows))]
fn add_wire(starts: &mut Vec<usize>, bits: &mut Vec<WireBit>, width: u8) -> Result<(), AllocError>
    ensures starts { OnOk result (starts.new.items ≡ starts.old.items ++ length bits.old.items ∷ []) }
    ensures bits { OnOk result (bits.new.items ≡ bits.old.items
        ++ seg_bits (record { wire = length starts.old.items; lo = 0; width = width })) }
{
    let wire = starts.len();
    starts.push(bits.len())?;
    for at in 0..width {
        bits.push(WireBit { wire, at })?;
    }
    Ok(())
}

#[tactic(auto, unfolding(crate::specs::Joined::place_in))]
fn place(starts: &[usize], bit: WireBit) -> usize
    requires wire { bit.wire < length starts.now }
    requires fits { place_in starts.now bit < 2 ^ 64 }
    ensures { result ≡ place_in starts.now bit }
{
    starts[bit.wire] + usize::from(bit.at)
}

// Marks the bits as joined, unless one of them is so already or stands twice, and says whether it did.
fn mark_free(joined: &mut [bool], starts: &[usize], segs: &[Seg]) -> bool
    requires segs { AreSegs segs.now }
    requires places { All (HasPlace starts.now (length joined.old)) (lhs_bits segs.now) }
    ensures free { result
        ≡ (not (list_any (is_marked starts.now joined.old) (lhs_bits segs.now)) && are_free starts.now joined.old (lhs_bits segs.now)) }
    ensures marks { OnTrue result (joined.new ≡ marked starts.now true joined.old (lhs_bits segs.now)) }
    ensures unchanged { OnFalse result (joined.new ≡ joined.old) }
{
    if any_joined(joined, starts, segs) {
        return false;
    }
    if mark_all(joined, starts, segs) {
        return true;
    }
    clear_all(joined, starts, segs);
    false
}

// Whether one of the bits is joined.
#[tactic(auto, unfolding(crate::specs::Joined::is_marked))]
fn any_joined(joined: &[bool], starts: &[usize], segs: &[Seg]) -> bool
    requires segs { AreSegs segs.now }
    requires places { All (HasPlace starts.now (length joined.now)) (lhs_bits segs.now) }
    ensures { result ≡ list_any (is_marked starts.now joined.now) (lhs_bits segs.now) }
{
    let mut bits = Bits::new(segs);
    while let Some(bit) = bits.next_bit() {
        if joined[place(starts, bit)] {
            return true;
        }
    }
    false
}

// Marks the bits as joined, and says whether each was not when its turn came.
#[tactic(auto, unfolding(crate::specs::Joined::is_marked, crate::specs::Joined::marked, crate::specs::Joined::are_free))]
fn mark_all(joined: &mut [bool], starts: &[usize], segs: &[Seg]) -> bool
    requires segs { AreSegs segs.now }
    requires places { All (HasPlace starts.now (length joined.old)) (lhs_bits segs.now) }
    ensures marks { joined.new ≡ marked starts.now true joined.old (lhs_bits segs.now) }
    ensures free { result ≡ are_free starts.now joined.old (lhs_bits segs.now) }
{
    let mut free = true;
    let mut bits = Bits::new(segs);
    while let Some(bit) = bits.next_bit() {
        let at = place(starts, bit);
        free &= !joined[at];
        joined[at] = true;
    }
    free
}

// Marks the bits as not joined.
#[tactic(auto, unfolding(crate::specs::Joined::marked))]
fn clear_all(joined: &mut [bool], starts: &[usize], segs: &[Seg])
    requires segs { AreSegs segs.now }
    requires places { All (HasPlace starts.now (length joined.old)) (lhs_bits segs.now) }
    ensures { joined.new ≡ marked starts.now false joined.old (lhs_bits segs.now) }
{
    let mut bits = Bits::new(segs);
    while let Some(bit) = bits.next_bit() {
        joined[place(starts, bit)] = false;
    }
}

// Takes the class of each child bit over to that of its parent.
#[tactic(auto, using(crate::proofs::Trees::merges), unfolding(crate::specs::Joined::all_merged))]
fn unite_all(forest: &mut Forest, starts: &[usize], child: &[Seg], parent: &[Seg])
    requires fits { length forest.old < 2 ^ 64 }
    requires child { AreSegs child.now }
    requires child_places { All (HasPlace starts.now (length forest.old)) (lhs_bits child.now) }
    requires parent { AreSegs parent.now }
    requires parent_places { All (HasPlace starts.now (length forest.old)) (lhs_bits parent.now) }
    ensures { forest.new ≡ all_merged starts.now forest.old (zip (lhs_bits child.now) (lhs_bits parent.now)) }
{
    let mut children = Bits::new(child);
    let mut parents = Bits::new(parent);
    while let Some(child) = children.next_bit()
        && let Some(parent) = parents.next_bit()
    {
        forest.unite(place(starts, child), place(starts, parent));
    }
}

// The first bit of each bit's class.
#[tactic(auto, unfolding(crate::specs::Joined::first_bit))]
fn first_bits(
    alloc: Global,
    bits: &[WireBit],
    starts: &[usize],
    forest: &Forest,
    segs: &[Seg],
) -> Result<Vec<WireBit>, AllocError>
    requires segs { AreSegs segs.now }
    requires fits { length forest.now < 2 ^ 64 }
    requires as_many { length forest.now ≡ length bits.now }
    requires places { All (HasPlace starts.now (length forest.now)) (lhs_bits segs.now) }
    ensures firsts { IfOk result (λ firsts. firsts.items ≡ map (first_bit bits.now starts.now forest.now) (lhs_bits segs.now)) }
    ensures known { IfOk result (λ firsts. All (Contains bits.now) firsts.items) }
{
    let mut firsts = Vec::new(alloc);
    let mut rest = Bits::new(segs);
    while let Some(bit) = rest.next_bit() {
        let first = bits[forest.first_of(place(starts, bit))];
        firsts.push(first)?;
    }
    Ok(firsts)
}
