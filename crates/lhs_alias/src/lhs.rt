// Lists of segments of wires, the most significant first, as targets are written (IEEE 1800-2017, 10.3.2). Contracts see the
// segments. A segment is a run of bits, so that a wire of 128 bits is one and not 128; cutting out a part goes from the least
// significant segment up and so makes its list backwards, which is turned round at the end. Of the calls only `normal` unites
// segments that adjoin; the others keep what was given. Most targets are a whole wire or two, which stand in the value itself, so
// that a design of many instances has no allocation for each of its nets.
ghost use Rattle.std.specs.Prelude.{◌≡◌, ◌↔◌, ℕ, ◌+◌, ◌-◌, ◌<◌, ◌≤◌, ◌^◌, List, [], ◌∷◌, ◌++◌, length, take, drop, reverse, min, map, sum, IsTrue, IfOk, OnOk, OnErr};
ghost use Rattle.lhs_alias.specs.Segs.{seg_bits, lhs_bits, IsSeg, AreSegs, Adjoin, IsUnited};
ghost use Rattle.lhs_alias.specs.Lies.{LiesIn, LieIn};
ghost use Rattle.lhs_alias.specs.Pairs.{FallTo};

use crate::bits::Bits;
use crate::segs::Seg;
use smallvec::SmallVec;
use std::alloc::{AllocError, Global};
use std::marker::Model;

/// A list of segments, the most significant first, as the target of an assignment is written.
/// It keeps its allocator.
#[derive(Drop)]
pub struct Lhs {
    segs: SmallVec<Seg, 2>,
}

impl Model for Lhs {
    ghost use Rattle.std.specs.Prelude.{List};
    ghost use Rattle.lhs_alias.specs.declared.segs.Seg.{Seg};

    ghost Value = { List Seg };

    ghost view = { λ lhs. lhs.segs.items };
}

impl Lhs {
    /// A list of no segments. Takes no memory.
    pub fn new(alloc: Global) -> Lhs
        ensures { result ≡ [] }
    {
        Lhs {
            segs: SmallVec::new(alloc),
        }
    }

    /// Takes no memory, and gives the room back that is not used.
    pub fn from_vec(segs: Vec<Seg>) -> Lhs
        ensures { result ≡ segs.items }
    {
        let mut segs = SmallVec::from_vec(segs);
        segs.shrink_to_fit();
        Lhs { segs }
    }

    /// The segments, the most significant first.
    pub fn segs(&self) -> &[Seg]
        ensures { result.now ≡ self.now }
    {
        self.segs.as_slice()
    }

    pub fn copy(&self) -> Result<Lhs, AllocError>
        ensures { IfOk result (λ copy. copy ≡ self.now) }
    {
        Ok(Lhs {
            segs: SmallVec::from_slice(*self.segs.allocator(), self.segs())?,
        })
    }

    /// The number of bits.
    #[tactic(auto, using(crate::proofs::SegBits::lhs_lengths))]
    pub fn bits(&self) -> usize
        requires { length (lhs_bits self.now) < 2 ^ 64 }
        ensures { result ≡ length (lhs_bits self.now) }
    {
        total_width(self.segs())
    }

    /// Whether each segment has a bit at least and lies within its wire, of these widths in bits.
    pub fn lies_in(&self, widths: &[u8]) -> bool
        ensures lies { IsTrue result ↔ LieIn widths.now self.now }
        ensures segs { IsTrue result → AreSegs self.now }
    {
        all_lie(widths, self.segs())
    }

    /// Whether both have as many bits, and the wire of each bit is above that of the bit of `parent`
    /// at its place.
    pub fn falls_to(&self, parent: &Lhs) -> bool
        requires segs { AreSegs self.now }
        requires parent { AreSegs parent.now }
        ensures { IsTrue result ↔ FallTo (lhs_bits self.now) (lhs_bits parent.now) }
    {
        all_fall(self.segs(), parent.segs())
    }

    /// The bits of `self` above those of `low`.
    #[tactic(auto, using(crate::proofs::SegBits::lhs_pieces))]
    pub fn concat(&self, low: &Lhs) -> Result<Lhs, AllocError>
        ensures bits { IfOk result (λ both. lhs_bits both ≡ lhs_bits low.now ++ lhs_bits self.now) }
        ensures segs { IfOk result (λ both. AreSegs self.now → AreSegs low.now → AreSegs both) }
        ensures lies { IfOk result (λ both. (widths : List ℕ) →
            LieIn widths self.now → LieIn widths low.now → LieIn widths both) }
    {
        let mut segs = SmallVec::from_slice(*self.segs.allocator(), self.segs())?;
        segs.extend_from_slice(low.segs())?;
        Ok(Lhs { segs })
    }

    /// `width` of the bits, from the bit `lo` on, which is counted from the least significant one.
    pub fn slice(&self, lo: usize, width: usize) -> Result<Lhs, AllocError>
        requires segs { AreSegs self.now }
        requires within { lo + width ≤ length (lhs_bits self.now) }
        ensures bits { IfOk result (λ slice. lhs_bits slice ≡ take width (drop lo (lhs_bits self.now))) }
        ensures segs { IfOk result AreSegs }
        ensures lies { IfOk result (λ slice. (widths : List ℕ) → LieIn widths self.now → LieIn widths slice) }
    {
        let mut parts = cut_out(*self.segs.allocator(), self.segs(), lo, width)?;
        parts.reverse();
        Ok(Lhs::from_vec(parts))
    }

    /// The same bits, with each segment united with its neighbours where they adjoin.
    #[tactic(auto, using(crate::proofs::SegBits::lhs_pieces))]
    pub fn normal(&self) -> Result<Lhs, AllocError>
        requires { AreSegs self.now }
        ensures same { IfOk result (λ normal. lhs_bits normal ≡ lhs_bits self.now) }
        ensures segs { IfOk result AreSegs }
        ensures united { IfOk result IsUnited }
        ensures lies { IfOk result (λ normal. (widths : List ℕ) → LieIn widths self.now → LieIn widths normal) }
    {
        let mut united = Vec::new(*self.segs.allocator());
        for seg in self.segs() {
            put_below(&mut united, *seg)?;
        }
        Ok(Lhs::from_vec(united))
    }
}

fn all_lie(widths: &[u8], segs: &[Seg]) -> bool
    ensures { IsTrue result ↔ LieIn widths.now segs.now }
{
    for seg in segs {
        if !lies(widths, *seg) {
            return false;
        }
    }
    true
}

fn lies(widths: &[u8], seg: Seg) -> bool
    ensures { IsTrue result ↔ LiesIn widths.now seg }
{
    if seg.width == 0 || seg.width > 128 || seg.lo > 128 - seg.width {
        return false;
    }
    seg.wire < widths.len() && seg.lo + seg.width <= widths[seg.wire]
}

fn all_fall(child: &[Seg], parent: &[Seg]) -> bool
    requires child { AreSegs child.now }
    requires parent { AreSegs parent.now }
    ensures { IsTrue result ↔ FallTo (lhs_bits child.now) (lhs_bits parent.now) }
{
    let mut children = Bits::new(child);
    let mut parents = Bits::new(parent);
    while let Some(child) = children.next_bit() {
        let Some(parent) = parents.next_bit() else {
            return false;
        };
        if child.wire <= parent.wire {
            return false;
        }
    }
    parents.next_bit().is_none()
}

// Copies the segments of a range of bits, the least significant first.
fn cut_out(alloc: Global, segs: &[Seg], lo: usize, width: usize) -> Result<Vec<Seg>, AllocError>
    requires segs { AreSegs segs.now }
    requires within { lo + width ≤ length (lhs_bits segs.now) }
    ensures bits { IfOk result (λ parts. lhs_bits (reverse parts.items) ≡ take width (drop lo (lhs_bits segs.now))) }
    ensures segs { IfOk result (λ parts. AreSegs parts.items) }
{
    let mut parts = Vec::new(alloc);
    let mut rest = segs;
    let mut skip = lo;
    let mut left = width;
    while left > 0
        && let Some((low, higher)) = rest.split_last()
    {
        let have = usize::from(low.width);
        if skip < have {
            let part = part_of(*low, skip, left);
            parts.push(part)?;
            left -= usize::from(part.width);
            skip = 0;
        } else {
            skip -= have;
        }
        rest = higher;
    }
    Ok(parts)
}

// At most `most` bits of a segment, from the bit `skip` of the segment on.
#[tactic(auto, using(crate::proofs::SegBits::seg_parts))]
fn part_of(seg: Seg, skip: usize, most: usize) -> Seg
    requires seg { IsSeg seg }
    requires within { skip < seg.width }
    requires some { 0 < most }
    ensures bits { seg_bits result ≡ take most (drop skip (seg_bits seg)) }
    ensures width { result.width ≡ min most (seg.width - skip) }
    ensures seg { IsSeg result }
{
    let skip = skip as u8;
    Seg {
        wire: seg.wire,
        lo: seg.lo + skip,
        width: most.min(usize::from(seg.width - skip)) as u8,
    }
}

fn total_width(segs: &[Seg]) -> usize
    requires { sum (map (λ seg. seg.width) segs.now) < 2 ^ 64 }
    ensures { result ≡ sum (map (λ seg. seg.width) segs.now) }
{
    segs.iter().map(|seg| usize::from(seg.width)).sum()
}

// Whether the two are neighbours in one wire.
fn adjoin(high: Seg, low: Seg) -> bool
    requires { IsSeg low }
    ensures { IsTrue result ↔ Adjoin high low }
{
    high.wire == low.wire && high.lo == low.lo + low.width
}

// Puts a segment below all others, in one with the lowest of them where the two adjoin.
#[tactic(auto, using(crate::proofs::SegBits::lhs_pieces))]
pub fn put_below(segs: &mut Vec<Seg>, low: Seg) -> Result<(), AllocError>
    requires segs { AreSegs segs.old.items }
    requires seg { IsSeg low }
    ensures bits { OnOk result (lhs_bits segs.new.items ≡ seg_bits low ++ lhs_bits segs.old.items) }
    ensures segs { OnOk result (AreSegs segs.new.items) }
    ensures united { OnOk result (IsUnited segs.old.items → IsUnited segs.new.items) }
{
    if let Some(high) = segs.last().copied()
        && adjoin(high, low)
    {
        let lowest = segs.len() - 1;
        segs[lowest] = Seg {
            wire: low.wire,
            lo: low.lo,
            width: high.width + low.width,
        };
        return Ok(());
    }
    segs.push(low)?;
    Ok(())
}
