//! Segments, looked up by their bits.
//!
//! Segments of one wire are chained: a wire has one more than the number of its newest segment, and a segment one more than that of
//! the next older one of its wire; 0 ends the chain. A wire has 128 segments at most, so a bit is found in constant time, and the
//! chains take room for each wire and each segment, not for each bit.

ghost use Rattle.std.specs.Prelude.{◌≡◌, ℕ, ◌<◌, ◌≤◌, ◌+◌, [], ◌∷◌, ◌++◌, List, length, map, All, IsTrue, IfOk, OnOk, slice_index};
ghost use Rattle.std.specs.List.{AllZip};
ghost use Rattle.lhs_alias.specs.declared.segs.WireBit.{WireBit};
ghost use Rattle.lhs_alias.specs.declared.segs.Seg.{Seg};
ghost use Rattle.lhs_alias.specs.Segs.{seg_bits, lhs_bits, IsSeg, AreSegs};
ghost use Rattle.lhs_alias.specs.Lies.{LieIn, LiesIn, IsBitOf};
ghost use Rattle.lhs_alias.specs.Joined.{widths_of, first_of};
ghost use Rattle.driver_resolve.specs.Drivers.{wire_bits};
ghost use Rattle.net_equations.specs.Equations.{has_bit, seg_at};
ghost use Rattle.compose_rounds.specs.Sources.{all_segs, HasSource, IsSource, IsLinked, ReadsAs};

use lhs_alias::{Joins, Lhs, Seg, WireBit};
use std::alloc::{AllocError, Global};
use std::marker::Model;

/// The segments of equations, and the free ones, which are numbered behind them. Contracts see the two lists.
pub struct Segments {
    eqs: Vec<Seg>,
    free: Vec<Seg>,
    newest: Vec<usize>,
    older: Vec<usize>,
}

impl Drop for Segments {
    fn drop(self) {
        let Segments {
            eqs: _,
            free: _,
            newest: _,
            older: _,
        } = self;
    }
}

impl Model for Segments {
    ghost use Rattle.std.specs.Prelude.{◌++◌, length};
    ghost use Rattle.compose_rounds.specs.Sources.{Covering, IsLinked};

    ghost Value = { Covering };

    ghost view = { λ s. record { eqs = s.eqs.items; free = s.free.items } };

    ghost invariant = { λ s. IsLinked (s.eqs.items ++ s.free.items) s.newest.items s.older.items (length (s.eqs.items ++ s.free.items)) };
}

/// Whether a segment has a bit.
pub fn has_bit(seg: &Seg, bit: WireBit) -> bool
    ensures { result ≡ has_bit seg.now bit }
{
    seg.wire == bit.wire
        && seg.lo <= bit.at
        && u16::from(bit.at) < u16::from(seg.lo) + u16::from(seg.width)
}

// Makes sure that a wire has a place.
fn make_room(newest: &mut Vec<usize>, wire: usize) -> Result<(), AllocError>
    ensures room { OnOk result (wire < length newest.new.items) }
    ensures same { OnOk result (ReadsAs newest.old.items newest.new.items) }
{
    'room: while newest.len() <= wire {
        newest.push(0)?;
    }
    Ok(())
}

// Puts the next segment at the front of its wire's chain.
fn link(wire: usize, newest: &mut Vec<usize>, older: &mut Vec<usize>) -> Result<(), AllocError>
    ensures linked { OnOk result ((segs : List Seg) → (seg_at segs (length older.old.items)).wire ≡ wire
        → IsLinked segs newest.old.items older.old.items (length older.old.items)
        → IsLinked segs newest.new.items older.new.items (length older.new.items)) }
    ensures len { OnOk result (length older.new.items ≡ length older.old.items + 1) }
{
    make_room(newest, wire)?;
    older.push(newest[wire])?;
    newest[wire] = older.len();
    Ok(())
}

// Links segments behind others, which are the first of all.
fn link_all(segs: &[Seg], newest: &mut Vec<usize>, older: &mut Vec<usize>) -> Result<(), AllocError>
    ensures linked { OnOk result ((before behind : List Seg) → length before ≡ length older.old.items
        → IsLinked (before ++ segs.now ++ behind) newest.old.items older.old.items (length older.old.items)
        → IsLinked (before ++ segs.now ++ behind) newest.new.items older.new.items (length older.new.items)) }
    ensures len { OnOk result (length older.new.items ≡ length older.old.items + length segs.now) }
{
    'segs: for seg in segs {
        link(seg.wire, newest, older)?;
    }
    Ok(())
}

impl Segments {
    pub fn new(alloc: Global, eqs: Vec<Seg>, free: Vec<Seg>) -> Result<Segments, AllocError>
        ensures { IfOk result (λ s. s ≡ record { eqs = eqs.items; free = free.items }) }
    {
        let mut newest = Vec::new(alloc);
        let mut older = Vec::new(alloc);
        link_all(&eqs, &mut newest, &mut older)?;
        link_all(&free, &mut newest, &mut older)?;
        Ok(Segments {
            eqs,
            free,
            newest,
            older,
        })
    }

    /// How many equations there are.
    pub fn equations(&self) -> usize
        ensures { result ≡ length self.now.eqs }
    {
        self.eqs.len()
    }

    // A segment by its number.
    fn segment(&self, at: usize) -> Seg
        requires { at < length (all_segs self.now) }
        ensures { result ≡ seg_at (all_segs self.now) at }
    {
        if at < self.eqs.len() {
            self.eqs[at]
        } else {
            self.free[at - self.eqs.len()]
        }
    }

    // The segment that has a bit, along the chain of its wire.
    fn find(&self, bit: WireBit) -> usize
        requires { HasSource (all_segs self.now) bit }
        ensures within { result < length (all_segs self.now) }
        ensures has { IsTrue (has_bit (seg_at (all_segs self.now) result) bit) }
    {
        let mut at = self.newest[bit.wire] - 1;
        'chain: while !has_bit(&self.segment(at), bit) {
            at = self.older[at] - 1;
        }
        at
    }

    // The place of a bit in the segment that has it.
    fn place(&self, bit: WireBit) -> Seg
        requires small { bit.at < 128 }
        requires source { HasSource (all_segs self.now) bit }
        ensures source { IsSource (all_segs self.now) bit (record { wire = result.wire; at = result.lo }) }
        ensures one { result.width ≡ 1 }
        ensures seg { IsSeg result }
    {
        let at = self.find(bit);
        Seg {
            wire: at,
            lo: bit.at - self.segment(at).lo,
            width: 1,
        }
    }

    // Puts the places of a segment's bits behind others, from the highest bit down.
    fn put_seg(&self, seg: Seg, out: &mut Vec<Seg>) -> Result<(), AllocError>
        requires seg { IsSeg seg }
        requires sources { All (HasSource (all_segs self.now)) (seg_bits seg) }
        requires segs { AreSegs out.old.items }
        ensures segs { OnOk result (AreSegs out.new.items) }
        ensures places { OnOk result ((before : List WireBit) → AllZip (IsSource (all_segs self.now)) before (lhs_bits out.old.items)
            → AllZip (IsSource (all_segs self.now)) (seg_bits seg ++ before) (lhs_bits out.new.items)) }
    {
        let mut left = seg.width;
        'bits: while 0 < left {
            left -= 1;
            let place = self.place(WireBit {
                wire: seg.wire,
                at: seg.lo + left,
            });
            out.push(place)?;
        }
        Ok(())
    }

    // The places of the bits of segments.
    fn put_all(&self, alloc: Global, segs: &[Seg]) -> Result<Vec<Seg>, AllocError>
        requires segs { AreSegs segs.now }
        requires sources { All (HasSource (all_segs self.now)) (lhs_bits segs.now) }
        ensures segs { IfOk result (λ out. AreSegs out.items) }
        ensures places { IfOk result (λ out. AllZip (IsSource (all_segs self.now)) (lhs_bits segs.now) (lhs_bits out.items)) }
    {
        let mut out = Vec::new(alloc);
        'segs: for seg in segs {
            self.put_seg(*seg, &mut out)?;
        }
        Ok(out)
    }

    /// Where the bits of a wire come from: the places of the first bits of their classes.
    pub fn pieces(
        &self,
        alloc: Global,
        joins: &Joins,
        wire: usize,
        width: u8,
    ) -> Result<Lhs, AllocError>
        requires whole { LieIn (widths_of joins.now) ((let s : Seg = record { wire = wire; lo = 0; width = width } in s) ∷ []) }
        requires covers { (b : WireBit) → IsBitOf (widths_of joins.now) b → HasSource (all_segs self.now) (first_of joins.now b) }
        ensures places { IfOk result (λ p. AllZip (IsSource (all_segs self.now)) (map (first_of joins.now) (wire_bits wire width)) (lhs_bits p)) }
        ensures segs { IfOk result AreSegs }
    {
        let mut whole = Vec::new(alloc);
        whole.push(Seg { wire, lo: 0, width })?;
        let whole = Lhs::from_vec(whole);
        let firsts = joins.canon(&whole)?;
        let places = Lhs::from_vec(self.put_all(alloc, firsts.segs())?);
        places.normal()
    }
}
