//! Which equations tell the bits of a wire. Each bit is joined to a first bit, and at most one equation's segment has that; so the
//! wire's bits, in their first bits' segments, are compared with the segments that stand on the same wires.

ghost use Rattle.std.specs.Prelude.{◌≡◌, ◌≢◌, ◌+◌, ◌<◌, ◌≤◌, ◌^◌, ℕ, [], ◌∷◌, ◌++◌, length, map, All, IsTrue, IfOk, OnOk, slice_index_or};
ghost use Rattle.lhs_alias.specs.declared.segs.Seg.{Seg};
ghost use Rattle.lhs_alias.specs.Segs.{IsSeg};
ghost use Rattle.lhs_alias.specs.Lies.{LiesIn, LieIn};
ghost use Rattle.lhs_alias.specs.Joined.{widths_of};
ghost use Rattle.driver_resolve.specs.Drivers.{is_wire};
ghost use Rattle.net_equations.specs.Equations.{seg_at};
ghost use Rattle.net_order.specs.Rows.{segs_in, shares, AreByWire, CanTell, IsFedBy, IsFed, IsTold};

use driver_resolve::NetEq;
use items::Items;
use lhs_alias::{Joins, Lhs, Seg};
use std::alloc::{AllocError, Global};

/// Segments of equations, looked up by their wires.
pub struct Tellers {
    /// The segments of the equations.
    pub segs: Vec<Seg>,
    /// For each wire the numbers of the segments that are on it.
    pub lists: Vec<Items<usize>>,
}

impl Drop for Tellers {
    fn drop(self) {
        let Tellers { segs: _, lists: _ } = self;
    }
}

// Makes room for a wire.
#[tactic(auto, using(crate::proofs::Feeding::grown))]
fn grow(alloc: Global, lists: &mut Vec<Items<usize>>, wire: usize) -> Result<(), AllocError>
    ensures room { OnOk result (wire < length lists.new.items) }
    ensures same { OnOk result ((w : ℕ) → slice_index_or lists.new.items w [] ≡ slice_index_or lists.old.items w []) }
{
    'room: while lists.len() <= wire {
        lists.push(Items::new(alloc))?;
    }
    Ok(())
}

// Puts a number behind those of a wire.
fn put(
    alloc: Global,
    lists: &mut Vec<Items<usize>>,
    wire: usize,
    number: usize,
) -> Result<(), AllocError>
    ensures here { OnOk result (slice_index_or lists.new.items wire [] ≡ slice_index_or lists.old.items wire [] ++ number ∷ []) }
    ensures others { OnOk result ((w : ℕ) → w ≢ wire → slice_index_or lists.new.items w [] ≡ slice_index_or lists.old.items w []) }
{
    grow(alloc, lists, wire)?;
    lists[wire].push(number)?;
    Ok(())
}

#[tactic(auto, using(crate::proofs::Feeding::by_wire_none, crate::proofs::Feeding::by_wire_more))]
fn lists_of(alloc: Global, segs: &[Seg]) -> Result<Vec<Items<usize>>, AllocError>
    ensures { IfOk result (λ lists. AreByWire segs.now lists.items (length segs.now)) }
{
    let mut lists = Vec::new(alloc);
    'segs: for number in 0..segs.len() {
        put(alloc, &mut lists, segs[number].wire, number)?;
    }
    Ok(lists)
}

fn segs_of(alloc: Global, eqs: &[NetEq]) -> Result<Vec<Seg>, AllocError>
    ensures { IfOk result (λ segs. segs.items ≡ segs_in eqs.now) }
{
    let mut segs = Vec::with_capacity(alloc, eqs.len())?;
    'eqs: for eq in eqs {
        segs.push(eq.seg)?;
    }
    Ok(segs)
}

// Whether segments have a bit in common.
fn shares(seg: Seg, other: Seg) -> bool
    ensures { result ≡ shares seg other }
{
    seg.wire == other.wire
        && u16::from(seg.lo) < u16::from(other.lo) + u16::from(other.width)
        && u16::from(other.lo) < u16::from(seg.lo) + u16::from(seg.width)
}

// Puts the place of a segment behind others, if it shares a bit with one.
#[tactic(auto, using(crate::proofs::Feeding::fed_one_yes, crate::proofs::Feeding::fed_one_no))]
fn feed_one(
    segs: &[Seg],
    nodes: usize,
    seg: Seg,
    number: usize,
    row: &mut Vec<usize>,
) -> Result<(), AllocError>
    requires within { number < length segs.now }
    requires fits { nodes + length segs.now < 2 ^ 64 }
    ensures { OnOk result (IsFedBy segs.now nodes seg (number ∷ []) row.old.items row.new.items) }
{
    if shares(seg, segs[number]) {
        row.push(nodes + number)?;
    }
    Ok(())
}

// The same of each of some segments.
#[tactic(auto, using(crate::proofs::Feeding::fed_by_none, crate::proofs::Feeding::fed_by_more))]
fn feed_by(
    segs: &[Seg],
    nodes: usize,
    seg: Seg,
    numbers: &[usize],
    row: &mut Vec<usize>,
) -> Result<(), AllocError>
    requires within { All (λ j. j < length segs.now) numbers.now }
    requires fits { nodes + length segs.now < 2 ^ 64 }
    ensures { OnOk result (IsFedBy segs.now nodes seg numbers.now row.old.items row.new.items) }
{
    'numbers: for number in numbers {
        feed_one(segs, nodes, seg, *number, row)?;
    }
    Ok(())
}

// The numbers of the segments on a wire.
fn numbers_on(lists: &[Items<usize>], wire: usize) -> &[usize]
    ensures { result.now ≡ slice_index_or lists.now wire [] }
{
    if wire < lists.len() {
        lists[wire].as_slice()
    } else {
        &[]
    }
}

impl Tellers {
    /// The segments of equations.
    pub fn new(alloc: Global, eqs: &[NetEq]) -> Result<Tellers, AllocError>
        requires { All IsSeg (segs_in eqs.now) }
        ensures segs { IfOk result (λ t. t.segs.items ≡ segs_in eqs.now) }
        ensures can { IfOk result (λ t. (nodes : ℕ) → nodes + length eqs.now < 2 ^ 64 → CanTell nodes t) }
    {
        let segs = segs_of(alloc, eqs)?;
        let lists = lists_of(alloc, &segs)?;
        Ok(Tellers { segs, lists })
    }

    // The places of the equations that have a bit of some segments.
    #[tactic(auto, using(crate::proofs::Feeding::fed_none, crate::proofs::Feeding::fed_more))]
    fn fed(&self, alloc: Global, nodes: usize, of: &[Seg]) -> Result<Vec<usize>, AllocError>
        requires { CanTell nodes self.now }
        ensures { IfOk result (λ row. IsFed self.now.segs.items nodes of.now row.items) }
    {
        let mut row = Vec::new(alloc);
        'of: for seg in of {
            feed_by(
                &self.segs,
                nodes,
                *seg,
                numbers_on(&self.lists, seg.wire),
                &mut row,
            )?;
        }
        Ok(row)
    }

    /// The places of the equations that tell a bit of a wire.
    pub fn of_wire(
        &self,
        alloc: Global,
        joins: &Joins,
        nodes: usize,
        wire: usize,
        width: u8,
    ) -> Result<Vec<usize>, AllocError>
        requires can { CanTell nodes self.now }
        requires wire { IsTrue (is_wire (widths_of joins.now) wire width) }
        requires some { 0 < width }
        requires most { width ≤ 128 }
        ensures { IfOk result (λ row. IsTold joins.now self.now.segs.items nodes wire row.items) }
    {
        let mut whole = Vec::new(alloc);
        whole.push(Seg { wire, lo: 0, width })?;
        let whole = Lhs::from_vec(whole);
        let firsts = joins.canon(&whole)?;
        self.fed(alloc, nodes, firsts.segs())
    }
}
