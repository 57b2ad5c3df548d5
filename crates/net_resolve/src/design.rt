//! The equations of a flat design of which some wires are overridden. The tables of its nets, which are those by which it is
//! settled, say what is given to each class of joined bits; a net is a segment, and its equation says that it has the resolution
//! of that. First bits to which nothing is given are in free segments.

ghost use Rattle.std.specs.Prelude.{◌≡◌, ◌↔◌, ℕ, List, All, IfOk, map};
ghost use Rattle.lhs_alias.specs.Segs.{seg_bits};
ghost use Rattle.lhs_alias.specs.Joined.{Kept, Stands, all_bits};
ghost use Rattle.settling.specs.Settling.{Store};
ghost use Rattle.svex_shape.specs.Values.{value_at};
ghost use Rattle.driver_resolve.specs.Drivers.{Phase, reading, widths_of};
ghost use Rattle.flat_net.specs.Flats.{IsFlat, links_of, Settles, IsLeastSettling};
ghost use Rattle.event_nets.specs.Nets.{nets_of};
ghost use Rattle.event_nets.specs.Tables.{AreTables};
ghost use Rattle.net_equations.specs.Equations.{IsResolved, Solves, IsLeastSolution, phase_of};
ghost use Rattle.net_equations.specs.Groups.{Mentions};
ghost use Rattle.net_resolve.specs.Resolving.{IsGrown, lowest_bit, IsNet, IsFree, resolution_at, IsReadFor};
ghost use Rattle.net_resolve.specs.Laid.{AreEquations, IsLaid};

use crate::classes::by_class;
use crate::pieces::equations;
use crate::runs::{free_segs, row_of, run_segs};
use driver_resolve::{NetEq, Resolved};
use event_nets::lay::wire_widths;
use event_nets::make::tables_of;
use event_nets::tables::Tables;
use flat_net::Flat;
use items::Items;
use lhs_alias::{Seg, WireBit};
use std::alloc::{AllocError, Global};

// The equations of all nets.
fn all_equations(
    alloc: Global,
    flat: &mut Flat,
    tables: &Tables,
    bits: &[WireBit],
) -> Result<Vec<NetEq>, AllocError>
    requires flat { IsFlat flat.old }
    requires bits { bits.now ≡ all_bits (widths_of flat.old.wires) }
    requires tables { (over : List ℕ) × AreTables flat.old over tables.now }
    ensures kept { IsGrown flat.old flat.new }
    ensures eqs { IfOk result (λ eqs. (over : List ℕ) → AreTables flat.old over tables.now → AreEquations flat.old over flat.new.arena eqs.items) }
{
    let classes = by_class(alloc, tables.homes.len(), &tables.gifts)?;
    let segs = run_segs(alloc, bits, &tables.lows, &tables.nets)?;
    equations(
        alloc,
        &mut flat.arena,
        flat.wires.as_slice(),
        &classes.rows,
        &tables.nets,
        &segs,
    )
}

// The equations and the free segments, by the tables.
fn laid(
    alloc: Global,
    flat: &mut Flat,
    tables: &Tables,
    widths: &[u8],
) -> Result<Resolved, AllocError>
    requires flat { IsFlat flat.old }
    requires widths { widths.now ≡ widths_of flat.old.wires }
    requires tables { (over : List ℕ) × AreTables flat.old over tables.now }
    ensures kept { IsGrown flat.old flat.new }
    ensures laid { IfOk result (λ set. (over : List ℕ) → AreTables flat.old over tables.now → IsLaid flat.old over flat.new.arena set) }
{
    // For the proof: recalls what the type promises of it.
    let _ = flat.arena.len();
    let bits = row_of(alloc, widths)?;
    let free = free_segs(alloc, &bits, widths, &tables.homes, &tables.lows)?;
    let eqs = all_equations(alloc, flat, tables, &bits)?;
    Ok(Resolved {
        eqs: Items::from_vec(eqs),
        free: Items::from_vec(free),
    })
}

// The tables of the flat design. What they have room for beside is let go.
fn tables(alloc: Global, flat: &Flat, over: &[usize], widths: &[u8]) -> Result<Tables, AllocError>
    requires flat { IsFlat flat.now }
    requires widths { widths.now ≡ widths_of flat.now.wires }
    ensures { IfOk result (λ tables. AreTables flat.now over.now tables) }
{
    let mut told = Vec::new(alloc);
    tables_of(alloc, flat, over, widths, &mut told)
}

/// The equations of the flat design where the wires of these numbers are overridden, one for each maximal run of first bits that
/// are driven or overridden, by wire and lowest bit, and the maximal runs of all other first bits. The class of an overridden
/// bit has only the stimuli of such wires. Nodes are added to the design's own; wires, drivers and joins stay. A number past the
/// wires overrides nothing.
pub fn resolve(alloc: Global, flat: &mut Flat, over: &[usize]) -> Result<Resolved, AllocError>
    requires { IsFlat flat.old }
    ensures kept { IsGrown flat.old flat.new }
    ensures flat { IsFlat flat.new }
    ensures resolved { IfOk result (λ set. (kept : Kept) → Stands kept (links_of flat.old.joins) → kept.widths ≡ widths_of flat.old.wires
        → IsResolved kept flat.new.arena set) }

    // one for each net, in order
    ensures nets { IfOk result (λ set. map (λ e. lowest_bit e.seg) set.eqs ≡ nets_of flat.old over.now) }
    ensures whole { IfOk result (λ set. All (λ e. IsNet flat.old over.now e.seg) set.eqs) }
    ensures free { IfOk result (λ set. All (IsFree flat.old over.now) set.free) }

    // In each phase a value is, bit by bit, the resolution of what is given to the bit's class.
    ensures values { IfOk result (λ set. All (λ e. (p : Phase) → value_at (reading p) flat.new.arena e.value ≡ map (resolution_at flat.old over.now p) (seg_bits e.seg)) set.eqs) }

    // A valuation settles exactly where joined bits are equal and each equation holds.
    ensures settles { IfOk result (λ set. (stim previous now : Store) → Settles flat.old over.now stim previous now
        ↔ Solves (links_of flat.old.joins) flat.new.arena set.eqs (phase_of stim previous now)) }

    // So the least settling is the least solution.
    ensures least { IfOk result (λ set. (stim previous now : Store) → IsLeastSettling flat.old over.now stim previous now
        ↔ IsLeastSolution (links_of flat.old.joins) flat.new.arena set.eqs stim previous now) }

    // Values mention in the present exactly what the drivers of a bit joined to one of theirs do.
    ensures mentions { IfOk result (λ set. All (λ e. (wire : ℕ) → Mentions flat.new.arena e.value wire ↔ IsReadFor flat.old over.now e.seg wire) set.eqs) }
{
    // For the proof: recalls what the type promises of it.
    let _ = flat.arena.len();
    let widths = wire_widths(alloc, flat.wires.as_slice())?;
    let tables = tables(alloc, flat, over, &widths)?;
    laid(alloc, flat, &tables, &widths)
}
