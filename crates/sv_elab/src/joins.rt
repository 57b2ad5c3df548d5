// Ports that are joined to their actuals (IEEE 1800-2017, 23.3.3).
ghost use Rattle.std.specs.Prelude.{◌≡◌, ◌==◌, ◌&&◌, ◌≤◌, ◌<◌, ◌∷◌, [], ℕ, List, All, length, min, true, IsTrue, IfOk};
ghost use Rattle.lhs_alias.specs.Segs.{lhs_bits};
ghost use Rattle.lhs_alias.specs.Lies.{LieIn};
ghost use Rattle.driver_resolve.specs.Drivers.{is_wire};
ghost use Rattle.sv_meaning.specs.Faults.{Faults};
ghost use Rattle.sv_meaning.specs.Targets as t;
ghost use Rattle.sv_meaning.specs.Designs.{are_present};
ghost use Rattle.sv_targets.specs.Slots.{IsLowered};
ghost use Rattle.sv_elab.specs.Working.{JoinsTo, parts_bits, wire_seg};

use crate::parts::bits_of;
use flat_net::Join;
use lhs_alias::{Lhs, Seg};
use std::alloc::{AllocError, Global};
use sv_targets::{Part, Target};

// How many bits parts have together, 255 where there are more.
fn bits_in(parts: &[Part]) -> u8
    ensures { result ≡ min 255 (length (parts_bits parts.now)) }
{
    let mut count = 0u8;
    'parts: for part in parts {
        count = count.saturating_add(bits_of(&part.to));
    }
    count
}

/// Whether a port of so many bits is joined to an actual that is such a target: as wide, with all selects constant and in range.
pub(crate) fn is_joined(target: &Target, width: u8) -> bool
    requires { width ≤ 128 }
    ensures long { result ≡ true → length (parts_bits target.now.parts) ≡ width }
    ensures is { (f : Faults) (ts : List t.Target) → IsLowered f ts target.now
        → result ≡ (t.widths ts == width && (t.are_fixed ts && are_present (t.slots ts))) }
{
    if target.width != width as usize || !target.fixed {
        return false;
    }
    bits_in(target.parts.as_slice()) == width
}

// The bits of parts as one target.
fn together(alloc: Global, parts: &[Part]) -> Result<Lhs, AllocError>
    ensures bits { IfOk result (λ to. lhs_bits to ≡ parts_bits parts.now) }
    ensures lies { IfOk result (λ to. (widths : List ℕ) → All (λ p. LieIn widths p.to) parts.now → LieIn widths to) }
{
    let mut all = Lhs::new(alloc);
    'parts: for part in parts {
        all = part.to.concat(&all)?;
    }
    Ok(all)
}

/// A whole wire as a target.
pub(crate) fn whole_wire(alloc: Global, wire: usize, width: u8) -> Result<Lhs, AllocError>
    ensures { IfOk result (λ to. to ≡ wire_seg wire width ∷ []) }
{
    let mut segs = Vec::new(alloc);
    segs.push(Seg { wire, lo: 0, width })?;
    Ok(Lhs::from_vec(segs))
}

/// The join of a port and the bits of its actual, which are as many, in these wires, and of wires below the port's.
pub(crate) fn join_of(
    alloc: Global,
    wire: usize,
    width: u8,
    parts: &[Part],
) -> Result<Join, AllocError>
    requires { length (parts_bits parts.now) ≡ width }
    ensures { (widths : List ℕ) → IsTrue (is_wire widths wire width) → 1 ≤ width → width ≤ 128 → All (λ p. LieIn widths p.to) parts.now → All (λ b. b.wire < wire) (parts_bits parts.now)
        → IfOk result (λ x. JoinsTo widths wire width parts.now x) }
{
    let child = whole_wire(alloc, wire, width)?;
    let parent = together(alloc, parts)?;
    Ok(Join { child, parent })
}
