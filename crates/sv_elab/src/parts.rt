// The drivers of parts of targets.
ghost use Rattle.std.specs.Prelude.{◌≡◌, ◌+◌, ◌<◌, ◌≤◌, ℕ, List, All, length, min, IfOk};
ghost use Rattle.lhs_alias.specs.Segs.{lhs_bits};
ghost use Rattle.lhs_alias.specs.Lies.{LieIn};
ghost use Rattle.svex_shape.specs.Shapes.{width_at};
ghost use Rattle.svex_arena.specs.Arenas.{Extends};
ghost use Rattle.sv_targets.specs.Slots.{Slots, AreParts};
ghost use Rattle.sv_elab.specs.Working.{Puts, Fills, IsWithin};

use driver_resolve::Driver;
use items::Items;
use lhs_alias::Lhs;
use std::alloc::{AllocError, Global};
use sv_lower::sliced;
use sv_targets::Part;
use svex_arena::{Arena, Node};

/// How many bits segments have together, 255 where there are more.
pub(crate) fn bits_of(to: &Lhs) -> u8
    ensures { result ≡ min 255 (length (lhs_bits to.now)) }
{
    let mut count = 0u8;
    'segs: for seg in to.segs() {
        count = count.saturating_add(seg.width);
    }
    count
}

// The driver that gives a part of a target its bits of a value.
fn part_driver(
    alloc: Global,
    arena: &mut Arena,
    part: &Part,
    value: Node,
) -> Result<Driver, AllocError>
    requires value { value < length arena.old }
    requires some { 1 ≤ length (lhs_bits part.now.to) }
    requires ends { part.now.lo + length (lhs_bits part.now.to) ≤ width_at arena.old value }
    ensures stays { Extends arena.old arena.new }
    ensures ok { (widths : List ℕ) → LieIn widths part.now.to → IfOk result (λ d. Puts widths arena.old arena.new value part.now d) }
{
    // For the proof: recalls what the type promises of it.
    let _ = arena.width(value);
    let count = bits_of(&part.to);
    let lo = part.lo as u8;
    let value = sliced(alloc, arena, value, lo, count)?;
    let target = part.to.copy()?;
    Ok(Driver { target, value })
}

/// The drivers that give the slots of a target, of which these are the parts that are there, their bits of a value.
#[tactic(auto, using(svex_arena::proofs::Keeping::extends_on))]
pub(crate) fn part_drivers(
    alloc: Global,
    arena: &mut Arena,
    parts: &[Part],
    value: Node,
) -> Result<Items<Driver>, AllocError>
    requires value { value < length arena.old }
    requires parts { All (IsWithin (width_at arena.old value)) parts.now }
    ensures stays { Extends arena.old arena.new }
    ensures ok { (widths : List ℕ) (slots : Slots) → All (λ p. LieIn widths p.to) parts.now → AreParts slots parts.now
        → IfOk result (λ all. Fills widths arena.old arena.new value slots all) }
{
    // For the proof: recalls what the type promises of it.
    let _ = arena.len();
    let mut all = Items::new(alloc);
    'parts: for part in parts {
        let driver = part_driver(alloc, arena, part, value)?;
        all.push(driver)?;
    }
    Ok(all)
}
