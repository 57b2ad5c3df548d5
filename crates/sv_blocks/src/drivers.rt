// Drivers of the bits that a block writes. Bits that follow one another in one wire have one driver, a part of the wire's node,
// so that a block that writes whole vectors has few. A run has at most 128 bits, which is as wide as a node may be.
ghost use Rattle.std.specs.Prelude.{◌≡◌, All, ◌+◌, ◌<◌, ◌≤◌, length, take, slice_index_or, IsTrue, IfOk};
ghost use Rattle.lhs_alias.specs.declared.segs.WireBit.{WireBit};
ghost use Rattle.lhs_alias.specs.Segs.{seg_bits};
ghost use Rattle.svex_arena.specs.Arenas.{Extends};
ghost use Rattle.sv_stores.specs.Scenes.{IsScene, AreNodes};
ghost use Rattle.sv_blocks.specs.Fitting.{BitSits, RunSits};
ghost use Rattle.sv_blocks.specs.Driving.{Drives, DriveAll, run_seg};

use driver_resolve::Driver;
use items::Items;
use lhs_alias::{Lhs, Seg, WireBit};
use std::alloc::{AllocError, Global};
use sv_lower::sliced;
use sv_stores::{Scene, place_of};
use svex_arena::{Arena, Node};

// Whether a bit lies so many places above another of the same wire.
fn is_above(first: &WireBit, bit: &WireBit, count: usize) -> bool
    requires { count < 128 }
    ensures wire { IsTrue result → bit.now.wire ≡ first.now.wire }
    ensures at { IsTrue result → bit.now.at ≡ first.now.at + count }
{
    bit.wire == first.wire && bit.at as usize == first.at as usize + count
}

// How many bits follow one another in one wire, from the first on.
fn run_of(bits: &[WireBit]) -> u8
    requires { 0 < length bits.now }
    ensures some { 1 ≤ result }
    ensures most { result ≤ 128 }
    ensures within { result ≤ length bits.now }
    ensures bits { (d : WireBit) → take result bits.now ≡ seg_bits (run_seg (slice_index_or bits.now 0 d) result) }
{
    let first = bits[0];
    let mut count: u8 = 1;
    'bits: while count < 128 && (count as usize) < bits.len() {
        if !is_above(&first, &bits[count as usize], count as usize) {
            return count;
        }
        count += 1;
    }
    count
}

// The driver of so many bits that follow one another in one wire.
fn driver_of(
    alloc: Global,
    arena: &mut Arena,
    scene: &Scene,
    nodes: &[Node],
    first: WireBit,
    count: u8,
) -> Result<Driver, AllocError>
    requires scene { IsScene scene.now }
    requires nodes { AreNodes scene.now arena.old nodes.now }
    requires run { RunSits scene.now first count }
    requires some { 1 ≤ count }
    requires most { count ≤ 128 }
    ensures stays { Extends arena.old arena.new }
    ensures ok { IfOk result (λ d. Drives scene.now arena.old arena.new nodes.now (seg_bits (run_seg first count)) d) }
{
    // For the proof: recalls what the type promises of it.
    let _ = arena.len();
    let place = place_of(scene, first.wire);
    let value = sliced(alloc, arena, nodes[place], first.at, count)?;
    let mut segs = Vec::new(alloc);
    segs.push(Seg {
        wire: first.wire,
        lo: first.at,
        width: count,
    })?;
    Ok(Driver {
        target: Lhs::from_vec(segs),
        value,
    })
}

/// The drivers of bits of the wires of a block, one for each run of bits that follow one another in one wire.
pub fn drivers_of(
    alloc: Global,
    arena: &mut Arena,
    scene: &Scene,
    nodes: &[Node],
    bits: &[WireBit],
) -> Result<Items<Driver>, AllocError>
    requires scene { IsScene scene.now }
    requires nodes { AreNodes scene.now arena.old nodes.now }
    requires bits { All (BitSits scene.now) bits.now }
    ensures stays { Extends arena.old arena.new }
    ensures ok { IfOk result (λ all. DriveAll scene.now arena.old arena.new nodes.now bits.now all) }
{
    let mut all = Items::new(alloc);
    let mut at = 0;
    'bits: while at < bits.len() {
        let count = run_of(&bits[at..]);
        let driver = driver_of(alloc, arena, scene, nodes, bits[at], count)?;
        all.push(driver)?;
        at += count as usize;
    }
    Ok(all)
}
