//! Runs of bits as segments: of the nets, and of the first bits that are not driven. Both are found in the row of all bits from
//! the lowest bit of each run up, and a run stays within one wire.

ghost use Rattle.std.specs.Prelude.{◌≡◌, ℕ, ◌+◌, ◌<◌, false, None, ◌++◌, length, sum, IfOk, OnOk, slice_index, slice_index_or};
ghost use Rattle.lhs_alias.specs.Segs.{seg_bits};
ghost use Rattle.lhs_alias.specs.Joined.{all_bits};
ghost use Rattle.event_nets.specs.Runs.{is_at};
ghost use Rattle.net_resolve.specs.Runs.{IsRunWidth, AreRunSegs, AreFreeSegs, none_at};

use event_nets::nets::{all_lows, net_places};
use lhs_alias::{Seg, WireBit};
use std::alloc::{AllocError, Global};

// Puts the bits of a wire behind others.
#[tactic(auto, using(lhs_alias::proofs::SegBits::seg_grows))]
fn put_wire(wire: usize, width: u8, bits: &mut Vec<WireBit>) -> Result<(), AllocError>
    ensures { OnOk result (bits.new.items ≡ bits.old.items ++ seg_bits (record { wire = wire; lo = 0; width = width })) }
{
    for at in 0..width {
        bits.push(WireBit { wire, at })?;
    }
    Ok(())
}

/// The bits of all wires, in one row.
pub fn row_of(alloc: Global, widths: &[u8]) -> Result<Vec<WireBit>, AllocError>
    ensures { IfOk result (λ bits. bits.items ≡ all_bits widths.now) }
{
    let mut bits = Vec::new(alloc);
    for wire in 0..widths.len() {
        put_wire(wire, widths[wire], &mut bits)?;
    }
    Ok(bits)
}

// Whether the bit so far above the lowest bit of a run is in it.
fn is_in_run(lows: &[Option<usize>], low: usize, above: u8) -> bool
    requires { low < length lows.now }
    ensures { result ≡ is_at (slice_index_or lows.now (low + above) None) low }
{
    if lows.len() - low <= usize::from(above) {
        return false;
    }
    match lows[low + usize::from(above)] {
        None => false,
        Some(lowest) => lowest == low,
    }
}

// How many bits a run has, of 128 at most.
fn run_width(lows: &[Option<usize>], low: usize) -> u8
    requires { low < length lows.now }
    ensures { IsRunWidth lows.now low result }
{
    let mut width = 0;
    while width < 128 && is_in_run(lows, low, width) {
        width += 1;
    }
    width
}

/// The segments of runs, by the places of their lowest bits.
pub fn run_segs(
    alloc: Global,
    bits: &[WireBit],
    lows: &[Option<usize>],
    runs: &[usize],
) -> Result<Vec<Seg>, AllocError>
    requires bits { length bits.now ≡ length lows.now }
    requires runs { (i : ℕ) → i < length runs.now → slice_index runs.now i < length lows.now }
    ensures { IfOk result (λ segs. AreRunSegs bits.now lows.now runs.now segs.items) }
{
    let mut segs = Vec::new(alloc);
    for run in 0..runs.len() {
        let low = runs[run];
        let bit = bits[low];
        let width = run_width(lows, low);
        segs.push(Seg {
            wire: bit.wire,
            lo: bit.at,
            width,
        })?;
    }
    Ok(segs)
}

// For each place whether its bit lies in no net.
fn outside_nets(alloc: Global, lows: &[Option<usize>]) -> Result<Vec<bool>, AllocError>
    ensures len { IfOk result (λ marks. length marks.items ≡ length lows.now) }
    ensures marks { IfOk result (λ marks. (place : ℕ) → place < length lows.now → slice_index_or marks.items place false ≡ none_at lows.now place) }
{
    let mut marks = Vec::new(alloc);
    for place in 0..lows.len() {
        marks.push(lows[place].is_none())?;
    }
    Ok(marks)
}

/// The segments of first bits that lie in no net.
pub fn free_segs(
    alloc: Global,
    bits: &[WireBit],
    widths: &[u8],
    homes: &[usize],
    lows: &[Option<usize>],
) -> Result<Vec<Seg>, AllocError>
    requires bits { bits.now ≡ all_bits widths.now }
    requires homes { length homes.now ≡ sum widths.now }
    requires lows { length lows.now ≡ sum widths.now }
    ensures { IfOk result (λ segs. AreFreeSegs bits.now widths.now homes.now lows.now segs.items) }
{
    let marks = outside_nets(alloc, lows)?;
    let free_lows = all_lows(alloc, homes, &marks, widths)?;
    let runs = net_places(alloc, &free_lows)?;
    run_segs(alloc, bits, &free_lows, &runs)
}
