//! What is made of a flat design once, before it is settled: the places of bits in one row, the class of each bit, and the
//! gifts, by which each bit of a driver or a stimulus goes to the class of a bit. All of this stays the same from phase to
//! phase. It is written out bit by bit, so that a pass over it asks for no segment, no join and no memory.

ghost use Rattle.std.specs.Prelude.{◌≡◌, ℕ, ◌+◌, ◌<◌, ◌≤◌, ◌^◌, List, [], ◌∷◌, ◌++◌, length, map, All, IfOk, OnOk, if◌then◌else◌};
ghost use Rattle.lhs_alias.specs.Segs.{seg_bits, lhs_bits, AreSegs, IsSeg};
ghost use Rattle.lhs_alias.specs.Lies.{LieIn};
ghost use Rattle.lhs_alias.specs.Pairs.{HaveOwnChildren};
ghost use Rattle.lhs_alias.specs.Joined.{Stands, HasPlace, place_in, all_bits, starts_of, widths_of as joined_widths};
ghost use Rattle.settling.specs.Settling.{Link};
ghost use Rattle.driver_resolve.specs.Drivers.{widths_of, wire_bits};
ghost use Rattle.flat_net.specs.Flats.{IsSignal, IsJoin, links_of};
ghost use Rattle.event_nets.specs.Gifts.{HasTarget, gifts_at, gifts_to, driver_gifts, stimulus_gifts};
ghost use Rattle.event_nets.specs.Tables.{home_of};
ghost use Rattle.event_nets.specs.declared.gift.Source.TheVariants.{Stimulus};

use crate::gift::{Gift, Source};
use driver_resolve::Driver;
use flat_net::Join;
use fourvec::Bit;
use lhs_alias::{Joins, Lhs, Seg, WireBit};
use std::alloc::{AllocError, Global};
use sv_outside::Signal;

/// The widths of wires.
pub fn wire_widths(alloc: Global, wires: &[Signal]) -> Result<Vec<u8>, AllocError>
    ensures { IfOk result (λ widths. widths.items ≡ widths_of wires.now) }
{
    let mut widths = Vec::new(alloc);
    for wire in wires {
        widths.push(wire.width)?;
    }
    Ok(widths)
}

/// The joins, made in their order. Each is made, since no bit is joined twice.
pub fn join_all(alloc: Global, widths: &[u8], joins: &[Join]) -> Result<Joins, AllocError>
    requires widths { All (λ width. (1 ≤ width) × (width ≤ 128)) widths.now }
    requires joins { All (IsJoin widths.now) joins.now }
    requires own_children { HaveOwnChildren (links_of joins.now) }
    ensures widths { IfOk result (λ made. joined_widths made ≡ widths.now) }
    ensures stands { IfOk result (λ made. Stands made (links_of joins.now)) }
{
    let mut made = Joins::new(alloc, widths)?;
    for join in joins {
        made.join(&join.child, &join.parent).unwrap();
    }
    Ok(made)
}

// Adds a wire: the place of its lowest bit, and nothing told to its bits.
fn add_wire(
    starts: &mut Vec<usize>,
    told: &mut Vec<Option<Bit>>,
    width: u8,
) -> Result<(), AllocError>
    ensures starts { OnOk result (starts.new.items ≡ starts.old.items ++ length told.old.items ∷ []) }
    ensures told { OnOk result (length told.new.items ≡ length told.old.items + width) }
{
    starts.push(told.len())?;
    'bits: for bit in 0..width {
        // For the proof: recalls what the type promises of it.
        let _ = bit;
        told.push(None)?;
    }
    Ok(())
}

/// The places of wires' lowest bits, and room for what each bit is told.
pub fn lay(
    starts: &mut Vec<usize>,
    told: &mut Vec<Option<Bit>>,
    widths: &[u8],
) -> Result<(), AllocError>
    requires starts { starts.old.items ≡ [] }
    requires told { told.old.items ≡ [] }
    ensures starts { OnOk result (starts.new.items ≡ starts_of widths.now) }
    ensures told { OnOk result (length told.new.items ≡ length (all_bits widths.now)) }
{
    for width in widths {
        add_wire(starts, told, *width)?;
    }
    Ok(())
}

#[tactic(auto, unfolding(lhs_alias::specs::Joined::place_in))]
fn place(starts: &[usize], bit: WireBit) -> usize
    requires wire { bit.wire < length starts.now }
    requires fits { place_in starts.now bit < 2 ^ 64 }
    ensures { result ≡ place_in starts.now bit }
{
    starts[bit.wire] + usize::from(bit.at)
}

// Puts the places of a segment's bits behind others, the least significant first.
fn put_seg(starts: &[usize], seg: &Seg, places: &mut Vec<usize>) -> Result<(), AllocError>
    requires seg { IsSeg seg.now }
    requires places { All (HasPlace starts.now (2 ^ 64)) (seg_bits seg.now) }
    ensures { OnOk result (places.new.items ≡ places.old.items ++ map (place_in starts.now) (seg_bits seg.now)) }
{
    for at in 0..seg.width {
        let bit = WireBit {
            wire: seg.wire,
            at: seg.lo + at,
        };
        places.push(place(starts, bit))?;
    }
    Ok(())
}

// Puts the places of bits behind others, the least significant first.
fn put_places(starts: &[usize], segs: &[Seg], places: &mut Vec<usize>) -> Result<(), AllocError>
    requires segs { AreSegs segs.now }
    requires places { All (HasPlace starts.now (2 ^ 64)) (lhs_bits segs.now) }
    ensures { OnOk result (places.new.items ≡ places.old.items ++ map (place_in starts.now) (lhs_bits segs.now)) }
{
    let mut rest = segs;
    'segs: while let Some((low, higher)) = rest.split_last() {
        put_seg(starts, low, places)?;
        rest = higher;
    }
    Ok(())
}

/// Puts the places of the first bits of bits' classes behind others.
pub fn put_homes(
    joins: &Joins,
    starts: &[usize],
    of: &Lhs,
    places: &mut Vec<usize>,
) -> Result<(), AllocError>
    requires lies { LieIn (joined_widths joins.now) of.now }
    requires starts { starts.now ≡ starts_of (joined_widths joins.now) }
    requires fits { length (all_bits (joined_widths joins.now)) < 2 ^ 64 }
    ensures homes { OnOk result ((links : List Link) → Stands joins.now links
        → places.new.items ≡ places.old.items ++ map (home_of links (joined_widths joins.now)) (lhs_bits of.now)) }
    ensures len { OnOk result (length places.new.items ≡ length places.old.items + length (lhs_bits of.now)) }
{
    let firsts = joins.canon(of)?;
    put_places(starts, firsts.segs(), places)
}

/// For each bit of all wires the place of the first bit of its class.
pub fn all_homes(
    alloc: Global,
    joins: &Joins,
    starts: &[usize],
    widths: &[u8],
) -> Result<Vec<usize>, AllocError>
    requires widths { All (λ width. (1 ≤ width) × (width ≤ 128)) widths.now }
    requires joins { joined_widths joins.now ≡ widths.now }
    requires starts { starts.now ≡ starts_of widths.now }
    requires fits { length (all_bits widths.now) < 2 ^ 64 }
    ensures { IfOk result (λ homes. (links : List Link) → Stands joins.now links
        → homes.items ≡ map (home_of links widths.now) (all_bits widths.now)) }
{
    let mut homes = Vec::new(alloc);
    for wire in 0..widths.len() {
        let whole = whole_wire(alloc, wire, widths[wire])?;
        put_homes(joins, starts, &whole, &mut homes)?;
    }
    Ok(homes)
}

// All bits of a wire.
fn whole_wire(alloc: Global, wire: usize, width: u8) -> Result<Lhs, AllocError>
    ensures { IfOk result (λ whole. whole ≡ (record { wire = wire; lo = 0; width = width }) ∷ []) }
{
    let mut segs = Vec::new(alloc);
    segs.push(Seg { wire, lo: 0, width })?;
    Ok(Lhs::from_vec(segs))
}

// Gives the bits of a vector to classes, the least significant first.
fn put_gifts(from: &Source, places: &[usize], gifts: &mut Vec<Gift>) -> Result<(), AllocError>
    requires { length places.now ≤ 128 }
    ensures { OnOk result (gifts.new.items ≡ gifts.old.items ++ gifts_at from.now 0 places.now) }
{
    for at in 0..places.len() {
        gifts.push(Gift {
            to: places[at],
            from: *from,
            at: at as u8,
        })?;
    }
    Ok(())
}

// Gives the bits of a vector to the classes of bits.
fn give(
    alloc: Global,
    joins: &Joins,
    starts: &[usize],
    from: &Source,
    to: &Lhs,
    gifts: &mut Vec<Gift>,
) -> Result<(), AllocError>
    requires lies { LieIn (joined_widths joins.now) to.now }
    requires narrow { length (lhs_bits to.now) ≤ 128 }
    requires starts { starts.now ≡ starts_of (joined_widths joins.now) }
    requires fits { length (all_bits (joined_widths joins.now)) < 2 ^ 64 }
    ensures { OnOk result ((links : List Link) → Stands joins.now links
        → gifts.new.items ≡ gifts.old.items ++ gifts_at from.now 0 (map (home_of links (joined_widths joins.now)) (lhs_bits to.now))) }
{
    let mut places = Vec::new(alloc);
    put_homes(joins, starts, to, &mut places)?;
    put_gifts(from, &places, gifts)
}

/// What drivers give.
pub fn give_drivers(
    alloc: Global,
    joins: &Joins,
    starts: &[usize],
    drivers: &[Driver],
    gifts: &mut Vec<Gift>,
) -> Result<(), AllocError>
    requires drivers { All (HasTarget (joined_widths joins.now)) drivers.now }
    requires starts { starts.now ≡ starts_of (joined_widths joins.now) }
    requires fits { length (all_bits (joined_widths joins.now)) < 2 ^ 64 }
    ensures { OnOk result ((links : List Link) → Stands joins.now links
        → gifts.new.items ≡ gifts.old.items ++ driver_gifts (home_of links (joined_widths joins.now)) drivers.now) }
{
    for driver in drivers {
        let from = Source::Value(driver.value);
        give(alloc, joins, starts, &from, &driver.target, gifts)?;
    }
    Ok(())
}

/// What stimuli give to inputs of the top.
pub fn give_inputs(
    alloc: Global,
    joins: &Joins,
    starts: &[usize],
    wires: &[Signal],
    gifts: &mut Vec<Gift>,
) -> Result<(), AllocError>
    requires joins { joined_widths joins.now ≡ widths_of wires.now }
    requires wires { All IsSignal wires.now }
    requires starts { starts.now ≡ starts_of (joined_widths joins.now) }
    requires fits { length (all_bits (joined_widths joins.now)) < 2 ^ 64 }
    ensures { OnOk result ((links : List Link) → Stands joins.now links
        → gifts.new.items ≡ gifts.old.items ++ stimulus_gifts (home_of links (joined_widths joins.now)) 0 wires.now) }
{
    for wire in 0..wires.len() {
        let signal = &wires[wire];
        give_wire(alloc, joins, starts, wire, signal, signal.input, gifts)?;
    }
    Ok(())
}

/// What a wire is set to from outside, where that counts.
pub fn give_wire(
    alloc: Global,
    joins: &Joins,
    starts: &[usize],
    wire: usize,
    signal: &Signal,
    counts: bool,
    gifts: &mut Vec<Gift>,
) -> Result<(), AllocError>
    requires lies { LieIn (joined_widths joins.now) ((record { wire = wire; lo = 0; width = signal.now.width }) ∷ []) }
    requires starts { starts.now ≡ starts_of (joined_widths joins.now) }
    requires fits { length (all_bits (joined_widths joins.now)) < 2 ^ 64 }
    ensures { OnOk result ((links : List Link) → Stands joins.now links
        → gifts.new.items ≡ gifts.old.items ++ (if counts
        then gifts_to (home_of links (joined_widths joins.now)) (Stimulus wire) 0 (wire_bits wire signal.now.width) else [])) }
{
    if counts {
        let whole = whole_wire(alloc, wire, signal.width)?;
        let from = Source::Stimulus(wire);
        give(alloc, joins, starts, &from, &whole, gifts)
    } else {
        Ok(())
    }
}
