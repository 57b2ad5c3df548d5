//! What is given where wires are overridden: a class of joined bits with a bit of such a wire takes what this is set to from
//! outside, and nothing else.

ghost use Rattle.std.specs.Prelude.{◌≡◌, not, ℕ, ◌<◌, ◌^◌, false, List, ◌++◌, length, filter, All, IfOk, OnOk, slice_index_or, if◌then◌else◌, [], ◌∷◌};
ghost use Rattle.lhs_alias.specs.Joined.{Stands, all_bits, starts_of, widths_of as joined_widths};
ghost use Rattle.settling.specs.Settling.{Link};
ghost use Rattle.driver_resolve.specs.Drivers.{widths_of, has_wire};
ghost use Rattle.flat_net.specs.Flats.{IsSignal};
ghost use Rattle.event_nets.specs.Gifts.{overriding_gifts, left};
ghost use Rattle.event_nets.specs.Tables.{home_of};

use crate::gift::Gift;
use crate::lay::give_wire;
use crate::nets::driven_places;
use lhs_alias::Joins;
use std::alloc::{AllocError, Global};
use sv_outside::Signal;

// Marks each wire that is in the list; a number past the wires marks nothing.
fn mark_wires(over: &[usize], marks: &mut [bool])
    requires { (wire : ℕ) → slice_index_or marks.old wire false ≡ false }
    ensures { (wire : ℕ) → wire < length marks.old → slice_index_or marks.new wire false ≡ has_wire over.now wire }
{
    for wire in over {
        if *wire < marks.len() {
            marks[*wire] = true;
        }
    }
}

// For each of so many wires whether it is in the list.
fn marked_wires(alloc: Global, wires: usize, over: &[usize]) -> Result<Vec<bool>, AllocError>
    ensures len { IfOk result (λ marks. length marks.items ≡ wires) }
    ensures marks { IfOk result (λ marks. (wire : ℕ) → wire < wires → slice_index_or marks.items wire false ≡ has_wire over.now wire) }
{
    let mut marks = vec![in alloc; false; wires]?;
    mark_wires(over, &mut marks);
    Ok(marks)
}

// What marked wires are set to.
fn give_marked(
    alloc: Global,
    joins: &Joins,
    starts: &[usize],
    wires: &[Signal],
    marks: &[bool],
    gifts: &mut Vec<Gift>,
) -> Result<(), AllocError>
    requires joins { joined_widths joins.now ≡ widths_of wires.now }
    requires wires { All IsSignal wires.now }
    requires starts { starts.now ≡ starts_of (joined_widths joins.now) }
    requires fits { length (all_bits (joined_widths joins.now)) < 2 ^ 64 }
    requires marks { length marks.now ≡ length wires.now }
    ensures { OnOk result ((links : List Link) (over : List ℕ) → Stands joins.now links
        → ((wire : ℕ) → wire < length wires.now → slice_index_or marks.now wire false ≡ has_wire over wire)
        → gifts.new.items ≡ gifts.old.items ++ overriding_gifts (home_of links (joined_widths joins.now)) 0 wires.now over) }
{
    for wire in 0..wires.len() {
        give_wire(alloc, joins, starts, wire, &wires[wire], marks[wire], gifts)?;
    }
    Ok(())
}

/// What overridden wires are set to, once each, in the order of the wires.
pub fn give_overridden(
    alloc: Global,
    joins: &Joins,
    starts: &[usize],
    wires: &[Signal],
    over: &[usize],
    gifts: &mut Vec<Gift>,
) -> Result<(), AllocError>
    requires joins { joined_widths joins.now ≡ widths_of wires.now }
    requires wires { All IsSignal wires.now }
    requires starts { starts.now ≡ starts_of (joined_widths joins.now) }
    requires fits { length (all_bits (joined_widths joins.now)) < 2 ^ 64 }
    ensures { OnOk result ((links : List Link) → Stands joins.now links
        → gifts.new.items ≡ gifts.old.items ++ overriding_gifts (home_of links (joined_widths joins.now)) 0 wires.now over.now) }
{
    let marks = marked_wires(alloc, wires.len(), over)?;
    give_marked(alloc, joins, starts, wires, &marks, gifts)
}

// Puts a gift behind others, unless its class is overridden.
fn put_unless(overridden: bool, gift: &Gift, kept: &mut Vec<Gift>) -> Result<(), AllocError>
    ensures { OnOk result (kept.new.items ≡ kept.old.items ++ (if overridden then [] else gift.now ∷ [])) }
{
    if overridden {
        return Ok(());
    }
    // By its parts: of the whole, the proof of borrows is not told that it holds a source.
    let Gift { to, from, at } = *gift;
    kept.push(Gift { to, from, at })?;
    Ok(())
}

// Puts the gifts to classes that are not overridden behind others.
fn put_kept(overridden: &[bool], gifts: &[Gift], kept: &mut Vec<Gift>) -> Result<(), AllocError>
    requires { All (λ g. g.to < length overridden.now) gifts.now }
    ensures { OnOk result (kept.new.items ≡ kept.old.items ++ filter (λ g. not (slice_index_or overridden.now g.to false)) gifts.now) }
{
    for gift in gifts {
        put_unless(overridden[gift.to], gift, kept)?;
    }
    Ok(())
}

/// What is left of gifts, to classes at so many places, where others override: the gifts to other classes, and the others behind them.
pub fn left(
    alloc: Global,
    places: usize,
    mut over: Vec<Gift>,
    gifts: Vec<Gift>,
) -> Result<Vec<Gift>, AllocError>
    requires over { All (λ g. g.to < places) over.items }
    requires gifts { All (λ g. g.to < places) gifts.items }
    ensures { IfOk result (λ all. all.items ≡ left over.items gifts.items) }
{
    if over.is_empty() {
        return Ok(gifts);
    }
    let overridden = driven_places(alloc, places, &over)?;
    let mut all = Vec::new(alloc);
    put_kept(&overridden, &gifts, &mut all)?;
    all.append(&mut over)?;
    Ok(all)
}
