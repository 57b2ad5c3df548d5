//! The nets of a flat design: maximal runs of bits in one wire that are driven or overridden, and the first of their classes. A net is named by
//! the place of its lowest bit, which is written down at each of its bits, so that a bit tells its net in one step. Runs are
//! found in one walk over the row, each bit by the one below it.

ghost use Rattle.std.specs.Prelude.{◌≡◌, ◌==◌, ℕ, ◌+◌, ◌<◌, ◌≤◌, false, ◌++◌, length, map, filter, sum, All, IfOk, OnOk, slice_index_or, [], ◌∷◌, if◌then◌else◌};
ghost use Rattle.std.specs.List.{list_any, range_with_len};
ghost use Rattle.event_nets.specs.Runs.{low_next, net_test, low_in, lows_in, is_at, begins};

use crate::gift::Gift;
use std::alloc::{AllocError, Global};

/// For each place whether something is given to the class of the first bit there.
pub fn driven_places(alloc: Global, places: usize, gifts: &[Gift]) -> Result<Vec<bool>, AllocError>
    requires { All (λ g. g.to < places) gifts.now }
    ensures len { IfOk result (λ driven. length driven.items ≡ places) }
    ensures driven { IfOk result (λ driven. (place : ℕ) → place < places
        → slice_index_or driven.items place false ≡ list_any (λ g. g.to == place) gifts.now) }
{
    let mut driven = vec![in alloc; false; places]?;
    mark_driven(gifts, &mut driven);
    Ok(driven)
}

fn mark_driven(gifts: &[Gift], driven: &mut [bool])
    requires gifts { All (λ g. g.to < length driven.old) gifts.now }
    requires none { (place : ℕ) → slice_index_or driven.old place false ≡ false }
    ensures { (place : ℕ) → slice_index_or driven.new place false ≡ list_any (λ g. g.to == place) gifts.now }
{
    for gift in gifts {
        driven[gift.to] = true;
    }
}

// Whether the first bit at a place is its own first bit, and driven.
fn is_net(homes: &[usize], driven: &[bool], place: usize) -> bool
    requires homes { place < length homes.now }
    requires driven { place < length driven.now }
    ensures { result ≡ net_test homes.now driven.now place }
{
    homes[place] == place && driven[place]
}

// The lowest place of the run that goes up to a place, by that of the place below.
fn next_low(net: bool, place: usize, below: Option<usize>) -> Option<usize>
    ensures { result ≡ low_next net place below }
{
    if !net {
        return None;
    }
    match below {
        None => Some(place),
        Some(low) => Some(low),
    }
}

// Puts the bits of a wire behind others: for each that lies in a net the place of the net's lowest bit.
fn put_lows(
    homes: &[usize],
    driven: &[bool],
    width: u8,
    lows: &mut Vec<Option<usize>>,
) -> Result<(), AllocError>
    requires homes { length lows.old.items + width ≤ length homes.now }
    requires driven { length lows.old.items + width ≤ length driven.now }
    ensures { OnOk result (lows.new.items ≡ lows.old.items
        ++ map (low_in (net_test homes.now driven.now) (length lows.old.items)) (range_with_len 0 width)) }
{
    let start = lows.len();
    let mut below = None;
    for at in 0..width {
        let place = start + usize::from(at);
        let low = next_low(is_net(homes, driven, place), place, below);
        lows.push(low)?;
        below = low;
    }
    Ok(())
}

/// For each bit that lies in a net the place of the net's lowest bit.
pub fn all_lows(
    alloc: Global,
    homes: &[usize],
    driven: &[bool],
    widths: &[u8],
) -> Result<Vec<Option<usize>>, AllocError>
    requires homes { length homes.now ≡ sum widths.now }
    requires driven { length driven.now ≡ sum widths.now }
    ensures { IfOk result (λ lows. lows.items ≡ lows_in (net_test homes.now driven.now) widths.now) }
{
    let mut lows = Vec::new(alloc);
    for wire in 0..widths.len() {
        put_lows(homes, driven, widths[wire], &mut lows)?;
    }
    Ok(lows)
}

/// The places of the lowest bits of nets.
pub fn net_places(alloc: Global, lows: &[Option<usize>]) -> Result<Vec<usize>, AllocError>
    ensures { IfOk result (λ nets. nets.items ≡ filter (begins lows.now) (range_with_len 0 (length lows.now))) }
{
    let mut nets = Vec::new(alloc);
    for place in 0..lows.len() {
        put_start(lows[place], place, &mut nets)?;
    }
    Ok(nets)
}

// Puts a place behind others, where its own run begins there.
fn put_start(low: Option<usize>, place: usize, nets: &mut Vec<usize>) -> Result<(), AllocError>
    ensures { OnOk result (nets.new.items ≡ nets.old.items ++ (if is_at low place then place ∷ [] else [])) }
{
    if !is_low(low, place) {
        return Ok(());
    }
    nets.push(place)?;
    Ok(())
}

fn is_low(low: Option<usize>, place: usize) -> bool
    ensures { result ≡ is_at low place }
{
    match low {
        None => false,
        Some(low) => low == place,
    }
}

/// The place of a net's lowest bit.
pub fn low_of(nets: &[usize], net: usize) -> usize
    requires { net < length nets.now }
    ensures { result ≡ slice_index_or nets.now net 0 }
{
    nets[net]
}
