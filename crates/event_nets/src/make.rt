//! Takes all the memory of a simulation: the tables of a flat design, and room for three valuations. The tables follow from one
//! another: places, classes, gifts, nets, and the gifts of each net. The joins are let go at the end, since the tables say all
//! of them that settling asks. Wires may be overridden: their classes have no gifts but what they are set to. A valuation begins
//! with X at every bit.

ghost use Rattle.std.specs.Prelude.{◌≡◌, ℕ, ◌<◌, ◌≤◌, ◌^◌, List, [], None, length, slice_index_or, All, IfOk, IfSome, OnOk};
ghost use Rattle.lhs_alias.specs.Joined.{Stands, starts_of, all_bits, widths_of as joined_widths};
ghost use Rattle.driver_resolve.specs.Drivers.{widths_of};
ghost use Rattle.flat_net.specs.declared.flat.Flat.{Flat};
ghost use Rattle.flat_net.specs.Flats.{IsFlat, links_of};
ghost use Rattle.event_nets.specs.Tables.{AreTables, IsValuation, own_gifts, gifts_of, homes_of, lows_of};

use crate::gift::Gift;
use crate::lay::{all_homes, give_drivers, give_inputs, join_all, lay};
use crate::needs::given_by_net;
use crate::nets::{all_lows, driven_places, net_places};
use crate::overriding::{give_overridden, left};
use crate::tables::Tables;
use crate::values::unknown;
use flat_net::Flat;
use fourvec::{Bit, Four};
use lhs_alias::Joins;
use std::alloc::{AllocError, Global};
use svex_arena::Env;

// What drivers and stimuli give to the classes of a flat design.
fn own_gifts(
    alloc: Global,
    flat: &Flat,
    joins: &Joins,
    starts: &[usize],
) -> Result<Vec<Gift>, AllocError>
    requires flat { IsFlat flat.now }
    requires joins { joined_widths joins.now ≡ widths_of flat.now.wires }
    requires stands { Stands joins.now (links_of flat.now.joins) }
    requires starts { starts.now ≡ starts_of (widths_of flat.now.wires) }
    requires fits { length (all_bits (widths_of flat.now.wires)) < 2 ^ 64 }
    ensures { IfOk result (λ gifts. gifts.items ≡ own_gifts flat.now) }
{
    // For the proof: recalls what the type promises of it.
    let _ = flat.arena.len();
    let mut gifts = Vec::new(alloc);
    give_drivers(alloc, joins, starts, flat.drivers.as_slice(), &mut gifts)?;
    give_inputs(alloc, joins, starts, flat.wires.as_slice(), &mut gifts)?;
    Ok(gifts)
}

// What is given to the classes of a flat design where these wires are overridden.
fn gifts_of(
    alloc: Global,
    flat: &Flat,
    over: &[usize],
    joins: &Joins,
    starts: &[usize],
    places: usize,
) -> Result<Vec<Gift>, AllocError>
    requires flat { IsFlat flat.now }
    requires joins { joined_widths joins.now ≡ widths_of flat.now.wires }
    requires stands { Stands joins.now (links_of flat.now.joins) }
    requires starts { starts.now ≡ starts_of (widths_of flat.now.wires) }
    requires fits { length (all_bits (widths_of flat.now.wires)) < 2 ^ 64 }
    requires places { places ≡ length (all_bits (widths_of flat.now.wires)) }
    ensures { IfOk result (λ gifts. gifts.items ≡ gifts_of flat.now over.now) }
{
    let own = own_gifts(alloc, flat, joins, starts)?;
    let mut overriding = Vec::new(alloc);
    give_overridden(
        alloc,
        joins,
        starts,
        flat.wires.as_slice(),
        over,
        &mut overriding,
    )?;
    left(alloc, places, overriding, own)
}

// For each bit that lies in a net the place of the net's lowest bit.
fn lows_of(
    alloc: Global,
    flat: &Flat,
    widths: &[u8],
    homes: &[usize],
    gifts: &[Gift],
) -> Result<Vec<Option<usize>>, AllocError>
    requires flat { IsFlat flat.now }
    requires widths { widths.now ≡ widths_of flat.now.wires }
    requires homes { homes.now ≡ homes_of flat.now }
    requires gifts { All (λ g. g.to < length homes.now) gifts.now }
    ensures { (over : List ℕ) → gifts.now ≡ gifts_of flat.now over → IfOk result (λ lows. lows.items ≡ lows_of flat.now over) }
{
    let driven = driven_places(alloc, homes.len(), gifts)?;
    all_lows(alloc, homes, &driven, widths)
}

// The tables of a flat design over its joins.
fn tables_over(
    alloc: Global,
    flat: &Flat,
    over: &[usize],
    widths: &[u8],
    joins: &Joins,
    starts: Vec<usize>,
) -> Result<Tables, AllocError>
    requires flat { IsFlat flat.now }
    requires widths { widths.now ≡ widths_of flat.now.wires }
    requires joins { joined_widths joins.now ≡ widths_of flat.now.wires }
    requires stands { Stands joins.now (links_of flat.now.joins) }
    requires starts { starts.items ≡ starts_of (widths_of flat.now.wires) }
    requires fits { length (all_bits (widths_of flat.now.wires)) < 2 ^ 64 }
    ensures { IfOk result (λ tables. AreTables flat.now over.now tables) }
{
    let homes = all_homes(alloc, joins, &starts, widths)?;
    let gifts = gifts_of(alloc, flat, over, joins, &starts, homes.len())?;
    let lows = lows_of(alloc, flat, widths, &homes, &gifts)?;
    tables_with(alloc, starts, homes, lows, gifts)
}

// The tables with the nets and what is given to each.
fn tables_with(
    alloc: Global,
    starts: Vec<usize>,
    homes: Vec<usize>,
    lows: Vec<Option<usize>>,
    gifts: Vec<Gift>,
) -> Result<Tables, AllocError>
    requires gifts { All (λ g. g.to < length lows.items) gifts.items }
    requires lows { (k : ℕ) → IfSome (slice_index_or lows.items k None) (λ low. low < length lows.items) }
    ensures { (flat : Flat) (over : List ℕ) → starts.items ≡ starts_of (widths_of flat.wires) → homes.items ≡ homes_of flat → lows.items ≡ lows_of flat over → gifts.items ≡ gifts_of flat over
        → IfOk result (λ tables. AreTables flat over tables) }
{
    let nets = net_places(alloc, &lows)?;
    let given = given_by_net(alloc, &lows, &gifts)?;
    Ok(Tables {
        starts,
        homes,
        lows,
        nets,
        gifts,
        given,
    })
}

/// The tables of a flat design where these wires are overridden, and room for what each bit is told. A number past the wires
/// overrides nothing.
pub fn tables_of(
    alloc: Global,
    flat: &Flat,
    over: &[usize],
    widths: &[u8],
    told: &mut Vec<Option<Bit>>,
) -> Result<Tables, AllocError>
    requires flat { IsFlat flat.now }
    requires widths { widths.now ≡ widths_of flat.now.wires }
    requires told { told.old.items ≡ [] }
    ensures tables { IfOk result (λ tables. AreTables flat.now over.now tables) }
    ensures told { OnOk result (length told.new.items ≡ length (all_bits (widths_of flat.now.wires))) }
{
    let mut starts = Vec::new(alloc);
    lay(&mut starts, told, widths)?;
    let joins = join_all(alloc, widths, flat.joins.as_slice())?;
    tables_over(alloc, flat, over, widths, &joins, starts)
}

// X at every bit of wires.
fn unknowns(alloc: Global, widths: &[u8]) -> Result<Vec<Four>, AllocError>
    requires { All (λ width. (1 ≤ width) × (width ≤ 128)) widths.now }
    ensures { IfOk result (λ values. IsValuation widths.now values.items) }
{
    let mut values = Vec::new(alloc);
    for width in widths {
        values.push(unknown(*width))?;
    }
    Ok(values)
}

/// Room for three valuations of wires.
pub fn env_of(alloc: Global, widths: &[u8]) -> Result<Env, AllocError>
    requires { All (λ width. (1 ≤ width) × (width ≤ 128)) widths.now }
    ensures present { IfOk result (λ env. IsValuation widths.now env.present) }
    ensures previous { IfOk result (λ env. IsValuation widths.now env.previous) }
    ensures stim { IfOk result (λ env. IsValuation widths.now env.stim) }
{
    Ok(Env {
        present: unknowns(alloc, widths)?,
        previous: unknowns(alloc, widths)?,
        stim: unknowns(alloc, widths)?,
        chosen: Vec::new(alloc),
        sampled: Vec::new(alloc),
    })
}
