//! A phase is settled once for all valuations: equations of a set are resolved from what is given to each net, ordered by what they
//! read in the present, and composed, so that no present value is left in them. What this makes are nodes of the design's own
//! graph, so sets that have parts of their equations in common share the nodes.

ghost use Rattle.std.specs.Prelude.{◌≡◌, ◌<◌, ℕ, List, length, IfOk, Err};
ghost use Rattle.lhs_alias.specs.Joined.{Stands, widths_of as joined_widths};
ghost use Rattle.svex_arena.specs.Arenas.{Extends};
ghost use Rattle.driver_resolve.specs.Drivers.{widths_of};
ghost use Rattle.flat_net.specs.Flats.{IsFlat, links_of};
ghost use Rattle.net_equations.specs.declared.group.ComposeErr.TheVariants.{LoopTooWide};
ghost use Rattle.net_resolve.specs.Resolving.{IsGrown};
ghost use Rattle.phase_fsm.specs.Machines.{AreWireNodes, IsMachine};
ghost use Rattle.phase_fsm.specs.Sets.{HasGroups, AreNarrow, IsFirstWide};

use event_nets::lay::{join_all, wire_widths};
use flat_net::Flat;
use items::Items;
use lhs_alias::Joins;
use net_equations::ComposeErr;
use net_order::order;
use net_resolve::resolve;
use std::alloc::{AllocError, Global};
use svex_arena::Node;
use svex_compose::{compose, wire_nodes};

/// For each set of wires of a flat design a node for each wire.
pub struct Fsm {
    /// The design, whose graph has the nodes behind its own.
    pub flat: Flat,
    /// The sets of overridden wires.
    pub sets: Items<Items<usize>>,
    /// For each set, by the numbers of wires.
    pub nodes: Items<Items<Node>>,
}

impl Drop for Fsm {
    fn drop(self) {
        let Fsm {
            flat: _,
            sets: _,
            nodes: _,
        } = self;
    }
}

/// The joins of a design, made.
pub(crate) fn joins_of(alloc: Global, flat: &Flat, widths: &[u8]) -> Result<Joins, AllocError>
    requires flat { IsFlat flat.now }
    requires widths { widths.now ≡ widths_of flat.now.wires }
    ensures widths { IfOk result (λ joins. joined_widths joins ≡ widths_of flat.now.wires) }
    ensures stands { IfOk result (λ joins. Stands joins (links_of flat.now.joins)) }
{
    join_all(alloc, widths, flat.joins.as_slice())
}

// The nodes of one set.
fn set_nodes(
    alloc: Global,
    flat: &mut Flat,
    over: &[usize],
    joins: &Joins,
    widths: &[u8],
) -> Result<Items<Node>, ComposeErr>
    requires flat { IsFlat flat.old }
    requires wide { widths.now ≡ widths_of flat.old.wires }
    requires widths { joined_widths joins.now ≡ widths_of flat.old.wires }
    requires stands { Stands joins.now (links_of flat.old.joins) }
    ensures kept { IsGrown flat.old flat.new }
    ensures flat { IsFlat flat.new }
    ensures nodes { IfOk result (AreWireNodes flat.old over.now flat.new.arena) }
    ensures narrow { IfOk result (λ nodes. HasGroups flat.old over.now None) }
    ensures wide { (bits : ℕ) → result ≡ Err (LoopTooWide bits) → HasGroups flat.old over.now (Some bits) }
{
    let set = resolve(alloc, flat, over)?;
    let groups = order(alloc, &flat.arena, &set, joins)?;
    let composed = compose(alloc, &mut flat.arena, &set, joins, groups.as_slice())?;
    Ok(wire_nodes(alloc, &mut flat.arena, &set, joins, widths, &composed)?)
}

// The nodes of each set.
fn all_nodes(
    alloc: Global,
    flat: &mut Flat,
    sets: &[Items<usize>],
    joins: &Joins,
    widths: &[u8],
) -> Result<Items<Items<Node>>, ComposeErr>
    requires flat { IsFlat flat.old }
    requires wide { widths.now ≡ widths_of flat.old.wires }
    requires widths { joined_widths joins.now ≡ widths_of flat.old.wires }
    requires stands { Stands joins.now (links_of flat.old.joins) }
    ensures wires { flat.new.wires ≡ flat.old.wires }
    ensures arena { Extends flat.old.arena flat.new.arena }
    ensures machine { IfOk result (IsMachine flat.old sets.now flat.new.arena) }
    ensures narrow { IfOk result (λ nodes. AreNarrow flat.old sets.now (length sets.now)) }
    ensures wide { (bits : ℕ) → result ≡ Err (LoopTooWide bits) → IsFirstWide flat.old sets.now bits }
{
    // For the proof: recalls what the type promises of it.
    let _ = flat.arena.len();
    let mut nodes = Items::new(alloc);
    'sets: for at in 0..sets.len() {
        let row = set_nodes(alloc, flat, sets[at].as_slice(), joins, widths)?;
        nodes.push(row)?;
    }
    Ok(nodes)
}

/// The machine of a flat design: for each set of wires, where these are overridden, each wire's value in the least settling, over
/// the phase before and what comes from outside. The nodes that the design has keep their numbers and shapes. A refusal gives
/// the design up.
pub fn make_fsm(alloc: Global, flat: Flat, sets: Items<Items<usize>>) -> Result<Fsm, ComposeErr>
    requires { IsFlat flat }
    ensures wires { IfOk result (λ fsm. fsm.flat.wires ≡ flat.wires) }
    ensures sets { IfOk result (λ fsm. fsm.sets ≡ sets) }
    ensures arena { IfOk result (λ fsm. Extends flat.arena fsm.flat.arena) }
    ensures machine { IfOk result (λ fsm. IsMachine flat sets fsm.flat.arena fsm.nodes) }
    ensures narrow { IfOk result (λ fsm. AreNarrow flat sets (length sets)) }
    ensures wide { (bits : ℕ) → result ≡ Err (LoopTooWide bits) → IsFirstWide flat sets bits }
{
    let mut flat = flat;
    let widths = wire_widths(alloc, flat.wires.as_slice())?;
    let joins = joins_of(alloc, &flat, &widths)?;
    let nodes = all_nodes(alloc, &mut flat, sets.as_slice(), &joins, &widths)?;
    Ok(Fsm { flat, sets, nodes })
}
