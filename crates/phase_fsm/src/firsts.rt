// First bits. A bit stands for its class of joined bits by the first bit of it, so a valuation in which joined bits are equal is given by the
// values of first bits alone: each wire has there what stands at the first bits of its bits.
ghost use Rattle.std.specs.Prelude.{◌≡◌, ◌<◌, ◌≤◌, ℕ, List, [], ◌∷◌, IfOk, length, map};
ghost use Rattle.driver_resolve.specs.Drivers.{wire_bits};
ghost use Rattle.flat_net.specs.Flats.{IsFlat};
ghost use Rattle.lhs_alias.specs.Joined.{Stands, widths_of as joined_widths};
ghost use Rattle.lhs_alias.specs.Lies.{LieIn};
ghost use Rattle.lhs_alias.specs.Segs.{lhs_bits};
ghost use Rattle.lhs_alias.specs.declared.segs.Seg.{Seg};
ghost use Rattle.phase_fsm.specs.Firsts.{HaveFirsts};
ghost use Rattle.settling.specs.Settling.{Link, first_bit};

use crate::machine::joins_of;
use event_nets::lay::wire_widths;
use flat_net::Flat;
use items::Items;
use lhs_alias::{Joins, Lhs, Seg};
use std::alloc::{AllocError, Global};

// The first bits of the bits of a wire, in their order.
fn firsts_in(alloc: Global, joins: &Joins, wire: usize, width: u8) -> Result<Lhs, AllocError>
    requires whole { LieIn (joined_widths joins.now) ((let s : Seg = record { wire = wire; lo = 0; width = width } in s) ∷ []) }
    ensures bits { IfOk result (λ firsts. (links : List Link) → Stands joins.now links → lhs_bits firsts ≡ map (first_bit links) (wire_bits wire width)) }
    ensures lie { IfOk result (LieIn (joined_widths joins.now)) }
{
    let mut whole = Vec::new(alloc);
    whole.push(Seg { wire, lo: 0, width })?;
    let whole = Lhs::from_vec(whole);
    joins.canon(&whole)
}

/// For each wire of a flat design the first bits of the classes of joined bits that its bits are in, in their order.
pub fn firsts_of(alloc: Global, flat: &Flat) -> Result<Items<Lhs>, AllocError>
    requires { IsFlat flat.now }
    ensures { IfOk result (λ firsts. HaveFirsts flat.now firsts (length flat.now.wires)) }
{
    let widths = wire_widths(alloc, flat.wires.as_slice())?;
    let joins = joins_of(alloc, flat, &widths)?;
    let mut firsts = Items::new(alloc);
    'wires: for at in 0..widths.len() {
        let own = firsts_in(alloc, &joins, at, widths[at])?;
        firsts.push(own)?;
    }
    Ok(firsts)
}
