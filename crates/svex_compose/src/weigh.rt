//! The number of the bits of a group.

ghost use Rattle.std.specs.Prelude.{◌≡◌, ℕ, ◌<◌, ◌+◌, length, map, IfOk, OnOk};
ghost use Rattle.net_equations.specs.Groups.{bits_in};
ghost use Rattle.compose_rounds.specs.Rounds.{EachMember};

use driver_resolve::NetEq;
use lhs_alias::{Seg, WireBit};
use std::alloc::{AllocError, Global};

// Puts the bits of a segment behind others.
fn add_bits(bits: &mut Vec<WireBit>, seg: Seg) -> Result<(), AllocError>
    ensures { OnOk result (length bits.new.items ≡ seg.width + length bits.old.items) }
{
    'bits: for at in 0..seg.width {
        bits.push(WireBit {
            wire: seg.wire,
            at: seg.lo.saturating_add(at),
        })?;
    }
    Ok(())
}

/// The number of the bits of members. They are counted by a list of them, since their number alone need not fit a machine word.
pub fn weigh(alloc: Global, eqs: &[NetEq], members: &[usize]) -> Result<usize, AllocError>
    requires { EachMember (λ i. i < length eqs.now) members.now }
    ensures { IfOk result (λ n. n ≡ bits_in (map (λ e. e.seg) eqs.now) members.now) }
{
    let mut bits = Vec::new(alloc);
    let mut at = members.len();
    'members: while 0 < at {
        at -= 1;
        add_bits(&mut bits, eqs[members[at]].seg)?;
    }
    Ok(bits.len())
}
