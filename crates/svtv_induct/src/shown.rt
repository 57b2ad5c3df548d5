// What a failing step shows: the values of the period's variables, and the valuation that those behind them stand for. Joined
// bits are one, so each bit of a wire is shown as the first bit of its class has it, whatever its own two variables say.
ghost use Rattle.std.specs.Prelude.{◌≡◌, ◌+◌, ◌<◌, ℕ, [], All, IfOk, IsTrue, length, map, slice_index_or};
ghost use Rattle.event_nets.specs.Tables.{store_of};
ghost use Rattle.fourvec.specs.Bits.{is_known};
ghost use Rattle.lhs_alias.specs.Lies.{LiesIn};
ghost use Rattle.lhs_alias.specs.Segs.{lhs_bits, seg_bits};
ghost use Rattle.svtv_table.specs.Stimuli.{IsChoice};
ghost use Rattle.svtv_induct.specs.Halves.{IsHalf};
ghost use Rattle.svtv_induct.specs.Showing.{AreOwnValues, AreSlices, HaveValues, IsShownStep, made_vector};
ghost use Rattle.svtv_induct.specs.States.{bits_in, with_vars};

use crate::half::{Half, Inducted, segs_at};
use flat_net::Valuation;
use fourvec::Four;
use items::Items;
use lhs_alias::{Lhs, Seg};
use std::alloc::{AllocError, Global};

// The bits that two vectors make.
fn made(up: &Four, low: &Four) -> Four
    requires alike { length up.now ≡ length low.now }
    requires up_known { IsTrue (is_known up.now) }
    requires low_known { IsTrue (is_known low.now) }
    ensures { result ≡ made_vector up.now low.now }
{
    Four::new(up.width(), up.up(), low.up())
}

// What the vectors make of each of so many wires.
fn own_values(
    alloc: Global,
    choice: &[Four],
    before: usize,
    wires: usize,
) -> Result<Vec<Four>, AllocError>
    requires many { length choice.now ≡ before + (wires + wires) }
    requires known { All (λ v. IsTrue (is_known v)) choice.now }
    requires alike { (n : ℕ) → n < wires → length (slice_index_or choice.now (before + n) []) ≡ length (slice_index_or choice.now (before + wires + n) []) }
    ensures { IfOk result (λ own. AreOwnValues choice.now before wires own.items wires) }
{
    // For the proof: recalls what the type promises of it.
    let _ = choice.len();
    let mut own = Vec::new(alloc);
    'wires: for at in 0..wires {
        let first = before + at;
        let value = made(&choice[first], &choice[first + wires]);
        own.push(value)?;
    }
    Ok(own)
}

// The bits of a segment.
fn slice(own: &[Four], seg: Seg) -> Four
    requires { LiesIn (map (λ v. length v) own.now) seg }
    ensures { result ≡ bits_in (store_of own.now) (seg_bits seg) }
{
    own[seg.wire].slice(seg.lo, seg.width)
}

// The bits of segments of wires, the most significant first.
fn joined(own: &[Four], segs: &[Seg]) -> Four
    requires { AreSlices (map (λ v. length v) own.now) segs.now }
    ensures { result ≡ bits_in (store_of own.now) (lhs_bits segs.now) }
{
    let mut all = slice(own, segs[0]);
    'segs: for at in 1..segs.len() {
        let low = slice(own, segs[at]);
        all = all.concat(&low);
    }
    all
}

// The valuation in which each bit is the first one of its class.
fn state(alloc: Global, own: &[Four], firsts: &[Lhs]) -> Result<Valuation, AllocError>
    requires { (n : ℕ) → n < length firsts.now → AreSlices (map (λ v. length v) own.now) (slice_index_or firsts.now n []) }
    ensures { IfOk result (λ v. HaveValues own.now firsts.now v.values (length firsts.now)) }
{
    let mut values = Items::new(alloc);
    'wires: for at in 0..firsts.len() {
        values.push(joined(own, segs_at(firsts, at)))?;
    }
    Ok(Valuation { values })
}

/// The failure of a step under a choice of the period's variables and of two for each wire.
pub(crate) fn failed_step(
    alloc: Global,
    half: &Half,
    at: usize,
    found: &[Four],
) -> Result<Inducted, AllocError>
    requires half { IsHalf half.now at }
    requires choice { IsChoice (with_vars half.now.bound half.now.fsm.flat.wires).vars found.now }
    ensures { IfOk result (IsShownStep half.now found.now) }
{
    let before = half.bound.vars.len();
    let own = own_values(alloc, found, before, half.fsm.flat.wires.len())?;
    let state = state(alloc, &own, half.firsts.as_slice())?;
    let choice = found[..before].to_vec(alloc)?;
    Ok(Inducted::StepFails {
        choice: Items::from_vec(choice),
        state,
    })
}
