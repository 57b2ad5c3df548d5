// The two halves of an induction, of one flat design. Each has a graph of its own, since the machine of a table takes its flat design; the
// claims stand in the design's graph before it is copied, so they have the same numbers and values in both.
ghost use Rattle.std.specs.Prelude.{◌≡◌, ℕ, All, IfOk, Err};
ghost use Rattle.design_loops.specs.Loops.{HasWideLoop};
ghost use Rattle.flat_net.specs.Flats.{IsFlat};
ghost use Rattle.net_equations.specs.declared.group.ComposeErr.TheVariants.{LoopTooWide};
ghost use Rattle.sv_meaning.specs.Designs.{Design};
ghost use Rattle.svtv_invariants.specs.Halving.{AreHalvesOf, HasClaims, IsMadeOf, claims_in};
ghost use Rattle.svtv_least.specs.Passed.{IsElaborated};
ghost use Rattle.svtv_periods.specs.Periods.{AreAlike, AreLast, stretch_of};
ghost use Rattle.svtv_table.specs.Binding.{HasWidth, IsBound};

use flat_net::Flat;
use flat_print::copy_flat;
use goal_text::Goal;
use items::Items;
use lhs_alias::Lhs;
use net_equations::ComposeErr;
use std::alloc::{AllocError, Global};
use svex_arena::Node;
use svtv_induct::Half;
use svtv_machine::{firsts_of, machine_of};
use svtv_table::Bound;

/// The half of the reset, and that of the period.
#[derive(Drop)]
pub struct Halves {
    pub base: Half,
    pub step: Half,
}

fn copy_firsts(alloc: Global, firsts: &[Lhs]) -> Result<Items<Lhs>, AllocError>
    ensures { IfOk result (λ copies. copies ≡ firsts.now) }
{
    let mut copies = Items::new(alloc);
    'firsts: for own in firsts {
        copies.push(own.copy()?)?;
    }
    Ok(copies)
}

fn copy_nodes(alloc: Global, nodes: &[Node]) -> Result<Items<Node>, AllocError>
    ensures { IfOk result (λ copies. copies ≡ nodes.now) }
{
    let copies = nodes.to_vec(alloc)?;
    Ok(Items::from_vec(copies))
}

// The claims of each goal.
fn claims_of(alloc: Global, goals: &[Goal]) -> Result<Items<Items<Node>>, AllocError>
    ensures { IfOk result (λ claims. claims ≡ claims_in goals.now) }
{
    let mut claims = Items::new(alloc);
    'goals: for goal in goals {
        claims.push(copy_nodes(alloc, goal.claims.as_slice())?)?;
    }
    Ok(claims)
}

// The half of a table.
fn half_of(
    alloc: Global,
    flat: &Flat,
    bound: Bound,
    firsts: &[Lhs],
    goals: &[Goal],
) -> Result<Half, ComposeErr>
    requires { IsFlat flat.now }
    ensures made { IfOk result (IsMadeOf flat.now bound firsts.now goals.now) }
    ensures wide { (bits : ℕ) → result ≡ Err (LoopTooWide bits) → (d : Design) → IsElaborated d flat.now → HasWideLoop d bits }
{
    let firsts = copy_firsts(alloc, firsts)?;
    let claims = claims_of(alloc, goals)?;
    let own = copy_flat(alloc, flat)?;
    match machine_of(alloc, own, &bound) {
        Ok(fsm) => Ok(Half {
            fsm,
            bound,
            firsts,
            claims,
        }),
        Err(error) => Err(error),
    }
}

/// The halves of a flat design, with goals whose claims are nodes of its graph, over the samples of the period's table. A refusal says that
/// wires with so many bits, over 1,024, feed each other.
pub fn halves_of(
    alloc: Global,
    flat: &Flat,
    reset: Bound,
    period: Bound,
    goals: &[Goal],
) -> Result<Halves, ComposeErr>
    requires flat { IsFlat flat.now }
    requires reset { IsBound flat.now.wires reset }
    requires period { IsBound flat.now.wires period }
    requires reset_widths { All (λ var. HasWidth var.width) reset.vars }
    requires period_widths { All (λ var. HasWidth var.width) period.vars }
    requires reset_last { AreLast (stretch_of reset) }
    requires period_last { AreLast (stretch_of period) }
    requires alike { AreAlike reset.samples period.samples }
    requires claims { All (HasClaims flat.now.arena period.samples) goals.now }
    ensures halves { IfOk result (λ h. AreHalvesOf flat.now goals.now h.base h.step) }
    ensures reset { IfOk result (λ h. h.base.bound ≡ reset) }
    ensures period { IfOk result (λ h. h.step.bound ≡ period) }
    ensures wide { (bits : ℕ) → result ≡ Err (LoopTooWide bits) → (d : Design) → IsElaborated d flat.now → HasWideLoop d bits }
{
    let firsts = firsts_of(alloc, flat)?;
    let base = match half_of(alloc, flat, reset, firsts.as_slice(), goals) {
        Ok(base) => base,
        Err(error) => return Err(error),
    };
    match half_of(alloc, flat, period, firsts.as_slice(), goals) {
        Ok(step) => Ok(Halves { base, step }),
        Err(error) => Err(error),
    }
}
