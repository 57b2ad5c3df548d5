// The gates of nodes that read the variables of a table alone.
ghost use Rattle.std.specs.Prelude.{◌≡◌, ◌+◌, ◌<◌, ◌≤◌, ◌∷◌, [], ℕ, All, IfOk, OnOk, length, take, drop};
ghost use Rattle.aig.specs.declared.gate.Gate.TheVariants.{False};
ghost use Rattle.goal_gates.specs.Gating.{AreTold, AreFew};

use crate::truths::literals;
use aig::{Aig, Lit};
use std::alloc::{AllocError, Global};
use svex_arena::{Arena, Node};
use svex_blast::{Rails, blast};
use svtv_table::VarDecl;

fn behind(rails: &[Rails], count: usize) -> &[Rails]
    requires { count ≤ length rails.now }
    ensures { result.now ≡ drop count rails.now }
{
    &rails[count..]
}

/// The literals of the first nodes as hypotheses and of the others as claims, over a new graph.
pub fn gates_of(
    alloc: Global,
    arena: &Arena,
    aig: &mut Aig,
    roots: &[Node],
    count: usize,
    vars: &[VarDecl],
) -> Result<(Lit, Lit), AllocError>
    requires roots { All (λ node. node < length arena.now) roots.now }
    requires count { count ≤ length roots.now }
    requires empty { aig.old ≡ False ∷ [] }
    ensures told { IfOk result (λ p. AreTold vars.now arena.now (take count roots.now) (drop count roots.now) aig.new p.0 p.1) }
    ensures few { OnOk result (AreFew vars.now arena.now roots.now aig.new) }
{
    // For the proof: recalls what the type promises of it.
    let _ = arena.len();
    let rails = blast(alloc, arena, aig, roots, vars)?;
    let literals = literals(aig, &rails[..count], behind(&rails, count))?;
    Ok(literals)
}
