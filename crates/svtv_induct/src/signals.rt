// The claims before a period: nodes of claims with those of the samples' wires in place of samples.
ghost use Rattle.std.specs.Prelude.{◌≡◌, ◌<◌, ℕ, [], All, IfOk, length, slice_index, slice_index_or};
ghost use Rattle.svex_arena.specs.Arenas.{Extends, IsArena};
ghost use Rattle.svex_arena.specs.Substs.{IsReplaced};
ghost use Rattle.svtv_induct.specs.Putting.{AreHypotheses, ArePresent, AreSignals, by_samples};

use items::Items;
use std::alloc::{AllocError, Global};
use svex_arena::{Arena, Node, Subst};
use svtv_table::Sample;

/// The claims of a number.
pub(crate) fn claims_of(claims: &[Items<Node>], at: usize) -> &[Node]
    requires { at < length claims.now }
    ensures { result.now ≡ slice_index_or claims.now at [] }
{
    claims[at].as_slice()
}

// The nodes of the samples' wires in a row.
fn signals_of(
    alloc: Global,
    samples: &[Sample],
    row: &[Option<Node>],
) -> Result<Vec<Node>, AllocError>
    requires { ArePresent samples.now row.now }
    ensures { IfOk result (λ nodes. AreSignals samples.now row.now nodes.items (length samples.now)) }
{
    let mut nodes = Vec::new(alloc);
    'samples: for at in 0..samples.len() {
        let node = row[samples[at].wire].unwrap();
        nodes.push(node)?;
    }
    Ok(nodes)
}

// Nodes in place of samples.
fn by_nodes(alloc: Global, nodes: &[Node]) -> Result<Subst, AllocError>
    ensures { IfOk result (λ by. by ≡ by_samples nodes.now) }
{
    let mut sampled = Vec::new(alloc);
    'nodes: for at in 0..nodes.len() {
        sampled.push(Some(nodes[at]))?;
    }
    Ok(Subst {
        present: Vec::new(alloc),
        previous: Vec::new(alloc),
        stim: Vec::new(alloc),
        chosen: Vec::new(alloc),
        sampled,
    })
}

// Claims with nodes in place of samples.
fn put_in(
    alloc: Global,
    arena: &mut Arena,
    nodes: &[Node],
    claims: &[Node],
) -> Result<Vec<Node>, AllocError>
    requires { All (λ node. node < length arena.old) claims.now }
    ensures put { IfOk result (λ hyps. IsReplaced arena.old (by_samples nodes.now) arena.new claims.now hyps.items) }
    ensures as_many { IfOk result (λ hyps. length hyps.items ≡ length claims.now) }
    ensures extends { Extends arena.old arena.new }
    ensures arena { IsArena arena.new }
{
    // For the proof: recalls what the type promises of it.
    let _ = arena.len();
    let by = by_nodes(alloc, nodes)?;
    arena.substitute(alloc, claims, &by)
}

/// The hypotheses of a step: its claims over the signals of a row.
pub(crate) fn hypotheses(
    alloc: Global,
    arena: &mut Arena,
    samples: &[Sample],
    row: &[Option<Node>],
    claims: &[Node],
) -> Result<Vec<Node>, AllocError>
    requires present { ArePresent samples.now row.now }
    requires claims { All (λ node. node < length arena.old) claims.now }
    ensures hyps { IfOk result (λ hyps. AreHypotheses samples.now row.now arena.old claims.now arena.new hyps.items) }
    ensures extends { Extends arena.old arena.new }
    ensures arena { IsArena arena.new }
{
    // For the proof: recalls what the type promises of it.
    let _ = arena.len();
    let signals = signals_of(alloc, samples, row)?;
    put_in(alloc, arena, &signals, claims)
}
