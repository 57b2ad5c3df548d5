//! The scene before the first round: each equation has a node that is X at each bit of its segment, and none is settled. X lies
//! below each value, so rounds that begin there come to the least solution.

ghost use Rattle.std.specs.Prelude.{◌≡◌, ℕ, ◌<◌, ◌≤◌, ◌+◌, List, length, map, IfOk, OnOk};
ghost use Rattle.lhs_alias.specs.declared.segs.Seg.{Seg};
ghost use Rattle.lhs_alias.specs.Segs.{IsSeg};
ghost use Rattle.svex_arena.specs.Arenas.{IsArena, Extends};
ghost use Rattle.net_equations.specs.Equations.{seg_at};
ghost use Rattle.svex_compose.specs.Starting.{AreStarted, IsStart};

use compose_rounds::{Scene, Segments, unknown};
use driver_resolve::{NetEq, Resolved};
use lhs_alias::Seg;
use std::alloc::{AllocError, Global};
use svex_arena::{Arena, Node, Shape};

// Adds a node that is X at so many bits.
fn start_node(
    arena: &mut Arena,
    alloc: Global,
    width: u8,
    nodes: &mut Vec<Node>,
) -> Result<(), AllocError>
    requires some { 0 < width }
    requires most { width ≤ 128 }
    ensures started { OnOk result ((segs : List Seg) → (seg_at segs (length nodes.old.items)).width ≡ width → AreStarted arena.old segs nodes.old.items (length nodes.old.items)
        → AreStarted arena.new segs nodes.new.items (length nodes.new.items)) }
    ensures len { OnOk result (length nodes.new.items ≡ length nodes.old.items + 1) }
    ensures extends { Extends arena.old arena.new }
    ensures arena { IsArena arena.new }
{
    // For the proof: recalls what the type promises of it.
    let _ = arena.len();
    let node = arena.intern(alloc, Shape::Const(unknown(width)))?;
    nodes.push(node)?;
    Ok(())
}

// A node for each equation that is X at each bit of its segment.
fn start_nodes(arena: &mut Arena, alloc: Global, eqs: &[NetEq]) -> Result<Vec<Node>, AllocError>
    requires arena { IsArena arena.old }
    requires segs { (i : ℕ) → i < length eqs.now → IsSeg (seg_at (map (λ e. e.seg) eqs.now) i) }
    ensures started { IfOk result (λ n. AreStarted arena.new (map (λ e. e.seg) eqs.now) n.items (length eqs.now)) }
    ensures extends { Extends arena.old arena.new }
    ensures arena { IsArena arena.new }
{
    let mut nodes = Vec::new(alloc);
    'eqs: for at in 0..eqs.len() {
        start_node(arena, alloc, eqs[at].seg.width, &mut nodes)?;
    }
    Ok(nodes)
}

/// The segments of equations.
pub fn segs_of(alloc: Global, eqs: &[NetEq]) -> Result<Vec<Seg>, AllocError>
    ensures { IfOk result (λ s. s.items ≡ map (λ e. e.seg) eqs.now) }
{
    let mut segs = Vec::new(alloc);
    'eqs: for at in 0..eqs.len() {
        segs.push(eqs[at].seg)?;
    }
    Ok(segs)
}

fn values_of(alloc: Global, eqs: &[NetEq]) -> Result<Vec<Node>, AllocError>
    ensures { IfOk result (λ v. v.items ≡ map (λ e. e.value) eqs.now) }
{
    let mut values = Vec::new(alloc);
    'eqs: for at in 0..eqs.len() {
        values.push(eqs[at].value)?;
    }
    Ok(values)
}

/// The segments of equations and the free ones.
pub fn segments_of(alloc: Global, set: &Resolved) -> Result<Segments, AllocError>
    ensures { IfOk result (λ s. s ≡ record { eqs = map (λ e. e.seg) set.now.eqs; free = set.now.free }) }
{
    let segs = segs_of(alloc, set.eqs.as_slice())?;
    let free = set.free.as_slice().to_vec(alloc)?;
    Segments::new(alloc, segs, free)
}

/// The scene before the first round.
pub fn start(arena: &mut Arena, alloc: Global, set: &Resolved) -> Result<Scene, AllocError>
    requires arena { IsArena arena.old }
    requires segs { (i : ℕ) → i < length set.now.eqs → IsSeg (seg_at (map (λ e. e.seg) set.now.eqs) i) }
    ensures start { IfOk result (IsStart arena.new set.now) }
    ensures extends { Extends arena.old arena.new }
    ensures arena { IsArena arena.new }
{
    // For the proof: recalls what the type promises of it.
    let _ = arena.len();
    let segments = segments_of(alloc, set)?;
    let values = values_of(alloc, set.eqs.as_slice())?;
    let settled = vec![in alloc; false; set.eqs.len()]?;
    let nodes = start_nodes(arena, alloc, set.eqs.as_slice())?;
    Ok(Scene {
        segments,
        values,
        nodes,
        settled,
    })
}
