// What names read of wires that a combinational block writes (IEEE 1800-2017, 9.2.2.2). A bit that the block writes somewhere
// reads the store, and any other the present phase. Bits of both kinds may lie in one wire: runs of one kind are put side by
// side, so that a wire of which all bits are written is just its node.
ghost use Rattle.std.specs.Prelude.{◌≡◌, ℕ, ◌<◌, ◌≤◌, ◌+◌, length, IfOk};
ghost use Rattle.svex_shape.specs.Shapes.{width_at};
ghost use Rattle.svex_arena.specs.Arenas.{Extends};
ghost use Rattle.sv_stores.specs.Scenes.{mark_at, are_marked, width_in, IsScene, Shows};
ghost use Rattle.sv_blocks.specs.Sides.{Mixes, IsSide};

use std::alloc::{AllocError, Global};
use sv_lower::{beside, make, sliced};
use sv_stores::Scene;
use svex_arena::{Arena, Node, Shape, VarName};

/// Whether a bit of the wire at a place is marked.
pub fn is_marked(marks: &[bool], at: usize, bit: u8) -> bool
    ensures { result ≡ mark_at marks.now at bit }
{
    if bit >= 128 {
        return false;
    }
    let Some(first) = at.checked_mul(128) else {
        return false;
    };
    let Some(index) = first.checked_add(bit as usize) else {
        return false;
    };
    if index < marks.len() {
        marks[index]
    } else {
        false
    }
}

// Whether the first so many bits of the wire at a place are marked.
#[tactic(auto, using(crate::proofs::Siding::marked_none, crate::proofs::Siding::marked_more, crate::proofs::Siding::marked_not))]
fn are_marked(marks: &[bool], at: usize, width: u8) -> bool
    ensures { result ≡ are_marked marks.now at width }
{
    'bits: for bit in 0..width {
        if !is_marked(marks, at, bit) {
            return false;
        }
    }
    true
}

// Where the bits end that are marked as one is, from this on.
fn run_end(marks: &[bool], at: usize, from: u8, width: u8) -> u8
    requires { from < width }
    ensures above { from < result }
    ensures within { result ≤ width }
    ensures same { (k : ℕ) → from ≤ k → k < result → mark_at marks.now at k ≡ mark_at marks.now at from }
{
    let first = is_marked(marks, at, from);
    'bits: for bit in from + 1..width {
        if is_marked(marks, at, bit) != first {
            return bit;
        }
    }
    width
}

// So many bits of one of two nodes, by the mark of the first.
fn side(
    alloc: Global,
    arena: &mut Arena,
    marks: &[bool],
    at: usize,
    stored: Node,
    now: Node,
    from: u8,
    count: u8,
) -> Result<Node, AllocError>
    requires stored { stored < length arena.old }
    requires now { now < length arena.old }
    requires some { 1 ≤ count }
    requires stored_width { from + count ≤ width_at arena.old stored }
    requires now_width { from + count ≤ width_at arena.old now }
    ensures stays { Extends arena.old arena.new }
    ensures ok { IfOk result (λ n. IsSide (mark_at marks.now at from) arena.old arena.new stored now from count n) }
{
    if is_marked(marks, at, from) {
        let node = sliced(alloc, arena, stored, from, count)?;
        Ok(node)
    } else {
        let node = sliced(alloc, arena, now, from, count)?;
        Ok(node)
    }
}

// Bits of two nodes side by side, each by its mark.
fn mixed(
    alloc: Global,
    arena: &mut Arena,
    marks: &[bool],
    at: usize,
    stored: Node,
    now: Node,
    width: u8,
) -> Result<Node, AllocError>
    requires stored { stored < length arena.old }
    requires now { now < length arena.old }
    requires some { 1 ≤ width }
    requires most { width ≤ 128 }
    requires stored_width { width_at arena.old stored ≡ width }
    requires now_width { width_at arena.old now ≡ width }
    ensures stays { Extends arena.old arena.new }
    ensures ok { IfOk result (λ n. Mixes marks.now at arena.old arena.new stored now width n) }
{
    let mut from = run_end(marks, at, 0, width);
    let mut whole = side(alloc, arena, marks, at, stored, now, 0, from)?;
    'runs: while from < width {
        // For the proof: recalls what the type promises of it.
        let _ = arena.len();
        let end = run_end(marks, at, from, width);
        let part = side(alloc, arena, marks, at, stored, now, from, end - from)?;
        whole = beside(alloc, arena, part, whole)?;
        from = end;
    }
    Ok(whole)
}

/// What a name of the wire at a place reads, where the store has a node there: a bit that the block writes reads the store, and any
/// other the present phase.
pub fn shown(
    alloc: Global,
    arena: &mut Arena,
    scene: &Scene,
    at: usize,
    node: Node,
) -> Result<Node, AllocError>
    requires scene { IsScene scene.now }
    requires at { at < length scene.now.wires }
    requires node { node < length arena.old }
    requires width { width_at arena.old node ≡ width_in scene.now at }
    ensures stays { Extends arena.old arena.new }
    ensures ok { IfOk result (λ n. Shows scene.now arena.new at node n) }
{
    let marks = scene.marks.as_slice();
    let width = scene.widths.as_slice()[at];
    if are_marked(marks, at, width) {
        return Ok(node);
    }
    let name = VarName::Now(scene.wires.as_slice()[at]);
    let now = make(alloc, arena, Shape::Var(name, width))?;
    let node = mixed(alloc, arena, marks, at, node, now, width)?;
    Ok(node)
}
