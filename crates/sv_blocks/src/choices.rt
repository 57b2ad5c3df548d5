// Choices between nodes by a truth: of two stores whole, where a block ends, and of what two branches lay over one store. There only the
// places that one of them wrote are chosen, so that an `if` costs what stands in it, and not what the block has. A choice between equal
// nodes makes no node.
ghost use Rattle.std.specs.Prelude.{◌≡◌, ◌≢◌, ℕ, ◌<◌, length, IfOk, OnOk};
ghost use Rattle.svex_shape.specs.Shapes.{width_at};
ghost use Rattle.svex_arena.specs.Arenas.{Extends};
ghost use Rattle.svex_arena.specs.Substs.{entry_at};
ghost use Rattle.fourvec.specs.Bits.{pick_of};
ghost use Rattle.sv_lower.specs.Nodes.{FromThree};
ghost use Rattle.sv_stores.specs.Scenes.{IsScene, AreNodes};
ghost use Rattle.sv_blocks.specs.Sides.{Merges, ChosenAt};
ghost use Rattle.sv_blocks.specs.Overlays.{over, Covers};

use crate::overlay::Overlay;
use items::Items;
use std::alloc::{AllocError, Global};
use sv_lower::make;
use sv_stores::Scene;
use svex_arena::{Arena, Node, Shape};

// One of two nodes of one width, by a truth.
fn chosen(
    alloc: Global,
    arena: &mut Arena,
    truth: Node,
    a: Node,
    b: Node,
) -> Result<Node, AllocError>
    requires truth { truth < length arena.old }
    requires a { a < length arena.old }
    requires b { b < length arena.old }
    requires one { width_at arena.old truth ≡ 1 }
    requires same { width_at arena.old a ≡ width_at arena.old b }
    ensures stays { Extends arena.old arena.new }
    ensures ok { IfOk result (λ n. FromThree arena.old arena.new (λ c x y. pick_of c x y) truth a b (width_at arena.old a) n) }
{
    // For the proof: recalls what the type promises of it.
    let _ = arena.len();
    if a == b {
        return Ok(a);
    }
    let node = make(alloc, arena, Shape::Pick(truth, a, b))?;
    Ok(node)
}

/// The nodes of one of two stores, by a truth.
#[tactic(auto, using(svex_arena::proofs::Keeping::extends_on))]
pub fn merged(
    alloc: Global,
    arena: &mut Arena,
    scene: &Scene,
    truth: Node,
    a: &[Node],
    b: &[Node],
) -> Result<Items<Node>, AllocError>
    requires scene { IsScene scene.now }
    requires truth { truth < length arena.old }
    requires one { width_at arena.old truth ≡ 1 }
    requires a { AreNodes scene.now arena.old a.now }
    requires b { AreNodes scene.now arena.old b.now }
    ensures stays { Extends arena.old arena.new }
    ensures ok { IfOk result (λ nodes. Merges scene.now arena.old arena.new truth a.now b.now nodes) }
{
    // For the proof: recalls what the type promises of it.
    let _ = scene.wires.len();
    let _ = arena.len();
    let mut nodes = Items::new(alloc);
    'nodes: for at in 0..a.len() {
        let node = chosen(alloc, arena, truth, a[at], b[at])?;
        nodes.push(node)?;
    }
    Ok(nodes)
}

// Chooses between what two branches lay over one place.
fn choose_at(
    alloc: Global,
    arena: &mut Arena,
    scene: &Scene,
    truth: Node,
    a: &Overlay,
    b: &Overlay,
    nodes: &[Node],
    at: usize,
    both: &mut Overlay,
) -> Result<(), AllocError>
    requires scene { IsScene scene.now }
    requires truth { truth < length arena.old }
    requires one { width_at arena.old truth ≡ 1 }
    requires a { AreNodes scene.now arena.old (over a.now nodes.now) }
    requires b { AreNodes scene.now arena.old (over b.now nodes.now) }
    ensures stays { Extends arena.old arena.new }
    ensures chosen { OnOk result (at < length nodes.now → ChosenAt arena.old arena.new truth (over a.now nodes.now) (over b.now nodes.now) (over both.new nodes.now) at) }
    ensures others { OnOk result ((i : ℕ) → i ≢ at → entry_at both.new i ≡ entry_at both.old i) }
{
    // For the proof: recalls what the type promises of it.
    let _ = scene.wires.len();
    if at >= nodes.len() {
        return Ok(());
    }
    let stood = nodes[at];
    let left = a.node_over(at, stood);
    let right = b.node_over(at, stood);
    let node = chosen(alloc, arena, truth, left, right)?;
    both.put(at, node)
}

// Chooses between what two branches lay over these places.
#[tactic(auto, using(svex_arena::proofs::Keeping::extends_on))]
fn choose_places(
    alloc: Global,
    arena: &mut Arena,
    scene: &Scene,
    truth: Node,
    a: &Overlay,
    b: &Overlay,
    nodes: &[Node],
    places: &[usize],
) -> Result<Overlay, AllocError>
    requires scene { IsScene scene.now }
    requires truth { truth < length arena.old }
    requires one { width_at arena.old truth ≡ 1 }
    requires a { AreNodes scene.now arena.old (over a.now nodes.now) }
    requires b { AreNodes scene.now arena.old (over b.now nodes.now) }
    requires left { Covers places.now a.now }
    requires right { Covers places.now b.now }
    ensures stays { Extends arena.old arena.new }
    ensures ok { IfOk result (λ both. Merges scene.now arena.old arena.new truth (over a.now nodes.now) (over b.now nodes.now) (over both nodes.now)) }
{
    // For the proof: recalls what the type promises of it.
    let _ = scene.wires.len();
    let _ = arena.len();
    let mut both = Overlay::new(alloc);
    'places: for at in 0..places.len() {
        choose_at(
            alloc, arena, scene, truth, a, b, nodes, places[at], &mut both,
        )?;
    }
    Ok(both)
}

/// What lies over a store where one of two branches is taken, by a truth.
pub fn either(
    alloc: Global,
    arena: &mut Arena,
    scene: &Scene,
    truth: Node,
    a: &Overlay,
    b: &Overlay,
    nodes: &[Node],
) -> Result<Overlay, AllocError>
    requires scene { IsScene scene.now }
    requires truth { truth < length arena.old }
    requires one { width_at arena.old truth ≡ 1 }
    requires a { AreNodes scene.now arena.old (over a.now nodes.now) }
    requires b { AreNodes scene.now arena.old (over b.now nodes.now) }
    ensures stays { Extends arena.old arena.new }
    ensures ok { IfOk result (λ both. Merges scene.now arena.old arena.new truth (over a.now nodes.now) (over b.now nodes.now) (over both nodes.now)) }
{
    let mut places = a.places(alloc)?;
    places.append(b.places(alloc)?)?;
    choose_places(alloc, arena, scene, truth, a, b, nodes, places.as_slice())
}
