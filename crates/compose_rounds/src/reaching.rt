//! What equations give over the nodes so far: their values, in which each present variable stands for the bits of its wire.
//!
//! An answer is loose where it rests on segments that are not settled yet: such answers are taken back between rounds, all others stay.

ghost use Rattle.std.specs.Prelude.{◌≡◌, ℕ, ◌<◌, ◌≤◌, length, IsTrue, IfOk, OnOk};
ghost use Rattle.lhs_alias.specs.Joined.{widths_of};
ghost use Rattle.svex_shape.specs.declared.shape.Shape.TheVariants.{Var};
ghost use Rattle.svex_shape.specs.Shapes.{shape_at};
ghost use Rattle.svex_arena.specs.Arenas.{IsArena, Extends};
ghost use Rattle.svex_arena.specs.Marks.{IsMarked};
ghost use Rattle.node_replace.specs.Walks.{Keeps, is_variable};
ghost use Rattle.compose_rounds.specs.Rounds.{EachMember};
ghost use Rattle.compose_rounds.specs.Answers.{StandsIn, IsInner};
ghost use Rattle.compose_rounds.specs.Turns.{IsScene, IsMemoOf, HasValues, HaveAnswers};

use crate::scene::Scene;
use crate::wires::wire_node;
use lhs_alias::Joins;
use node_replace::Replacer;
use std::alloc::{AllocError, Global};
use svex_arena::{Arena, Node, Shape, VarName};

// The answer for a variable by its name, and whether it is loose.
fn named(
    arena: &mut Arena,
    alloc: Global,
    joins: &Joins,
    scene: &Scene,
    node: Node,
    name: &VarName,
    width: u8,
) -> Result<(Node, bool), AllocError>
    requires scene { IsScene joins.now arena.old scene.now }
    requires inner { IsInner (widths_of joins.now) arena.old node }
    requires is { shape_at arena.old node ≡ Var name.now width }
    requires some { 0 < width }
    requires most { width ≤ 128 }
    ensures stands { IfOk result (λ p. StandsIn joins.now arena.new scene.now.segments.eqs scene.now.nodes.items scene.now.settled.items p.1 node p.0) }
    ensures extends { Extends arena.old arena.new }
    ensures arena { IsArena arena.new }
{
    // For the proof: recalls what the type promises of it.
    let _ = arena.len();
    match name {
        VarName::Now(wire) => wire_node(arena, alloc, joins, scene, *wire, width),
        _ => Ok((node, false)),
    }
}

// The answer for a variable, and whether it is loose.
fn variable(
    arena: &mut Arena,
    alloc: Global,
    joins: &Joins,
    scene: &Scene,
    node: Node,
) -> Result<(Node, bool), AllocError>
    requires scene { IsScene joins.now arena.old scene.now }
    requires inner { IsInner (widths_of joins.now) arena.old node }
    requires variable { IsTrue (is_variable (shape_at arena.old node)) }
    ensures stands { IfOk result (λ p. StandsIn joins.now arena.new scene.now.segments.eqs scene.now.nodes.items scene.now.settled.items p.1 node p.0) }
    ensures extends { Extends arena.old arena.new }
    ensures arena { IsArena arena.new }
{
    // For the proof: recalls what the type promises of it.
    let _ = arena.len();
    let shape = arena.shape(node);
    match &shape {
        Shape::Var(name, width) => named(arena, alloc, joins, scene, node, name, *width),
        _ => Ok((node, false)),
    }
}

// Answers a node, with all that it reaches and that has no answer yet.
fn reach(
    arena: &mut Arena,
    alloc: Global,
    joins: &Joins,
    scene: &Scene,
    replacer: &mut Replacer,
    root: Node,
) -> Result<(), AllocError>
    requires scene { IsScene joins.now arena.old scene.now }
    requires memo { IsMemoOf joins.now arena.old scene.now replacer.old }
    requires root { IsInner (widths_of joins.now) arena.old root }
    requires below { root < length replacer.old.answers.items }
    ensures memo { OnOk result (IsMemoOf joins.now arena.new scene.now replacer.new) }
    ensures has { OnOk result (IsMarked replacer.new.marks.items root) }
    ensures kept { OnOk result (Keeps replacer.old.marks.items replacer.new.marks.items) }
    ensures size { OnOk result (length replacer.new.answers.items ≡ length replacer.old.answers.items) }
    ensures extends { Extends arena.old arena.new }
    ensures arena { IsArena arena.new }
{
    // For the proof: recalls what the type promises of it.
    let _ = arena.len();
    replacer.begin(arena, root)?;
    let mut next = replacer.next_variable(arena, alloc)?;
    'variables: while let Some(node) = next {
        let (answer, loose) = variable(arena, alloc, joins, scene, node)?;
        replacer.give(arena, node, answer, loose)?;
        next = replacer.next_variable(arena, alloc)?;
    }
    Ok(())
}

/// Answers the values of members.
pub fn reach_all(
    arena: &mut Arena,
    alloc: Global,
    joins: &Joins,
    scene: &Scene,
    replacer: &mut Replacer,
    members: &[usize],
) -> Result<(), AllocError>
    requires scene { IsScene joins.now arena.old scene.now }
    requires memo { IsMemoOf joins.now arena.old scene.now replacer.old }
    requires values { HasValues scene.now.values.items replacer.old.answers.items }
    requires members { EachMember (λ i. i < length scene.now.values.items) members.now }
    ensures memo { OnOk result (IsMemoOf joins.now arena.new scene.now replacer.new) }
    ensures have { OnOk result (HaveAnswers replacer.new.marks.items scene.now.values.items members.now) }
    ensures size { OnOk result (length replacer.new.answers.items ≡ length replacer.old.answers.items) }
    ensures extends { Extends arena.old arena.new }
    ensures arena { IsArena arena.new }
{
    // For the proof: recalls what the type promises of it.
    let _ = arena.len();
    'members: for at in 0..members.len() {
        reach(
            arena,
            alloc,
            joins,
            scene,
            replacer,
            scene.values[members[at]],
        )?;
    }
    Ok(())
}
