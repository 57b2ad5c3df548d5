//! The rounds of a group.
//!
//! In a round each member takes what its equation gives over the nodes so far. The rounds end where a round gives the very nodes of the
//! round before, or where what it gave rests on no member; and at the latest after as many rounds as the members have bits, since each
//! round before that makes one bit at least known.

ghost use Rattle.std.specs.Prelude.{◌≡◌, ◌⊎◌, ℕ, ◌<◌, ◌≤◌, IsTrue, IfOk, OnOk, length, slice_index, slice_set};
ghost use Rattle.svex_arena.specs.Arenas.{IsArena, Extends};
ghost use Rattle.net_equations.specs.Groups.{bits_in};
ghost use Rattle.compose_rounds.specs.Rounds.{EachMember};
ghost use Rattle.compose_rounds.specs.Turns.{HasValues, IsPut, IsReady, AreOpen, IsTurn, IsSettled, OnlyNodes};

use crate::reaching::reach_all;
use crate::scene::Scene;
use lhs_alias::Joins;
use node_replace::Replacer;
use std::alloc::{AllocError, Global};
use svex_arena::{Arena, Node};

// Gives a member a node, and says whether it had it already.
fn put(nodes: &mut Vec<Node>, member: usize, node: Node) -> bool
    requires { member < length nodes.old.items }
    ensures put { nodes.new.items ≡ slice_set nodes.old.items member node }
    ensures same { IsTrue result → nodes.new.items ≡ nodes.old.items }
{
    if nodes[member] == node {
        return true;
    }
    nodes[member] = node;
    false
}

// Gives members the answers for their values, and says whether each had its answer already.
fn put_all(replacer: &Replacer, values: &[Node], members: &[usize], nodes: &mut Vec<Node>) -> bool
    requires values { HasValues values.now replacer.now.answers.items }
    requires members { EachMember (λ i. i < length values.now) members.now }
    requires nodes { length nodes.old.items ≡ length values.now }
    ensures put { IsPut replacer.now.answers.items values.now members.now nodes.old.items nodes.new.items (length members.now) }
    ensures same { IsTrue result → nodes.new.items ≡ nodes.old.items }
{
    let mut same = true;
    'members: for at in 0..members.len() {
        let answer = replacer.answer_of(values[members[at]]);
        same = put(nodes, members[at], answer) && same;
    }
    same
}

// Whether members are at rest: each had its answer already, or none of the answers rests on a member.
fn is_at_rest(same: bool, fixed: bool) -> bool
    ensures { IsTrue result → IsTrue same ⊎ IsTrue fixed }
{
    same || fixed
}

// One turn of the members. Says whether they are known to be at rest.
fn round(
    arena: &mut Arena,
    alloc: Global,
    joins: &Joins,
    scene: &mut Scene,
    replacer: &mut Replacer,
    members: &[usize],
) -> Result<bool, AllocError>
    requires ready { IsReady joins.now arena.old scene.old replacer.old }
    requires open { AreOpen scene.old.segments.eqs scene.old.settled.items members.now }
    ensures ready { OnOk result (IsReady joins.now arena.new scene.new replacer.new) }
    ensures turn { OnOk result (IsTurn joins.now arena.old arena.new scene.old.segments.eqs scene.old.values.items members.now scene.old.nodes.items scene.new.nodes.items) }
    ensures rest { IfOk result (λ rest. IsTrue rest → IsSettled joins.now arena.new scene.old.segments.eqs scene.old.values.items members.now scene.new.nodes.items) }
    ensures only { OnOk result (OnlyNodes scene.old scene.new) }
    ensures extends { Extends arena.old arena.new }
    ensures arena { IsArena arena.new }
{
    // For the proof: recalls what the type promises of it.
    let _ = arena.len();
    reach_all(arena, alloc, joins, scene, replacer, members)?;
    let same = put_all(replacer, &scene.values, members, &mut scene.nodes);
    let fixed = replacer.is_fixed();
    replacer.forget();
    Ok(is_at_rest(same, fixed))
}

/// Rounds of the members of a group, which have so many bits at most, until they have what their equations give.
pub fn settle(
    arena: &mut Arena,
    alloc: Global,
    joins: &Joins,
    scene: &mut Scene,
    replacer: &mut Replacer,
    members: &[usize],
    bits: usize,
) -> Result<(), AllocError>
    requires ready { IsReady joins.now arena.old scene.old replacer.old }
    requires open { AreOpen scene.old.segments.eqs scene.old.settled.items members.now }
    requires enough { bits_in scene.old.segments.eqs members.now ≤ bits }
    ensures ready { OnOk result (IsReady joins.now arena.new scene.new replacer.new) }
    ensures settled { OnOk result (IsSettled joins.now arena.new scene.old.segments.eqs scene.old.values.items members.now scene.new.nodes.items) }
    ensures others { OnOk result ((i : ℕ) → EachMember (λ j. i ≡ j → ⊥) members.now → slice_index scene.new.nodes.items i ≡ slice_index scene.old.nodes.items i) }
    ensures only { OnOk result (OnlyNodes scene.old scene.new) }
    ensures extends { Extends arena.old arena.new }
    ensures arena { IsArena arena.new }
{
    // For the proof: recalls what the type promises of it.
    let _ = arena.len();
    'rounds: for _round in 0..bits {
        if round(arena, alloc, joins, scene, replacer, members)? {
            return Ok(());
        }
    }
    Ok(())
}
