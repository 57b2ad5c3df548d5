//! Nodes for equations, group by group, each behind those on which it depends, so that all else that a group reads is settled. A
//! group is settled in rounds, of which one is enough for an equation that does not reach itself. A group of over 1,024 bits is
//! refused: it may take as many rounds as it has bits.

ghost use Rattle.std.specs.Prelude.{◌≡◌, ℕ, ◌<◌, ◌≤◌, List, length, map, IfOk, OnOk, Err, Some, None};
ghost use Rattle.svex_arena.specs.Arenas.{IsArena, Extends};
ghost use Rattle.net_equations.specs.declared.group.ComposeErr.TheVariants.{LoopTooWide};
ghost use Rattle.net_equations.specs.Equations.{IsResolved};
ghost use Rattle.net_equations.specs.Groups.{IsOrder, first_wide, bits_in};
ghost use Rattle.compose_rounds.specs.Turns.{IsReady, AreOpen, IsSettled, OnlyNodes};
ghost use Rattle.compose_rounds.specs.Rounds.{EachMember};
ghost use Rattle.svex_compose.specs.Composed.{IsComposed};
ghost use Rattle.svex_compose.specs.Grouping.{AreMarked, AreOrdered, IsRest, IsNext};

use crate::start::start;
use crate::weigh::weigh;
use compose_rounds::{Scene, settle};
use driver_resolve::{NetEq, Resolved};
use items::Items;
use lhs_alias::Joins;
use net_equations::{ComposeErr, Composed, Group};
use node_replace::Replacer;
use std::alloc::Global;
use svex_arena::Arena;

// Marks members.
fn mark_all(settled: &mut Vec<bool>, members: &[usize])
    requires { EachMember (λ i. i < length settled.old.items) members.now }
    ensures { AreMarked members.now settled.old.items settled.new.items (length members.now) }
{
    'members: for at in 0..members.len() {
        settled[members[at]] = true;
    }
}

// Settles one group, unless it has over 1,024 bits.
fn settle_next(
    arena: &mut Arena,
    alloc: Global,
    joins: &Joins,
    eqs: &[NetEq],
    scene: &mut Scene,
    replacer: &mut Replacer,
    members: &[usize],
) -> Result<(), ComposeErr>
    requires ready { IsReady joins.now arena.old scene.old replacer.old }
    requires eqs { scene.old.segments.eqs ≡ map (λ e. e.seg) eqs.now }
    requires open { AreOpen scene.old.segments.eqs scene.old.settled.items members.now }
    ensures ready { OnOk result (IsReady joins.now arena.new scene.new replacer.new) }
    ensures settled { OnOk result (IsSettled joins.now arena.new scene.old.segments.eqs scene.old.values.items members.now scene.new.nodes.items) }
    ensures next { OnOk result (IsNext members.now scene.old scene.new) }
    ensures narrow { OnOk result (bits_in (map (λ e. e.seg) eqs.now) members.now ≤ 1024) }
    ensures wide { (n : ℕ) → result ≡ Err (LoopTooWide n) → (n ≡ bits_in (map (λ e. e.seg) eqs.now) members.now) × (1024 < n) }
    ensures extends { Extends arena.old arena.new }
    ensures arena { IsArena arena.new }
{
    // For the proof: recalls what the type promises of it.
    let _ = arena.len();
    let bits = weigh(alloc, eqs, members)?;
    if bits > 1024 {
        return Err(ComposeErr::LoopTooWide(bits as u64));
    }
    settle(arena, alloc, joins, scene, replacer, members, bits)?;
    mark_all(&mut scene.settled, members);
    Ok(())
}

// Settles groups, one after another.
fn settle_all(
    arena: &mut Arena,
    alloc: Global,
    joins: &Joins,
    set: &Resolved,
    scene: &mut Scene,
    replacer: &mut Replacer,
    groups: &[Group],
) -> Result<(), ComposeErr>
    requires ready { IsReady joins.now arena.old scene.old replacer.old }
    requires rest { IsRest joins.now arena.old set.now scene.old (map (λ g. g.members) groups.now) 0 }
    requires ordered { AreOrdered joins.now arena.old set.now (map (λ g. g.members) groups.now) }
    ensures ready { OnOk result (IsReady joins.now arena.new scene.new replacer.new) }
    ensures rest { OnOk result (IsRest joins.now arena.new set.now scene.new (map (λ g. g.members) groups.now) (length groups.now)) }
    ensures narrow { OnOk result (first_wide (map (λ e. e.seg) set.now.eqs) (map (λ g. g.members) groups.now) ≡ None) }
    ensures wide { (n : ℕ) → result ≡ Err (LoopTooWide n) → first_wide (map (λ e. e.seg) set.now.eqs) (map (λ g. g.members) groups.now) ≡ Some n }
    ensures extends { Extends arena.old arena.new }
    ensures arena { IsArena arena.new }
{
    // For the proof: recalls what the type promises of it.
    let _ = arena.len();
    'groups: for at in 0..groups.len() {
        let members = groups[at].members.as_slice();
        settle_next(
            arena,
            alloc,
            joins,
            set.eqs.as_slice(),
            scene,
            replacer,
            members,
        )?;
    }
    Ok(())
}

/// A node for each equation, by groups that are settled one after another: over each stimulus and previous valuation the nodes have
/// the values of the least solution. A group of over 1,024 bits is refused, the first of them, with its bits.
///
/// An equation that does not reach itself takes one substitution, whose cost is what its value newly reaches; a group that does takes
/// rounds until they give the very nodes of the round before, and at most as many as it has bits.
pub fn compose(
    alloc: Global,
    arena: &mut Arena,
    set: &Resolved,
    joins: &Joins,
    groups: &[Group],
) -> Result<Composed, ComposeErr>
    requires resolved { IsResolved joins.now arena.old set.now }
    requires groups { IsOrder joins.now arena.old set.now.eqs (map (λ g. g.members) groups.now) }
    ensures composed { IfOk result (λ c. IsComposed joins.now arena.old arena.new set.now.eqs c.nodes) }
    ensures extends { Extends arena.old arena.new }
    ensures narrow { IfOk result (λ c. first_wide (map (λ e. e.seg) set.now.eqs) (map (λ g. g.members) groups.now) ≡ None) }
    ensures wide { (n : ℕ) → result ≡ Err (LoopTooWide n)
        → first_wide (map (λ e. e.seg) set.now.eqs) (map (λ g. g.members) groups.now) ≡ Some n }
{
    let len = arena.len();
    let mut replacer = Replacer::new(alloc, len)?;
    let mut scene = start(arena, alloc, set)?;
    settle_all(arena, alloc, joins, set, &mut scene, &mut replacer, groups)?;
    Ok(Composed {
        nodes: Items::from_vec(scene.into_nodes()),
    })
}
