//! Groups of equations by the places of a graph in which they and the nodes of their values stand together.

ghost use Rattle.std.specs.Prelude.{◌<◌, length, map, All, IfOk};
ghost use Rattle.net_equations.specs.Equations.{IsResolved};
ghost use Rattle.net_equations.specs.Groups.{IsOrder};

use crate::groups::eq_groups;
use crate::rows::graph_of;
use dep_groups::grouping;
use driver_resolve::Resolved;
use items::Items;
use lhs_alias::Joins;
use net_equations::Group;
use std::alloc::{AllocError, Global};
use svex_arena::Arena;

/// Groups of equations that depend on each other in the present, each behind those on which it depends. Takes time linear in the
/// nodes that values reach, the equations and the bits of the wires that they mention, whatever values share and however long a
/// chain of equations is; each other node of the arena is only looked at.
pub fn order(
    alloc: Global,
    arena: &Arena,
    set: &Resolved,
    joins: &Joins,
) -> Result<Items<Group>, AllocError>
    requires { IsResolved joins.now arena.now set.now }
    ensures order { IfOk result (λ groups. IsOrder joins.now arena.now set.now.eqs (map (λ g. g.members) groups)) }
    ensures some { IfOk result (λ groups. All (λ g. 0 < length g.members) groups) }
{
    let graph = graph_of(alloc, arena, set, joins)?;
    let all = grouping(alloc, &graph.rows)?;
    let groups = eq_groups(alloc, graph.nodes, &all)?;
    Ok(Items::from_vec(groups))
}
