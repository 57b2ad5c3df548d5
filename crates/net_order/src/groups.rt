//! The equations among groups of nodes and equations.

ghost use Rattle.std.specs.Prelude.{◌≡◌, [], ◌∷◌, ◌++◌, map, IfOk, OnOk};
ghost use Rattle.net_order.specs.Kept.{eqs_in, with_group, eq_groups};

use items::Items;
use net_equations::Group;
use std::alloc::{AllocError, Global};

// Puts the number of an equation behind others, where a place is one.
#[tactic(auto, using(crate::proofs::Keeping::eqs_push_node, crate::proofs::Keeping::eqs_push_eq))]
fn put_eq(nodes: usize, place: usize, numbers: &mut Vec<usize>) -> Result<(), AllocError>
    ensures { OnOk result (numbers.new.items ≡ numbers.old.items ++ eqs_in nodes (place ∷ [])) }
{
    if nodes <= place {
        numbers.push(place - nodes)?;
    }
    Ok(())
}

// The numbers of the equations among places, of which the first are nodes.
#[tactic(auto, using(crate::proofs::Keeping::eqs_more))]
fn eqs_among(alloc: Global, nodes: usize, places: &[usize]) -> Result<Vec<usize>, AllocError>
    ensures { IfOk result (λ numbers. numbers.items ≡ eqs_in nodes places.now) }
{
    let mut numbers = Vec::new(alloc);
    'places: for place in places {
        put_eq(nodes, *place, &mut numbers)?;
    }
    Ok(numbers)
}

// Puts the equations of a group behind other groups, if it has one.
fn put_group(
    alloc: Global,
    nodes: usize,
    group: &[usize],
    groups: &mut Vec<Group>,
) -> Result<(), AllocError>
    ensures { OnOk result (map (λ g. g.members) groups.new.items ≡ map (λ g. g.members) groups.old.items ++ with_group (eqs_in nodes group.now) []) }
{
    let members = eqs_among(alloc, nodes, group)?;
    if members.is_empty() {
        return Ok(());
    }
    groups.push(Group {
        members: Items::from_vec(members),
    })?;
    Ok(())
}

/// The groups that have an equation, with their equations alone.
#[tactic(auto, using(crate::proofs::Keeping::groups_more))]
pub fn eq_groups(
    alloc: Global,
    nodes: usize,
    all: &[Items<usize>],
) -> Result<Vec<Group>, AllocError>
    ensures { IfOk result (λ groups. map (λ g. g.members) groups.items ≡ eq_groups nodes all.now) }
{
    let mut groups = Vec::new(alloc);
    'groups: for group in all {
        put_group(alloc, nodes, group.as_slice(), &mut groups)?;
    }
    Ok(groups)
}
