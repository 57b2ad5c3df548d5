//! The places to which each node and each equation leads: an equation to the node of its value, a node to its children, and a
//! present variable to the equations that tell a bit of its wire. So an equation depends on another where one comes from it to the
//! other over nodes alone, and what values share is listed once, however many equations reach it. A node that no value reaches has
//! no place.

ghost use Rattle.std.specs.Prelude.{◌≡◌, ℕ, ◌+◌, ◌<◌, ◌≤◌, [], ◌∷◌, ◌++◌, length, map, IsTrue, IfOk, OnOk, slice_index, slice_index_or};
ghost use Rattle.lhs_alias.specs.Joined.{widths_of};
ghost use Rattle.svex_shape.specs.declared.shape.Shape.TheVariants.{Var};
ghost use Rattle.svex_shape.specs.Shapes.{shape_at};
ghost use Rattle.svex_shape.specs.Values.{each_variable};
ghost use Rattle.net_equations.specs.Equations.{is_of_phase, IsResolved};
ghost use Rattle.net_order.specs.Rows.{values_in, child_list, CanTell, IsNodeRow, AreRows};

use crate::tellers::Tellers;
use crate::used::{Used, used_of};
use driver_resolve::{NetEq, Resolved};
use items::Items;
use lhs_alias::Joins;
use std::alloc::{AllocError, Global};
use svex_arena::{Arena, Node, Shape, VarName};

/// The lists of the places to which each place leads, those of nodes before those of equations.
pub struct Graph {
    /// The number of nodes that have a place.
    pub nodes: usize,
    pub rows: Vec<Items<usize>>,
}

impl Drop for Graph {
    fn drop(self) {
        let Graph { nodes: _, rows: _ } = self;
    }
}

// The place of a node.
fn place(places: &[usize], node: Node) -> usize
    ensures { result ≡ slice_index places.now node }
{
    let at = node.index();
    if at < places.len() { places[at] } else { 0 }
}

fn one(alloc: Global, a: usize) -> Result<Items<usize>, AllocError>
    ensures { IfOk result (λ row. row ≡ a ∷ []) }
{
    let mut row = Vec::new(alloc);
    row.push(a)?;
    Ok(Items::from_vec(row))
}

fn two(alloc: Global, a: usize, b: usize) -> Result<Items<usize>, AllocError>
    ensures { IfOk result (λ row. row ≡ a ∷ b ∷ []) }
{
    let mut row = Vec::new(alloc);
    row.push(a)?;
    row.push(b)?;
    Ok(Items::from_vec(row))
}

fn three(alloc: Global, a: usize, b: usize, c: usize) -> Result<Items<usize>, AllocError>
    ensures { IfOk result (λ row. row ≡ a ∷ b ∷ c ∷ []) }
{
    let mut row = Vec::new(alloc);
    row.push(a)?;
    row.push(b)?;
    row.push(c)?;
    Ok(Items::from_vec(row))
}

// The places of the children of a shape.
fn children(alloc: Global, places: &[usize], shape: &Shape) -> Result<Items<usize>, AllocError>
    ensures { IfOk result (λ row. row ≡ map (slice_index places.now) (child_list shape.now)) }
{
    match shape {
        Shape::Const(_) => Ok(Items::new(alloc)),
        Shape::Var(_, _) => Ok(Items::new(alloc)),
        Shape::Unary(_, a) => one(alloc, place(places, *a)),
        Shape::Binary(_, a, b) => two(alloc, place(places, *a), place(places, *b)),
        Shape::Cond(c, a, b) => three(
            alloc,
            place(places, *c),
            place(places, *a),
            place(places, *b),
        ),
        Shape::Pick(c, a, b) => three(
            alloc,
            place(places, *c),
            place(places, *a),
            place(places, *b),
        ),
        Shape::Slice { of, .. } => one(alloc, place(places, *of)),
        Shape::Zext(a, _) => one(alloc, place(places, *a)),
        Shape::Sext(a, _) => one(alloc, place(places, *a)),
        Shape::DynSlice { of, at, .. } => two(alloc, place(places, *of), place(places, *at)),
        Shape::DynPut { of, at, put, .. } => three(
            alloc,
            place(places, *of),
            place(places, *at),
            place(places, *put),
        ),
    }
}

// The equations to which a variable leads.
#[tactic(auto, using(crate::proofs::Leading::present_row, crate::proofs::Leading::other_row))]
fn variable_row(
    alloc: Global,
    tellers: &Tellers,
    joins: &Joins,
    nodes: usize,
    name: &VarName,
    width: u8,
) -> Result<Items<usize>, AllocError>
    requires can { CanTell nodes tellers.now }
    requires name { IsTrue (is_of_phase (widths_of joins.now) name.now width) }
    requires some { 0 < width }
    requires most { width ≤ 128 }
    ensures { IfOk result (λ row. (at : ℕ → ℕ) → IsNodeRow joins.now tellers.now.segs.items nodes at (Var name.now width) row) }
{
    match name {
        VarName::Now(wire) => Ok(Items::from_vec(tellers.of_wire(
            alloc, joins, nodes, *wire, width,
        )?)),
        VarName::Prev(_) => Ok(Items::new(alloc)),
        VarName::Stim(_) => Ok(Items::new(alloc)),
        VarName::Chosen(_) => Ok(Items::new(alloc)),
        VarName::Sampled(_) => Ok(Items::new(alloc)),
    }
}

// Where a node leads.
#[tactic(auto, using(crate::proofs::Leading::children_row))]
fn node_row(
    alloc: Global,
    arena: &Arena,
    tellers: &Tellers,
    joins: &Joins,
    used: &Used,
    node: usize,
) -> Result<Items<usize>, AllocError>
    requires can { CanTell (length used.now.nodes.items) tellers.now }
    requires node { node < length arena.now }
    requires variables { IsTrue (each_variable (is_of_phase (widths_of joins.now)) arena.now node) }
    ensures { IfOk result (λ row. IsNodeRow joins.now tellers.now.segs.items (length used.now.nodes.items) (slice_index used.now.places.items)
        (shape_at arena.now node) row) }
{
    // For the proof: recalls what the type promises of it.
    let _ = arena.len();
    let shape = arena.shape(Node::new(node));
    match &shape {
        Shape::Var(name, width) => variable_row(
            alloc,
            tellers,
            joins,
            used.nodes.len(),
            name,
            *width,
        ),
        _ => children(alloc, &used.places, &shape),
    }
}

// Where the used nodes lead.
fn node_rows(
    alloc: Global,
    arena: &Arena,
    tellers: &Tellers,
    joins: &Joins,
    used: &Used,
) -> Result<Vec<Items<usize>>, AllocError>
    requires can { CanTell (length used.now.nodes.items) tellers.now }
    requires nodes { (p : ℕ) → p < length used.now.nodes.items → slice_index used.now.nodes.items p < length arena.now }
    requires variables { (p : ℕ) → p < length used.now.nodes.items
        → IsTrue (each_variable (is_of_phase (widths_of joins.now)) arena.now (slice_index used.now.nodes.items p)) }
    ensures size { IfOk result (λ rows. length rows.items ≡ length used.now.nodes.items) }
    ensures rows { IfOk result (λ rows. (p : ℕ) → p < length used.now.nodes.items
        → IsNodeRow joins.now tellers.now.segs.items (length used.now.nodes.items) (slice_index used.now.places.items)
        (shape_at arena.now (slice_index used.now.nodes.items p)) (slice_index_or rows.items p [])) }
{
    let mut rows = Vec::with_capacity(alloc, used.nodes.len())?;
    'nodes: for p in 0..used.nodes.len() {
        rows.push(node_row(alloc, arena, tellers, joins, used, used.nodes[p])?)?;
    }
    Ok(rows)
}

// Puts the lists of the equations behind others.
fn put_eqs(
    alloc: Global,
    places: &[usize],
    eqs: &[NetEq],
    rows: &mut Vec<Items<usize>>,
) -> Result<(), AllocError>
    ensures { OnOk result (rows.new.items ≡ rows.old.items ++ map (λ v. slice_index places.now v ∷ []) (values_in eqs.now)) }
{
    'eqs: for eq in eqs {
        rows.push(one(alloc, place(places, eq.value))?)?;
    }
    Ok(())
}

fn values_of(alloc: Global, eqs: &[NetEq]) -> Result<Vec<Node>, AllocError>
    ensures { IfOk result (λ values. values.items ≡ values_in eqs.now) }
{
    let mut values = Vec::with_capacity(alloc, eqs.len())?;
    'eqs: for eq in eqs {
        values.push(eq.value)?;
    }
    Ok(values)
}

/// The graph of the equations and of the nodes that their values reach.
pub fn graph_of(
    alloc: Global,
    arena: &Arena,
    set: &Resolved,
    joins: &Joins,
) -> Result<Graph, AllocError>
    requires { IsResolved joins.now arena.now set.now }
    ensures { IfOk result (λ graph. AreRows joins.now arena.now set.now.eqs graph.nodes graph.rows.items) }
{
    // For the proof: recalls what the type promises of it.
    let _ = arena.len();
    let eqs = set.eqs.as_slice();
    let tellers = Tellers::new(alloc, eqs)?;
    let values = values_of(alloc, eqs)?;
    let marks = arena.reached(alloc, &values)?;
    let used = used_of(alloc, &marks)?;
    let mut rows = node_rows(alloc, arena, &tellers, joins, &used)?;
    put_eqs(alloc, &used.places, eqs, &mut rows)?;
    Ok(Graph {
        nodes: used.nodes.len(),
        rows,
    })
}
