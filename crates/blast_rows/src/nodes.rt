//! Which variables and nodes a goal may be asked of. A file of cases may give any, and a goal is asked only of what passes these
//! tests. A sample passes where it is a variable, a constant, or one operator over these, which is seen with no walk through the
//! graph.

ghost use Rattle.std.specs.Prelude.{◌≡◌, ◌<◌, ℕ, All, Bool, IsTrue, length};
ghost use Rattle.goal_gates.specs.Goals.{is_chosen};
ghost use Rattle.svex_shape.specs.Shapes.{ChildrenBelow, width_at};
ghost use Rattle.svex_shape.specs.Values.{each_variable, each_variable_of};
ghost use Rattle.svtv_table.specs.Binding.{HasWidth};

use svex_arena::{Arena, Node, Shape, VarName};
use svtv_table::VarDecl;

/// Whether each variable has 1 to 128 bits.
pub fn have_widths(vars: &[VarDecl]) -> bool
    ensures { IsTrue result → All (λ var. HasWidth var.width) vars.now }
{
    vars.iter().all(|var| 0 < var.width && var.width <= 128)
}

fn is_there(arena: &Arena, node: Node) -> bool
    ensures { IsTrue result → node < length arena.now }
{
    node.index() < arena.len()
}

fn is_bit(arena: &Arena, node: Node) -> bool
    ensures there { IsTrue result → node < length arena.now }
    ensures bit { IsTrue result → width_at arena.now node ≡ 1 }
{
    is_there(arena, node) && arena.width(node) == 1
}

/// Whether each is a node of one bit.
pub fn are_bits(arena: &Arena, nodes: &[Node]) -> bool
    ensures there { IsTrue result → All (λ node. node < length arena.now) nodes.now }
    ensures bits { IsTrue result → All (λ node. width_at arena.now node ≡ 1) nodes.now }
{
    nodes.iter().all(|node| is_bit(arena, *node))
}

fn is_own(name: &VarName) -> bool
    ensures { (width : ℕ) → result ≡ is_chosen name.now width }
{
    match name {
        VarName::Chosen(_) => true,
        _ => false,
    }
}

#[tactic(auto, unfolding(svex_shape::specs::Values::each_variable_of))]
fn is_leaf(shape: &Shape) -> bool
    ensures { (f : ℕ → Bool) → IsTrue result → IsTrue (each_variable_of is_chosen f shape.now) }
{
    match shape {
        Shape::Const(_) => true,
        Shape::Var(name, _) => is_own(name),
        _ => false,
    }
}

#[tactic(auto, using(svex_arena::proofs::Steps::variables_follow))]
fn is_leaf_node(arena: &Arena, node: Node) -> bool
    requires { node < length arena.now }
    ensures { IsTrue result → IsTrue (each_variable is_chosen arena.now node) }
{
    // For the proof: recalls what the type promises of it.
    let _ = arena.len();
    is_leaf(&arena.shape(node))
}

#[tactic(auto, unfolding(svex_shape::specs::Values::each_variable_of))]
fn is_sample_shape(arena: &Arena, shape: &Shape) -> bool
    requires { ChildrenBelow (length arena.now) shape.now }
    ensures { IsTrue result → IsTrue (each_variable_of is_chosen (each_variable is_chosen arena.now) shape.now) }
{
    match shape {
        Shape::Unary(_, a) => is_leaf_node(arena, *a),
        Shape::Binary(_, a, b) => is_leaf_node(arena, *a) && is_leaf_node(arena, *b),
        _ => is_leaf(shape),
    }
}

#[tactic(auto, using(svex_arena::proofs::Steps::variables_follow))]
fn is_sample(arena: &Arena, node: Node) -> bool
    ensures there { IsTrue result → node < length arena.now }
    ensures own { IsTrue result → IsTrue (each_variable is_chosen arena.now node) }
{
    // For the proof: recalls what the type promises of it.
    let _ = arena.len();
    if !is_there(arena, node) {
        return false;
    }
    is_sample_shape(arena, &arena.shape(node))
}

/// Whether each is a node that a sample may be here.
pub fn are_samples(arena: &Arena, nodes: &[Node]) -> bool
    ensures there { IsTrue result → All (λ node. node < length arena.now) nodes.now }
    ensures own { IsTrue result → All (λ node. IsTrue (each_variable is_chosen arena.now node)) nodes.now }
{
    nodes.iter().all(|node| is_sample(arena, *node))
}
