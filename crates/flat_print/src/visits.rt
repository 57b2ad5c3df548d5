//! The nodes that drivers reach, in the order in which they are printed.
//!
//! A graph can be as deep as it has nodes, so the walk keeps a stack of its own: a node is entered, what it is made of is put above
//! it, and it is left, and given its place, once all that is done. A node is entered once, so the walk is linear in what it reaches.

ghost use Rattle.std.specs.Prelude.{◌≡◌, ℕ, ◌++◌, ◌∷◌, ◌≤◌, ◌<◌, [], false, true, length, map, reverse, slice_index, slice_index_or, slice_set, IfOk, OnOk, All};
ghost use Rattle.svex_shape.specs.Shapes.{ChildrenBelow, shape_at};
ghost use Rattle.flat_print.specs.Printed.{below_node, children_of, order_of, has, place_in};
ghost use Rattle.flat_print.specs.Walks.{IsWalk, finish, work_left};
ghost use Rattle.flat_print.specs.declared.visits.Visit.TheVariants.{Enter, Leave};

use driver_resolve::Driver;
use std::alloc::{AllocError, Global};
use svex_arena::Arena;
use svex_shape::{Node, Shape};

/// A node that is still to be visited, or one that waits for what it is made of.
#[derive(Clone, Copy)]
enum Visit {
    Enter(Node),
    Leave(Node),
}

/// The nodes that are printed, in their order.
pub struct Order {
    /// The nodes.
    pub nodes: Vec<Node>,
    /// For each node of the graph its number in the text, where it has one.
    pub numbers: Vec<Node>,
}

impl Drop for Order {
    fn drop(self) {
        let Order {
            nodes: _,
            numbers: _,
        } = self;
    }
}

struct Walk {
    stack: Vec<Visit>,
    seen: Vec<bool>,
    numbers: Vec<Node>,
    order: Vec<Node>,
}

impl Drop for Walk {
    fn drop(self) {
        let Walk {
            stack: _,
            seen: _,
            numbers: _,
            order: _,
        } = self;
    }
}

fn push_enter(stack: &mut Vec<Visit>, node: Node) -> Result<(), AllocError>
    ensures { OnOk result (stack.new.items ≡ stack.old.items ++ Enter node ∷ []) }
{
    stack.push(Visit::Enter(node))?;
    Ok(())
}

// Two nodes, the first above the second.
fn push_two(stack: &mut Vec<Visit>, a: Node, b: Node) -> Result<(), AllocError>
    ensures { OnOk result (stack.new.items ≡ stack.old.items ++ Enter b ∷ Enter a ∷ []) }
{
    push_enter(stack, b)?;
    push_enter(stack, a)
}

fn push_three(stack: &mut Vec<Visit>, a: Node, b: Node, c: Node) -> Result<(), AllocError>
    ensures { OnOk result (stack.new.items ≡ stack.old.items ++ Enter c ∷ Enter b ∷ Enter a ∷ []) }
{
    push_enter(stack, c)?;
    push_two(stack, a, b)
}

// The children of a shape, the first above the others.
fn push_children(stack: &mut Vec<Visit>, shape: &Shape) -> Result<(), AllocError>
    ensures { OnOk result (stack.new.items ≡ stack.old.items ++ map Enter (reverse (children_of shape.now))) }
{
    match shape {
        Shape::Const(_) => Ok(()),
        Shape::Var(_, _) => Ok(()),
        Shape::Unary(_, a) => push_enter(stack, *a),
        Shape::Binary(_, a, b) => push_two(stack, *a, *b),
        Shape::Cond(c, a, b) => push_three(stack, *c, *a, *b),
        Shape::Pick(c, a, b) => push_three(stack, *c, *a, *b),
        Shape::Slice { of, .. } => push_enter(stack, *of),
        Shape::Zext(a, _) => push_enter(stack, *a),
        Shape::Sext(a, _) => push_enter(stack, *a),
        Shape::DynSlice { of, at, .. } => push_two(stack, *of, *at),
        Shape::DynPut { of, at, put, .. } => push_three(stack, *of, *at, *put),
    }
}

impl Walk {
    fn new(alloc: Global, nodes: usize) -> Result<Walk, AllocError>
        ensures stack { IfOk result (λ w. w.stack.items ≡ []) }
        ensures order { IfOk result (λ w. w.order.items ≡ []) }
        ensures marks { IfOk result (λ w. length w.seen.items ≡ nodes) }
        ensures none { IfOk result (λ w. (k : ℕ) → slice_index_or w.seen.items k false ≡ false) }
        ensures numbers { IfOk result (λ w. length w.numbers.items ≡ nodes) }
    {
        Ok(Walk {
            stack: Vec::new(alloc),
            seen: vec![in alloc; false; nodes]?,
            numbers: vec![in alloc; Node::new(0); nodes]?,
            order: Vec::new(alloc),
        })
    }

    // Marks a node, and puts what it is made of above it.
    fn enter(&mut self, arena: &Arena, node: Node) -> Result<(), AllocError>
        requires there { node < length arena.now }
        requires marks { length self.old.seen.items ≡ length arena.now }
        ensures stack { OnOk result (self.new.stack.items
            ≡ self.old.stack.items ++ Leave node ∷ [] ++ map Enter (reverse (children_of (shape_at arena.now node)))) }
        ensures marked { self.new.seen.items ≡ slice_set self.old.seen.items node true }
        ensures numbers { self.new.numbers ≡ self.old.numbers }
        ensures order { self.new.order ≡ self.old.order }
        ensures children { ChildrenBelow node (shape_at arena.now node) }
    {
        let shape = arena.shape(node);
        self.seen[node.index()] = true;
        self.stack.push(Visit::Leave(node))?;
        push_children(&mut self.stack, &shape)
    }

    // Gives a node the next place.
    fn leave(&mut self, node: Node) -> Result<(), AllocError>
        requires { node < length self.old.numbers.items }
        ensures order { OnOk result (self.new.order.items ≡ self.old.order.items ++ node ∷ []) }
        ensures numbers { self.new.numbers.items ≡ slice_set self.old.numbers.items node (length self.old.order.items) }
        ensures stack { self.new.stack ≡ self.old.stack }
        ensures marked { self.new.seen ≡ self.old.seen }
    {
        self.numbers[node.index()] = Node::new(self.order.len());
        self.order.push(node)?;
        Ok(())
    }

    // Does what was last on the stack.
    fn visit(&mut self, arena: &Arena, visit: Visit) -> Result<(), AllocError>
        requires { IsWalk arena.now (self.old.stack.items ++ visit ∷ []) self.old.seen.items self.old.numbers.items self.old.order.items }
        ensures walk { OnOk result (IsWalk arena.now self.new.stack.items self.new.seen.items self.new.numbers.items self.new.order.items) }
        ensures goes { OnOk result (finish (below_node arena.now) self.new.stack.items self.new.order.items
            ≡ finish (below_node arena.now) (self.old.stack.items ++ visit ∷ []) self.old.order.items) }
        ensures less { OnOk result (work_left self.new.seen.items self.new.stack.items
            ≤ work_left self.old.seen.items self.old.stack.items) }
    {
        match visit {
            Visit::Enter(node) => {
                if self.seen[node.index()] {
                    return Ok(());
                }
                self.enter(arena, node)
            }
            Visit::Leave(node) => self.leave(node),
        }
    }

    // Does all that is on the stack.
    fn run(&mut self, arena: &Arena) -> Result<(), AllocError>
        requires { IsWalk arena.now self.old.stack.items self.old.seen.items self.old.numbers.items self.old.order.items }
        ensures walk { OnOk result (IsWalk arena.now [] self.new.seen.items self.new.numbers.items self.new.order.items) }
        ensures order { OnOk result (self.new.order.items
            ≡ finish (below_node arena.now) self.old.stack.items self.old.order.items) }
    {
        'visits: while !self.stack.is_empty() {
            let visit = self.stack.pop().unwrap();
            self.visit(arena, visit)?;
        }
        Ok(())
    }
}

impl Walk {
    fn into_order(self) -> Order
        ensures nodes { result.nodes ≡ self.order }
        ensures numbers { result.numbers ≡ self.numbers }
    {
        let Walk {
            stack,
            seen,
            numbers,
            order,
        } = self;
        drop(stack);
        drop(seen);
        Order {
            nodes: order,
            numbers,
        }
    }
}

// The nodes that drivers reach wait to be entered, the first driver's above the others.
fn push_roots(stack: &mut Vec<Visit>, drivers: &[Driver]) -> Result<(), AllocError>
    ensures { OnOk result (stack.new.items ≡ stack.old.items ++ map Enter (reverse (map (λ d. d.value) drivers.now))) }
{
    let mut left = drivers.len();
    'roots: while left > 0 {
        left -= 1;
        push_enter(stack, drivers[left].value)?;
    }
    Ok(())
}

/// The nodes that drivers reach, each once, drivers in order, children before the node and left before right.
pub fn order_of(alloc: Global, arena: &Arena, drivers: &[Driver]) -> Result<Order, AllocError>
    requires { All (λ d. d.value < length arena.now) drivers.now }
    ensures nodes { IfOk result (λ o. o.nodes.items ≡ order_of arena.now drivers.now) }
    ensures size { IfOk result (λ o. length o.numbers.items ≡ length arena.now) }
    ensures numbers { IfOk result (λ o. (k : ℕ) → has k (order_of arena.now drivers.now) ≡ true
        → slice_index o.numbers.items k ≡ place_in (order_of arena.now drivers.now) k) }
{
    let mut walk = Walk::new(alloc, arena.len())?;
    push_roots(&mut walk.stack, drivers)?;
    walk.run(arena)?;
    Ok(walk.into_order())
}
