//! The values of nodes. What a literal rests on is marked first, from its node down, and then evaluated from node 0 up, each
//! node once: operands have lower numbers, so there is no recursion, whatever the depth of the graph. Nodes that are not marked
//! count as false, and nothing asks for them.

ghost use Rattle.std.specs.Prelude.{◌≡◌, ℕ, ◌+◌, ◌<◌, ◌≤◌, Bool, IfOk, length, slice_index_or, false, true};
ghost use Rattle.aig.specs.Graph.{gate_at, holds, value, gate_value, IsGraph, count_inputs};
ghost use Rattle.aig.specs.Cone.{AreMarked, Keeps, IsClosed};

use crate::gate::{Gate, Lit};
use std::alloc::{AllocError, Global};

/// The value of a literal, by the values of the nodes.
#[tactic(auto, using(crate::proofs::Values::differs))]
fn literal(nodes: &[bool], l: Lit) -> bool
    requires { l.node < length nodes.now }
    ensures { result ≡ holds (λ k. slice_index_or nodes.now k false) l }
{
    nodes[l.node] != l.negated
}

/// The value of the node after those that have values.
#[tactic(auto, using(crate::proofs::Values::operands, crate::proofs::Values::input_in))]
fn next_value(gates: &[Gate], inputs: &[bool], nodes: &[bool]) -> bool
    requires more { length nodes.now < length gates.now }
    requires graph { IsGraph gates.now }
    requires inputs { length inputs.now ≡ count_inputs gates.now }
    ensures { result ≡ gate_value inputs.now (λ k. slice_index_or nodes.now k false) (gate_at gates.now (length nodes.now)) }
{
    match gates[nodes.len()] {
        Gate::False => false,
        Gate::Input(n) => inputs[n],
        Gate::And(p, q) => literal(nodes, p) && literal(nodes, q),
    }
}

/// Marks the operands of node k, if it is marked.
fn mark_operands(gates: &[Gate], marks: &mut [bool], k: usize)
    requires within { k < length marks.old }
    requires marks { length marks.old ≤ length gates.now }
    requires graph { IsGraph gates.now }
    ensures kept { Keeps marks.old marks.new }
    ensures above { (j : ℕ) → k ≤ j → slice_index_or marks.new j false ≡ slice_index_or marks.old j false }
    ensures marked { slice_index_or marks.old k false ≡ true → AreMarked marks.new (gate_at gates.now k) }
{
    if marks[k]
        && let Gate::And(p, q) = gates[k]
    {
        marks[p.node] = true;
        marks[q.node] = true;
    }
}

/// Marks every node that the marked ones rest on, from the highest down.
fn mark_cone(gates: &[Gate], marks: &mut [bool])
    requires marks { length marks.old ≤ length gates.now }
    requires graph { IsGraph gates.now }
    ensures kept { Keeps marks.old marks.new }
    ensures closed { IsClosed gates.now marks.new 0 }
{
    for i in 0..marks.len() {
        mark_operands(gates, marks, marks.len() - 1 - i);
    }
}

/// The nodes that the value of a node rests on.
fn cone_of(alloc: Global, gates: &[Gate], node: usize) -> Result<Vec<bool>, AllocError>
    requires graph { IsGraph gates.now }
    requires node { node < length gates.now }
    ensures long { IfOk result (λ marks. length marks.items ≡ node + 1) }
    ensures marked { IfOk result (λ marks. slice_index_or marks.items node false ≡ true) }
    ensures closed { IfOk result (λ marks. IsClosed gates.now marks.items 0) }
{
    let mut marks = Vec::new(alloc);
    marks.resize(node, false)?;
    marks.push(true)?;
    mark_cone(gates, marks.as_mut_slice());
    Ok(marks)
}

/// The value of the node after those that have values, if it is marked.
fn next_marked(gates: &[Gate], inputs: &[bool], marks: &[bool], nodes: &[bool]) -> bool
    requires more { length nodes.now < length gates.now }
    requires marks { length nodes.now < length marks.now }
    requires graph { IsGraph gates.now }
    requires inputs { length inputs.now ≡ count_inputs gates.now }
    ensures { slice_index_or marks.now (length nodes.now) false ≡ true → result ≡ gate_value inputs.now (λ k. slice_index_or nodes.now k false) (gate_at gates.now (length nodes.now)) }
{
    marks[nodes.len()] && next_value(gates, inputs, nodes)
}

/// The value of a literal, by the values of the inputs. Only the nodes that it rests on are evaluated, each once.
pub fn value_at(alloc: Global, gates: &[Gate], inputs: &[bool], at: Lit) -> Result<bool, AllocError>
    requires graph { IsGraph gates.now }
    requires inputs { length inputs.now ≡ count_inputs gates.now }
    requires at { at.node < length gates.now }
    ensures { IfOk result (λ b. b ≡ value inputs.now gates.now at) }
{
    let marks = cone_of(alloc, gates, at.node)?;
    let mut nodes = Vec::new(alloc);
    for _k in 0..at.node + 1 {
        let value = next_marked(gates, inputs, marks.as_slice(), nodes.as_slice());
        nodes.push(value)?;
    }
    Ok(literal(nodes.as_slice(), at))
}
