//! How a conjunction is found by its operands: gates by their hashes, in an index beside the list of gates. A file may choose
//! operands, but no operands make a look long: the index is bounded by the bits of a hash, and only equal hashes stand behind
//! one another. Inputs have hashes of their own too, since each gate is an entry.

ghost use Rattle.std.specs.Prelude.{◌≡◌, ℕ, ◌+◌, ◌<◌, ◌≤◌, IfOk, IfErr, IfSome, IfNone, [], ◌∷◌, ◌++◌, length, map};
ghost use Rattle.aig.specs.declared.gate.Gate.TheVariants.{And};
ghost use Rattle.aig.specs.Graph.{gate_at, IsIn};
ghost use Rattle.aig.specs.Table.{code_of, folded, mixed, hash_of, HasNone, IsLinked, IsNodeOf};

use crate::gate::{Gate, Lit};
use hash_index::HashIndex;
use std::alloc::AllocError;

// 2 ^ 64 over the golden ratio: it spreads numbers that are near each other.
const FIRST_FACTOR: u64 = 11_400_714_819_323_198_485;

// An odd number with bits all over.
const SECOND_FACTOR: u64 = 0x9e6c_63d0_876a_9a47;

// A number of a literal.
#[tactic(auto, unfolding(crate::specs::Table::code_of))]
fn code(l: Lit) -> u64
    ensures { result ≡ code_of l }
{
    (l.node as u64)
        .wrapping_mul(2)
        .wrapping_add(u64::from(l.negated))
}

// Brings the upper half into the lower.
#[tactic(auto, unfolding(crate::specs::Table::folded))]
fn fold(hash: u64) -> u64
    ensures { result ≡ folded hash }
{
    hash.wrapping_add(hash >> 32)
}

// The hash of two operands, each bit of which depends on both.
#[tactic(auto, unfolding(crate::specs::Table::mixed))]
fn mix(a: Lit, b: Lit) -> u64
    ensures { result ≡ mixed a b }
{
    let both = code(a).wrapping_mul(FIRST_FACTOR).wrapping_add(code(b));
    fold(fold(both).wrapping_mul(SECOND_FACTOR))
}

#[tactic(auto, unfolding(crate::specs::Table::hash_of))]
fn hash(gate: Gate) -> u64
    ensures { result ≡ hash_of gate }
{
    match gate {
        Gate::False => 0,
        Gate::Input(number) => number as u64,
        Gate::And(a, b) => mix(a, b),
    }
}

// The node that is the conjunction of these operands.
fn find(gates: &[Gate], index: &HashIndex, a: Lit, b: Lit) -> Option<usize>
    requires { index.now ≡ map hash_of gates.now }
    ensures within { IfSome result (λ k. k < length gates.now) }
    ensures found { IfSome result (λ k. gate_at gates.now k ≡ And a b) }
    ensures none { IfNone result (HasNone gates.now (And a b)) }
{
    let wanted = Gate::And(a, b);
    index.find(hash(wanted), |node| gates[node] == wanted)
}

/// One node more, behind all others, and its entry in the index.
pub fn push_gate(
    gates: &mut Vec<Gate>,
    index: &mut HashIndex,
    gate: Gate,
) -> Result<usize, AllocError>
    requires { index.old ≡ map hash_of gates.old.items }
    ensures indexed { index.new ≡ map hash_of gates.new.items }
    ensures gates { IfOk result (λ k. gates.new.items ≡ gates.old.items ++ gate ∷ []) }
    ensures node { IfOk result (λ k. k ≡ length gates.old.items) }
    ensures refused { IfErr result (λ _. gates.new.items ≡ gates.old.items) }
{
    let alloc = *gates.allocator();
    gates.reserve(1)?;
    index.push(alloc, hash(gate))?;
    let node = gates.len();
    gates.push_reserved(gate);
    Ok(node)
}

/// The node that is the conjunction of two operands, the lower of which comes first: the one that there is, or a new one.
pub fn node_of(
    gates: &mut Vec<Gate>,
    index: &mut HashIndex,
    a: Lit,
    b: Lit,
) -> Result<usize, AllocError>
    requires linked { IsLinked gates.old.items index.old }
    requires some { 0 < a.node }
    requires ordered { a.node < b.node }
    requires b_in { IsIn gates.old.items b }
    ensures linked { IsLinked gates.new.items index.new }
    ensures is { IfOk result (IsNodeOf gates.old.items a b gates.new.items) }
    ensures refused { IfErr result (λ _. gates.new.items ≡ gates.old.items) }
{
    if let Some(node) = find(gates, index, a, b) {
        return Ok(node);
    }
    push_gate(gates, index, Gate::And(a, b))
}
