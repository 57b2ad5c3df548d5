//! The graph, and the calls that grow it. Beside the gates stands an index of their hashes, by which a conjunction of the same
//! two operands is found again and not made twice; the operand with the lower node comes first, so that both orders are one.
//! Operands that decide the value make no gate. Where memory runs out the graph is as before.

ghost use Rattle.std.specs.Prelude.{◌≡◌, ℕ, ◌+◌, ◌<◌, ◌≤◌, IfOk, IfErr, IfSome, IsTrue, ◌↔◌, Bool, false, [], ◌∷◌, ◌++◌, length, List, slice_index_or};
ghost use Rattle.aig.specs.declared.gate.Gate.TheVariants.{False, Input, And};
ghost use Rattle.aig.specs.declared.gate.Lit.{Lit};
ghost use Rattle.aig.specs.Graph.{gate_at, count_inputs, negation, holds, IsGraph, Grows, KeepsValues, IsIn, Obeys, value};
ghost use Rattle.aig.specs.Conjunction.{IsBoth, NeedsNoGate, IsSimplified, IsGateOf};
ghost use Rattle.aig.specs.Sums.{IsDifference, differ, value_of};
ghost use Rattle.aig.specs.Table.{IsHashed, IsNodeOf};

use crate::eval::value_at;
use crate::gate::{Gate, Lit, without_gate};
use crate::table::{node_of, push_gate};
use hash_index::HashIndex;
use std::alloc::{AllocError, Global};
use std::marker::Model;
use xor_forms::{Form, Table, sum};

/// For how many nodes of forms there is room beside each gate, and beside none.
const FORM_NODES: usize = 8;

const FIRST_FORM_NODES: usize = 1 << 16;

/// The sum of two literals (half adder).
#[derive(Clone, Copy)]
pub struct HalfSum {
    pub sum: Lit,
    pub carry: Lit,
}

/// Two literals of which another is the exclusive or.
#[derive(Clone, Copy)]
pub struct Halves {
    pub first: Lit,
    pub second: Lit,
}

// The operands of a conjunction.
fn operands(gate: Gate) -> Option<Halves>
    ensures { IfSome result (λ h. gate ≡ And h.first h.second) }
{
    match gate {
        Gate::And(first, second) => Some(Halves { first, second }),
        _ => None,
    }
}

// Whether a literal is the negation of another.
fn is_negation(a: Lit, b: Lit) -> bool
    ensures { IsTrue result ↔ (a ≡ negation b) }
{
    a == !b
}

// Whether the literals are the negations of two others.
fn are_negations(a: Halves, b: Halves) -> bool
    ensures first { IsTrue result → a.first ≡ negation b.first }
    ensures second { IsTrue result → a.second ≡ negation b.second }
{
    is_negation(a.first, b.first) && is_negation(a.second, b.second)
}

// The exclusive or of two literals as a form, and whether their own forms share nodes, which cancel.
#[derive(Drop)]
struct Joined {
    form: Form,
    cancels: bool,
}

/// An and-inverter graph. Contracts see the list of its gates, by the numbers of the nodes.
///
/// Beside the gates it keeps an index of their hashes, by which a conjunction is found again, and the exclusive ors that were made,
/// by which another of the same nodes is.
#[derive(Drop)]
pub struct Aig {
    gates: Vec<Gate>,
    inputs: usize,
    index: HashIndex,
    sums: Table,
}

// The form, turned round where it is that of a negation.
fn turned(form: Form, negated: bool) -> Form
    ensures nodes { result.nodes.items ≡ form.nodes.items }
    ensures odd { result.odd ≡ differ negated form.odd }
{
    let Form { nodes, odd } = form;
    Form {
        nodes,
        odd: odd != negated,
    }
}

// The exclusive or of two literals where it needs no gate: one is constant, or both are of one node.
fn plain_difference(a: Lit, b: Lit) -> Option<Lit>
    ensures within { IfSome result (λ c. (n : ℕ) → a.node < n → b.node < n → c.node < n) }
    ensures value { IfSome result (λ c. (v : ℕ → Bool) → v 0 ≡ false → holds v c ≡ differ (holds v a) (holds v b)) }
{
    if a.node == 0 {
        return Some(if a.negated { !b } else { b });
    }
    if b.node == 0 {
        return Some(if b.negated { !a } else { a });
    }
    if a.node == b.node {
        return Some(Lit {
            node: 0,
            negated: a.negated != b.negated,
        });
    }
    None
}

// The literal that a form of one node is, or of none, where there are so many nodes.
fn short(form: &Form, count: usize) -> Option<Lit>
    requires { 0 < count }
    ensures within { IfSome result (λ c. c.node < count) }
    ensures value { IfSome result (λ c. (v : ℕ → Bool) → v 0 ≡ false → holds v c ≡ value_of v form.now.odd form.now.nodes.items) }
{
    if form.nodes.is_empty() {
        return Some(Lit::constant(form.odd));
    }
    let node = form.nodes[0];
    if form.nodes.len() == 1 && node < count {
        return Some(Lit {
            node,
            negated: form.odd,
        });
    }
    None
}

impl Model for Aig {
    ghost use Rattle.std.specs.Prelude.{List};
    ghost use Rattle.aig.specs.declared.gate.Gate.{Gate};
    ghost use Rattle.aig.specs.Table.{IsKept};

    ghost Value = { List Gate };

    ghost view = { λ a. a.gates.items };

    ghost invariant = { λ a. IsKept a.inputs a.gates.items a.index a.sums };
}

impl Aig {
    /// The graph with node 0 alone.
    pub fn new(alloc: Global) -> Result<Aig, AllocError>
        ensures { IfOk result (λ aig. aig ≡ False ∷ []) }
    {
        let mut gates = Vec::new(alloc);
        let mut index = HashIndex::new(alloc);
        push_gate(&mut gates, &mut index, Gate::False)?;
        Ok(Aig {
            gates,
            inputs: 0,
            index,
            sums: Table::new(alloc),
        })
    }

    /// The allocator that the graph takes its memory from.
    pub fn allocator(&self) -> Global {
        *self.gates.allocator()
    }

    /// The number of nodes.
    pub fn len(&self) -> usize
        ensures is { result ≡ length self.now }
        ensures graph { IsGraph self.now }
    {
        self.gates.len()
    }

    /// The number of inputs.
    pub fn input_count(&self) -> usize
        ensures { result ≡ count_inputs self.now }
    {
        self.inputs
    }

    /// What a node is. Node 0 is false, inputs are numbered from 0 in the order in which they were made, and the operands
    /// of a conjunction are earlier nodes.
    pub fn gate(&self, node: usize) -> Gate
        requires { node < length self.now }
        ensures is { result ≡ gate_at self.now node }
        ensures graph { IsGraph self.now }
    {
        self.gates[node]
    }

    /// One more input. Where memory runs out nothing has changed.
    pub fn input(&mut self) -> Result<Lit, AllocError>
        ensures gates { IfOk result (λ l. self.new ≡ self.old ++ Input (count_inputs self.old) ∷ []) }
        ensures literal { IfOk result (λ l. l ≡ record { node = length self.old; negated = false }) }
        ensures count { IfOk result (λ l. count_inputs self.new ≡ count_inputs self.old + 1) }
        ensures value { IfOk result (λ l. (inputs : List Bool) → value inputs self.new l ≡ slice_index_or inputs (count_inputs self.old) false) }
        ensures kept { KeepsValues self.old self.new }
        ensures graph { IsGraph self.new }
        ensures refused { IfErr result (λ e. self.new ≡ self.old) }
    {
        let gate = Gate::Input(self.inputs);
        let node = push_gate(&mut self.gates, &mut self.index, gate)?;
        self.inputs += 1;
        Ok(Lit {
            node,
            negated: false,
        })
    }

    // The conjunction of two operands that need a gate, the lower of which comes first.
    fn gate_of(&mut self, a: Lit, b: Lit) -> Result<Lit, AllocError>
        requires some { 0 < a.node }
        requires ordered { a.node < b.node }
        requires b_in { IsIn self.old b }
        ensures is { IfOk result (λ c. IsNodeOf self.old a b self.new c.node) }
        ensures plain { IfOk result (λ c. c.negated ≡ false) }
        ensures value { IfOk result (λ c. IsBoth self.new a b c) }
        ensures refused { IfErr result (λ e. self.new ≡ self.old) }
        ensures graph { IsGraph self.new }
        ensures hashed { IsHashed self.old }
    {
        let node = node_of(&mut self.gates, &mut self.index, a, b)?;
        Ok(Lit {
            node,
            negated: false,
        })
    }

    /// The conjunction of two literals: a constant or an operand where these decide, the node that has these operands in
    /// either order where there is one, and else a new node. Where memory runs out nothing has changed.
    pub fn and(&mut self, a: Lit, b: Lit) -> Result<Lit, AllocError>
        requires a_in { IsIn self.old a }
        requires b_in { IsIn self.old b }
        ensures within { IfOk result (λ c. IsIn self.new c) }
        ensures value { IfOk result (λ c. IsBoth self.new a b c) }

        // What is made: at most one node, and none where the operands decide or where memory runs out.
        ensures grows { Grows self.old self.new }
        ensures nodes { length self.new ≤ length self.old + 1 }
        ensures no_gate { NeedsNoGate a b → self.new ≡ self.old }
        ensures flat { length self.old ≤ 1 → length self.new ≤ 1 }
        ensures refused { IfErr result (λ e. self.new ≡ self.old) }

        // Which literal is answered, and that operands that have a node in either order make no other.
        ensures simplified { IfOk result (IsSimplified a b) }
        ensures gate { IfOk result (λ c. ¬ NeedsNoGate a b → IsGateOf self.new a b c) }
        ensures shared { (c : Lit) → IsGateOf self.old a b c → (self.new ≡ self.old) × IfOk result (λ d. d ≡ c) }

        // What stays.
        ensures kept { KeepsValues self.old self.new }
        ensures graph { IsGraph self.new }
    {
        prove!(a.node < self.gates.len());
        if let Some(c) = without_gate(a, b) {
            return Ok(c);
        }
        if a.node < b.node {
            self.gate_of(a, b)
        } else {
            self.gate_of(b, a)
        }
    }

    // The exclusive or of two literals as a form, and whether nodes cancel in it.
    fn joined(&self, alloc: Global, a: Lit, b: Lit) -> Result<Joined, AllocError>
        ensures { IfOk result (λ joined. (v : ℕ → Bool) → Obeys v self.now → value_of v joined.form.odd joined.form.nodes.items ≡ differ (holds v a) (holds v b)) }
    {
        let one = self.sums.form_of(alloc, a.node, a.negated)?;
        let other = self.sums.form_of(alloc, b.node, b.negated)?;
        let form = sum(alloc, &one, &other)?;
        let count = one.nodes.len().saturating_add(other.nodes.len());
        let cancels = form.nodes.len() < count;
        Ok(Joined { form, cancels })
    }

    // The exclusive or of two literals as a form.
    fn form_of(&self, alloc: Global, a: Lit, b: Lit) -> Result<Form, AllocError>
        ensures { IfOk result (λ form. (v : ℕ → Bool) → Obeys v self.now → value_of v form.odd form.nodes.items ≡ differ (holds v a) (holds v b)) }
    {
        let Joined { form, cancels: _ } = self.joined(alloc, a, b)?;
        Ok(form)
    }

    // The literal that is known to be a form, if there is one.
    fn known(&self, form: &Form) -> Option<Lit>
        ensures within { IfSome result (λ c. IsIn self.now c) }
        ensures value { IfSome result (λ c. (v : ℕ → Bool) → Obeys v self.now → holds v c ≡ value_of v form.now.odd form.now.nodes.items) }
    {
        if let Some(c) = short(form, self.gates.len()) {
            return Some(c);
        }
        let known = self.sums.known(form)?;
        Some(Lit {
            node: known.node,
            negated: known.odd,
        })
    }

    // The literal that is known to be the exclusive or of two, if there is one.
    fn known_difference(&self, alloc: Global, a: Lit, b: Lit) -> Result<Option<Lit>, AllocError>
        ensures within { IfOk result (λ o. IfSome o (λ c. IsIn self.now c)) }
        ensures value { IfOk result (λ o. IfSome o (λ c. (v : ℕ → Bool) → Obeys v self.now → holds v c ≡ differ (holds v a) (holds v b))) }
    {
        let form = self.form_of(alloc, a, b)?;
        Ok(self.known(&form))
    }

    // The operands of a node that is a conjunction.
    fn conjunction(&self, node: usize) -> Option<Halves>
        requires { node < length self.now }
        ensures is { IfSome result (λ h. gate_at self.now node ≡ And h.first h.second) }
        ensures first { IfSome result (λ h. IsIn self.now h.first) }
        ensures second { IfSome result (λ h. IsIn self.now h.second) }
    {
        operands(self.gate(node))
    }

    /// The two literals of which one is the exclusive or, where its gates are those that `xor` makes of them: the conjunction of two
    /// negated conjunctions that have the same operands, in the one of them negated.
    pub fn halves(&self, c: Lit) -> Option<Halves>
        requires { IsIn self.now c }
        ensures first { IfSome result (λ h. IsIn self.now h.first) }
        ensures second { IfSome result (λ h. IsIn self.now h.second) }
        ensures value { IfSome result (λ h. IsDifference self.now h.first h.second c) }
    {
        // For the proof: recalls what the type promises of it.
        let _ = &self.gates;
        let top = self.conjunction(c.node)?;
        if !top.first.negated || !top.second.negated {
            return None;
        }
        let both = self.conjunction(top.first.node)?;
        let neither = self.conjunction(top.second.node)?;
        if !are_negations(neither, both) {
            return None;
        }
        let first = Lit {
            node: both.first.node,
            negated: both.first.negated != c.negated,
        };
        let second = both.second;
        Some(Halves { first, second })
    }

    // Two literals whose exclusive or is that of the two given ones: one half of the first, and what the other half and the second are
    // known to differ by.
    fn moved(&self, alloc: Global, a: Lit, b: Lit) -> Result<Option<Halves>, AllocError>
        requires a_in { IsIn self.now a }
        requires b_in { IsIn self.now b }
        ensures first { IfOk result (λ o. IfSome o (λ h. IsIn self.now h.first)) }
        ensures second { IfOk result (λ o. IfSome o (λ h. IsIn self.now h.second)) }
        ensures value { IfOk result (λ o. IfSome o (λ h. (v : ℕ → Bool) → Obeys v self.now → differ (holds v h.first) (holds v h.second) ≡ differ (holds v a) (holds v b))) }
    {
        let Some(h) = self.halves(a) else {
            return Ok(None);
        };
        if let Some(first) = self.known_difference(alloc, h.first, b)? {
            let second = h.second;
            return Ok(Some(Halves { first, second }));
        }
        if let Some(first) = self.known_difference(alloc, h.second, b)? {
            let second = h.first;
            return Ok(Some(Halves { first, second }));
        }
        Ok(None)
    }

    // The two literals of which the exclusive or of two others is made: where their forms share nodes it is moved onto the half of one
    // that is left, if that is known, and else it is made of the two themselves.
    fn operands_of(
        &self,
        alloc: Global,
        a: Lit,
        b: Lit,
        cancels: bool,
    ) -> Result<Halves, AllocError>
        requires a_in { IsIn self.now a }
        requires b_in { IsIn self.now b }
        ensures first { IfOk result (λ h. IsIn self.now h.first) }
        ensures second { IfOk result (λ h. IsIn self.now h.second) }
        ensures value { IfOk result (λ h. (v : ℕ → Bool) → Obeys v self.now → differ (holds v h.first) (holds v h.second) ≡ differ (holds v a) (holds v b)) }
    {
        if cancels {
            if let Some(h) = self.moved(alloc, a, b)? {
                return Ok(h);
            }
            if let Some(h) = self.moved(alloc, b, a)? {
                return Ok(h);
            }
        }
        Ok(Halves {
            first: a,
            second: b,
        })
    }

    // Notes that a literal is a form.
    fn note(&mut self, alloc: Global, c: Lit, form: Form) -> Result<(), AllocError>
        requires within { IsIn self.old c }
        requires value { (v : ℕ → Bool) → Obeys v self.old → holds v c ≡ value_of v form.odd form.nodes.items }
        ensures { self.new ≡ self.old }
    {
        let room = self
            .gates
            .len()
            .saturating_mul(FORM_NODES)
            .saturating_add(FIRST_FORM_NODES);
        let form = turned(form, c.negated);
        self.sums.put(alloc, c.node, form, room)
    }

    // The exclusive or of two literals by gates, where their conjunction is there.
    fn difference(&mut self, a: Lit, b: Lit, carry: Lit) -> Result<Lit, AllocError>
        requires a_in { IsIn self.old a }
        requires b_in { IsIn self.old b }
        requires carry_in { IsIn self.old carry }
        requires carry { IsBoth self.old a b carry }
        ensures within { IfOk result (λ c. IsIn self.new c) }
        ensures value { IfOk result (λ c. IsDifference self.new a b c) }
        ensures grows { Grows self.old self.new }
        ensures nodes { length self.new ≤ length self.old + 2 }
        ensures flat { length self.old ≤ 1 → length self.new ≤ 1 }
    {
        let neither = self.and(!a, !b)?;
        self.and(!carry, !neither)
    }

    // The exclusive or of two literals by gates, where their conjunction is there, and their form.
    fn made(
        &mut self,
        alloc: Global,
        a: Lit,
        b: Lit,
        carry: Lit,
        form: Form,
    ) -> Result<Lit, AllocError>
        requires a_in { IsIn self.old a }
        requires b_in { IsIn self.old b }
        requires carry_in { IsIn self.old carry }
        requires carry { IsBoth self.old a b carry }
        requires form { (v : ℕ → Bool) → Obeys v self.old → value_of v form.odd form.nodes.items ≡ differ (holds v a) (holds v b) }
        ensures within { IfOk result (λ c. IsIn self.new c) }
        ensures value { IfOk result (λ c. IsDifference self.new a b c) }
        ensures grows { Grows self.old self.new }
        ensures nodes { length self.new ≤ length self.old + 2 }
        ensures flat { length self.old ≤ 1 → length self.new ≤ 1 }
    {
        let c = self.difference(a, b, carry)?;
        self.note(alloc, c, form)?;
        Ok(c)
    }

    // The exclusive or of two literals, by gates where it needs some, and their form.
    fn xor_by(&mut self, alloc: Global, a: Lit, b: Lit, form: Form) -> Result<Lit, AllocError>
        requires a_in { IsIn self.old a }
        requires b_in { IsIn self.old b }
        requires form { (v : ℕ → Bool) → Obeys v self.old → value_of v form.odd form.nodes.items ≡ differ (holds v a) (holds v b) }
        ensures within { IfOk result (λ c. IsIn self.new c) }
        ensures value { IfOk result (λ c. IsDifference self.new a b c) }
        ensures grows { Grows self.old self.new }
        ensures nodes { length self.new ≤ length self.old + 3 }
        ensures flat { length self.old ≤ 1 → length self.new ≤ 1 }
    {
        // For the proof: recalls what the type promises of it.
        let _ = &self.gates;
        if let Some(c) = plain_difference(a, b) {
            return Ok(c);
        }
        let carry = self.and(a, b)?;
        self.made(alloc, a, b, carry, form)
    }

    /// Whether two literals differ (exclusive or): the literal of the same nodes, as far as these are known, or three gates at most.
    /// Where nodes cancel these are the gates of one half of an operand, and of what the rest is known to be, if it is.
    pub fn xor(&mut self, a: Lit, b: Lit) -> Result<Lit, AllocError>
        requires a_in { IsIn self.old a }
        requires b_in { IsIn self.old b }
        ensures within { IfOk result (λ c. IsIn self.new c) }
        ensures value { IfOk result (λ c. IsDifference self.new a b c) }
        ensures grows { Grows self.old self.new }
        ensures nodes { length self.new ≤ length self.old + 3 }
        ensures flat { length self.old ≤ 1 → length self.new ≤ 1 }
    {
        let alloc = *self.gates.allocator();
        if let Some(c) = plain_difference(a, b) {
            return Ok(c);
        }
        let Joined { form, cancels } = self.joined(alloc, a, b)?;
        if let Some(c) = self.known(&form) {
            return Ok(c);
        }
        let parts = self.operands_of(alloc, a, b, cancels)?;
        self.xor_by(alloc, parts.first, parts.second, form)
    }

    /// The sum of two literals: their conjunction, and whether they differ, by three gates at most.
    pub fn half_sum(&mut self, a: Lit, b: Lit) -> Result<HalfSum, AllocError>
        requires a_in { IsIn self.old a }
        requires b_in { IsIn self.old b }
        ensures sum_in { IfOk result (λ s. IsIn self.new s.sum) }
        ensures carry_in { IfOk result (λ s. IsIn self.new s.carry) }
        ensures sum { IfOk result (λ s. IsDifference self.new a b s.sum) }
        ensures carry { IfOk result (λ s. IsBoth self.new a b s.carry) }
        ensures grows { Grows self.old self.new }
        ensures nodes { length self.new ≤ length self.old + 3 }
        ensures flat { length self.old ≤ 1 → length self.new ≤ 1 }
    {
        let carry = self.and(a, b)?;
        if let Some(sum) = plain_difference(a, b) {
            return Ok(HalfSum { sum, carry });
        }
        let alloc = *self.gates.allocator();
        let form = self.form_of(alloc, a, b)?;
        let sum = match self.known(&form) {
            Some(c) => c,
            None => self.made(alloc, a, b, carry, form)?,
        };
        Ok(HalfSum { sum, carry })
    }

    /// The value of a literal, where the inputs have these values, by their numbers. Each node that it rests on is
    /// evaluated once.
    pub fn eval(&self, alloc: Global, inputs: &[bool], at: Lit) -> Result<bool, AllocError>
        requires inputs { length inputs.now ≡ count_inputs self.now }
        requires at_in { IsIn self.now at }
        ensures { IfOk result (λ b. b ≡ value inputs.now self.now at) }
    {
        value_at(alloc, self.gates.as_slice(), inputs, at)
    }
}
