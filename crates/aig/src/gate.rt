//! Literals and gates.

ghost use Rattle.std.specs.Prelude.{◌≡◌, not};
ghost use Rattle.aig.specs.Graph.{negation, constant_lit};
ghost use Rattle.aig.specs.Conjunction.{IsPlain};

use std::ops::Not;

/// A node, or its negation.
#[derive(Clone, Copy, PartialEq, Eq, PartialOrd, Ord)]
pub struct Lit {
    pub node: usize,
    pub negated: bool,
}

/// What a node is: false, an input by its number, or true where both operands are.
#[derive(Clone, Copy, PartialEq, Eq)]
pub enum Gate {
    False,
    Input(usize),
    And(Lit, Lit),
}

impl Lit {
    /// The literal that has this value whatever the inputs are: node 0, which is false, or its negation.
    pub const fn constant(value: bool) -> Lit
        ensures { result ≡ constant_lit value }
    {
        Lit {
            node: 0,
            negated: value,
        }
    }
}

impl Not for Lit {
    type Output = Lit;

    ghost not_gives = { λ l m. m ≡ negation l };

    /// The negation.
    fn not(self) -> Lit {
        Lit {
            node: self.node,
            negated: !self.negated,
        }
    }
}

/// The conjunction of two literals where it needs no gate: one is constant, or both are of one node.
pub fn without_gate(a: Lit, b: Lit) -> Option<Lit>
    ensures { IsPlain a b result }
{
    if a.node == 0 {
        return Some(if a.negated { b } else { a });
    }
    if b.node == 0 {
        return Some(if b.negated { a } else { b });
    }
    if a.node == b.node {
        return Some(if a.negated == b.negated {
            a
        } else {
            Lit::constant(false)
        });
    }
    None
}
