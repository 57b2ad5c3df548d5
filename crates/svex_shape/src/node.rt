//! The numbers of nodes.

ghost use Rattle.std.specs.Prelude.{◌≡◌};

use std::marker::Model;

/// A node of an arena. Contracts see its number.
#[derive(Clone, Copy, PartialEq, Eq)]
pub struct Node {
    index: usize,
}

impl Model for Node {
    ghost use Rattle.std.specs.Prelude.{ℕ};

    ghost Value = { ℕ };

    ghost view = { λ a. a.index };

    ghost inverse = { λ n. record { index = n } };
}

impl Node {
    /// The node with a number. An arena has it where the number is below the arena's length.
    pub fn new(index: usize) -> Node
        ensures { result ≡ index }
    {
        Node { index }
    }

    /// The number of a node.
    pub fn index(&self) -> usize
        ensures { result ≡ self.now }
    {
        self.index
    }
}
