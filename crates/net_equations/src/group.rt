// Groups of equations, and what is made of equations.

ghost use Rattle.std.specs.Prelude.{◌≡◌};
ghost use Rattle.net_equations.specs.declared.group.ComposeErr.TheVariants.{Memory};

use items::Items;
use std::alloc::AllocError;
use svex_arena::Node;
use thiserror::Error;

/// Equations that depend on each other in the present, by their numbers.
pub struct Group {
    pub members: Items<usize>,
}

impl Drop for Group {
    fn drop(self) {
        let Group { members: _ } = self;
    }
}

/// A node for each equation.
pub struct Composed {
    pub nodes: Items<Node>,
}

impl Drop for Composed {
    fn drop(self) {
        let Composed { nodes: _ } = self;
    }
}

/// Why no nodes were made.
#[derive(Clone, Copy, Debug, Error)]
pub enum ComposeErr {
    /// A group has so many bits, which are over 1,024.
    #[error("a loop of {0} bits")]
    LoopTooWide(u64),
    #[error("out of memory")]
    Memory,
}

impl From<AllocError> for ComposeErr {
    ghost from_gives = { λ _ e. e ≡ Memory };

    fn from(_: AllocError) -> Self {
        ComposeErr::Memory
    }
}
