//! The nodes that values reach, without the others.

ghost use Rattle.std.specs.Prelude.{◌≡◌, ◌∷◌, ◌++◌, [], true, false, length, IfOk, OnOk, slice_index_or, if◌then◌else◌};
ghost use Rattle.net_order.specs.Rows.{AreMarked};

use std::alloc::{AllocError, Global};

/// Nodes of an arena, in one row in the order of their numbers.
pub struct Used {
    pub nodes: Vec<usize>,
    /// For each node of the arena how many of the row are before it, which is its place in the row if it has one.
    pub places: Vec<usize>,
}

impl Drop for Used {
    fn drop(self) {
        let Used {
            nodes: _,
            places: _,
        } = self;
    }
}

// Puts a node behind others, where it is marked.
fn put_marked(nodes: &mut Vec<usize>, marked: bool, node: usize) -> Result<(), AllocError>
    ensures { OnOk result (nodes.new.items ≡ nodes.old.items ++ (if marked then node ∷ [] else [])) }
{
    if marked {
        nodes.push(node)?;
    }
    Ok(())
}

/// The nodes that are marked.
#[tactic(auto, using(crate::proofs::Listing::marked_none, crate::proofs::Listing::marked_more))]
pub fn used_of(alloc: Global, marks: &[bool]) -> Result<Used, AllocError>
    ensures { IfOk result (λ used. AreMarked marks.now used.nodes.items used.places.items (length marks.now)) }
{
    let mut nodes = Vec::new(alloc);
    let mut places = Vec::with_capacity(alloc, marks.len())?;
    'nodes: for node in 0..marks.len() {
        places.push(nodes.len())?;
        put_marked(&mut nodes, marks[node], node)?;
    }
    Ok(Used { nodes, places })
}
