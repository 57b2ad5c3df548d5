//! Forms, and their sums.

ghost use Rattle.std.specs.Prelude.{◌≡◌, ℕ, Bool, IfOk, IfSome};
ghost use Rattle.xor_forms.specs.Forms.{differ, sum_of, value_of};

use std::alloc::{AllocError, Global};

/// The exclusive or of the values of some nodes, or its negation where it is odd. (Nodes in their order, each once, make a form unique.)
#[derive(Drop)]
pub struct Form {
    pub nodes: Vec<usize>,
    pub odd: bool,
}

// The nodes that stand in one of two lists but not in both, where each is in order.
fn apart(alloc: Global, a: &[usize], b: &[usize]) -> Result<Vec<usize>, AllocError>
    ensures { IfOk result (λ nodes. (v : ℕ → Bool) → sum_of v nodes.items ≡ differ (sum_of v a.now) (sum_of v b.now)) }
{
    let mut i = 0;
    let mut j = 0;
    let mut nodes = Vec::with_capacity(alloc, a.len())?;
    while i < a.len() && j < b.len() {
        if a[i] < b[j] {
            nodes.push(a[i])?;
            i += 1;
        } else if b[j] < a[i] {
            nodes.push(b[j])?;
            j += 1;
        } else {
            i += 1;
            j += 1;
        }
    }
    nodes.extend_from_slice(&a[i..])?;
    nodes.extend_from_slice(&b[j..])?;
    Ok(nodes)
}

/// The exclusive or of two forms.
pub fn sum(alloc: Global, a: &Form, b: &Form) -> Result<Form, AllocError>
    ensures { IfOk result (λ form. (v : ℕ → Bool) → value_of v form.odd form.nodes.items ≡ differ (value_of v a.now.odd a.now.nodes.items) (value_of v b.now.odd b.now.nodes.items)) }
{
    let nodes = apart(alloc, a.nodes.as_slice(), b.nodes.as_slice())?;
    Ok(Form {
        nodes,
        odd: a.odd != b.odd,
    })
}
