// A goal as gates. The claims read samples: these are put in for their variables first, in the graph of nodes itself, so that the gates
// are of nodes over the variables of the table alone. What is put in is shared with the samples' nodes, so the gates of each node
// that the goal reaches are counted once.
ghost use Rattle.std.specs.Prelude.{◌≡◌, ◌+◌, ◌<◌, ◌≤◌, ◌++◌, [], ℕ, All, IfOk, IsTrue, Some, length, map};
ghost use Rattle.choice_inputs.specs.Questions.{Tells};
ghost use Rattle.goal_gates.specs.Goals.{IsMeeting, IsBreaking, goal_of, is_chosen};
ghost use Rattle.goal_gates.specs.Rooms.{FitsRoom};
ghost use Rattle.svex_arena.specs.Arenas.{Extends};
ghost use Rattle.svex_shape.specs.Shapes.{width_at};
ghost use Rattle.svex_shape.specs.Values.{each_variable};
ghost use Rattle.svtv_table.specs.Binding.{HasWidth};

use crate::gates::gates_of;
use aig::{Aig, Lit};
use std::alloc::{AllocError, Global};
use svex_arena::{Arena, Node, Subst};
use svtv_table::VarDecl;

/// A graph of gates, a literal that is true under each choice that meets the hypotheses, and one that is true under each of these
/// that breaks the claims.
pub struct Posed {
    pub aig: Aig,
    pub meets: Lit,
    pub breaks: Lit,
}

impl Drop for Posed {
    fn drop(self) {
        let Posed {
            aig: _,
            meets: _,
            breaks: _,
        } = self;
    }
}

impl Posed {
    /// The graph alone.
    pub fn into_aig(self) -> Aig
        ensures { result ≡ self.aig }
    {
        let Posed {
            aig,
            meets: _,
            breaks: _,
        } = self;
        aig
    }
}

fn joined(
    alloc: Global,
    hyps: &[Node],
    claims: &[Node],
    samples: &[Node],
) -> Result<Vec<Node>, AllocError>
    ensures { IfOk result (λ nodes. nodes.items ≡ (hyps.now ++ claims.now) ++ samples.now) }
{
    let mut nodes = hyps.to_vec(alloc)?;
    nodes.extend_from_slice(claims)?;
    nodes.extend_from_slice(samples)?;
    Ok(nodes)
}

// The samples in place of their variables.
fn by_samples(alloc: Global, samples: &[Node]) -> Result<Subst, AllocError>
    ensures { IfOk result (λ by. by ≡ record { present = []; previous = []; stim = []; chosen = []; sampled = map Some samples.now }) }
{
    let mut sampled = Vec::new(alloc);
    for at in 0..samples.len() {
        sampled.push(Some(samples[at]))?;
    }
    Ok(Subst {
        present: Vec::new(alloc),
        previous: Vec::new(alloc),
        stim: Vec::new(alloc),
        chosen: Vec::new(alloc),
        sampled,
    })
}

/// The gates of a goal. The nodes that there were stay, also where memory runs out.
pub fn pose(
    alloc: Global,
    arena: &mut Arena,
    vars: &[VarDecl],
    samples: &[Node],
    hyps: &[Node],
    claims: &[Node],
) -> Result<Posed, AllocError>
    requires samples { All (λ node. node < length arena.old) samples.now }
    requires chosen { All (λ node. IsTrue (each_variable is_chosen arena.old node)) samples.now }
    requires hyps { All (λ node. node < length arena.old) hyps.now }
    requires claims { All (λ node. node < length arena.old) claims.now }
    requires one_bit { All (λ node. width_at arena.old node ≡ 1) hyps.now }
    requires one_bit_claims { All (λ node. width_at arena.old node ≡ 1) claims.now }
    ensures meets { IfOk result (λ p. Tells vars.now (IsMeeting (goal_of arena.old vars.now samples.now hyps.now claims.now)) p.aig p.meets) }
    ensures breaks { IfOk result (λ p. Tells vars.now (IsBreaking (goal_of arena.old vars.now samples.now hyps.now claims.now)) p.aig p.breaks) }
    ensures room { IfOk result (λ p. FitsRoom (goal_of arena.old vars.now samples.now hyps.now claims.now) p.aig) }
    ensures extends { Extends arena.old arena.new }
{
    // For the proof: recalls what the type promises of it.
    let _ = arena.len();
    let roots = joined(alloc, hyps, claims, samples)?;
    let by = by_samples(alloc, samples)?;
    let answers = arena.substitute(alloc, &roots, &by)?;
    let mut aig = Aig::new(alloc)?;
    let (meets, breaks) = gates_of(
        alloc,
        arena,
        &mut aig,
        &answers[..hyps.len() + claims.len()],
        hyps.len(),
        vars,
    )?;
    Ok(Posed { aig, meets, breaks })
}
