//! The rails of nodes: inputs for the variables first, then the vectors of all nodes that the roots reach, and then those of the roots as
//! two words of literals each. Contracts below speak of all values of the nodes that obey the graph; here they come to the values that
//! the inputs give, which are the choices of a table.

ghost use Rattle.std.specs.Prelude.{◌≡◌, ℕ, Bool, true, List, ◌+◌, ◌<◌, ◌≤◌, IfOk, OnOk, length, map, slice_index, slice_index_or};
ghost use Rattle.std.specs.List.{All};
ghost use Rattle.aig.specs.Graph.{count_inputs, KeepsValues};
ghost use Rattle.svex_arena.specs.Marks.{IsClosed, HasRoots};
ghost use Rattle.svex_shape.specs.Shapes.{width_at};
ghost use Rattle.svex_blast.specs.Sizes.{gates_to};
ghost use Rattle.svex_blast.specs.Reads.{word_in};
ghost use Rattle.svex_blast.specs.Knowns.{is_known_node};
ghost use Rattle.svex_blast.specs.Chosen.{Extends, Planes, widths_of, bits_of, planes_of, AreWired, AreRails};

use crate::inputs::variables;
use crate::nodes::vector_of;
use crate::walk::all_vectors;
use aig::{Aig, Lit};
use items::Items;
use pair_words::Pair;
use std::alloc::{AllocError, Global};
use std::marker::Model;
use svex_arena::{Arena, Node};
use svtv_table::VarDecl;

/// A vector as two words of literals, the least significant first: at each place 1 is (1,1), 0 is (0,0), X is (1,0) and Z is (0,1) in
/// (`up`, `low`). Contracts see two lists of literals.
#[derive(Drop)]
pub struct Rails {
    pub up: Vec<Lit>,
    pub low: Vec<Lit>,
}

impl Model for Rails {
    ghost use Rattle.svex_blast.specs.Chosen.{Planes};

    ghost Value = { Planes };

    ghost view = { λ r. record { up = r.up.items; low = r.low.items } };
}

// The rails of pairs.
fn rails_of(alloc: Global, word: &[Pair]) -> Result<Rails, AllocError>
    ensures { IfOk result (λ r. r ≡ planes_of word.now) }
{
    let mut up = Vec::new(alloc);
    let mut low = Vec::new(alloc);
    for i in 0..word.len() {
        up.push(word[i].up)?;
        low.push(word[i].low)?;
    }
    Ok(Rails { up, low })
}

// The rails of the roots.
fn all_rails(alloc: Global, roots: &[Node], done: &[Items<Pair>]) -> Result<Vec<Rails>, AllocError>
    requires { All (λ k. k < length done.now) roots.now }
    ensures { IfOk result (λ r. r.items ≡ map (λ k. planes_of (word_in done.now k)) roots.now) }
{
    let mut all: Vec<Rails> = Vec::new(alloc);
    for i in 0..roots.len() {
        let rails = rails_of(alloc, vector_of(done, roots[i]))?;
        all.push(rails)?;
    }
    Ok(all)
}

/// The rails of the roots, over a graph that has no inputs yet. It gets one input for each bit of the variables, by variable and then
/// from the least significant bit on.
pub fn blast(
    alloc: Global,
    arena: &Arena,
    aig: &mut Aig,
    roots: &[Node],
    vars: &[VarDecl],
) -> Result<Vec<Rails>, AllocError>
    requires roots { (i : ℕ) → i < length roots.now → slice_index roots.now i < length arena.now }
    requires no_inputs { count_inputs aig.old ≡ 0 }
    ensures inputs { OnOk result (count_inputs aig.new ≡ bits_of (widths_of vars.now)) }
    ensures long { IfOk result (λ r. length r.items ≡ length roots.now) }

    // The rails are words of the graph, as wide as the roots, and show their values under all values of the inputs.
    ensures wired { IfOk result (λ r. (i : ℕ) (d : Planes) → i < length roots.now
        → AreWired aig.new (width_at arena.now (slice_index roots.now i)) (slice_index_or r.items i d)) }
    ensures rails { IfOk result (λ r. (i : ℕ) (d : Planes) → i < length roots.now
        → AreRails vars.now arena.now aig.new (slice_index roots.now i) (slice_index_or r.items i d)) }

    // Where no bit of a root can be unknown, by its shape and those below it, both rails are the same literals.
    ensures shared { IfOk result (λ r. (i : ℕ) (d : Planes) → i < length roots.now
        → is_known_node (widths_of vars.now) arena.now (slice_index roots.now i) ≡ true
        → (slice_index_or r.items i d).up ≡ (slice_index_or r.items i d).low) }

    // Besides the inputs there are no more nodes than those that the roots reach may take, whichever marks name these, and there
    // is no node at all where the variables have no bits.
    ensures nodes { OnOk result ((marks : List Bool) → length marks ≡ length arena.now
        → HasRoots roots.now marks (length roots.now) → IsClosed arena.now marks 0
        → length aig.new ≤ length aig.old + bits_of (widths_of vars.now) + gates_to arena.now marks (length marks)) }

    // The nodes that there were keep their numbers and gates, also where memory runs out, and so their values.
    ensures extends { Extends aig.old aig.new }
    ensures kept { OnOk result (KeepsValues aig.old aig.new) }
    ensures none { OnOk result (bits_of (widths_of vars.now) ≡ 0 → length aig.old ≤ 1 → length aig.new ≤ 1) }
{
    let words = variables(alloc, aig, vars)?;
    // For the proof: recalls what the type promises of it.
    let _ = aig.len();
    let marks = arena.reached(alloc, roots)?;
    let done = all_vectors(alloc, arena, aig, &marks, &words)?;
    // For the proof: recalls what the type promises of it.
    let _ = aig.len();
    let rails = all_rails(alloc, roots, &done)?;
    Ok(rails)
}
