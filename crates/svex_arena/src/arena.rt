//! The arena: nodes by number, no two with equal shapes. Shapes and widths are lists of their own with one place for each node, so
//! that contracts see the list of shapes alone. Beside them stands an index of the hashes of the shapes in the same order, which is
//! meant to keep a look for a shape short whatever the design was written for; no clause says how short. Room in both lists is made
//! before a node is put into them and the index, so that none is left half added.

ghost use Rattle.std.specs.Prelude.{◌≡◌, ℕ, ◌<◌, ◌≤◌, ◌+◌, [], ◌∷◌, ◌++◌, length, map, take, slice_index, IfOk, IfSome, IfNone, OnOk, OnErr, IsTrue};
ghost use Rattle.svex_shape.specs.Shapes.{ChildrenBelow, FitsWidths, IsWidth, OnChildren, shape_at, width_at, width_of};
ghost use Rattle.svex_shape.specs.Values.{value_at, read, held, has_variable, each_variable};
ghost use Rattle.svex_arena.specs.Arenas.{IsArena, IsKept, Interned, Extends};
ghost use Rattle.svex_arena.specs.Hashes.{hash_of};
ghost use Rattle.svex_arena.specs.Looks.{HasNone};
ghost use Rattle.svex_arena.specs.Marks.{IsClosed, HasRoots, OnlyReached};

use crate::eval::node_value;
use crate::hashing::hash;
use crate::marks::marks_of;
use fourvec::Four;
use hash_index::HashIndex;
use std::alloc::{AllocError, Global};
use std::marker::Model;
use svex_shape::{Env, Node, Shape, same, shape_width};

/// A graph of expressions in which no two nodes have equal shapes. Contracts see the list of its shapes, by the numbers of the
/// nodes; children have lower numbers.
pub struct Arena {
    shapes: Vec<Shape>,
    widths: Vec<u8>,
    index: HashIndex,
}

impl Drop for Arena {
    fn drop(self) {
        let Arena {
            shapes: _,
            widths: _,
            index: _,
        } = self;
    }
}

impl Model for Arena {
    ghost use Rattle.std.specs.Prelude.{List};
    ghost use Rattle.svex_shape.specs.declared.shape.Shape.{Shape};
    ghost use Rattle.svex_arena.specs.Arenas.{IsKept};

    ghost Value = { List Shape };

    ghost view = { λ a. a.shapes.items };

    ghost invariant = { λ a. IsKept a.shapes.items a.widths.items a.index };
}

// The node that has a shape.
fn find(shapes: &[Shape], index: &HashIndex, shape: &Shape) -> Option<usize>
    requires hashed { index.now ≡ map hash_of shapes.now }
    ensures within { IfSome result (λ k. k < length shapes.now) }
    ensures found { IfSome result (λ k. shape_at shapes.now k ≡ shape.now) }
    ensures none { IfNone result (HasNone shapes.now shape.now (length shapes.now)) }
{
    index.find(hash(shape), |node| same(&shapes[node], shape))
}

// Adds a node.
fn push_node(
    alloc: Global,
    shapes: &mut Vec<Shape>,
    widths: &mut Vec<u8>,
    index: &mut HashIndex,
    shape: &Shape,
    width: u8,
) -> Result<(), AllocError>
    ensures shapes { OnOk result (shapes.new.items ≡ shapes.old.items ++ shape.now ∷ []) }
    ensures widths { OnOk result (widths.new.items ≡ widths.old.items ++ width ∷ []) }
    ensures index { OnOk result (index.new ≡ index.old ++ hash_of shape.now ∷ []) }
    ensures shapes_kept { OnErr result (shapes.new.items ≡ shapes.old.items) }
    ensures widths_kept { OnErr result (widths.new.items ≡ widths.old.items) }
    ensures index_kept { OnErr result (index.new ≡ index.old) }
{
    shapes.reserve(1)?;
    widths.reserve(1)?;
    index.push(alloc, hash(shape))?;
    shapes.push_reserved(*shape);
    widths.push_reserved(width);
    Ok(())
}

// The width of a shape over an arena's nodes.
#[tactic(auto, using(crate::proofs::Keeping::width_kept))]
fn width_over(shapes: &[Shape], widths: &[u8], shape: &Shape) -> u8
    requires arena { IsArena shapes.now }
    requires wide { length widths.now ≡ length shapes.now }
    requires sized { (k : ℕ) → k < length shapes.now → slice_index widths.now k ≡ width_at shapes.now k }
    requires children { ChildrenBelow (length shapes.now) shape.now }
    requires fits { FitsWidths (width_at shapes.now) shape.now }
    ensures is { result ≡ width_of (width_at shapes.now) shape.now }
    ensures some { 0 < result }
    ensures most { result ≤ 128 }
{
    // For the proof: recalls what the type promises of it.
    let _ = shapes;
    shape_width(shape, widths)
}

// The node of a shape, which is a new one where no node has it.
fn intern_in(
    alloc: Global,
    shapes: &mut Vec<Shape>,
    widths: &mut Vec<u8>,
    index: &mut HashIndex,
    shape: &Shape,
) -> Result<usize, AllocError>
    requires kept { IsKept shapes.old.items widths.old.items index.old }
    requires children { ChildrenBelow (length shapes.old.items) shape.now }
    requires fits { FitsWidths (width_at shapes.old.items) shape.now }
    ensures kept { IsKept shapes.new.items widths.new.items index.new }
    ensures is { IfOk result (λ n. Interned shapes.old.items shape.now shapes.new.items n) }
    ensures err { OnErr result (shapes.new.items ≡ shapes.old.items) }
{
    if let Some(node) = find(shapes, index, shape) {
        return Ok(node);
    }
    let width = width_over(shapes, widths, shape);
    let node = shapes.len();
    push_node(alloc, shapes, widths, index, shape, width)?;
    Ok(node)
}

impl Arena {
    /// An arena with no node.
    #[tactic(auto, using(crate::proofs::Keeping::kept_none))]
    pub fn new(alloc: Global) -> Arena
        ensures { result ≡ [] }
    {
        Arena {
            shapes: Vec::new(alloc),
            widths: Vec::new(alloc),
            index: HashIndex::new(alloc),
        }
    }

    /// How many nodes there are. The second clause says what holds of every arena.
    pub fn len(&self) -> usize
        ensures is { result ≡ length self.now }
        ensures arena { IsArena self.now }
    {
        self.shapes.len()
    }

    /// The shape of a node: its children are earlier nodes, of widths that fit.
    pub fn shape(&self, node: Node) -> Shape
        requires { node < length self.now }
        ensures is { result ≡ shape_at self.now node }
        ensures children { ChildrenBelow node result }
        ensures fits { FitsWidths (width_at self.now) result }
    {
        self.shapes[node.index()]
    }

    /// The width of a node, in bits.
    pub fn width(&self, node: Node) -> u8
        requires { node < length self.now }
        ensures is { result ≡ width_at self.now node }
        ensures some { 0 < result }
        ensures most { result ≤ 128 }
    {
        self.widths[node.index()]
    }

    /// The node of a shape: the one that has it, or else a new one, numbered by the old length.
    pub fn intern(&mut self, alloc: Global, shape: Shape) -> Result<Node, AllocError>
        requires children { ChildrenBelow (length self.old) shape }
        requires fits { FitsWidths (width_at self.old) shape }
        ensures is { IfOk result (λ n. Interned self.old shape self.new n) }
        ensures err { OnErr result (self.new ≡ self.old) }
        ensures extends { Extends self.old self.new }
        ensures arena { IsArena self.new }
    {
        let node = intern_in(
            alloc,
            &mut self.shapes,
            &mut self.widths,
            &mut self.index,
            &shape,
        )?;
        Ok(Node::new(node))
    }

    /// Takes the nodes from a number on away. The others keep their numbers and shapes.
    pub fn cut(&mut self, len: usize)
        requires { len ≤ length self.old }
        ensures { self.new ≡ take len self.old }
    {
        self.shapes.truncate(len);
        self.widths.truncate(len);
        self.index.truncate(len);
    }

    /// An arena with the same nodes and shapes.
    pub fn copy(&self, alloc: Global) -> Result<Arena, AllocError>
        ensures { IfOk result (λ a. a ≡ self.now) }
    {
        let shapes = self.shapes.as_slice().to_vec(alloc)?;
        let widths = self.widths.as_slice().to_vec(alloc)?;
        let index = self.index.copy(alloc)?;
        Ok(Arena {
            shapes,
            widths,
            index,
        })
    }

    /// Which nodes some roots reach, by number.
    pub fn reached(&self, alloc: Global, roots: &[Node]) -> Result<Vec<bool>, AllocError>
        requires { (i : ℕ) → i < length roots.now → slice_index roots.now i < length self.now }
        ensures len { IfOk result (λ m. length m.items ≡ length self.now) }
        ensures roots { IfOk result (λ m. HasRoots roots.now m.items (length roots.now)) }
        ensures closed { IfOk result (λ m. IsClosed self.now m.items 0) }
        ensures only { IfOk result (λ m. OnlyReached self.now roots.now m.items) }
    {
        marks_of(alloc, &self.shapes, roots, self.shapes.len())
    }

    /// The value of a node. A variable that the environment lacks, or has at another width than the node mentions, reads as X.
    ///
    /// Each node that it reaches is evaluated once, and no other.
    #[tactic(auto, using(crate::proofs::Lifted::values_held))]
    pub fn eval(&self, alloc: Global, node: Node, env: &Env) -> Result<Four, AllocError>
        requires { node < length self.now }
        ensures is { IfOk result (λ v. v ≡ value_at (read env.now) self.now node) }

        // Where the environment has each variable that the node mentions, at its width, the value is that over these alone.
        ensures held { IfOk result (λ v. IsTrue (each_variable (has_variable env.now) self.now node)
            → v ≡ value_at (held env.now) self.now node) }
    {
        node_value(alloc, &self.shapes, node, env)
    }
}
