//! The nodes of wires, made of those of segments. A wire is put together of pieces, the most significant first: a piece of a
//! segment with an equation is a slice of its node, and a piece of a free one is X. What is made is loose where some segment is
//! not settled yet, since later rounds may give that one another node.

ghost use Rattle.std.specs.Prelude.{◌≡◌, ℕ, ◌<◌, ◌≤◌, ◌+◌, ◌++◌, List, length, All, IsTrue, IfOk, false};
ghost use Rattle.fourvec.specs.Bits.{all_x};
ghost use Rattle.lhs_alias.specs.declared.segs.WireBit.{WireBit};
ghost use Rattle.lhs_alias.specs.Segs.{seg_bits, lhs_bits, IsSeg, AreSegs};
ghost use Rattle.svex_shape.specs.declared.shape.Shape.{Shape};
ghost use Rattle.svex_shape.specs.declared.shape.Shape.TheVariants.{Var};
ghost use Rattle.svex_shape.specs.declared.shape.VarName.TheVariants.{Now};
ghost use Rattle.svex_shape.specs.Shapes.{shape_at, width_at};
ghost use Rattle.svex_arena.specs.Arenas.{IsArena, Extends};
ghost use Rattle.svex_arena.specs.Marks.{IsMarked};
ghost use Rattle.lhs_alias.specs.Joined.{widths_of};
ghost use Rattle.driver_resolve.specs.Drivers.{is_wire};
ghost use Rattle.compose_rounds.specs.Wires.{AreThere, HasPart, IsMade, IsJoined};
ghost use Rattle.compose_rounds.specs.Answers.{StandsIn};
ghost use Rattle.compose_rounds.specs.Turns.{IsScene};

use crate::scene::Scene;
use fourvec::Four;
use lhs_alias::{Joins, Seg};
use std::alloc::{AllocError, Global};
use svex_arena::{Arena, Bin, Node, Shape};
use svex_rewrite::make;

/// X at every bit.
#[tactic(auto, using(svex_shape::proofs::Readings::x_widened, fourvec::proofs::Basic::views))]
pub fn unknown(width: u8) -> Four
    requires some { 0 < width }
    requires most { width ≤ 128 }
    ensures { result ≡ all_x width }
{
    Four::new(1, 1, 0).sext(width)
}

// The node of bits of one segment. Those of a free one are X.
fn part(arena: &mut Arena, alloc: Global, nodes: &[Node], piece: Seg) -> Result<Node, AllocError>
    requires arena { IsArena arena.old }
    requires piece { IsSeg piece }
    requires nodes { AreThere arena.old nodes.now }
    requires has { HasPart arena.old nodes.now piece }
    ensures made { IfOk result (λ n. IsMade arena.old arena.new nodes.now (seg_bits piece) n) }
    ensures extends { Extends arena.old arena.new }
    ensures arena { IsArena arena.new }
{
    if piece.wire < nodes.len() {
        let shape = Shape::Slice {
            of: nodes[piece.wire],
            lo: piece.lo,
            width: piece.width,
        };
        make(arena, alloc, &shape)
    } else {
        arena.intern(alloc, Shape::Const(unknown(piece.width)))
    }
}

// One node above another.
fn above(arena: &mut Arena, alloc: Global, high: Node, low: Node) -> Result<Node, AllocError>
    requires arena { IsArena arena.old }
    requires high { high < length arena.old }
    requires low { low < length arena.old }
    requires fits { width_at arena.old high + width_at arena.old low ≤ 128 }
    ensures joined { IfOk result (λ n. IsJoined arena.old arena.new high low n) }
    ensures extends { Extends arena.old arena.new }
    ensures arena { IsArena arena.new }
{
    make(arena, alloc, &Shape::Binary(Bin::Concat, high, low))
}

// Puts bits of a segment's value below a node that has others.
fn put_below(
    arena: &mut Arena,
    alloc: Global,
    nodes: &[Node],
    made: Node,
    piece: Seg,
) -> Result<Node, AllocError>
    requires arena { IsArena arena.old }
    requires piece { IsSeg piece }
    requires nodes { AreThere arena.old nodes.now }
    requires has { HasPart arena.old nodes.now piece }
    requires made { made < length arena.old }
    requires fits { width_at arena.old made + piece.width ≤ 128 }
    ensures made { IfOk result (λ n. (base : List Shape) (bits : List WireBit) → Extends base arena.old → AreThere base nodes.now
        → IsMade base arena.old nodes.now bits made → IsMade base arena.new nodes.now (seg_bits piece ++ bits) n) }
    ensures extends { Extends arena.old arena.new }
    ensures arena { IsArena arena.new }
{
    let low = part(arena, alloc, nodes, piece)?;
    above(arena, alloc, made, low)
}

/// The node of bits of segments' values.
pub fn gather(
    arena: &mut Arena,
    alloc: Global,
    nodes: &[Node],
    pieces: &[Seg],
) -> Result<Node, AllocError>
    requires arena { IsArena arena.old }
    requires some { 0 < length pieces.now }
    requires segs { AreSegs pieces.now }
    requires nodes { AreThere arena.old nodes.now }
    requires has { All (HasPart arena.old nodes.now) pieces.now }
    requires most { length (lhs_bits pieces.now) ≤ 128 }
    ensures made { IfOk result (λ n. IsMade arena.old arena.new nodes.now (lhs_bits pieces.now) n) }
    ensures extends { Extends arena.old arena.new }
    ensures arena { IsArena arena.new }
{
    let mut made = part(arena, alloc, nodes, pieces[0])?;
    'pieces: for at in 1..pieces.len() {
        made = put_below(arena, alloc, nodes, made, pieces[at])?;
    }
    Ok(made)
}

// Whether a segment is settled, where it has an equation.
fn is_settled(settled: &[bool], segment: usize) -> bool
    ensures { IsTrue result → segment < length settled.now → IsMarked settled.now segment }
{
    if segment < settled.len() {
        settled[segment]
    } else {
        true
    }
}

// Whether each segment is settled that has an equation.
fn are_settled(pieces: &[Seg], settled: &[bool]) -> bool
    ensures { IsTrue result → All (λ b. b.wire < length settled.now → IsMarked settled.now b.wire) (lhs_bits pieces.now) }
{
    'pieces: for at in 0..pieces.len() {
        if !is_settled(settled, pieces[at].wire) {
            return false;
        }
    }
    true
}

/// The node that stands for the present value of a wire, and whether it is loose.
pub fn wire_node(
    arena: &mut Arena,
    alloc: Global,
    joins: &Joins,
    scene: &Scene,
    wire: usize,
    width: u8,
) -> Result<(Node, bool), AllocError>
    requires scene { IsScene joins.now arena.old scene.now }
    requires wire { IsTrue (is_wire (widths_of joins.now) wire width) }
    requires some { 0 < width }
    requires most { width ≤ 128 }
    ensures stands { IfOk result (λ p. (k : ℕ) → k < length arena.old → shape_at arena.old k ≡ Var (Now wire) width
        → StandsIn joins.now arena.new scene.now.segments.eqs scene.now.nodes.items scene.now.settled.items p.1 k p.0) }
    ensures extends { Extends arena.old arena.new }
    ensures arena { IsArena arena.new }
{
    let pieces = scene.segments.pieces(alloc, joins, wire, width)?;
    let loose = !are_settled(pieces.segs(), &scene.settled);
    let node = gather(arena, alloc, &scene.nodes, pieces.segs())?;
    Ok((node, loose))
}
