//! Values of nets as nodes. A net is cut into pieces of neighbouring bits to which the same sources give neighbouring bits: such
//! a piece is the resolution of one part of each source, and the value of the net is its pieces side by side. So the nodes that
//! are made are as many as the pieces and what is given to them, and not as the bits; the value of a net with one driver of the
//! whole is the driver's own.

ghost use Rattle.std.specs.Prelude.{◌≡◌, ◌↔◌, ℕ, ◌+◌, ◌<◌, ◌≤◌, length, map, All, IfOk, IsTrue, slice_index};
ghost use Rattle.std.specs.List.{Contains};
ghost use Rattle.svex_shape.specs.declared.shape.Bin.TheVariants.{Res, Concat};
ghost use Rattle.svex_shape.specs.Shapes.{width_at};
ghost use Rattle.svex_arena.specs.Arenas.{IsArena, Extends};
ghost use Rattle.driver_resolve.specs.Drivers.{widths_of};
ghost use Rattle.flat_net.specs.Flats.{IsSignal};
ghost use Rattle.event_nets.specs.declared.gift.Source.TheVariants.{Value, Stimulus};
ghost use Rattle.event_nets.specs.Needs.{gift_rows};
ghost use Rattle.net_equations.specs.Equations.{seg_at};
ghost use Rattle.net_resolve.specs.Pieces.{IsMoved, AreMoved, row_at, HasSource, IsWithin, IsGivenRun, IsMade, IsPair, part_value, row_value, run_value, IsOne, HasInRun, IsSource, AreMade};

use driver_resolve::NetEq;
use event_nets::gift::{Gift, Source};
use lhs_alias::Seg;
use std::alloc::{AllocError, Global};
use sv_outside::Signal;
use svex_arena::{Arena, Bin, Node, Shape, VarName};

fn is_value(source: &Source, node: Node) -> bool
    ensures { IsTrue result ↔ (Value node ≡ source.now) }
{
    matches!(source, Source::Value(other) if node == *other)
}

fn is_stimulus(source: &Source, wire: usize) -> bool
    ensures { IsTrue result ↔ (Stimulus wire ≡ source.now) }
{
    matches!(source, Source::Stimulus(other) if wire == *other)
}

fn same_source(a: &Source, b: &Source) -> bool
    ensures { IsTrue result ↔ (a.now ≡ b.now) }
{
    match a {
        Source::Value(node) => is_value(b, *node),
        Source::Stimulus(wire) => is_stimulus(b, *wire),
    }
}

// Whether a gift is the bit so far above another's of the same source.
fn is_moved(a: &Gift, b: &Gift, by: u8) -> bool
    ensures { IsTrue result ↔ IsMoved by a.now b.now }
{
    same_source(&a.from, &b.from) && usize::from(a.at) + usize::from(by) == usize::from(b.at)
}

fn are_moved(a: &[Gift], b: &[Gift], by: u8) -> bool
    ensures { IsTrue result ↔ AreMoved by a.now b.now }
{
    if a.len() != b.len() {
        return false;
    }
    for at in 0..a.len() {
        if !is_moved(&a[at], &b[at], by) {
            return false;
        }
    }
    true
}

// Whether the class so far above another is given the bits so far above.
fn goes_on(rows: &[Vec<Gift>], low: usize, by: u8) -> bool
    requires { low + by < length rows.now }
    ensures { IsTrue result ↔ AreMoved by (row_at (gift_rows rows.now) low) (row_at (gift_rows rows.now) (low + by)) }
{
    are_moved(
        rows[low].as_slice(),
        rows[low + usize::from(by)].as_slice(),
        by,
    )
}

// How many classes, from one on and up to so many, the same sources give neighbouring bits to.
fn piece_width(rows: &[Vec<Gift>], low: usize, most: u8) -> u8
    requires some { 1 ≤ most }
    requires inside { low + most ≤ length rows.now }
    ensures some { 1 ≤ result }
    ensures most { result ≤ most }
    ensures moved { (j : ℕ) → j < result → AreMoved j (row_at (gift_rows rows.now) low) (row_at (gift_rows rows.now) (low + j)) }
{
    let mut width = 1;
    while width < most && goes_on(rows, low, width) {
        width += 1;
    }
    width
}

// The node of a source.
fn source_node(
    alloc: Global,
    arena: &mut Arena,
    wires: &[Signal],
    gift: &Gift,
) -> Result<Node, AllocError>
    requires wires { All IsSignal wires.now }
    requires source { HasSource (widths_of wires.now) arena.old gift.now.from }
    ensures extends { Extends arena.old arena.new }
    ensures arena { IsArena arena.new }
    ensures made { IfOk result (λ n. IsSource (widths_of wires.now) arena.old gift.now arena.new n) }
{
    // For the proof: recalls what the type promises of it.
    let _ = arena.len();
    match gift.from {
        Source::Value(node) => Ok(node),
        Source::Stimulus(wire) => {
            let shape = Shape::Var(VarName::Stim(wire), wires[wire].width);
            arena.intern(alloc, shape)
        }
    }
}

// The node of a gift and of those of its source above it, up to so many: the source itself where these are all its bits.
fn part_node(
    alloc: Global,
    arena: &mut Arena,
    wires: &[Signal],
    gift: &Gift,
    width: u8,
) -> Result<Node, AllocError>
    requires wires { All IsSignal wires.now }
    requires some { 1 ≤ width }
    requires within { IsWithin (widths_of wires.now) arena.old width gift.now }
    ensures extends { Extends arena.old arena.new }
    ensures arena { IsArena arena.new }
    ensures made { IfOk result (λ n. IsMade (widths_of wires.now) arena.old (IsOne gift.now) width (part_value (widths_of wires.now) arena.old gift.now width) arena.new n) }
{
    // For the proof: recalls what the type promises of it.
    let _ = arena.len();
    let of = source_node(alloc, arena, wires, gift)?;
    if arena.width(of) == width {
        return Ok(of);
    }
    let shape = Shape::Slice {
        of,
        lo: gift.at,
        width,
    };
    arena.intern(alloc, shape)
}

// What two nodes of one width give together (IEEE 1800-2017, 6.6.1).
#[tactic(auto, using(crate::proofs::Pairing::resolution_made))]
fn resolution(alloc: Global, arena: &mut Arena, a: Node, b: Node) -> Result<Node, AllocError>
    requires a { a < length arena.old }
    requires b { b < length arena.old }
    requires wide { width_at arena.old a ≡ width_at arena.old b }
    ensures extends { Extends arena.old arena.new }
    ensures arena { IsArena arena.new }
    ensures pair { IfOk result (λ n. IsPair Res arena.old arena.new a b n) }
{
    // For the proof: recalls what the type promises of it.
    let _ = arena.len();
    let node = arena.intern(alloc, Shape::Binary(Bin::Res, a, b))?;
    Ok(node)
}

// One node above another.
fn above(alloc: Global, arena: &mut Arena, high: Node, low: Node) -> Result<Node, AllocError>
    requires high { high < length arena.old }
    requires low { low < length arena.old }
    requires narrow { width_at arena.old high + width_at arena.old low ≤ 128 }
    ensures extends { Extends arena.old arena.new }
    ensures arena { IsArena arena.new }
    ensures pair { IfOk result (λ n. IsPair Concat arena.old arena.new high low n) }
{
    // For the proof: recalls what the type promises of it.
    let _ = arena.len();
    let node = arena.intern(alloc, Shape::Binary(Bin::Concat, high, low))?;
    Ok(node)
}

// The node of what a row of gifts gives to neighbouring bits: the resolution of a part of each source.
fn row_node(
    alloc: Global,
    arena: &mut Arena,
    wires: &[Signal],
    row: &[Gift],
    width: u8,
) -> Result<Node, AllocError>
    requires wires { All IsSignal wires.now }
    requires some { 1 ≤ width }
    requires row { 1 ≤ length row.now }
    requires within { All (IsWithin (widths_of wires.now) arena.old width) row.now }
    ensures extends { Extends arena.old arena.new }
    ensures arena { IsArena arena.new }
    ensures made { IfOk result (λ n. IsMade (widths_of wires.now) arena.old (Contains row.now) width (row_value (widths_of wires.now) arena.old row.now width) arena.new n) }
{
    // For the proof: recalls what the type promises of it.
    let _ = arena.len();
    let mut node = part_node(alloc, arena, wires, &row[0], width)?;
    'gifts: for at in 1..row.len() {
        let more = part_node(alloc, arena, wires, &row[at], width)?;
        node = resolution(alloc, arena, node, more)?;
    }
    Ok(node)
}

// The node of a piece.
fn piece_node(
    alloc: Global,
    arena: &mut Arena,
    wires: &[Signal],
    rows: &[Vec<Gift>],
    low: usize,
    width: u8,
) -> Result<Node, AllocError>
    requires wires { All IsSignal wires.now }
    requires run { IsGivenRun (widths_of wires.now) arena.old (gift_rows rows.now) low width }
    requires moved { (j : ℕ) → j < width → AreMoved j (row_at (gift_rows rows.now) low) (row_at (gift_rows rows.now) (low + j)) }
    ensures extends { Extends arena.old arena.new }
    ensures arena { IsArena arena.new }
    ensures made { IfOk result (λ n. IsMade (widths_of wires.now) arena.old (HasInRun (gift_rows rows.now) low width) width (run_value (widths_of wires.now) arena.old (gift_rows rows.now) low width) arena.new n) }
{
    row_node(alloc, arena, wires, rows[low].as_slice(), width)
}

// The value of a net of so many bits whose lowest bit has this place: its pieces side by side.
fn run_node(
    alloc: Global,
    arena: &mut Arena,
    wires: &[Signal],
    rows: &[Vec<Gift>],
    low: usize,
    width: u8,
) -> Result<Node, AllocError>
    requires wires { All IsSignal wires.now }
    requires run { IsGivenRun (widths_of wires.now) arena.old (gift_rows rows.now) low width }
    ensures extends { Extends arena.old arena.new }
    ensures arena { IsArena arena.new }
    ensures made { IfOk result (λ n. IsMade (widths_of wires.now) arena.old (HasInRun (gift_rows rows.now) low width) width (run_value (widths_of wires.now) arena.old (gift_rows rows.now) low width) arena.new n) }
{
    // For the proof: recalls what the type promises of it.
    let _ = arena.len();
    let mut at = piece_width(rows, low, width);
    let mut node = piece_node(alloc, arena, wires, rows, low, at)?;
    'pieces: while at < width {
        let higher = low + usize::from(at);
        let more = piece_width(rows, higher, width - at);
        let high = piece_node(alloc, arena, wires, rows, higher, more)?;
        node = above(alloc, arena, high, node)?;
        at += more;
    }
    Ok(node)
}

/// The equations of nets, by their segments and the places of their lowest bits.
pub fn equations(
    alloc: Global,
    arena: &mut Arena,
    wires: &[Signal],
    rows: &[Vec<Gift>],
    nets: &[usize],
    segs: &[Seg],
) -> Result<Vec<NetEq>, AllocError>
    requires wires { All IsSignal wires.now }
    requires nets { length nets.now ≡ length segs.now }
    requires runs { (i : ℕ) → i < length segs.now
        → IsGivenRun (widths_of wires.now) arena.old (gift_rows rows.now) (slice_index nets.now i) (seg_at segs.now i).width }
    ensures extends { Extends arena.old arena.new }
    ensures arena { IsArena arena.new }
    ensures segs { IfOk result (λ eqs. map (λ e. e.seg) eqs.items ≡ segs.now) }
    ensures made { IfOk result (λ eqs. AreMade (widths_of wires.now) arena.old (gift_rows rows.now) nets.now segs.now arena.new (map (λ e. e.value) eqs.items)) }
{
    let mut eqs = Vec::new(alloc);
    // For the proof: recalls what the type promises of it.
    let _ = arena.len();
    'nets: for net in 0..segs.len() {
        let seg = segs[net];
        let value = run_node(alloc, arena, wires, rows, nets[net], seg.width)?;
        eqs.push(NetEq { seg, value })?;
    }
    Ok(eqs)
}
