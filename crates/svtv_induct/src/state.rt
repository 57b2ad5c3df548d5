// The valuation before the first phase as nodes: a bit of it is made of a bit of each of two variables, so that it is 0, 1, X or Z as these
// are chosen, and joined bits are one. Nothing is asked of it beside that.
ghost use Rattle.std.specs.Prelude.{◌≡◌, ◌++◌, ℕ, ◌+◌, ◌<◌, ◌≤◌, List, [], ◌∷◌, All, IfOk, length, slice_index_or, if◌then◌else◌};
ghost use Rattle.driver_resolve.specs.Drivers.{widths_of};
ghost use Rattle.fourvec.specs.declared.Bit.{Bit};
ghost use Rattle.fourvec.specs.Bits.{bit_of, is_one};
ghost use Rattle.lhs_alias.specs.Segs.{seg_bits};
ghost use Rattle.lhs_alias.specs.Lies.{LiesIn};
ghost use Rattle.svex_arena.specs.Arenas.{Extends, IsArena};
ghost use Rattle.svex_shape.specs.Shapes.{width_at};
ghost use Rattle.svex_shape.specs.Values.{Vector};
ghost use Rattle.svtv_table.specs.declared.bound.VarDecl.{VarDecl};
ghost use Rattle.svtv_unroll.specs.Rows.{IsRow};
ghost use Rattle.svtv_unroll.specs.Unrolled.{vector_of};
ghost use Rattle.svtv_induct.specs.States.{AreJoined, AreOwn, ArePartsOf, AreWideFirsts, HasParts, HasValue, HaveWires, IsPartOf, IsSized, IsTold, IsWide, bit_in, bits_in, own_bits, own_state, width_of_var};
ghost use Rattle.svtv_table.specs.Binding.{HasWidth};

use crate::half::segs_at;
use fourvec::{Bit, one_bit};
use lhs_alias::{Lhs, Seg};
use std::alloc::{AllocError, Global};
use sv_outside::Signal;
use svex_arena::{Arena, Bin, Node, Shape, VarName};
use svtv_table::VarDecl;

// A constant bit.
fn constant(arena: &mut Arena, alloc: Global, bit: Bit) -> Result<Node, AllocError>
    ensures is { IfOk result (λ n. (vars : List VarDecl) → HasValue vars arena.new 1 (λ choice. bit ∷ []) n) }
    ensures extends { Extends arena.old arena.new }
    ensures arena { IsArena arena.new }
{
    arena.intern(alloc, Shape::Const(one_bit(bit)))
}

// A bit of a variable.
fn bit_of_variable(
    arena: &mut Arena,
    alloc: Global,
    vars: &[VarDecl],
    number: usize,
    at: u8,
) -> Result<Node, AllocError>
    requires there { number < length vars.now }
    requires some { at < width_of_var vars.now number }
    requires most { width_of_var vars.now number ≤ 128 }
    ensures is { IfOk result (HasValue vars.now arena.new 1 (λ choice. bit_in choice number at ∷ [])) }
    ensures extends { Extends arena.old arena.new }
    ensures arena { IsArena arena.new }
{
    let shape = Shape::Var(VarName::Chosen(number), vars[number].width);
    let whole = arena.intern(alloc, shape)?;
    arena.intern(
        alloc,
        Shape::Slice {
            of: whole,
            lo: at,
            width: 1,
        },
    )
}

// One of two bits, by a third.
fn choose(
    arena: &mut Arena,
    alloc: Global,
    by: Node,
    one: Node,
    other: Node,
) -> Result<Node, AllocError>
    requires by { by < length arena.old }
    requires one { one < length arena.old }
    requires other { other < length arena.old }
    requires by_wide { width_at arena.old by ≡ 1 }
    requires one_wide { width_at arena.old one ≡ 1 }
    requires other_wide { width_at arena.old other ≡ 1 }
    ensures is { IfOk result (λ n. (vars : List VarDecl) (f g h : List (List Bit) → Bit) → IsTold vars f
        → HasValue vars arena.old 1 (λ choice. f choice ∷ []) by → HasValue vars arena.old 1 (λ choice. g choice ∷ []) one → HasValue vars arena.old 1 (λ choice. h choice ∷ []) other
        → HasValue vars arena.new 1 (λ choice. (if is_one (f choice) then g choice else h choice) ∷ []) n) }
    ensures extends { Extends arena.old arena.new }
    ensures arena { IsArena arena.new }
{
    arena.intern(alloc, Shape::Cond(by, one, other))
}

// The bit of two planes.
fn bit_of(up: bool, low: bool) -> Bit
    ensures { result ≡ bit_of up low }
{
    match (up, low) {
        (false, false) => Bit::Zero,
        (true, true) => Bit::One,
        (true, false) => Bit::Unknown,
        (false, true) => Bit::Floating,
    }
}

// The bit of two planes, where the upper one is told and a node gives the lower one.
fn by_lower(arena: &mut Arena, alloc: Global, up: bool, low: Node) -> Result<Node, AllocError>
    requires low { low < length arena.old }
    requires wide { width_at arena.old low ≡ 1 }
    ensures is { IfOk result (λ n. (vars : List VarDecl) (f : List (List Bit) → Bit) → IsTold vars f → HasValue vars arena.old 1 (λ choice. f choice ∷ []) low
        → HasValue vars arena.new 1 (λ choice. bit_of up (is_one (f choice)) ∷ []) n) }
    ensures extends { Extends arena.old arena.new }
    ensures arena { IsArena arena.new }
{
    // For the proof: recalls what the type promises of it.
    let _ = arena.len();
    let set = constant(arena, alloc, bit_of(up, true))?;
    let clear = constant(arena, alloc, bit_of(up, false))?;
    choose(arena, alloc, low, set, clear)
}

// The bit that bits of two variables make.
fn made_bit(
    arena: &mut Arena,
    alloc: Global,
    vars: &[VarDecl],
    first: usize,
    second: usize,
    at: u8,
) -> Result<Node, AllocError>
    requires first { first < length vars.now }
    requires second { IsWide vars.now (width_of_var vars.now first) second }
    requires some { at < width_of_var vars.now first }
    requires most { width_of_var vars.now first ≤ 128 }
    ensures is { IfOk result (HasValue vars.now arena.new 1 (λ choice. own_bits first second choice at ∷ [])) }
    ensures extends { Extends arena.old arena.new }
    ensures arena { IsArena arena.new }
{
    // For the proof: recalls what the type promises of it.
    let _ = arena.len();
    let up = bit_of_variable(arena, alloc, vars, first, at)?;
    let low = bit_of_variable(arena, alloc, vars, second, at)?;
    let set = by_lower(arena, alloc, true, low)?;
    let clear = by_lower(arena, alloc, false, low)?;
    choose(arena, alloc, up, set, clear)
}

// One node above another.
fn above(arena: &mut Arena, alloc: Global, high: Node, low: Node) -> Result<Node, AllocError>
    requires high { high < length arena.old }
    requires low { low < length arena.old }
    requires fits { width_at arena.old high + width_at arena.old low ≤ 128 }
    ensures is { IfOk result (λ n. (vars : List VarDecl) (a b : ℕ) (f g : List (List Bit) → Vector) → HasValue vars arena.old a f high → HasValue vars arena.old b g low
        → HasValue vars arena.new (b + a) (λ choice. g choice ++ f choice) n) }
    ensures sized { IfOk result (IsSized arena.new (width_at arena.old low + width_at arena.old high)) }
    ensures extends { Extends arena.old arena.new }
    ensures arena { IsArena arena.new }
{
    arena.intern(alloc, Shape::Binary(Bin::Concat, high, low))
}

// The bits that two variables make.
fn own_node(
    arena: &mut Arena,
    alloc: Global,
    vars: &[VarDecl],
    first: usize,
    second: usize,
) -> Result<Node, AllocError>
    requires first { first < length vars.now }
    requires second { IsWide vars.now (width_of_var vars.now first) second }
    requires width { HasWidth (width_of_var vars.now first) }
    ensures is { IfOk result (HasValue vars.now arena.new (width_of_var vars.now first) (λ choice. vector_of (own_bits first second choice) (width_of_var vars.now first))) }
    ensures extends { Extends arena.old arena.new }
    ensures arena { IsArena arena.new }
{
    // For the proof: recalls what the type promises of it.
    let _ = arena.len();
    let width = vars[first].width;
    let mut made = made_bit(arena, alloc, vars, first, second, 0)?;
    'bits: for at in 1..width {
        let bit = made_bit(arena, alloc, vars, first, second, at)?;
        made = above(arena, alloc, bit, made)?;
    }
    Ok(made)
}

// What the variables make of each of so many wires: the first ones stand from one number on, and the second ones behind them.
fn own_nodes(
    arena: &mut Arena,
    alloc: Global,
    vars: &[VarDecl],
    before: usize,
    wires: &[Signal],
) -> Result<Vec<Node>, AllocError>
    requires widths { All (λ var. HasWidth var.width) vars.now }
    requires wires { HaveWires vars.now (widths_of wires.now) before }
    requires many { before + (length wires.now + length wires.now) ≤ length vars.now }
    ensures own { IfOk result (λ nodes. AreOwn vars.now arena.new (widths_of wires.now) before nodes.items (length wires.now)) }
    ensures extends { Extends arena.old arena.new }
    ensures arena { IsArena arena.new }
{
    // For the proof: recalls what the type promises of it.
    let _ = arena.len();
    let _ = vars.len();
    let mut nodes = Vec::new(alloc);
    'wires: for at in 0..wires.len() {
        let first = before + at;
        let node = own_node(arena, alloc, vars, first, first + wires.len())?;
        nodes.push(node)?;
    }
    Ok(nodes)
}

// The bits of a part of a wire.
fn part(arena: &mut Arena, alloc: Global, own: &[Node], seg: Seg) -> Result<Node, AllocError>
    requires { IsPartOf arena.old own.now seg }
    ensures is { IfOk result (λ n. (vars : List VarDecl) (widths : List ℕ) (before : ℕ) → AreOwn vars arena.old widths before own.now (length widths) → LiesIn widths seg
        → HasValue vars arena.new seg.width (λ choice. bits_in (own_state choice before (length widths)) (seg_bits seg)) n) }
    ensures sized { IfOk result (IsSized arena.new seg.width) }
    ensures extends { Extends arena.old arena.new }
    ensures arena { IsArena arena.new }
{
    arena.intern(
        alloc,
        Shape::Slice {
            of: own[seg.wire],
            lo: seg.lo,
            width: seg.width,
        },
    )
}

// The bits of segments, the most significant first.
fn joined_node(
    arena: &mut Arena,
    alloc: Global,
    own: &[Node],
    segs: &[Seg],
) -> Result<Node, AllocError>
    requires { ArePartsOf arena.old own.now segs.now }
    ensures is { IfOk result (HasParts arena.old own.now segs.now arena.new) }
    ensures extends { Extends arena.old arena.new }
    ensures arena { IsArena arena.new }
{
    // For the proof: recalls what the type promises of it.
    let _ = arena.len();
    let mut made = part(arena, alloc, own, segs[0])?;
    'segs: for at in 1..segs.len() {
        let low = part(arena, alloc, own, segs[at])?;
        made = above(arena, alloc, made, low)?;
    }
    Ok(made)
}

// The row of all wires, each with the bits of its segments.
fn joined_row(
    arena: &mut Arena,
    alloc: Global,
    own: &[Node],
    firsts: &[Lhs],
) -> Result<Vec<Option<Node>>, AllocError>
    requires many { length own.now ≡ length firsts.now }
    requires parts { (n : ℕ) → n < length firsts.now → ArePartsOf arena.old own.now (slice_index_or firsts.now n []) }
    ensures joined { IfOk result (λ row. (vars : List VarDecl) (widths : List ℕ) (before : ℕ) → AreOwn vars arena.old widths before own.now (length widths) → AreWideFirsts widths firsts.now
        → AreJoined vars arena.new widths before firsts.now row.items (length firsts.now)) }
    ensures extends { Extends arena.old arena.new }
    ensures arena { IsArena arena.new }
{
    // For the proof: recalls what the type promises of it.
    let _ = arena.len();
    let mut row = Vec::new(alloc);
    'wires: for at in 0..firsts.len() {
        let node = joined_node(arena, alloc, own, segs_at(firsts, at))?;
        row.push(Some(node))?;
    }
    Ok(row)
}

/// A row for the valuation before the first phase: each wire has the bits that the variables make of the first bits of its bits.
pub(crate) fn state_row(
    arena: &mut Arena,
    alloc: Global,
    vars: &[VarDecl],
    before: usize,
    wires: &[Signal],
    firsts: &[Lhs],
) -> Result<Vec<Option<Node>>, AllocError>
    requires widths { All (λ var. HasWidth var.width) vars.now }
    requires wires { HaveWires vars.now (widths_of wires.now) before }
    requires many { before + (length wires.now + length wires.now) ≤ length vars.now }
    requires firsts { AreWideFirsts (widths_of wires.now) firsts.now }
    ensures row { IfOk result (λ row. IsRow vars.now arena.new (widths_of wires.now) row.items) }
    ensures joined { IfOk result (λ row. AreJoined vars.now arena.new (widths_of wires.now) before firsts.now row.items (length wires.now)) }
    ensures extends { Extends arena.old arena.new }
    ensures arena { IsArena arena.new }
{
    // For the proof: recalls what the type promises of it.
    let _ = arena.len();
    let own = own_nodes(arena, alloc, vars, before, wires)?;
    joined_row(arena, alloc, &own, firsts)
}
