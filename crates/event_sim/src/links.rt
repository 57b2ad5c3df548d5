//! Where nets lie, and what takes what. A net is named by the place of its lowest bit. For each net the wires that have bits of it are
//! kept, since a step of the net writes there; for each wire the nodes that are its present value, since these are forgotten when the wire
//! changes; and for each node the nets to which its value is given, since these take a step again when it was forgotten. All of it is
//! linear in bits, nodes and what is given.

ghost use Rattle.std.specs.Prelude.{◌≡◌, ℕ, ◌+◌, ◌<◌, ◌≤◌, true, None, Some, List, [], length, All, IfOk, IfSome, OnOk, Contains, slice_index_or};
ghost use Rattle.svex_shape.specs.Shapes.{shape_at};
ghost use Rattle.driver_resolve.specs.Drivers.{widths_of};
ghost use Rattle.flat_net.specs.Flats.{IsFlat};
ghost use Rattle.event_nets.specs.Needs.{IsRoot, node_of, gift_rows};
ghost use Rattle.event_nets.specs.Tables.{AreTables};
ghost use Rattle.event_sim.specs.Rows.{low_at};
ghost use Rattle.node_memo.specs.Memos.{rows_in};
ghost use Rattle.node_memo.specs.Lists.{Gains};
ghost use Rattle.event_sim.specs.Linked.{LieThere, present_named, present_of, ArePresent, IsTakenBy, AreTaken, AreLinks};

use event_nets::gift::{Gift, Source};
use event_nets::tables::Tables;
use flat_net::Flat;
use node_memo::lists::{no_lists, put_once, put_within};
use std::alloc::{AllocError, Global};
use svex_arena::{Arena, Node, Shape, VarName};

/// Where nets lie, and what takes what.
pub struct Links {
    /// For each net the wires that have bits of it.
    pub wires: Vec<Vec<usize>>,
    /// For each wire the nodes that are its present value.
    pub present: Vec<Vec<usize>>,
    /// For each node the nets to which its value is given.
    pub takers: Vec<Vec<usize>>,
}

impl Drop for Links {
    fn drop(self) {
        let Links {
            wires: _,
            present: _,
            takers: _,
        } = self;
    }
}

// ---- where nets lie

// Puts a wire at the end of those of a net, if there is one.
fn put_wire(wires: &mut [Vec<usize>], low: Option<usize>, wire: usize) -> Result<(), AllocError>
    requires { IfSome low (λ k. k < length wires.old) }
    ensures gains { OnOk result (Gains (rows_in wires.old) wire (rows_in wires.new)) }
    ensures has { OnOk result (IfSome low (λ k. Contains (slice_index_or (rows_in wires.new) k []) wire)) }
{
    match low {
        None => Ok(()),
        Some(low) => put_once(wires, low, wire),
    }
}

// The net in which the class of the bit at a place lies.
fn net_at(tables: &Tables, place: usize) -> Option<usize>
    requires place { place < length tables.now.homes.items }
    requires homes { All (λ home. home < length tables.now.lows.items) tables.now.homes.items }
    ensures { result ≡ low_at tables.now.homes.items tables.now.lows.items place }
{
    tables.lows[tables.homes[place]]
}

// Puts a wire at the end of those of each net that has bits of it; its lowest bit has the place `start`.
fn put_bits(
    tables: &Tables,
    start: usize,
    width: u8,
    wire: usize,
    wires: &mut [Vec<usize>],
) -> Result<(), AllocError>
    requires places { start + width ≤ length tables.now.homes.items }
    requires homes { All (λ home. home < length tables.now.lows.items) tables.now.homes.items }
    requires lows { (k : ℕ) → IfSome (slice_index_or tables.now.lows.items k None) (λ low. low < length wires.old) }
    ensures gains { OnOk result (Gains (rows_in wires.old) wire (rows_in wires.new)) }
    ensures has { OnOk result ((k : ℕ) → k < width
        → IfSome (low_at tables.now.homes.items tables.now.lows.items (start + k)) (λ low. Contains (slice_index_or (rows_in wires.new) low []) wire)) }
{
    for at in 0..width {
        let low = net_at(tables, start + usize::from(at));
        put_wire(wires, low, wire)?;
    }
    Ok(())
}

// Puts each wire at the end of those of each net that has bits of it.
fn put_wires(tables: &Tables, widths: &[u8], wires: &mut [Vec<usize>]) -> Result<(), AllocError>
    requires starts { length tables.now.starts.items ≡ length widths.now }
    requires places { (n : ℕ) → n < length widths.now
        → slice_index_or tables.now.starts.items n 0 + slice_index_or widths.now n 0 ≤ length tables.now.homes.items }
    requires homes { All (λ home. home < length tables.now.lows.items) tables.now.homes.items }
    requires lows { (k : ℕ) → IfSome (slice_index_or tables.now.lows.items k None) (λ low. low < length wires.old) }
    requires none { (k : ℕ) → slice_index_or (rows_in wires.old) k [] ≡ [] }
    ensures len { OnOk result (length wires.new ≡ length wires.old) }
    ensures inside { OnOk result ((low n : ℕ) → Contains (slice_index_or (rows_in wires.new) low []) n → n < length widths.now) }
    ensures lie { OnOk result (LieThere widths.now tables.now.starts.items tables.now.homes.items tables.now.lows.items (rows_in wires.new)) }
{
    for wire in 0..widths.len() {
        put_bits(tables, tables.starts[wire], widths[wire], wire, wires)?;
    }
    Ok(())
}

// For each net the wires that have bits of it.
fn wires_of(alloc: Global, tables: &Tables, widths: &[u8]) -> Result<Vec<Vec<usize>>, AllocError>
    requires starts { length tables.now.starts.items ≡ length widths.now }
    requires places { (n : ℕ) → n < length widths.now
        → slice_index_or tables.now.starts.items n 0 + slice_index_or widths.now n 0 ≤ length tables.now.homes.items }
    requires homes { All (λ home. home < length tables.now.lows.items) tables.now.homes.items }
    requires lows { (k : ℕ) → IfSome (slice_index_or tables.now.lows.items k None) (λ low. low < length tables.now.lows.items) }
    ensures len { IfOk result (λ wires. length wires.items ≡ length tables.now.lows.items) }
    ensures inside { IfOk result (λ wires. (low n : ℕ) → Contains (slice_index_or (rows_in wires.items) low []) n → n < length widths.now) }
    ensures lie { IfOk result (λ wires. LieThere widths.now tables.now.starts.items tables.now.homes.items tables.now.lows.items (rows_in wires.items)) }
{
    let mut wires = no_lists(alloc, tables.lows.len())?;
    put_wires(tables, widths, &mut wires)?;
    Ok(wires)
}

// ---- present values

fn present_named(name: &VarName) -> Option<usize>
    ensures { result ≡ present_named name.now }
{
    match name {
        VarName::Now(wire) => Some(*wire),
        VarName::Prev(_) | VarName::Stim(_) | VarName::Chosen(_) | VarName::Sampled(_) => None,
    }
}

// The wire whose present a node has, if it has one.
fn present_of(shape: &Shape) -> Option<usize>
    ensures { result ≡ present_of shape.now }
{
    match shape {
        Shape::Var(name, _) => present_named(name),
        _ => None,
    }
}

// Puts a node at the end of those that are the present value of a wire, if it is that of one.
fn put_present(present: &mut [Vec<usize>], shape: &Shape, node: usize) -> Result<(), AllocError>
    ensures gains { OnOk result (Gains (rows_in present.old) node (rows_in present.new)) }
    ensures has { OnOk result (IfSome (present_of shape.now) (λ wire. wire < length present.old → Contains (slice_index_or (rows_in present.new) wire []) node)) }
{
    match present_of(shape) {
        None => Ok(()),
        Some(wire) => put_within(present, wire, node),
    }
}

// The same of each node.
fn put_nodes(arena: &Arena, present: &mut [Vec<usize>]) -> Result<(), AllocError>
    requires { (k : ℕ) → slice_index_or (rows_in present.old) k [] ≡ [] }
    ensures len { OnOk result (length present.new ≡ length present.old) }
    ensures inside { OnOk result ((wire k : ℕ) → Contains (slice_index_or (rows_in present.new) wire []) k → k < length arena.now) }
    ensures present { OnOk result (ArePresent arena.now (length arena.now) (rows_in present.new)) }
{
    for node in 0..arena.len() {
        put_present(present, &arena.shape(Node::new(node)), node)?;
    }
    Ok(())
}

// For each of so many wires the nodes that are its present value.
fn present_nodes(alloc: Global, arena: &Arena, wires: usize) -> Result<Vec<Vec<usize>>, AllocError>
    ensures len { IfOk result (λ present. length present.items ≡ wires) }
    ensures inside { IfOk result (λ present. (wire k : ℕ) → Contains (slice_index_or (rows_in present.items) wire []) k → k < length arena.now) }
    ensures present { IfOk result (λ present. ArePresent arena.now (length arena.now) (rows_in present.items)) }
{
    let mut present = no_lists(alloc, wires)?;
    put_nodes(arena, &mut present)?;
    Ok(present)
}

// ---- what takes what

// Puts a net at the end of those to which a node's value is given, if it is one that is given.
fn put_taker(takers: &mut [Vec<usize>], from: &Source, low: usize) -> Result<(), AllocError>
    requires { IfSome (node_of from.now) (λ k. k < length takers.old) }
    ensures gains { OnOk result (Gains (rows_in takers.old) low (rows_in takers.new)) }
    ensures has { OnOk result (IfSome (node_of from.now) (λ k. Contains (slice_index_or (rows_in takers.new) k []) low)) }
{
    match from {
        Source::Value(node) => put_once(takers, node.index(), low),
        Source::Stimulus(_) => Ok(()),
    }
}

// The same of all that is given to the net.
fn put_takers(takers: &mut [Vec<usize>], gifts: &[Gift], low: usize) -> Result<(), AllocError>
    requires { All (IsRoot (length takers.old)) gifts.now }
    ensures gains { OnOk result (Gains (rows_in takers.old) low (rows_in takers.new)) }
    ensures has { OnOk result (All (IsTakenBy (rows_in takers.new) low) gifts.now) }
{
    for gift in gifts {
        put_taker(takers, &gift.from, low)?;
    }
    Ok(())
}

// The same of all nets.
fn put_nets(tables: &Tables, takers: &mut [Vec<usize>]) -> Result<(), AllocError>
    requires roots { (low : ℕ) → low < length tables.now.given.items → All (IsRoot (length takers.old)) (slice_index_or (gift_rows tables.now.given.items) low []) }
    requires nets { All (λ low. low < length tables.now.given.items) tables.now.nets.items }
    requires none { (k : ℕ) → slice_index_or (rows_in takers.old) k [] ≡ [] }
    ensures len { OnOk result (length takers.new ≡ length takers.old) }
    ensures inside { OnOk result ((k low : ℕ) → Contains (slice_index_or (rows_in takers.new) k []) low → low < length tables.now.given.items) }
    ensures taken { OnOk result (AreTaken tables.now.nets.items (gift_rows tables.now.given.items) (rows_in takers.new)) }
{
    for low in &tables.nets {
        put_takers(takers, tables.given_to(*low), *low)?;
    }
    Ok(())
}

// For each of so many nodes the nets to which its value is given.
fn takers_of(alloc: Global, tables: &Tables, nodes: usize) -> Result<Vec<Vec<usize>>, AllocError>
    requires roots { (low : ℕ) → low < length tables.now.given.items → All (IsRoot nodes) (slice_index_or (gift_rows tables.now.given.items) low []) }
    requires nets { All (λ low. low < length tables.now.given.items) tables.now.nets.items }
    ensures len { IfOk result (λ takers. length takers.items ≡ nodes) }
    ensures inside { IfOk result (λ takers. (k low : ℕ) → Contains (slice_index_or (rows_in takers.items) k []) low → low < length tables.now.given.items) }
    ensures taken { IfOk result (λ takers. AreTaken tables.now.nets.items (gift_rows tables.now.given.items) (rows_in takers.items)) }
{
    let mut takers = no_lists(alloc, nodes)?;
    put_nets(tables, &mut takers)?;
    Ok(takers)
}

/// Where the nets of a flat design lie, and what takes what.
pub fn all_links(
    alloc: Global,
    flat: &Flat,
    widths: &[u8],
    tables: &Tables,
) -> Result<Links, AllocError>
    requires flat { IsFlat flat.now }
    requires widths { widths.now ≡ widths_of flat.now.wires }
    requires tables { (over : List ℕ) × AreTables flat.now over tables.now }
    ensures { IfOk result (λ links. AreLinks flat.now tables.now links) }
{
    let wires = wires_of(alloc, tables, widths)?;
    let present = present_nodes(alloc, &flat.arena, widths.len())?;
    let takers = takers_of(alloc, tables, flat.arena.len())?;
    Ok(Links {
        wires,
        present,
        takers,
    })
}
