//! Whether a flat design is well formed, tested while the program runs. The calls of `event_sim` ask for this, and rows of
//! designs that were written by hand promise nothing, so the program asks before it simulates. Whether nodes name wires alone
//! is found for all nodes in one walk up, since children have lower numbers.

ghost use Rattle.std.specs.Prelude.{◌≡◌, ℕ, ◌<◌, ◌≤◌, ◌&&◌, ◌==◌, false, length, map, slice_index_or, All, IsTrue, IfOk};
ghost use Rattle.lhs_alias.specs.Pairs.{HaveOwnChildren};
ghost use Rattle.lhs_alias.specs.Joined.{Stands, widths_of as joined_widths};
ghost use Rattle.svex_shape.specs.Shapes.{ChildrenBelow};
ghost use Rattle.svex_shape.specs.Values.{each_variable_of};
ghost use Rattle.driver_resolve.specs.Drivers.{widths_of, is_wire, is_of_wires, IsDriver};
ghost use Rattle.flat_net.specs.Flats.{IsSignal, IsJoin, IsFlat, links_of, is_path_byte};
ghost use Rattle.event_sim.specs.Sims.{IsValuation};
ghost use Rattle.event_rows.specs.Sound.{IsPrinted, AreNamed};

use driver_resolve::Driver;
use flat_net::{Flat, Join};
use fourvec::Four;
use lhs_alias::Joins;
use std::alloc::{AllocError, Global};
use sv_outside::Signal;
use svex_arena::{Arena, Node, Shape, VarName};

fn is_path(byte: u8) -> bool
    ensures { result ≡ is_path_byte byte }
{
    33 <= byte && byte <= 126
}

fn is_printed(path: &[u8]) -> bool
    ensures { IsTrue result → IsPrinted path.now }
{
    for byte in path {
        if !is_path(*byte) {
            return false;
        }
    }
    true
}

fn is_signal(signal: &Signal) -> bool
    ensures { IsTrue result → IsSignal signal.now }
{
    if signal.width == 0 || signal.width > 128 {
        return false;
    }
    let path = signal.path.bytes();
    if path.is_empty() {
        return false;
    }
    is_printed(path)
}

fn are_signals(wires: &[Signal]) -> bool
    ensures { IsTrue result → All IsSignal wires.now }
{
    for wire in wires {
        if !is_signal(wire) {
            return false;
        }
    }
    true
}

fn wire_widths(alloc: Global, wires: &[Signal]) -> Result<Vec<u8>, AllocError>
    ensures { IfOk result (λ widths. widths.items ≡ widths_of wires.now) }
{
    let mut widths = Vec::new(alloc);
    for wire in wires {
        widths.push(wire.width)?;
    }
    Ok(widths)
}

fn has_wire(widths: &[u8], wire: usize, width: u8) -> bool
    ensures { result ≡ is_wire widths.now wire width }
{
    wire < widths.len() && widths[wire] == width
}

fn is_named(widths: &[u8], name: &VarName, width: u8) -> bool
    ensures { result ≡ is_of_wires widths.now name.now width }
{
    match name {
        VarName::Now(wire) => has_wire(widths, *wire, width),
        VarName::Prev(wire) => has_wire(widths, *wire, width),
        VarName::Stim(_) => false,
        VarName::Chosen(_) => false,
        VarName::Sampled(_) => false,
    }
}

// Whether a node names present and previous values of wires alone, by whether its children do.
#[tactic(auto, unfolding(svex_shape::specs::Values::each_variable_of))]
fn names_wires(widths: &[u8], shape: &Shape, done: &[bool]) -> bool
    requires { ChildrenBelow (length done.now) shape.now }
    ensures { result ≡ each_variable_of (is_of_wires widths.now) (λ k. slice_index_or done.now k false) shape.now }
{
    match shape {
        Shape::Const(_) => true,
        Shape::Var(name, width) => is_named(widths, name, *width),
        Shape::Unary(_, a) => done[a.index()],
        Shape::Binary(_, a, b) => done[a.index()] && done[b.index()],
        Shape::Cond(c, a, b) => done[c.index()] && (done[a.index()] && done[b.index()]),
        Shape::Pick(c, a, b) => done[c.index()] && (done[a.index()] && done[b.index()]),
        Shape::Slice { of, .. } => done[of.index()],
        Shape::Zext(a, _) => done[a.index()],
        Shape::Sext(a, _) => done[a.index()],
        Shape::DynSlice { of, at, .. } => done[of.index()] && done[at.index()],
        Shape::DynPut { of, at, put, .. } => done[of.index()]
            && (done[at.index()] && done[put.index()]),
    }
}

fn name_all(arena: &Arena, widths: &[u8], done: &mut [bool])
    requires { length done.old ≡ length arena.now }
    ensures { AreNamed widths.now arena.now done.new (length arena.now) }
{
    'nodes: for node in 0..arena.len() {
        let shape = arena.shape(Node::new(node));
        done[node] = names_wires(widths, &shape, done);
    }
}

#[tactic(auto, using(lhs_alias::proofs::Lying::lengths))]
fn is_driver(arena: &Arena, widths: &[u8], named: &[bool], driver: &Driver) -> bool
    requires long { length named.now ≡ length arena.now }
    requires named { AreNamed widths.now arena.now named.now (length arena.now) }
    ensures { IsTrue result → IsDriver widths.now arena.now driver.now }
{
    let value = driver.value;
    if !driver.target.lies_in(widths) {
        return false;
    }
    if driver.target.segs().len() > 128 {
        return false;
    }
    if value.index() >= arena.len() {
        return false;
    }
    if usize::from(arena.width(value)) != driver.target.bits() {
        return false;
    }
    named[value.index()]
}

fn are_drivers(arena: &Arena, widths: &[u8], named: &[bool], drivers: &[Driver]) -> bool
    requires long { length named.now ≡ length arena.now }
    requires named { AreNamed widths.now arena.now named.now (length arena.now) }
    ensures { IsTrue result → All (IsDriver widths.now arena.now) drivers.now }
{
    for driver in drivers {
        if !is_driver(arena, widths, named, driver) {
            return false;
        }
    }
    true
}

fn is_join(widths: &[u8], join: &Join) -> bool
    ensures { IsTrue result → IsJoin widths.now join.now }
{
    if !join.child.lies_in(widths) {
        return false;
    }
    if !join.parent.lies_in(widths) {
        return false;
    }
    if join.child.segs().is_empty() {
        return false;
    }
    if join.parent.segs().is_empty() {
        return false;
    }
    join.child.falls_to(&join.parent)
}

fn are_joins(alloc: Global, widths: &[u8], joins: &[Join]) -> Result<bool, AllocError>
    requires { All (λ width. (1 ≤ width) × (width ≤ 128)) widths.now }
    ensures joins { IfOk result (λ sound. IsTrue sound → All (IsJoin widths.now) joins.now) }
    ensures own { IfOk result (λ sound. IsTrue sound → HaveOwnChildren (links_of joins.now)) }
{
    let mut made = Joins::new(alloc, widths)?;
    for join in joins {
        if !is_join(widths, join) {
            return Ok(false);
        }
        match made.join(&join.child, &join.parent) {
            Ok(()) => {}
            Err(_) => return Ok(false),
        }
    }
    Ok(true)
}

/// True only of a flat design that is well formed.
pub fn is_sound(alloc: Global, flat: &Flat) -> Result<bool, AllocError>
    ensures { IfOk result (λ sound. IsTrue sound → IsFlat flat.now) }
{
    if !are_signals(flat.wires.as_slice()) {
        return Ok(false);
    }
    let widths = wire_widths(alloc, flat.wires.as_slice())?;
    let mut named = vec![in alloc; false; flat.arena.len()]?;
    name_all(&flat.arena, &widths, &mut named);
    if !are_drivers(&flat.arena, &widths, &named, flat.drivers.as_slice()) {
        return Ok(false);
    }
    let sound = are_joins(alloc, &widths, flat.joins.as_slice())?;
    Ok(sound)
}

fn is_wide(wire: &Signal, value: &Four) -> bool
    ensures { result ≡ (length value.now == wire.now.width) }
{
    value.width() == wire.width
}

/// True only where there is a vector for each wire, of its width.
pub fn is_valuation(wires: &[Signal], values: &[Four]) -> bool
    ensures { IsTrue result → IsValuation (widths_of wires.now) values.now }
{
    if values.len() != wires.len() {
        return false;
    }
    for wire in 0..wires.len() {
        if !is_wide(&wires[wire], &values[wire]) {
            return false;
        }
    }
    true
}
