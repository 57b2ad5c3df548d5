//! The text of a flat design.
//!
//! Nodes have numbers of their own in a text, since only those are printed that a driver reaches. So their order is found first, and
//! each shape is printed over the numbers of its children.

ghost use Rattle.std.specs.Prelude.{◌≡◌, ◌++◌, ◌<◌, length, slice_index, IfOk, OnOk, All, IsTrue};
ghost use Rattle.std.specs.List.{flat_map};
ghost use Rattle.svex_shape.specs.Shapes.{shape_at};
ghost use Rattle.svex_arena.specs.Substs.{renamed};
ghost use Rattle.driver_resolve.specs.declared.driver.Driver.{Driver};
ghost use Rattle.flat_net.specs.Flats.{IsFlat};
ghost use Rattle.flat_text.specs.Lines.{ended, wire_line, join_line, node_line, drive_line, has_form};
ghost use Rattle.flat_text.specs.FlatTexts.{FlatText, HasSpot};
ghost use Rattle.flat_print.specs.Printed.{printed};

use crate::visits::{Order, order_of};
use driver_resolve::Driver;
use flat_net::{Flat, Join};
use flat_text::{push_drive, push_join, push_line, push_wire};
use std::alloc::{AllocError, Global};
use sv_outside::Signal;
use svex_arena::{Arena, rename};
use svex_shape::Node;

fn push_wires(text: &mut Vec<u8>, wires: &[Signal]) -> Result<(), AllocError>
    ensures { OnOk result (text.new.items ≡ text.old.items ++ flat_map (λ s. ended (wire_line s)) wires.now) }
{
    'wires: for wire in wires {
        push_wire(text, wire)?;
    }
    Ok(())
}

fn push_joins(text: &mut Vec<u8>, joins: &[Join]) -> Result<(), AllocError>
    ensures { OnOk result (text.new.items ≡ text.old.items ++ flat_map (λ j. ended (join_line j)) joins.now) }
{
    'joins: for join in joins {
        push_join(text, join)?;
    }
    Ok(())
}

// A node, whose children have numbers.
fn push_node(
    text: &mut Vec<u8>,
    arena: &Arena,
    node: Node,
    numbers: &[Node],
) -> Result<(), AllocError>
    requires there { node < length arena.now }
    requires numbers { length arena.now ≡ length numbers.now }
    requires form { IsTrue (has_form (shape_at arena.now node)) }
    ensures text { OnOk result (text.new.items
        ≡ text.old.items ++ ended (node_line (renamed (λ k. slice_index numbers.now k) (shape_at arena.now node)))) }
    ensures fits { OnOk result (HasSpot (shape_at arena.now node)) }
{
    let shape = rename(&arena.shape(node), numbers);
    push_line(text, &shape)
}

fn push_nodes(
    text: &mut Vec<u8>,
    arena: &Arena,
    nodes: &[Node],
    numbers: &[Node],
) -> Result<(), AllocError>
    requires there { All (λ k. k < length arena.now) nodes.now }
    requires numbers { length arena.now ≡ length numbers.now }
    requires form { All (λ k. IsTrue (has_form (shape_at arena.now k))) nodes.now }
    ensures text { OnOk result (text.new.items
        ≡ text.old.items ++ flat_map (λ k. ended (node_line (renamed (λ j. slice_index numbers.now j) (shape_at arena.now k)))) nodes.now) }
    ensures fits { OnOk result (All (λ k. HasSpot (shape_at arena.now k)) nodes.now) }
{
    'nodes: for node in nodes {
        push_node(text, arena, *node, numbers)?;
    }
    Ok(())
}

fn push_drives(text: &mut Vec<u8>, drivers: &[Driver], numbers: &[Node]) -> Result<(), AllocError>
    requires { All (λ d. d.value < length numbers.now) drivers.now }
    ensures { OnOk result (text.new.items
        ≡ text.old.items ++ flat_map (λ (d : Driver). ended (drive_line (record { target = d.target; value = slice_index numbers.now d.value }))) drivers.now) }
{
    'drivers: for driver in drivers {
        let number = numbers[driver.value.index()].index();
        push_drive(text, &driver.target, number)?;
    }
    Ok(())
}

// The lines between the first and the last.
fn push_all(text: &mut Vec<u8>, flat: &Flat, order: &Order) -> Result<(), AllocError>
    requires flat { IsFlat flat.now }
    requires there { All (λ k. k < length flat.now.arena) order.now.nodes.items }
    requires numbers { length flat.now.arena ≡ length order.now.numbers.items }
    requires form { All (λ k. IsTrue (has_form (shape_at flat.now.arena k))) order.now.nodes.items }
    requires drivers { All (λ d. d.value < length flat.now.arena) flat.now.drivers }
    ensures text { OnOk result (text.new.items ≡ text.old.items
        ++ (flat_map (λ s. ended (wire_line s)) flat.now.wires
        ++ (flat_map (λ j. ended (join_line j)) flat.now.joins
        ++ (flat_map (λ k. ended (node_line (renamed (λ j. slice_index order.now.numbers.items j) (shape_at flat.now.arena k)))) order.now.nodes.items
        ++ flat_map (λ (d : Driver). ended (drive_line (record { target = d.target; value = slice_index order.now.numbers.items d.value }))) flat.now.drivers)))) }
    ensures fits { OnOk result (All (λ k. HasSpot (shape_at flat.now.arena k)) order.now.nodes.items) }
{
    push_wires(text, flat.wires.as_slice())?;
    push_joins(text, flat.joins.as_slice())?;
    push_nodes(text, &flat.arena, &order.nodes, &order.numbers)?;
    push_drives(text, flat.drivers.as_slice(), &order.numbers)?;
    Ok(())
}

/// The text of a flat design. Nodes that no driver reaches are left out, and the others are numbered in the order of drivers.
pub fn print_flat(alloc: Global, flat: &Flat) -> Result<Vec<u8>, AllocError>
    requires { IsFlat flat.now }
    ensures printed { IfOk result (λ text. text.items ≡ printed flat.now) }
    ensures stands { IfOk result (λ text. FlatText text.items flat.now) }
{
    // For the proof: recalls what the type promises of it.
    let _ = flat.arena.len();
    let order = order_of(alloc, &flat.arena, flat.drivers.as_slice())?;
    let mut text = Vec::new(alloc);
    text.extend_from_slice(b"flat 1\n")?;
    push_all(&mut text, flat, &order)?;
    text.extend_from_slice(b"end\n")?;
    Ok(text)
}
