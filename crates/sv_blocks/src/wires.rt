// The wires that the statements of a block write, each with a place in the store. They are found by the names of targets alone,
// whatever the selects are, since a place is needed for each wire that may be written. The places stand in an ordered map, so that a
// block costs what it writes, whatever the numbers of its wires.
ghost use Rattle.std.specs.Prelude.{◌≡◌, ◌*◌, false, replicate, ◌++◌, All, List, Some, IfOk, IfSome, OnOk};
ghost use Rattle.sv_names.specs.Kinds.{what_is, WhatIsSound};
ghost use Rattle.sv_names.specs.Names.{names_are};
ghost use Rattle.sv_meaning.specs.Layouts.{NamedSignal, find};
ghost use Rattle.sv_actions.specs.Texts.{signal_of, root_signals, target_signals, other_signals, arm_signals, of_each};
ghost use Rattle.sv_blocks.specs.Declaring.{HasBits, IsAmong, IsThere, ArePlaces, IsBegun, maybe_wire, wires_are};

use items::{Boxed, Items};
use std::alloc::{AllocError, Global};
use sv_names::{Names, What};
use sv_stores::{Manner, Scene};
use sv_tree::{Arm, Lvalue, Stmt};
use wire_places::WirePlaces;

/// A wire that a name stands for, with its width.
#[derive(Clone, Copy)]
pub struct Wire {
    pub number: usize,
    pub width: u8,
}

// A net or variable by its number and width.
fn wire_in(what: &What) -> Option<Wire>
    requires { WhatIsSound what.now }
    ensures is { maybe_wire result ≡ signal_of (Some (what_is what.now)) }
    ensures bits { IfSome result HasBits }
{
    match what {
        What::Wire { number, layout } => Some(Wire {
            number: *number,
            width: layout.width,
        }),
        What::Number(_) => None,
        What::Kind(_) => None,
        What::Chosen { .. } => None,
        What::Sampled { .. } => None,
        What::Genvar => None,
    }
}

// The wire that a name stands for, if it stands for one.
fn found_wire(name: &[u8], names: &Names<'_>) -> Option<Wire>
    ensures is { maybe_wire result ≡ signal_of (find name.now (names_are names.now)) }
    ensures bits { IfSome result HasBits }
{
    match names.find(name) {
        Some(what) => wire_in(what),
        None => None,
    }
}

// The wire that a name stands for, if any, behind others.
fn name_wire(name: &[u8], names: &Names<'_>, wires: &mut Vec<Wire>) -> Result<(), AllocError>
    requires { All HasBits wires.old.items }
    ensures is { OnOk result (wires_are wires.new.items ≡ wires_are wires.old.items ++ signal_of (find name.now (names_are names.now))) }
    ensures bits { All HasBits wires.new.items }
{
    if let Some(wire) = found_wire(name, names) {
        wires.push(wire)?;
    }
    Ok(())
}

#[cycle(lvalue)]
fn target_wires(target: &Lvalue, names: &Names<'_>, wires: &mut Vec<Wire>) -> Result<(), AllocError>
    requires { All HasBits wires.old.items }
    ensures is { OnOk result (wires_are wires.new.items ≡ wires_are wires.old.items ++ root_signals (names_are names.now) target.now) }
    ensures bits { All HasBits wires.new.items }
{
    match target {
        Lvalue::Name(word, _) => name_wire(word.text.bytes(), names, wires),
        Lvalue::Concat(_, parts) => all_target_wires(parts.as_slice(), names, wires),
    }
}

#[cycle(lvalue)]
fn all_target_wires(
    parts: &[Lvalue],
    names: &Names<'_>,
    wires: &mut Vec<Wire>,
) -> Result<(), AllocError>
    requires { All HasBits wires.old.items }
    ensures is { OnOk result (wires_are wires.new.items ≡ wires_are wires.old.items ++ of_each (root_signals (names_are names.now)) parts.now) }
    ensures bits { All HasBits wires.new.items }
{
    'parts: for part in parts {
        target_wires(part, names, wires)?;
    }
    Ok(())
}

/// The wires that the targets of a statement name, behind others.
#[cycle(statement)]
pub fn stmt_wires(stmt: &Stmt, names: &Names<'_>, wires: &mut Vec<Wire>) -> Result<(), AllocError>
    requires { All HasBits wires.old.items }
    ensures is { OnOk result (wires_are wires.new.items ≡ wires_are wires.old.items ++ target_signals (names_are names.now) stmt.now) }
    ensures bits { All HasBits wires.new.items }
{
    match stmt {
        Stmt::Empty => Ok(()),
        Stmt::Block(_, _, all, _) => all_stmt_wires(all.as_slice(), names, wires),
        Stmt::If(_, _, taken, other) => {
            stmt_wires(taken.get(), names, wires)?;
            other_wires(other, names, wires)
        }
        Stmt::Case(_, _, _, arms) => arms_wires(arms.as_slice(), names, wires),
        Stmt::For(_, _, _, _, _, _, body) => stmt_wires(body.get(), names, wires),
        Stmt::Assign(target, _, _, _) => target_wires(target, names, wires),
    }
}

#[cycle(statement)]
fn other_wires(
    other: &Option<Boxed<Stmt>>,
    names: &Names<'_>,
    wires: &mut Vec<Wire>,
) -> Result<(), AllocError>
    requires { All HasBits wires.old.items }
    ensures is { OnOk result (wires_are wires.new.items ≡ wires_are wires.old.items ++ other_signals (names_are names.now) other.now) }
    ensures bits { All HasBits wires.new.items }
{
    match other {
        Some(body) => stmt_wires(body.get(), names, wires),
        None => Ok(()),
    }
}

#[cycle(statement)]
fn all_stmt_wires(all: &[Stmt], names: &Names<'_>, wires: &mut Vec<Wire>) -> Result<(), AllocError>
    requires { All HasBits wires.old.items }
    ensures is { OnOk result (wires_are wires.new.items ≡ wires_are wires.old.items ++ of_each (target_signals (names_are names.now)) all.now) }
    ensures bits { All HasBits wires.new.items }
{
    'parts: for part in all {
        stmt_wires(part, names, wires)?;
    }
    Ok(())
}

#[cycle(statement)]
fn arms_wires(arms: &[Arm], names: &Names<'_>, wires: &mut Vec<Wire>) -> Result<(), AllocError>
    requires { All HasBits wires.old.items }
    ensures is { OnOk result (wires_are wires.new.items ≡ wires_are wires.old.items ++ of_each (arm_signals (names_are names.now)) arms.now) }
    ensures bits { All HasBits wires.new.items }
{
    'parts: for part in arms {
        arm_wires(part, names, wires)?;
    }
    Ok(())
}

#[cycle(statement)]
fn arm_wires(arm: &Arm, names: &Names<'_>, wires: &mut Vec<Wire>) -> Result<(), AllocError>
    requires { All HasBits wires.old.items }
    ensures is { OnOk result (wires_are wires.new.items ≡ wires_are wires.old.items ++ arm_signals (names_are names.now) arm.now) }
    ensures bits { All HasBits wires.new.items }
{
    match arm {
        Arm::Labels(_, body) => stmt_wires(body.get(), names, wires),
        Arm::Default(_, body) => stmt_wires(body.get(), names, wires),
    }
}

// Places of wires, and what stands at these.
#[derive(Drop)]
struct Places {
    places: WirePlaces,
    wires: Vec<usize>,
    widths: Vec<u8>,
}

// Gives a wire a place, if it has none.
fn add_wire(all: &mut Places, wire: Wire) -> Result<(), AllocError>
    ensures are { (named : List NamedSignal) → IsAmong named wire → ArePlaces named all.old → OnOk result (ArePlaces named all.new) }
    ensures there { OnOk result (IsThere all.new.places wire) }
    ensures kept { (x : Wire) → IsThere all.old.places x → OnOk result (IsThere all.new.places x) }
{
    if all.places.get(wire.number).is_some() {
        return Ok(());
    }
    let place = all.wires.len();
    all.wires.push(wire.number)?;
    all.widths.push(wire.width)?;
    all.places.put(wire.number, place)?;
    Ok(())
}

// 128 marks for each of so many wires, none of them set.
fn no_marks(alloc: Global, wires: usize) -> Result<Items<bool>, AllocError>
    ensures { IfOk result (λ marks. marks ≡ replicate (wires * 128) false) }
{
    let mut marks = Items::new(alloc);
    'wires: for _wire in 0..wires {
        let more = vec![in alloc; false; 128]?;
        marks.append(Items::from_vec(more))?;
    }
    Ok(marks)
}

/// The scene with a place for each of these wires, and no bit marked.
pub fn scene_of(alloc: Global, found: &[Wire], manner: Manner) -> Result<Scene, AllocError>
    ensures begun { (named : List NamedSignal) → All (IsAmong named) found.now → IfOk result (λ scene. IsBegun named manner scene) }
    ensures there { IfOk result (λ scene. All (IsThere scene.places) found.now) }
{
    let mut all = Places {
        places: WirePlaces::new(alloc),
        wires: Vec::new(alloc),
        widths: Vec::new(alloc),
    };
    'found: for wire in found {
        add_wire(&mut all, *wire)?;
    }
    let Places {
        places,
        wires,
        widths,
    } = all;
    let marks = no_marks(alloc, wires.len())?;
    Ok(Scene {
        places,
        wires: Items::from_vec(wires),
        widths: Items::from_vec(widths),
        marks,
        manner,
    })
}
