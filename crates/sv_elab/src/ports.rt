// Ports and their actuals (IEEE 1800-2017, 23.3.3). Where the actual is a target as wide as the port, with all selects constant
// and in range, the bits are joined, whatever the direction, so that both sides are one net. Else an input is driven with the
// value and an output assigned to the target, each one way. An `inout` can only be joined, so what is told then is what stands
// against its actual as an expression, or else E19.
ghost use Rattle.std.specs.Prelude.{◌≡◌, ◌≤◌, ◌∷◌, [], List, All, false, Some, IsTrue, IfOk};
ghost use Rattle.lhs_alias.specs.Lies.{LieIn};
ghost use Rattle.svex_arena.specs.Arenas.{Extends};
ghost use Rattle.driver_resolve.specs.Drivers.{is_wire};
ghost use Rattle.sv_names.specs.Names.{names_are};
ghost use Rattle.sv_meaning.specs.Faults.{Faults};
ghost use Rattle.sv_meaning.specs.Layouts as m;
ghost use Rattle.sv_meaning.specs.Layouts.{signal_is, of_wires, Layout as Meant};
ghost use Rattle.sv_meaning.specs.Meanings.{named};
ghost use Rattle.sv_meaning.specs.Values.{mean};
ghost use Rattle.sv_meaning.specs.Targets as t;
ghost use Rattle.sv_meaning.specs.Designs as d;
ghost use Rattle.sv_meaning.specs.Designs.{port_gives, port_faults, assigned_to, no_word, wires_named, as_targets, actual_faults, index_scope};
ghost use Rattle.sv_tree.specs.declared.design.Way.TheVariants as ways;
ghost use Rattle.sv_outside.specs.declared.text.Signal.{Signal};
ghost use Rattle.driver_resolve.specs.Drivers.{widths_of};
ghost use Rattle.sv_targets.specs.Slots.{IsLowered};
ghost use Rattle.sv_stmt.specs.Blocks.{AreWires};
ghost use Rattle.sv_typing.specs.Judging.{IsCause};
ghost use Rattle.sv_elab.specs.Working.{AreBelow, IsWithin, JudgesSupply, Supplies, JudgesWork};

use crate::joins::{is_joined, join_of, whole_wire};
use crate::parts::part_drivers;
use crate::works::{Parts, given};
use driver_resolve::Driver;
use items::Items;
use std::alloc::{AllocError, Global};
use sv_lower::{Look, lower_assigned};
use sv_names::Names;
use sv_outside::{TextErr, refusals};
use sv_stmt::lower_expr;
use sv_targets::{Target, target_of_actual};
use sv_tree::{Expr, Way};
use sv_typed::{Origin, Root, Typed};
use sv_typing::{Position, refusal, start, typed};
use svex_arena::Arena;

/// A port: its direction, its wire, how many bits it has and whether it is signed.
#[derive(Clone, Copy)]
pub(crate) struct Port {
    pub way: Way,
    pub wire: usize,
    pub width: u8,
    pub signed: bool,
}

// The driver of an input port that takes the value of an expression.
fn input(
    alloc: Global,
    arena: &mut Arena,
    widths: &[u8],
    port: Port,
    actual: &Expr,
    names: &Names<'_>,
) -> Result<Items<Driver>, TextErr>
    requires names { AreWires (names_are names.now) widths.now }
    requires wire { IsTrue (is_wire widths.now port.wire port.width) }
    requires some { 1 ≤ port.width }
    requires most { port.width ≤ 128 }
    ensures stays { Extends arena.old arena.new }
    ensures is { (x : Meant) → m.width x ≡ port.width
        → JudgesSupply widths.now (wires_named (mean (names_are names.now) actual.now).names) arena.new (port_gives ways.Input (names_are names.now) port.wire x actual.now) ((mean (names_are names.now) actual.now).faults false) result }
{
    // For the proof: recalls what the type promises of it.
    let _ = arena.len();
    let target = whole_wire(alloc, port.wire, port.width)?;
    let value = lower_expr(alloc, arena, actual, names, port.width)?;
    let mut all = Items::new(alloc);
    all.push(Driver { target, value })?;
    Ok(all)
}

// The drivers of a target that takes the value of an output port.
fn output(
    alloc: Global,
    arena: &mut Arena,
    widths: &[u8],
    port: Port,
    target: &Target,
) -> Result<Items<Driver>, AllocError>
    requires wire { IsTrue (is_wire widths.now port.wire port.width) }
    requires some { 1 ≤ port.width }
    requires most { port.width ≤ 128 }
    requires some_there { 1 ≤ target.now.width }
    requires most_there { target.now.width ≤ 128 }
    requires parts { All (IsWithin target.now.width) target.now.parts }
    requires lie { All (λ p. LieIn widths.now p.to) target.now.parts }
    ensures stays { Extends arena.old arena.new }
    ensures is { (f : Faults) (ts : List t.Target) (x : Meant) → IsLowered f ts target.now → m.width x ≡ port.width → m.is_signed x ≡ port.signed
        → IfOk result (λ all. Supplies widths.now (port.wire ∷ []) arena.new (assigned_to ts (named no_word (Some (signal_is of_wires port.wire x)) [])) all) }
{
    // For the proof: recalls what the type promises of it.
    let _ = arena.len();
    let root = Root::Signal {
        origin: Origin::Wires,
        number: port.wire,
        width: port.width,
    };
    let typed = Typed::named(root, Items::new(alloc), port.signed);
    let node = lower_assigned(alloc, arena, &typed, &Look::Present, target.width as u8)?;
    let all = part_drivers(alloc, arena, target.parts.as_slice(), node)?;
    Ok(all)
}

// Why a port that is never assigned is refused where it is not joined: what stands against its actual, or else E19.
#[tactic(auto, using(crate::proofs::Working::inout_free, crate::proofs::Working::inout_cause))]
fn not_joined(alloc: Global, actual: &Expr, names: &Names<'_>) -> TextErr
    ensures { IsCause (port_faults ways.Inout (names_are names.now) actual.now) result }
{
    if let Err(why) = typed(alloc, actual, names, Position::Free) {
        return why;
    }
    TextErr::No(refusal(refusals::BAD_TARGET, start(actual)))
}

// A port whose actual is a target, which it is joined to or else assigned.
fn to_target(
    alloc: Global,
    arena: &mut Arena,
    widths: &[u8],
    port: Port,
    target: &Target,
    actual: &Expr,
    names: &Names<'_>,
    made: u64,
) -> Result<Parts, TextErr>
    requires names { AreWires (names_are names.now) widths.now }
    requires below { AreBelow port.wire (names_are names.now) }
    requires wire { IsTrue (is_wire widths.now port.wire port.width) }
    requires some { 1 ≤ port.width }
    requires most { port.width ≤ 128 }
    requires target { IsLowered (actual_faults (index_scope port.way (names_are names.now)) (names_are names.now) actual.now) (as_targets (index_scope port.way (names_are names.now)) (names_are names.now) actual.now) target.now }
    ensures stays { Extends arena.old arena.new }
    ensures is { (wires : List Signal) (x : Meant) → widths_of wires ≡ widths.now → m.width x ≡ port.width → m.is_signed x ≡ port.signed
        → JudgesWork wires (d.port (names_are names.now) port.way port.wire x actual.now) made arena.new result }
{
    if is_joined(target, port.width) {
        let join = join_of(alloc, port.wire, port.width, target.parts.as_slice())?;
        return Ok(Parts {
            drivers: Items::new(alloc),
            join: Some(join),
            made,
        });
    }
    match port.way {
        Way::Input => given(input(alloc, arena, widths, port, actual, names), made),
        Way::Output => {
            let all = output(alloc, arena, widths, port, target)?;
            given(Ok(all), made)
        }
        Way::Inout => Err(not_joined(alloc, actual, names)),
    }
}

/// What is made of a connected port, or why it is refused.
pub(crate) fn connected(
    alloc: Global,
    arena: &mut Arena,
    widths: &[u8],
    port: Port,
    actual: &Expr,
    names: &Names<'_>,
    made: u64,
) -> Result<Parts, TextErr>
    requires names { AreWires (names_are names.now) widths.now }
    requires below { AreBelow port.wire (names_are names.now) }
    requires wire { IsTrue (is_wire widths.now port.wire port.width) }
    requires some { 1 ≤ port.width }
    requires most { port.width ≤ 128 }
    ensures stays { Extends arena.old arena.new }
    ensures is { (wires : List Signal) (x : Meant) → widths_of wires ≡ widths.now → m.width x ≡ port.width → m.is_signed x ≡ port.signed
        → JudgesWork wires (d.port (names_are names.now) port.way port.wire x actual.now) made arena.new result }
{
    // For the proof: recalls what the type promises of it.
    let _ = arena.len();
    match target_of_actual(alloc, actual, names, port.way) {
        Ok(target) => to_target(alloc, arena, widths, port, &target, actual, names, made),
        Err(TextErr::Memory) => Err(TextErr::Memory),
        Err(TextErr::No(why)) => match port.way {
            Way::Input => given(input(alloc, arena, widths, port, actual, names), made),
            Way::Output => Err(TextErr::No(why)),
            Way::Inout => Err(not_joined(alloc, actual, names)),
        },
    }
}
