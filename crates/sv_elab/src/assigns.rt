// Continuous assignments (IEEE 1800-2017, 10.3).
ghost use Rattle.std.specs.Prelude.{◌++◌, ◌≤◌, List, All, false};
ghost use Rattle.lhs_alias.specs.Lies.{LieIn};
ghost use Rattle.svex_arena.specs.Arenas.{Extends};
ghost use Rattle.sv_names.specs.Names.{names_are};
ghost use Rattle.sv_meaning.specs.Faults.{Faults};
ghost use Rattle.sv_meaning.specs.Meanings.{fixed_faults};
ghost use Rattle.sv_meaning.specs.Values.{mean};
ghost use Rattle.sv_meaning.specs.Targets as t;
ghost use Rattle.sv_meaning.specs.Designs.{assigned_to, wires_named};
ghost use Rattle.sv_targets.specs.Slots.{IsLowered};
ghost use Rattle.sv_stmt.specs.Blocks.{AreWires};
ghost use Rattle.sv_elab.specs.Working.{IsWithin, JudgesSupply};

use crate::parts::part_drivers;
use driver_resolve::Driver;
use items::Items;
use std::alloc::Global;
use sv_names::Names;
use sv_outside::TextErr;
use sv_stmt::lower_expr;
use sv_targets::{Target, target_of};
use sv_tree::{Expr, Lvalue};
use svex_arena::Arena;

// The drivers of a target that takes the value of an expression.
fn valued(
    alloc: Global,
    arena: &mut Arena,
    widths: &[u8],
    target: &Target,
    value: &Expr,
    names: &Names<'_>,
) -> Result<Items<Driver>, TextErr>
    requires names { AreWires (names_are names.now) widths.now }
    requires some { 1 ≤ target.now.width }
    requires most { target.now.width ≤ 128 }
    requires parts { All (IsWithin target.now.width) target.now.parts }
    requires lie { All (λ p. LieIn widths.now p.to) target.now.parts }
    ensures stays { Extends arena.old arena.new }
    ensures is { (f : Faults) (ts : List t.Target) → IsLowered f ts target.now
        → JudgesSupply widths.now (wires_named (mean (names_are names.now) value.now).names) arena.new (assigned_to ts (mean (names_are names.now) value.now)) ((mean (names_are names.now) value.now).faults false) result }
{
    // For the proof: recalls what the type promises of it.
    let _ = arena.len();
    let node = lower_expr(alloc, arena, value, names, target.width as u8)?;
    let all = part_drivers(alloc, arena, target.parts.as_slice(), node)?;
    Ok(all)
}

/// The drivers of a continuous assignment, or why it is refused.
pub(crate) fn assigned(
    alloc: Global,
    arena: &mut Arena,
    widths: &[u8],
    target: &Lvalue,
    value: &Expr,
    names: &Names<'_>,
) -> Result<Items<Driver>, TextErr>
    requires { AreWires (names_are names.now) widths.now }
    ensures stays { Extends arena.old arena.new }
    ensures is { JudgesSupply widths.now (wires_named (mean (names_are names.now) value.now).names) arena.new
        (assigned_to (t.assigned_targets (names_are names.now) target.now) (mean (names_are names.now) value.now))
        (t.assigned_faults (names_are names.now) target.now ++ (mean (names_are names.now) value.now).faults false) result }
{
    // For the proof: recalls what the type promises of it.
    let _ = arena.len();
    let target = target_of(alloc, target, names)?;
    valued(alloc, arena, widths, &target, value, names)
}
