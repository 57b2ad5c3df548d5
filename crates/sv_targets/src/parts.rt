// Targets whose selects are constant as parts of wires (IEEE 1800-2017, 10.3.2 and 23.3.3). The bits that a target names are
// listed as slots first, and then runs of slots that are there become parts. Bits out of range are no part of any run, so each
// part says where in the target it lies; a value is cut by these places and nothing is written where there is no bit.
ghost use Rattle.std.specs.Prelude.{◌≡◌, ◌≤◌, ◌<◌, All, IfOk, List, [], length, slice_index_or, ◌+◌};
ghost use Rattle.sv_names.specs.Names.{names_are};
ghost use Rattle.sv_meaning.specs.Designs.{as_targets, actual_faults, index_scope};
ghost use Rattle.sv_meaning.specs.Faults.{Faults};
ghost use Rattle.sv_meaning.specs.Meanings.{fixed_faults};
ghost use Rattle.sv_meaning.specs.Targets as t;
ghost use Rattle.sv_targets.specs.Slots.{Slots, IsNear, Runs, AreParts, JudgesParts};
ghost use Rattle.sv_targets.specs.Targets.{JudgesTargets, AreNarrow, TargetIsSound, width_of_all};

use crate::actuals::typed_actual;
use crate::fixed::are_fixed;
use crate::slots::all_slots;
use crate::targets::{TypedTarget, typed_targets, width_of_all};
use items::Items;
use lhs_alias::{Lhs, WireBit, segs_of};
use std::alloc::{AllocError, Global};
use sv_names::Names;
use sv_outside::TextErr;
use sv_tree::{Expr, Lvalue, Way};
use sv_typing::IndexRule;

/// Bits of a target that are there, and the place of the lowest of them in the target.
pub struct Part {
    pub lo: usize,
    pub to: Lhs,
}

impl Drop for Part {
    fn drop(self) {
        let Part { lo: _, to: _ } = self;
    }
}

/// A target: how many bits it has, its bits that are in range, from the least significant on, and whether each of its indices is
/// constant and known.
pub struct Target {
    pub width: usize,
    pub parts: Items<Part>,
    pub fixed: bool,
}

impl Drop for Target {
    fn drop(self) {
        let Target {
            width: _,
            parts: _,
            fixed: _,
        } = self;
    }
}

// A run of bits that ends at a place as a part of its own.
fn closed(
    alloc: Global,
    parts: Items<Part>,
    run: &[WireBit],
    end: usize,
) -> Result<Items<Part>, AllocError>
    requires within { length run.now ≤ end }
    requires near { All (λ b. b.at < 128) run.now }
    ensures { (all : Slots) → Runs all end parts run.now → IfOk result (λ next. Runs all end next []) }
{
    if run.is_empty() {
        return Ok(parts);
    }
    let segs = segs_of(alloc, run)?;
    let mut parts = parts;
    parts.push(Part {
        lo: end - run.len(),
        to: Lhs::from_vec(segs),
    })?;
    Ok(parts)
}

// The parts and the open run behind one slot more.
fn behind_slot(
    alloc: Global,
    parts: Items<Part>,
    run: &mut Vec<WireBit>,
    at: usize,
    slot: Option<WireBit>,
) -> Result<Items<Part>, AllocError>
    requires within { length run.old.items ≤ at }
    requires near { All (λ b. b.at < 128) run.old.items }
    requires slot { IsNear slot }
    ensures runs { (all : Slots) → at < length all → slot ≡ slice_index_or all at slot → Runs all at parts run.old.items → IfOk result (λ next. Runs all (at + 1) next run.new.items) }
    ensures near { IfOk result (λ next. All (λ b. b.at < 128) run.new.items) }
{
    match slot {
        Some(bit) => {
            run.push(bit)?;
            Ok(parts)
        }
        None => {
            let next = closed(alloc, parts, run, at)?;
            run.clear();
            Ok(next)
        }
    }
}

// The runs of bits that are there.
fn parts_of(alloc: Global, all: &[Option<WireBit>]) -> Result<Items<Part>, AllocError>
    requires { All IsNear all.now }
    ensures { IfOk result (λ parts. AreParts all.now parts) }
{
    let mut parts = Items::new(alloc);
    let mut run = Vec::new(alloc);
    'slots: for at in 0..all.len() {
        parts = behind_slot(alloc, parts, &mut run, at, all[at])?;
    }
    closed(alloc, parts, &run, all.len())
}

// Targets as parts of wires.
fn lowered(alloc: Global, targets: Result<Items<TypedTarget>, TextErr>) -> Result<Target, TextErr>
    requires narrow { AreNarrow targets }
    requires some { IfOk targets (λ all. 1 ≤ width_of_all all) }
    requires sound { IfOk targets (λ all. All TargetIsSound all) }
    ensures { (f : Faults) (ts : List t.Target) → JudgesTargets fixed_faults f ts targets → JudgesParts f ts result }
{
    match targets {
        Ok(targets) => {
            let width = width_of_all(targets.as_slice()) as usize;
            let all = all_slots(alloc, targets.as_slice())?;
            let parts = parts_of(alloc, all.as_slice())?;
            let fixed = are_fixed(targets.as_slice());
            Ok(Target {
                width,
                parts,
                fixed,
            })
        }
        Err(why) => Err(why),
    }
}

/// A target whose indices are constant and wholly 0 and 1; or why it is refused: E12, E14, E15, E16, E19 or E23.
pub fn target_of(alloc: Global, target: &Lvalue, names: &Names<'_>) -> Result<Target, TextErr>
    ensures { JudgesParts (t.assigned_faults (names_are names.now) target.now) (t.assigned_targets (names_are names.now) target.now) result }
{
    lowered(alloc, typed_targets(alloc, target, names, IndexRule::Fixed))
}

/// The actual of a port of this direction as a target, as `target_of` has it (23.3.3).
pub fn target_of_actual(
    alloc: Global,
    actual: &Expr,
    names: &Names<'_>,
    way: Way,
) -> Result<Target, TextErr>
    ensures { JudgesParts (actual_faults (index_scope way (names_are names.now)) (names_are names.now) actual.now) (as_targets (index_scope way (names_are names.now)) (names_are names.now) actual.now) result }
{
    lowered(alloc, typed_actual(alloc, actual, names, way))
}
