// What drives an input in each phase. A row is read from left to right with two things kept: the cell that counts, which an
// empty cell leaves as it was, and the drive of the phase before, whose complement `~` is. A cell that names a variable is
// judged by its width where it is written, and not again where empty cells repeat it.
ghost use Rattle.std.specs.Prelude.{◌≡◌, ◌≤◌, ◌<◌, ◌+◌, ◌^◌, [], ℕ, List, Option, replicate, length, IfOk, IfErr, OnOk};
ghost use Rattle.fourvec.specs.declared.Bit.TheVariants.{Floating};
ghost use Rattle.svtv_table.specs.Binding.{HasWidth, cell_differs, drive_faults, phase_faults};
ghost use Rattle.svtv_table.specs.Drives as spec;
ghost use Rattle.svtv_table.specs.Faults.{Stops, at_each};
ghost use Rattle.svtv_table.specs.Indexing.{listed};

use crate::bound::Drive;
use crate::faults::refused;
use crate::names::{Target, number_of, width_under};
use crate::variables::Variables;
use fourvec::Four;
use items::Items;
use std::alloc::Global;
use sv_literal::Literal;
use sv_outside::{Name, TextErr, refusals};
use table_cells::{Cell, constant, fits};

/// A vector of Z.
#[tactic(auto, using(table_cells::proofs::Constants::filled), unfolding(fourvec::specs::Bits::planes))]
pub fn floating(width: u8) -> Four
    requires { HasWidth width }
    ensures { result ≡ replicate width Floating }
{
    Four::new(1, 0, 1).sext(width)
}

/// The constant of a literal, where it fits.
pub fn fixed(literal: &Literal, width: u8) -> Option<Drive>
    requires { HasWidth width }
    ensures { result ≡ spec.fixed_drive literal.now width }
{
    if fits(literal, width) {
        Some(Drive::Fixed(constant(literal, width)))
    } else {
        None
    }
}

fn complement(value: Four) -> Option<Drive>
    ensures { result ≡ spec.complement_drive value }
{
    if value.is_bool() {
        Some(Drive::Fixed(value.not()))
    } else {
        None
    }
}

fn flipped(before: &Drive) -> Option<Drive>
    ensures { result ≡ spec.flipped_drive (Some before.now) }
{
    match before {
        Drive::Fixed(value) => complement(*value),
        Drive::Chosen { number, flipped } => Some(Drive::Chosen {
            number: *number,
            flipped: !*flipped,
        }),
        Drive::Free => None,
    }
}

fn flipped_before(before: &Option<Drive>) -> Option<Drive>
    ensures { result ≡ spec.flipped_drive before.now }
{
    match before {
        Some(drive) => flipped(drive),
        None => None,
    }
}

/// A variable by its name, which every name of an `in` or `over` row is.
pub fn chosen(variables: &Variables<'_>, name: &Name) -> Drive
    ensures { result ≡ spec.chosen (listed variables.now) name.now }
{
    Drive::Chosen {
        number: number_of(variables, name).unwrap_or(0),
        flipped: false,
    }
}

// What a cell makes of the drive of the phase before.
fn drive_of(
    variables: &Variables<'_>,
    width: u8,
    cell: &Cell,
    before: &Option<Drive>,
) -> Option<Drive>
    requires { HasWidth width }
    ensures { result ≡ spec.drive_of width (listed variables.now) cell.now before.now }
{
    match cell {
        Cell::Literal(literal) => fixed(literal, width),
        Cell::Zed => Some(Drive::Fixed(floating(width))),
        Cell::Named(name) => Some(chosen(variables, name)),
        Cell::Flip => flipped_before(before),
        Cell::Empty | Cell::Free => Some(Drive::Free),
    }
}

fn unless_empty<'a>(cell: &'a Cell, before: &'a Cell) -> &'a Cell
    ensures { result.now ≡ spec.unless_empty cell.now before.now }
{
    match cell {
        Cell::Empty => before,
        _ => cell,
    }
}

/// Whether a cell names a variable of another width.
pub fn differs(variables: &Variables<'_>, width: u8, cell: &Cell) -> bool
    ensures { result ≡ cell_differs width (listed variables.now) cell.now }
{
    match cell {
        Cell::Named(name) => match width_under(variables, name) {
            Some(own) => own != width,
            None => false,
        },
        _ => false,
    }
}

// The drive of a phase, from the cell that counts there and the drive of the phase before.
#[tactic(auto, unfolding(crate::specs::Binding::drive_faults, crate::specs::Faults::Stops))]
fn phase_drive(
    variables: &Variables<'_>,
    target: &Target,
    phase: usize,
    cell: &Cell,
    held: &Cell,
    before: &Option<Drive>,
) -> Result<Drive, TextErr>
    requires { phase + 3 < 2 ^ 64 }
    ensures drive { IfOk result (λ drive. spec.drive_of target.now.width (listed variables.now) held.now before.now ≡ Some drive) }
    ensures fine { OnOk result (drive_faults (spec.drive_of target.now.width (listed variables.now) held.now before.now) target.now.width (listed variables.now) target.now.line phase cell.now ≡ []) }
    ensures err { IfErr result (Stops (drive_faults (spec.drive_of target.now.width (listed variables.now) held.now before.now) target.now.width (listed variables.now) target.now.line phase cell.now)) }
{
    let Some(drive) = drive_of(variables, target.width, held, before) else {
        return Err(refused(refusals::CELL_BAD, target.line, phase + 3));
    };
    if differs(variables, target.width, cell) {
        return Err(refused(refusals::VAR_WIDTH, target.line, phase + 3));
    }
    Ok(drive)
}

fn copied(drive: &Drive) -> Drive
    ensures { result ≡ drive.now }
{
    *drive
}

/// The drive of each phase of an `in` row.
#[tactic(auto, unfolding(crate::specs::Faults::Stops, crate::specs::Drives::held_before, crate::specs::Drives::drive_before))]
pub fn drives_of(
    alloc: Global,
    variables: &Variables<'_>,
    target: &Target,
    cells: &[Cell],
) -> Result<Items<Drive>, TextErr>
    ensures drives { IfOk result (λ drives. drives ≡ at_each (spec.phase_drive target.now.width (listed variables.now) cells.now) 0 cells.now) }
    ensures fine { OnOk result (at_each (phase_faults target.now.width (listed variables.now) cells.now target.now.line) 0 cells.now ≡ []) }
    ensures err { IfErr result (Stops (at_each (phase_faults target.now.width (listed variables.now) cells.now target.now.line) 0 cells.now)) }
{
    let free = Cell::Free;
    let mut held = &free;
    let mut before = None;
    let mut drives = Items::new(alloc);
    for (phase, cell) in cells.iter().enumerate() {
        held = unless_empty(cell, held);
        let drive = phase_drive(variables, target, phase, cell, held, &before)?;
        drives.push(copied(&drive))?;
        before = Some(drive);
    }
    Ok(drives)
}
