// What signals are set to, whatever drives them. Each cell of an `over` row stands for itself: an empty one sets nothing, and
// none speaks of the phase before.
ghost use Rattle.std.specs.Prelude.{◌≡◌, ◌<◌, ◌+◌, ◌^◌, ◌↔◌, [], ℕ, Contains, IsTrue, IfOk, IfErr, OnOk};
ghost use Rattle.svtv_table.specs.Binding.{HasWidth, over_faults, phase_over};
ghost use Rattle.svtv_table.specs.Drives as spec;
ghost use Rattle.svtv_table.specs.Faults.{Stops, at_each};
ghost use Rattle.svtv_table.specs.Indexing.{listed};
ghost use Rattle.svtv_table.specs.Overs as sets;
ghost use Rattle.svtv_table.specs.Overs.{IsAscending, is_overridden_at};

use crate::bound::{Bound, Drive};
use crate::drives::{chosen, differs, fixed, floating};
use crate::faults::refused;
use crate::names::Target;
use crate::variables::Variables;
use items::Items;
use std::alloc::{AllocError, Global};
use sv_outside::{TextErr, refusals};
use table_cells::{Cell, fits};

fn is_over_cell(width: u8, cell: &Cell) -> bool
    requires { HasWidth width }
    ensures { result ≡ spec.is_over_cell width cell.now }
{
    match cell {
        Cell::Flip => false,
        Cell::Literal(literal) => fits(literal, width),
        _ => true,
    }
}

// What a cell sets a signal to, if to anything.
fn over_drive(variables: &Variables<'_>, width: u8, cell: &Cell) -> Option<Drive>
    requires { HasWidth width }
    ensures { result ≡ spec.over_drive width (listed variables.now) cell.now }
{
    match cell {
        Cell::Literal(literal) => fixed(literal, width),
        Cell::Zed => Some(Drive::Fixed(floating(width))),
        Cell::Named(name) => Some(chosen(variables, name)),
        Cell::Free => Some(Drive::Free),
        Cell::Empty | Cell::Flip => None,
    }
}

// What a signal is set to in a phase, where nothing stands against the cell.
#[tactic(auto, unfolding(crate::specs::Binding::over_faults, crate::specs::Faults::Stops))]
fn checked_over(
    variables: &Variables<'_>,
    target: &Target,
    phase: usize,
    cell: &Cell,
) -> Result<Option<Drive>, TextErr>
    requires { phase + 3 < 2 ^ 64 }
    ensures over { IfOk result (λ over. over ≡ spec.over_drive target.now.width (listed variables.now) cell.now) }
    ensures fine { OnOk result (over_faults target.now.width (listed variables.now) target.now.line phase cell.now ≡ []) }
    ensures err { IfErr result (Stops (over_faults target.now.width (listed variables.now) target.now.line phase cell.now)) }
{
    if !is_over_cell(target.width, cell) {
        return Err(refused(refusals::CELL_BAD, target.line, phase + 3));
    }
    if differs(variables, target.width, cell) {
        return Err(refused(refusals::VAR_WIDTH, target.line, phase + 3));
    }
    Ok(over_drive(variables, target.width, cell))
}

/// What the signal of an `over` row is set to in each phase, if to anything.
#[tactic(auto, unfolding(crate::specs::Faults::Stops))]
pub fn overs_of(
    alloc: Global,
    variables: &Variables<'_>,
    target: &Target,
    cells: &[Cell],
) -> Result<Items<Option<Drive>>, TextErr>
    ensures overs { IfOk result (λ overs. overs ≡ at_each (phase_over target.now.width (listed variables.now)) 0 cells.now) }
    ensures fine { OnOk result (at_each (over_faults target.now.width (listed variables.now) target.now.line) 0 cells.now ≡ []) }
    ensures err { IfErr result (Stops (at_each (over_faults target.now.width (listed variables.now) target.now.line) 0 cells.now)) }
{
    let mut overs = Items::new(alloc);
    for (phase, cell) in cells.iter().enumerate() {
        let over = checked_over(variables, target, phase, cell)?;
        overs.push(over)?;
    }
    Ok(overs)
}

// Whether a row sets its signal in a phase.
fn sets_in(cells: &Items<Option<Drive>>, phase: usize) -> bool
    ensures { result ≡ sets.sets_in cells.now phase }
{
    match cells.as_slice().get(phase) {
        Some(over) => over.is_some(),
        None => false,
    }
}

// The wires of the rows that set something in a phase, in the order of the rows.
fn set_wires(
    alloc: Global,
    overs: &[(usize, Items<Option<Drive>>)],
    phase: usize,
) -> Result<Vec<usize>, AllocError>
    ensures { IfOk result (λ wires. wires.items ≡ sets.set_wires overs.now phase) }
{
    let mut wires = Vec::new(alloc);
    for (wire, cells) in overs {
        if sets_in(cells, phase) {
            wires.push(*wire)?;
        }
    }
    Ok(wires)
}

/// The numbers of the wires that a table overrides in a phase, ascending, each once.
pub fn over_at(alloc: Global, bound: &Bound, phase: usize) -> Result<Items<usize>, AllocError>
    ensures ascending { IfOk result IsAscending }
    ensures wires { IfOk result (λ wires. (n : ℕ) → Contains wires n ↔ IsTrue (is_overridden_at bound.now.overs phase n)) }
{
    let mut wires = set_wires(alloc, bound.overs.as_slice(), phase)?;
    wires.sort_unstable();
    wires.dedup();
    Ok(Items::from_vec(wires))
}
