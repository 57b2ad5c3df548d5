// What a field says as a cell.
ghost use Rattle.std.specs.Prelude.{◌≡◌, IfOk};
ghost use Rattle.table_cells.specs.Cells as spec;

use crate::table::{Cell, RowKind};
use std::alloc::{AllocError, Global};
use sv_literal::{Literal, literal};
use sv_outside::{Name, is_id};

/// The literal, where each of its bits is 0 or 1.
pub fn known_literal(text: &[u8]) -> Option<Literal>
    ensures { result ≡ spec.known_literal text.now }
{
    let Ok(answer) = literal(text) else {
        return None;
    };
    if answer.value.is_bool() {
        Some(answer)
    } else {
        None
    }
}

// `_` stands for a free input and `z` for a floating one: neither names anything.
#[tactic(auto, unfolding(crate::specs::Cells::is_cell_name))]
fn is_cell_name(text: &[u8]) -> bool
    ensures { result ≡ spec.is_cell_name text.now }
{
    is_id(text) && text != b"_".as_slice() && text != b"z".as_slice()
}

fn constant(text: &[u8]) -> Option<Cell>
    ensures { result ≡ spec.constant_cell text.now }
{
    known_literal(text).map(Cell::Literal)
}

#[tactic(auto, unfolding(crate::specs::Cells::in_cell))]
fn in_cell(alloc: Global, text: &[u8]) -> Result<Option<Cell>, AllocError>
    ensures { IfOk result (λ cell. cell ≡ spec.in_cell text.now) }
{
    if text.is_empty() {
        Ok(Some(Cell::Empty))
    } else if text == b"_".as_slice() {
        Ok(Some(Cell::Free))
    } else if text == b"z".as_slice() {
        Ok(Some(Cell::Zed))
    } else if text == b"~".as_slice() {
        Ok(Some(Cell::Flip))
    } else if is_cell_name(text) {
        Ok(Some(Cell::Named(Name::new(alloc, text)?)))
    } else {
        Ok(constant(text))
    }
}

#[tactic(auto, unfolding(crate::specs::Cells::over_cell))]
fn over_cell(alloc: Global, text: &[u8]) -> Result<Option<Cell>, AllocError>
    ensures { IfOk result (λ cell. cell ≡ spec.over_cell text.now) }
{
    if text == b"~".as_slice() {
        Ok(None)
    } else {
        in_cell(alloc, text)
    }
}

#[tactic(auto, unfolding(crate::specs::Cells::out_cell))]
fn out_cell(alloc: Global, text: &[u8]) -> Result<Option<Cell>, AllocError>
    ensures { IfOk result (λ cell. cell ≡ spec.out_cell text.now) }
{
    if text.is_empty() {
        Ok(Some(Cell::Empty))
    } else if is_cell_name(text) {
        Ok(Some(Cell::Named(Name::new(alloc, text)?)))
    } else {
        Ok(None)
    }
}

/// The cell that a field spells in a row of that kind, and `None` where it is none of its forms.
pub fn cell_of(alloc: Global, kind: RowKind, text: &[u8]) -> Result<Option<Cell>, AllocError>
    ensures { IfOk result (λ cell. cell ≡ spec.cell_of kind text.now) }
{
    match kind {
        RowKind::In => in_cell(alloc, text),
        RowKind::Over => over_cell(alloc, text),
        RowKind::Out => out_cell(alloc, text),
    }
}
