// Reads a table: records of a kind, a path and cells, as many in each as in the first. The CSV reader hands over records of any
// length, so that a record of another length is a fault at that record. A cell is read by the kind of its row alone; what
// depends on the design, widths and names, is left to binding.
ghost use Rattle.std.specs.Prelude.{◌≡◌, ◌≤◌, ◌<◌, ◌+◌, ◌^◌, [], List, ℕ, length, map, drop, IfOk, IfErr, OnOk};
ghost use Rattle.csv.specs.Records.{fields_of};
ghost use Rattle.svtv_table.specs.Faults.{Stops, StopsText, at_each};
ghost use Rattle.svtv_table.specs.Fields.{fields_in, IsRecords};
ghost use Rattle.svtv_table.specs.Reading as spec;

use crate::faults::refused;
use crate::fields::{all_records, count_of, field_at};
use csv::ByteRecord;
use items::Items;
use std::alloc::Global;
use sv_outside::{Name, TextErr, refusals};
use table_cells::{Cell, Row, RowKind, Table, cell_of};

#[tactic(auto, unfolding(crate::specs::Reading::kind_of))]
fn kind_of(text: &[u8]) -> Option<RowKind>
    ensures { result ≡ spec.kind_of text.now }
{
    if text == b"in".as_slice() {
        Some(RowKind::In)
    } else if text == b"over".as_slice() {
        Some(RowKind::Over)
    } else if text == b"out".as_slice() {
        Some(RowKind::Out)
    } else {
        None
    }
}

// The cells of a record, which begin at its third field.
#[tactic(auto, unfolding(crate::specs::Faults::Stops))]
fn cells_of(
    alloc: Global,
    kind: RowKind,
    line: usize,
    csv_record: &ByteRecord,
) -> Result<Items<Cell>, TextErr>
    ensures cells { IfOk result (λ cells. cells ≡ map (spec.cell_in kind) (drop 2 (fields_in csv_record.now))) }
    ensures fine { OnOk result (spec.cell_faults kind line (fields_in csv_record.now) ≡ []) }
    ensures err { IfErr result (Stops (spec.cell_faults kind line (fields_in csv_record.now))) }
{
    let mut cells = Items::new(alloc);
    for at in 2..count_of(csv_record) {
        let Some(cell) = cell_of(alloc, kind, field_at(csv_record, at))? else {
            return Err(refused(refusals::CELL_BAD, line, at + 1));
        };
        cells.push(cell)?;
    }
    Ok(cells)
}

// The row of the record with that number from 0, where the first has so many fields.
#[tactic(auto, unfolding(crate::specs::Faults::Stops, crate::specs::Reading::record_faults, crate::specs::Reading::row_of))]
fn row_of(alloc: Global, count: usize, at: usize, csv_record: &ByteRecord) -> Result<Row, TextErr>
    requires { at + 1 < 2 ^ 64 }
    ensures row { IfOk result (λ row. row ≡ spec.row_of (fields_in csv_record.now)) }
    ensures fine { OnOk result (spec.record_faults count at (fields_in csv_record.now) ≡ []) }
    ensures err { IfErr result (Stops (spec.record_faults count at (fields_in csv_record.now))) }
{
    if count_of(csv_record) != count {
        return Err(refused(refusals::SHAPE, at + 1, 1));
    }
    let Some(kind) = kind_of(field_at(csv_record, 0)) else {
        return Err(refused(refusals::SHAPE, at + 1, 1));
    };
    let cells = cells_of(alloc, kind, at + 1, csv_record)?;
    let path = Name::new(alloc, field_at(csv_record, 1))?;
    Ok(Row { kind, path, cells })
}

#[tactic(auto, unfolding(crate::specs::Faults::Stops))]
fn rows_of(alloc: Global, count: usize, records: &[ByteRecord]) -> Result<Items<Row>, TextErr>
    ensures rows { IfOk result (λ rows. rows ≡ map spec.row_of (map fields_in records.now)) }
    ensures fine { OnOk result (at_each (spec.record_faults count) 0 (map fields_in records.now) ≡ []) }
    ensures err { IfErr result (Stops (at_each (spec.record_faults count) 0 (map fields_in records.now))) }
{
    let mut rows = Items::new(alloc);
    for (at, csv_record) in records.iter().enumerate() {
        rows.push(row_of(alloc, count, at, csv_record)?)?;
    }
    Ok(rows)
}

// How many fields the first record has.
#[tactic(auto, unfolding(crate::specs::Faults::Stops))]
fn first_count(records: &[ByteRecord]) -> Result<usize, TextErr>
    ensures count { IfOk result (λ count. count ≡ spec.count_in (map fields_in records.now)) }
    ensures least { IfOk result (λ count. 3 ≤ count) }
    ensures fine { OnOk result (spec.front_faults (map fields_in records.now) ≡ []) }
    ensures err { IfErr result (Stops (spec.front_faults (map fields_in records.now))) }
{
    let Some(first) = records.first() else {
        return Err(refused(refusals::SHAPE, 1, 1));
    };
    let count = count_of(first);
    if count < 3 {
        Err(refused(refusals::SHAPE, 1, 1))
    } else if count > 66 {
        Err(refused(refusals::PHASES, 1, 1))
    } else {
        Ok(count)
    }
}

#[tactic(auto, unfolding(crate::specs::Faults::Stops, crate::specs::Reading::table_faults, crate::specs::Reading::table_of))]
fn table_of(alloc: Global, records: &[ByteRecord]) -> Result<Table, TextErr>
    ensures table { IfOk result (λ table. table ≡ spec.table_of (map fields_in records.now)) }
    ensures fine { OnOk result (spec.table_faults (map fields_in records.now) ≡ []) }
    ensures err { IfErr result (Stops (spec.table_faults (map fields_in records.now))) }
{
    let count = first_count(records)?;
    let rows = rows_of(alloc, count, records)?;
    Ok(Table {
        phases: count - 2,
        rows,
    })
}

/// The table that a text stands for. E26 is a text without records, a first record of fewer than three fields, another one
/// of another number of fields, or a kind that is none of `in`, `over` and `out`. E27 is a table of over 64 phases, and E28 a cell
/// that has none of its row's forms. The first fault in the order of the text is told.
pub fn read_table(alloc: Global, text: &[u8]) -> Result<Table, TextErr>
    ensures table { IfOk result (λ table. (rows : List (List (List ℕ))) × IsRecords text.now rows × (spec.table_faults rows ≡ []) × (table ≡ spec.table_of rows)) }
    ensures err { IfErr result (StopsText spec.table_faults text.now) }
    ensures formed { IfOk result spec.IsWellFormed }
{
    let Ok(records) = all_records(alloc, text) else {
        return Err(TextErr::Memory);
    };
    match table_of(alloc, &records) {
        Ok(table) => Ok(table),
        Err(error) => Err(error),
    }
}
