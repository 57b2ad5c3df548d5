// The records of a text of comma-separated fields.
ghost use Rattle.std.specs.Prelude.{◌≡◌, ◌∷◌, [], ◌++◌, map, length, Ok, IfOk, OnOk};
ghost use Rattle.csv.specs.Reading.{AreRecords, default_config, strip_bom};
ghost use Rattle.csv.specs.Records.{fields_of};
ghost use Rattle.csv.specs.declared.parser.State.TheVariants as st;
ghost use Rattle.svtv_table.specs.Fields as spec;

use csv::{ByteRecord, Error, ReaderBuilder};
use std::alloc::Global;

// Puts a record that was read behind the others.
fn keep(rows: &mut Vec<ByteRecord>, row: Result<ByteRecord, Error>) -> Result<(), Error>
    ensures { OnOk result ((read : ByteRecord) × (row ≡ Ok read) × (rows.new.items ≡ rows.old.items ++ read ∷ [])) }
{
    if rows.push(row?).is_err() {
        return Err(Error::out_of_memory());
    }
    Ok(())
}

// Reads every record of a text into a vector, which owns them wherever the reader stops.
fn read_all(alloc: Global, text: &[u8], rows: &mut Vec<ByteRecord>) -> Result<(), Error>
    requires { rows.old.items ≡ [] }
    ensures { OnOk result (AreRecords default_config st.StartRecord (strip_bom text.now) (map fields_of rows.new.items)) }
{
    let rdr = ReaderBuilder::new()
        .has_headers(false)
        .flexible(true)
        .from_reader(alloc, text);
    for row in rdr.into_byte_records() {
        keep(rows, row)?;
    }
    Ok(())
}

/// Every record of a text that has no header row, as `csv` reads it with its defaults, but of any lengths. The text lies in
/// memory, so that only want of memory is an error.
pub fn all_records(alloc: Global, text: &[u8]) -> Result<Vec<ByteRecord>, Error>
    ensures { IfOk result (λ v. AreRecords default_config st.StartRecord (strip_bom text.now) (map fields_of v.items)) }
{
    let mut rows = Vec::new(alloc);
    read_all(alloc, text, &mut rows)?;
    Ok(rows)
}

fn is_edge(b: u8) -> bool
    ensures { result ≡ spec.is_edge b }
{
    b == b' ' || b == b'\t'
}

fn without_front(field: &[u8]) -> &[u8]
    ensures { result.now ≡ spec.without_front field.now }
{
    let mut rest = field;
    'edges: while let Some((first, behind)) = rest.split_first() {
        if !is_edge(*first) {
            return rest;
        }
        rest = behind;
    }
    rest
}

#[tactic(auto, using(crate::proofs::Trims::end_kept, crate::proofs::Trims::end_dropped))]
fn without_end(field: &[u8]) -> &[u8]
    ensures { result.now ≡ spec.without_end field.now }
{
    let mut rest = field;
    'edges: while let Some((last, before)) = rest.split_last() {
        if !is_edge(*last) {
            return rest;
        }
        rest = before;
    }
    rest
}

#[tactic(auto, unfolding(crate::specs::Fields::trimmed))]
fn trimmed(field: &[u8]) -> &[u8]
    ensures { result.now ≡ spec.trimmed field.now }
{
    without_end(without_front(field))
}

/// How many fields a record has.
pub fn count_of(csv_record: &ByteRecord) -> usize
    ensures { result ≡ length (spec.fields_in csv_record.now) }
{
    csv_record.len()
}

/// The field at a place, from 0, without the spaces and tabs at its ends, and nothing past the last.
#[tactic(auto, using(crate::proofs::Trims::field_found, crate::proofs::Trims::field_past))]
pub fn field_at(csv_record: &ByteRecord, at: usize) -> &[u8]
    ensures { result.now ≡ spec.field_at (spec.fields_in csv_record.now) at }
{
    match csv_record.get(at) {
        Some(field) => trimmed(field),
        None => &[],
    }
}
