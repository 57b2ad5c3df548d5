// Reads the values of a table's variables: a record for each, with a name and a literal of 0 and 1. Records may stand in any
// order, so values are put into places that are empty at first, by which a second record and a missing one are seen. A variable
// without a record is told at 1:1, since no record stands for it.
ghost use Rattle.std.specs.Prelude.{◌≡◌, ◌<◌, ◌+◌, ◌^◌, [], ℕ, List, All, Some, None, true, not, is_some, unwrap_or, map, replicate, length, IfOk, OnOk, IfErr};
ghost use Rattle.std.specs.List.{IsDistinct, list_all};
ghost use Rattle.std.specs.Str.{bytes_eq};
ghost use Rattle.csv.specs.Records.{fields_of};
ghost use Rattle.sv_literal.specs.Meaning.{meaning_of};
ghost use Rattle.svtv_table.specs.Binding.{HasWidth};
ghost use Rattle.table_cells.specs.Constants.{constant};
ghost use Rattle.svtv_table.specs.Faults.{Stops, StopsText, at_each, fault, fault_if};
ghost use Rattle.svtv_table.specs.Fields.{IsRecords, fields_in};
ghost use Rattle.svtv_table.specs.Following.{is_valued, with_value};
ghost use Rattle.svtv_table.specs.Indexing.{Indexes};
ghost use Rattle.svtv_table.specs.Names.{name_of, number_of, width_under};
ghost use Rattle.svtv_table.specs.Valuing as spec;

use crate::bound::VarDecl;
use crate::faults::refused;
use crate::fields::{all_records, count_of, field_at};
use crate::names::{by_name, number_in};
use csv::ByteRecord;
use fourvec::Four;
use name_index::NameIndex;
use std::alloc::{AllocError, Global};
use sv_outside::{TextErr, refusals};
use table_cells::{constant, fits, known_literal};

#[tactic(auto, using(table_cells::proofs::Literals::meaning_of_known), unfolding(crate::specs::Valuing::is_value, crate::specs::Faults::Stops))]
fn value_of(text: &[u8], width: u8, line: usize) -> Result<Four, TextErr>
    requires { HasWidth width }
    ensures value { IfOk result (λ value. value ≡ constant (meaning_of text.now) width) }
    ensures fine { OnOk result (fault_if (not (spec.is_value text.now width)) (fault 38 line 2) ≡ []) }
    ensures err { IfErr result (Stops (fault_if (not (spec.is_value text.now width)) (fault 38 line 2))) }
{
    let Some(literal) = known_literal(text) else {
        return Err(refused(refusals::VALUE_BAD, line, 2));
    };
    if !fits(&literal, width) {
        return Err(refused(refusals::VALUE_BAD, line, 2));
    }
    Ok(constant(&literal, width))
}

// The value of a variable that has this one so far.
#[tactic(auto, unfolding(crate::specs::Valuing::var_faults, crate::specs::Faults::Stops))]
fn new_value(so_far: &Option<Four>, text: &[u8], width: u8, line: usize) -> Result<Four, TextErr>
    requires { HasWidth width }
    ensures value { IfOk result (λ value. value ≡ constant (meaning_of text.now) width) }
    ensures fine { OnOk result (spec.var_faults (is_some so_far.now) width line text.now ≡ []) }
    ensures err { IfErr result (Stops (spec.var_faults (is_some so_far.now) width line text.now)) }
{
    if so_far.is_some() {
        return Err(refused(refusals::VAR_TWICE, line, 1));
    }
    value_of(text, width, line)
}

// Takes the value of one record.
#[tactic(auto, unfolding(crate::specs::Valuing::value_faults, crate::specs::Faults::Stops))]
fn put_value(
    vars: &[VarDecl],
    index: &NameIndex,
    line: usize,
    csv_record: &ByteRecord,
    values: &mut Vec<Option<Four>>,
) -> Result<(), TextErr>
    requires widths { All (λ var. HasWidth var.width) vars.now }
    requires indexed { Indexes index.now (map name_of vars.now) }
    requires room { length values.old.items ≡ length vars.now }
    ensures values { OnOk result (values.new.items ≡ with_value values.old.items (number_of vars.now (spec.name_at (fields_in csv_record.now)))
        (constant (meaning_of (spec.text_at (fields_in csv_record.now))) (unwrap_or (width_under vars.now (spec.name_at (fields_in csv_record.now))) 0))) }
    ensures fine { OnOk result (spec.value_faults vars.now (is_valued values.old.items (number_of vars.now (spec.name_at (fields_in csv_record.now)))) line (fields_in csv_record.now) ≡ []) }
    ensures err { IfErr result (Stops (spec.value_faults vars.now (is_valued values.old.items (number_of vars.now (spec.name_at (fields_in csv_record.now)))) line (fields_in csv_record.now))) }
{
    if count_of(csv_record) != 2 {
        return Err(refused(refusals::SHAPE, line, 1));
    }
    let Some(number) = number_in(vars, index, field_at(csv_record, 0)) else {
        return Err(refused(refusals::VAR_UNKNOWN, line, 1));
    };
    let width = vars[number].width;
    let value = new_value(&values[number], field_at(csv_record, 1), width, line)?;
    values[number] = Some(value);
    Ok(())
}

fn no_values(alloc: Global, vars: &[VarDecl]) -> Result<Vec<Option<Four>>, AllocError>
    ensures { IfOk result (λ values. values.items ≡ map (spec.given_value []) vars.now) }
{
    let mut values = Vec::new(alloc);
    for _var in vars {
        values.push(None)?;
    }
    Ok(values)
}

#[tactic(auto, unfolding(crate::specs::Faults::Stops))]
fn all_given(alloc: Global, values: &[Option<Four>]) -> Result<Vec<Four>, TextErr>
    ensures values { IfOk result (λ given. map (λ value. Some value) given.items ≡ values.now) }
    ensures fine { OnOk result (fault_if (not (list_all is_some values.now)) (fault 35 1 1) ≡ []) }
    ensures err { IfErr result (Stops (fault_if (not (list_all is_some values.now)) (fault 35 1 1))) }
{
    let mut given = Vec::new(alloc);
    for value in values {
        match value {
            Some(value) => given.push(*value)?,
            None => return Err(refused(refusals::VAR_MISSING, 1, 1)),
        }
    }
    Ok(given)
}

#[tactic(auto, unfolding(crate::specs::Faults::Stops))]
fn put_values(
    alloc: Global,
    vars: &[VarDecl],
    records: &[ByteRecord],
) -> Result<Vec<Option<Four>>, TextErr>
    requires widths { All (λ var. HasWidth var.width) vars.now }
    requires distinct { IsDistinct bytes_eq (map name_of vars.now) }
    ensures values { IfOk result (λ values. values.items ≡ map (spec.given_value (map fields_in records.now)) vars.now) }
    ensures fine { OnOk result (at_each (spec.record_faults vars.now (map fields_in records.now)) 0 (map fields_in records.now) ≡ []) }
    ensures err { IfErr result (Stops (at_each (spec.record_faults vars.now (map fields_in records.now)) 0 (map fields_in records.now))) }
{
    let index = by_name(alloc, vars)?;
    let mut values = no_values(alloc, vars)?;
    for (at, csv_record) in records.iter().enumerate() {
        put_value(vars, &index, at + 1, csv_record, &mut values)?;
    }
    Ok(values)
}

#[tactic(auto, unfolding(crate::specs::Faults::Stops, crate::specs::Valuing::values_faults))]
fn values_of(alloc: Global, vars: &[VarDecl], records: &[ByteRecord]) -> Result<Vec<Four>, TextErr>
    requires widths { All (λ var. HasWidth var.width) vars.now }
    requires distinct { IsDistinct bytes_eq (map name_of vars.now) }
    ensures values { IfOk result (λ values. values.items ≡ spec.values_of vars.now (map fields_in records.now)) }
    ensures fine { OnOk result (spec.values_faults vars.now (map fields_in records.now) ≡ []) }
    ensures err { IfErr result (Stops (spec.values_faults vars.now (map fields_in records.now))) }
{
    let values = put_values(alloc, vars, records)?;
    let given = all_given(alloc, &values)?;
    Ok(given)
}

/// The values that a text gives to variables, in the order of the variables. E26 is a record of not exactly two fields, E36 a
/// name that no variable has, E37 a second record of a name, E38 a field that is no literal of 0 and 1 that fits the variable,
/// and E35 a variable without a record. The first fault in the order of the text is told.
pub fn read_values(alloc: Global, text: &[u8], vars: &[VarDecl]) -> Result<Vec<Four>, TextErr>
    requires widths { All (λ var. HasWidth var.width) vars.now }
    requires distinct { IsDistinct bytes_eq (map name_of vars.now) }
    ensures values { IfOk result (λ values. (rows : List (List (List ℕ))) × IsRecords text.now rows × (spec.values_faults vars.now rows ≡ []) × (values.items ≡ spec.values_of vars.now rows)) }
    ensures err { IfErr result (StopsText (spec.values_faults vars.now) text.now) }
{
    let Ok(records) = all_records(alloc, text) else {
        return Err(TextErr::Memory);
    };
    match values_of(alloc, vars, &records) {
        Ok(values) => Ok(values),
        Err(error) => Err(error),
    }
}
