// Binds a table to the wires of a design. Variables are gathered from all rows first, since a sample may not bear the name of a
// variable of a later row either; then rows are bound in their order, so that the first fault is told. Which wires have an `in`
// row, and which an `over` row, is kept as a truth for each wire, so that a second row is seen in one step.
ghost use Rattle.std.specs.Prelude.{◌≡◌, ◌<◌, ◌+◌, ◌^◌, ◌∷◌, [], ◌++◌, List, All, Some, map, length, slice_set, slice_index_or, true, false, IfOk, OnOk, IfErr};
ghost use Rattle.std.specs.List.{IsDistinct};
ghost use Rattle.std.specs.Str.{bytes_eq};
ghost use Rattle.svtv_table.specs.Binding as spec;
ghost use Rattle.svtv_table.specs.Binding.{phase_over};
ghost use Rattle.svtv_table.specs.Drives.{phase_drive};
ghost use Rattle.svtv_table.specs.Faults.{Stops, at_each};
ghost use Rattle.svtv_table.specs.Following.{Follows, Gathers};
ghost use Rattle.svtv_table.specs.Indexing.{listed};
ghost use Rattle.svtv_table.specs.Names as names;
ghost use Rattle.svtv_table.specs.Reading.{IsWellFormed};
ghost use Rattle.svtv_table.specs.Stimuli.{Means, Sets};
ghost use Rattle.svtv_table.specs.declared.bound.VarDecl.{VarDecl};

use crate::bound::{Bound, Drive, VarDecl};
use crate::drives::drives_of;
use crate::faults::refused;
use crate::key::key_of;
use crate::names::{Target, Wires, add_rows, declarations, no_variables, wire_of, wires_of};
use crate::overs::overs_of;
use crate::samples::{Samples, sample_cells};
use crate::variables::Variables;
use items::Items;
use name_index::NameIndex;
use std::alloc::{AllocError, Global};
use sv_outside::{Signal, TextErr, refusals};
use table_cells::{Row, RowKind, Table};

/// Rows of one kind, each with the number of its wire, and a mark for each wire that has one.
pub struct Marked<T> {
    pub rows: Items<(usize, Items<T>)>,
    pub marks: Vec<bool>,
}

impl<T: Drop> Drop for Marked<T> {
    fn drop(self) {
        let Marked { rows: _, marks: _ } = self;
    }
}

impl<T: Drop> Marked<T> {
    // Puts in the row of a wire, and marks the wire.
    fn put(&mut self, wire: usize, row: Items<T>) -> Result<(), AllocError>
        requires { wire < length self.old.marks.items }
        ensures rows { OnOk result (self.new.rows ≡ self.old.rows ++ (wire, row) ∷ []) }
        ensures marks { OnOk result (self.new.marks.items ≡ slice_set self.old.marks.items wire true) }
    {
        self.marks[wire] = true;
        self.rows.push((wire, row))
    }

    fn into_rows(self) -> Items<(usize, Items<T>)>
        ensures { result ≡ self.rows }
    {
        let Marked { rows, marks: _ } = self;
        rows
    }
}

/// What rows drive, override and sample.
pub struct Work {
    pub drives: Marked<Drive>,
    pub overs: Marked<Option<Drive>>,
    pub samples: Samples,
}

impl Drop for Work {
    fn drop(self) {
        let Work {
            drives: _,
            overs: _,
            samples: _,
        } = self;
    }
}

impl Work {
    fn finished(self, phases: usize, declared: Items<VarDecl>) -> Bound
        ensures { result ≡ record { phases = phases; vars = declared; drives = self.drives.rows; overs = self.overs.rows; samples = self.samples.list } }
    {
        let Work {
            drives,
            overs,
            samples,
        } = self;
        Bound {
            phases,
            vars: declared,
            drives: drives.into_rows(),
            overs: overs.into_rows(),
            samples: samples.list,
        }
    }
}

// The number of a row's wire: an `in` row names an input.
#[tactic(auto, unfolding(crate::specs::Binding::wire_faults, crate::specs::Faults::Stops))]
fn number_of_wire(wires: &Wires, row: &Row, line: usize) -> Result<usize, TextErr>
    ensures number { IfOk result (λ number. names.wire_of wires.now.list.now row.now.path ≡ Some number) }
    ensures within { IfOk result (λ number. number < length wires.now.list.now) }
    ensures fine { OnOk result (spec.wire_faults wires.now.list.now line row.now ≡ []) }
    ensures err { IfErr result (Stops (spec.wire_faults wires.now.list.now line row.now)) }
{
    let Some(number) = wire_of(wires, &row.path) else {
        return Err(refused(refusals::SIGNAL_UNKNOWN, line, 2));
    };
    match row.kind {
        RowKind::In if !wires.list[number].input => Err(refused(refusals::SIGNAL_UNKNOWN, line, 2)),
        _ => Ok(number),
    }
}

fn target_of(wires: &Wires, row: &Row, line: usize) -> Result<Target, TextErr>
    requires { All (λ wire. spec.HasWidth wire.width) wires.now.list.now }
    ensures wire { IfOk result (λ target. names.wire_of wires.now.list.now row.now.path ≡ Some target.wire) }
    ensures within { IfOk result (λ target. target.wire < length wires.now.list.now) }
    ensures width { IfOk result (λ target. target.width ≡ names.width_of wires.now.list.now row.now.path) }
    ensures line { IfOk result (λ target. target.line ≡ line) }
    ensures fine { OnOk result (spec.wire_faults wires.now.list.now line row.now ≡ []) }
    ensures err { IfErr result (Stops (spec.wire_faults wires.now.list.now line row.now)) }
{
    let wire = number_of_wire(wires, row, line)?;
    Ok(Target {
        wire,
        width: wires.list[wire].width,
        line,
    })
}

#[tactic(auto, unfolding(crate::specs::Binding::in_faults, crate::specs::Faults::Stops))]
fn bind_in(
    alloc: Global,
    variables: &Variables<'_>,
    target: &Target,
    row: &Row,
    drives: &mut Marked<Drive>,
) -> Result<(), TextErr>
    requires { target.now.wire < length drives.old.marks.items }
    ensures rows { OnOk result (drives.new.rows ≡ drives.old.rows ++ (target.now.wire, at_each (phase_drive target.now.width (listed variables.now) row.now.cells) 0 row.now.cells) ∷ []) }
    ensures marks { OnOk result (drives.new.marks.items ≡ slice_set drives.old.marks.items target.now.wire true) }
    ensures fine { OnOk result (spec.in_faults (slice_index_or drives.old.marks.items target.now.wire false) target.now.width (listed variables.now) target.now.line row.now.cells ≡ []) }
    ensures err { IfErr result (Stops (spec.in_faults (slice_index_or drives.old.marks.items target.now.wire false) target.now.width (listed variables.now) target.now.line row.now.cells)) }
{
    if drives.marks[target.wire] {
        return Err(refused(refusals::SIGNAL_TWICE, target.line, 2));
    }
    let driven = drives_of(alloc, variables, target, row.cells.as_slice())?;
    drives.put(target.wire, driven)?;
    Ok(())
}

#[tactic(auto, unfolding(crate::specs::Binding::set_faults, crate::specs::Faults::Stops))]
fn bind_over(
    alloc: Global,
    variables: &Variables<'_>,
    target: &Target,
    row: &Row,
    overs: &mut Marked<Option<Drive>>,
) -> Result<(), TextErr>
    requires { target.now.wire < length overs.old.marks.items }
    ensures rows { OnOk result (overs.new.rows ≡ overs.old.rows ++ (target.now.wire, at_each (phase_over target.now.width (listed variables.now)) 0 row.now.cells) ∷ []) }
    ensures marks { OnOk result (overs.new.marks.items ≡ slice_set overs.old.marks.items target.now.wire true) }
    ensures fine { OnOk result (spec.set_faults (slice_index_or overs.old.marks.items target.now.wire false) target.now.width (listed variables.now) target.now.line row.now.cells ≡ []) }
    ensures err { IfErr result (Stops (spec.set_faults (slice_index_or overs.old.marks.items target.now.wire false) target.now.width (listed variables.now) target.now.line row.now.cells)) }
{
    if overs.marks[target.wire] {
        return Err(refused(refusals::SIGNAL_TWICE, target.line, 2));
    }
    let set = overs_of(alloc, variables, target, row.cells.as_slice())?;
    overs.put(target.wire, set)?;
    Ok(())
}

// Binds a row behind those before it.
#[tactic(auto, unfolding(crate::specs::Binding::faults_after))]
fn bind_row(
    alloc: Global,
    wires: &Wires,
    variables: &Variables<'_>,
    before: &[Row],
    row: &Row,
    work: &mut Work,
) -> Result<(), TextErr>
    requires widths { All (λ wire. spec.HasWidth wire.width) wires.now.list.now }
    requires room { length before.now + 1 < 2 ^ 64 }
    requires follows { Follows wires.now.list.now (listed variables.now) before.now work.old }
    ensures follows { OnOk result (Follows wires.now.list.now (listed variables.now) (before.now ++ row.now ∷ []) work.new) }
    ensures fine { OnOk result (spec.faults_after wires.now.list.now (listed variables.now) before.now (length before.now + 1) row.now ≡ []) }
    ensures err { IfErr result (Stops (spec.faults_after wires.now.list.now (listed variables.now) before.now (length before.now + 1) row.now)) }
{
    let target = target_of(wires, row, before.len() + 1)?;
    match row.kind {
        RowKind::In => bind_in(alloc, variables, &target, row, &mut work.drives),
        RowKind::Over => bind_over(alloc, variables, &target, row, &mut work.overs),
        RowKind::Out => sample_cells(&mut work.samples, variables, &target, row.cells.as_slice()),
    }
}

// No rows of a kind, and no wire marked.
fn no_rows<T: Drop>(alloc: Global, wires: &Wires) -> Result<Marked<T>, AllocError>
    ensures { IfOk result (Gathers wires.now.list.now [] (λ path. false)) }
{
    let marks = vec![in alloc; false; wires.list.len()]?;
    Ok(Marked {
        rows: Items::new(alloc),
        marks,
    })
}

// The work before any row. The key is a digest of the table.
fn no_work(alloc: Global, key: u128, wires: &Wires) -> Result<Work, AllocError>
    ensures { IfOk result (λ work. (vars : List VarDecl) → Follows wires.now.list.now vars [] work) }
{
    let drives = no_rows(alloc, wires)?;
    let overs = no_rows(alloc, wires)?;
    Ok(Work {
        drives,
        overs,
        samples: Samples {
            list: Items::new(alloc),
            taken: NameIndex::new(alloc, key),
        },
    })
}

#[tactic(auto, unfolding(crate::specs::Faults::Stops))]
fn bind_rows(
    alloc: Global,
    wires: &Wires,
    variables: &Variables<'_>,
    rows: &[Row],
) -> Result<Work, TextErr>
    requires { All (λ wire. spec.HasWidth wire.width) wires.now.list.now }
    ensures follows { IfOk result (Follows wires.now.list.now (listed variables.now) rows.now) }
    ensures fine { OnOk result (at_each (spec.row_faults wires.now.list.now (listed variables.now) rows.now) 0 rows.now ≡ []) }
    ensures err { IfErr result (Stops (at_each (spec.row_faults wires.now.list.now (listed variables.now) rows.now) 0 rows.now)) }
{
    let mut work = no_work(alloc, key_of(rows), wires)?;
    for (at, row) in rows.iter().enumerate() {
        bind_row(alloc, wires, variables, &rows[..at], row, &mut work)?;
    }
    Ok(work)
}

// Binds a table whose variables are known.
#[tactic(auto, unfolding(crate::specs::Faults::Stops))]
fn bind_under(
    alloc: Global,
    table: &Table,
    wires: &Wires,
    variables: &Variables<'_>,
) -> Result<Bound, TextErr>
    requires widths { All (λ wire. spec.HasWidth wire.width) wires.now.list.now }
    requires declared { listed variables.now ≡ spec.variables_of wires.now.list.now table.now.rows }
    ensures bound { IfOk result (λ bound. bound ≡ spec.bound_of wires.now.list.now table.now) }
    ensures fine { OnOk result (spec.bind_faults wires.now.list.now table.now ≡ []) }
    ensures err { IfErr result (Stops (spec.bind_faults wires.now.list.now table.now)) }
{
    let rows = table.rows.as_slice();
    let vars = declarations(alloc, variables)?;
    let work = bind_rows(alloc, wires, variables, rows)?;
    Ok(work.finished(table.phases, vars))
}

// Binds a table whose variables are to be put in: there is none yet.
#[tactic(auto, unfolding(crate::specs::Faults::Stops))]
fn bind_with<'a>(
    alloc: Global,
    table: &'a Table,
    wires: &Wires,
    variables: &mut Variables<'a>,
) -> Result<Bound, TextErr>
    requires none { listed variables.old ≡ [] }
    requires widths { All (λ wire. spec.HasWidth wire.width) wires.now.list.now }
    ensures bound { IfOk result (λ bound. bound ≡ spec.bound_of wires.now.list.now table.now) }
    ensures fine { OnOk result (spec.bind_faults wires.now.list.now table.now ≡ []) }
    ensures err { IfErr result (Stops (spec.bind_faults wires.now.list.now table.now)) }
{
    add_rows(variables, wires, table.rows.as_slice())?;
    bind_under(alloc, table, wires, variables)
}

// Binds a table to wires that are found by name.
#[tactic(auto, unfolding(crate::specs::Faults::Stops))]
fn bind_wires(alloc: Global, table: &Table, wires: &Wires) -> Result<Bound, TextErr>
    requires { All (λ wire. spec.HasWidth wire.width) wires.now.list.now }
    ensures bound { IfOk result (λ bound. bound ≡ spec.bound_of wires.now.list.now table.now) }
    ensures fine { OnOk result (spec.bind_faults wires.now.list.now table.now ≡ []) }
    ensures err { IfErr result (Stops (spec.bind_faults wires.now.list.now table.now)) }
{
    let mut variables = no_variables(alloc, key_of(table.rows.as_slice()));
    bind_with(alloc, table, wires, &mut variables)
}

#[tactic(auto, unfolding(crate::specs::Faults::Stops))]
fn bind_table(alloc: Global, table: &Table, wires: &[Signal]) -> Result<Bound, TextErr>
    requires { All (λ wire. spec.HasWidth wire.width) wires.now }
    ensures bound { IfOk result (λ bound. bound ≡ spec.bound_of wires.now table.now) }
    ensures fine { OnOk result (spec.bind_faults wires.now table.now ≡ []) }
    ensures err { IfErr result (Stops (spec.bind_faults wires.now table.now)) }
{
    let wires = wires_of(alloc, wires)?;
    bind_wires(alloc, table, &wires)
}

/// What a table drives, overrides and samples in a design. E29 is a path that no wire has, or an `in` row of what is no input;
/// E30 a second `in` row of a path, or a second `over` row; E28 a literal that does not fit, `~` in an `in` row where the phase
/// before has no complement, or any `~` in an `over` row; E31 a variable on signals of two widths, driven or overridden; E32 a
/// sample under a name that another one or a variable has. Of wires with one path the first counts. The first fault in the order
/// of the rows is told, at its record and field.
pub fn bind(alloc: Global, table: &Table, wires: &[Signal]) -> Result<Bound, TextErr>
    requires formed { IsWellFormed table.now }
    requires widths { All (λ wire. spec.HasWidth wire.width) wires.now }
    ensures bound { IfOk result (λ bound. bound ≡ spec.bound_of wires.now table.now) }
    ensures fine { OnOk result (spec.bind_faults wires.now table.now ≡ []) }
    ensures err { IfErr result (Stops (spec.bind_faults wires.now table.now)) }
    ensures means { IfOk result (Means wires.now table.now.rows) }
    ensures sets { IfOk result (Sets wires.now table.now.rows) }
    ensures is_bound { IfOk result (spec.IsBound wires.now) }
    ensures distinct { IfOk result (λ bound. IsDistinct bytes_eq (map names.name_of bound.vars)) }
    ensures var_widths { IfOk result (λ bound. All (λ var. spec.HasWidth var.width) bound.vars) }
{
    bind_table(alloc, table, wires)
}
