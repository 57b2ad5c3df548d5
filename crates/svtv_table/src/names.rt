// The wires of a design and the variables of a table, by name. Both are found in maps whose key is a digest of the names, so that binding
// takes linear time whatever they are. Of wires with one path the first counts. A variable stands where an `in` or `over` row names it first and gets the
// width of that row's wire; whether other rows fit is judged when they are bound. Variables borrow their names from the rows; these
// are copied once, into the list of the bound table.
ghost use Rattle.std.specs.Prelude.{◌≡◌, ◌≤◌, ◌<◌, [], map, length, All, IfOk, IfSome, OnOk};
ghost use Rattle.svtv_table.specs.Binding.{HasWidth, declared_in, variables_of};
ghost use Rattle.svtv_table.specs.Indexing.{Indexes, listed, wide, with_var, with_vars};
ghost use Rattle.svtv_table.specs.Names as spec;
ghost use Rattle.svtv_table.specs.Names.{name_in, name_of, names_in, path_of};

use crate::bound::VarDecl;
use crate::variables::{Variable, Variables};
use items::Items;
use name_index::{NameDigest, NameIndex, NameMap};
use std::alloc::{AllocError, Global};
use sv_outside::{Name, Signal};
use table_cells::{Cell, Row, RowKind};

/// The wires of a design, of which the first with a path counts.
#[derive(Drop)]
pub struct Wires<'a> {
    pub list: &'a [Signal],
    pub index: NameIndex,
    ghost indexed: { Indexes index (map path_of list.now) },
}

/// The signal of a row: the number of its wire, the wire's width, and the row's number from 1.
#[derive(Clone, Copy)]
pub struct Target {
    pub wire: usize,
    pub width: u8,
    pub line: usize,
    ghost some: { 0 < width },
    ghost most: { width ≤ 128 },
}

// A digest of the paths of wires.
fn paths_key(wires: &[Signal]) -> u128 {
    let mut digest = NameDigest::new();
    'wires: for wire in wires {
        digest.take(wire.path.bytes());
    }
    digest.key()
}

// A digest of the names of variables.
fn names_key(vars: &[VarDecl]) -> u128 {
    let mut digest = NameDigest::new();
    'vars: for var in vars {
        digest.take(var.name.bytes());
    }
    digest.key()
}

fn by_path(alloc: Global, wires: &[Signal]) -> Result<NameIndex, AllocError>
    ensures { IfOk result (λ index. Indexes index (map path_of wires.now)) }
{
    let mut index = NameIndex::new(alloc, paths_key(wires));
    for (at, wire) in wires.iter().enumerate() {
        index.note(wire.path.bytes(), at)?;
    }
    Ok(index)
}

/// The numbers of variables by their names.
pub fn by_name(alloc: Global, vars: &[VarDecl]) -> Result<NameIndex, AllocError>
    ensures { IfOk result (λ index. Indexes index (map name_of vars.now)) }
{
    let mut index = NameIndex::new(alloc, names_key(vars));
    for (at, var) in vars.iter().enumerate() {
        index.note(var.name.bytes(), at)?;
    }
    Ok(index)
}

/// The number of a variable, by an index of the names.
pub fn number_in(vars: &[VarDecl], index: &NameIndex, name: &[u8]) -> Option<usize>
    requires { Indexes index.now (map name_of vars.now) }
    ensures is { result ≡ spec.number_of vars.now name.now }
    ensures within { IfSome result (λ number. number < length vars.now) }
{
    index.number(name)
}

/// The wires by their paths.
pub fn wires_of(alloc: Global, list: &[Signal]) -> Result<Wires<'_>, AllocError>
    ensures { IfOk result (λ wires. wires.list.now ≡ list.now) }
{
    let index = by_path(alloc, list)?;
    Ok(Wires { list, index })
}

/// The number of the first wire with a path.
#[tactic(auto, using(name_index::proofs::Indexes::place_within))]
pub fn wire_of(wires: &Wires, path: &Name) -> Option<usize>
    ensures is { result ≡ spec.wire_of wires.now.list.now path.now }
    ensures within { IfSome result (λ number. number < length wires.now.list.now) }
{
    wires.index.number(path.bytes())
}

// The width of that wire, and 1 of none.
fn width_of(wires: &Wires, path: &Name) -> u8
    requires { All (λ wire. HasWidth wire.width) wires.now.list.now }
    ensures is { result ≡ spec.width_of wires.now.list.now path.now }
    ensures has_width { HasWidth result }
{
    match wire_of(wires, path) {
        Some(number) => wires.list[number].width,
        None => 1,
    }
}

/// No variables. The key is a digest of the table.
pub fn no_variables<'a>(alloc: Global, key: u128) -> Variables<'a>
    ensures { listed result ≡ [] }
{
    Variables {
        list: Vec::new(alloc),
        numbers: NameMap::new(alloc, key),
    }
}

/// The number of a variable.
pub fn number_of(variables: &Variables<'_>, name: &Name) -> Option<usize>
    ensures is { result ≡ spec.number_of (listed variables.now) name.now }
    ensures within { IfSome result (λ number. number < length (listed variables.now)) }
{
    variables.numbers.get(name.bytes())
}

/// The width of a variable.
pub fn width_under(variables: &Variables<'_>, name: &Name) -> Option<u8>
    ensures { result ≡ spec.width_under (listed variables.now) name.now }
{
    match number_of(variables, name) {
        Some(number) => Some(variables.list[number].width),
        None => None,
    }
}

// Puts in a variable behind the others, unless its name is there. Room is made first, so that each name in the map has its place in
// the list also where memory is out.
fn add<'a>(variables: &mut Variables<'a>, name: &'a Name, width: u8) -> Result<(), AllocError>
    ensures { OnOk result (listed variables.new ≡ with_var (listed variables.old) (record { name = name.now; width = width })) }
{
    if number_of(variables, name).is_some() {
        return Ok(());
    }
    let name = name.bytes();
    variables.list.reserve(1)?;
    variables.numbers.put(name, variables.list.len())?;
    variables.list.push_reserved(Variable { name, width });
    Ok(())
}

fn add_cell<'a>(variables: &mut Variables<'a>, cell: &'a Cell, width: u8) -> Result<(), AllocError>
    ensures { OnOk result (listed variables.new ≡ with_vars (listed variables.old) (wide width (name_in cell.now))) }
{
    match cell {
        Cell::Named(name) => add(variables, name, width),
        _ => Ok(()),
    }
}

fn add_cells<'a>(
    variables: &mut Variables<'a>,
    cells: &'a [Cell],
    width: u8,
) -> Result<(), AllocError>
    ensures { OnOk result (listed variables.new ≡ with_vars (listed variables.old) (wide width (names_in cells.now))) }
{
    for cell in cells {
        add_cell(variables, cell, width)?;
    }
    Ok(())
}

fn add_row<'a>(variables: &mut Variables<'a>, wires: &Wires, row: &'a Row) -> Result<(), AllocError>
    requires { All (λ wire. HasWidth wire.width) wires.now.list.now }
    ensures { OnOk result (listed variables.new ≡ with_vars (listed variables.old) (declared_in wires.now.list.now row.now)) }
{
    match row.kind {
        RowKind::In | RowKind::Over => {
            let width = width_of(wires, &row.path);
            add_cells(variables, row.cells.as_slice(), width)
        }
        RowKind::Out => Ok(()),
    }
}

/// Puts in the variables of a table's rows, in the order in which they appear. There was none before.
pub fn add_rows<'a>(
    variables: &mut Variables<'a>,
    wires: &Wires,
    rows: &'a [Row],
) -> Result<(), AllocError>
    requires none { listed variables.old ≡ [] }
    requires widths { All (λ wire. HasWidth wire.width) wires.now.list.now }
    ensures { OnOk result (listed variables.new ≡ variables_of wires.now.list.now rows.now) }
{
    for row in rows {
        add_row(variables, wires, row)?;
    }
    Ok(())
}

/// The variables as a list, which holds its names.
#[tactic(auto, unfolding(crate::specs::Indexing::listed))]
pub fn declarations(alloc: Global, variables: &Variables<'_>) -> Result<Items<VarDecl>, AllocError>
    ensures { IfOk result (λ vars. vars ≡ listed variables.now) }
{
    let mut vars = Items::new(alloc);
    for variable in &variables.list {
        let name = Name::new(alloc, variable.name)?;
        vars.push(VarDecl {
            name,
            width: variable.width,
        })?;
    }
    Ok(vars)
}
