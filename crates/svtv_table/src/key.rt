// The key of the maps of a table's names.
use name_index::NameDigest;
use table_cells::{Cell, Row};

// Goes on with the names in a row's cells.
fn take_cells(digest: &mut NameDigest, cells: &[Cell]) {
    'cells: for cell in cells {
        if let Cell::Named(name) = cell {
            digest.take(name.bytes());
        }
    }
}

/// A digest of the names in the cells of rows: each variable and sample that they name is in it.
pub fn key_of(rows: &[Row]) -> u128 {
    let mut digest = NameDigest::new();
    'rows: for row in rows {
        take_cells(&mut digest, row.cells.as_slice());
    }
    digest.key()
}
