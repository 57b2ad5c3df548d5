//! Rows of clauses by numbers, one behind the other in one vector, made as in counting sort: each entry is counted first, and then
//! put.

use sat_arena::words::{NONE, at, filled, put};
use std::alloc::Global;

/// The entries, and where those of each row begin.
pub struct Table {
    entries: Vec<u32>,
    starts: Vec<u32>,
}

impl Drop for Table {
    fn drop(self) {
        let Table {
            entries: _,
            starts: _,
        } = self;
    }
}

// Puts the sum of the counts up to each in its place. Answers that of all.
fn add_up(counts: &mut Vec<u32>) -> u32 {
    let mut sum: u32 = 0;
    for row in 0..counts.len() {
        sum = sum.wrapping_add(at(counts, row));
        put(counts, row, sum);
    }
    sum
}

impl Table {
    /// So many rows without entries, or none, where it notes that there is no room.
    pub fn new(alloc: Global, rows: usize, is_short: &mut bool) -> Table {
        Table {
            entries: Vec::new(alloc),
            starts: filled(alloc, 0, rows.saturating_add(2), is_short),
        }
    }

    /// Counts an entry of a row, two places behind its own.
    pub fn count(&mut self, row: u32) {
        let place = (row as usize).saturating_add(2);
        let before = at(&self.starts, place);
        put(&mut self.starts, place, before.wrapping_add(1));
    }

    /// Makes beginnings of the counts, that of a row one place behind its own, and room for all entries, or notes that there is none.
    pub fn make_room(&mut self, alloc: Global, is_short: &mut bool) {
        let count = add_up(&mut self.starts);
        self.entries = filled(alloc, NONE, count as usize, is_short);
    }

    /// Puts an entry behind those of a row. When all are put, the beginnings stand at their own places.
    pub fn put(&mut self, row: u32, entry: u32) {
        let place = (row as usize).saturating_add(1);
        let next = at(&self.starts, place);
        put(&mut self.entries, next as usize, entry);
        put(&mut self.starts, place, next.wrapping_add(1));
    }

    /// The entries of a row.
    pub fn row(&self, row: u32) -> &[u32] {
        let from = at(&self.starts, row as usize) as usize;
        let to = at(&self.starts, (row as usize).saturating_add(1)) as usize;
        let entries = self.entries.as_slice();
        if from <= to && to <= entries.len() {
            &entries[from..to]
        } else {
            &[]
        }
    }
}
