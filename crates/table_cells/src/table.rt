// What a table says.
use items::Items;
use sv_literal::Literal;
use sv_outside::Name;

/// What a cell says of one signal in one phase.
pub enum Cell {
    /// Nothing of its own: a stimulus is that of the cell before, read once more, and free in the first phase; no signal is set.
    Empty,
    /// A constant, each bit 0 or 1.
    Literal(Literal),
    /// Z at every bit.
    Zed,
    /// The variable of that name, or the sample under it.
    Named(Name),
    /// The complement of the phase before.
    Flip,
    /// Any vector.
    Free,
}

impl Drop for Cell {
    fn drop(self) {
        match self {
            Cell::Empty => {}
            Cell::Literal(_) => {}
            Cell::Zed => {}
            Cell::Named(_) => {}
            Cell::Flip => {}
            Cell::Free => {}
        }
    }
}

/// What the cells of a row are.
#[derive(Clone, Copy)]
pub enum RowKind {
    /// Stimuli of an input.
    In,
    /// What a signal is set to, whatever drives it, in the phases whose cells are not empty.
    Over,
    /// Samples of a signal.
    Out,
}

/// A row of a table: one cell for each phase, in order.
pub struct Row {
    pub kind: RowKind,
    /// The path of the signal as written: any bytes.
    pub path: Name,
    pub cells: Items<Cell>,
}

impl Drop for Row {
    fn drop(self) {
        let Row {
            kind: _,
            path: _,
            cells: _,
        } = self;
    }
}

/// A table: its number of phases and its rows, in order.
pub struct Table {
    pub phases: usize,
    pub rows: Items<Row>,
}

impl Drop for Table {
    fn drop(self) {
        let Table { phases: _, rows: _ } = self;
    }
}
