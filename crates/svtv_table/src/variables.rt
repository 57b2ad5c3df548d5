// The variables of a table while it is bound: in the order in which they appear, with their places by name.
ghost use Rattle.svtv_table.specs.Holding.{AreNumbered};

use name_index::NameMap;

/// A variable, whose name a row of the table holds.
#[derive(Clone, Copy)]
pub struct Variable<'a> {
    pub name: &'a [u8],
    /// In bits, 1 to 128.
    pub width: u8,
}

/// Variables in the order in which they appear, no two of one name, and the place of each by its name.
pub struct Variables<'a> {
    pub list: Vec<Variable<'a>>,
    pub numbers: NameMap,
    ghost numbered: { AreNumbered numbers list.items },
}

impl Drop for Variables<'_> {
    fn drop(self) {
        let Variables {
            list: _,
            numbers: _,
        } = self;
    }
}
