//! What a value change dump tells.

use crate::changes::Changes;
use items::Items;
use sv_outside::{Name, Place};

/// What a signal holds.
#[derive(Clone, Copy)]
pub enum VarKind {
    /// Bits: its changes are those under its code.
    Bits,
    /// A real number, as a signal of kind `real`: it has no changes, since those of real numbers do not count.
    Number,
}

/// A signal that is declared: its path, what it holds, its width, its code, and the place of its own name in the text.
pub struct VcdVar {
    pub path: Name,
    pub kind: VarKind,
    pub width: usize,
    pub code: Name,
    pub place: Place,
}

impl Drop for VcdVar {
    fn drop(self) {
        let VcdVar {
            path: _,
            kind: _,
            width: _,
            code: _,
            place: _,
        } = self;
    }
}

/// The signals and the changes of a dump, in order. The changes stay in the text.
pub struct Waves<'a> {
    pub vars: Items<VcdVar>,
    pub changes: Changes<'a>,
}

impl<'a> Drop for Waves<'a> {
    fn drop(self) {
        let Waves {
            vars: _,
            changes: _,
        } = self;
    }
}
