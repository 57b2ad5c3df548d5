// Where a text is refused, and why.
ghost use Rattle.sv_outside.specs.declared.refusal.TextErr.TheVariants.{Memory};
ghost use Rattle.std.specs.Prelude.{◌≡◌};

use std::alloc::{AllocError, AllocFailed};
use thiserror::Error;

/// A place in a text: the number of its file from 0, and its line and column from 1, columns in bytes.
/// In a CSV file these are the numbers of the record and the field.
#[derive(Clone, Copy, Debug)]
pub struct Place {
    pub file: usize,
    pub line: usize,
    pub column: usize,
}

/// Where a text that is no included file begins, and what is said of a whole file.
pub const FILE_START: Place = Place {
    file: 0,
    line: 1,
    column: 1,
};

/// The number of the reason (`refusals`), the place, and a count, which is 0 but for E10 and E39.
#[derive(Clone, Copy, Debug)]
pub struct Refusal {
    pub number: u8,
    pub place: Place,
    pub count: u64,
}

/// Why a text is not taken.
#[derive(Clone, Copy, Debug, Error)]
pub enum TextErr {
    /// The text breaks a rule.
    #[error("the text is refused: {0:?}")]
    No(Refusal),
    /// Want of memory, which says nothing of the text.
    #[error("out of memory")]
    Memory,
}

impl From<AllocError> for TextErr {
    ghost from_gives = { λ _ e. e ≡ Memory };

    fn from(_: AllocError) -> Self {
        TextErr::Memory
    }
}

impl<T: Drop> From<AllocFailed<T>> for TextErr {
    ghost from_gives = { λ _ e. e ≡ Memory };

    fn from(_: AllocFailed<T>) -> Self {
        TextErr::Memory
    }
}
