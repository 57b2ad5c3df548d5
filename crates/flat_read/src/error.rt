//! Why no design is read.

ghost use Rattle.std.specs.Prelude.{◌≡◌};
ghost use Rattle.flat_read.specs.declared.error.FlatErr.TheVariants.{Memory};

use std::alloc::AllocError;
use thiserror::Error;

/// Why no design is read.
#[derive(Clone, Copy, Debug, Error)]
pub enum FlatErr {
    /// This line, counted from 1, is the first that is missing or breaks the form.
    #[error("line {0} is missing or breaks the form")]
    BadLine(usize),
    #[error("out of memory")]
    Memory,
}

impl From<AllocError> for FlatErr {
    ghost from_gives = { λ _ e. e ≡ Memory };

    fn from(_: AllocError) -> Self {
        FlatErr::Memory
    }
}
