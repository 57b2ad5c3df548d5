// Why no tokens come.
ghost use Rattle.sv_preproc.specs.declared.error.PreErr.TheVariants.{Memory};
ghost use Rattle.sv_preproc.specs.declared.error.ItemErr.TheVariants.{OutOfMemory};
ghost use Rattle.std.specs.Prelude.{◌≡◌};

use std::alloc::{AllocError, AllocFailed};
use sv_outside::{Name, Place, Refusal};
use thiserror::Error;

/// Why a text has no tokens. A place is one of the file with the name.
#[derive(Debug, Drop, Error)]
pub enum PreErr {
    /// The text breaks a rule.
    #[error("the text is refused: {0:?}")]
    No(Refusal, Name),
    /// The file that the directive at the place asks for could not be read, which the files count.
    #[error("a file could not be read")]
    Read(Place, Name),
    /// Want of memory, which says nothing of the text.
    #[error("out of memory")]
    Memory,
}

impl From<AllocError> for PreErr {
    ghost from_gives = { λ _ e. e ≡ Memory };

    fn from(_: AllocError) -> Self {
        PreErr::Memory
    }
}

impl<T: Drop> From<AllocFailed<T>> for PreErr {
    ghost from_gives = { λ _ e. e ≡ Memory };

    fn from(_: AllocFailed<T>) -> Self {
        PreErr::Memory
    }
}

/// Why an item is not read: the number of the refusal, or want of memory.
#[derive(Clone, Copy)]
pub enum ItemErr {
    Refused(u8),
    OutOfMemory,
}

impl From<AllocError> for ItemErr {
    ghost from_gives = { λ _ e. e ≡ OutOfMemory };

    fn from(_: AllocError) -> Self {
        ItemErr::OutOfMemory
    }
}

impl<T: Drop> From<AllocFailed<T>> for ItemErr {
    ghost from_gives = { λ _ e. e ≡ OutOfMemory };

    fn from(_: AllocFailed<T>) -> Self {
        ItemErr::OutOfMemory
    }
}
