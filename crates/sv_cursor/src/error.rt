// Why tokens are not read.
use std::alloc::AllocError;

/// Why tokens are not read. Places are told by the number of tokens from there to the end.
#[derive(Clone, Copy)]
pub enum ParseErr {
    /// Want of memory, which says nothing of the tokens.
    Memory,
    /// No rule reads what stands there: that many tokens are left.
    Syntax(usize),
    /// The first number tells the token that lies too deep, the second the token that showed it.
    TooDeep(usize, usize),
}

impl From<AllocError> for ParseErr {
    ghost use Rattle.std.specs.Prelude.{◌≡◌};
    ghost use Rattle.sv_cursor.specs.declared.error.ParseErr.TheVariants.{Memory};

    ghost from_gives = { λ _ e. e ≡ Memory };

    fn from(_: AllocError) -> ParseErr {
        ParseErr::Memory
    }
}
