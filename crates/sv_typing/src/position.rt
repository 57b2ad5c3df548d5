// Where an expression stands, and what is known of a constant position.
ghost use Rattle.std.specs.Prelude.{◌≡◌, IsTrue};
ghost use Rattle.fourvec.specs.Bits.{is_known};
ghost use Rattle.sv_typing.specs.Positions.{is_constant};

use sv_names::Known;

/// Where an expression stands.
#[derive(Clone, Copy)]
pub enum Position {
    /// It may name signals, and sees all names of its place.
    Free,
    /// It is a constant expression: it sees what is declared above its place.
    Constant,
    /// It has to be constant, and sees all names of its place: the index of an input's actual that is joined.
    Still,
}

impl Position {
    /// Whether an expression that stands so has to be constant.
    pub fn is_constant(self) -> bool
        ensures { result ≡ is_constant self }
    {
        match self {
            Position::Free => false,
            Position::Constant | Position::Still => true,
        }
    }
}

/// A constant that is wholly 0 and 1, and whether each of its names is a constant.
#[derive(Clone, Copy)]
pub struct Fixed {
    pub known: Known,
    pub constant: bool,
    ghost wholly: { IsTrue (is_known known.value) },
}

impl Fixed {
    pub(crate) fn new(known: Known, constant: bool) -> Fixed
        requires { IsTrue (is_known known.value) }
        ensures known { result.known ≡ known }
        ensures constant { result.constant ≡ constant }
    {
        Fixed { known, constant }
    }
}
