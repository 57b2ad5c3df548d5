// Selects behind a name.
ghost use Rattle.std.specs.Prelude.{◌≡◌};
ghost use Rattle.sv_meaning.specs.Layouts.{width, is_signed};
ghost use Rattle.sv_names.specs.Cursors.{cursor_is, CursorIsSound};

use crate::position::Position;
use items::Items;
use sv_names::Cursor;
use sv_typed::Pick;

/// How the index of a select is judged.
#[derive(Clone, Copy)]
pub enum IndexRule {
    /// As the expression that stands so and has it.
    Read(Position),
    /// It is a constant expression, and wholly 0 and 1: an index of a continuous assignment's target.
    Fixed,
    /// It is constant among all names of its place, and wholly 0 and 1: an index of an input's actual that is joined.
    Joined,
}

/// The selects behind a name as parts of its bits, and the length (1 to 128) and sign of the last part.
#[derive(Drop)]
pub struct Chain {
    pub picks: Items<Pick>,
    pub width: u8,
    pub signed: bool,
}

// The picks of a chain that ends in a layout.
pub(crate) fn chain_of(picks: Items<Pick>, end: Cursor<'_>) -> Chain
    requires { CursorIsSound end }
    ensures picks { result.picks ≡ picks }
    ensures width { result.width ≡ width (cursor_is end.entry) }
    ensures signed { result.signed ≡ is_signed (cursor_is end.entry) }
{
    Chain {
        picks,
        width: end.width(),
        signed: end.is_signed(),
    }
}
