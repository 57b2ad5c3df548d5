// The constants of cells, in the width of a signal.
ghost use Rattle.std.specs.Prelude.{◌≡◌, ◌≤◌, ◌<◌};
ghost use Rattle.fourvec.specs.Bits.{all_zero};
ghost use Rattle.table_cells.specs.Constants as spec;

use fourvec::Four;
use sv_literal::Literal;

#[tactic(auto, using(sv_literal::proofs::Vectors::is_zero_on_planes))]
fn is_zero(value: &Four) -> bool
    ensures { result ≡ all_zero value.now }
{
    value.up() == 0 && value.low() == 0
}

/// Whether the bits of a literal past a width are 0. A fill has as many bits as are wanted.
#[tactic(auto, using(crate::proofs::Constants::fits_short, crate::proofs::Constants::fits_long), unfolding(crate::specs::Constants::fits))]
pub fn fits(literal: &Literal, width: u8) -> bool
    requires some { 0 < width }
    requires most { width ≤ 128 }
    ensures { result ≡ spec.fits literal.now width }
{
    let own = literal.value.width();
    literal.fill || own <= width || is_zero(&literal.value.slice(width, own - width))
}

/// The vector of a width: a fill repeats its bit, and any other literal is cut or extended with 0.
#[tactic(auto, using(crate::proofs::Constants::filled, crate::proofs::Constants::extended, crate::proofs::Constants::cut), unfolding(crate::specs::Constants::constant))]
pub fn constant(literal: &Literal, width: u8) -> Four
    requires some { 0 < width }
    requires most { width ≤ 128 }
    ensures { result ≡ spec.constant literal.now width }
{
    let value = literal.value;
    let own = value.width();
    if literal.fill {
        value.slice(0, 1).sext(width)
    } else if own < width {
        value.zext(width)
    } else {
        value.slice(0, width)
    }
}
