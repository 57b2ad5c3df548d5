//! Which way ranges of elements go.
ghost use Rattle.std.specs.Prelude.{◌≡◌};
ghost use Rattle.sv_meaning.specs.Layouts.{goes_down};

/// Whether a range of these bounds goes down. Only where the left bound is below the right one it ascends
/// (IEEE 1800-2017, 7.4).
pub fn goes_down(left: i64, right: i64) -> bool
    ensures { result ≡ goes_down left right }
{
    right <= left
}
