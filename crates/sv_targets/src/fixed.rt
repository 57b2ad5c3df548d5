// Targets whose indices are constant and known (IEEE 1800-2017, 11.5.1).
ghost use Rattle.std.specs.Prelude.{◌≡◌, All, is_some};
ghost use Rattle.sv_typed.specs.Typed.{PickIsSound};
ghost use Rattle.sv_typing.specs.Picks as p;
ghost use Rattle.sv_targets.specs.Targets.{TargetIsSound};
ghost use Rattle.sv_targets.specs.Slots.{all_fixed};

use crate::places::{Spotted, spot_of};
use crate::targets::TypedTarget;
use sv_typed::Pick;

// Whether the index of a pick is constant and known.
fn is_known(pick: &Pick) -> bool
    requires { PickIsSound pick.now }
    ensures { result ≡ is_some (p.fixed_pick pick.now) }
{
    match spot_of(pick) {
        Spotted::Moving => false,
        Spotted::At(_) => true,
        Spotted::Far => true,
    }
}

// Whether all indices of a target are.
fn is_fixed(target: &TypedTarget) -> bool
    requires { TargetIsSound target.now }
    ensures { result ≡ p.are_fixed target.now.picks }
{
    'picks: for pick in target.picks.as_slice() {
        if !is_known(pick) {
            return false;
        }
    }
    true
}

/// Whether all indices of targets are constant and known.
pub(crate) fn are_fixed(targets: &[TypedTarget]) -> bool
    requires { All TargetIsSound targets.now }
    ensures { result ≡ all_fixed targets.now }
{
    'targets: for target in targets {
        if !is_fixed(target) {
            return false;
        }
    }
    true
}
