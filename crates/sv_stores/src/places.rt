// The places of the wires that a block writes.
ghost use Rattle.std.specs.Prelude.{◌≡◌, true, Some, is_some};
ghost use Rattle.sv_stores.specs.Scenes.{place_in};

use crate::Scene;

/// The place of a wire, where the block writes it.
pub fn place_in(scene: &Scene, wire: usize) -> Option<usize>
    ensures { result ≡ place_in scene.now wire }
{
    scene.places.get(wire)
}

/// The place of a wire that the block writes.
pub fn place_of(scene: &Scene, wire: usize) -> usize
    requires { is_some (place_in scene.now wire) ≡ true }
    ensures { place_in scene.now wire ≡ Some result }
{
    place_in(scene, wire).unwrap()
}
