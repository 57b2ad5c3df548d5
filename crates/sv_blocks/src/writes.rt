// Values written into chains of selects (IEEE 1800-2017, 10.4, 11.5.1).
ghost use Rattle.std.specs.Prelude.{◌≡◌, ◌<◌, ◌≤◌, length, All, IfOk};
ghost use Rattle.svex_shape.specs.Shapes.{width_at};
ghost use Rattle.svex_arena.specs.Arenas.{Extends};
ghost use Rattle.sv_typed.specs.Typed.{picked_width, PickIsSound};
ghost use Rattle.sv_stores.specs.Scenes.{IsScene, IsState};
ghost use Rattle.sv_blocks.specs.Fitting.{PickSits};
ghost use Rattle.sv_blocks.specs.Parts.{IsWritten};

use crate::parts::{put_part, read_part, spot_of};
use std::alloc::{AllocError, Global};
use sv_stores::{Scene, State};
use sv_typed::Pick;
use svex_arena::{Arena, Node};

/// A node with a value in place of the part that a chain of selects names. An index reads the store as it is before.
pub fn written(
    alloc: Global,
    arena: &mut Arena,
    scene: &Scene,
    state: &State,
    picks: &[Pick],
    of: Node,
    value: Node,
) -> Result<Node, AllocError>
    requires scene { IsScene scene.now }
    requires state { IsState scene.now arena.old state.now }
    requires sound { All PickIsSound picks.now }
    requires narrow { All (PickSits scene.now) picks.now }
    requires of { of < length arena.old }
    requires value { value < length arena.old }
    requires wide { width_at arena.old value ≡ picked_width picks.now (width_at arena.old of) }
    ensures stays { Extends arena.old arena.new }
    ensures ok { IfOk result (λ n. IsWritten scene.now arena.old arena.new state.now.nodes picks.now of value n) }
{
    if picks.is_empty() {
        return Ok(value);
    }
    let pick = &picks[0];
    let at = spot_of(alloc, arena, scene, state, pick)?;
    if picks.len() == 1 {
        return put_part(alloc, arena, of, &at, value);
    }
    let part = read_part(alloc, arena, of, &at, pick.width)?;
    let inner = written(alloc, arena, scene, state, &picks[1..], part, value)?;
    put_part(alloc, arena, of, &at, inner)
}
