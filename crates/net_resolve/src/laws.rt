// What stays where the arena grows.
ghost use Rattle.std.specs.Prelude.{◌↔◌, ℕ, ◌<◌, List, length, All};
ghost use Rattle.lhs_alias.specs.Joined.{Kept};
ghost use Rattle.settling.specs.Settling.{Store, Link};
ghost use Rattle.svex_shape.specs.declared.shape.Shape.{Shape};
ghost use Rattle.svex_arena.specs.Arenas.{Extends};
ghost use Rattle.driver_resolve.specs.declared.driver.NetEq.{NetEq};
ghost use Rattle.driver_resolve.specs.declared.driver.Resolved.{Resolved};
ghost use Rattle.driver_resolve.specs.Drivers.{Phase};
ghost use Rattle.flat_net.specs.declared.flat.Flat.{Flat};
ghost use Rattle.flat_net.specs.Flats.{IsFlat, Settles};
ghost use Rattle.net_equations.specs.Equations.{Solves, IsResolved};
ghost use Rattle.net_resolve.specs.Resolving.{IsGrown};

/// A flat design whose arena has grown is well formed as before, and the same valuations settle it.
pub fn designs_stay()
    ensures sound { (old now : Flat) → IsGrown old now → IsFlat old → IsFlat now }
    ensures settles { (old now : Flat) → IsGrown old now → IsFlat old → (over : List ℕ) (stim previous present : Store)
        → Settles now over stim previous present ↔ Settles old over stim previous present }
{}

/// Equations stand for the same over an arena that has grown.
pub fn equations_stay()
    ensures resolved { (kept : Kept) (old new : List Shape) (set : Resolved) → Extends old new → IsResolved kept old set → IsResolved kept new set }
    ensures solves { (links : List Link) (old new : List Shape) (eqs : List NetEq) (p : Phase) → Extends old new
        → All (λ e. e.value < length old) eqs → Solves links new eqs p ↔ Solves links old eqs p }
{}
