// What the groups of a flat design's nets are.
ghost use Rattle.std.specs.Prelude.{ℕ, List, length, None, Some};
ghost use Rattle.flat_net.specs.declared.flat.Flat.{Flat};
ghost use Rattle.phase_fsm.specs.Sets.{HasGroups, AreNarrow, IsFirstWide};

/// Whether a flat design has a wide group, where some wires are overridden, is the same in every order of its nets: so a design that is
/// narrow is not refused.
pub fn groups_exclude()
    ensures one { (flat : Flat) (over : List ℕ) (bits : ℕ) → HasGroups flat over None → HasGroups flat over (Some bits) → ⊥ }
    ensures first { (flat : Flat) (sets : List (List ℕ)) (bits : ℕ) → AreNarrow flat sets (length sets) → IsFirstWide flat sets bits → ⊥ }
{}
