//! Loops of a design: that a group of nets which is too wide for a machine is a loop of the design's own wires.
#![tactic(auto)]

ghost use Rattle.std.specs.Prelude.{ℕ, List};
ghost use Rattle.flat_net.specs.declared.flat.Flat.{Flat};
ghost use Rattle.phase_fsm.specs.Sets.{IsFirstWide};
ghost use Rattle.svex_arena.specs.Arenas.{IsArena};
ghost use Rattle.sv_elab.specs.Elaborated.{IsElaborated};
ghost use Rattle.sv_meaning.specs.Designs.{Design};
ghost use Rattle.design_loops.specs.Loops.{HasWideLoop};

/// Where a group of the nets of a flat design has over 1,024 bits, whichever wires are overridden, so many bits of the design that it
/// was made of feed each other.
pub fn wide_groups_are_loops()
    ensures { (d : Design) (flat : Flat) (sets : List (List ℕ)) (bits : ℕ) → IsArena flat.arena → IsElaborated d flat → IsFirstWide flat sets bits → HasWideLoop d bits }
{}
