// Nodes of goals stand in the graph of the flat design, behind its own. No table is both narrow and refused.
ghost use Rattle.std.specs.Prelude.{ℕ, List, length, Option};
ghost use Rattle.flat_net.specs.declared.flat.Flat.{Flat};
ghost use Rattle.phase_fsm.specs.Sets.{AreNarrow, IsFirstWide};
ghost use Rattle.svex_arena.specs.Arenas.{Extends, IsArena};
ghost use Rattle.svex_shape.specs.declared.shape.Shape.{Shape};
ghost use Rattle.design_loops.specs.Passed.{IsElaborated};
ghost use Rattle.sv_meaning.specs.Designs.{Design};
ghost use Rattle.svtv_machine.specs.Sets.{AreSetsOf};
ghost use Rattle.svtv_table.specs.declared.bound.Drive.{Drive};

/// A flat design means the same where its graph has grown.
pub fn designs_grow()
    ensures { (d : Design) (flat : Flat) (shapes : List Shape) → IsElaborated d flat → Extends flat.arena shapes → IsArena shapes → IsElaborated d (record flat { arena = shapes }) }
{}

/// No set of a table has a wide group where `sample_nodes` makes nodes, and some set has one where it refuses: of one table and one flat
/// design never both are true.
pub fn narrow_tables_are_not_wide()
    ensures { (flat : Flat) (overs : List (ℕ × List (Option Drive))) (phases : ℕ) (sets more : List (List ℕ)) (bits : ℕ) → AreSetsOf overs phases sets → AreNarrow flat sets (length sets)
        → AreSetsOf overs phases more → IsFirstWide flat more bits → ⊥ }
{}
