// The machine of a table over a flat design, and nodes for its samples. The sets of wires that some phase overrides are gathered first, since
// the machine has nodes for each of them; the table is unrolled over it where samples are wanted as nodes of its variables alone. Both
// give the flat design up: its graph is the one in which all nodes are made.
ghost use Rattle.std.specs.Prelude.{◌≡◌, ◌<◌, ℕ, List, length, IfOk, Err};
ghost use Rattle.design_loops.specs.Loops.{HasWideLoop};
ghost use Rattle.flat_net.specs.Flats.{IsFlat};
ghost use Rattle.net_equations.specs.declared.group.ComposeErr.TheVariants.{LoopTooWide};
ghost use Rattle.phase_fsm.specs.Machines.{IsMachine};
ghost use Rattle.phase_fsm.specs.Sets.{AreNarrow, IsFirstWide};
ghost use Rattle.svex_arena.specs.Arenas.{Extends, IsArena};
ghost use Rattle.design_loops.specs.Passed.{IsElaborated};
ghost use Rattle.sv_meaning.specs.Designs.{Design};
ghost use Rattle.svtv_machine.specs.Least.{AreLeastNodes};
ghost use Rattle.svtv_machine.specs.Sets.{AreSetsOf};
ghost use Rattle.svtv_table.specs.Binding.{IsBound};
ghost use Rattle.svtv_unroll.specs.Unrolled.{AreSampleNodes, HasDesign, HasSet};

use crate::sets::sets_of;
use flat_net::Flat;
use net_equations::ComposeErr;
use phase_fsm::{Fsm, make_fsm};
use std::alloc::Global;
use svtv_table::Bound;
use svtv_unroll::{Svtv, unroll};

/// The machine of a flat design, for each set of wires that a table overrides in some phase. Nodes that are there keep their numbers and
/// shapes. A refusal gives the flat design up: wires with so many bits, over 1,024, feed each other in the design that it was made of.
pub fn machine_of(alloc: Global, flat: Flat, bound: &Bound) -> Result<Fsm, ComposeErr>
    requires flat { IsFlat flat }

    // It is the machine of the flat design, whose wires it has.
    ensures wires { IfOk result (λ fsm. fsm.flat.wires ≡ flat.wires) }
    ensures machine { IfOk result (λ fsm. IsMachine flat fsm.sets fsm.flat.arena fsm.nodes) }
    ensures design { IfOk result HasDesign }

    // Each phase of the table has its set.
    ensures sets { IfOk result (λ fsm. (phase : ℕ) → phase < bound.now.phases → HasSet fsm.sets bound.now.overs phase) }

    ensures extends { IfOk result (λ fsm. Extends flat.arena fsm.flat.arena) }
    ensures wide { (bits : ℕ) → result ≡ Err (LoopTooWide bits) → (d : Design) → IsElaborated d flat → HasWideLoop d bits }

    // The count is that of the first group over 1,024 bits of the first of the table's sets that has one.
    ensures first { (bits : ℕ) → result ≡ Err (LoopTooWide bits)
        → (sets : List (List ℕ)) × AreSetsOf bound.now.overs bound.now.phases sets × IsFirstWide flat sets bits }

    // There is a machine only where none of them has one.
    ensures narrow { IfOk result (λ fsm. (sets : List (List ℕ)) × AreSetsOf bound.now.overs bound.now.phases sets × AreNarrow flat sets (length sets)) }
{
    // For the proof: recalls what the type promises of it.
    let _ = flat.arena.len();
    let sets = sets_of(alloc, bound)?;
    make_fsm(alloc, flat, sets)
}

/// The samples of a table that is bound to the wires of a flat design, as nodes over its variables. Nodes that are there keep their numbers
/// and shapes. A refusal gives the flat design up: wires with so many bits, over 1,024, feed each other in the design that it was made of.
pub fn sample_nodes(alloc: Global, flat: Flat, bound: &Bound) -> Result<Svtv, ComposeErr>
    requires flat { IsFlat flat }
    requires bound { IsBound flat.wires bound.now }

    // The nodes are there, over the variables alone, at their widths.
    ensures nodes { IfOk result (λ s. AreSampleNodes bound.now.vars bound.now.samples s.fsm.flat.arena s.samples) }

    // They have what the samples have in the least run of the design, under each choice.
    ensures least { IfOk result (λ s. (d : Design) → IsElaborated d flat → AreLeastNodes d bound.now s.fsm.flat.arena s.samples) }

    ensures extends { IfOk result (λ s. Extends flat.arena s.fsm.flat.arena) }
    ensures arena { IfOk result (λ s. IsArena s.fsm.flat.arena) }
    ensures wide { (bits : ℕ) → result ≡ Err (LoopTooWide bits) → (d : Design) → IsElaborated d flat → HasWideLoop d bits }

    // The count is that of the first group over 1,024 bits of the first of the table's sets that has one.
    ensures first { (bits : ℕ) → result ≡ Err (LoopTooWide bits)
        → (sets : List (List ℕ)) × AreSetsOf bound.now.overs bound.now.phases sets × IsFirstWide flat sets bits }

    // There are nodes only where none of them has one.
    ensures narrow { IfOk result (λ s. (sets : List (List ℕ)) × AreSetsOf bound.now.overs bound.now.phases sets × AreNarrow flat sets (length sets)) }
{
    let fsm = match machine_of(alloc, flat, bound) {
        Ok(fsm) => fsm,
        Err(error) => return Err(error),
    };
    match unroll(alloc, fsm, bound) {
        Ok(svtv) => {
            // For the proof: recalls what the type promises of it.
            let _ = svtv.fsm.flat.arena.len();
            Ok(svtv)
        }
        Err(_) => Err(ComposeErr::Memory),
    }
}
