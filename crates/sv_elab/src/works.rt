// What is made of one task: an assignment, a block or a connected port. Each has the same answer (drivers, perhaps a join, and
// the turns that were made), so that the loop over tasks has one case. A name that stands for its own port becomes an
// expression here, so that ports know of one kind of actual.
ghost use Rattle.std.specs.Prelude.{◌≡◌, List, None, Ok, Err, IfOk};
ghost use Rattle.driver_resolve.specs.Drivers.{widths_of};
ghost use Rattle.driver_resolve.specs.declared.driver.Driver.{Driver as Driving};
ghost use Rattle.sv_outside.specs.declared.text.Signal.{Signal};
ghost use Rattle.sv_outside.specs.declared.refusal.TextErr.{TextErr as Why};
ghost use Rattle.svex_arena.specs.Arenas.{Extends};
ghost use Rattle.sv_names.specs.Names.{names_are};
ghost use Rattle.sv_names.specs.Kinds.{layout_is};
ghost use Rattle.sv_meaning.specs.Params.{name_alone};
ghost use Rattle.sv_meaning.specs.Designs as d;
ghost use Rattle.sv_hierarchy.specs.Scopes.{work_of};
ghost use Rattle.sv_levels.specs.Tasks.{task_is, actual_is};
ghost use Rattle.sv_stmt.specs.Blocks.{AreWires};
ghost use Rattle.sv_elab.specs.Working.{AreBelow, AreSizes, JudgesWork, PortFits, TaskFits, TaskStandsAbove};

use crate::assigns::assigned;
use crate::ports::{Port, connected};
use driver_resolve::Driver;
use flat_net::Join;
use items::Items;
use std::alloc::{AllocError, Global};
use sv_names::{Layout, Names};
use sv_outside::TextErr;
use sv_scope::{Actual, Task};
use sv_stmt::block_drivers;
use sv_tree::{Expr, Way, Word};
use svex_arena::Arena;

/// What is made of a task: its drivers, what it joins, and how many turns of loops were made up to its end.
#[derive(Drop)]
pub struct Parts {
    pub drivers: Items<Driver>,
    pub join: Option<Join>,
    pub made: u64,
}

/// Drivers alone.
pub(crate) fn given(drivers: Result<Items<Driver>, TextErr>, made: u64) -> Result<Parts, TextErr>
    ensures ok { (all : List Driving) → drivers ≡ Ok all → result ≡ Ok (record { drivers = all; join = None; made = made }) }
    ensures err { (e : Why) → drivers ≡ Err e → result ≡ Err e }
{
    let drivers = drivers?;
    Ok(Parts {
        drivers,
        join: None,
        made,
    })
}

// The expression of a name that stands alone.
fn alone(alloc: Global, word: &Word) -> Result<Expr, AllocError>
    ensures { IfOk result (λ x. x ≡ name_alone word.now) }
{
    let text = word.text.copy()?;
    let place = word.place;
    Ok(Expr::Name(Word { text, place }, Items::new(alloc)))
}

// What is made of a connected port.
fn port_parts(
    alloc: Global,
    arena: &mut Arena,
    widths: &[u8],
    way: Way,
    wire: usize,
    layout: &Layout,
    actual: Actual<'_>,
    names: &Names<'_>,
    made: u64,
) -> Result<Parts, TextErr>
    requires names { AreWires (names_are names.now) widths.now }
    requires port { PortFits widths.now wire (layout_is layout.now) }
    requires below { AreBelow wire (names_are names.now) }
    requires sizes { AreSizes widths.now }
    ensures stays { Extends arena.old arena.new }
    ensures is { (wires : List Signal) → widths_of wires ≡ widths.now
        → JudgesWork wires (d.port (names_are names.now) way wire (layout_is layout.now) (actual_is actual.entry)) made arena.new result }
{
    // For the proof: recalls what the type promises of it.
    let _ = arena.len();
    let width = widths[wire];
    let port = Port {
        way,
        wire,
        width,
        signed: layout.signed,
    };
    match actual {
        Actual::Named(word) => {
            let expr = alone(alloc, word)?;
            connected(alloc, arena, widths, port, &expr, names, made)
        }
        Actual::Written(expr) => connected(alloc, arena, widths, port, expr, names, made),
    }
}

/// What is made of a task at a place with these names, or why it is refused.
pub(crate) fn work_parts(
    alloc: Global,
    arena: &mut Arena,
    widths: &[u8],
    names: &mut Names<'_>,
    task: &Task<'_>,
    made: u64,
) -> Result<Parts, TextErr>
    requires names { AreWires (names_are names.old) widths.now }
    requires task { TaskFits widths.now (task_is task.now) }
    requires below { TaskStandsAbove (names_are names.old) (task_is task.now) }
    requires sizes { AreSizes widths.now }
    ensures stays { Extends arena.old arena.new }
    ensures is { (wires : List Signal) → widths_of wires ≡ widths.now
        → JudgesWork wires (work_of (names_are names.old) (task_is task.now)) made arena.new result }
{
    match task {
        Task::Assigning(target, value) => given(
            assigned(alloc, arena, widths, target, value, names),
            made,
        ),
        Task::Running(block) => {
            let (drivers, made) = block_drivers(alloc, arena, block, names, made)?;
            Ok(Parts {
                drivers,
                join: None,
                made,
            })
        }
        Task::Connecting {
            way,
            wire,
            layout,
            actual,
        } => port_parts(
            alloc, arena, widths, *way, *wire, layout, *actual, names, made,
        ),
    }
}
