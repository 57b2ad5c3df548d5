// The flat design of a source: one task after another becomes drivers or a join. Behind each task the drivers give just what
// the works so far contribute, in the same order, so the two designs are equal list by list and no law of resolution is needed.
// No bit is joined twice, since no two connected ports have one wire.
ghost use Rattle.std.specs.Prelude.{◌≡◌, ℕ, ◌++◌, ◌∷◌, [], List, IfOk, IfErr, OnOk};
ghost use Rattle.std.specs.Option.{option_copied};
ghost use Rattle.driver_resolve.specs.Drivers.{widths_of};
ghost use Rattle.sv_outside.specs.declared.text.Signal.{Signal};
ghost use Rattle.flat_net.specs.Flats.{IsFlat, links_of};
ghost use Rattle.sv_typing.specs.Judging.{IsCause};
ghost use Rattle.sv_loops.specs.Answers.{Answers};
ghost use Rattle.sv_meaning.specs.Designs as d;
ghost use Rattle.sv_meaning.specs.Designs.{design_faults, work_faults};
ghost use Rattle.sv_hierarchy.specs.Scopes.{live_at, work_at};
ghost use Rattle.sv_scope.specs.Scoped.{design_is, levels_of, wires_of, works_of};
ghost use Rattle.sv_levels.specs.Tasks.{work_is};
ghost use Rattle.sv_elab.specs.Elaborated.{IsElaborated, sound_design};
ghost use Rattle.sv_elab.specs.Working.{AreSizes, AreSound, IsMade, TaskFits, TaskIsFree, TaskStandsAbove, join_list};

use crate::signals::{copied, widths};
use crate::works::{Parts, work_parts};
use driver_resolve::Driver;
use flat_net::{Flat, Join};
use items::Items;
use std::alloc::{AllocError, Global};
use sv_outside::{Name, TextErr};
use sv_scope::{DesignScopes, Work, scopes};
use sv_tree::Source;
use svex_arena::Arena;

/// What was made of the tasks so far.
#[derive(Drop)]
struct Making {
    arena: Arena,
    drivers: Items<Driver>,
    joins: Items<Join>,
    /// The turns of loops.
    made: u64,
}

// One join more, if there is one.
fn add_join(joins: &mut Items<Join>, join: Option<Join>) -> Result<(), AllocError>
    ensures { OnOk result (joins.new ≡ joins.old ++ join_list join) }
{
    if let Some(join) = join {
        joins.push(join)?;
    }
    Ok(())
}

// One task more.
fn add_work(
    alloc: Global,
    making: &mut Making,
    scopes: &DesignScopes<'_>,
    widths: &[u8],
    work: &Work<'_>,
) -> Result<(), TextErr>
    requires scopes { AreSound scopes.now }
    requires widths { widths.now ≡ widths_of (wires_of scopes.now) }
    requires task { TaskFits widths.now (work_is work.now).task }
    requires above { TaskStandsAbove (live_at (levels_of scopes.now) (work_is work.now).at) (work_is work.now).task }
    requires sizes { AreSizes widths.now }
    requires free { TaskIsFree (links_of making.old.joins) (work_is work.now).task }
    ensures ok { (works : List d.Work) (before : ℕ) → IsMade (wires_of scopes.now) works before making.old
        → OnOk result (IsMade (wires_of scopes.now) (works ++ work_at (levels_of scopes.now) (work_is work.now) ∷ []) before making.new) }
    ensures err { (works : List d.Work) (before : ℕ) → IsMade (wires_of scopes.now) works before making.old
        → IfErr result (λ e. IsCause (work_faults (work_at (levels_of scopes.now) (work_is work.now)) making.old.made) e) }
{
    let mut names = scopes.names(alloc, work.at)?;
    let Parts {
        drivers,
        join,
        made,
    } = work_parts(
        alloc,
        &mut making.arena,
        widths,
        &mut names,
        &work.task,
        making.made,
    )?;
    making.drivers.append(drivers)?;
    add_join(&mut making.joins, join)?;
    making.made = made;
    Ok(())
}

// Nothing is made.
fn begun(alloc: Global, turns: u64) -> Making
    ensures { (wires : List Signal) → IsMade wires [] turns result }
{
    Making {
        arena: Arena::new(alloc),
        drivers: Items::new(alloc),
        joins: Items::new(alloc),
        made: turns,
    }
}

// The flat design of scopes.
fn flattened(alloc: Global, scopes: &DesignScopes<'_>) -> Result<Flat, TextErr>
    requires { AreSound scopes.now }
    ensures ok { IfOk result (λ flat. IsElaborated (design_is scopes.now) flat) }
    ensures err { IfErr result (λ e. IsCause (design_faults (design_is scopes.now)) e) }
{
    let wires = copied(alloc, scopes.wires())?;
    let widths = widths(alloc, scopes.wires())?;
    let mut making = begun(alloc, scopes.turns());
    'works: for work in scopes.works() {
        add_work(alloc, &mut making, scopes, &widths, work)?;
    }
    let Making {
        arena,
        drivers,
        joins,
        made: _,
    } = making;
    Ok(Flat {
        arena,
        wires,
        drivers,
        joins,
    })
}

/// The flat design of a source with a top: the module of a given name or, where none is given, the one module that no module
/// instantiates. Its settlings are exactly those of the source; or why the source is refused: E2 and E10 to E25.
///
/// Wires are numbered as `scopes` numbers them. The drivers follow the order in which the text of each instance has its
/// assignments, blocks and ports, an instance's ports before its items. The key is `key_of` the source's tokens: it changes no answer.
pub fn elaborate(
    alloc: Global,
    key: u128,
    source: &Source,
    top: Option<&Name>,
) -> Result<Flat, TextErr>
    ensures is { Answers (λ d flat. IsElaborated d flat) (sound_design source.now (option_copied top.entry)) result }
    ensures sound { IfOk result IsFlat }
{
    let found = scopes(alloc, key, source, top)?;
    flattened(alloc, &found)
}
