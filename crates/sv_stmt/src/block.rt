// Blocks as drivers (IEEE 1800-2017, 9.2.2). The events are judged first, then the marks, and then what the statements do; only
// after that nodes are made, so that nothing is refused any more where the graph has grown. The scene is made in two steps:
// places for all wires that targets name, and then marks on the bits that actions write.
ghost use Rattle.std.specs.Prelude.{◌≡◌, ℕ, Bool, false, ◌+◌, List, [], ◌∷◌, ◌++◌, All, Some, IsTrue, IfOk, IfErr};
ghost use Rattle.sv_outside.specs.declared.text.Signal.{Signal};
ghost use Rattle.svex_shape.specs.declared.shape.VarName.{VarName};
ghost use Rattle.svex_shape.specs.Values.{each_variable};
ghost use Rattle.svex_arena.specs.Arenas.{Extends};
ghost use Rattle.driver_resolve.specs.Drivers.{Phase, IsDriver, widths_of, drivers_give};
ghost use Rattle.sv_names.specs.Kinds.{what_is, WhatIsSound};
ghost use Rattle.sv_typing.specs.Judging.{IsCause};
ghost use Rattle.sv_names.specs.Names.{names_are};
ghost use Rattle.sv_meaning.specs.Deeds.{deed};
ghost use Rattle.sv_meaning.specs.Layouts.{Scope, find};
ghost use Rattle.sv_meaning.specs.Blocks.{clock_of, edge_of, edges_of, events_of, clock_faults, events_faults, event_faults, mark_or, first_mark, block_mark, latch, block_faults, block_value, manner};
ghost use Rattle.sv_tree.specs.declared.stmts.Event.{Event};
ghost use Rattle.sv_meaning.specs.Designs.{block_gives, block_names};
ghost use Rattle.sv_actions.specs.Doing.{Fits, Aims, names_all, writes_all};
ghost use Rattle.sv_actions.specs.Texts.{target_signals, of_each, event_signal, event_signals, signals_of};
ghost use Rattle.sv_stores.specs.Scenes.{is_written, IsScene};
ghost use Rattle.sv_blocks.specs.Fitting.{Sits};
ghost use Rattle.sv_blocks.specs.Declaring.{HasMarks, IsBegun, IsMarked};
ghost use Rattle.sv_stmt.specs.Blocks.{AreThere, AreDeclared, AreWires, OneWidth, Reads, manner_is, mark_of, manner_signals, JudgesEdge, JudgesEdges, JudgesManner, AreEdgesOf, AddsEdge, Contributes};

use driver_resolve::Driver;
use items::Items;
use std::alloc::{AllocError, Global};
use sv_actions::{Acted, Action, first_mark, judge_marks, typed_body};
use sv_blocks::{Marked, all_bits, mark_all, scene_drivers, scene_of, stmt_wires};
use sv_meaning::WireEdge;
use sv_names::{Names, What};
use sv_outside::{TextErr, refusals};
use sv_stores::{Manner, Scene};
use sv_tree::{AssignMark, Block, BlockKind, Event, Events, Stmt};
use sv_typing::refusal;
use svex_arena::Arena;

// The edge of an event by what its name stands for: a net or variable of one bit; or E12 or E14.
fn edge_in(event: &Event, what: &What) -> Result<WireEdge, TextErr>
    ensures { (at : Scope) → WhatIsSound what.now → find event.now.name.text at ≡ Some (what_is what.now) → JudgesEdge (event_signal at event.now) (clock_faults event.now.name (find event.now.name.text at)) (edge_of event.now.edge (clock_of (find event.now.name.text at))) result }
{
    match what {
        What::Wire { number, layout } => {
            if layout.width == 1 {
                Ok(WireEdge {
                    edge: event.edge,
                    wire: *number,
                })
            } else {
                Err(TextErr::No(refusal(refusals::WIDTH, event.name.place)))
            }
        }
        What::Number(_) => Err(TextErr::No(refusal(refusals::UNKNOWN_NAME, event.name.place))),
        What::Kind(_) => Err(TextErr::No(refusal(refusals::UNKNOWN_NAME, event.name.place))),
        What::Chosen { .. } => Err(TextErr::No(refusal(refusals::UNKNOWN_NAME, event.name.place))),
        What::Sampled { .. } => Err(TextErr::No(refusal(refusals::UNKNOWN_NAME, event.name.place))),
        What::Genvar => Err(TextErr::No(refusal(refusals::UNKNOWN_NAME, event.name.place))),
    }
}

// The edge of an event.
fn event_edge(event: &Event, names: &Names<'_>) -> Result<WireEdge, TextErr>
    ensures { JudgesEdge (event_signal (names_are names.now) event.now) (clock_faults event.now.name (find event.now.name.text (names_are names.now))) (edge_of event.now.edge (clock_of (find event.now.name.text (names_are names.now)))) result }
{
    match names.find(event.name.text.bytes()) {
        Some(what) => edge_in(event, what),
        None => Err(TextErr::No(refusal(refusals::UNKNOWN_NAME, event.name.place))),
    }
}

// The edge of an event, behind those of others.
fn add_edge(event: &Event, names: &Names<'_>, edges: &mut Items<WireEdge>) -> Result<(), TextErr>
    ensures { (all : List Event) → AreEdgesOf (names_are names.now) all edges.old → AddsEdge (names_are names.now) (all ++ event.now ∷ []) edges.new result }
{
    let edge = event_edge(event, names)?;
    edges.push(edge)?;
    Ok(())
}

// The edges of events.
fn edges_of(alloc: Global, events: &Events, names: &Names<'_>) -> Result<Items<WireEdge>, TextErr>
    ensures { JudgesEdges (of_each (event_signal (names_are names.now)) (events_of events.now)) (events_faults (names_are names.now) (events_of events.now)) (edges_of (names_are names.now) (events_of events.now)) result }
{
    let mut edges = Items::new(alloc);
    add_edge(&events.first, names, &mut edges)?;
    'more: for next in events.more.as_slice() {
        add_edge(&next.event, names, &mut edges)?;
    }
    Ok(edges)
}

// How a latch block holds its wires, by its first assignment.
fn latch_of(body: &Stmt) -> Manner
    ensures is { manner_is result ≡ latch (mark_or (first_mark body.now)) }
    ensures mark { mark_of result ≡ mark_or (first_mark body.now) }
    ensures named { manner_signals result ≡ [] }
{
    match first_mark(body) {
        None => Manner::Latch,
        Some(AssignMark::Blocking) => Manner::Latch,
        Some(AssignMark::Nonblocking) => Manner::HeldLatch,
    }
}

// How a block holds its wires, and what sets it off.
fn manner_of(alloc: Global, block: &Block, names: &Names<'_>) -> Result<Manner, TextErr>
    ensures manner { JudgesManner (event_signals (names_are names.now) block.now.kind) (event_faults (names_are names.now) block.now.kind) (manner (names_are names.now) block.now) result }
    ensures mark { IfOk result (λ held. mark_of held ≡ block_mark block.now) }
{
    match &block.kind {
        BlockKind::Comb => Ok(Manner::Comb),
        BlockKind::Latch => Ok(latch_of(&block.body)),
        BlockKind::Star => Ok(Manner::Comb),
        BlockKind::StarParen => Ok(Manner::Comb),
        BlockKind::Ff(events) => edges_of(alloc, events, names).map(Manner::Clocked),
        BlockKind::Always(events) => edges_of(alloc, events, names).map(Manner::Clocked),
    }
}

// The mark that the assignments of a block have.
fn mark_of(manner: &Manner) -> AssignMark
    ensures { result ≡ mark_of manner.now }
{
    match manner {
        Manner::Comb => AssignMark::Blocking,
        Manner::Latch => AssignMark::Blocking,
        Manner::HeldLatch => AssignMark::Nonblocking,
        Manner::Clocked(_) => AssignMark::Nonblocking,
    }
}

// The scene of a block: a place for each wire that its targets name, and no bit marked.
fn scene_in(
    alloc: Global,
    body: &Stmt,
    names: &Names<'_>,
    manner: Manner,
) -> Result<Scene, AllocError>
    ensures begun { IfOk result (λ scene. IsBegun (target_signals (names_are names.now) body.now) manner scene) }
    ensures there { IfOk result (λ scene. AreThere (target_signals (names_are names.now) body.now) scene) }
{
    let mut wires = Vec::new(alloc);
    stmt_wires(body, names, &mut wires)?;
    scene_of(alloc, &wires, manner)
}

// The scene with the bits marked that actions write.
fn marked_in(alloc: Global, scene: Scene, actions: &[Action]) -> Result<Marked, AllocError>
    requires fits { All Fits actions.now }
    requires sits { All (Sits scene) actions.now }
    requires sound { IsScene scene }
    requires marks { HasMarks scene }
    requires clear { (n k : ℕ) → is_written scene n k ≡ false }
    ensures { IfOk result (λ all. IsMarked scene (writes_all actions.now) all) }
{
    let mut bits = Vec::new(alloc);
    all_bits(alloc, actions, &mut bits)?;
    mark_all(alloc, scene, &bits)
}

// The drivers of a block whose statements do these actions.
fn drivers_in(
    alloc: Global,
    arena: &mut Arena,
    body: &Stmt,
    names: &Names<'_>,
    manner: Manner,
    actions: &[Action],
) -> Result<Items<Driver>, AllocError>
    requires fits { All Fits actions.now }
    requires aims { All (Aims (target_signals (names_are names.now) body.now)) actions.now }
    requires names { AreDeclared (names_are names.now) (names_all actions.now) }
    requires widths { OneWidth (names_are names.now) }
    ensures stays { Extends arena.old arena.new }
    ensures ok { IfOk result (λ all. Contributes (names_are names.now) (target_signals (names_are names.now) body.now) manner actions.now arena.new all) }
{
    let scene = scene_in(alloc, body, names, manner)?;
    let Marked { scene, bits } = marked_in(alloc, scene, actions)?;
    let all = scene_drivers(alloc, arena, &scene, actions, bits.as_slice())?;
    Ok(all)
}

/// What a block contributes to the bits that it writes, over the names of its place, where so many turns of loops were made before;
/// with the turns that are made behind it. Or why it is refused: E2, E12, E14, E15, E16, E19, E20, E23, E24 or E25.
///
/// The drivers follow the order in which the text writes bits for the last time, one for each run of bits that follow one another in
/// one wire. The names are afterwards as before.
pub fn block_drivers(
    alloc: Global,
    arena: &mut Arena,
    block: &Block,
    names: &mut Names<'_>,
    made: u64,
) -> Result<(Items<Driver>, u64), TextErr>
    requires { OneWidth (names_are names.old) }
    ensures stays { Extends arena.old arena.new }
    ensures names { names_are names.new ≡ names_are names.old }

    // Nothing stands against the block, and so many turns are made behind it.
    ensures clear { IfOk result (λ t. block_faults (names_are names.old) block.now made ≡ []) }
    ensures turns { IfOk result (λ t. t.1 ≡ made + (deed block.now.body (names_are names.old)).turns) }

    // The drivers give in every phase exactly what the block contributes there, in the same order.
    ensures gives { IfOk result (λ t. (p : Phase) → drivers_give arena.new t.0 p
        ≡ block_gives (deed block.now.body (names_are names.old)) (block_value (manner (names_are names.old) block.now) (deed block.now.body (names_are names.old)) p.previous p.present)) }

    // Each is sound, where each name of a signal stands for one of these wires.
    ensures sound { IfOk result (λ t. (widths : List ℕ) → AreWires (names_are names.old) widths → All (IsDriver widths arena.new) t.0) }

    // They mention no signals but those that the block names, and in the present only those that it names there.
    ensures mentions { IfOk result (λ t. (wires : List Signal) (p : VarName → ℕ → Bool) → AreWires (names_are names.old) (widths_of wires)
        → Reads (signals_of (names_are names.old) block.now) (block_names wires (manner (names_are names.old) block.now) (deed block.now.body (names_are names.old))) p
        → All (λ d. IsTrue (each_variable p arena.new d.value)) t.0) }
    ensures cause { IfErr result (λ e. IsCause (block_faults (names_are names.old) block.now made) e) }
{
    let manner = manner_of(alloc, block, names)?;
    judge_marks(mark_of(&manner), &block.body)?;
    let Acted { actions, made } = typed_body(alloc, &block.body, names, made)?;
    let all = drivers_in(alloc, arena, &block.body, names, manner, actions.as_slice())?;
    Ok((all, made))
}
