//! One pass over the present values: the nodes that are given to a net are evaluated where they are not fresh, its classes of joined bits
//! are told what is given to them, and the wires in which they lie take that. Nothing is looked at but what the net has and what changes,
//! so that a pass costs as much.

ghost use Rattle.std.specs.Prelude.{◌≡◌, ◌≢◌, ◌↔◌, ℕ, ◌+◌, ◌<◌, ◌≤◌, false, true, [], ◌∷◌, length, map, slice_index_or, slice_set, None, All, IfSome, IsTrue};
ghost use Rattle.fourvec.specs.declared.Bit.TheVariants.{Unknown};
ghost use Rattle.svex_arena.specs.Arenas.{IsArena};
ghost use Rattle.svex_shape.specs.Values.{read};
ghost use Rattle.node_memo.specs.Memos.{IsMemo, HasFresh, StayFresh, is_fresh};
ghost use Rattle.event_nets.specs.Gifts.{IsGift, source_in, gift_bit, told_bit, has_gift};
ghost use Rattle.event_nets.specs.Needs.{IsRoot, node_of};
ghost use Rattle.event_nets.specs.Runs.{is_at};
ghost use Rattle.node_memo.specs.Memos.{rows_in};
ghost use Rattle.event_sim.specs.Rows.{passed_bit, passed_row, Passed};
ghost use Rattle.event_sim.specs.Passes.{IsToldOf};
ghost use Rattle.event_sim.specs.Queues.{IsGivenFresh, AreForgotten, AreUnread, FitsNet};

use crate::links::Links;
use crate::queue::forget_wire;
use event_nets::gift::{Gift, Source, told_more};
use event_nets::tables::Tables;
use fourvec::{Bit, Four};
use idx_list::IdxList;
use node_memo::Memo;
use svex_arena::{Arena, Env};

/// What passes compute: values of nodes, which are kept while nothing that they read changes, and for each first bit what its class was
/// told.
pub struct Work {
    pub memo: Memo,
    pub told: Vec<Option<Bit>>,
}

impl Drop for Work {
    fn drop(self) {
        let Work { memo: _, told: _ } = self;
    }
}

impl Work {
    /// Evaluates the nodes that are given to a net, where they are not fresh.
    pub fn evaluate_net(&mut self, gifts: &[Gift], arena: &Arena, env: &Env)
        requires memo { IsMemo arena.now self.old.memo }
        requires right { HasFresh (read env.now) arena.now self.old.memo }
        requires roots { All (IsRoot (length arena.now)) gifts.now }
        ensures memo { IsMemo arena.now self.new.memo }
        ensures right { HasFresh (read env.now) arena.now self.new.memo }
        ensures has { All (IsGivenFresh self.new.memo) gifts.now }
        ensures stay { StayFresh self.old.memo self.new.memo }
        ensures told { self.new.told ≡ self.old.told }
        ensures arena { IsArena arena.now }
    {
        // For the proof: recalls what the type promises of it.
        let _ = arena.len();
        evaluate_all(gifts, arena, env, &mut self.memo);
    }

    /// Tells the classes of a net what is given to them.
    pub fn tell_net(&mut self, gifts: &[Gift], env: &Env)
        requires { All (IsGift self.old.memo.values.items env.now.stim (length self.old.told.items)) gifts.now }
        ensures told { IsToldOf gifts.now self.old.memo.values.items env.now.stim gifts.now self.new.told.items }
        ensures len { length self.new.told.items ≡ length self.old.told.items }
        ensures memo { self.new.memo ≡ self.old.memo }
    {
        tell_all(gifts, &self.memo.values, &env.stim, &mut self.told);
    }

    /// Gives the wires of a net what its classes are told, forgets what reads a wire that changes, and lets the nets wait to which it was
    /// given. Says whether anything changed.
    pub fn take_net(
        &mut self,
        tables: &Tables,
        links: &Links,
        arena: &Arena,
        low: usize,
        env: &mut Env,
        waiting: &mut IdxList,
    ) -> bool
        requires fits { FitsNet tables.now links.now low (map (λ row. length row) env.old.present) (length self.old.told.items) (length arena.now) waiting.old.room }
        requires memo { IsMemo arena.now self.old.memo }
        ensures rows { Passed tables.now.homes.items tables.now.starts.items tables.now.lows.items low self.old.told.items
            env.old.present env.new.present }
        ensures previous { env.new.previous ≡ env.old.previous }
        ensures stim { env.new.stim ≡ env.old.stim }
        ensures chosen { env.new.chosen ≡ env.old.chosen }
        ensures sampled { env.new.sampled ≡ env.old.sampled }
        ensures told { self.new.told ≡ self.old.told }
        ensures memo { IsMemo arena.now self.new.memo }
        ensures same { result ≡ false → env.new.present ≡ env.old.present }
        ensures still { result ≡ false → waiting.new ≡ waiting.old }
        ensures changed { result ≡ true → env.new.present ≢ env.old.present }
        ensures unread { AreUnread (rows_in links.now.present.items) env.old.present env.new.present self.new.memo }
        ensures forgotten { AreForgotten (rows_in links.now.takers.items) self.old.memo self.new.memo waiting.old.items waiting.new.items }
        ensures room { waiting.new.room ≡ waiting.old.room }
    {
        take_wires(
            tables,
            links,
            arena,
            low,
            &self.told,
            &mut env.present,
            &mut self.memo,
            waiting,
        )
    }
}

// Evaluates the node whose value is the source, if it is one.
fn evaluate_source(from: &Source, arena: &Arena, env: &Env, memo: &mut Memo)
    requires memo { IsMemo arena.now memo.old }
    requires right { HasFresh (read env.now) arena.now memo.old }
    requires root { IfSome (node_of from.now) (λ k. k < length arena.now) }
    ensures memo { IsMemo arena.now memo.new }
    ensures right { HasFresh (read env.now) arena.now memo.new }
    ensures has { IfSome (node_of from.now) (λ k. is_fresh memo.new.fresh.items k ≡ true) }
    ensures stay { StayFresh memo.old memo.new }
{
    match from {
        Source::Value(node) => memo.evaluate(arena, env, node.index()),
        Source::Stimulus(_) => {}
    }
}

// The same of all that is given.
fn evaluate_all(gifts: &[Gift], arena: &Arena, env: &Env, memo: &mut Memo)
    requires memo { IsMemo arena.now memo.old }
    requires right { HasFresh (read env.now) arena.now memo.old }
    requires roots { All (IsRoot (length arena.now)) gifts.now }
    ensures memo { IsMemo arena.now memo.new }
    ensures right { HasFresh (read env.now) arena.now memo.new }
    ensures has { All (IsGivenFresh memo.new) gifts.now }
    ensures stay { StayFresh memo.old memo.new }
{
    for gift in gifts {
        evaluate_source(&gift.from, arena, env, memo);
    }
}

fn bit_of(gift: &Gift, values: &[Four], stim: &[Four]) -> Bit
    requires { gift.now.at < length (source_in values.now stim.now gift.now.from) }
    ensures { result ≡ gift_bit values.now stim.now gift.now }
{
    match gift.from {
        Source::Value(node) => values[node.index()].bit(gift.at),
        Source::Stimulus(wire) => stim[wire].bit(gift.at),
    }
}

// Takes away what was told to the classes of these gifts.
fn clear(gifts: &[Gift], told: &mut [Option<Bit>])
    requires { All (λ g. g.to < length told.old) gifts.now }
    ensures { (place : ℕ) → has_gift gifts.now place ≡ true → slice_index_or told.new place None ≡ None }
{
    for gift in gifts {
        told[gift.to] = None;
    }
}

// Tells each class of these gifts, at the place of its first bit, what is given to it.
fn tell_all(gifts: &[Gift], values: &[Four], stim: &[Four], told: &mut [Option<Bit>])
    requires { All (IsGift values.now stim.now (length told.old)) gifts.now }
    ensures { IsToldOf gifts.now values.now stim.now gifts.now told.new }
{
    clear(gifts, told);
    for gift in gifts {
        let bit = bit_of(gift, values, stim);
        told[gift.to] = told_more(told[gift.to], bit);
    }
}

// Whether the net of a class is this one.
fn is_taken(of: Option<usize>, low: usize) -> bool
    ensures { result ≡ is_at of low }
{
    match of {
        None => false,
        Some(net) => net == low,
    }
}

fn bit_told(told: Option<Bit>) -> Bit
    ensures { result ≡ told_bit told }
{
    match told {
        None => Bit::Unknown,
        Some(bit) => bit,
    }
}

// What the bit at a place has after a pass.
fn new_bit(
    homes: &[usize],
    lows: &[Option<usize>],
    low: usize,
    told: &[Option<Bit>],
    place: usize,
    old: Bit,
) -> Bit
    requires place { place < length homes.now }
    requires homes { All (λ home. home < length told.now) homes.now }
    requires lows { length lows.now ≡ length told.now }
    ensures { result ≡ passed_bit homes.now lows.now low told.now place old }
{
    let home = homes[place];
    if is_taken(lows[home], low) {
        bit_told(told[home])
    } else {
        old
    }
}

fn one(bit: Bit) -> Four
    ensures { result ≡ bit ∷ [] }
{
    match bit {
        Bit::Zero => Four::new(1, 0, 0),
        Bit::One => Four::new(1, 1, 1),
        Bit::Unknown => Four::new(1, 1, 0),
        Bit::Floating => Four::new(1, 0, 1),
    }
}

// What a wire has after a pass.
fn new_row(
    homes: &[usize],
    lows: &[Option<usize>],
    low: usize,
    told: &[Option<Bit>],
    start: usize,
    old: &Four,
) -> Four
    requires places { start + length old.now ≤ length homes.now }
    requires homes { All (λ home. home < length told.now) homes.now }
    requires lows { length lows.now ≡ length told.now }
    ensures { result ≡ passed_row homes.now lows.now low told.now start old.now }
{
    let width = old.width();
    let mut new = one(new_bit(homes, lows, low, told, start, old.bit(0)));
    for at in 1..width {
        let bit = new_bit(homes, lows, low, told, start + usize::from(at), old.bit(at));
        new = one(bit).concat(&new);
    }
    new
}

#[tactic(auto, using(fourvec::proofs::Basic::same_when_equal, fourvec::proofs::Basic::equal_when_same))]
fn same(a: &Four, b: &Four) -> bool
    ensures { IsTrue result ↔ (a.now ≡ b.now) }
{
    *a == *b
}

// Gives a wire what its classes are told, where they lie in a net, and says whether that changed it.
fn take_wire(
    tables: &Tables,
    low: usize,
    told: &[Option<Bit>],
    wire: usize,
    present: &mut [Four],
) -> bool
    requires wire { wire < length present.old }
    requires starts { length tables.now.starts.items ≡ length present.old }
    requires places { slice_index_or tables.now.starts.items wire 0 + length (slice_index_or present.old wire []) ≤ length tables.now.homes.items }
    requires homes { All (λ home. home < length told.now) tables.now.homes.items }
    requires lows { length tables.now.lows.items ≡ length told.now }
    ensures row { present.new ≡ slice_set present.old wire (passed_row tables.now.homes.items tables.now.lows.items low told.now
        (slice_index_or tables.now.starts.items wire 0) (slice_index_or present.old wire [])) }
    ensures same { result ≡ false → present.new ≡ present.old }
    ensures changed { result ≡ true → slice_index_or present.new wire [] ≢ slice_index_or present.old wire [] }
{
    let new = new_row(
        &tables.homes,
        &tables.lows,
        low,
        told,
        tables.starts[wire],
        &present[wire],
    );
    if same(&new, &present[wire]) {
        return false;
    }
    present[wire] = new;
    true
}

// The same of each wire of a net. What reads a wire that changes is forgotten, and the nets to which it was given wait from then on.
fn take_wires(
    tables: &Tables,
    links: &Links,
    arena: &Arena,
    low: usize,
    told: &[Option<Bit>],
    present: &mut [Four],
    memo: &mut Memo,
    waiting: &mut IdxList,
) -> bool
    requires fits { FitsNet tables.now links.now low (map (λ row. length row) present.old) (length told.now) (length arena.now) waiting.old.room }
    requires memo { IsMemo arena.now memo.old }
    ensures rows { Passed tables.now.homes.items tables.now.starts.items tables.now.lows.items low told.now present.old present.new }
    ensures memo { IsMemo arena.now memo.new }
    ensures same { result ≡ false → present.new ≡ present.old }
    ensures still { result ≡ false → waiting.new ≡ waiting.old }
    ensures changed { result ≡ true → present.new ≢ present.old }
    ensures unread { AreUnread (rows_in links.now.present.items) present.old present.new memo.new }
    ensures forgotten { AreForgotten (rows_in links.now.takers.items) memo.old memo.new waiting.old.items waiting.new.items }
    ensures room { waiting.new.room ≡ waiting.old.room }
{
    let mut changed = false;
    for wire in &links.wires[low] {
        if take_wire(tables, low, told, *wire, present) {
            forget_wire(arena, &links.present[*wire], &links.takers, memo, waiting);
            changed = true;
        }
    }
    changed
}
