//! Nets that wait for their turn, each named by the place of its lowest bit. No call takes memory.

ghost use Rattle.std.specs.Prelude.{◌≡◌, ℕ, ◌<◌, false, [], ◌∷◌, None, length, All, IfSome, Contains, slice_index_or};
ghost use Rattle.idx_list.specs.Order.{without};
ghost use Rattle.node_memo.specs.Memos.{IsMemo, is_fresh};
ghost use Rattle.node_memo.specs.Memos.{rows_in};
ghost use Rattle.event_sim.specs.Queues.{IsWoken, StayWaiting, AreForgotten};

use idx_list::IdxList;
use node_memo::Memo;
use svex_arena::Arena;

/// Puts nets at the end of those that wait, where they do not wait yet.
pub fn wake(lows: &[usize], waiting: &mut IdxList)
    requires { All (λ low. low < waiting.old.room) lows.now }
    ensures woken { IsWoken lows.now waiting.old.items waiting.new.items }
    ensures room { waiting.new.room ≡ waiting.old.room }
{
    for low in lows {
        if !waiting.has(*low) {
            waiting.push_back(*low);
        }
    }
}

// The nets to which the value of a node is given.
fn nets_of(takers: &[Vec<usize>], node: usize) -> &[usize]
    requires { node < length takers.now }
    ensures { result.now ≡ slice_index_or (rows_in takers.now) node [] }
{
    takers[node].as_slice()
}

/// Puts the nets to which the values of these nodes are given at the end of those that wait.
pub fn wake_takers(nodes: &[usize], takers: &[Vec<usize>], waiting: &mut IdxList)
    requires nodes { All (λ k. k < length takers.now) nodes.now }
    requires inside { (k low : ℕ) → Contains (slice_index_or (rows_in takers.now) k []) low → low < waiting.old.room }
    ensures woken { (k : ℕ) → Contains nodes.now k → All (Contains waiting.new.items) (slice_index_or (rows_in takers.now) k []) }
    ensures kept { StayWaiting waiting.old.items waiting.new.items }
    ensures room { waiting.new.room ≡ waiting.old.room }
{
    for node in nodes {
        wake(nets_of(takers, *node), waiting);
    }
}

/// Forgets the nodes of a wire that changes, with all that read it, and lets the nets wait to which their values are given.
pub fn forget_wire(
    arena: &Arena,
    nodes: &[usize],
    takers: &[Vec<usize>],
    memo: &mut Memo,
    waiting: &mut IdxList,
)
    requires memo { IsMemo arena.now memo.old }
    requires nodes { All (λ k. k < length arena.now) nodes.now }
    requires takers { length takers.now ≡ length arena.now }
    requires inside { (k low : ℕ) → Contains (slice_index_or (rows_in takers.now) k []) low → low < waiting.old.room }
    ensures memo { IsMemo arena.now memo.new }
    ensures gone { All (λ k. is_fresh memo.new.fresh.items k ≡ false) nodes.now }
    ensures forgotten { AreForgotten (rows_in takers.now) memo.old memo.new waiting.old.items waiting.new.items }
    ensures room { waiting.new.room ≡ waiting.old.room }
{
    for node in nodes {
        memo.forget(arena, *node);
        wake_takers(&memo.stale, takers, waiting);
    }
}

/// Takes the first of the nets that wait.
pub fn take_first(waiting: &mut IdxList) -> Option<usize>
    ensures none { result ≡ None → waiting.old.items ≡ [] }
    ensures unchanged { result ≡ None → waiting.new ≡ waiting.old }
    ensures first { IfSome result (λ low. waiting.old.items ≡ low ∷ waiting.new.items) }
    ensures below { IfSome result (λ low. low < waiting.old.room) }
    ensures room { waiting.new.room ≡ waiting.old.room }
{
    waiting.items_are_distinct();
    waiting.pop_front()
}

/// Takes a net out of those that wait, if it waits.
pub fn leave(waiting: &mut IdxList, low: usize)
    ensures items { waiting.new.items ≡ without low waiting.old.items }
    ensures room { waiting.new.room ≡ waiting.old.room }
{
    if waiting.has(low) {
        waiting.remove(low);
    }
}
