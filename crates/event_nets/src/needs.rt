//! What is given to each net.

ghost use Rattle.std.specs.Prelude.{◌≡◌, ℕ, ◌<◌, None, [], ◌∷◌, ◌++◌, length, All, IfOk, OnOk, IfSome, slice_index_or, if◌then◌else◌};
ghost use Rattle.event_nets.specs.Runs.{is_at};
ghost use Rattle.event_nets.specs.Needs.{gift_rows, given_to};

use crate::gift::Gift;
use std::alloc::{AllocError, Global};

// No gift, for so many places.
fn no_gifts(alloc: Global, places: usize) -> Result<Vec<Vec<Gift>>, AllocError>
    ensures len { IfOk result (λ given. length given.items ≡ places) }
    ensures none { IfOk result (λ given. All (λ row. row ≡ []) (gift_rows given.items)) }
{
    let mut given = Vec::new(alloc);
    for _ in 0..places {
        given.push(Vec::new(alloc))?;
    }
    Ok(given)
}

// Puts a gift behind those of its net, if it has one.
fn put_gift(given: &mut [Vec<Gift>], low: Option<usize>, gift: &Gift) -> Result<(), AllocError>
    requires { IfSome low (λ k. k < length given.old) }
    ensures len { OnOk result (length given.new ≡ length given.old) }
    ensures more { OnOk result ((k : ℕ) → k < length given.old → slice_index_or (gift_rows given.new) k []
        ≡ slice_index_or (gift_rows given.old) k [] ++ (if is_at low k then gift.now ∷ [] else [])) }
{
    match low {
        None => Ok(()),
        Some(low) => {
            // By its parts: of the whole, the proof of borrows is not told that it holds a source.
            let Gift { to, from, at } = *gift;
            given[low].push(Gift { to, from, at })?;
            Ok(())
        }
    }
}

// Puts gifts behind those of their nets.
fn put_all(
    lows: &[Option<usize>],
    gifts: &[Gift],
    given: &mut [Vec<Gift>],
) -> Result<(), AllocError>
    requires len { length given.old ≡ length lows.now }
    requires none { All (λ row. row ≡ []) (gift_rows given.old) }
    requires gifts { All (λ g. g.to < length lows.now) gifts.now }
    requires lows { (k : ℕ) → IfSome (slice_index_or lows.now k None) (λ low. low < length lows.now) }
    ensures len { OnOk result (length given.new ≡ length lows.now) }
    ensures given { OnOk result ((k : ℕ) → k < length lows.now → slice_index_or (gift_rows given.new) k [] ≡ given_to lows.now gifts.now k) }
{
    for gift in gifts {
        put_gift(given, lows[gift.to], gift)?;
    }
    Ok(())
}

/// What is given to each net, by the place of its lowest bit.
pub fn given_by_net(
    alloc: Global,
    lows: &[Option<usize>],
    gifts: &[Gift],
) -> Result<Vec<Vec<Gift>>, AllocError>
    requires gifts { All (λ g. g.to < length lows.now) gifts.now }
    requires lows { (k : ℕ) → IfSome (slice_index_or lows.now k None) (λ low. low < length lows.now) }
    ensures len { IfOk result (λ given. length given.items ≡ length lows.now) }
    ensures given { IfOk result (λ given. (k : ℕ) → k < length lows.now → slice_index_or (gift_rows given.items) k [] ≡ given_to lows.now gifts.now k) }
{
    let mut given = no_gifts(alloc, lows.len())?;
    put_all(lows, gifts, &mut given)?;
    Ok(given)
}
