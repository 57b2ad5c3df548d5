//! What is given to each class of joined bits, by the place of its first bit, in order. It is laid out once for all classes, so
//! that a net is cut into pieces with no search.

ghost use Rattle.std.specs.Prelude.{◌≡◌, ◌==◌, ℕ, ◌<◌, [], ◌∷◌, ◌++◌, length, filter, All, IfOk, OnOk, slice_index_or, if◌then◌else◌};
ghost use Rattle.event_nets.specs.Needs.{gift_rows};

use event_nets::gift::Gift;
use std::alloc::{AllocError, Global};

/// What is given to each class, by the place of its first bit.
pub struct Classes {
    pub rows: Vec<Vec<Gift>>,
}

impl Drop for Classes {
    fn drop(self) {
        let Classes { rows: _ } = self;
    }
}

// No gift, for so many places.
fn no_gifts(alloc: Global, places: usize) -> Result<Vec<Vec<Gift>>, AllocError>
    ensures len { IfOk result (λ rows. length rows.items ≡ places) }
    ensures none { IfOk result (λ rows. All (λ row. row ≡ []) (gift_rows rows.items)) }
{
    let mut rows = Vec::new(alloc);
    for _ in 0..places {
        rows.push(Vec::new(alloc))?;
    }
    Ok(rows)
}

// Puts a gift behind those of its class.
fn put_gift(rows: &mut [Vec<Gift>], gift: &Gift) -> Result<(), AllocError>
    requires { gift.now.to < length rows.old }
    ensures len { OnOk result (length rows.new ≡ length rows.old) }
    ensures more { OnOk result ((k : ℕ) → k < length rows.old → slice_index_or (gift_rows rows.new) k []
        ≡ slice_index_or (gift_rows rows.old) k [] ++ (if gift.now.to == k then gift.now ∷ [] else [])) }
{
    // By its parts: of the whole, the proof of borrows is not told that it holds a source.
    let Gift { to, from, at } = *gift;
    rows[to].push(Gift { to, from, at })?;
    Ok(())
}

// Puts gifts behind those of their classes.
fn put_all(gifts: &[Gift], rows: &mut [Vec<Gift>]) -> Result<(), AllocError>
    requires none { All (λ row. row ≡ []) (gift_rows rows.old) }
    requires gifts { All (λ g. g.to < length rows.old) gifts.now }
    ensures len { OnOk result (length rows.new ≡ length rows.old) }
    ensures rows { OnOk result ((k : ℕ) → k < length rows.old → slice_index_or (gift_rows rows.new) k [] ≡ filter (λ g. g.to == k) gifts.now) }
{
    for gift in gifts {
        put_gift(rows, gift)?;
    }
    Ok(())
}

/// What is given to each of so many classes.
pub fn by_class(alloc: Global, places: usize, gifts: &[Gift]) -> Result<Classes, AllocError>
    requires { All (λ g. g.to < places) gifts.now }
    ensures len { IfOk result (λ classes. length classes.rows.items ≡ places) }
    ensures rows { IfOk result (λ classes. (k : ℕ) → k < places
        → slice_index_or (gift_rows classes.rows.items) k [] ≡ filter (λ g. g.to == k) gifts.now) }
{
    let mut rows = no_gifts(alloc, places)?;
    put_all(gifts, &mut rows)?;
    Ok(Classes { rows })
}
