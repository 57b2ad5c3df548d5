//! For each literal the clauses in which it is watched (watch lists). A list that is walked is moved out as a whole and put back,
//! so that watches can be put into other lists meanwhile.

ghost use Rattle.std.specs.Prelude.{◌≡◌, IfOk, ◌^◌, ◌+◌, ◌*◌, ◌<◌, ◌≤◌, ◌++◌, ◌∷◌, [], OnOk, length, map, slice_set, slice_index_or, take, drop};
ghost use Rattle.std.specs.List.{All};
ghost use Rattle.sat_state.specs.Watch.{code, rows, row_at};

use crate::packed::PackedDim;
use crate::watch::Watch;
use cnf::Dim;
use std::alloc::{AllocError, Global};
use std::mem;

/// Empty lists.
pub fn empty_lists(alloc: Global, count: usize) -> Result<Vec<Vec<Watch>>, AllocError>
    ensures count { IfOk result (λ lists. length (rows lists.items) ≡ count) }
    ensures empty { IfOk result (λ lists. All (λ row. row ≡ []) (rows lists.items)) }
{
    let mut lists = Vec::new(alloc);
    for _ in 0..count {
        lists.push(Vec::new(alloc))?;
    }
    Ok(lists)
}

/// The number of a literal among all, and so of its list: that of its variable twice, and one more where it is negated.
fn number_of(d: Dim) -> usize
    requires { 2 * d.var + 1 < 2 ^ 64 }
    ensures { result ≡ code d }
{
    if d.negated { 2 * d.var + 1 } else { 2 * d.var }
}

/// Takes the list of a literal out, and leaves an empty one.
pub fn take_list(alloc: Global, lists: &mut [Vec<Watch>], d: Dim) -> Vec<Watch>
    requires { 2 * d.var + 1 < length lists.old }
    ensures list { result.items ≡ row_at (rows lists.old) d }
    ensures rest { rows lists.new ≡ slice_set (rows lists.old) (code d) [] }
{
    mem::replace(&mut lists[number_of(d)], Vec::new(alloc))
}

/// Puts the list of a literal in its place.
pub fn put_list(lists: &mut [Vec<Watch>], d: Dim, list: Vec<Watch>)
    requires { 2 * d.var + 1 < length lists.old }
    ensures { rows lists.new ≡ slice_set (rows lists.old) (code d) list.items }
{
    lists[number_of(d)] = list;
}

/// Puts a watch into the list of a literal.
pub fn add_to(lists: &mut [Vec<Watch>], d: PackedDim, watch: Watch) -> Result<(), AllocError>
    requires { 2 * d.var + 1 < length lists.old }
    ensures { OnOk result (rows lists.new ≡ slice_set (rows lists.old) (code d) (row_at (rows lists.old) d ++ watch ∷ [])) }
{
    lists[d.code()].push(watch)?;
    Ok(())
}

/// Takes the watches from `kept` up to `read` out.
pub fn close_gap(list: &mut Vec<Watch>, kept: usize, read: usize)
    requires order { kept ≤ read }
    requires range { read ≤ length list.old.items }
    ensures { list.new.items ≡ take kept list.old.items ++ drop read list.old.items }
{
    let _gap = list.drain(kept..read);
}
