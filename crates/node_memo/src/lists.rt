//! Many lists of numbers, into which numbers are put.

ghost use Rattle.std.specs.Prelude.{◌≡◌, ℕ, ◌<◌, true, [], length, IfOk, OnOk, Contains, slice_index_or};
ghost use Rattle.node_memo.specs.Memos.{rows_in};
ghost use Rattle.node_memo.specs.Lists.{Gains};

use std::alloc::{AllocError, Global};

/// So many empty lists.
pub fn no_lists(alloc: Global, count: usize) -> Result<Vec<Vec<usize>>, AllocError>
    ensures len { IfOk result (λ lists. length lists.items ≡ count) }
    ensures none { IfOk result (λ lists. (k : ℕ) → slice_index_or (rows_in lists.items) k [] ≡ []) }
{
    let mut lists = Vec::new(alloc);
    for _ in 0..count {
        lists.push(Vec::new(alloc))?;
    }
    Ok(lists)
}

/// Puts a number at the end of a list.
pub fn put_number(lists: &mut [Vec<usize>], at: usize, number: usize) -> Result<(), AllocError>
    requires { at < length lists.old }
    ensures gains { OnOk result (Gains (rows_in lists.old) number (rows_in lists.new)) }
    ensures has { OnOk result (Contains (slice_index_or (rows_in lists.new) at []) number) }
{
    lists[at].push(number)?;
    Ok(())
}

fn is_last(list: &[usize], number: usize) -> bool
    ensures { result ≡ true → Contains list.now number }
{
    match list.last() {
        Some(last) => *last == number,
        None => false,
    }
}

/// The same, unless it stands there already.
pub fn put_once(lists: &mut [Vec<usize>], at: usize, number: usize) -> Result<(), AllocError>
    requires { at < length lists.old }
    ensures gains { OnOk result (Gains (rows_in lists.old) number (rows_in lists.new)) }
    ensures has { OnOk result (Contains (slice_index_or (rows_in lists.new) at []) number) }
{
    if is_last(&lists[at], number) {
        return Ok(());
    }
    put_number(lists, at, number)
}

/// Puts a number at the end of a list, if there is such a list.
pub fn put_within(lists: &mut [Vec<usize>], at: usize, number: usize) -> Result<(), AllocError>
    ensures gains { OnOk result (Gains (rows_in lists.old) number (rows_in lists.new)) }
    ensures has { OnOk result (at < length lists.old → Contains (slice_index_or (rows_in lists.new) at []) number) }
{
    if at >= lists.len() {
        return Ok(());
    }
    put_number(lists, at, number)
}
