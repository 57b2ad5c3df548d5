//! One select as a part of what it selects from: a member, an element, or a range of elements, with the place where it begins.
//! What is refused is told first; a function over plain values makes the part, so that few exits hold a tree.
ghost use Rattle.std.specs.Prelude.{◌≡◌, Bool, false, ◌≤◌, ◌*◌, IfOk, IsTrue, List, pos, negsuc, ◌≤ℤ◌, ◌*ℤ◌, unsigned_abs};
ghost use Rattle.fourvec.specs.Bits.{is_known};
ghost use Rattle.sv_outside.specs.declared.refusal.TextErr.TheVariants.{Memory};
ghost use Rattle.sv_tree.specs.declared.exprs.RangeMark.{RangeMark};
ghost use Rattle.sv_tree.specs.declared.exprs.RangeMark.TheVariants as mark;
ghost use Rattle.sv_typed.specs.declared.tree.PickPlace.TheVariants.{Moving};
ghost use Rattle.sv_typed.specs.declared.tree.PickPlace.TheVariants as place_is;
ghost use Rattle.sv_meaning.specs.Faults.{Faults};
ghost use Rattle.sv_meaning.specs.Layouts.{Layout, width};
ghost use Rattle.sv_meaning.specs.Meanings.{Meaning, to_member, to_index, to_range, is_bound};
ghost use Rattle.sv_names.specs.Cursors.{cursor_is, each_is, row_is, CursorIsSound, RowIsSound};
ghost use Rattle.sv_typing.specs.Judging.{Types, IsTyped, Fixes, IsFixed};
ghost use Rattle.sv_typing.specs.Picks.{Leads, offset_of, spot_of};
ghost use Rattle.sv_typing.specs.Ranges.{is_to, each_width, lowest_of};

use crate::constants::both_hold;
use crate::numbers::small;
use crate::position::Fixed;
use crate::ranges::{between_count, lowest, many_count, shift};
use crate::refusals::refusal;
use fourvec::Spot;
use items::{Boxed, both};
use std::alloc::{AllocError, Global};
use sv_names::{Cursor, Each, Row};
use sv_outside::{Place, Refusal, TextErr, refusals};
use sv_tree::RangeMark;
use sv_typed::{Pick, PickPlace, Typed};

/// A member of a structure, or E23.
#[tactic(auto, using(crate::proofs::Steps::member_picks, crate::proofs::Steps::no_member))]
pub(crate) fn member_pick<'a>(
    at: Cursor<'a>,
    place: Place,
    name: &[u8],
) -> Result<(Cursor<'a>, Pick), TextErr>
    requires { CursorIsSound at }
    ensures { (j : Meaning → Faults) → Leads j (cursor_is at.entry) (to_member place name.now) result }
{
    match at.member(name) {
        Some(part) => Ok((
            Cursor::Whole(Each::Of(part.layout)),
            Pick {
                width: part.layout.width,
                constant: true,
                place: PickPlace::Fixed(part.place as i64),
            },
        )),
        None => Err(TextErr::No(refusal(refusals::BAD_SELECT, place))),
    }
}

// How many elements a place lies above the one that an index counts from.
fn offset(row: &Row<'_>, shift: i64) -> i64
    requires row { RowIsSound row.now }
    requires low { negsuc 999 ≤ℤ shift }
    requires high { shift ≤ℤ pos 1000 }
    ensures is { result ≡ offset_of row.now shift }
    ensures most { unsigned_abs result ≤ 4294967296 }
{
    if row.goes_down() {
        shift - row.right
    } else {
        row.right - shift
    }
}

// So many elements in bits.
fn in_bits(elements: i64, each: u8) -> i64
    requires elements { unsigned_abs elements ≤ 4294967296 }
    requires each { each ≤ 128 }
    ensures { result ≡ elements *ℤ pos each }
{
    elements * each as i64
}

// The place of an index, so many elements further on.
fn moving(
    alloc: Global,
    row: &Row<'_>,
    index: Typed,
    shift: i64,
    width: u8,
) -> Result<PickPlace, AllocError>
    requires row { RowIsSound row.now }
    requires low { negsuc 999 ≤ℤ shift }
    requires high { shift ≤ℤ pos 1000 }
    ensures { IfOk result (λ place. place ≡ Moving index (spot_of row.now index.signed shift width)) }
{
    let each = row.each.width();
    let spot = Spot {
        signed: index.signed,
        negate: !row.goes_down(),
        each,
        add: in_bits(offset(row, shift), each),
        width,
    };
    Ok(PickPlace::Moving {
        index: Boxed::new(alloc, index)?,
        spot,
    })
}

/// An element of an array at an index, or E23.
#[tactic(auto, using(crate::proofs::Steps::index_picks, crate::proofs::Steps::index_cause, crate::proofs::Steps::no_row_index))]
pub(crate) fn index_pick<'a>(
    alloc: Global,
    at: Cursor<'a>,
    place: Place,
    index: Result<Typed, TextErr>,
) -> Result<(Cursor<'a>, Pick), TextErr>
    requires { CursorIsSound at }
    ensures { (j : Meaning → Faults) (m : Meaning) → Types m (j m) index → Leads j (cursor_is at.entry) (to_index place m) result }
{
    let index = index?;
    let Some(row) = at.row() else {
        drop(index);
        return Err(TextErr::No(refusal(refusals::BAD_SELECT, place)));
    };
    let width = row.each.width();
    let constant = index.constant;
    let spot = moving(alloc, &row, index, 0, width)?;
    Ok((
        Cursor::Whole(row.each),
        Pick {
            width,
            constant,
            place: spot,
        },
    ))
}

// Where the elements between constant bounds begin.
fn lowest_place(row: &Row<'_>, a: i64, b: i64) -> PickPlace
    requires row { RowIsSound row.now }
    requires b { IsTrue (is_bound b) }
    ensures { result ≡ place_is.Fixed (lowest_of row.now a b *ℤ pos (each_width row.now)) }
{
    PickPlace::Fixed(in_bits(lowest(row, a, b), row.each.width()))
}

/// The elements between constant bounds, or E14 or E23.
#[tactic(auto, using(crate::proofs::Spans::between_left, crate::proofs::Spans::between_right, crate::proofs::Spans::no_row_between))]
pub(crate) fn between_pick<'a>(
    at: Cursor<'a>,
    place: Place,
    left: Result<Fixed, TextErr>,
    right: Result<Fixed, TextErr>,
) -> Result<(Cursor<'a>, Pick), TextErr>
    requires { CursorIsSound at }
    ensures { (j : Meaning → Faults) (m n : Meaning) → Fixes m left → Fixes n right → Leads j (cursor_is at.entry) (to_range place m mark.To n) result }
{
    let left = left?;
    let right = right?;
    let Some(row) = at.row() else {
        return Err(TextErr::No(refusal(refusals::BAD_SELECT, place)));
    };
    between_in(row, place, &left, &right)
}

// The elements of a range between constant bounds.
fn between_in<'a>(
    row: Row<'a>,
    place: Place,
    left: &Fixed,
    right: &Fixed,
) -> Result<(Cursor<'a>, Pick), TextErr>
    requires { RowIsSound row }
    ensures { (j : Meaning → Faults) (m n : Meaning) (x : Layout) (s : Bool) → x ≡ row_is s row.entry → IsFixed m left.now → IsFixed n right.now → Leads j x (to_range place m mark.To n) result }
{
    let Some(a) = small(&left.known.value, left.known.signed) else {
        return Err(TextErr::No(refusal(refusals::WIDTH, place)));
    };
    let Some(b) = small(&right.known.value, right.known.signed) else {
        return Err(TextErr::No(refusal(refusals::WIDTH, place)));
    };
    let count = between_count(place, &row, a, b)?;
    let pick = Pick {
        width: count * row.each.width(),
        constant: both_hold(left.constant, right.constant),
        place: lowest_place(&row, a, b),
    };
    Ok((
        Cursor::Elements {
            signed: false,
            count,
            each: row.each,
        },
        pick,
    ))
}

/// So many elements from a computed one on, or E14 or E23.
#[tactic(auto, using(crate::proofs::Spans::many_left, crate::proofs::Spans::many_right, crate::proofs::Spans::no_row_range))]
pub(crate) fn many_pick<'a>(
    alloc: Global,
    at: Cursor<'a>,
    place: Place,
    mark: RangeMark,
    left: Result<Typed, TextErr>,
    right: Result<Fixed, TextErr>,
) -> Result<(Cursor<'a>, Pick), TextErr>
    requires at { CursorIsSound at }
    requires mark { is_to mark ≡ false }
    ensures { (j : Meaning → Faults) (m n : Meaning) → Types m (j m) left → Fixes n right → Leads j (cursor_is at.entry) (to_range place m mark n) result }
{
    let left = left?;
    let (left, right) = both(left, right)?;
    let Some(row) = at.row() else {
        drop(left);
        return Err(TextErr::No(refusal(refusals::BAD_SELECT, place)));
    };
    many_in(alloc, row, place, mark, left, &right)
}

// So many elements of a range from a computed one on.
fn many_in<'a>(
    alloc: Global,
    row: Row<'a>,
    place: Place,
    mark: RangeMark,
    left: Typed,
    right: &Fixed,
) -> Result<(Cursor<'a>, Pick), TextErr>
    requires row { RowIsSound row }
    requires mark { is_to mark ≡ false }
    ensures { (j : Meaning → Faults) (m n : Meaning) (x : Layout) (s : Bool) → x ≡ row_is s row.entry → IsTyped m (j m) left → IsFixed n right.now → Leads j x (to_range place m mark n) result }
{
    let (left, count) = both(left, many_count(place, &row, &right.known))?;
    let width = count * row.each.width();
    let constant = both_hold(left.constant, right.constant);
    let spot = moving(
        alloc,
        &row,
        left,
        shift(mark, row.goes_down(), count),
        width,
    )?;
    Ok((
        Cursor::Elements {
            signed: false,
            count,
            each: row.each,
        },
        Pick {
            width,
            constant,
            place: spot,
        },
    ))
}
