//! How many elements a range selects, and where they begin (IEEE 1800-2017, 11.5.1). Bounds have 32 bits, so that sums and
//! products of places fit 64 bits and nothing overflows. A range that goes against the declared way is refused before its size
//! is looked at. Places count from the declared right bound, whichever way the declaration goes, so that they are places of
//! bits.
ghost use Rattle.std.specs.Prelude.{◌≡◌, ◌≤◌, ◌*◌, IsTrue, nat_le, pos, unsigned_abs, ◌&&◌, if◌then◌else◌};
ghost use Rattle.fourvec.specs.Bits.{is_known, is_negative};
ghost use Rattle.sv_meaning.specs.Meanings.{goes_along, is_bound, whole};
ghost use Rattle.sv_names.specs.Cursors.{RowIsSound};
ghost use Rattle.sv_typing.specs.Ranges.{is_turned, lowest_of, JudgesBetween, JudgesMany, shift_of};

use crate::numbers::{is_negative, small};
use crate::refusals::refusal;
use sv_names::{Known, Row};
use sv_outside::{Place, TextErr, refusals};
use sv_tree::RangeMark;

// Whether so many elements have no more than 128 bits.
#[tactic(auto, using(crate::proofs::Counts::fits))]
pub(crate) fn fits(count: u64, each: u8) -> bool
    requires { 1 ≤ each }
    ensures is { result ≡ nat_le (count * each) 128 }
    ensures most { IsTrue result → count ≤ 128 }
{
    count <= (128 / each) as u64
}

// Whether constant bounds go the declared way.
fn goes_along(left: i64, right: i64, a: i64, b: i64) -> bool
    ensures { result ≡ goes_along left right a b }
{
    if left == right {
        true
    } else if right < left {
        b <= a
    } else {
        a <= b
    }
}

// How many elements lie from one bound to the other.
pub(crate) fn between_count(place: Place, row: &Row<'_>, a: i64, b: i64) -> Result<u8, TextErr>
    requires row { RowIsSound row.now }
    requires a { IsTrue (is_bound a) }
    requires b { IsTrue (is_bound b) }
    ensures { JudgesBetween place row.now a b result }
{
    let count = a.abs_diff(b) + 1;
    if !goes_along(row.left, row.right, a, b) {
        return Err(TextErr::No(refusal(refusals::BAD_SELECT, place)));
    }
    if fits(count, row.each.width()) {
        Ok(count as u8)
    } else {
        Err(TextErr::No(refusal(refusals::WIDTH, place)))
    }
}

// Whether elements are counted from the declared right bound down to the given one.
#[tactic(auto, unfolding(crate::specs::Ranges::is_turned))]
fn is_turned(row: &Row<'_>, a: i64, b: i64) -> bool
    ensures { result ≡ is_turned row.now a b }
{
    a < b && row.left <= row.right || !row.goes_down()
}

// The least significant element between constant bounds, counted from that of the declared right bound.
pub(crate) fn lowest(row: &Row<'_>, a: i64, b: i64) -> i64
    requires row { RowIsSound row.now }
    requires b { IsTrue (is_bound b) }
    ensures is { result ≡ lowest_of row.now a b }
    ensures most { unsigned_abs result ≤ 4294967296 }
{
    if is_turned(row, a, b) {
        row.right - b
    } else {
        b - row.right
    }
}

// How many elements a number of 32 bits says.
fn small_count(place: Place, row: &Row<'_>, count: i64) -> Result<u8, TextErr>
    requires row { RowIsSound row.now }
    requires count { IsTrue (is_bound count) }
    ensures { JudgesMany place row.now count result }
{
    if count <= 0 {
        return Err(TextErr::No(refusal(refusals::BAD_SELECT, place)));
    }
    if fits(count as u64, row.each.width()) {
        Ok(count as u8)
    } else {
        Err(TextErr::No(refusal(refusals::WIDTH, place)))
    }
}

// The number of the refusal of a width past 32 bits.
fn large_refusal(known: &Known) -> u8
    ensures { result ≡ (if known.now.signed && is_negative known.now.value then 23 else 14) }
{
    if known.signed && is_negative(&known.value) {
        refusals::BAD_SELECT
    } else {
        refusals::WIDTH
    }
}

// How many elements a width says.
pub(crate) fn many_count(place: Place, row: &Row<'_>, known: &Known) -> Result<u8, TextErr>
    requires row { RowIsSound row.now }
    requires known { IsTrue (is_known known.now.value) }
    ensures { JudgesMany place row.now (whole known.now.signed known.now.value) result }
{
    match small(&known.value, known.signed) {
        Some(count) => small_count(place, row, count),
        None => Err(TextErr::No(refusal(large_refusal(known), place))),
    }
}

// How many elements further on a range of so many begins.
pub(crate) fn shift(mark: RangeMark, down: bool, count: u8) -> i64
    ensures is { result ≡ shift_of mark down (pos count) }
    ensures most { unsigned_abs result ≤ 1000 }
{
    match mark {
        RangeMark::Down if down => 1 - count as i64,
        RangeMark::Up if !down => count as i64 - 1,
        _ => 0,
    }
}
