//! Layouts of packed ranges (IEEE 1800-2017, 7.4.1). Each range is judged over the result of what lies within it, so that the loop
//! from the innermost range outwards keeps one `Result` and has no exit.
ghost use Rattle.std.specs.Prelude.{◌≡◌, ◌≤◌, ◌+◌, ◌*◌, ◌&&◌, ◌==◌, IsTrue, IfOk, ℤ, min, nat_le, nat_lt, false, List, [], ◌∷◌};
ghost use Rattle.std.specs.Option.{option_copied};
ghost use Rattle.sv_typing.specs.Judging.{Fixes};
ghost use Rattle.sv_names.specs.Kinds.{layout_is, IsSound};
ghost use Rattle.sv_names.specs.Names.{constants_are};
ghost use Rattle.sv_meaning.specs.Faults.{Judged, provided};
ghost use Rattle.sv_meaning.specs.Forms.{bound_faults, bound, bounds, over_ranges, vector_layout, option_to_list};
ghost use Rattle.sv_meaning.specs.Layouts as m;
ghost use Rattle.sv_meaning.specs.Meanings.{Meaning, number_of};
ghost use Rattle.sv_types.specs.Types.{JudgesBound, JudgesBounds, JudgesLayout, ranged_form};

use crate::bounds::Bounds;
use crate::depth::MOST_LEVELS;
use std::alloc::{AllocError, Global};
use sv_const::eval_fixed;
use sv_names::{Form, Layout, Names, Shared, scalar};
use sv_outside::{Place, TextErr, refusals};
use sv_tree::{Expr, Range};
use sv_typing::{Fixed, refusal, small};

// A bound of 32 bits, or E14 or E15.
fn bound_of(place: Place, fixed: Result<Fixed, TextErr>) -> Result<i64, TextErr>
    ensures { (x : Meaning) → Fixes x fixed → JudgesBound (provided (bound_faults place x) (number_of x)) result }
{
    let fixed = fixed?;
    match small(&fixed.known.value, fixed.known.signed) {
        Some(number) => Ok(number),
        None => Err(TextErr::No(refusal(refusals::WIDTH, place))),
    }
}

// A bound of a range at a place.
fn bound(alloc: Global, place: Place, expr: &Expr, names: &Names<'_>) -> Result<i64, TextErr>
    ensures { JudgesBound (bound (constants_are names.now) place expr.now) result }
{
    bound_of(place, eval_fixed(alloc, expr, names))
}

/// The bounds of a range; or E14, or what an expression is refused for.
pub(crate) fn bounds(alloc: Global, range: &Range, names: &Names<'_>) -> Result<Bounds, TextErr>
    ensures { JudgesBounds (bounds (constants_are names.now) range.now) result }
{
    let left = bound(alloc, range.place, &range.left, names)?;
    let right = bound(alloc, range.place, &range.right, names)?;
    Ok(Bounds::new(left, right))
}

// Whether so many elements have no more than 128 bits.
#[tactic(auto, using(sv_typing::proofs::Counts::fits))]
fn fits(count: u64, each: u8) -> bool
    requires { 1 ≤ each }
    ensures { result ≡ nat_le (count * each) 128 }
{
    count <= (128 / each) as u64
}

// Whether so many elements of so many bits, nested so deep, make a range: of no more than 128 bits, and not nested too deep.
fn make_range(count: u64, each: u8, levels: u16) -> bool
    requires { 1 ≤ each }
    ensures { result ≡ (nat_le (count * each) 128 && nat_lt levels 1000) }
{
    fits(count, each) && levels < MOST_LEVELS
}

/// A range of elements of no more than 128 bits together.
pub(crate) fn dim(
    alloc: Global,
    signed: bool,
    bounds: Bounds,
    each: Layout,
) -> Result<Layout, AllocError>
    requires sound { IsSound each }
    requires most { m.count_between bounds.left bounds.right * each.width ≤ 128 }
    ensures is { IfOk result (λ x. layout_is x ≡ m.dim signed bounds.left bounds.right (layout_is each)) }
    ensures sound { IfOk result (λ x. IsSound x) }
{
    let width = bounds.count() as u8 * each.width;
    let depth = (each.depth + 1).min(MOST_LEVELS);
    let each = Shared::new(alloc, each)?;
    Ok(Layout {
        width,
        signed,
        depth,
        form: Form::Dim {
            left: bounds.left,
            right: bounds.right,
            each,
        },
    })
}

/// A range of elements; or E14.
pub(crate) fn ranged(
    alloc: Global,
    place: Place,
    signed: bool,
    each: Result<Layout, TextErr>,
    bounds: Result<Bounds, TextErr>,
) -> Result<Layout, TextErr>
    requires sound { IfOk each (λ x. IsSound x) }
    ensures { (j : Judged m.Layout) (k : Judged (ℤ × ℤ)) → JudgesLayout j each → JudgesBounds k bounds → JudgesLayout (ranged_form place signed j k) result }
{
    let bounds = bounds?;
    let each = each?;
    if make_range(bounds.count(), each.width, each.depth) {
        Ok(dim(alloc, signed, bounds, each)?)
    } else {
        Err(TextErr::No(refusal(refusals::WIDTH, place)))
    }
}

// The sign of a range: that of the whole, where it is the outermost.
fn sign_at(signed: bool, at: usize) -> bool
    ensures { result ≡ (signed && (at == 0)) }
{
    signed && at == 0
}

/// Ranges over elements, the outermost first; that one has the sign.
pub(crate) fn over_ranges(
    alloc: Global,
    signed: bool,
    ranges: &[Range],
    names: &Names<'_>,
    each: Layout,
) -> Result<Layout, TextErr>
    requires { IsSound each }
    ensures { JudgesLayout (over_ranges (constants_are names.now) signed ranges.now (layout_is each)) result }
{
    let mut found = Ok(each);
    let mut at = ranges.len();
    'outward: while at > 0 {
        at -= 1;
        let range = &ranges[at];
        found = ranged(
            alloc,
            range.place,
            sign_at(signed, at),
            found,
            bounds(alloc, range, names),
        );
    }
    found
}

/// A vector with these ranges, or one bit.
pub(crate) fn vector_layout(
    alloc: Global,
    signed: bool,
    ranges: &[Range],
    names: &Names<'_>,
) -> Result<Layout, TextErr>
    ensures { JudgesLayout (vector_layout (constants_are names.now) signed ranges.now) result }
{
    if ranges.is_empty() {
        Ok(scalar(signed))
    } else {
        over_ranges(alloc, signed, ranges, names, scalar(false))
    }
}

/// A vector of one range at most, the base of an enumeration.
pub(crate) fn base_layout(
    alloc: Global,
    signed: bool,
    range: Option<&Range>,
    names: &Names<'_>,
) -> Result<Layout, TextErr>
    ensures { JudgesLayout (vector_layout (constants_are names.now) signed (option_to_list (option_copied range.entry))) result }
{
    match range {
        None => Ok(scalar(signed)),
        Some(range) => ranged(
            alloc,
            range.place,
            signed,
            Ok(scalar(false)),
            bounds(alloc, range, names),
        ),
    }
}
