// The values of parameters (IEEE 1800-2017, 6.20.2). A type is judged by the names of its declaration, once for all parameters that
// it declares, and a value by names of its own, since an override is read where the instance stands. With no type the value keeps its
// own size and sign, with a sign alone its size, and else it is converted as by an assignment, in the wider of both sizes and then cut.
ghost use Rattle.std.specs.Prelude.{◌≡◌, ◌≤◌, true, None, Some, Ok, IfOk, ℤ};
ghost use Rattle.std.specs.Option.{option_copied};
ghost use Rattle.sv_typing.specs.Judging.{Judges, Fixes};
ghost use Rattle.sv_names.specs.Names.{constants_are};
ghost use Rattle.sv_meaning.specs.Faults.{Judged};
ghost use Rattle.sv_meaning.specs.Forms.{has_sign};
ghost use Rattle.sv_meaning.specs.Layouts.{Scope};
ghost use Rattle.sv_meaning.specs.Meanings.{Meaning};
ghost use Rattle.sv_meaning.specs.Params as params;
ghost use Rattle.sv_meaning.specs.Values.{mean};
ghost use Rattle.sv_tree.specs.declared.design.ParamType.TheVariants as param_type;
ghost use Rattle.sv_typed.specs.Typed as typed_is;
ghost use Rattle.sv_types.specs.Types.{JudgesBounds};
ghost use Rattle.sv_types.specs.Values.{JudgesKind, JudgesValue, JudgesWidth, kind_is, sized_in, width_in};

use crate::bounds::Bounds;
use crate::forms::has_sign;
use crate::kinds::{ParamKind, ParamSize};
use crate::ranges::bounds;
use std::alloc::Global;
use sv_const::eval_fixed;
use sv_names::{Known, Names};
use sv_outside::{Place, TextErr, refusals};
use sv_tree::{Expr, ParamBits, ParamType, Range, Sign};
use sv_typed::Typed;
use sv_typing::{Fixed, Position, is_signed, refusal, start, typed};

// A whole number is signed where `unsigned` is not written.
fn is_signed_whole(sign: Option<Sign>) -> bool
    ensures { result ≡ params.is_signed_whole sign }
{
    sign != Some(Sign::Unsigned)
}

// Of the size and the sign of the expression.
fn untyped(fixed: Result<Fixed, TextErr>) -> Result<Known, TextErr>
    ensures { (x : Meaning) → Fixes x fixed → JudgesValue (params.untyped x) result }
{
    let fixed = fixed?;
    Ok(fixed.known)
}

// Of the size of the expression, and of such a sign.
fn with_sign(signed: bool, fixed: Result<Fixed, TextErr>) -> Result<Known, TextErr>
    ensures { (x : Meaning) → Fixes x fixed → JudgesValue (params.with_sign signed x) result }
{
    let fixed = fixed?;
    Ok(Known {
        value: fixed.known.value,
        signed,
    })
}

// Converted to so many bits as by an assignment; or E15 where the expression begins.
#[tactic(auto, using(sv_typed::proofs::Sound::most_bits))]
fn converted(
    start: Place,
    width: u8,
    signed: bool,
    x: Result<Typed, TextErr>,
) -> Result<Known, TextErr>
    requires sound { IfOk x (λ t. typed_is.IsSound t) }
    requires some { 1 ≤ width }
    requires most { width ≤ 128 }
    ensures { (m : Meaning) → m.start ≡ start → Judges m true x → JudgesValue (params.typed width signed m) result }
{
    let x = x?;
    let whole = x.value(width.max(x.width), x.signed);
    let value = whole.slice(0, width);
    if value.is_bool() {
        Ok(Known { value, signed })
    } else {
        Err(TextErr::No(refusal(refusals::CONST_UNKNOWN, start)))
    }
}

// An expression converted to such a size and sign.
fn converted_expr(
    alloc: Global,
    size: ParamSize,
    value: &Expr,
    names: &Names<'_>,
) -> Result<Known, TextErr>
    ensures { JudgesValue (params.typed size.width size.signed (mean (constants_are names.now) value.now)) result }
{
    converted(
        start(value),
        size.width,
        size.signed,
        typed(alloc, value, names, Position::Constant),
    )
}

// The width of a range [n:0], or E14.
fn range_width(place: Place, bounds: Result<Bounds, TextErr>) -> Result<u8, TextErr>
    ensures { (k : Judged (ℤ × ℤ)) → JudgesBounds k bounds → JudgesWidth (width_in place k) result }
{
    let bounds = bounds?;
    if bounds.right == 0 && bounds.left >= 0 && bounds.left < 128 {
        Ok(bounds.left as u8 + 1)
    } else {
        Err(TextErr::No(refusal(refusals::WIDTH, place)))
    }
}

// The bits of a range.
fn in_range(
    alloc: Global,
    range: &Range,
    signed: bool,
    names: &Names<'_>,
) -> Result<ParamKind, TextErr>
    ensures { JudgesKind (sized_in (params.range_width (constants_are names.now) range.now) signed) result }
{
    match range_width(range.place, bounds(alloc, range, names)) {
        Ok(width) => Ok(ParamKind::Sized(ParamSize { width, signed })),
        Err(why) => Err(why),
    }
}

// What a vector without a range makes of a value.
fn plain_kind(word: Option<ParamBits>, sign: Option<Sign>) -> ParamKind
    ensures { (at : Scope) → params.param_kind at (Some (param_type.Bits word sign None)) ≡ Ok (kind_is result) }
{
    match word {
        Some(_) => ParamKind::Sized(ParamSize {
            width: 1,
            signed: has_sign(sign),
        }),
        None => match sign {
            Some(sign) => ParamKind::Signed(is_signed(sign)),
            None => ParamKind::Kept,
        },
    }
}

// What a vector of bits makes of a value.
fn bits_kind(
    alloc: Global,
    word: Option<ParamBits>,
    sign: Option<Sign>,
    range: Option<&Range>,
    names: &Names<'_>,
) -> Result<ParamKind, TextErr>
    ensures { JudgesKind (params.param_kind (constants_are names.now) (Some (param_type.Bits word sign (option_copied range.entry)))) result }
{
    match range {
        Some(range) => in_range(alloc, range, has_sign(sign), names),
        None => Ok(plain_kind(word, sign)),
    }
}

// What a type makes of a value.
fn typed_kind(alloc: Global, form: &ParamType, names: &Names<'_>) -> Result<ParamKind, TextErr>
    ensures { JudgesKind (params.param_kind (constants_are names.now) (Some form.now)) result }
{
    match form {
        ParamType::Whole(_, sign) => Ok(ParamKind::Sized(ParamSize {
            width: 32,
            signed: is_signed_whole(*sign),
        })),
        ParamType::Bits(word, sign, range) => {
            bits_kind(alloc, *word, *sign, range.as_ref(), names)
        }
    }
}

/// What the type of a parameter, if it has one, makes of a value; or E14 for a range other than [n:0], or what its bounds are refused
/// for.
pub fn param_kind(
    alloc: Global,
    form: Option<&ParamType>,
    names: &Names<'_>,
) -> Result<ParamKind, TextErr>
    ensures { JudgesKind (params.param_kind (constants_are names.now) (option_copied form.entry)) result }
{
    match form {
        Some(form) => typed_kind(alloc, form, names),
        None => Ok(ParamKind::Kept),
    }
}

/// The value of a parameter of such a kind that an expression gives, which is read at names of its own (those of the instance, for an
/// override); or E15 for a value with unknown bits, or what the expression is refused for.
pub fn param_value(
    alloc: Global,
    kind: ParamKind,
    value: &Expr,
    names: &Names<'_>,
) -> Result<Known, TextErr>
    ensures { JudgesValue (params.value_as (kind_is kind) (mean (constants_are names.now) value.now)) result }
{
    match kind {
        ParamKind::Kept => untyped(eval_fixed(alloc, value, names)),
        ParamKind::Signed(signed) => with_sign(signed, eval_fixed(alloc, value, names)),
        ParamKind::Sized(size) => converted_expr(alloc, size, value, names),
    }
}
