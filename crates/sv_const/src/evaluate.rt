// Constants, sizes and selects over the names of a place.
ghost use Rattle.std.specs.Prelude.{◌≡◌, ◌≤◌, max, true, false, IfOk, map};
ghost use Rattle.sv_meaning.specs.Meanings.{Meaning, nowhere};
ghost use Rattle.sv_meaning.specs.Values.{mean, step};
ghost use Rattle.sv_typed.specs.Typed as typed_is;
ghost use Rattle.sv_typing.specs.Judging.{Judges, Fixes};
ghost use Rattle.sv_names.specs.Kinds.{layout_is, IsSound};
ghost use Rattle.sv_names.specs.Names.{names_are, constants_are};
ghost use Rattle.sv_typing.specs.Picks.{rule_faults, rule_scope};
ghost use Rattle.sv_typing.specs.Roots.{JudgesChain};
ghost use Rattle.sv_const.specs.Sizes.{JudgesConstant, JudgesSize};

use std::alloc::Global;
use sv_names::{Cursor, Each, Known, Layout, Names, Size};
use sv_outside::{Place, TextErr, refusals};
use sv_tree::{Expr, Select};
use sv_typed::Typed;
use sv_typing::{Chain, Fixed, IndexRule, Position, chain_behind, fixed, refusal, start, typed};

// The bits at the larger of a width and the own length, with the own sign.
#[tactic(auto, using(sv_typed::proofs::Sound::most_bits))]
fn known_at(width: u8, x: &Typed) -> Known
    requires sound { typed_is.IsSound x.now }
    requires most { width ≤ 128 }
    ensures value { result.value ≡ typed_is.worth x.now nowhere (max width x.now.width) x.now.signed }
    ensures signed { result.signed ≡ x.now.signed }
{
    Known {
        value: x.value(width.max(x.width), x.signed),
        signed: x.signed,
    }
}

// The value of a typed constant at the larger of a width and its own length, or E15 where it begins.
fn constant_of(start: Place, width: u8, x: Result<Typed, TextErr>) -> Result<Known, TextErr>
    requires sound { IfOk x (λ t. typed_is.IsSound t) }
    requires most { width ≤ 128 }
    ensures { (m : Meaning) → m.start ≡ start → Judges m true x → JudgesConstant width m result }
{
    let x = x?;
    let known = known_at(width, &x);
    drop(x);
    if known.value.is_bool() {
        Ok(known)
    } else {
        Err(TextErr::No(refusal(refusals::CONST_UNKNOWN, start)))
    }
}

// The own size of what is typed.
fn size_of(x: Result<Typed, TextErr>) -> Result<Size, TextErr>
    ensures { (m : Meaning) → Judges m false x → JudgesSize m result }
{
    let x = x?;
    let size = Size {
        width: x.width,
        signed: x.signed,
    };
    drop(x);
    Ok(size)
}

/// The value of a constant expression at the larger of a width (0 to 128 bits) and its own length, wholly 0 and 1; or why
/// it is refused: E2, E12, E14, E15, E16, E23 or E25 (IEEE 1800-2017, 11.2.1).
#[tactic(auto, using(sv_typing::proofs::Arms::sound_of_judged))]
pub fn eval_const(
    alloc: Global,
    expr: &Expr,
    names: &Names<'_>,
    width: u8,
) -> Result<Known, TextErr>
    requires { width ≤ 128 }
    ensures { JudgesConstant width (mean (constants_are names.now) expr.now) result }
{
    constant_of(
        start(expr),
        width,
        typed(alloc, expr, names, Position::Constant),
    )
}

/// The value of a constant expression at its own length, wholly 0 and 1; or why it is refused, as for `eval_const`.
pub fn eval_fixed(alloc: Global, expr: &Expr, names: &Names<'_>) -> Result<Fixed, TextErr>
    ensures { Fixes (mean (constants_are names.now) expr.now) result }
{
    fixed(alloc, expr, names)
}

/// The own length and sign of an expression that may name signals; or why it is refused: E2, E12, E14, E15, E16, E23 or
/// E25 (11.6.1, 11.8.1).
pub fn sized(alloc: Global, expr: &Expr, names: &Names<'_>) -> Result<Size, TextErr>
    ensures { JudgesSize (mean (names_are names.now) expr.now) result }
{
    size_of(typed(alloc, expr, names, Position::Free))
}

/// The selects behind what has a layout as parts of its bits, where each index is judged so; or why they are refused:
/// E14 or E23, or one of what an index is refused for.
pub fn select_chain(
    alloc: Global,
    layout: &Layout,
    selects: &[Select],
    names: &Names<'_>,
    rule: IndexRule,
) -> Result<Chain, TextErr>
    requires { IsSound layout.now }
    ensures { JudgesChain (rule_faults rule) (layout_is layout.now) (map (step (rule_scope rule (names_are names.now))) selects.now) result }
{
    chain_behind(alloc, Cursor::Whole(Each::Of(layout)), selects, names, rule)
}
