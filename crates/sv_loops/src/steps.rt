// Steps from one value of a loop's variable to the next, modulo 2 ^ 32 (IEEE 1800-2017, 12.7.1 and 27.4). Steps by one are
// plain sums. `+=` and `-=` are the typed sum of the variable and an expression, so that sizes and signs come from the same
// rules as everywhere; the variable enters it as a constant, for which no name is looked up.
ghost use Rattle.std.specs.Prelude.{◌≡◌, [], Some, true, length, IfOk};
ghost use Rattle.sv_tree.specs.declared.word.Word.{Word};
ghost use Rattle.sv_meaning.specs.Layouts.{number_is};
ghost use Rattle.sv_meaning.specs.Meanings.{Meaning, named};
ghost use Rattle.sv_meaning.specs.Values.{mean};
ghost use Rattle.sv_meaning.specs.Deeds.{index_value, counted, next_value};
ghost use Rattle.sv_typing.specs.Judging.{Judges, IsTyped};
ghost use Rattle.sv_names.specs.Names.{constants_are};
ghost use Rattle.sv_loops.specs.Answers.{Gives};
ghost use Rattle.sv_loops.specs.Steps.{moved_by};

use crate::constants::{index_value, low_bits};
use fourvec::Four;
use items::Items;
use std::alloc::Global;
use sv_names::Names;
use sv_outside::TextErr;
use sv_tree::{Expr, Step, StepMark, StepSign, Word};
use sv_typed::{Arithmetic, Root, Typed};
use sv_typing::{Position, start, typed};

// One more or one less, modulo 2 ^ 32.
fn counted(mark: StepMark, bits: &Four) -> Four
    requires { length bits.now ≡ 32 }
    ensures is { result ≡ counted mark bits.now }
    ensures width { length result ≡ 32 }
{
    let one = Four::new(32, 1, 1);
    match mark {
        StepMark::Inc => bits.add(&one),
        StepMark::Dec => bits.sub(&one),
    }
}

// The variable, as a constant of these bits. Takes no memory.
fn variable(alloc: Global, bits: &Four) -> Typed
    requires { length bits.now ≡ 32 }
    ensures { (word : Word) → let m = named word (Some (number_is bits.now true)) [] in IsTyped m (m.faults true) result }
{
    Typed::named(Root::Number(*bits), Items::new(alloc), true)
}

// The variable and an expression, put together.
fn moved(
    alloc: Global,
    op: Arithmetic,
    bits: &Four,
    x: Result<Typed, TextErr>,
) -> Result<Typed, TextErr>
    requires { length bits.now ≡ 32 }
    ensures { (m : Meaning) (word : Word) → Judges m true x → Judges (moved_by op word bits.now m) true result }
{
    let x = x?;
    Ok(Typed::computed(alloc, op, variable(alloc, bits), x)?)
}

// The next value by `+=` or `-=`.
fn moved_value(
    alloc: Global,
    op: Arithmetic,
    bits: &Four,
    expr: &Expr,
    names: &Names<'_>,
) -> Result<Four, TextErr>
    requires { length bits.now ≡ 32 }
    ensures is { (word : Word) → Gives (index_value (moved_by op word bits.now (mean (constants_are names.now) expr.now))) result }
    ensures width { IfOk result (λ next. length next ≡ 32) }
{
    low_bits(
        start(expr),
        moved(
            alloc,
            op,
            bits,
            typed(alloc, expr, names, Position::Constant),
        ),
    )
}

/// The value that a loop's variable of these 32 bits has after a step, wholly 0 and 1; or why the step is refused: E2,
/// E12, E14, E15, E16, E23 or E25 (12.7.1, 27.4).
pub fn next_value(
    alloc: Global,
    step: &Step,
    bits: &Four,
    names: &Names<'_>,
) -> Result<Four, TextErr>
    requires { length bits.now ≡ 32 }
    ensures is { Gives (next_value (constants_are names.now) bits.now step.now) result }
    ensures width { IfOk result (λ next. length next ≡ 32) }
{
    match step {
        Step::After(_, mark) => Ok(counted(*mark, bits)),
        Step::Before(mark, _) => Ok(counted(*mark, bits)),
        Step::Assign(_, sign, expr) => match *sign {
            StepSign::Set => index_value(alloc, expr, names),
            StepSign::Add => moved_value(alloc, Arithmetic::Add, bits, expr, names),
            StepSign::Sub => moved_value(alloc, Arithmetic::Sub, bits, expr, names),
        },
    }
}
