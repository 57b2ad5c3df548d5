// Constants that control a loop or a conditional.
ghost use Rattle.std.specs.Prelude.{◌≡◌, ◌<◌, true, length, IfOk};
ghost use Rattle.fourvec.specs.Bits.{first, truth_of};
ghost use Rattle.sv_typed.specs.Typed.{IsSound};
ghost use Rattle.sv_meaning.specs.Meanings.{Meaning};
ghost use Rattle.sv_meaning.specs.Values.{mean};
ghost use Rattle.sv_meaning.specs.Deeds.{index_value, fixed_truth, is_taken};
ghost use Rattle.sv_typing.specs.Judging.{Judges};
ghost use Rattle.sv_names.specs.Names.{constants_are};
ghost use Rattle.sv_loops.specs.Answers.{Gives};

use fourvec::{Bit, Four};
use std::alloc::Global;
use sv_names::Names;
use sv_outside::{Place, TextErr, refusals};
use sv_tree::Expr;
use sv_typed::Typed;
use sv_typing::{Position, refusal, start, typed};

// The low 32 bits of a typed constant that begins at a place, wholly 0 and 1, or E15.
#[tactic(auto, using(sv_typed::proofs::Sound::most_bits, fourvec::proofs::Widths::widths))]
pub(crate) fn low_bits(start: Place, x: Result<Typed, TextErr>) -> Result<Four, TextErr>
    requires { IfOk x (λ t. IsSound t) }
    ensures is { (m : Meaning) → m.start ≡ start → Judges m true x → Gives (index_value m) result }
    ensures width { IfOk result (λ bits. length bits ≡ 32) }
{
    let x = x?;
    let bits = x.value(32u8.max(x.width), x.signed).slice(0, 32);
    if bits.is_bool() {
        Ok(bits)
    } else {
        Err(TextErr::No(refusal(refusals::CONST_UNKNOWN, start)))
    }
}

// Whether some bit is 1.
#[tactic(auto, using(crate::proofs::Values::taken_is, fourvec::proofs::Widths::widths))]
fn is_taken(bits: &Four) -> bool
    ensures { result ≡ is_taken (first (truth_of bits.now)) }
{
    match bits.truth().bit(0) {
        Bit::One => true,
        Bit::Zero | Bit::Unknown | Bit::Floating => false,
    }
}

// Whether a typed constant that begins at a place and is wholly 0 and 1 holds, or E15.
fn truth_of(start: Place, x: Result<Typed, TextErr>) -> Result<bool, TextErr>
    requires { IfOk x (λ t. IsSound t) }
    ensures { (m : Meaning) → m.start ≡ start → Judges m true x → Gives (fixed_truth m) result }
{
    let x = x?;
    let value = x.own();
    if value.is_bool() {
        Ok(is_taken(&value))
    } else {
        Err(TextErr::No(refusal(refusals::CONST_UNKNOWN, start)))
    }
}

/// The 32 bits, wholly 0 and 1, that an expression gives as by an assignment to a signed constant; or why it is refused:
/// E2, E12, E14, E15, E16, E23 or E25 (10.7, 12.7.1).
#[tactic(auto, using(sv_typing::proofs::Arms::sound_of_judged))]
pub fn index_value(alloc: Global, expr: &Expr, names: &Names<'_>) -> Result<Four, TextErr>
    ensures is { Gives (index_value (mean (constants_are names.now) expr.now)) result }
    ensures width { IfOk result (λ bits. length bits ≡ 32) }
{
    low_bits(start(expr), typed(alloc, expr, names, Position::Constant))
}

/// Whether the condition of a loop or of a generate conditional holds, which is constant and wholly 0 and 1; or why it is
/// refused: E2, E12, E14, E15, E16, E23 or E25 (12.7.1, 27.4, 27.5).
#[tactic(auto, using(sv_typing::proofs::Arms::sound_of_judged))]
pub fn condition(alloc: Global, expr: &Expr, names: &Names<'_>) -> Result<bool, TextErr>
    ensures { Gives (fixed_truth (mean (constants_are names.now) expr.now)) result }
{
    truth_of(start(expr), typed(alloc, expr, names, Position::Constant))
}
