// Where expressions begin.
ghost use Rattle.std.specs.Prelude.{◌≡◌};
ghost use Rattle.sv_meaning.specs.Layouts.{Scope};
ghost use Rattle.sv_meaning.specs.Values.{mean, is_signed_word};

use sv_outside::Place;
use sv_tree::{Expr, Sign};

/// The place of the first token of an expression.
#[tactic(auto, using(crate::proofs::Starts::starts))]
pub fn start(expr: &Expr) -> Place
    ensures { (at : Scope) → (mean at expr.now).start ≡ result }
{
    match expr {
        Expr::Literal(word) | Expr::Name(word, _) => word.place,
        Expr::CastLiteral(word, _) | Expr::CastName(word, _) => word.place,
        Expr::Paren(place, _) | Expr::Concat(place, _) | Expr::Repeat(place, _, _) => *place,
        Expr::CastParen(place, _, _) | Expr::CastSign(_, place, _) => *place,
        Expr::System(_, place, _) | Expr::Unary(_, place, _) => *place,
        Expr::Binary(x, _, _, _) | Expr::Choose(x, _, _) => start(x.get()),
    }
}

/// Whether it is `signed`.
pub fn is_signed(sign: Sign) -> bool
    ensures { result ≡ is_signed_word sign }
{
    match sign {
        Sign::Signed => true,
        Sign::Unsigned => false,
    }
}
