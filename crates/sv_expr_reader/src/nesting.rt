// How many expressions hold the token of an expression that most hold. The reader needs it where an operator follows, since the
// left operand lies one deeper then. Heights stop at 255, which is more than may be nested, and where a first operand's height
// is known it is taken and not counted again, so that a chain of operators is looked at once.
ghost use Rattle.std.specs.Prelude.{◌≡◌};
ghost use Rattle.sv_expr_reader.specs.Climbing as climbing;
ghost use Rattle.sv_expr_reader.specs.Heights.{capped, capped_all, capped_chain, capped_select, last};

use sv_tree::{Expr, Select};

/// The height, which stops at 255.
#[cycle(height)]
fn height(x: &Expr) -> u8
    ensures { result ≡ capped x.now }
{
    match x {
        Expr::Literal(_) => 0,
        Expr::Name(_, all) => selects_height(all.as_slice()),
        Expr::Paren(_, inner) => height(inner.get()).saturating_add(1),
        Expr::Concat(_, all) => all_height(all.as_slice()).saturating_add(1),
        Expr::Repeat(_, count, all) => {
            let first = height(count.get());
            first.max(all_height(all.as_slice())).saturating_add(1)
        }
        Expr::CastLiteral(_, inner) => height(inner.get()).saturating_add(1),
        Expr::CastName(_, inner) => height(inner.get()).saturating_add(1),
        Expr::CastParen(_, size, inner) => {
            let first = height(size.get());
            first.max(height(inner.get())).saturating_add(1)
        }
        Expr::CastSign(_, _, inner) => height(inner.get()).saturating_add(1),
        Expr::System(_, _, inner) => height(inner.get()).saturating_add(1),
        Expr::Unary(_, _, operand) => height(operand.get()).saturating_add(1),
        Expr::Binary(left, _, _, right) => {
            let first = height(left.get());
            first.max(height(right.get())).saturating_add(1)
        }
        Expr::Choose(test, first, second) => {
            let most = height(test.get()).max(height(first.get()));
            most.max(height(second.get())).saturating_add(1)
        }
    }
}

#[cycle(height)]
#[tactic(auto, using(crate::proofs::Capped::all_next, crate::proofs::Capped::none_yet))]
fn all_height(all: &[Expr]) -> u8
    ensures { result ≡ capped_all all.now }
{
    let mut most = 0;
    for x in all {
        most = most.max(height(x));
    }
    most
}

#[cycle(height)]
fn select_height(x: &Select) -> u8
    ensures { result ≡ capped_select x.now }
{
    match x {
        Select::Member(_, _) => 1,
        Select::Index(_, at) => height(at.get()).saturating_add(1),
        Select::Range(_, first, _, second) => {
            let most = height(first.get());
            most.max(height(second.get())).saturating_add(1)
        }
    }
}

#[cycle(height)]
#[tactic(auto, using(crate::proofs::Capped::chain_next, crate::proofs::Capped::no_select_yet))]
fn selects_height(all: &[Select]) -> u8
    ensures { result ≡ capped_chain all.now }
{
    let mut most = 0;
    for x in all {
        most = most.max(select_height(x));
    }
    most
}

// The height of the operands behind the first operator.
fn last_height(x: &Expr) -> u8
    ensures { result ≡ last x.now }
{
    match x {
        Expr::Binary(_, _, _, right) => height(right.get()),
        Expr::Choose(_, first, second) => {
            let most = height(first.get());
            most.max(height(second.get()))
        }
        Expr::Literal(_) => 0,
        Expr::Name(_, _) => 0,
        Expr::Paren(_, _) => 0,
        Expr::Concat(_, _) => 0,
        Expr::Repeat(_, _, _) => 0,
        Expr::CastLiteral(_, _) => 0,
        Expr::CastName(_, _) => 0,
        Expr::CastParen(_, _, _) => 0,
        Expr::CastSign(_, _, _) => 0,
        Expr::System(_, _, _) => 0,
        Expr::Unary(_, _, _) => 0,
    }
}

/// The height, which stops at 255, where that of the first operand may be known. So an operand is looked at once, however
/// many operators follow.
#[tactic(auto, using(crate::proofs::Raised::raised))]
pub fn height_over(x: &Expr, first: Option<u8>) -> u8
    requires { climbing.IsFirstHeight first x.now }
    ensures { result ≡ capped x.now }
{
    match first {
        Some(first) => first.max(last_height(x)).saturating_add(1),
        None => height(x),
    }
}
