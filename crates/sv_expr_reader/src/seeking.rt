//! The first token of an expression that so many expressions hold. The walk through its tokens is one, so a refusal for depth
//! costs the time of the expression. It is a value that each part hands to the next, since then the walk of a list of parts is
//! the same as that of their tokens one after the other.
ghost use Rattle.std.specs.Prelude.{◌≡◌, ◌-◌, ◌^◌, min};
ghost use Rattle.sv_expr_reader.specs.Reading as reading;
ghost use Rattle.sv_expr_reader.specs.Seeking as spec;
ghost use Rattle.sv_tree.specs.Nesting as nesting;
ghost use Rattle.sv_tree.proofs.MadeExprs as made;

use sv_tree::{Expr, Select};

/// A walk through tokens.
#[derive(Clone, Copy)]
pub struct Seek {
    /// How many tokens are passed.
    pub before: usize,
    /// Whether the one behind these is such a token.
    pub found: bool,
}

// Past a token that no further expression holds.
fn token(depth: u8, at: Seek) -> Seek
    ensures { result ≡ spec.seek depth nesting.one at }
{
    if at.found {
        at
    } else if depth == 0 {
        Seek {
            before: at.before,
            found: true,
        }
    } else {
        Seek {
            before: at.before.saturating_add(1),
            found: false,
        }
    }
}

#[tactic(auto, using(crate::proofs::Sought::of_two))]
fn two_tokens(depth: u8, at: Seek) -> Seek
    ensures { result ≡ spec.seek depth nesting.two at }
{
    token(depth, token(depth, at))
}

#[tactic(auto, using(crate::proofs::Sought::of_three))]
fn three_tokens(depth: u8, at: Seek) -> Seek
    ensures { result ≡ spec.seek depth nesting.three at }
{
    token(depth, two_tokens(depth, at))
}

#[cycle(walk)]
fn walk(x: &Expr, depth: u8, at: Seek) -> Seek
    ensures { result ≡ spec.seek depth (nesting.expr_depths x.now) at }
{
    let inside = depth.saturating_sub(1);
    match x {
        Expr::Literal(_) => token(depth, at),
        Expr::Name(_, all) => name(all.as_slice(), depth, at),
        Expr::Paren(_, inner) => {
            let behind = walk(inner.get(), inside, token(inside, at));
            token(inside, behind)
        }
        Expr::Concat(_, all) => {
            let behind = parts(all.as_slice(), inside, token(inside, at));
            token(inside, behind)
        }
        Expr::Repeat(_, count, all) => {
            let opened = walk(count.get(), inside, token(inside, at));
            let behind = parts(all.as_slice(), inside, token(inside, opened));
            two_tokens(inside, behind)
        }
        Expr::CastLiteral(_, inner) => {
            let behind = walk(inner.get(), inside, three_tokens(inside, at));
            token(inside, behind)
        }
        Expr::CastName(_, inner) => {
            let behind = walk(inner.get(), inside, three_tokens(inside, at));
            token(inside, behind)
        }
        Expr::CastParen(_, size, inner) => {
            let sized = walk(size.get(), inside, token(inside, at));
            let behind = walk(inner.get(), inside, three_tokens(inside, sized));
            token(inside, behind)
        }
        Expr::CastSign(_, _, inner) => {
            let behind = walk(inner.get(), inside, three_tokens(inside, at));
            token(inside, behind)
        }
        Expr::System(_, _, inner) => {
            let behind = walk(inner.get(), inside, two_tokens(inside, at));
            token(inside, behind)
        }
        Expr::Unary(_, _, operand) => walk(operand.get(), inside, token(inside, at)),
        Expr::Binary(left, _, _, right) => {
            let first = walk(left.get(), inside, at);
            walk(right.get(), inside, token(inside, first))
        }
        Expr::Choose(test, first, second) => {
            let tested = walk(test.get(), inside, at);
            let chosen = walk(first.get(), inside, token(inside, tested));
            walk(second.get(), inside, token(inside, chosen))
        }
    }
}

// A name and its selects.
#[cycle(walk)]
#[tactic(auto, using(crate::proofs::Sought::select_next, crate::proofs::Sought::name_walked, crate::proofs::Sought::nothing_passed))]
fn name(all: &[Select], depth: u8, at: Seek) -> Seek
    ensures { result ≡ spec.seek depth (made.name_nests all.now) at }
{
    if all.is_empty() {
        return token(depth, at);
    }
    let inside = depth.saturating_sub(1);
    let mut behind = token(inside, at);
    for x in all {
        behind = select(x, inside, behind);
    }
    behind
}

// Parts with commas between them.
#[cycle(walk)]
#[tactic(auto, using(crate::proofs::Sought::part_next, crate::proofs::Sought::commas_walked, crate::proofs::Sought::nothing_passed))]
fn parts(all: &[Expr], depth: u8, at: Seek) -> Seek
    ensures { result ≡ spec.seek depth (nesting.commas_depths nesting.expr_depths all.now) at }
{
    match all {
        [] => at,
        [first, more @ ..] => {
            let begun = walk(first, depth, at);
            let mut behind = begun;
            for x in more {
                behind = walk(x, depth, token(depth, behind));
            }
            behind
        }
    }
}

#[cycle(walk)]
fn select(x: &Select, depth: u8, at: Seek) -> Seek
    ensures { result ≡ spec.seek depth (nesting.select_depths x.now) at }
{
    match x {
        Select::Member(_, _) => two_tokens(depth, at),
        Select::Index(_, place) => {
            let behind = walk(place.get(), depth, token(depth, at));
            token(depth, behind)
        }
        Select::Range(_, first, _, second) => {
            let middle = walk(first.get(), depth, token(depth, at));
            let behind = walk(second.get(), depth, token(depth, middle));
            token(depth, behind)
        }
    }
}

/// The number of the first token of the expression that so many expressions hold.
#[tactic(auto, using(crate::proofs::Sought::found_first))]
pub fn first_at(x: &Expr, depth: u8) -> usize
    ensures { result ≡ min (reading.first_at depth (nesting.expr_depths x.now)) (2 ^ 64 - 1) }
{
    let start = Seek {
        before: 0,
        found: false,
    };
    walk(x, depth, start).before
}
