//! Operators between expressions, by precedence climbing. A left operand may hold no more than the depth allows, so the loop of
//! operators keeps the height of what it has read: that of the next tree is told from it and from the new operands.
ghost use Rattle.std.specs.Prelude.{◌≡◌, nat_lt};
ghost use Rattle.sv_cursor.specs.Parsers.{Reads, ◌⊗◌, told};
ghost use Rattle.sv_cursor.specs.Tests as tests;
ghost use Rattle.sv_expr_reader.specs.Climbing as climbing;
ghost use Rattle.sv_expr_reader.specs.Heights.{capped};
ghost use Rattle.sv_expr_reader.specs.Nests.{Nests};
ghost use Rattle.sv_expr_reader.specs.Reading as spec;
ghost use Rattle.sv_expr_words.specs.Signs as sign;

use crate::grammar::Grammar;
use crate::nesting::height_over;
use crate::seeking::first_at;
use items::{Boxed, Items, both};
use std::alloc::Global;
use sv_cursor::{Cursor, Mark, ParseErr};
use sv_expr_words::{Joiner, binary_mark, joiner, right_level, strength};
use sv_outside::Place;
use sv_tree::{BinaryOp, Expr, Select};

fn stronger(joiner: Joiner, least: u8) -> Option<Joiner>
    ensures { result ≡ climbing.stronger least joiner }
{
    if strength(joiner) <= least {
        None
    } else {
        Some(joiner)
    }
}

// The operator that comes next, where it is not looser than this level.
fn goes_on(tokens: &Cursor<'_>, least: u8) -> Option<Joiner>
    ensures { result ≡ climbing.goes_on least (told sign.joiner_test tokens.now) }
{
    match joiner(tokens) {
        Some(next) => stronger(next, least),
        None => None,
    }
}

// Whether a left operand of this height is no higher than the depth allows.
#[tactic(auto, using(crate::proofs::Turns::fits))]
fn fits(high: u8, depth: u8) -> bool
    ensures { (x : Expr) → high ≡ capped x → result ≡ nat_lt (spec.height x) depth }
{
    high < depth
}

// What was read from there on lies too deep for one operator more.
#[tactic(auto, using(crate::proofs::Turns::refused_high))]
fn too_high(depth: u8, tokens: &Cursor<'_>, from: &Cursor<'_>, left: &Expr) -> ParseErr
    ensures { result ≡ spec.too_high depth left.now from.now tokens.now }
{
    let before = first_at(left, depth);
    let all = from.left();
    ParseErr::TooDeep(all.saturating_sub(before), tokens.left())
}

impl<F: Fn(Global, &mut Cursor<'_>, u8, u8) -> Result<Expr, ParseErr>> Grammar<F> {
    fn joined(
        &self,
        tokens: &mut Cursor<'_>,
        left: Boxed<Expr>,
        op: BinaryOp,
    ) -> Result<Expr, ParseErr>
        requires { Nests self.now.depth (F.pre self.now.expr) (F.post self.now.expr) }
        ensures { Reads (spec.operated self.now.depth (spec.expr self.now.depth) left (Joiner.Binary op) tokens.old) result tokens.new }
    {
        let place = tokens.mark(binary_mark(op))?;
        let right = self.part(tokens, right_level(op))?;
        Ok(Expr::Binary(left, op, place, right))
    }

    // The `:` of a choice, and the operand behind it.
    fn otherwise(&self, tokens: &mut Cursor<'_>) -> Result<(Place, Boxed<Expr>), ParseErr>
        requires { Nests self.now.depth (F.pre self.now.expr) (F.post self.now.expr) }
        ensures { Reads ((tests.mark Mark.Colon ⊗ spec.expr self.now.depth 1) tokens.old) result tokens.new }
    {
        let colon = tokens.mark(Mark::Colon)?;
        both(colon, self.part(tokens, 1))
    }

    fn chosen(&self, tokens: &mut Cursor<'_>, test: Boxed<Expr>) -> Result<Expr, ParseErr>
        requires { Nests self.now.depth (F.pre self.now.expr) (F.post self.now.expr) }
        ensures { Reads (spec.operated self.now.depth (spec.expr self.now.depth) test Joiner.Choose tokens.old) result tokens.new }
    {
        tokens.mark(Mark::Question)?;
        let first = self.part(tokens, 0)?;
        let (first, (_, second)) = both(first, self.otherwise(tokens))?;
        Ok(Expr::Choose(test, first, second))
    }

    fn operated(
        &self,
        tokens: &mut Cursor<'_>,
        left: Expr,
        joiner: Joiner,
    ) -> Result<Expr, ParseErr>
        requires { Nests self.now.depth (F.pre self.now.expr) (F.post self.now.expr) }
        ensures { Reads (spec.operated self.now.depth (spec.expr self.now.depth) left joiner tokens.old) result tokens.new }
    {
        let left = Boxed::new(self.alloc, left)?;
        match joiner {
            Joiner::Binary(op) => self.joined(tokens, left, op),
            Joiner::Choose => self.chosen(tokens, left),
        }
    }

    fn climb(
        &self,
        tokens: &mut Cursor<'_>,
        least: u8,
        from: &Cursor<'_>,
        mut left: Expr,
    ) -> Result<Expr, ParseErr>
        requires { Nests self.now.depth (F.pre self.now.expr) (F.post self.now.expr) }
        ensures { Reads (spec.climb self.now.depth (spec.expr self.now.depth) least from.now (climbing.turns from.now) left tokens.old) result tokens.new }
    {
        let mut first = None;
        for _turn in 0..from.left() {
            let Some(next) = goes_on(tokens, least) else {
                return Ok(left);
            };
            let high = height_over(&left, first);
            if !fits(high, self.depth) {
                let refusal = too_high(self.depth, tokens, from, &left);
                drop(left);
                return Err(refusal);
            }
            left = self.operated(tokens, left, next)?;
            first = Some(high);
        }
        Ok(left)
    }

    /// An expression of this level or a tighter one.
    #[tactic(auto, unfolding(crate::specs::Reading::level))]
    pub fn level(&self, tokens: &mut Cursor<'_>, least: u8) -> Result<Expr, ParseErr>
        requires { Nests self.now.depth (F.pre self.now.expr) (F.post self.now.expr) }
        ensures { Reads (spec.level self.now.depth (spec.expr self.now.depth) least tokens.old) result tokens.new }
    {
        let from = tokens.copy();
        let first = self.prefix(tokens)?;
        self.climb(tokens, least, &from, first)
    }
}

/// An expression of a level (0 is the loosest, 13 what has no operator between two of its parts), in which fewer than
/// `depth` expressions hold a token. The cursor stands behind it then.
pub fn expr(alloc: Global, tokens: &mut Cursor<'_>, depth: u8, least: u8) -> Result<Expr, ParseErr>
    ensures { Reads (spec.expr depth least tokens.old) result tokens.new }
{
    if depth == 0 {
        return Err(tokens.too_deep());
    }
    Grammar {
        alloc,
        depth: depth - 1,
        expr,
    }
    .level(tokens, least)
}

/// The selects behind the name of a target, a range being the last, in whose expressions fewer than `depth` hold a
/// token. The cursor stands behind them then.
pub fn selects(alloc: Global, tokens: &mut Cursor<'_>, depth: u8) -> Result<Items<Select>, ParseErr>
    ensures { Reads (spec.selects depth (spec.expr depth) tokens.old) result tokens.new }
{
    Grammar { alloc, depth, expr }.selects(tokens)
}
