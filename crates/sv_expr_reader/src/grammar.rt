// The rules of expressions without operators between two parts, by recursive descent: primaries, selects, casts, braces and
// prefixes (IEEE 1800-2017, A.8). Expressions hold expressions, so the rules that hold them take the reader of those as a
// parameter: each is proved by itself over any reader, and the cycle is closed once, elsewhere. A depth goes down with each
// expression that holds another, so that the recursion ends.
ghost use Rattle.std.specs.Prelude.{◌≡◌, ◌≢◌, Ok, Err, is_some, IfOk, IfErr};
ghost use Rattle.sv_cursor.specs.Parsers as parser;
ghost use Rattle.sv_cursor.specs.Parsers.{Reads, ◌⊗◌};
ghost use Rattle.sv_cursor.specs.Tests as test;
ghost use Rattle.sv_cursor.specs.declared.error.ParseErr.TheVariants.{Memory};
ghost use Rattle.sv_expr_reader.specs.Nests.{Nests};
ghost use Rattle.sv_expr_reader.specs.Reading as spec;
ghost use Rattle.sv_expr_reader.specs.declared.tails.BraceTail.{BraceTail};
ghost use Rattle.sv_expr_words.specs.Signs as sign;
ghost use Rattle.sv_tree.specs.GrammarExprs as grammar;

use crate::gathered::{boxed, keep, with_first};
use crate::tails::{BraceTail, NameTail};
use items::{Boxed, Items, both};
use std::alloc::Global;
use sv_cursor::{Cursor, Mark, ParseErr};
use sv_expr_words::{
    Opener, SelectOpener, begins, range_mark, select_opener, sign_keyword, unary_mark,
};
use sv_outside::Place;
use sv_tree::{Expr, RangeMark, Select, Sign, UnaryOp};

fn is_range(select: &Select) -> bool
    ensures { result ≡ grammar.is_range select.now }
{
    match select {
        Select::Member(_, _) => false,
        Select::Index(_, _) => false,
        Select::Range(_, _, _, _) => true,
    }
}

// What the first part in braces and what was read behind it are together.
fn brace_of(
    alloc: Global,
    place: Place,
    first: Expr,
    tail: Result<BraceTail, ParseErr>,
) -> Result<Expr, ParseErr>
    ensures made { IfOk result (λ x. (t : BraceTail) × (tail ≡ Ok t) × (x ≡ spec.made_brace (place, (first, t)))) }
    ensures failed { IfErr result (λ e. e ≢ Memory → tail ≡ Err e) }
{
    match tail? {
        BraceTail::Copied(all) => {
            let count = Boxed::new(alloc, first)?;
            Ok(Expr::Repeat(place, count, all))
        }
        BraceTail::Followed(more) => {
            let all = with_first(alloc, first, more)?;
            Ok(Expr::Concat(place, all))
        }
    }
}

fn closing_braces(tokens: &mut Cursor<'_>) -> Result<(Place, Place), ParseErr>
    ensures { Reads ((test.mark Mark.RightBrace ⊗ test.mark Mark.RightBrace) tokens.old) result tokens.new }
{
    let inner = tokens.mark(Mark::RightBrace)?;
    both(inner, tokens.mark(Mark::RightBrace))
}

fn sees(tokens: &Cursor<'_>, mark: Mark) -> bool
    ensures { result ≡ is_some (parser.told (test.mark_test mark) tokens.now) }
{
    tokens.peek_mark(mark).is_some()
}

fn sees_select(tokens: &Cursor<'_>) -> bool
    ensures { result ≡ is_some (parser.told sign.select_test tokens.now) }
{
    select_opener(tokens).is_some()
}

// The name of a member, which lies one deeper than what it is a member of.
#[tactic(auto, unfolding(crate::specs::Reading::member))]
fn member(alloc: Global, tokens: &mut Cursor<'_>, depth: u8) -> Result<Select, ParseErr>
    ensures { Reads (spec.member depth (spec.expr depth) tokens.old) result tokens.new }
{
    if depth == 0 {
        return Err(tokens.too_deep());
    }
    let place = tokens.mark(Mark::Dot)?;
    let word = tokens.id(alloc)?;
    Ok(Select::Member(place, word))
}

/// The rules of expressions, over a reader of their parts.
#[derive(Drop)]
pub struct Grammar<F> {
    pub alloc: Global,
    /// How many expressions may hold a part.
    pub depth: u8,
    /// Reads a part to a depth, of a level.
    pub expr: F,
}

impl<F: Fn(Global, &mut Cursor<'_>, u8, u8) -> Result<Expr, ParseErr>> Grammar<F> {
    /// A part of this level.
    pub fn expr(&self, tokens: &mut Cursor<'_>, least: u8) -> Result<Expr, ParseErr>
        requires { Nests self.now.depth (F.pre self.now.expr) (F.post self.now.expr) }
        ensures { Reads (spec.expr self.now.depth least tokens.old) result tokens.new }
    {
        (self.expr)(self.alloc, tokens, self.depth, least)
    }

    /// A part of this level, to be held by what it is a part of.
    pub fn part(&self, tokens: &mut Cursor<'_>, least: u8) -> Result<Boxed<Expr>, ParseErr>
        requires { Nests self.now.depth (F.pre self.now.expr) (F.post self.now.expr) }
        ensures { Reads (spec.expr self.now.depth least tokens.old) result tokens.new }
    {
        boxed(self.alloc, self.expr(tokens, least))
    }

    fn parens(&self, tokens: &mut Cursor<'_>) -> Result<(Place, (Boxed<Expr>, Place)), ParseErr>
        requires { Nests self.now.depth (F.pre self.now.expr) (F.post self.now.expr) }
        ensures { Reads (spec.parens self.now.depth (spec.expr self.now.depth) tokens.old) result tokens.new }
    {
        let open = tokens.mark(Mark::LeftParen)?;
        let inner = self.part(tokens, 0)?;
        both(open, both(inner, tokens.mark(Mark::RightParen)))
    }

    #[tactic(auto, unfolding(crate::specs::Reading::cast))]
    fn cast(&self, tokens: &mut Cursor<'_>) -> Result<Boxed<Expr>, ParseErr>
        requires { Nests self.now.depth (F.pre self.now.expr) (F.post self.now.expr) }
        ensures { Reads (spec.cast self.now.depth (spec.expr self.now.depth) tokens.old) result tokens.new }
    {
        tokens.mark(Mark::Tick)?;
        let (_, (inner, _)) = self.parens(tokens)?;
        Ok(inner)
    }

    // What a literal or parentheses are cast to, where a tick stands behind them.
    fn maybe_cast(&self, tokens: &mut Cursor<'_>) -> Result<Option<Boxed<Expr>>, ParseErr>
        requires { Nests self.now.depth (F.pre self.now.expr) (F.post self.now.expr) }
        ensures { Reads (spec.maybe_cast self.now.depth (spec.expr self.now.depth) tokens.old) result tokens.new }
    {
        match tokens.peek_mark(Mark::Tick) {
            Some(_) => {
                let inner = self.cast(tokens)?;
                Ok(Some(inner))
            }
            None => Ok(None),
        }
    }

    #[tactic(auto, unfolding(crate::specs::Reading::literal))]
    fn literal(&self, tokens: &mut Cursor<'_>) -> Result<Expr, ParseErr>
        requires { Nests self.now.depth (F.pre self.now.expr) (F.post self.now.expr) }
        ensures { Reads (spec.literal self.now.depth (spec.expr self.now.depth) tokens.old) result tokens.new }
    {
        let word = tokens.literal(self.alloc)?;
        match self.maybe_cast(tokens)? {
            Some(inner) => Ok(Expr::CastLiteral(word, inner)),
            None => Ok(Expr::Literal(word)),
        }
    }

    #[tactic(auto, unfolding(crate::specs::Reading::parenthesized))]
    fn parenthesized(&self, tokens: &mut Cursor<'_>) -> Result<Expr, ParseErr>
        requires { Nests self.now.depth (F.pre self.now.expr) (F.post self.now.expr) }
        ensures { Reads (spec.parenthesized self.now.depth (spec.expr self.now.depth) tokens.old) result tokens.new }
    {
        let (place, (size, _)) = self.parens(tokens)?;
        match self.maybe_cast(tokens)? {
            Some(inner) => Ok(Expr::CastParen(place, size, inner)),
            None => Ok(Expr::Paren(place, size)),
        }
    }

    // ---- selects

    #[tactic(auto, unfolding(sv_cursor::specs::Parsers::token))]
    fn maybe_range(
        &self,
        tokens: &mut Cursor<'_>,
    ) -> Result<Option<(RangeMark, Boxed<Expr>)>, ParseErr>
        requires { Nests self.now.depth (F.pre self.now.expr) (F.post self.now.expr) }
        ensures { Reads (spec.maybe_range self.now.depth (spec.expr self.now.depth) tokens.old) result tokens.new }
    {
        match range_mark(tokens) {
            Some(mark) => {
                tokens.skip();
                let last = self.part(tokens, 0)?;
                Ok(Some((mark, last)))
            }
            None => Ok(None),
        }
    }

    // The range of a select, where there is one, and the bracket behind it.
    fn closed_range(
        &self,
        tokens: &mut Cursor<'_>,
    ) -> Result<(Option<(RangeMark, Boxed<Expr>)>, Place), ParseErr>
        requires { Nests self.now.depth (F.pre self.now.expr) (F.post self.now.expr) }
        ensures { Reads ((spec.maybe_range self.now.depth (spec.expr self.now.depth) ⊗ test.mark Mark.RightBracket) tokens.old) result tokens.new }
    {
        let range = self.maybe_range(tokens)?;
        both(range, tokens.mark(Mark::RightBracket))
    }

    #[tactic(auto, unfolding(crate::specs::Reading::bracket))]
    fn bracket(&self, tokens: &mut Cursor<'_>) -> Result<Select, ParseErr>
        requires { Nests self.now.depth (F.pre self.now.expr) (F.post self.now.expr) }
        ensures { Reads (spec.bracket self.now.depth (spec.expr self.now.depth) tokens.old) result tokens.new }
    {
        let place = tokens.mark(Mark::LeftBracket)?;
        let first = self.part(tokens, 0)?;
        let (first, (range, _)) = both(first, self.closed_range(tokens))?;
        match range {
            Some((mark, last)) => Ok(Select::Range(place, first, mark, last)),
            None => Ok(Select::Index(place, first)),
        }
    }

    #[tactic(auto, unfolding(crate::specs::Reading::select))]
    fn select(&self, tokens: &mut Cursor<'_>) -> Result<Select, ParseErr>
        requires { Nests self.now.depth (F.pre self.now.expr) (F.post self.now.expr) }
        ensures { Reads (spec.select self.now.depth (spec.expr self.now.depth) tokens.old) result tokens.new }
    {
        match select_opener(tokens) {
            Some(SelectOpener::Dot) => member(self.alloc, tokens, self.depth),
            Some(SelectOpener::Bracket) => self.bracket(tokens),
            None => Err(tokens.refuse()),
        }
    }

    /// The selects behind a name, a range being the last.
    pub fn selects(&self, tokens: &mut Cursor<'_>) -> Result<Items<Select>, ParseErr>
        requires { Nests self.now.depth (F.pre self.now.expr) (F.post self.now.expr) }
        ensures { Reads (spec.selects self.now.depth (spec.expr self.now.depth) tokens.old) result tokens.new }
    {
        let mut found = Items::new(self.alloc);
        for _turn in 0..tokens.left() {
            if !sees_select(tokens) {
                return Ok(found);
            }
            let select = self.select(tokens)?;
            let last = is_range(&select);
            found.push(select)?;
            if last {
                return Ok(found);
            }
        }
        Ok(found)
    }

    #[tactic(auto, unfolding(crate::specs::Reading::name_tail))]
    fn name_tail(&self, tokens: &mut Cursor<'_>) -> Result<NameTail, ParseErr>
        requires { Nests self.now.depth (F.pre self.now.expr) (F.post self.now.expr) }
        ensures { Reads (spec.name_tail self.now.depth (spec.expr self.now.depth) tokens.old) result tokens.new }
    {
        match tokens.peek_mark(Mark::Tick) {
            Some(_) => {
                let inner = self.cast(tokens)?;
                Ok(NameTail::CastTo(inner))
            }
            None => {
                let all = self.selects(tokens)?;
                Ok(NameTail::Selected(all))
            }
        }
    }

    #[tactic(auto, unfolding(crate::specs::Reading::named))]
    fn named(&self, tokens: &mut Cursor<'_>) -> Result<Expr, ParseErr>
        requires { Nests self.now.depth (F.pre self.now.expr) (F.post self.now.expr) }
        ensures { Reads (spec.named self.now.depth (spec.expr self.now.depth) tokens.old) result tokens.new }
    {
        let word = tokens.id(self.alloc)?;
        match self.name_tail(tokens)? {
            NameTail::CastTo(inner) => Ok(Expr::CastName(word, inner)),
            NameTail::Selected(all) => Ok(Expr::Name(word, all)),
        }
    }

    // ---- braces

    #[tactic(auto, unfolding(crate::specs::Reading::after_comma))]
    fn after_comma(&self, tokens: &mut Cursor<'_>) -> Result<Expr, ParseErr>
        requires { Nests self.now.depth (F.pre self.now.expr) (F.post self.now.expr) }
        ensures { Reads (spec.after_comma self.now.depth (spec.expr self.now.depth) tokens.old) result tokens.new }
    {
        tokens.mark(Mark::Comma)?;
        self.expr(tokens, 0)
    }

    fn more(&self, tokens: &mut Cursor<'_>) -> Result<Items<Expr>, ParseErr>
        requires { Nests self.now.depth (F.pre self.now.expr) (F.post self.now.expr) }
        ensures { Reads (spec.more self.now.depth (spec.expr self.now.depth) tokens.old) result tokens.new }
    {
        let mut found = Items::new(self.alloc);
        for _turn in 0..tokens.left() {
            if !sees(tokens, Mark::Comma) {
                return Ok(found);
            }
            let part = self.after_comma(tokens);
            keep(&mut found, part)?;
        }
        Ok(found)
    }

    fn some(&self, tokens: &mut Cursor<'_>) -> Result<(Expr, Items<Expr>), ParseErr>
        requires { Nests self.now.depth (F.pre self.now.expr) (F.post self.now.expr) }
        ensures { Reads ((spec.expr self.now.depth 0 ⊗ spec.more self.now.depth (spec.expr self.now.depth)) tokens.old) result tokens.new }
    {
        let first = self.expr(tokens, 0)?;
        both(first, self.more(tokens))
    }

    #[tactic(auto, unfolding(crate::specs::Reading::copies))]
    fn copies(&self, tokens: &mut Cursor<'_>) -> Result<Items<Expr>, ParseErr>
        requires { Nests self.now.depth (F.pre self.now.expr) (F.post self.now.expr) }
        ensures { Reads (spec.copies self.now.depth (spec.expr self.now.depth) tokens.old) result tokens.new }
    {
        tokens.mark(Mark::LeftBrace)?;
        let (first, more) = self.some(tokens)?;
        closing_braces(tokens)?;
        let all = with_first(self.alloc, first, more)?;
        Ok(all)
    }

    // The other parts, up to the closing brace.
    fn closed_more(&self, tokens: &mut Cursor<'_>) -> Result<(Items<Expr>, Place), ParseErr>
        requires { Nests self.now.depth (F.pre self.now.expr) (F.post self.now.expr) }
        ensures { Reads (spec.closed_more self.now.depth (spec.expr self.now.depth) tokens.old) result tokens.new }
    {
        let all = self.more(tokens)?;
        both(all, tokens.mark(Mark::RightBrace))
    }

    #[tactic(auto, unfolding(crate::specs::Reading::brace_tail))]
    fn brace_tail(&self, tokens: &mut Cursor<'_>) -> Result<BraceTail, ParseErr>
        requires { Nests self.now.depth (F.pre self.now.expr) (F.post self.now.expr) }
        ensures { Reads (spec.brace_tail self.now.depth (spec.expr self.now.depth) tokens.old) result tokens.new }
    {
        match tokens.peek_mark(Mark::LeftBrace) {
            Some(_) => {
                let all = self.copies(tokens)?;
                Ok(BraceTail::Copied(all))
            }
            None => {
                let (all, _) = self.closed_more(tokens)?;
                Ok(BraceTail::Followed(all))
            }
        }
    }

    #[tactic(auto, unfolding(crate::specs::Reading::braced))]
    fn braced(&self, tokens: &mut Cursor<'_>) -> Result<Expr, ParseErr>
        requires { Nests self.now.depth (F.pre self.now.expr) (F.post self.now.expr) }
        ensures { Reads (spec.braced self.now.depth (spec.expr self.now.depth) tokens.old) result tokens.new }
    {
        let place = tokens.mark(Mark::LeftBrace)?;
        let first = self.expr(tokens, 0)?;
        let tail = self.brace_tail(tokens);
        brace_of(self.alloc, place, first, tail)
    }

    // ---- what has no operator between two of its parts

    #[tactic(auto, unfolding(crate::specs::Reading::cast_sign))]
    fn cast_sign(&self, tokens: &mut Cursor<'_>, sign: Sign) -> Result<Expr, ParseErr>
        requires { Nests self.now.depth (F.pre self.now.expr) (F.post self.now.expr) }
        ensures { Reads (spec.cast_sign self.now.depth (spec.expr self.now.depth) sign tokens.old) result tokens.new }
    {
        let place = tokens.keyword(sign_keyword(sign))?;
        let inner = self.cast(tokens)?;
        Ok(Expr::CastSign(sign, place, inner))
    }

    #[tactic(auto, unfolding(crate::specs::Reading::called))]
    fn called(&self, tokens: &mut Cursor<'_>) -> Result<Expr, ParseErr>
        requires { Nests self.now.depth (F.pre self.now.expr) (F.post self.now.expr) }
        ensures { Reads (spec.called self.now.depth (spec.expr self.now.depth) tokens.old) result tokens.new }
    {
        let (name, place) = tokens.system()?;
        let (_, (inner, _)) = self.parens(tokens)?;
        Ok(Expr::System(name, place, inner))
    }

    #[tactic(auto, unfolding(crate::specs::Reading::prefixed))]
    fn prefixed(&self, tokens: &mut Cursor<'_>, op: UnaryOp) -> Result<Expr, ParseErr>
        requires { Nests self.now.depth (F.pre self.now.expr) (F.post self.now.expr) }
        ensures { Reads (spec.prefixed self.now.depth (spec.expr self.now.depth) op tokens.old) result tokens.new }
    {
        let place = tokens.mark(unary_mark(op))?;
        let operand = self.part(tokens, 13)?;
        Ok(Expr::Unary(op, place, operand))
    }

    /// What has no operator between two of its parts: a primary, or a unary operator and its operand (A.8.4, A.8.3).
    #[tactic(auto, unfolding(crate::specs::Reading::prefix))]
    pub fn prefix(&self, tokens: &mut Cursor<'_>) -> Result<Expr, ParseErr>
        requires { Nests self.now.depth (F.pre self.now.expr) (F.post self.now.expr) }
        ensures { Reads (spec.prefix self.now.depth (spec.expr self.now.depth) tokens.old) result tokens.new }
    {
        match begins(tokens) {
            Some(Opener::Literal) => self.literal(tokens),
            Some(Opener::Name) => self.named(tokens),
            Some(Opener::Paren) => self.parenthesized(tokens),
            Some(Opener::Brace) => self.braced(tokens),
            Some(Opener::Sign(sign)) => self.cast_sign(tokens, sign),
            Some(Opener::System(_)) => self.called(tokens),
            Some(Opener::Unary(op)) => self.prefixed(tokens, op),
            None => Err(tokens.refuse()),
        }
    }
}
