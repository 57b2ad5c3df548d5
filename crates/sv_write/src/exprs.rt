// Expressions and selects are written (A.8). A tree has its parentheses as nodes of their own, so that none is added here: the
// tokens are just those that spell the tree. The texts of marks stand in tables beside the cycle of expressions, which then has
// one case for each production.
ghost use Rattle.std.specs.Prelude.{◌≡◌};
ghost use Rattle.sv_tree.specs.GrammarExprs as texts;
ghost use Rattle.sv_write.specs.Adds.{Adds};
ghost use Rattle.sv_write.specs.Exprs as spec;
ghost use Rattle.sv_write.specs.Writing as writing;

use crate::lexeme::Writer;
use sv_tree::{BinaryOp, Expr, RangeMark, Select, Sign, SystemName, UnaryOp};

pub fn sign_word(out: &mut Writer, sign: Sign)
    ensures { Adds (writing.key (texts.sign_word sign)) out.old out.new }
{
    match sign {
        Sign::Signed => out.key(b"signed"),
        Sign::Unsigned => out.key(b"unsigned"),
    }
}

fn system_word(out: &mut Writer, called: SystemName)
    ensures { Adds (writing.system (texts.system_word called)) out.old out.new }
{
    match called {
        SystemName::Signed => out.system(b"$signed"),
        SystemName::Unsigned => out.system(b"$unsigned"),
        SystemName::Clog2 => out.system(b"$clog2"),
    }
}

fn unary_mark(op: UnaryOp) -> &'static [u8]
    ensures { result.now ≡ texts.unary_mark op }
{
    match op {
        UnaryOp::Plus => b"+",
        UnaryOp::Minus => b"-",
        UnaryOp::LogicNot => b"!",
        UnaryOp::Not => b"~",
        UnaryOp::And => b"&",
        UnaryOp::Nand => b"~&",
        UnaryOp::Or => b"|",
        UnaryOp::Nor => b"~|",
        UnaryOp::Xor => b"^",
        UnaryOp::TildeXor => b"~^",
        UnaryOp::XorTilde => b"^~",
    }
}

fn binary_mark(op: BinaryOp) -> &'static [u8]
    ensures { result.now ≡ texts.binary_mark op }
{
    match op {
        BinaryOp::Power => b"**",
        BinaryOp::Mul => b"*",
        BinaryOp::Div => b"/",
        BinaryOp::Rem => b"%",
        BinaryOp::Add => b"+",
        BinaryOp::Sub => b"-",
        BinaryOp::Shl => b"<<",
        BinaryOp::Shr => b">>",
        BinaryOp::Sal => b"<<<",
        BinaryOp::Sar => b">>>",
        BinaryOp::Lt => b"<",
        BinaryOp::Le => b"<=",
        BinaryOp::Gt => b">",
        BinaryOp::Ge => b">=",
        BinaryOp::Eq => b"==",
        BinaryOp::Ne => b"!=",
        BinaryOp::And => b"&",
        BinaryOp::Xor => b"^",
        BinaryOp::TildeXor => b"~^",
        BinaryOp::XorTilde => b"^~",
        BinaryOp::Or => b"|",
        BinaryOp::LogicAnd => b"&&",
        BinaryOp::LogicOr => b"||",
        BinaryOp::Implies => b"->",
        BinaryOp::Equivalent => b"<->",
    }
}

fn range_text(range: RangeMark) -> &'static [u8]
    ensures { result.now ≡ texts.range_text range }
{
    match range {
        RangeMark::To => b":",
        RangeMark::Up => b"+:",
        RangeMark::Down => b"-:",
    }
}

// An expression, and the mark behind it.
#[cycle(expr)]
pub fn expr_and_mark(out: &mut Writer, x: &Expr, text: &[u8])
    ensures { Adds (spec.before x.now text.now) out.old out.new }
{
    expr(out, x);
    out.mark(text)
}

#[cycle(expr)]
pub fn in_parens(out: &mut Writer, x: &Expr)
    ensures { Adds (spec.in_parens x.now) out.old out.new }
{
    out.mark(b"(");
    expr_and_mark(out, x, b")")
}

#[cycle(expr)]
fn cast_to(out: &mut Writer, x: &Expr)
    ensures { Adds (spec.cast_to x.now) out.old out.new }
{
    out.mark(b"'");
    in_parens(out, x)
}

#[cycle(expr)]
pub fn exprs(out: &mut Writer, all: &[Expr])
    ensures { Adds (writing.commas spec.write_expr all.now) out.old out.new }
{
    match all {
        [] => {}
        [first, more @ ..] => {
            expr(out, first);
            'parts: for part in more {
                out.mark(b",");
                expr(out, part);
            }
        }
    }
}

#[cycle(expr)]
fn in_braces(out: &mut Writer, all: &[Expr])
    ensures { Adds (spec.in_braces all.now) out.old out.new }
{
    out.mark(b"{");
    exprs(out, all);
    out.mark(b"}")
}

#[cycle(expr)]
pub fn selects(out: &mut Writer, all: &[Select])
    ensures { Adds (writing.each spec.write_select all.now) out.old out.new }
{
    'parts: for part in all {
        select(out, part);
    }
}

#[cycle(expr)]
fn select(out: &mut Writer, x: &Select)
    ensures { Adds (spec.write_select x.now) out.old out.new }
{
    match x {
        Select::Member(_, word) => {
            out.mark(b".");
            out.name(word)
        }
        Select::Index(_, index) => {
            out.mark(b"[");
            expr_and_mark(out, index.get(), b"]")
        }
        Select::Range(_, left, range, right) => {
            out.mark(b"[");
            expr_and_mark(out, left.get(), range_text(*range));
            expr_and_mark(out, right.get(), b"]")
        }
    }
}

/// Writes an expression.
#[cycle(expr)]
pub fn expr(out: &mut Writer, x: &Expr)
    ensures { Adds (spec.write_expr x.now) out.old out.new }
{
    match x {
        Expr::Literal(word) => out.literal(word),
        Expr::Name(word, all) => {
            out.name(word);
            selects(out, all.as_slice())
        }
        Expr::Paren(_, inner) => in_parens(out, inner.get()),
        Expr::Concat(_, parts) => in_braces(out, parts.as_slice()),
        Expr::Repeat(_, count, parts) => {
            out.mark(b"{");
            expr(out, count.get());
            in_braces(out, parts.as_slice());
            out.mark(b"}")
        }
        Expr::CastLiteral(word, inner) => {
            out.literal(word);
            cast_to(out, inner.get())
        }
        Expr::CastName(word, inner) => {
            out.name(word);
            cast_to(out, inner.get())
        }
        Expr::CastParen(_, size, inner) => {
            in_parens(out, size.get());
            cast_to(out, inner.get())
        }
        Expr::CastSign(sign, _, inner) => {
            sign_word(out, *sign);
            cast_to(out, inner.get())
        }
        Expr::System(called, _, inner) => {
            system_word(out, *called);
            in_parens(out, inner.get())
        }
        Expr::Unary(op, _, inner) => {
            out.mark(unary_mark(*op));
            expr(out, inner.get())
        }
        Expr::Binary(left, op, _, right) => {
            expr_and_mark(out, left.get(), binary_mark(*op));
            expr(out, right.get())
        }
        Expr::Choose(test, first, second) => {
            expr_and_mark(out, test.get(), b"?");
            expr_and_mark(out, first.get(), b":");
            expr(out, second.get())
        }
    }
}
