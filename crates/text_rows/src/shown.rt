// Trees of expressions with parentheses round each operation; parentheses of the text are written as angles. So a row shows how
// operators bind and which parentheses stood in the text, and the two can not be mistaken for each other. What has one part in
// brackets or parentheses is shown by few calls, and what has several parts by a function of its own.
use crate::printed::Printed;
use std::alloc::AllocError;
use sv_tree::{BinaryOp, Expr, RangeMark, Select, Sign, SystemName, UnaryOp};

fn unary(op: UnaryOp) -> &'static [u8] {
    match op {
        UnaryOp::Plus => b"+",
        UnaryOp::Minus => b"-",
        UnaryOp::LogicNot => b"!",
        UnaryOp::Not => b"~",
        UnaryOp::And => b"&",
        UnaryOp::Nand => b"~&",
        UnaryOp::Or => b"|",
        UnaryOp::Nor => b"~|",
        UnaryOp::Xor => b"^",
        UnaryOp::TildeXor => b"~^",
        UnaryOp::XorTilde => b"^~",
    }
}

fn binary(op: BinaryOp) -> &'static [u8] {
    match op {
        BinaryOp::Power => b"**",
        BinaryOp::Mul => b"*",
        BinaryOp::Div => b"/",
        BinaryOp::Rem => b"%",
        BinaryOp::Add => b"+",
        BinaryOp::Sub => b"-",
        BinaryOp::Shl => b"<<",
        BinaryOp::Shr => b">>",
        BinaryOp::Sal => b"<<<",
        BinaryOp::Sar => b">>>",
        BinaryOp::Lt => b"<",
        BinaryOp::Le => b"<=",
        BinaryOp::Gt => b">",
        BinaryOp::Ge => b">=",
        BinaryOp::Eq => b"==",
        BinaryOp::Ne => b"!=",
        BinaryOp::And => b"&",
        BinaryOp::Xor => b"^",
        BinaryOp::TildeXor => b"~^",
        BinaryOp::XorTilde => b"^~",
        BinaryOp::Or => b"|",
        BinaryOp::LogicAnd => b"&&",
        BinaryOp::LogicOr => b"||",
        BinaryOp::Implies => b"->",
        BinaryOp::Equivalent => b"<->",
    }
}

fn range(mark: RangeMark) -> &'static [u8] {
    match mark {
        RangeMark::To => b":",
        RangeMark::Up => b"+:",
        RangeMark::Down => b"-:",
    }
}

fn system(name: SystemName) -> &'static [u8] {
    match name {
        SystemName::Signed => b"$signed",
        SystemName::Unsigned => b"$unsigned",
        SystemName::Clog2 => b"$clog2",
    }
}

fn sign(sign: Sign) -> &'static [u8] {
    match sign {
        Sign::Signed => b"signed",
        Sign::Unsigned => b"unsigned",
    }
}

#[cycle(show)]
fn show_within(open: &[u8], x: &Expr, close: &[u8], out: &mut Printed) -> Result<(), AllocError> {
    out.text(open)?;
    show(x, out)?;
    out.text(close)
}

#[cycle(show)]
fn show_all(open: &[u8], all: &[Expr], out: &mut Printed) -> Result<(), AllocError> {
    let mut before = open;
    for x in all {
        out.text(before)?;
        show(x, out)?;
        before = b",";
    }
    out.text(b"}")?;
    Ok(())
}

#[cycle(show)]
fn show_select(select: &Select, out: &mut Printed) -> Result<(), AllocError> {
    match select {
        Select::Member(_, name) => {
            out.text(b".")?;
            out.text(name.text.bytes())
        }
        Select::Index(_, at) => show_within(b"[", at.get(), b"]", out),
        Select::Range(_, first, mark, last) => {
            show_within(b"[", first.get(), range(*mark), out)?;
            show_within(b"", last.get(), b"]", out)
        }
    }
}

#[cycle(show)]
fn show_selects(all: &[Select], out: &mut Printed) -> Result<(), AllocError> {
    for select in all {
        show_select(select, out)?;
    }
    Ok(())
}

// Two texts, and what stands behind them.
#[cycle(show)]
fn show_behind(
    before: (&[u8], &[u8]),
    open: &[u8],
    x: &Expr,
    close: &[u8],
    out: &mut Printed,
) -> Result<(), AllocError> {
    out.text(before.0)?;
    out.text(before.1)?;
    show_within(open, x, close, out)
}

// What has several parts.
#[cycle(show)]
fn show_parts(x: &Expr, out: &mut Printed) -> Result<(), AllocError> {
    match x {
        Expr::Repeat(_, count, all) => {
            show_within(b"{", count.get(), b"", out)?;
            show_all(b"{", all.as_slice(), out)?;
            out.text(b"}")
        }
        Expr::CastParen(_, size, inner) => {
            show_within(b"<", size.get(), b">'", out)?;
            show_within(b"(", inner.get(), b")", out)
        }
        Expr::Binary(left, op, _, right) => {
            show_within(b"(", left.get(), b" ", out)?;
            show_behind((binary(*op), b""), b" ", right.get(), b")", out)
        }
        Expr::Choose(test, first, second) => {
            show_within(b"(", test.get(), b"?", out)?;
            show_within(b"", first.get(), b"", out)?;
            show_within(b":", second.get(), b")", out)
        }
        _ => Ok(()),
    }
}

#[cycle(show)]
pub fn show(x: &Expr, out: &mut Printed) -> Result<(), AllocError> {
    match x {
        Expr::Literal(word) => out.text(word.text.bytes()),
        Expr::Name(word, all) => {
            out.text(word.text.bytes())?;
            show_selects(all.as_slice(), out)
        }
        Expr::Paren(_, inner) => show_within(b"<", inner.get(), b">", out),
        Expr::Concat(_, all) => show_all(b"{", all.as_slice(), out),
        Expr::CastLiteral(size, inner) => {
            show_behind((size.text.bytes(), b"'"), b"(", inner.get(), b")", out)
        }
        Expr::CastName(size, inner) => {
            show_behind((size.text.bytes(), b"'"), b"(", inner.get(), b")", out)
        }
        Expr::CastSign(word, _, inner) => {
            show_behind((sign(*word), b"'"), b"(", inner.get(), b")", out)
        }
        Expr::System(name, _, inner) => {
            show_behind((system(*name), b""), b"(", inner.get(), b")", out)
        }
        Expr::Unary(op, _, operand) => {
            show_behind((b"(", unary(*op)), b" ", operand.get(), b")", out)
        }
        _ => show_parts(x, out),
    }
}
