//! What the next token says of the part that it begins or goes on with. Each sort of token is told once, by a match, and the
//! functions on a cursor look at the sort that it keeps, so that no token's text is compared twice. How tightly operators bind
//! (IEEE 1800-2017, table 11-2) stands here too, beside their marks.
ghost use Rattle.std.specs.Prelude.{◌≡◌, ◌≤◌};
ghost use Rattle.sv_cursor.specs.Parsers.{told};
ghost use Rattle.sv_expr_words.specs.Signs as spec;
ghost use Rattle.sv_tree.specs.GrammarExprs as grammar;

use crate::openers::{Joiner, Opener, SelectOpener};
use sv_cursor::{Cursor, Keyword, Mark, Sort};
use sv_tree::{BinaryOp, RangeMark, Sign, UnaryOp};

/// The mark of the operator (A.8.6).
pub fn unary_mark(op: UnaryOp) -> Mark
    ensures { result ≡ spec.unary_name op }
{
    match op {
        UnaryOp::Plus => Mark::Plus,
        UnaryOp::Minus => Mark::Minus,
        UnaryOp::LogicNot => Mark::Not,
        UnaryOp::Not => Mark::Tilde,
        UnaryOp::And => Mark::And,
        UnaryOp::Nand => Mark::TildeAnd,
        UnaryOp::Or => Mark::Or,
        UnaryOp::Nor => Mark::TildeOr,
        UnaryOp::Xor => Mark::Xor,
        UnaryOp::TildeXor => Mark::TildeXor,
        UnaryOp::XorTilde => Mark::XorTilde,
    }
}

/// The mark of the operator (A.8.6).
pub fn binary_mark(op: BinaryOp) -> Mark
    ensures { result ≡ spec.binary_name op }
{
    match op {
        BinaryOp::Power => Mark::Power,
        BinaryOp::Mul => Mark::Star,
        BinaryOp::Div => Mark::Slash,
        BinaryOp::Rem => Mark::Percent,
        BinaryOp::Add => Mark::Plus,
        BinaryOp::Sub => Mark::Minus,
        BinaryOp::Shl => Mark::ShiftLeft,
        BinaryOp::Shr => Mark::ShiftRight,
        BinaryOp::Sal => Mark::ArithmeticLeft,
        BinaryOp::Sar => Mark::ArithmeticRight,
        BinaryOp::Lt => Mark::Less,
        BinaryOp::Le => Mark::LessEqual,
        BinaryOp::Gt => Mark::Greater,
        BinaryOp::Ge => Mark::GreaterEqual,
        BinaryOp::Eq => Mark::Equal,
        BinaryOp::Ne => Mark::NotEqual,
        BinaryOp::And => Mark::And,
        BinaryOp::Xor => Mark::Xor,
        BinaryOp::TildeXor => Mark::TildeXor,
        BinaryOp::XorTilde => Mark::XorTilde,
        BinaryOp::Or => Mark::Or,
        BinaryOp::LogicAnd => Mark::AndAnd,
        BinaryOp::LogicOr => Mark::OrOr,
        BinaryOp::Implies => Mark::Implies,
        BinaryOp::Equivalent => Mark::Equivalent,
    }
}

/// The word of the sign (A.2.2.1).
pub fn sign_keyword(sign: Sign) -> Keyword
    ensures { result ≡ spec.sign_name sign }
{
    match sign {
        Sign::Signed => Keyword::Signed,
        Sign::Unsigned => Keyword::Unsigned,
    }
}

// How tightly the operator binds (table 11-2), 12 for the tightest.
fn binds(op: BinaryOp) -> u8
    ensures value { result ≡ grammar.binds op }
    ensures small { result ≤ 12 }
{
    match op {
        BinaryOp::Implies | BinaryOp::Equivalent => 0,
        BinaryOp::LogicOr => 2,
        BinaryOp::LogicAnd => 3,
        BinaryOp::Or => 4,
        BinaryOp::Xor | BinaryOp::TildeXor | BinaryOp::XorTilde => 5,
        BinaryOp::And => 6,
        BinaryOp::Eq | BinaryOp::Ne => 7,
        BinaryOp::Lt | BinaryOp::Le | BinaryOp::Gt | BinaryOp::Ge => 8,
        BinaryOp::Shl | BinaryOp::Shr | BinaryOp::Sal | BinaryOp::Sar => 9,
        BinaryOp::Add | BinaryOp::Sub => 10,
        BinaryOp::Mul | BinaryOp::Div | BinaryOp::Rem => 11,
        BinaryOp::Power => 12,
    }
}

/// The level of the operand at the right.
pub fn right_level(op: BinaryOp) -> u8
    ensures { result ≡ grammar.right_level op }
{
    match op {
        BinaryOp::Implies | BinaryOp::Equivalent => 0,
        _ => binds(op) + 1,
    }
}

/// One more than the level of the expression that is made.
pub fn strength(joiner: Joiner) -> u8
    ensures { result ≡ spec.strength_of (Some joiner) }
{
    match joiner {
        Joiner::Binary(op) => binds(op) + 1,
        Joiner::Choose => 2,
    }
}

fn unary_of(mark: Mark) -> Option<UnaryOp>
    ensures { result ≡ spec.unary_of mark }
{
    match mark {
        Mark::Plus => Some(UnaryOp::Plus),
        Mark::Minus => Some(UnaryOp::Minus),
        Mark::Not => Some(UnaryOp::LogicNot),
        Mark::Tilde => Some(UnaryOp::Not),
        Mark::And => Some(UnaryOp::And),
        Mark::TildeAnd => Some(UnaryOp::Nand),
        Mark::Or => Some(UnaryOp::Or),
        Mark::TildeOr => Some(UnaryOp::Nor),
        Mark::Xor => Some(UnaryOp::Xor),
        Mark::TildeXor => Some(UnaryOp::TildeXor),
        Mark::XorTilde => Some(UnaryOp::XorTilde),
        _ => None,
    }
}

fn unary_opener(mark: Mark) -> Option<Opener>
    ensures { result ≡ spec.opener_of_unary (spec.unary_of mark) }
{
    match unary_of(mark) {
        Some(op) => Some(Opener::Unary(op)),
        None => None,
    }
}

fn opener_of_mark(mark: Mark) -> Option<Opener>
    ensures { result ≡ spec.opener_of_mark mark }
{
    match mark {
        Mark::LeftParen => Some(Opener::Paren),
        Mark::LeftBrace => Some(Opener::Brace),
        _ => unary_opener(mark),
    }
}

fn opener_of_keyword(word: Keyword) -> Option<Opener>
    ensures { result ≡ spec.opener_of_keyword word }
{
    match word {
        Keyword::Signed => Some(Opener::Sign(Sign::Signed)),
        Keyword::Unsigned => Some(Opener::Sign(Sign::Unsigned)),
        _ => None,
    }
}

fn opener_of(sort: Sort) -> Option<Opener>
    ensures { result ≡ spec.opener sort }
{
    match sort {
        Sort::Other => None,
        Sort::Id => Some(Opener::Name),
        Sort::Literal => Some(Opener::Literal),
        Sort::Keyword(word) => opener_of_keyword(word),
        Sort::Mark(mark) => opener_of_mark(mark),
        Sort::System(name) => Some(Opener::System(name)),
    }
}

fn select_of_mark(mark: Mark) -> Option<SelectOpener>
    ensures { result ≡ spec.select_of_mark mark }
{
    match mark {
        Mark::Dot => Some(SelectOpener::Dot),
        Mark::LeftBracket => Some(SelectOpener::Bracket),
        _ => None,
    }
}

fn select_of(sort: Sort) -> Option<SelectOpener>
    ensures { result ≡ spec.select_opener sort }
{
    match sort {
        Sort::Mark(mark) => select_of_mark(mark),
        _ => None,
    }
}

fn range_of_mark(mark: Mark) -> Option<RangeMark>
    ensures { result ≡ spec.range_of_mark mark }
{
    match mark {
        Mark::Colon => Some(RangeMark::To),
        Mark::PlusColon => Some(RangeMark::Up),
        Mark::MinusColon => Some(RangeMark::Down),
        _ => None,
    }
}

fn range_of(sort: Sort) -> Option<RangeMark>
    ensures { result ≡ spec.range_sign sort }
{
    match sort {
        Sort::Mark(mark) => range_of_mark(mark),
        _ => None,
    }
}

fn binary_of(mark: Mark) -> Option<BinaryOp>
    ensures { result ≡ spec.binary_of mark }
{
    match mark {
        Mark::Power => Some(BinaryOp::Power),
        Mark::Star => Some(BinaryOp::Mul),
        Mark::Slash => Some(BinaryOp::Div),
        Mark::Percent => Some(BinaryOp::Rem),
        Mark::Plus => Some(BinaryOp::Add),
        Mark::Minus => Some(BinaryOp::Sub),
        Mark::ShiftLeft => Some(BinaryOp::Shl),
        Mark::ShiftRight => Some(BinaryOp::Shr),
        Mark::ArithmeticLeft => Some(BinaryOp::Sal),
        Mark::ArithmeticRight => Some(BinaryOp::Sar),
        Mark::Less => Some(BinaryOp::Lt),
        Mark::LessEqual => Some(BinaryOp::Le),
        Mark::Greater => Some(BinaryOp::Gt),
        Mark::GreaterEqual => Some(BinaryOp::Ge),
        Mark::Equal => Some(BinaryOp::Eq),
        Mark::NotEqual => Some(BinaryOp::Ne),
        Mark::And => Some(BinaryOp::And),
        Mark::Xor => Some(BinaryOp::Xor),
        Mark::TildeXor => Some(BinaryOp::TildeXor),
        Mark::XorTilde => Some(BinaryOp::XorTilde),
        Mark::Or => Some(BinaryOp::Or),
        Mark::AndAnd => Some(BinaryOp::LogicAnd),
        Mark::OrOr => Some(BinaryOp::LogicOr),
        Mark::Implies => Some(BinaryOp::Implies),
        Mark::Equivalent => Some(BinaryOp::Equivalent),
        _ => None,
    }
}

fn binary_joiner(mark: Mark) -> Option<Joiner>
    ensures { result ≡ spec.joiner_of_binary (spec.binary_of mark) }
{
    match binary_of(mark) {
        Some(op) => Some(Joiner::Binary(op)),
        None => None,
    }
}

fn joiner_of_mark(mark: Mark) -> Option<Joiner>
    ensures { result ≡ spec.joiner_of_mark mark }
{
    match mark {
        Mark::Question => Some(Joiner::Choose),
        _ => binary_joiner(mark),
    }
}

fn joiner_of(sort: Sort) -> Option<Joiner>
    ensures { result ≡ spec.joiner sort }
{
    match sort {
        Sort::Mark(mark) => joiner_of_mark(mark),
        _ => None,
    }
}

/// What kind of expression begins with the next token, where one may.
#[tactic(auto, using(crate::proofs::First::opener_first))]
pub fn begins(tokens: &Cursor<'_>) -> Option<Opener>
    ensures { result ≡ told spec.opener_test tokens.now }
{
    opener_of(tokens.sort())
}

/// What kind of select the next token opens.
#[tactic(auto, using(crate::proofs::First::select_first))]
pub fn select_opener(tokens: &Cursor<'_>) -> Option<SelectOpener>
    ensures { result ≡ told spec.select_test tokens.now }
{
    select_of(tokens.sort())
}

/// The mark of a range that comes next.
#[tactic(auto, using(crate::proofs::First::range_first))]
pub fn range_mark(tokens: &Cursor<'_>) -> Option<RangeMark>
    ensures { result ≡ told spec.range_test tokens.now }
{
    range_of(tokens.sort())
}

/// The operator that comes next.
#[tactic(auto, using(crate::proofs::First::joiner_first))]
pub fn joiner(tokens: &Cursor<'_>) -> Option<Joiner>
    ensures { result ≡ told spec.joiner_test tokens.now }
{
    joiner_of(tokens.sort())
}
