// Expressions and selects (IEEE 1800-2017, A.8). Parentheses, and the two spellings of one operator, have variants of their
// own, since a tree is tied to the tokens that spell it: from a tree they can be written again. A node keeps the place of its
// operator, word or bracket, where a refusal may have to stand.
use crate::Word;
use items::{Boxed, Items};
use sv_outside::Place;

/// A sign word (A.2.2.1, signing).
#[derive(Clone, Copy, PartialEq, Eq)]
pub enum Sign {
    Signed,
    Unsigned,
}

/// A system function of the grammar (20.5, 20.8.1).
#[derive(Clone, Copy)]
pub enum SystemName {
    /// `$signed`
    Signed,
    /// `$unsigned`
    Unsigned,
    /// `$clog2`
    Clog2,
}

/// An operator on one operand (A.8.6, unary_operator).
#[derive(Clone, Copy)]
pub enum UnaryOp {
    /// `+`
    Plus,
    /// `-`
    Minus,
    /// `!`
    LogicNot,
    /// `~`
    Not,
    /// `&`
    And,
    /// `~&`
    Nand,
    /// `|`
    Or,
    /// `~|`
    Nor,
    /// `^`
    Xor,
    /// `~^`
    TildeXor,
    /// `^~`
    XorTilde,
}

/// An operator between two operands (A.8.6, binary_operator).
#[derive(Clone, Copy)]
pub enum BinaryOp {
    /// `**`
    Power,
    /// `*`
    Mul,
    /// `/`
    Div,
    /// `%`
    Rem,
    /// `+`
    Add,
    /// `-`
    Sub,
    /// `<<`
    Shl,
    /// `>>`
    Shr,
    /// `<<<`
    Sal,
    /// `>>>`
    Sar,
    /// `<`
    Lt,
    /// `<=`
    Le,
    /// `>`
    Gt,
    /// `>=`
    Ge,
    /// `==`
    Eq,
    /// `!=`
    Ne,
    /// `&`
    And,
    /// `^`
    Xor,
    /// `~^`
    TildeXor,
    /// `^~`
    XorTilde,
    /// `|`
    Or,
    /// `&&`
    LogicAnd,
    /// `||`
    LogicOr,
    /// `->`
    Implies,
    /// `<->`
    Equivalent,
}

/// What parts the ends of a range select (A.8.3, part_select_range and indexed_range).
#[derive(Clone, Copy)]
pub enum RangeMark {
    /// `:`
    To,
    /// `+:`
    Up,
    /// `-:`
    Down,
}

/// An expression (A.8.3, expression; A.8.4, primary). A place is that of the operator, the word or the opening bracket.
#[cycle(expr)]
pub enum Expr {
    /// A number (A.8.4, primary_literal).
    Literal(Word),
    /// A name with its selects (A.8.4, hierarchical_identifier and select).
    Name(Word, Items<Select>),
    /// An expression in parentheses.
    Paren(Place, Boxed<Expr>),
    /// One or more parts in braces (A.8.1, concatenation).
    Concat(Place, Items<Expr>),
    /// The count, and the one or more parts that are repeated (A.8.1, multiple_concatenation).
    Repeat(Place, Boxed<Expr>, Items<Expr>),
    /// A cast to the size that a literal gives (A.8.4, cast).
    CastLiteral(Word, Boxed<Expr>),
    /// A cast to the size or the type that a name gives (A.8.4, cast).
    CastName(Word, Boxed<Expr>),
    /// A cast to the size in parentheses, which comes first (A.8.4, cast).
    CastParen(Place, Boxed<Expr>, Boxed<Expr>),
    /// A cast to a sign (A.8.4, cast).
    CastSign(Sign, Place, Boxed<Expr>),
    /// A call of a system function (A.8.2, system_tf_call).
    System(SystemName, Place, Boxed<Expr>),
    /// An operator before a primary or again a unary expression.
    Unary(UnaryOp, Place, Boxed<Expr>),
    /// An operator between two expressions.
    Binary(Boxed<Expr>, BinaryOp, Place, Boxed<Expr>),
    /// `? :` (A.8.3, conditional_expression)
    Choose(Boxed<Expr>, Boxed<Expr>, Boxed<Expr>),
}

impl Drop for Expr {
    #[cycle(expr_drop)]
    fn drop(self) {
        match self {
            Expr::Literal(_) => {}
            Expr::Name(_, _) => {}
            Expr::Paren(_, _) => {}
            Expr::Concat(_, _) => {}
            Expr::Repeat(_, _, _) => {}
            Expr::CastLiteral(_, _) => {}
            Expr::CastName(_, _) => {}
            Expr::CastParen(_, _, _) => {}
            Expr::CastSign(_, _, _) => {}
            Expr::System(_, _, _) => {}
            Expr::Unary(_, _, _) => {}
            Expr::Binary(_, _, _, _) => {}
            Expr::Choose(_, _, _) => {}
        }
    }
}

/// A select behind a name (A.8.4, select and bit_select). A place is that of the `.` or the `[`.
#[cycle(expr)]
pub enum Select {
    /// `.` and the name of a member.
    Member(Place, Word),
    /// `[` an index `]`
    Index(Place, Boxed<Expr>),
    /// `[` two expressions with a mark between them `]`, the last of its chain.
    Range(Place, Boxed<Expr>, RangeMark, Boxed<Expr>),
}

impl Drop for Select {
    #[cycle(expr_drop)]
    fn drop(self) {
        match self {
            Select::Member(_, _) => {}
            Select::Index(_, _) => {}
            Select::Range(_, _, _, _) => {}
        }
    }
}
