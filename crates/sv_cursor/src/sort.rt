// What the grammar tells tokens apart by: the keywords, the marks, the names of system functions, identifiers and literals
// (IEEE 1800-2017, 5.5, 5.6 and annex B). A rule compares a small value in place of a text. Words and marks that no rule reads
// are all one sort, `Other`, as the end of the tokens is, since every rule refuses each of them.
use sv_tree::SystemName;

/// A keyword of the grammar (IEEE 1800-2017, annex B).
#[derive(Clone, Copy, PartialEq, Eq)]
pub enum Keyword {
    Module,
    Endmodule,
    Parameter,
    Localparam,
    Int,
    Integer,
    Bit,
    Logic,
    Reg,
    Signed,
    Unsigned,
    Input,
    Output,
    Inout,
    Wire,
    Tri,
    Struct,
    Packed,
    Enum,
    Typedef,
    Genvar,
    Assign,
    Generate,
    Endgenerate,
    For,
    If,
    Else,
    Begin,
    End,
    AlwaysComb,
    AlwaysLatch,
    AlwaysFf,
    Always,
    Posedge,
    Negedge,
    Or,
    Case,
    Casez,
    Endcase,
    Unique,
    Unique0,
    Priority,
    Default,
}

/// A mark of the grammar (IEEE 1800-2017, 5.5).
#[derive(Clone, Copy, PartialEq, Eq)]
pub enum Mark {
    /// `(`
    LeftParen,
    /// `)`
    RightParen,
    /// `[`
    LeftBracket,
    /// `]`
    RightBracket,
    /// `{`
    LeftBrace,
    /// `}`
    RightBrace,
    /// `.`
    Dot,
    /// `,`
    Comma,
    /// `;`
    Semicolon,
    /// `:`
    Colon,
    /// `?`
    Question,
    /// `@`
    At,
    /// `#`
    Hash,
    /// `'`
    Tick,
    /// `=`
    Assign,
    /// `+`
    Plus,
    /// `-`
    Minus,
    /// `*`
    Star,
    /// `/`
    Slash,
    /// `%`
    Percent,
    /// `&`
    And,
    /// `|`
    Or,
    /// `^`
    Xor,
    /// `~`
    Tilde,
    /// `!`
    Not,
    /// `<`
    Less,
    /// `>`
    Greater,
    /// `++`
    Increment,
    /// `--`
    Decrement,
    /// `+=`
    PlusAssign,
    /// `-=`
    MinusAssign,
    /// `**`
    Power,
    /// `==`
    Equal,
    /// `!=`
    NotEqual,
    /// `<=`
    LessEqual,
    /// `>=`
    GreaterEqual,
    /// `<<`
    ShiftLeft,
    /// `>>`
    ShiftRight,
    /// `<<<`
    ArithmeticLeft,
    /// `>>>`
    ArithmeticRight,
    /// `&&`
    AndAnd,
    /// `||`
    OrOr,
    /// `~&`
    TildeAnd,
    /// `~|`
    TildeOr,
    /// `~^`
    TildeXor,
    /// `^~`
    XorTilde,
    /// `->`
    Implies,
    /// `<->`
    Equivalent,
    /// `+:`
    PlusColon,
    /// `-:`
    MinusColon,
}

/// What a token is to the grammar.
#[derive(Clone, Copy)]
pub enum Sort {
    /// The end of the tokens, or a token that no rule reads.
    Other,
    /// A word that is not reserved.
    Id,
    Literal,
    Keyword(Keyword),
    Mark(Mark),
    /// The name of a system function of the grammar.
    System(SystemName),
}
