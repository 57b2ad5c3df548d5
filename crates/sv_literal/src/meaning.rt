// What a literal stands for, and why there is nothing.
use fourvec::Four;
use thiserror::Error;

/// What a literal stands for.
#[derive(Clone, Copy)]
pub struct Literal {
    /// The bits: as many as the size says, 32 without a size, and one of a fill.
    pub value: Four,
    /// Whether a size stands before the `'`.
    pub sized: bool,
    /// Whether it is a decimal number, or an `s` stands behind the `'`.
    pub signed: bool,
    /// Whether it is one of `'0 '1 'x 'z`, which fill the width of their context.
    pub fill: bool,
}

/// Why a text has no value.
#[derive(Clone, Copy, Debug, Error)]
pub enum LitErr {
    /// The text is no literal.
    #[error("the text is no literal")]
    Shape,
    /// The size is 0, or over 128.
    #[error("the size of the literal is 0 or over 128")]
    Wide,
    /// There is no size, and the digits exceed 32 bits, or 31 in a decimal number.
    #[error("the literal needs a size")]
    Range,
}
