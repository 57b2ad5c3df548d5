// What a token begins.

/// What a token begins of a type.
#[derive(Clone, Copy)]
pub enum TypeOpener {
    /// The word of a vector of bits.
    Word,
    /// The sign of a vector of bits with no word.
    Sign,
    /// The range of a vector of bits with no word and no sign.
    Range,
    Integer,
    Struct,
    Enum,
    Name,
}

/// What a token begins of the type of a parameter.
#[derive(Clone, Copy)]
pub enum ParamOpener {
    /// The word of a whole number.
    Whole,
    /// The word of a vector of bits.
    Word,
    /// The sign of a vector of bits with no word.
    Sign,
    /// The range of a vector of bits with no word and no sign.
    Range,
}

/// What a token begins of a target.
#[derive(Clone, Copy)]
pub enum TargetOpener {
    Name,
    Brace,
}

/// What a token begins of the step of a loop.
#[derive(Clone, Copy)]
pub enum StepOpener {
    /// `++` or `--`
    Mark,
    Name,
}

/// What a token begins of a statement.
#[derive(Clone, Copy)]
pub enum StmtOpener {
    Empty,
    Block,
    /// `if` or `case`, or a word before these.
    Branch,
    For,
    Target,
}

/// What a token begins of an item.
#[derive(Clone, Copy)]
pub enum ItemOpener {
    Net,
    Type,
    Typedef,
    Param,
    Genvar,
    Assign,
    Always,
    Name,
    For,
    If,
    Generate,
}

/// What a token begins behind the name that begins an item.
#[derive(Clone, Copy)]
pub enum TailOpener {
    /// `#`
    Hash,
    /// `[`
    Bracket,
    Name,
}

/// The word of a block.
#[derive(Clone, Copy)]
pub enum AlwaysWord {
    Comb,
    Latch,
    Ff,
    Always,
}

/// What a token begins of a text.
#[derive(Clone, Copy)]
pub enum PartOpener {
    Module,
    Typedef,
    Param,
}
