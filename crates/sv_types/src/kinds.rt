// What the type of a parameter makes of its value (IEEE 1800-2017, 6.20.2).
ghost use Rattle.std.specs.Prelude.{◌≤◌};

/// So many bits, 1 to 128, and whether they are signed.
#[derive(Clone, Copy)]
pub struct ParamSize {
    pub width: u8,
    pub signed: bool,
    ghost some: { 1 ≤ width },
    ghost most: { width ≤ 128 },
}

/// What a type makes of a value.
#[derive(Clone, Copy)]
pub enum ParamKind {
    /// It keeps its own size and sign.
    Kept,
    /// It keeps its size and takes a sign.
    Signed(bool),
    /// It is converted to such a size and sign as by an assignment.
    Sized(ParamSize),
}
