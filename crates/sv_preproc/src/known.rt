// What is known between two tokens.
use crate::macros::Macros;
use sv_outside::Name;

/// The macros, the files that were read, in order, and how many tokens were counted.
#[derive(Drop)]
pub struct Known {
    pub macros: Macros,
    pub files: Vec<Name>,
    pub counted: usize,
}

/// A conditional that is open: whether the branch round it counts, whether one of its branches was taken, and
/// whether this one is its last.
#[derive(Clone, Copy)]
pub struct Frame {
    pub live: bool,
    pub taken: bool,
    pub last: bool,
}
