//! What the readers wait for.

use crate::waves::VarKind;
use sv_outside::Place;

/// What is told of a signal up to its name.
#[derive(Clone, Copy)]
pub struct Named<'a> {
    pub kind: VarKind,
    pub width: usize,
    pub code: &'a [u8],
    pub name: &'a [u8],
    pub place: Place,
}

/// What is waited for of a scope, with its name where that was told.
#[derive(Clone, Copy)]
pub enum ScopePart<'a> {
    Kind,
    Name,
    End(&'a [u8]),
}

/// What is waited for of a signal, with what was told of it.
#[derive(Clone, Copy)]
pub enum VarPart<'a> {
    Kind,
    Width(VarKind),
    Code(VarKind, usize),
    Name(VarKind, usize, &'a [u8]),
    /// A word that begins with `[`, or `$end`.
    Range(Named<'a>),
    End(Named<'a>),
}

/// What is waited for among the declarations: an item, or the rest of one.
#[derive(Clone, Copy)]
pub enum Mode<'a> {
    Between,
    Scope(ScopePart<'a>),
    /// The `$end` behind `$upscope`.
    UpEnd,
    Var(VarPart<'a>),
    /// The `$end` behind `$enddefinitions`.
    EndingEnd,
    /// The `$end` of what is skipped.
    Skipping,
}

/// What is waited for behind the declarations.
#[derive(Clone, Copy)]
pub enum Rest<'a> {
    /// An item.
    Between,
    /// The `$end` of what is skipped.
    Skipping,
    /// The code behind bits.
    VectorCode(&'a [u8]),
    /// The code behind a real number.
    RealCode,
}
