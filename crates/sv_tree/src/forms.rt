// Types, with their ranges, members and enumerators (IEEE 1800-2017, A.2.1.3, A.2.2.1 and A.2.5). A type is kept as it is
// written: which layout it has depends on constants and on names, so that is found in the crates of the meaning.
use crate::{Expr, Sign, Word};
use items::{Boxed, Items};
use sv_outside::Place;

/// The word of a vector of bits (A.2.2.1, integer_vector_type).
#[derive(Clone, Copy)]
pub enum BitsWord {
    Logic,
    Reg,
}

/// The word of a whole number of 32 bits (A.2.2.1, integer_atom_type).
#[derive(Clone, Copy)]
pub enum WholeWord {
    Int,
    Integer,
}

/// `[` left `:` right `]`, with the place of the `[` (A.2.5, packed_dimension).
pub struct Range {
    pub place: Place,
    pub left: Expr,
    pub right: Expr,
}

impl Drop for Range {
    fn drop(self) {
        let Range {
            place: _,
            left: _,
            right: _,
        } = self;
    }
}

/// An enumerator, and the value that it is given (A.2.2.1, enum_name_declaration).
pub struct EnumLabel {
    pub name: Word,
    pub value: Option<Expr>,
}

impl Drop for EnumLabel {
    fn drop(self) {
        let EnumLabel { name: _, value: _ } = self;
    }
}

/// A type (A.2.2.1, data_type).
#[cycle(form)]
pub enum TypeTree {
    /// A vector of bits, of which the word, the sign or a range is written.
    Vector(Option<BitsWord>, Option<Sign>, Items<Range>),
    /// `integer`
    Integer,
    /// `struct packed`: the sign, one or more members, and the ranges behind the `}`.
    Struct(Option<Sign>, Items<Member>, Items<Range>),
    /// `enum`: the word, sign and range of the base, and one or more enumerators.
    Enum(BitsWord, Option<Sign>, Option<Range>, Items<EnumLabel>),
    /// The name of a type, and the ranges behind it.
    Named(Word, Items<Range>),
}

impl Drop for TypeTree {
    #[cycle(form_drop)]
    fn drop(self) {
        match self {
            TypeTree::Vector(_, _, _) => {}
            TypeTree::Integer => {}
            TypeTree::Struct(_, _, _) => {}
            TypeTree::Enum(_, _, _, _) => {}
            TypeTree::Named(_, _) => {}
        }
    }
}

/// Members of one type (A.2.2.1, struct_union_member).
#[cycle(form)]
pub enum Member {
    /// The type, and one or more names.
    Of(Boxed<TypeTree>, Items<Word>),
}

impl Drop for Member {
    #[cycle(form_drop)]
    fn drop(self) {
        match self {
            Member::Of(_, _) => {}
        }
    }
}

/// `typedef`, a type and its name (A.2.1.3, type_declaration).
pub struct Typedef {
    pub form: TypeTree,
    pub name: Word,
}

impl Drop for Typedef {
    fn drop(self) {
        let Typedef { form: _, name: _ } = self;
    }
}
