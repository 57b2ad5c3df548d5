//! Where a chain of selects stands in a layout: at a whole layout, or at so many elements of one. A select of a range keeps only how
//! many elements it takes, numbered down to 0, so no layout is copied or made on the way.
ghost use Rattle.std.specs.Prelude.{◌≡◌, ◌≤◌, ◌*◌, MatchOption, IsTrue, true, option_map, IfSome, All};
ghost use Rattle.sv_names.specs.Kinds.{layout_is, IsSound, FieldIsSound, members_of};
ghost use Rattle.sv_names.specs.Cursors.{each_is, EachIsSound, cursor_is, CursorIsSound, row_is, IsNoRow, part_is, member_of, RowIsSound};
ghost use Rattle.sv_meaning.specs.Layouts.{width, is_signed, width_all, member_in, goes_down};
ghost use Rattle.sv_meaning.specs.Meanings.{is_bound};

use crate::ranges::goes_down;
use crate::{Field, Form, Layout};

/// A layout: that of a bit of a constant, or one that is declared.
#[derive(Clone, Copy)]
pub enum Each<'a> {
    Bit,
    Of(&'a Layout),
}

/// A layout, or so many elements of one layout, numbered down to 0.
#[derive(Clone, Copy)]
pub enum Cursor<'a> {
    Whole(Each<'a>),
    Elements {
        signed: bool,
        count: u8,
        each: Each<'a>,
    },
}

/// A range of elements of one layout.
#[derive(Clone, Copy)]
pub struct Row<'a> {
    pub left: i64,
    pub right: i64,
    pub each: Each<'a>,
}

/// A member, and where it begins.
#[derive(Clone, Copy)]
pub struct Part<'a> {
    pub place: u8,
    pub layout: &'a Layout,
}

impl<'a> Row<'a> {
    pub fn goes_down(&self) -> bool
        ensures { result ≡ goes_down self.now.left self.now.right }
    {
        goes_down(self.left, self.right)
    }
}

impl<'a> Each<'a> {
    #[tactic(auto, using(crate::proofs::Sound::sound_is, crate::proofs::Sound::sound_some, crate::proofs::Sound::sound_most))]
    pub fn width(&self) -> u8
        requires { EachIsSound self.now }
        ensures is { result ≡ width (each_is self.now) }
        ensures some { 1 ≤ result }
        ensures most { result ≤ 128 }
    {
        match *self {
            Each::Bit => 1,
            Each::Of(layout) => layout.width,
        }
    }
}

impl<'a> Cursor<'a> {
    #[tactic(auto, using(crate::proofs::Sound::sound_is, crate::proofs::Sound::sound_some, crate::proofs::Sound::sound_most, crate::proofs::Sound::some_bits))]
    pub fn width(&self) -> u8
        requires { CursorIsSound self.now }
        ensures is { result ≡ width (cursor_is self.now) }
        ensures some { 1 ≤ result }
        ensures most { result ≤ 128 }
    {
        match *self {
            Cursor::Whole(each) => each.width(),
            Cursor::Elements { count, each, .. } => count * each.width(),
        }
    }

    #[tactic(auto, using(crate::proofs::Sound::sign_is))]
    pub fn is_signed(&self) -> bool
        ensures { result ≡ is_signed (cursor_is self.now) }
    {
        match *self {
            Cursor::Whole(Each::Bit) => false,
            Cursor::Whole(Each::Of(layout)) => layout.signed,
            Cursor::Elements { signed, .. } => signed,
        }
    }

    // Its elements, where it is a range.
    pub fn row(&self) -> Option<Row<'a>>
        requires { CursorIsSound self.now }
        ensures is { MatchOption result (IsNoRow (cursor_is self.now)) (λ row. cursor_is self.now ≡ row_is (is_signed (cursor_is self.now)) row) }
        ensures sound { MatchOption result (IsTrue true) (λ row. RowIsSound row) }
    {
        match *self {
            Cursor::Whole(Each::Bit) => None,
            Cursor::Whole(Each::Of(layout)) => row_of(layout),
            Cursor::Elements { count, each, .. } => Some(Row {
                left: count as i64 - 1,
                right: 0,
                each,
            }),
        }
    }

    // A member of a name, where it is a structure.
    pub fn member(&self, name: &[u8]) -> Option<Part<'a>>
        requires { CursorIsSound self.now }
        ensures is { option_map part_is result ≡ member_of name.now (cursor_is self.now) }
        ensures sound { IfSome result (λ part. IsSound part.layout.now) }
    {
        match *self {
            Cursor::Whole(Each::Of(layout)) => member_in(layout, name),
            Cursor::Whole(Each::Bit) | Cursor::Elements { .. } => None,
        }
    }
}

// The elements of a layout, where it is a range.
#[tactic(auto, using(crate::proofs::Sound::row_of, crate::proofs::Sound::fields_of, crate::proofs::Sound::scalar_of))]
fn row_of<'a>(layout: &'a Layout) -> Option<Row<'a>>
    requires { IsSound layout.now }
    ensures is { MatchOption result (IsNoRow (layout_is layout.now)) (λ row. layout_is layout.now ≡ row_is (is_signed (layout_is layout.now)) row) }
    ensures sound { MatchOption result (IsTrue true) (λ row. RowIsSound row) }
{
    match &layout.form {
        Form::Dim { left, right, each } => Some(Row {
            left: *left,
            right: *right,
            each: Each::Of(each.get()),
        }),
        Form::Scalar => None,
        Form::Members(_) => None,
    }
}

// A member of a layout, where it is a structure.
#[tactic(auto, using(crate::proofs::Sound::fields_of, crate::proofs::Sound::fields_width, crate::proofs::Sound::fields_all, crate::proofs::Sound::no_member, crate::proofs::Sound::no_member_in_row))]
fn member_in<'a>(layout: &'a Layout, name: &[u8]) -> Option<Part<'a>>
    requires { IsSound layout.now }
    ensures is { option_map part_is result ≡ member_of name.now (layout_is layout.now) }
    ensures sound { IfSome result (λ part. IsSound part.layout.now) }
{
    match &layout.form {
        Form::Members(fields) => member_at(fields.get().as_slice(), layout.width, name),
        Form::Scalar => None,
        Form::Dim { .. } => None,
    }
}

// The first member of a name, of members that have so many bits together.
fn member_at<'a>(fields: &'a [Field], width: u8, name: &[u8]) -> Option<Part<'a>>
    requires width { width ≡ width_all (members_of fields.now) }
    requires sound { All FieldIsSound fields.now }
    ensures is { option_map part_is result ≡ member_in name.now (members_of fields.now) }
    ensures sound { IfSome result (λ part. IsSound part.layout.now) }
{
    let mut place = width;
    for field in fields {
        place -= field.layout.width;
        if field.name.bytes() == name {
            return Some(Part {
                place,
                layout: &field.layout,
            });
        }
    }
    None
}
