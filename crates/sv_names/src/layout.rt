//! Layouts of bits, and what names stand for. A layout keeps its width and its depth beside its form, so that none is ever walked
//! through to find them. What it is made of is shared by all that have its type, so that a net takes the same memory however large
//! its type is. Each type is dropped by a call of its own, since layouts are held across exits.
ghost use Rattle.std.specs.Prelude.{◌≡◌};
ghost use Rattle.sv_meaning.specs.Layouts as m;
ghost use Rattle.sv_names.specs.Kinds.{IsSound, layout_is};

use crate::Shared;
use fourvec::Four;
use items::Items;
use sv_outside::Name;

/// How the bits of a value lie (IEEE 1800-2017, 7.2 and 7.4).
#[cycle(layout)]
pub struct Layout {
    /// How many bits, 1 to 128.
    pub width: u8,
    pub signed: bool,
    /// How many ranges and structures lie in one another, counted to 1,000.
    pub depth: u16,
    pub form: Form,
}

impl Drop for Layout {
    #[cycle(layout_drop)]
    fn drop(self) {
        let Layout {
            width: _,
            signed: _,
            depth: _,
            form: _,
        } = self;
    }
}

/// What a layout is made of.
#[cycle(layout)]
pub enum Form {
    /// One bit.
    Scalar,
    /// A packed range, whose bounds have 32 bits, and the layout of its elements. The element of the right bound is
    /// the least significant.
    Dim {
        left: i64,
        right: i64,
        each: Shared<Layout>,
    },
    /// The members of a packed structure, the first the most significant.
    Members(Shared<Items<Field>>),
}

impl Drop for Form {
    #[cycle(layout_drop)]
    fn drop(self) {
        match self {
            Form::Scalar => {}
            Form::Dim {
                left: _,
                right: _,
                each: _,
            } => {}
            Form::Members(_) => {}
        }
    }
}

/// One bit.
#[tactic(auto, unfolding(sv_meaning::specs::Layouts::depth))]
pub fn scalar(signed: bool) -> Layout
    ensures is { layout_is result ≡ m.scalar signed }
    ensures sound { IsSound result }
{
    Layout {
        width: 1,
        signed,
        depth: 0,
        form: Form::Scalar,
    }
}

/// A member of a packed structure.
#[cycle(layout)]
pub struct Field {
    pub name: Name,
    pub layout: Layout,
}

impl Drop for Field {
    #[cycle(layout_drop)]
    fn drop(self) {
        let Field { name: _, layout: _ } = self;
    }
}

/// A constant: its bits, and whether it is signed.
#[derive(Clone, Copy)]
pub struct Known {
    pub value: Four,
    pub signed: bool,
}

/// The length of an expression in bits, 1 to 128, and its sign (11.6.1, 11.8.1).
#[derive(Clone, Copy)]
pub struct Size {
    pub width: u8,
    pub signed: bool,
}

/// What a name stands for.
pub enum What {
    /// A constant.
    Number(Known),
    /// A type.
    Kind(Layout),
    /// A net or variable of the design, by the number of its wire.
    Wire { number: usize, layout: Layout },
    /// A variable of a table, by its number.
    Chosen { number: usize, layout: Layout },
    /// A sample of a table, by its number.
    Sampled { number: usize, layout: Layout },
    /// The variable of generate loops, outside of a turn.
    Genvar,
}

impl Drop for What {
    fn drop(self) {
        match self {
            What::Number(_) => {}
            What::Kind(_) => {}
            What::Wire {
                number: _,
                layout: _,
            } => {}
            What::Chosen {
                number: _,
                layout: _,
            } => {}
            What::Sampled {
                number: _,
                layout: _,
            } => {}
            What::Genvar => {}
        }
    }
}
