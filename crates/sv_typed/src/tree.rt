//! Typed expressions. A tree keeps of each part its own size, sign and constancy, since a part's context is known only from above;
//! what it is made of is an enum of forms, one for each way in which operands are sized.
use crate::ops::{Arithmetic, Comparison, Logic, Reduction, Shift, Turn};
use fourvec::{Four, Spot};
use items::{Boxed, Items};
use sv_literal::Literal;

/// An expression whose names, sizes, signs and constant positions are resolved.
#[cycle(typed)]
pub struct Typed {
    /// Its own length in bits, 1 to 128 (IEEE 1800-2017, 11.6.1).
    pub width: u8,
    /// Its own sign (11.8.1).
    pub signed: bool,
    /// Whether each of its names is a constant (11.2.1).
    pub constant: bool,
    pub form: TypedForm,
}

impl Drop for Typed {
    #[cycle(typed_drop)]
    fn drop(self) {
        let Typed {
            width: _,
            signed: _,
            constant: _,
            form: _,
        } = self;
    }
}

/// What an expression is made of. An operand in the context has the size and sign of its context (11.6.1), and any other
/// operand is evaluated by itself and extended.
#[cycle(typed)]
pub enum TypedForm {
    /// A literal (5.7.1).
    Literal(Literal),
    /// A constant, net, variable or sample with its selects (11.5.1), the first of which applies to the whole.
    Named { root: Root, picks: Items<Pick> },
    /// An operator on one operand in the context. Parentheses are a unary `+`.
    Turned(Turn, Boxed<Typed>),
    /// An operator of one bit on an operand by itself.
    Reduced(Reduction, Boxed<Typed>),
    /// An operator on two operands in the context.
    Computed(Arithmetic, Boxed<Typed>, Boxed<Typed>),
    /// A shift of an operand in the context by an amount by itself (11.4.10).
    Moved(Shift, Boxed<Typed>, Boxed<Typed>),
    /// A comparison of two operands at their larger size (11.4.4, 11.4.5).
    Compared(Comparison, Boxed<Typed>, Boxed<Typed>),
    /// An operator on the truth of two operands (11.4.7).
    Combined(Logic, Boxed<Typed>, Boxed<Typed>),
    /// `? :` of a condition by itself and two operands in the context (11.4.11).
    Chosen(Boxed<Typed>, Boxed<Typed>, Boxed<Typed>),
    /// An operand in the context to a power, all X where the power is none (11.4.3).
    Power(Boxed<Typed>, Option<u128>),
    /// Parts side by side, the first the most significant (11.4.12).
    Concat(Items<Typed>),
    /// So many copies of parts side by side (11.4.12.1).
    Repeat(u8, Items<Typed>),
    /// A cast to a sign (6.24.1).
    Standing(Boxed<Typed>),
    /// A cast to a size or a type: extended by its own sign, or cut (6.24.1).
    Fitted(Boxed<Typed>),
}

impl Drop for TypedForm {
    #[cycle(typed_drop)]
    fn drop(self) {
        match self {
            TypedForm::Literal(_) => {}
            TypedForm::Named { root: _, picks: _ } => {}
            TypedForm::Turned(_, _) => {}
            TypedForm::Reduced(_, _) => {}
            TypedForm::Computed(_, _, _) => {}
            TypedForm::Moved(_, _, _) => {}
            TypedForm::Compared(_, _, _) => {}
            TypedForm::Combined(_, _, _) => {}
            TypedForm::Chosen(_, _, _) => {}
            TypedForm::Power(_, _) => {}
            TypedForm::Concat(_) => {}
            TypedForm::Repeat(_, _) => {}
            TypedForm::Standing(_) => {}
            TypedForm::Fitted(_) => {}
        }
    }
}

/// What a name stands for.
#[derive(Clone, Copy)]
pub enum Root {
    /// A constant.
    Number(Four),
    /// A signal by its number, so many bits wide, 1 to 128.
    Signal {
        origin: Origin,
        number: usize,
        width: u8,
    },
}

/// Whose a signal is.
#[derive(Clone, Copy)]
pub enum Origin {
    /// A net or variable of the design.
    Wires,
    /// A variable of a table.
    Choice,
    /// A sample of a table.
    Samples,
}

/// A part of what comes before it.
#[cycle(typed)]
pub struct Pick {
    /// How many bits, 1 to 128.
    pub width: u8,
    /// Whether its index is constant.
    pub constant: bool,
    pub place: PickPlace,
}

impl Drop for Pick {
    #[cycle(typed_drop)]
    fn drop(self) {
        let Pick {
            width: _,
            constant: _,
            place: _,
        } = self;
    }
}

/// Where a part begins, the least significant bit being 0. The part reads as X where there is no bit (11.5.1).
#[cycle(typed)]
pub enum PickPlace {
    Fixed(i64),
    /// At the place that an index gives. `spot.width` is the width of the part.
    Moving { index: Boxed<Typed>, spot: Spot },
}

impl Drop for PickPlace {
    #[cycle(typed_drop)]
    fn drop(self) {
        match self {
            PickPlace::Fixed(_) => {}
            PickPlace::Moving { index: _, spot: _ } => {}
        }
    }
}
