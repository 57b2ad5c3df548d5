//! What is given to classes of joined bits.

ghost use Rattle.std.specs.Prelude.{◌≡◌, Some};
ghost use Rattle.fourvec.specs.Bits.{res_bit};
ghost use Rattle.event_nets.specs.Gifts.{told_with};

use fourvec::Bit;
use svex_arena::Node;

/// Where the value of a bit comes from.
#[derive(Clone, Copy)]
pub enum Source {
    /// The value of a driver.
    Value(Node),
    /// What a wire is set to from outside.
    Stimulus(usize),
}

/// One bit of a value, which is given to a class of joined bits.
#[derive(Clone, Copy)]
pub struct Gift {
    /// The place of the class's first bit.
    pub to: usize,
    pub from: Source,
    /// The place of the bit in the value, counted from the least significant one.
    pub at: u8,
}

/// What two drivers of one bit of a wire give together (IEEE 1800-2017, 6.6.1).
pub fn resolved(a: Bit, b: Bit) -> Bit
    ensures { result ≡ res_bit a b }
{
    match a {
        Bit::Floating => b,
        Bit::Unknown => Bit::Unknown,
        Bit::Zero => match b {
            Bit::Floating | Bit::Zero => Bit::Zero,
            _ => Bit::Unknown,
        },
        Bit::One => match b {
            Bit::Floating | Bit::One => Bit::One,
            _ => Bit::Unknown,
        },
    }
}

/// What a class was given so far, with one bit more.
pub fn told_more(told: Option<Bit>, bit: Bit) -> Option<Bit>
    ensures { result ≡ told_with told bit }
{
    match told {
        None => Some(bit),
        Some(so_far) => Some(resolved(so_far, bit)),
    }
}
