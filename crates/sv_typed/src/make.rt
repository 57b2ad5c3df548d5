//! Nodes made of typed parts. Each call says for which meaning its node stands, given what the parts stand for, so that no other
//! function has to know what a form is worth. Sections are those of IEEE 1800-2017.
ghost use Rattle.std.specs.Prelude.{◌≡◌, ◌≤◌, ◌*◌, IfOk, List, min, nat_abs, length, IsTrue};
ghost use Rattle.std.specs.List.{All, AllZip};
ghost use Rattle.fourvec.specs.Bits.{is_known};
ghost use Rattle.sv_outside.specs.declared.refusal.Place.{Place};
ghost use Rattle.sv_meaning.specs.Faults.{Faults};
ghost use Rattle.sv_meaning.specs.Layouts.{Layout, width as layout_width, is_signed};
ghost use Rattle.sv_meaning.specs.Meanings.{Meaning, from, context_one, context_two, shift, comparison, reduction, logical, chosen, to_sign, to_layout, sized_by, number_of, literal_meaning, concat, repeated, power, log_up, constant_of, nowhere};
ghost use Rattle.sv_typed.specs.Ops.{turned, reduced, computed, moved, compared, combined_truths, pair_meaning};
ghost use Rattle.sv_typed.specs.Typed.{Stands, IsSound, IsWidth, LiteralIsSound, RootIsSound, PickIsSound, own, IsNamed, width_together, picked_width, are_constant, are_constant_picks, root_width, root_is_constant};

use crate::bits::{exponent, log_up, vector};
use crate::{
    Arithmetic, Comparison, Logic, Pair, Pick, Reduction, Root, Shift, Turn, Typed, TypedForm,
};
use fourvec::Four;
use items::{Boxed, Items, both};
use std::alloc::{AllocError, Global};
use sv_literal::Literal;

impl Root {
    /// The width of the whole constant or signal.
    pub fn width(&self) -> u8
        ensures { result ≡ root_width self.now }
    {
        match self {
            Root::Number(value) => value.width(),
            Root::Signal { width, .. } => *width,
        }
    }

    /// Whether it is a constant.
    pub fn is_constant(&self) -> bool
        ensures { result ≡ root_is_constant self.now }
    {
        matches!(self, Root::Number(_))
    }
}

// The width of the last select, or that of what the selects apply to.
#[tactic(auto, using(crate::proofs::Lists::picked_more, crate::proofs::Lists::picked_end))]
fn picked_width(picks: &[Pick], width: u8) -> u8
    ensures { result ≡ picked_width picks.now width }
{
    let mut last = width;
    'picks: for pick in picks {
        last = pick.width;
    }
    last
}

#[tactic(auto, using(crate::proofs::Lists::picks_stop, crate::proofs::Lists::picks_go, crate::proofs::Lists::picks_end))]
fn are_constant_picks(picks: &[Pick]) -> bool
    ensures { result ≡ are_constant_picks picks.now }
{
    'picks: for pick in picks {
        if !pick.constant {
            return false;
        }
    }
    true
}

#[tactic(auto, using(crate::proofs::Lists::constant_stops, crate::proofs::Lists::constant_goes, crate::proofs::Lists::constant_end))]
fn are_constant(parts: &[Typed]) -> bool
    ensures { result ≡ are_constant parts.now }
{
    'parts: for part in parts {
        if !part.constant {
            return false;
        }
    }
    true
}

/// The bits of parts side by side, 255 where there are more.
#[tactic(auto, using(crate::proofs::Lists::width_more, crate::proofs::Lists::width_end))]
pub fn width_together(parts: &[Typed]) -> u8
    ensures { result ≡ min 255 (width_together parts.now) }
{
    let mut width = 0u8;
    'parts: for part in parts {
        width = width.saturating_add(part.width);
    }
    width
}

// Two operands, each in a box of its own.
fn both_boxed(alloc: Global, a: Typed, b: Typed) -> Result<(Boxed<Typed>, Boxed<Typed>), AllocError>
    ensures { IfOk result (λ p. (p.0 ≡ a) × (p.1 ≡ b)) }
{
    let (b, a) = both(b, Boxed::new(alloc, a))?;
    both(a, Boxed::new(alloc, b))
}

impl Typed {
    /// A literal (5.7.1).
    #[tactic(auto, using(crate::proofs::Named::stands_literal, crate::proofs::Sound::sound_literal))]
    pub fn literal(literal: Literal) -> Typed
        ensures stands { (all : Faults) (p : Place) → Stands result (literal_meaning all p literal) }
        ensures sound { LiteralIsSound literal → IsSound result }
    {
        Typed {
            width: literal.value.width(),
            signed: literal.signed,
            constant: true,
            form: TypedForm::Literal(literal),
        }
    }

    /// A constant or a signal with its selects (11.5.1), signed so.
    #[tactic(auto, using(crate::proofs::Named::stands_named, crate::proofs::Sound::sound_named))]
    pub fn named(root: Root, picks: Items<Pick>, signed: bool) -> Typed
        ensures stands { (m : Meaning) → IsNamed root picks signed m → Stands result m }
        ensures sound { RootIsSound root → All PickIsSound picks → IsSound result }
    {
        let width = picked_width(picks.as_slice(), root.width());
        let constant = are_constant_picks(picks.as_slice());
        Typed {
            width,
            signed,
            constant: root.is_constant() && constant,
            form: TypedForm::Named { root, picks },
        }
    }

    /// An operator on one operand in the context. Parentheses are a unary `+`.
    #[tactic(auto, using(crate::proofs::Made::stands_turned, crate::proofs::Sound::sound_turned))]
    pub fn turned(alloc: Global, op: Turn, a: Typed) -> Result<Typed, AllocError>
        ensures stands { IfOk result (λ t. (m : Meaning) (p : Place) → Stands a m → Stands t (from p (context_one (turned op) m))) }
        ensures sound { IfOk result (λ t. IsSound a → IsSound t) }
    {
        Ok(Typed {
            width: a.width,
            signed: a.signed,
            constant: a.constant,
            form: TypedForm::Turned(op, Boxed::new(alloc, a)?),
        })
    }

    /// An operator of one bit on an operand by itself (11.4.7, 11.4.9).
    #[tactic(auto, using(crate::proofs::Made::stands_reduced, crate::proofs::Sound::sound_reduced))]
    pub fn reduced(alloc: Global, op: Reduction, a: Typed) -> Result<Typed, AllocError>
        ensures stands { IfOk result (λ t. (m : Meaning) (p : Place) → Stands a m → Stands t (from p (reduction (reduced op) m))) }
        ensures sound { IfOk result (λ t. IsSound a → IsSound t) }
    {
        Ok(Typed {
            width: 1,
            signed: false,
            constant: a.constant,
            form: TypedForm::Reduced(op, Boxed::new(alloc, a)?),
        })
    }

    /// An operator on two operands in the context.
    #[tactic(auto, using(crate::proofs::Made::stands_computed, crate::proofs::Sound::sound_computed))]
    pub fn computed(alloc: Global, op: Arithmetic, a: Typed, b: Typed) -> Result<Typed, AllocError>
        ensures stands { IfOk result (λ t. (m n : Meaning) → Stands a m → Stands b n → Stands t (context_two (computed op) m n)) }
        ensures sound { IfOk result (λ t. IsSound a → IsSound b → IsSound t) }
    {
        let width = a.width.max(b.width);
        let signed = a.signed && b.signed;
        let constant = a.constant && b.constant;
        let (a, b) = both_boxed(alloc, a, b)?;
        Ok(Typed {
            width,
            signed,
            constant,
            form: TypedForm::Computed(op, a, b),
        })
    }

    /// A shift of an operand in the context by an amount by itself (11.4.10).
    #[tactic(auto, using(crate::proofs::Made::stands_moved, crate::proofs::Sound::sound_moved))]
    pub fn moved(alloc: Global, op: Shift, a: Typed, b: Typed) -> Result<Typed, AllocError>
        ensures stands { IfOk result (λ t. (m n : Meaning) → Stands a m → Stands b n → Stands t (shift (moved op) m n)) }
        ensures sound { IfOk result (λ t. IsSound a → IsSound b → IsSound t) }
    {
        let width = a.width;
        let signed = a.signed;
        let constant = a.constant && b.constant;
        let (a, b) = both_boxed(alloc, a, b)?;
        Ok(Typed {
            width,
            signed,
            constant,
            form: TypedForm::Moved(op, a, b),
        })
    }

    /// A comparison of two operands at their larger size (11.4.4, 11.4.5).
    #[tactic(auto, using(crate::proofs::Made::stands_compared, crate::proofs::Sound::sound_compared))]
    pub fn compared(alloc: Global, op: Comparison, a: Typed, b: Typed) -> Result<Typed, AllocError>
        ensures stands { IfOk result (λ t. (m n : Meaning) → Stands a m → Stands b n → Stands t (comparison (compared op) m n)) }
        ensures sound { IfOk result (λ t. IsSound a → IsSound b → IsSound t) }
    {
        let constant = a.constant && b.constant;
        let (a, b) = both_boxed(alloc, a, b)?;
        Ok(Typed {
            width: 1,
            signed: false,
            constant,
            form: TypedForm::Compared(op, a, b),
        })
    }

    /// An operator on the truth of two operands (11.4.7).
    #[tactic(auto, using(crate::proofs::Made::stands_combined, crate::proofs::Sound::sound_combined))]
    pub fn combined(alloc: Global, op: Logic, a: Typed, b: Typed) -> Result<Typed, AllocError>
        ensures stands { IfOk result (λ t. (m n : Meaning) → Stands a m → Stands b n → Stands t (logical (combined_truths op) m n)) }
        ensures sound { IfOk result (λ t. IsSound a → IsSound b → IsSound t) }
    {
        let constant = a.constant && b.constant;
        let (a, b) = both_boxed(alloc, a, b)?;
        Ok(Typed {
            width: 1,
            signed: false,
            constant,
            form: TypedForm::Combined(op, a, b),
        })
    }

    /// A binary operator but for `**` (11.4.3 to 11.4.10).
    pub fn pair(alloc: Global, op: Pair, a: Typed, b: Typed) -> Result<Typed, AllocError>
        ensures stands { IfOk result (λ t. (m n : Meaning) → Stands a m → Stands b n → Stands t (pair_meaning op m n)) }
        ensures sound { IfOk result (λ t. IsSound a → IsSound b → IsSound t) }
    {
        match op {
            Pair::Computed(op) => Typed::computed(alloc, op, a, b),
            Pair::Moved(op) => Typed::moved(alloc, op, a, b),
            Pair::Compared(op) => Typed::compared(alloc, op, a, b),
            Pair::Combined(op) => Typed::combined(alloc, op, a, b),
        }
    }

    /// `? :` of a condition by itself and two operands in the context (11.4.11).
    #[tactic(auto, using(crate::proofs::Made::stands_chosen, crate::proofs::Sound::sound_chosen))]
    pub fn chosen(alloc: Global, condition: Typed, a: Typed, b: Typed) -> Result<Typed, AllocError>
        ensures stands { IfOk result (λ t. (l m n : Meaning) → Stands condition l → Stands a m → Stands b n → Stands t (chosen l m n)) }
        ensures sound { IfOk result (λ t. IsSound condition → IsSound a → IsSound b → IsSound t) }
    {
        let width = a.width.max(b.width);
        let signed = a.signed && b.signed;
        let constant = condition.constant && a.constant && b.constant;
        let ((a, b), condition) = both((a, b), Boxed::new(alloc, condition))?;
        let (a, b) = both_boxed(alloc, a, b)?;
        Ok(Typed {
            width,
            signed,
            constant,
            form: TypedForm::Chosen(condition, a, b),
        })
    }

    /// An operand in the context to the power that the bits of `b` by itself give (11.4.3).
    #[tactic(auto, using(crate::proofs::Made::stands_power, crate::proofs::Sound::sound_power))]
    pub fn power(alloc: Global, a: Typed, b: &Typed, bits: &Four) -> Result<Typed, AllocError>
        ensures stands { IfOk result (λ t. (m n : Meaning) (p : Place) → Stands a m → Stands b.now n → bits.now ≡ own b.now nowhere → Stands t (power p m n)) }
        ensures sound { IfOk result (λ t. IsSound a → IsSound t) }
    {
        let constant = a.constant && b.constant;
        Ok(Typed {
            width: a.width,
            signed: a.signed,
            constant,
            form: TypedForm::Power(Boxed::new(alloc, a)?, exponent(bits, b.signed)),
        })
    }

    /// `$clog2` of a constant of these bits (20.8.1). Takes no memory.
    #[tactic(auto, using(crate::proofs::Named::stands_log, crate::proofs::Sound::sound_number))]
    pub fn log_up(alloc: Global, bits: &Four) -> Typed
        ensures stands { (m : Meaning) (p : Place) → IsTrue (is_known bits.now) → constant_of m ≡ bits.now → Stands result (from p (log_up m)) }
        ensures sound { IsSound result }
    {
        let value = vector(32, log_up(bits.low()) as u128);
        Typed {
            width: 32,
            signed: true,
            constant: true,
            form: TypedForm::Named {
                root: Root::Number(value),
                picks: Items::new(alloc),
            },
        }
    }

    /// A cast to a sign (6.24.1).
    #[tactic(auto, using(crate::proofs::Made::stands_standing, crate::proofs::Sound::sound_standing))]
    pub fn standing(alloc: Global, signed: bool, a: Typed) -> Result<Typed, AllocError>
        ensures stands { IfOk result (λ t. (m : Meaning) (p : Place) → Stands a m → Stands t (from p (to_sign signed m))) }
        ensures sound { IfOk result (λ t. IsSound a → IsSound t) }
    {
        Ok(Typed {
            width: a.width,
            signed,
            constant: a.constant,
            form: TypedForm::Standing(Boxed::new(alloc, a)?),
        })
    }

    /// A cast to a type of so many bits and such a sign, or to a size, which keeps the sign (6.24.1).
    #[tactic(auto, using(crate::proofs::Made::stands_layout, crate::proofs::Made::stands_sized, crate::proofs::Sound::sound_fitted))]
    pub fn fitted(alloc: Global, width: u8, signed: bool, a: Typed) -> Result<Typed, AllocError>
        ensures layout { IfOk result (λ t. (x : Layout) (m : Meaning) (p : Place) → Stands a m → layout_width x ≡ width → is_signed x ≡ signed → Stands t (from p (to_layout x m))) }
        ensures size { IfOk result (λ t. (n m : Meaning) → Stands a m → nat_abs (number_of n) ≡ width → a.signed ≡ signed → Stands t (sized_by n m)) }
        ensures sound { IfOk result (λ t. IsSound a → IsWidth width → IsSound t) }
    {
        Ok(Typed {
            width,
            signed,
            constant: a.constant,
            form: TypedForm::Fitted(Boxed::new(alloc, a)?),
        })
    }

    /// Parts side by side, the first the most significant (11.4.12).
    #[tactic(auto, using(crate::proofs::Parts::stands_concat, crate::proofs::Sound::sound_concat))]
    pub fn concat(parts: Items<Typed>) -> Typed
        requires { width_together parts ≤ 128 }
        ensures stands { (all : List Meaning) (p : Place) → AllZip Stands parts all → All IsSound parts → Stands result (concat p all) }
        ensures sound { All IsSound parts → 1 ≤ width_together parts → IsSound result }
    {
        let width = width_together(parts.as_slice());
        let constant = are_constant(parts.as_slice());
        Typed {
            width,
            signed: false,
            constant,
            form: TypedForm::Concat(parts),
        }
    }

    /// So many copies of parts side by side (11.4.12.1).
    #[tactic(auto, using(crate::proofs::Parts::stands_repeat, crate::proofs::Sound::sound_repeat))]
    pub fn repeat(count: u8, parts: Items<Typed>) -> Typed
        requires some { 1 ≤ count }
        requires most { count * width_together parts ≤ 128 }
        ensures stands { (all : List Meaning) (n : Meaning) (p : Place) → AllZip Stands parts all → All IsSound parts → nat_abs (number_of n) ≡ count → Stands result (repeated p n all) }
        ensures sound { All IsSound parts → 1 ≤ width_together parts → IsSound result }
    {
        let width = count * width_together(parts.as_slice());
        let constant = are_constant(parts.as_slice());
        Typed {
            width,
            signed: false,
            constant,
            form: TypedForm::Repeat(count, parts),
        }
    }
}
