//! The bits of typed expressions, where signals are unknown. It takes no memory, since vectors are copied: so a constant is found
//! wherever one is asked for, and never refused.
ghost use Rattle.std.specs.Prelude.{◌≡◌, ◌≤◌, ◌*◌, ◌++◌, max, ◌&&◌, not, length};
ghost use Rattle.std.specs.List.{All};
ghost use Rattle.fourvec.specs.Bits.{is_known_bit, cond_of, truth_of};
ghost use Rattle.fourvec.specs.Spots.{window};
ghost use Rattle.sv_meaning.specs.Meanings.{nowhere, top_goes_on, literal_value, bits_at, copies};
ghost use Rattle.sv_typed.specs.Ops.{compared, combined};
ghost use Rattle.sv_typed.specs.Typed.{worth, own, together, picked, pick_place, spot_place, root_bits, root_width, width_together, picked_width, IsSound, PickIsSound, RootIsSound, LiteralIsSound, bits_of, AboveFits};

use crate::bits::{extended, filled, fitted, raised, unknown};
use crate::{
    Comparison, Logic, Pick, PickPlace, Root, Typed, TypedForm, chosen, combined, compared,
    computed, moved, reduced, turned,
};
use fourvec::{Bit, Four, Spot};
use sv_literal::Literal;

// Whether the highest bit of a literal goes on in a longer context: an X or Z, where there is no size (5.7.1).
#[tactic(auto, using(fourvec::proofs::Moves::top_read))]
fn top_goes_on(literal: &Literal) -> bool
    ensures { result ≡ top_goes_on literal.now }
{
    let top = literal.value.bit(literal.value.width() - 1);
    !literal.sized && is_unknown(top)
}

// Whether it is X or Z.
fn is_unknown(bit: Bit) -> bool
    ensures { result ≡ not (is_known_bit bit) }
{
    matches!(bit, Bit::Unknown | Bit::Floating)
}

// A literal in a context.
#[tactic(auto, using(crate::proofs::Worth::literal_ways))]
fn literal_bits(literal: &Literal, width: u8, signed: bool) -> Four
    requires sound { LiteralIsSound literal.now }
    requires fits { length literal.now.value ≤ width }
    requires most { width ≤ 128 }
    ensures is { result ≡ literal_value literal.now width signed }
    ensures width { length result ≡ width }
{
    if literal.fill {
        filled(width, &literal.value)
    } else if top_goes_on(literal) {
        extended(&literal.value, true, width)
    } else {
        extended(&literal.value, signed, width)
    }
}

// A whole constant, or as many X as a signal has bits.
#[tactic(auto, using(crate::proofs::Worth::signal_is_unknown))]
fn root_bits(root: &Root) -> Four
    requires { RootIsSound root.now }
    ensures is { result ≡ root_bits root.now nowhere }
    ensures width { length result ≡ root_width root.now }
{
    match root {
        Root::Number(value) => *value,
        Root::Signal { width, .. } => unknown(*width),
    }
}

// The part at a place.
#[tactic(auto, using(fourvec::proofs::Widths::widths))]
fn fixed_part(bits: &Four, place: i64, width: u8) -> Four
    requires some { 1 ≤ width }
    requires most { width ≤ 128 }
    ensures is { result ≡ window bits.now place width }
    ensures width { length result ≡ width }
{
    let spot = Spot {
        signed: false,
        negate: false,
        each: 0,
        add: place,
        width,
    };
    bits.dyn_slice(&Four::new(1, 0, 0), &spot)
}

// The part at the place that an index gives.
#[tactic(auto, using(crate::proofs::Worth::moving_is, fourvec::proofs::Widths::widths))]
fn moving_part(bits: &Four, index: &Four, spot: &Spot) -> Four
    requires some { 1 ≤ spot.now.width }
    requires most { spot.now.width ≤ 128 }
    ensures is { result ≡ bits_at (spot_place spot.now index.now) spot.now.width bits.now }
    ensures width { length result ≡ spot.now.width }
{
    bits.dyn_slice(index, spot)
}

// Bits, and those above them.
fn beside(above: Option<Four>, bits: &Four) -> Four
    requires { AboveFits above (length bits.now) }
    ensures { result ≡ bits.now ++ bits_of above }
{
    match above {
        Some(above) => above.concat(bits),
        None => *bits,
    }
}

// So many copies.
#[tactic(auto, using(crate::proofs::Worth::one_copy, crate::proofs::Worth::copy_more, crate::proofs::Worth::room_for_more, fourvec::proofs::Widths::widths))]
fn copied(count: u8, bits: &Four) -> Four
    requires some { 1 ≤ count }
    requires most { count * length bits.now ≤ 128 }
    ensures is { result ≡ copies count bits.now }
    ensures width { length result ≡ count * length bits.now }
{
    let mut all = *bits;
    'copies: for made in 1..count {
        all = all.concat(bits);
    }
    all
}

impl Typed {
    /// The bits in a context of a width and sign, where each bit of a signal is X. Takes no memory.
    #[cycle(value)]
    pub fn value(&self, width: u8, signed: bool) -> Four
        requires sound { IsSound self.now }
        requires fits { self.now.width ≤ width }
        requires most { width ≤ 128 }
        ensures is { result ≡ worth self.now nowhere width signed }
        ensures width { length result ≡ width }
    {
        match &self.form {
            TypedForm::Literal(literal) => literal_bits(literal, width, signed),
            TypedForm::Named { root, picks } => {
                extended(&picked(picks.as_slice(), root_bits(root)), signed, width)
            }
            TypedForm::Turned(op, a) => turned(*op, &a.get().value(width, signed)),
            TypedForm::Reduced(op, a) => extended(&reduced(*op, &a.get().own()), signed, width),
            TypedForm::Computed(op, a, b) => {
                let a = a.get().value(width, signed);
                computed(*op, signed, &a, &b.get().value(width, signed))
            }
            TypedForm::Moved(op, a, b) => {
                moved(*op, signed, &a.get().value(width, signed), &b.get().own())
            }
            TypedForm::Compared(op, a, b) => {
                extended(&compare(*op, a.get(), b.get()), signed, width)
            }
            TypedForm::Combined(op, a, b) => {
                extended(&combine(*op, a.get(), b.get()), signed, width)
            }
            TypedForm::Chosen(condition, a, b) => {
                choose(condition.get(), a.get(), b.get(), width, signed)
            }
            TypedForm::Power(a, exponent) => raised(&a.get().value(width, signed), *exponent),
            TypedForm::Concat(parts) => extended(&together(parts.as_slice()), signed, width),
            TypedForm::Repeat(count, parts) => {
                extended(&copied(*count, &together(parts.as_slice())), signed, width)
            }
            TypedForm::Standing(a) => extended(&a.get().own(), signed, width),
            TypedForm::Fitted(a) => {
                let a = a.get();
                extended(&fitted(&a.own(), a.signed, self.width), signed, width)
            }
        }
    }

    /// The bits by itself, where each bit of a signal is X. Takes no memory.
    #[tactic(auto, using(crate::proofs::Below::part_widths))]
    #[cycle(value)]
    pub fn own(&self) -> Four
        requires { IsSound self.now }
        ensures is { result ≡ own self.now nowhere }
        ensures width { length result ≡ self.now.width }
    {
        self.value(self.width, self.signed)
    }
}

// A comparison of two operands at their larger size.
#[tactic(auto, using(crate::proofs::Below::part_widths))]
#[cycle(value)]
fn compare(op: Comparison, a: &Typed, b: &Typed) -> Four
    requires left { IsSound a.now }
    requires right { IsSound b.now }
    ensures is { let w = max a.now.width b.now.width in let s = a.now.signed && b.now.signed in result ≡ compared op s (worth a.now nowhere w s) (worth b.now nowhere w s) }
    ensures width { length result ≡ 1 }
{
    let width = a.width.max(b.width);
    let signed = a.signed && b.signed;
    compared(op, signed, &a.value(width, signed), &b.value(width, signed))
}

// An operator on what is true of two operands.
#[cycle(value)]
fn combine(op: Logic, a: &Typed, b: &Typed) -> Four
    requires left { IsSound a.now }
    requires right { IsSound b.now }
    ensures is { result ≡ combined op (own a.now nowhere) (own b.now nowhere) }
    ensures width { length result ≡ 1 }
{
    let a = a.value(a.width, a.signed);
    let b = b.value(b.width, b.signed);
    combined(op, &a, &b)
}

// One of two operands, by the truth of a third.
#[cycle(value)]
fn choose(condition: &Typed, a: &Typed, b: &Typed, width: u8, signed: bool) -> Four
    requires condition { IsSound condition.now }
    requires left { IsSound a.now }
    requires left_fits { a.now.width ≤ width }
    requires right { IsSound b.now }
    requires right_fits { b.now.width ≤ width }
    requires most { width ≤ 128 }
    ensures is { result ≡ cond_of (truth_of (own condition.now nowhere)) (worth a.now nowhere width signed) (worth b.now nowhere width signed) }
    ensures width { length result ≡ width }
{
    let truth = condition.value(condition.width, condition.signed);
    let a = a.value(width, signed);
    let b = b.value(width, signed);
    chosen(&truth, &a, &b)
}

// Parts side by side.
#[tactic(auto, using(crate::proofs::Worth::together_more, crate::proofs::Worth::together_none, crate::proofs::Worth::together_end, crate::proofs::Lists::width_more, crate::proofs::Lists::width_end))]
#[cycle(value)]
fn together(parts: &[Typed]) -> Four
    requires sound { All IsSound parts.now }
    requires some { 1 ≤ width_together parts.now }
    requires most { width_together parts.now ≤ 128 }
    ensures is { result ≡ together parts.now nowhere }
    ensures width { length result ≡ width_together parts.now }
{
    let mut bits = None;
    'parts: for part in parts {
        bits = Some(beside(bits, &part.own()));
    }
    match bits {
        Some(bits) => bits,
        None => unknown(1),
    }
}

// What a chain of selects reads.
#[tactic(auto, using(crate::proofs::Worth::picked_on, crate::proofs::Worth::picked_done, crate::proofs::Lists::picked_more, crate::proofs::Lists::picked_end))]
#[cycle(value)]
fn picked(picks: &[Pick], bits: Four) -> Four
    requires { All PickIsSound picks.now }
    ensures is { result ≡ picked nowhere picks.now bits }
    ensures width { length result ≡ picked_width picks.now (length bits) }
{
    let mut bits = bits;
    'picks: for pick in picks {
        bits = part(pick, &bits);
    }
    bits
}

// What one select reads.
#[tactic(auto, using(crate::proofs::Worth::place_fixed, crate::proofs::Worth::place_moving, crate::proofs::Below::part_widths))]
#[cycle(value)]
fn part(pick: &Pick, bits: &Four) -> Four
    requires { PickIsSound pick.now }
    ensures is { result ≡ bits_at (pick_place pick.now nowhere) pick.now.width bits.now }
    ensures width { length result ≡ pick.now.width }
{
    match &pick.place {
        PickPlace::Fixed(place) => fixed_part(bits, *place, pick.width),
        PickPlace::Moving { index, spot } => moving_part(bits, &index.get().own(), spot),
    }
}
