// The constants of enumerations (IEEE 1800-2017, 6.19). Each one is seen by the values of those behind it, so it is put above
// the names as it is found, and the caller takes all of them off at the end. The number that a label without a value gets is
// counted past the base's width, so that an enumerator that does not fit is refused at its own name.
ghost use Rattle.std.specs.Prelude.{◌≡◌, ◌≤◌, ℕ, pos, IsTrue, IfOk, OnOk, OnErr, [], ◌∷◌, ◌++◌};
ghost use Rattle.std.specs.Option.{option_copied};
ghost use Rattle.fourvec.specs.Bits.{is_known};
ghost use Rattle.sv_names.specs.Names.{constants_are};
ghost use Rattle.sv_const.specs.Sizes.{JudgesConstant};
ghost use Rattle.sv_meaning.specs.Forms.{can_hold, label_value, label_number, label_entry, labels};
ghost use Rattle.sv_meaning.specs.Meanings.{Meaning};
ghost use Rattle.sv_types.specs.Types.{whole_is, JudgesWhole, JudgesEntry, JudgesLabels, IsAbove, Left, pushed};

use crate::whole::Whole;
use items::Items;
use std::alloc::{AllocError, Global};
use sv_const::eval_const;
use sv_names::{Known, Names};
use sv_outside::{Name, Place, TextErr, refusals};
use sv_tree::{EnumLabel, Expr, Word};
use sv_typing::refusal;

/// A constant that an enumeration declares: its name, where that stands, and its value, of the base's length and sign.
#[derive(Drop)]
pub struct Enumerator {
    pub name: Name,
    pub place: Place,
    pub value: Known,
}

// The number of a constant.
fn number_of(known: Result<Known, TextErr>) -> Result<Whole, TextErr>
    requires { IfOk known (λ k. IsTrue (is_known k.value)) }
    ensures { (w : ℕ) (x : Meaning) → JudgesConstant w x known → JudgesWhole (label_value w x) result }
{
    let known = known?;
    Ok(Whole::of(&known))
}

// The number of an enumerator: given, or the next.
fn label_number(
    alloc: Global,
    width: u8,
    next: Whole,
    value: Option<&Expr>,
    names: &Names<'_>,
) -> Result<Whole, TextErr>
    requires { width ≤ 128 }
    ensures { JudgesWhole (label_number (constants_are names.now) width (whole_is next) (option_copied value.entry)) result }
{
    match value {
        None => Ok(next),
        Some(expr) => number_of(eval_const(alloc, expr, names, width)),
    }
}

// The constant of a number that the base holds, or E14.
fn label_entry(width: u8, signed: bool, word: &Word, number: Whole) -> Result<Enumerator, TextErr>
    requires some { 1 ≤ width }
    requires most { width ≤ 128 }
    ensures is { JudgesEntry (label_entry width signed word.now (whole_is number)) result }
    ensures held { IfOk result (λ e. IsTrue (can_hold width signed (whole_is number))) }
{
    if number.fits_in(width, signed) {
        let value = Known {
            value: number.vector(width, signed),
            signed,
        };
        Ok(Enumerator {
            name: word.text.copy()?,
            place: word.place,
            value,
        })
    } else {
        Err(TextErr::No(refusal(refusals::WIDTH, word.place)))
    }
}

// Adds a constant to the names and to those that are declared.
fn declare(
    names: &mut Names<'_>,
    declared: &mut Items<Enumerator>,
    constant: Enumerator,
) -> Result<(), AllocError>
    ensures ok { OnOk result (declared.new ≡ declared.old ++ constant ∷ []) }
    ensures above { OnOk result (IsAbove names.old names.new (pushed constant ∷ [])) }
    ensures err { OnErr result (Left names.old names.new) }
{
    let name = constant.name.copy()?;
    names.push_loop(name, constant.value)?;
    declared.push(constant)
}

/// The constants of the labels, which count up from 0 and are added to the names; or E14, or what an expression is refused
/// for.
pub(crate) fn enumerators(
    alloc: Global,
    width: u8,
    signed: bool,
    all: &[EnumLabel],
    names: &mut Names<'_>,
) -> Result<Items<Enumerator>, TextErr>
    requires some { 1 ≤ width }
    requires most { width ≤ 128 }
    ensures { JudgesLabels (labels (constants_are names.old) width signed (pos 0) all.now) names.old names.new result }
{
    let mut declared = Items::new(alloc);
    let mut next = Whole::Natural(0);
    'labels: for label in all {
        let number = label_number(alloc, width, next, label.value.as_ref(), names)?;
        let constant = label_entry(width, signed, &label.name, number)?;
        declare(names, &mut declared, constant)?;
        next = number.next(width, signed);
    }
    Ok(declared)
}
