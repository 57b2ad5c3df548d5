// The choice of a number.
ghost use Rattle.std.specs.Prelude.{◌≡◌, ◌≤◌, ◌<◌, ◌%◌, ◌/◌, All, IfOk};
ghost use Rattle.fourvec.specs.Bits.{vector};
ghost use Rattle.svtv_choices.specs.Choices as spec;
ghost use Rattle.svtv_choices.specs.Choices.{AreNumbered, bits_of};
ghost use Rattle.svtv_table.specs.Binding.{HasWidth};

use fourvec::Four;
use items::Items;
use std::alloc::{AllocError, Global};
use svtv_table::VarDecl;

// The low bits of a number as a vector.
#[tactic(auto, using(crate::proofs::Numbers::low_vector))]
fn low_bits(number: u64, width: u8) -> Four
    requires some { 0 < width }
    requires most { width ≤ 16 }
    ensures { result ≡ vector width number }
{
    let low = u128::from(number % (1 << width));
    Four::new(width, low, low)
}

/// The choice of a number: the first variable has its least significant bits, and so on.
pub fn choice_of(alloc: Global, vars: &[VarDecl], number: u64) -> Result<Items<Four>, AllocError>
    requires widths { All (λ var. HasWidth var.width) vars.now }
    requires few { bits_of vars.now ≤ 16 }
    ensures { IfOk result (λ choice. choice ≡ spec.choice_of vars.now number) }
{
    let mut choice = Items::new(alloc);
    let mut left = number;
    'vars: for var in vars {
        choice.push(low_bits(left, var.width))?;
        left >>= var.width;
    }
    Ok(choice)
}

/// Each choice has a number, and each number a choice.
#[tactic(auto, using(crate::proofs::Numbers::all_numbered))]
pub fn all_numbered()
    ensures { AreNumbered }
{}
