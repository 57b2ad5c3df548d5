//! The value of a literal of SystemVerilog source (IEEE 1800-2017, 5.7.1).
//!
//! No blank stands inside a literal (this tool's own rule). A text may be as long as memory holds: each digit takes a fixed
//! number of steps on words, and no call allocates.
#![tactic(auto)]

ghost use Rattle.std.specs.Prelude.{◌≡◌, ◌↔◌, IfOk, IsTrue, IsFalse};
ghost use Rattle.sv_outside.specs.Literals.{is_literal};
ghost use Rattle.sv_literal.specs.Meaning.{is_wide, is_out_of_range, meaning_of};

mod bases;
mod bytes;
mod digits;
mod fills;
mod meaning;
mod numbers;
mod shape;
mod value;

use bases::based;
use fills::fill;
pub use meaning::{LitErr, Literal};
use numbers::number;
use shape::{is_based, is_fill, is_number};

/// What a literal stands for: `Shape` where the text is none, `Wide` where its size is no width of a vector, and `Range`
/// where it has no size and an integer does not hold it.
#[tactic(auto, using(crate::proofs::Parts::none_wide, crate::proofs::Parts::none_large, crate::proofs::Parts::number_is_not_based), unfolding(crate::specs::Meaning::meaning_of, crate::specs::Meaning::is_large_number))]
pub fn literal(text: &[u8]) -> Result<Literal, LitErr>
    ensures shape { (result ≡ Err LitErr.Shape) ↔ IsFalse (is_literal text.now) }
    ensures wide { (result ≡ Err LitErr.Wide) ↔ IsTrue (is_wide text.now) }
    ensures range { (result ≡ Err LitErr.Range) ↔ IsTrue (is_out_of_range text.now) }
    ensures value { IfOk result (λ l. l ≡ meaning_of text.now) }
{
    if is_number(text) {
        number(text)
    } else if is_based(text) {
        based(text)
    } else if is_fill(text) {
        Ok(fill(text))
    } else {
        Err(LitErr::Shape)
    }
}
