// Based literals.
ghost use Rattle.std.specs.Prelude.{◌≡◌, ◌≢◌, ◌↔◌, ◌&&◌, ◌<◌, ◌≤◌, not, IfOk, IsTrue, if◌then◌else◌};
ghost use Rattle.sv_outside.specs.Literals.{is_based};
ghost use Rattle.sv_literal.specs.Meaning.{is_nonempty, is_width, is_wide, is_large_value, based_of};
ghost use Rattle.sv_literal.specs.Value.{decimal, exceeds_word};

use crate::digits::capped_decimal;
use crate::meaning::{LitErr, Literal};
use crate::shape::{behind_first, has_sign, split_size, without_sign};
use crate::value::{exceeds_word, vector_of};

// The width that a size says, and 32 without a size.
fn width_of(size: &[u8], value: &[u8]) -> Result<u8, LitErr>
    ensures wide { (result ≡ Err LitErr.Wide)
        ↔ IsTrue (is_nonempty size.now && not (is_width (decimal size.now))) }
    ensures range { (result ≡ Err LitErr.Range)
        ↔ IsTrue (not (is_nonempty size.now) && exceeds_word value.now) }
    ensures shape { result ≢ Err LitErr.Shape }
    ensures width { IfOk result (λ w. w ≡ (if is_nonempty size.now then decimal size.now else 32)) }
    ensures least { IfOk result (λ w. 0 < w) }
    ensures most { IfOk result (λ w. w ≤ 128) }
{
    if size.is_empty() {
        return if exceeds_word(value) {
            Err(LitErr::Range)
        } else {
            Ok(32)
        };
    }
    let width = capped_decimal(size);
    if width == 0 || width > 128 {
        return Err(LitErr::Wide);
    }
    Ok(width as u8)
}

/// A based literal, with or without a size.
pub fn based(text: &[u8]) -> Result<Literal, LitErr>
    requires { IsTrue (is_based text.now) }
    ensures shape { result ≢ Err LitErr.Shape }
    ensures wide { (result ≡ Err LitErr.Wide) ↔ IsTrue (is_wide text.now) }
    ensures range { (result ≡ Err LitErr.Range) ↔ IsTrue (is_large_value text.now) }
    ensures value { IfOk result (λ l. l ≡ based_of text.now) }
{
    let (size, behind) = split_size(text);
    let suffix = behind_first(behind);
    let value = without_sign(suffix);
    let width = width_of(size, value)?;
    Ok(Literal {
        value: vector_of(width, value),
        sized: !size.is_empty(),
        signed: has_sign(suffix),
        fill: false,
    })
}
