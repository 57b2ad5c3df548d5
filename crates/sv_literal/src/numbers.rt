// Decimal numbers.
ghost use Rattle.std.specs.Prelude.{◌≡◌, ◌↔◌, ◌^◌, ◌≤◌, IfOk, OnErr};
ghost use Rattle.sv_literal.specs.Meaning.{number_of};
ghost use Rattle.sv_literal.specs.Value.{decimal};

use crate::digits::{capped_decimal, vector};
use crate::meaning::{LitErr, Literal};

/// A decimal number: a signed integer of 32 bits.
#[tactic(auto, unfolding(crate::specs::Meaning::number_of))]
pub fn number(text: &[u8]) -> Result<Literal, LitErr>
    ensures range { (result ≡ Err LitErr.Range) ↔ (2 ^ 31 ≤ decimal text.now) }
    ensures only { OnErr result (result ≡ Err LitErr.Range) }
    ensures value { IfOk result (λ l. l ≡ number_of text.now) }
{
    let number = capped_decimal(text);
    if number >= 1 << 31 {
        return Err(LitErr::Range);
    }
    Ok(Literal {
        value: vector(32, u128::from(number)),
        sized: false,
        signed: true,
        fill: false,
    })
}
