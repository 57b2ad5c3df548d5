//! Reads a flat design from its text.

ghost use Rattle.std.specs.Prelude.{◌≡◌, ℕ, Err, IfOk};
ghost use Rattle.flat_net.specs.Flats.{IsFlat};
ghost use Rattle.flat_text.specs.FlatTexts.{FlatText, BreaksAt};
ghost use Rattle.flat_read.specs.declared.error.FlatErr.TheVariants.{BadLine};

use crate::error::FlatErr;
use crate::reader::Reader;
use flat_net::Flat;
use std::alloc::Global;

/// The design that a text stands for, in time linear in the text; nodes that are equal in the text are one in the design.
pub fn read_flat(alloc: Global, text: &[u8]) -> Result<Flat, FlatErr>
    ensures stands { IfOk result (λ flat. FlatText text.now flat) }
    ensures sound { IfOk result (λ flat. IsFlat flat) }

    // `BadLine` comes only with the first line that is missing or breaks the form.
    ensures line { (n : ℕ) → result ≡ Err (BadLine n) → BreaksAt text.now n }
{
    let Some(rest) = text.strip_prefix(b"flat 1\n") else {
        return Err(FlatErr::BadLine(1));
    };
    let mut reader = Reader::new(alloc);
    reader.lines(rest)?;
    Ok(reader.into_flat())
}
