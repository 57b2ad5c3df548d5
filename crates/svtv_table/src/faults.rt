// Refusals of CSV texts.
ghost use Rattle.std.specs.Prelude.{◌≡◌};
ghost use Rattle.sv_outside.specs.declared.refusal.TextErr.TheVariants.{No};
ghost use Rattle.svtv_table.specs.Faults.{fault};

use sv_outside::{Place, Refusal, TextErr};

/// A refusal by its number, at a record and one of its fields, both counted from 1.
pub fn refused(number: u8, line: usize, column: usize) -> TextErr
    ensures { result ≡ No (fault number line column) }
{
    TextErr::No(Refusal {
        number,
        place: Place {
            file: 0,
            line,
            column,
        },
        count: 0,
    })
}
